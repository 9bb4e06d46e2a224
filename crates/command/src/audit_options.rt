//! How logs are judged, from the words of a command line.

ghost use Rattle.std.specs.Prelude.{IfErr, IfOk};
ghost use Rattle.command.specs.Audits.{AreOptionsOf, IsDriftGiven, IsDriftOrNone, IsNotRead};

use crate::arguments::AuditFlags;
use crate::log_audit::AuditError;
use audit_text::AuditOptions;
use clocks::Drift;
use std::alloc::{AllocError, Global};

// Returns the drift that is written `EXTRA/PER/GRAIN`.
fn drift_in(alloc: Global, words: &str) -> Result<Option<Drift>, AllocError>
    ensures { IfOk result (IsDriftOrNone words.now) }
{
    let Some((extra, rest)) = words.split_once('/') else {
        return Ok(None);
    };
    let Some((per, grain)) = rest.split_once('/') else {
        return Ok(None);
    };
    let (Ok(extra), Ok(per), Ok(grain)) = (
        extra.parse::<u64>(),
        per.parse::<u64>(),
        grain.parse::<u64>(),
    ) else {
        return Ok(None);
    };
    let Some(drift) = Drift::new(extra, per, grain) else {
        return Ok(None);
    };
    let written = format!(in alloc; "{}/{}/{}", drift.extra, drift.per, drift.grain)?;
    if written.as_str() == words {
        Ok(Some(drift))
    } else {
        Ok(None)
    }
}

/// Returns the drift that is given, if one is.
///
/// # Errors
///
/// [`AuditError::NoDrift`] if the words are no drift. Out of memory is [`AuditError::Memory`].
pub fn drift_given<'a>(
    alloc: Global,
    given: Option<&'a str>,
) -> Result<Option<Drift>, AuditError<'a>>
    ensures ok { IfOk result (IsDriftGiven given.entry) }
    ensures err { IfErr result IsNotRead }
{
    let Some(words) = given else {
        return Ok(None);
    };
    match drift_in(alloc, words)? {
        Some(drift) => Ok(Some(drift)),
        None => Err(AuditError::NoDrift(words)),
    }
}

/// Returns how logs are to be judged.
///
/// # Errors
///
/// [`AuditError::NoDrift`] if the drift that is given is no drift. Out of memory is
/// [`AuditError::Memory`].
pub fn options_of<'a>(alloc: Global, flags: AuditFlags<'a>) -> Result<AuditOptions, AuditError<'a>>
    ensures ok { IfOk result (AreOptionsOf flags.entry) }
    ensures err { IfErr result IsNotRead }
{
    Ok(AuditOptions {
        all: flags.all,
        drift: drift_given(alloc, flags.drift)?,
        keeps: flags.keeps,
    })
}
