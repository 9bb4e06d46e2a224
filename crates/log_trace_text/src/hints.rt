//! What logs may lack that are not one run.

ghost use Rattle.std.specs.Prelude.{◌≡◌, IfOk, option_map};
ghost use Rattle.cluster.specs.continued.Jobs.{Continued};
ghost use Rattle.log_run.specs.Starts.{Begins};
ghost use Rattle.log_trace_text.specs.Endings.{AreHintsTold, grants_of, hints_of, open_of};

use crate::reason::number_of;
use log_causes::{Finding, Hints as Lacking, MissingGrants, MissingOpen, hints_for};
use log_line::LogEntry;
use log_run::Start;
use std::alloc::{AllocError, Global};
use trace_ends::{GrantsHint, Hints, OpenHint};

fn open_of(entries: &[LogEntry], missing: Option<MissingOpen>) -> Option<OpenHint>
    ensures { result ≡ open_of entries.now missing }
{
    let missing = missing?;
    let before = number_of(entries, Some(missing.index))?;
    Some(OpenHint {
        task: missing.task,
        life: missing.life,
        before,
    })
}

fn grants_of(missing: Option<MissingGrants>) -> Option<GrantsHint>
    ensures { result ≡ option_map grants_of missing }
{
    let missing = missing?;
    Some(GrantsHint {
        from: missing.first,
        to: missing.last,
    })
}

// Returns the same with calls by their numbers from 1 in the place of indices of entries.
fn hints_of(entries: &[LogEntry], lacking: &Lacking) -> Hints
    ensures { result ≡ hints_of entries.now lacking.now }
{
    Hints {
        process: open_of(entries, lacking.process),
        begin: lacking.start,
        grants: grants_of(lacking.grants),
    }
}

/// Returns what the logs may lack, by what was found.
pub(crate) fn hints_told(
    alloc: Global,
    start: &Start,
    entries: &[LogEntry],
    finding: &Finding,
) -> Result<Hints, AllocError>
    ensures { (job : Continued) → Begins job start.now → IfOk result (AreHintsTold job entries.now finding.now) }
{
    let lacking = hints_for(alloc, start, entries, finding)?;
    Ok(hints_of(entries, &lacking))
}
