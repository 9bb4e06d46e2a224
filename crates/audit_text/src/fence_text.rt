//! The line that says whether the writes obey the law of fencing tokens.

ghost use Rattle.std.specs.Prelude.{◌≡◌, IfOk, Some, is_some, map, string_bytes};
ghost use Rattle.cluster.specs.continued.Jobs.{Continued};
ghost use Rattle.log_run.specs.Starts.{Begins};
ghost use Rattle.audit_text.specs.FenceReports.{IsFenceTold, are_judged, fence_text, place_text, reason_text};

use crate::standing::{NamedEntries, name_of};
use faults::Escaped;
use log_line::{LinePosition, WriteEntry};
use log_run::Start;
use log_writes::{FenceFault, FenceReason, fence_fault};
use std::alloc::{AllocError, Global};
use std::fmt;

/// Displays a position: the name of its file, a colon and the number of its line.
#[derive(Clone, Copy)]
struct PlaceText<'a> {
    names: &'a [&'a str],
    place: LinePosition,
}

impl fmt::Display for PlaceText<'_> {
    ghost output = { λ p. Some (place_text (map (λ n. n.now) p.names.now) p.place) };

    fn fmt<W: fmt::Write>(&self, f: &mut fmt::Formatter<W>) -> fmt::Result {
        let name = name_of(self.names, self.place.file);
        write!(f, "{}:{}", Escaped(name), self.place.line)
    }
}

/// Displays why a write is ruled out.
#[derive(Clone, Copy)]
struct ReasonText<'a> {
    names: &'a [&'a str],
    why: FenceReason,
}

impl fmt::Display for ReasonText<'_> {
    ghost output = { λ r. Some (reason_text (map (λ n. n.now) r.names.now) r.why) };

    fn fmt<W: fmt::Write>(&self, f: &mut fmt::Formatter<W>) -> fmt::Result {
        match self.why {
            FenceReason::NotGiven => {
                f.write_str("no task was given its token for its key before")
            }
            FenceReason::Overtaken(place) => {
                let names = self.names;
                let by = PlaceText { names, place };
                write!(f, "taken after {by}, whose token is greater")
            }
        }
    }
}

// Returns the line that says whether the writes obey the law.
fn fence_text(
    alloc: Global,
    names: &[&str],
    fault: Option<FenceFault>,
) -> Result<String, AllocError>
    ensures { IfOk result (λ text. string_bytes text ≡ fence_text (map (λ n. n.now) names.now) fault) }
{
    let Some(fault) = fault else {
        return String::from_str(alloc, "fenced yes\n");
    };
    let place = PlaceText {
        names,
        place: fault.place,
    };
    let why = ReasonText {
        names,
        why: fault.why,
    };
    format!(in alloc; "fenced no: {place}: {why}\n")
}

/// What is told of the writes of a log.
#[derive(Drop)]
pub struct FenceTold {
    /// Whether the law of fencing tokens rules out none of them, as far as they are judged.
    pub is_fenced: bool,
    /// The line of the report, or nothing.
    pub line: String,
}

// Whether writes are judged: there are some, and the calls are one run.
fn are_judged(is_one: bool, writes: &[WriteEntry]) -> bool
    ensures { result ≡ are_judged is_one writes.now }
{
    is_one && !writes.is_empty()
}

/// Judges the writes of a log by the law of fencing tokens, if there are some and the calls are one
/// run.
pub fn fence_told(
    alloc: Global,
    start: &Start,
    log: NamedEntries,
    writes: &[WriteEntry],
    is_one: bool,
) -> Result<FenceTold, AllocError>
    ensures { (job : Continued) → Begins job start.now
        → IfOk result (λ told. IsFenceTold job (is_some start.now.earlier) (map (λ n. n.now) log.entry.names.now) log.entry.entries.now
        writes.now is_one told.is_fenced (string_bytes told.line)) }
{
    if !are_judged(is_one, writes) {
        return Ok(FenceTold {
            is_fenced: true,
            line: String::new(alloc),
        });
    }
    let fault = fence_fault(alloc, start, log.entries, writes)?;
    let line = fence_text(alloc, log.names, fault)?;
    Ok(FenceTold {
        is_fenced: fault.is_none(),
        line,
    })
}
