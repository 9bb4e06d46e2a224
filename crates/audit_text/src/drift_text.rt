//! The line that says whether clocks kept their drift.

ghost use Rattle.std.specs.Prelude.{◌≡◌, IfOk, Some, map, string_bytes};
ghost use Rattle.audit_text.specs.DriftReports.{drift_text, fault_text};

use crate::standing::{NamedEntries, Standing};
use log_run::{ClockFault, DriftFault};
use std::alloc::{AllocError, Global};
use std::fmt;

/// Displays what is wrong with a sample.
#[derive(Clone, Copy)]
struct FaultText(DriftFault);

impl fmt::Display for FaultText {
    ghost output = { λ f. Some (fault_text f.0) };

    fn fmt<W: fmt::Write>(&self, f: &mut fmt::Formatter<W>) -> fmt::Result {
        let taken = self.0.taken;
        let now = taken.now;
        match self.0.why {
            ClockFault::Back => write!(f, "\"now\" is {now}, below that of a sample before"),
            ClockFault::SentAhead => {
                write!(
                    f,
                    "\"sent\" is {}, above \"now\", which is {now}",
                    taken.sample.sent
                )
            }
            ClockFault::Beyond(most) => {
                write!(
                    f,
                    "\"reading\" is {}, and by the samples before at most {most} at {now}",
                    taken.sample.reading
                )
            }
        }
    }
}

/// Returns the line that says whether the samples show that clocks did not keep a drift.
pub fn drift_text(
    alloc: Global,
    log: NamedEntries,
    fault: Option<DriftFault>,
) -> Result<String, AllocError>
    ensures { IfOk result (λ text. string_bytes text
        ≡ drift_text (map (λ n. n.now) log.entry.names.now) log.entry.entries.now fault) }
{
    let Some(fault) = fault else {
        return String::from_str(alloc, "drift yes\n");
    };
    let index = fault.index;
    let standing = Standing { log, index };
    format!(in alloc; "drift no: {standing}: {}\n", FaultText(fault))
}
