//! The lines that are written for the report of a live run.

ghost use Rattle.std.specs.Prelude.{◌≡◌, Some, IfOk, string_bytes};
ghost use Rattle.live_text.specs.Lines.{why_word, audit_text, live_text};

use audit::{Audit, Why};
use live_run::LiveReport;
use std::alloc::{AllocError, Global};
use std::fmt;

/// The word for a fault that an audit found.
#[derive(Clone, Copy)]
struct WhyWord(Why);

impl fmt::Display for WhyWord {
    ghost output = { λ w. Some (why_word w.0) };

    fn fmt<W: fmt::Write>(&self, f: &mut fmt::Formatter<W>) -> fmt::Result {
        f.write_str(match self.0 {
            Why::Double => "double",
            Why::Order => "order",
            Why::RefusedEntry => "refused-entry",
            Why::OtherReply => "other-reply",
        })
    }
}

/// What an audit found, in one line or two, each with its line feed.
#[derive(Clone, Copy)]
struct AuditLines(Audit);

impl fmt::Display for AuditLines {
    ghost output = { λ a. Some (audit_text a.0) };

    fn fmt<W: fmt::Write>(&self, f: &mut fmt::Formatter<W>) -> fmt::Result {
        match self.0 {
            Audit::One { timely: true, .. } => f.write_str("audit one\ntimely yes\n"),
            Audit::One { timely: false, .. } => f.write_str("audit one\ntimely no\n"),
            Audit::No { ticket, why } => {
                let why = WhyWord(why);
                write!(f, "audit no {ticket} {why}\n")
            }
        }
    }
}

/// Returns the lines of a report.
pub fn text_of(alloc: Global, report: &LiveReport) -> Result<String, AllocError>
    ensures { IfOk result (λ text. string_bytes text ≡ live_text report.now.asked report.now.generation report.now.audit) }
{
    let mut text = String::new(alloc);
    writeln!(text, "asked {}", report.asked)?;
    writeln!(text, "generation {}", report.generation)?;
    write!(text, "{}", AuditLines(report.audit))?;
    Ok(text)
}
