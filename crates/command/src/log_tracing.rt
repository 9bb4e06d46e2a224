//! `hourstable trace --logs`: reads logs, and writes their trace.

ghost use Rattle.std.specs.Prelude.{IfErr, IfOk, map};
ghost use Rattle.command.specs.Audits.{AreNotJudged};
ghost use Rattle.command.specs.Traces.{AreTraced, IsTracing, IsUntraced};

use crate::arguments::TraceFlags;
use crate::log_audit::{AuditError, Counting, OpenedLogs, open_all, say_torn};
use crate::saved_state::check_state;
use crate::trace_options::trace_options;
use log_line::ReadLog;
use log_trace_text::{TracedLog, traced_log};
use program_io::write_all;
use std::io::{Read, Write};
use std::rt::Files;

/// Logs to trace.
#[derive(Clone, Copy, Debug)]
pub struct LogTracing<'n, 'a> {
    /// The names of the logs, where `-` is standard input.
    pub names: &'n [&'a str],
    /// Which trace is wanted.
    pub flags: TraceFlags<'a>,
}

// Reads the logs, and returns their trace.
fn traced<'a, R: Read, E: Write>(
    rt: &(impl Files + AllocGlobal),
    tracing: LogTracing<'_, 'a>,
    input: &mut R,
    errors: &mut E,
) -> Result<TracedLog, AuditError<'a>>
    ensures ok { IfOk result (AreTraced (map (λ n. n.now) tracing.entry.names.now) tracing.entry.flags
        (R.remaining input.old) (R.remaining input.new)) }
    ensures err { IfErr result (AreNotJudged tracing.entry.flags.goes_on (map (λ n. n.now) tracing.entry.names.now)
        (R.remaining input.old) (R.remaining input.new)) }
{
    let mut progress = Counting {
        errors,
        is_wanted: false,
    };
    let options = trace_options(rt.alloc(), tracing.flags)?;
    let names = tracing.names;
    let opened = open_all(rt, names, tracing.flags.goes_on, input, &mut progress)?;
    let OpenedLogs { read, earlier } = opened;
    let ReadLog { log, .. } = read;
    check_state(rt.alloc(), names, log.job, &earlier)?;
    let traced = traced_log(rt.alloc(), names, log, earlier, options, &mut progress)?;
    Ok(traced)
}

/// Writes the trace of the logs with these names, and returns whether their calls are one run.
///
/// The logs are read in their order as for an audit, and traced as one log. Nothing is written to
/// `output` before all logs were read. Last lines that are left out are reported first.
///
/// # Errors
///
/// In this order: a key or a drift that is refused, a state or a log that cannot be opened, read or
/// parsed, a state of another job, and a failed write. Out of memory may come at any point.
pub fn trace_named<'a, R: Read, W: Write, E: Write>(
    rt: &(impl Files + AllocGlobal),
    tracing: LogTracing<'_, 'a>,
    input: &mut R,
    output: &mut W,
    errors: &mut E,
) -> Result<bool, AuditError<'a>>
    ensures ok { IfOk result (IsTracing (map (λ n. n.now) tracing.entry.names.now) tracing.entry.flags
        (R.remaining input.old) (R.remaining input.new) (W.contents output.old) (W.contents output.new)) }
    ensures err { IfErr result (IsUntraced (map (λ n. n.now) tracing.entry.names.now) tracing.entry.flags
        (R.remaining input.old) (R.remaining input.new) (W.contents output.old) (W.contents output.new)) }
{
    let traced = traced(rt, tracing, input, errors)?;
    say_torn(errors, tracing.names, traced.torn.as_slice());
    write_all(output, traced.text.as_slice())?;
    Ok(traced.is_one)
}
