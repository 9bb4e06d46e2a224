//! The bytes of a job in, the lines of its report out.

ghost use Rattle.std.specs.Prelude.{IfErr, IfOk};
ghost use Rattle.live_text.specs.Inputs.{Answered, Failed};

use crate::fault::InputError;
use crate::input::parsed;
use crate::lines::text_of;
use audit::Audit;
use live_run::run_live;
use program_io::{Fault, read_all, write_all};
use shared_objects::Gate;
use std::alloc::Global;
use std::io::{Read, Write};
use std::sync::Wait;
use std::thread::Threads;

/// Reads the job of a live run, runs it in threads, writes its report, and returns the audit's
/// finding.
///
/// Nothing is written before the whole job was read, run and audited. So nothing was written after
/// a refused input, a read fault or out of memory. After a write fault, a prefix was written.
pub fn run_live_text<H: Threads + Wait + Sync, R: Read, W: Write, G: Gate + Sync>(
    rt: &H,
    alloc: Global,
    reader: &mut R,
    writer: &mut W,
    gate: &G,
) -> Result<Audit, Fault<InputError>>
    ensures ok { IfOk result (λ found. Answered (R.remaining reader.old) (R.remaining reader.new)
        (W.contents writer.old) (W.contents writer.new) found) }
    ensures err { IfErr result (Failed (R.remaining reader.old) (R.remaining reader.new)
        (W.contents writer.old) (W.contents writer.new)) }
{
    let bytes = read_all(alloc, reader)?;
    let job = parsed(alloc, bytes.as_slice())?;
    let report = run_live(rt, alloc, &job, gate)?;
    let text = text_of(alloc, &report)?;
    write_all(writer, text.as_str().as_bytes())?;
    Ok(report.audit)
}
