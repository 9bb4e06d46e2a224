//! The bytes of a script in, the bytes of its replies out.

ghost use Rattle.std.specs.Prelude.{IfOk, IfErr, OnOk};
ghost use Rattle.program_io.specs.Status.{IsUnread};
ghost use Rattle.service.specs.Service.{SaysScript, IsRefusedFor, Answered, Failed};

use crate::output::output_of;
use crate::script::{Script, script_of};
use faults::ScriptError;
use program_io::{Fault, Unread, read_all, value_of, write_all};
use std::alloc::Global;
use std::io::{Read, Write};

// Reads a script from bytes.
fn parsed(alloc: Global, bytes: &[u8]) -> Result<Script, Fault<ScriptError>>
    ensures ok { IfOk result (SaysScript bytes.now) }
    ensures err { IfErr result (IsUnread (IsRefusedFor bytes.now)) }
{
    match value_of(alloc, bytes) {
        Ok(value) => script_of(alloc, &value),
        Err(Unread::WrongForm) => Err(Fault::Input(ScriptError::NotJson)),
        Err(Unread::Memory) => Err(Fault::Memory),
    }
}

/// Reads a script to its end, and then writes a line for each of its steps and a last line.
///
/// Nothing is written before the whole script was read, checked and played. So nothing was written
/// after a refused script, a read fault or out of memory. After a write fault, a prefix was
/// written.
pub fn run_script<R: Read, W: Write>(
    alloc: Global,
    reader: &mut R,
    writer: &mut W,
) -> Result<(), Fault<ScriptError>>
    ensures ok { OnOk result (Answered (R.remaining reader.old) (R.remaining reader.new)
        (W.contents writer.old) (W.contents writer.new)) }
    ensures err { IfErr result (Failed (R.remaining reader.old) (R.remaining reader.new)
        (W.contents writer.old) (W.contents writer.new)) }
{
    let bytes = read_all(alloc, reader)?;
    let script = parsed(alloc, bytes.as_slice())?;
    let text = output_of(alloc, &script)?;
    write_all(writer, text.as_str().as_bytes())?;
    Ok(())
}
