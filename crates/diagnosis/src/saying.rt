//! How faults are reported.

ghost use Rattle.std.specs.Prelude.{OnOk};
ghost use Rattle.std.specs.Io.KnownBytes.{Appends};
ghost use Rattle.faults.specs.Faults.{fault_words};
ghost use Rattle.diagnosis.specs.Sayings.{IsFaultSaid, fault_lines, line_about, memory_line, write_line};

use faults::{AnswerError, Escaped, ScriptFault};
use program_io::Fault;
use std::io::{self, Write};

/// Writes the line of the command with these words about a file or an input.
pub fn say_about<E: Write>(errors: &mut E, name: &str, words: &str) -> io::Result<()>
    ensures { OnOk result (Appends (E.contents errors.old) (E.contents errors.new) (line_about name.now words.now)) }
{
    let name = Escaped(name);
    writeln!(errors, "hourstable: {name}: {words}")
}

/// Reports that memory ran out.
pub fn say_memory<E: Write>(errors: &mut E) -> io::Result<()>
    ensures { OnOk result (Appends (E.contents errors.old) (E.contents errors.new) memory_line) }
{
    writeln!(errors, "hourstable: out of memory")
}

/// Reports that output was not written.
pub fn say_write<E: Write>(errors: &mut E) -> io::Result<()>
    ensures { OnOk result (Appends (E.contents errors.old) (E.contents errors.new) write_line) }
{
    writeln!(errors, "hourstable: write fault")
}

fn say_refusal<E: Write>(errors: &mut E, input: &str, fault: &ScriptFault) -> io::Result<()>
    ensures { OnOk result (Appends (E.contents errors.old) (E.contents errors.new) (line_about input.now (fault_words fault.now))) }
{
    let input = Escaped(input);
    writeln!(errors, "hourstable: {input}: {fault}")
}

// Reports each fault that an input is refused for, also after one that was not written.
fn say_refusals<E: Write>(errors: &mut E, input: &str, faults: &[ScriptFault]) -> io::Result<()>
    ensures { OnOk result (Appends (E.contents errors.old) (E.contents errors.new) (fault_lines input.now faults.now)) }
{
    let mut said = Ok(());
    for fault in faults {
        if let Err(error) = say_refusal(errors, input, fault) {
            said = Err(error);
        }
    }
    said
}

/// Reports why the input of this name is not answered: a line for each fault it is refused for, or
/// one line. At `Ok` each is written whole.
pub fn say_fault<E: Write>(errors: &mut E, input: &str, error: &AnswerError) -> io::Result<()>
    ensures { OnOk result (IsFaultSaid input.now (E.contents errors.old) (E.contents errors.new) error.now) }
{
    match error {
        Fault::Input(faults) => say_refusals(errors, input, faults.as_slice()),
        Fault::Read => say_about(errors, input, "read fault"),
        Fault::Write => say_write(errors),
        Fault::Memory => say_memory(errors),
    }
}
