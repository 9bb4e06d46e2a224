//! `hourstable run`, and `trace` without `--logs`: each reads a script, and writes a text about it.

ghost use Rattle.std.specs.Prelude.{◌≡◌, IfErr, IfOk, OnOk, string_bytes, true};
ghost use Rattle.std.specs.List.{list_all};
ghost use Rattle.service.specs.Output.{is_answer};
ghost use Rattle.service.specs.Service.{SaysScript};
ghost use Rattle.program_io.specs.Status.{IsUnread};
ghost use Rattle.command.specs.Runs.{AreFaultsOf, IsShown, IsShownNumbered, IsAnswered, IsFailed, numbered_lines, numbered_text};

use crate::arguments::ScriptText;
use call_values::step_word;
use diagnosis::{faults_of, first_fault_law};
use faults::{AnswerError, json_faults};
use grants::policy_law;
use program_io::{Fault, read_all, write_all};
use replies::{Line, Reply};
use serde_json::{Category, Value};
use service::{Script, is_timely, output_of, replies_of, script_of};
use std::alloc::{AllocError, Global};
use std::io::{Read, Write};
use trace_text::trace_text;
use world::Step;

// Parses the script in the bytes.
fn script_in(alloc: Global, bytes: &[u8]) -> Result<Script, AnswerError>
    ensures ok { IfOk result (SaysScript bytes.now) }
    ensures err { IfErr result (IsUnread (AreFaultsOf bytes.now)) }
{
    let value = match Value::from_slice(alloc, bytes) {
        Ok(value) => value,
        Err(error) if error.classify() == Category::Memory => return Err(Fault::Memory),
        Err(error) => return Err(Fault::Input(json_faults(alloc, &error)?)),
    };
    match script_of(alloc, &value) {
        Ok(script) => Ok(script),
        Err(Fault::Input(_)) => {
            first_fault_law();
            Err(Fault::Input(faults_of(alloc, &value)?))
        }
        Err(_) => Err(Fault::Memory),
    }
}

// Returns the reply lines, each after the number of its element and the name of its step.
fn lines_of(alloc: Global, steps: &[Step], replies: &[Reply]) -> Result<String, AllocError>
    ensures lines { IfOk result (λ text. string_bytes text ≡ numbered_lines 1 steps.now replies.now) }
    ensures answers { IfOk result (λ text. list_all is_answer replies.now ≡ true) }
{
    let mut text = String::new(alloc);
    for (i, reply) in replies.iter().enumerate() {
        let Some(step) = steps.get(i) else {
            return Err(AllocError);
        };
        if matches!(reply, Reply::NoMemory) {
            return Err(AllocError);
        }
        writeln!(text, "{} {}: {}", i + 1, step_word(step), Line(reply))?;
    }
    Ok(text)
}

// Returns the numbered reply lines and the last line.
fn numbered_text(
    alloc: Global,
    steps: &[Step],
    replies: &[Reply],
    timely: bool,
) -> Result<String, AllocError>
    ensures text { IfOk result (λ text. string_bytes text ≡ numbered_text steps.now replies.now timely) }
    ensures answers { IfOk result (λ text. list_all is_answer replies.now ≡ true) }
{
    let mut text = lines_of(alloc, steps, replies)?;
    if timely {
        writeln!(text, "timely yes")?;
    } else {
        writeln!(text, "timely no")?;
    }
    Ok(text)
}

// Plays the steps of a script, and returns the text of their replies with numbers.
fn numbered_output(alloc: Global, script: &Script) -> Result<String, AllocError>
    ensures { IfOk result (λ text. IsShownNumbered script.now (string_bytes text)) }
{
    policy_law(script.job.policy());
    let steps = script.steps.as_slice();
    let replies = replies_of(alloc, script.job, steps)?;
    let text = numbered_text(alloc, steps, replies.as_slice(), is_timely(script))?;
    Ok(text)
}

// Returns the text to write about a script.
fn shown(alloc: Global, text: ScriptText, script: &Script) -> Result<Vec<u8>, AllocError>
    ensures { IfOk result (λ shown. IsShown text.entry script.now shown.items) }
{
    let shown = match text {
        ScriptText::Lines => output_of(alloc, script)?,
        ScriptText::Numbered => numbered_output(alloc, script)?,
        ScriptText::Traced { key } => {
            return trace_text(alloc, script.job, script.steps.as_slice(), key);
        }
    };
    Ok(shown.into_bytes())
}

/// Reads a script to its end, plays it, and writes the text that is wanted.
///
/// Nothing is written before the whole script was read, checked and played. If the script is
/// refused, reading fails or memory runs out, nothing was written; if writing fails, a first part
/// was.
pub fn run_lines<R: Read, W: Write>(
    alloc: Global,
    text: ScriptText,
    reader: &mut R,
    writer: &mut W,
) -> Result<(), AnswerError>
    ensures ok { OnOk result (IsAnswered text.entry (R.remaining reader.old) (R.remaining reader.new)
        (W.contents writer.old) (W.contents writer.new)) }
    ensures err { IfErr result (IsFailed text.entry (R.remaining reader.old) (R.remaining reader.new)
        (W.contents writer.old) (W.contents writer.new)) }
{
    let bytes = read_all(alloc, reader)?;
    let script = script_in(alloc, bytes.as_slice())?;
    let shown = shown(alloc, text, &script)?;
    write_all(writer, shown.as_slice())?;
    Ok(())
}
