//! The program.

ghost use Rattle.std.specs.Prelude.{◌≡◌, ℕ, List, MatchOption, Option, map, string_bytes};
ghost use Rattle.std.specs.Process.{exit_status};
ghost use Rattle.program_io.specs.Status.{status_after};
ghost use Rattle.command.specs.Audits.{IsAuditEnd};
ghost use Rattle.command.specs.Traces.{IsTraceEnd};
ghost use Rattle.clap.specs.Values.{kind_of};
ghost use Rattle.command.specs.Endings.{Ends, EndsBy, EndsFor, IsHelped, IsOfShow, IsPlayed, IsTold};

use crate::arguments::{Asked, Misuse, Request, ScriptText, Source, parse_words, version_text};
use crate::log_audit::{LogAudit, audit_named, say_error};
use crate::log_tracing::{LogTracing, trace_named};
use crate::script_run::run_lines;
use clap::Error;
use clap::error::ErrorKind;
use diagnosis::{say_fault, say_memory, say_write};
use faults::{AnswerError, Escaped};
use program_io::{Fault, write_all};
use std::alloc::Global;
use std::env::{self, Env};
use std::fs::File;
use std::io::{BufRead, BufReader, Read, Write};
use std::process::ExitCode;
use std::rt::Files;

/// The exit status when the request is done.
const DONE: u8 = 0;

/// The exit status when the calls of logs are not one run.
const FAULT: u8 = 1;

/// The exit status when the arguments or the input are refused.
const REFUSED: u8 = 2;

/// The exit status when a stream fails or memory runs out.
const FAILED: u8 = 3;

// Reports a failure and returns the exit status.
fn ended<E: Write>(errors: &mut E, name: &str, answer: &Result<(), AnswerError>) -> u8
    ensures { result ≡ status_after answer.now }
{
    match answer {
        Ok(()) => DONE,
        Err(error) => {
            let _ = say_fault(errors, name, error);
            error.status()
        }
    }
}

// Plays the script in a file.
fn play_file<F: Read + Drop, W: Write>(
    alloc: Global,
    text: ScriptText<'_>,
    file: F,
    writer: &mut W,
) -> Result<(), AnswerError>
    ensures { (full : Option (List ℕ)) × (rest : Option (List ℕ))
        × IsPlayed text.entry full rest (W.contents writer.old) (W.contents writer.new) result }
{
    match BufReader::new(alloc, file) {
        Ok(mut reader) => run_lines(alloc, text, &mut reader, writer),
        Err(_) => Err(Fault::Memory),
    }
}

// Plays the script in the input or in a file, and returns the exit status.
fn play_script<R: BufRead, W: Write, E: Write>(
    rt: &(impl Files + AllocGlobal),
    request: Request<'_>,
    input: &mut R,
    output: &mut W,
    errors: &mut E,
) -> u8
    ensures { EndsBy request.entry (R.remaining input.old) (R.remaining input.new)
        (W.contents output.old) (W.contents output.new) result }
{
    match request.source {
        Source::Input => {
            let answer = run_lines(rt.alloc(), request.text, input, output);
            ended(errors, "standard input", &answer)
        }
        Source::File(name) => match File::open(rt, name) {
            Ok(file) => {
                let answer = play_file(rt.alloc(), request.text, file, output);
                ended(errors, name, &answer)
            }
            Err(error) => {
                let name = Escaped(name);
                let _ = writeln!(errors, "hourstable: {name}: {error}");
                REFUSED
            }
        },
    }
}

// Audits logs, reports why they cannot be audited, and returns the exit status.
fn judge_logs<R: Read, W: Write, E: Write>(
    rt: &(impl Files + AllocGlobal),
    audit: LogAudit<'_, '_>,
    input: &mut R,
    output: &mut W,
    errors: &mut E,
) -> u8
    ensures { IsAuditEnd (map (λ n. n.now) audit.entry.names.now) audit.entry.flags (R.remaining input.old) (R.remaining input.new)
        (W.contents output.old) (W.contents output.new) result }
{
    match audit_named(rt, audit, input, output, errors) {
        Ok(true) => DONE,
        Ok(false) => FAULT,
        Err(error) => {
            say_error(errors, audit.names, &error);
            error.status()
        }
    }
}

// Traces logs, reports why they cannot be traced, and returns the exit status.
fn trace_logs<R: Read, W: Write, E: Write>(
    rt: &(impl Files + AllocGlobal),
    tracing: LogTracing<'_, '_>,
    input: &mut R,
    output: &mut W,
    errors: &mut E,
) -> u8
    ensures { IsTraceEnd (map (λ n. n.now) tracing.entry.names.now) tracing.entry.flags
        (R.remaining input.old) (R.remaining input.new) (W.contents output.old) (W.contents output.new) result }
{
    match trace_named(rt, tracing, input, output, errors) {
        Ok(true) => DONE,
        Ok(false) => FAULT,
        Err(error) => {
            say_error(errors, tracing.names, &error);
            error.status()
        }
    }
}

// Reports words that do not go together, and returns the exit status.
fn say_misuse<E: Write>(errors: &mut E, misuse: Misuse<'_>) -> u8
    ensures { result ≡ 2 }
{
    let _ = match misuse {
        Misuse::ForLogs(option) => {
            writeln!(
                errors,
                "hourstable: error: --{option} is for logs, and needs --logs"
            )
        }
        Misuse::ScriptAndLogs(file) => {
            let file = Escaped(file);
            writeln!(
                errors,
                "hourstable: error: {file} cannot be given with --logs"
            )
        }
    };
    REFUSED
}

// Does what is asked for and returns the exit status.
fn do_asked<R: BufRead, W: Write, E: Write>(
    rt: &(impl Files + AllocGlobal),
    asked: Asked<'_>,
    input: &mut R,
    output: &mut W,
    errors: &mut E,
) -> u8
    ensures { EndsFor asked.entry (R.remaining input.old) (R.remaining input.new)
        (W.contents output.old) (W.contents output.new) result }
{
    match asked {
        Asked::Play(request) => play_script(rt, request, input, output, errors),
        Asked::Audit {
            names,
            progress,
            flags,
            until,
        } => {
            let names = names.as_slice();
            let audit = LogAudit {
                names,
                progress,
                flags,
                until,
            };
            judge_logs(rt, audit, input, output, errors)
        }
        Asked::Trace { names, flags } => {
            let names = names.as_slice();
            let tracing = LogTracing { names, flags };
            trace_logs(rt, tracing, input, output, errors)
        }
        Asked::Misused(misuse) => say_misuse(errors, misuse),
    }
}

// Writes the text for help or for the version, and returns the exit status.
fn write_help<W: Write, E: Write>(alloc: Global, help: &Error, output: &mut W, errors: &mut E) -> u8
    ensures { IsHelped (W.contents output.old) (W.contents output.new) result }
{
    let Ok(text) = format!(in alloc; "{help}") else {
        let _ = say_memory(errors);
        return FAILED;
    };
    match write_all(output, text.as_str().as_bytes()) {
        Ok(()) => DONE,
        Err(_) => {
            let _ = say_write(errors);
            FAILED
        }
    }
}

// Writes the help or the version, or reports what is wrong with the words.
fn tell<W: Write, E: Write>(alloc: Global, error: &Error, output: &mut W, errors: &mut E) -> u8
    ensures { IsTold (kind_of error.now) (W.contents output.old) (W.contents output.new) result }
{
    match error.kind() {
        ErrorKind::DisplayHelp => write_help(alloc, error, output, errors),
        ErrorKind::DisplayVersion => write_help(alloc, error, output, errors),
        ErrorKind::OutOfMemory => {
            let _ = write!(errors, "hourstable: {error}");
            FAILED
        }
        _ => {
            let _ = write!(errors, "hourstable: {error}");
            REFUSED
        }
    }
}

// Returns the subcommand that these words ask for, if it is one of `hourstable-show`.
fn word_of_show(words: &[String]) -> Option<&'static str>
    ensures { MatchOption result (IsOfShow (map string_bytes words.now) → ⊥) (λ _. IsOfShow (map string_bytes words.now)) }
{
    match words.get(1)?.as_str() {
        "explain" => Some("explain"),
        "timeline" => Some("timeline"),
        _ => None,
    }
}

/// Does what a command line asks for, and returns the exit status.
///
/// The first word is the name of the program. Only results are written to `output`; failures are
/// written to `errors`, each line after the name of the program. The status is 0 if the request is
/// done, 1 if the calls of logs are not one run, 2 if the words or the input are refused or a file
/// cannot be opened, and 3 if reading or writing fails or memory runs out. `explain` and `timeline`
/// are refused: `hourstable-show` has them.
pub fn do_words<R: BufRead, W: Write, E: Write>(
    rt: &(impl Files + AllocGlobal),
    words: &[String],
    input: &mut R,
    output: &mut W,
    errors: &mut E,
) -> u8
    ensures { Ends (map string_bytes words.now) (R.remaining input.old) (R.remaining input.new)
        (W.contents output.old) (W.contents output.new) result }
{
    if let Some(word) = word_of_show(words) {
        let _ = writeln!(errors, "hourstable: {word}: use hourstable-show {word}");
        return REFUSED;
    }
    let Ok(version) = version_text(rt.alloc()) else {
        let _ = say_memory(errors);
        return FAILED;
    };
    match parse_words(rt.alloc(), version.as_str(), words) {
        Ok(asked) => do_asked(rt, asked, input, output, errors),
        Err(error) => tell(rt.alloc(), &error, output, errors),
    }
}

/// Runs the command with the arguments of the process, and returns the exit status.
pub fn hourstable<R: Read + Drop, W: Write, E: Write>(
    rt: &(impl Env + Files + AllocGlobal),
    input: R,
    output: &mut W,
    errors: &mut E,
) -> ExitCode
    ensures { (words : List (List ℕ)) × (after : Option (List ℕ))
        × Ends words (R.remaining input) after
        (W.contents output.old) (W.contents output.new) (exit_status result) }
{
    let words: Option<Vec<String>> = match env::args(rt) {
        Ok(words) => words.collect(rt.alloc()).ok(),
        Err(_) => None,
    };
    let Some(words) = words else {
        let _ = writeln!(errors, "hourstable: the arguments cannot be read");
        return ExitCode::from(FAILED);
    };
    match BufReader::new(rt.alloc(), input) {
        Ok(mut input) => {
            let status = do_words(rt, words.as_slice(), &mut input, output, errors);
            ExitCode::from(status)
        }
        Err(_) => {
            let _ = say_memory(errors);
            ExitCode::from(FAILED)
        }
    }
}
