//! The arguments of the command.

ghost use Rattle.std.specs.Prelude.{◌≡◌, IfOk, codes, if◌then◌else◌, map, option_map, string_bytes};
ghost use Rattle.clap.specs.Kinds.{FailsBy};
ghost use Rattle.clap.specs.Matches.{found_of};
ghost use Rattle.clap.specs.Simple.{App};
ghost use Rattle.clap.specs.Walk.{first_of, rows_of};
ghost use Rattle.command.specs.Words.{Asks, AsksAudit, AsksRun, AsksTrace, AreTraceFlags, IsOfLogs, IsOfScript, IsRequest, IsSource, log_option_given, log_rules, option_given, with_first, audit_drift, audit_flags, audit_from, audit_until, audit_words, flag_given, run_words, trace_key, trace_words, traced_logs, with_rules, IsArgument, IsReadAs, WordsAsk, bare_hourstable, file, flag, hourstable, leaf, logs, option, word_faults};
ghost use Rattle.command.specs.declared.arguments.ScriptText.TheVariants as show;

use clap::{Arg, ArgAction, ArgMatches, Command, Error};
use program_io::LIBRARY_VERSION;
use std::alloc::{AllocError, Global};

const STATUSES: &str = "Exit statuses:
  0  done
  1  of logs: the calls are not one run
  2  the arguments or the input are refused, or a file cannot be opened
  3  reading or writing failed, or memory ran out";

const SCRIPT_STATUSES: &str = "Exit statuses:
  0  done
  2  the arguments or the script are refused, or the file cannot be opened
  3  reading or writing failed, or memory ran out";

const TRACE_STATUSES: &str = "Exit statuses:
  0  done; of logs: the calls are one run
  1  of logs: the calls are not one run
  2  the arguments, the script or a log are refused, or a file cannot be opened
  3  reading or writing failed, or memory ran out";

const AUDIT_STATUSES: &str = "Exit statuses:
  0  the calls are one run
  1  the calls are not one run, or with --strict the clocks were not timely or did not keep the
     drift; the report says where
  2  the arguments or a log are refused, or a log cannot be opened
  3  reading or writing failed, or memory ran out";

const SCRIPT: &str =
    "The script, a JSON array of a job line and steps; standard input if it is - or missing";

/// Where the input comes from.
#[derive(Clone, Copy, Debug, PartialEq, Eq)]
pub enum Source<'a> {
    /// The standard input.
    Input,
    /// The file of this name.
    File(&'a str),
}

/// What is written about a script.
#[derive(Clone, Copy, Debug, PartialEq, Eq)]
pub enum ScriptText<'a> {
    /// A reply line for each step, and a last line.
    Lines,
    /// The same, with each reply line after the number of its element and the name of its step.
    Numbered,
    /// A trace: JSON lines with each reply and what decides it, optionally with the stretches in which
    /// each task may serve a key.
    Traced { key: Option<&'a str> },
}

/// A script, and what is written about it.
#[derive(Clone, Copy, Debug, PartialEq, Eq)]
pub struct Request<'a> {
    /// What is written about the script.
    pub text: ScriptText<'a>,
    /// Where the script comes from.
    pub source: Source<'a>,
}

/// How logs are judged.
#[derive(Clone, Copy, Debug, PartialEq, Eq)]
pub struct AuditFlags<'a> {
    /// Whether clocks that are not timely are a fault, or samples that show that clocks did not keep
    /// the drift.
    pub strict: bool,
    /// Whether later wrong replies are told after the first one.
    pub all: bool,
    /// The drift that samples are judged by, as it was written.
    pub drift: Option<&'a str>,
    /// Whether the first of the names is that of a state, which the logs go on from.
    pub goes_on: bool,
    /// Whether the state is wanted that the logs leave.
    pub keeps: bool,
}

/// Which trace of logs is wanted, as it was written.
#[derive(Clone, Copy, Debug, PartialEq, Eq)]
pub struct TraceFlags<'a> {
    /// Whether there are lines of calls, stretches and handles.
    pub with_calls: bool,
    /// The drift that samples are judged by.
    pub drift: Option<&'a str>,
    /// The key whose stretches are wanted.
    pub key: Option<&'a str>,
    /// The same, by the number that the key is hashed to.
    pub slice_key: Option<&'a str>,
    /// Whether the first of the names is that of a state, which the logs go on from.
    pub goes_on: bool,
}

/// Words that do not go together.
#[derive(Clone, Copy, Debug, PartialEq, Eq)]
pub enum Misuse<'a> {
    /// This option is for logs, and a script is asked for.
    ForLogs(&'a str),
    /// Logs are asked for, and this script too.
    ScriptAndLogs(&'a str),
}

/// What a command line asks for.
#[derive(Debug, Drop)]
pub enum Asked<'a> {
    /// Play a script.
    Play(Request<'a>),
    /// Audit the logs with these names, where `-` is standard input, and report progress if asked
    /// to.
    Audit {
        names: Vec<&'a str>,
        progress: bool,
        /// How they are judged.
        flags: AuditFlags<'a>,
        /// The file to save the state in that the logs leave.
        until: Option<&'a str>,
    },
    /// Trace the logs with these names, where `-` is standard input.
    Trace {
        names: Vec<&'a str>,
        /// Which trace is wanted.
        flags: TraceFlags<'a>,
    },
    /// Do nothing, for this reason.
    Misused(Misuse<'a>),
}

fn flag<'a>(alloc: Global, name: &'a str, help: &'a str) -> Arg<'a>
    ensures { IsArgument (flag name.entry.now) result }
{
    Arg::new(alloc, name)
        .long(name)
        .help(help)
        .action(ArgAction::SetTrue)
}

fn file_argument<'a>(alloc: Global, help: &'a str) -> Arg<'a>
    ensures { IsArgument file result }
{
    Arg::new(alloc, "FILE").help(help).action(ArgAction::Set)
}

// The help of `--number`.
const NUMBER: &str =
    "Begin each reply line with the number of its element and the name of its step";

fn run_command<'a>(alloc: Global) -> Result<Command<'a>, AllocError>
    ensures { IfOk result (IsReadAs (leaf run_words)) }
{
    Command::new(alloc, "run")
        .about("Play a script, and write the reply to each step and whether clocks were timely")
        .after_help(SCRIPT_STATUSES)
        .arg(flag(alloc, "number", NUMBER))?
        .arg(file_argument(alloc, SCRIPT))
}

// Returns an option with one value.
fn value_argument<'a>(
    alloc: Global,
    name: &'static str,
    value: &'static str,
    help: &'static str,
) -> Arg<'a>
    ensures { IsArgument (option name.now) result }
{
    Arg::new(alloc, name)
        .long(name)
        .value_name(value)
        .help(help)
        .action(ArgAction::Set)
}

fn traced_logs_argument<'a>(alloc: Global) -> Arg<'a>
    ensures { IsArgument traced_logs result }
{
    Arg::new(alloc, "logs")
        .long("logs")
        .value_name("LOG")
        .help("Trace these logs in place of a script, as audit reads them; - is standard input")
        .num_args(1..)
        .action(ArgAction::Append)
}

// Adds the options for logs to a command.
fn with_log_options<'a>(alloc: Global, command: Command<'a>) -> Result<Command<'a>, AllocError>
    ensures { (app : App) → IsReadAs app command.entry → IfOk result (IsReadAs (with_rules app log_rules)) }
{
    let no_calls = "Of logs, leave out the lines of calls, stretches and handles";
    let drift = "Of logs, judge the samples of task clocks by this drift";
    let from = "Of logs, a state that an earlier audit saved, to go on from";
    let slice_key = "Of logs, as --key, by the number that the key is hashed to";
    command
        .arg(traced_logs_argument(alloc))?
        .arg(flag(alloc, "no-calls", no_calls))?
        .arg(value_argument(alloc, "drift", "EXTRA/PER/GRAIN", drift))?
        .arg(value_argument(alloc, "from", "STATE", from))?
        .arg(value_argument(alloc, "slice-key", "NUMBER", slice_key))
}

// Returns the command for traces, before its options for logs are added.
fn trace_key<'a>(alloc: Global) -> Result<Command<'a>, AllocError>
    ensures { IfOk result (IsReadAs (leaf trace_key)) }
{
    let key = "Add the readings at which each task may serve this key";
    Command::new(alloc, "trace")
        .about(
            "Trace a script, or with --logs a service's calls: JSON lines with what decides each reply",
        )
        .after_help(TRACE_STATUSES)
        .arg(value_argument(alloc, "key", "KEY", key))
}

fn trace_command<'a>(alloc: Global) -> Result<Command<'a>, AllocError>
    ensures { IfOk result (IsReadAs (leaf trace_words)) }
{
    with_log_options(alloc, trace_key(alloc)?)?.arg(file_argument(alloc, SCRIPT))
}

fn logs_argument<'a>(alloc: Global) -> Arg<'a>
    ensures { IsArgument logs result }
{
    Arg::new(alloc, "LOG")
        .help("The logs; - is standard input. At least one begins with the job line")
        .required(true)
        .num_args(1..)
        .action(ArgAction::Append)
}

// Returns the command for audits with its flags.
fn audit_flags<'a>(alloc: Global) -> Result<Command<'a>, AllocError>
    ensures { IfOk result (IsReadAs (leaf audit_flags)) }
{
    let progress = "Report every 100,000 lines read and calls judged on standard error";
    let strict = "Exit with status 1 if the clocks were not timely or did not keep the drift, too";
    let all = "Go on after a fault, and report up to 20";
    Command::new(alloc, "audit")
        .about("Read logs of a service's calls, and report whether they are one run of the job")
        .after_help(AUDIT_STATUSES)
        .arg(flag(alloc, "progress", progress))?
        .arg(flag(alloc, "strict", strict))?
        .arg(flag(alloc, "all", all))
}

// Returns the same with the drift.
fn audit_drift<'a>(alloc: Global) -> Result<Command<'a>, AllocError>
    ensures { IfOk result (IsReadAs (leaf audit_drift)) }
{
    let help = "Judge the samples of task clocks by this drift, and report whether they keep it";
    audit_flags(alloc)?.arg(value_argument(alloc, "drift", "EXTRA/PER/GRAIN", help))
}

// Returns the same with the state to go on from.
fn audit_from<'a>(alloc: Global) -> Result<Command<'a>, AllocError>
    ensures { IfOk result (IsReadAs (leaf audit_from)) }
{
    let help = "A state that an earlier audit saved, to go on from";
    audit_drift(alloc)?.arg(value_argument(alloc, "from", "STATE", help))
}

// Returns the same with the file of the state to save.
fn audit_until<'a>(alloc: Global) -> Result<Command<'a>, AllocError>
    ensures { IfOk result (IsReadAs (leaf audit_until)) }
{
    let help = "Save the state that the logs leave in this file, if they are one run";
    audit_from(alloc)?.arg(value_argument(alloc, "until", "STATE", help))
}

fn audit_command<'a>(alloc: Global) -> Result<Command<'a>, AllocError>
    ensures { IfOk result (IsReadAs (leaf audit_words)) }
{
    audit_until(alloc)?.arg(logs_argument(alloc))
}

/// Returns the version as `--version` writes it. The only error is out of memory.
pub fn version_text(alloc: Global) -> Result<String, AllocError> {
    format!(in alloc; "{LIBRARY_VERSION}")
}

// Returns the command without its subcommands.
fn bare_command<'a>(alloc: Global, version: &'a str) -> Command<'a>
    ensures { IsReadAs bare_hourstable result }
{
    Command::new(alloc, "hourstable")
        .version(version)
        .about(
            "Run scripts of a key ownership service, audit its logs, and trace what decides its replies",
        )
        .after_help(STATUSES)
        .subcommand_required(true)
}

// Returns the command with its subcommands.
fn hourstable_command<'a>(alloc: Global, version: &'a str) -> Result<Command<'a>, AllocError>
    ensures { IfOk result (IsReadAs hourstable) }
{
    bare_command(alloc, version)
        .subcommand(run_command(alloc)?)?
        .subcommand(audit_command(alloc)?)?
        .subcommand(trace_command(alloc)?)
}

// Returns the input of this name, or standard input.
fn source_named<'a>(name: Option<&'a str>) -> Source<'a>
    ensures { IsSource (option_map (λ n. n.now) name.entry) result }
{
    match name {
        None => Source::Input,
        Some("-") => Source::Input,
        Some(name) => Source::File(name),
    }
}

fn source_of<'a>(matches: &ArgMatches<'a>) -> Source<'a>
    ensures { IsSource (first_of (codes "FILE") (rows_of (found_of matches.now))) result }
{
    source_named(matches.get_str("FILE"))
}

// Returns a request to play a script and write `text` about it.
fn play_request<'a>(matches: &ArgMatches<'a>, text: ScriptText<'a>) -> Asked<'a>
    ensures { IsRequest text.entry (rows_of (found_of matches.now)) result }
{
    Asked::Play(Request {
        text,
        source: source_of(matches),
    })
}

// Returns the lines to write, with numbers or without.
fn lines_text(number: bool) -> ScriptText<'static>
    ensures { result ≡ (if number then show.Numbered else show.Lines) }
{
    if number {
        ScriptText::Numbered
    } else {
        ScriptText::Lines
    }
}

fn run_request<'a>(matches: &ArgMatches<'a>) -> Asked<'a>
    ensures { AsksRun (rows_of (found_of matches.now)) result }
{
    let number = matches.get_flag("number");
    play_request(matches, lines_text(number))
}

// Returns the name of an option, if it was given.
fn option_given(matches: &ArgMatches<'_>, name: &'static str) -> Option<&'static str>
    ensures { option_map (λ n. n.now) result ≡ option_given name.now (rows_of (found_of matches.now)) }
{
    match matches.get_str(name) {
        Some(_value) => Some(name),
        None => None,
    }
}

// Returns the name of a flag, if it was given.
fn flag_given(name: &'static str, is_given: bool) -> Option<&'static str>
    ensures { option_map (λ n. n.now) result ≡ flag_given name.now is_given }
{
    if is_given { Some(name) } else { None }
}

// Returns the name of the first option that was given of those that are for logs.
fn log_option_given(matches: &ArgMatches<'_>, no_calls: bool) -> Option<&'static str>
    ensures { option_map (λ n. n.now) result ≡ log_option_given no_calls (rows_of (found_of matches.now)) }
{
    let no_calls = flag_given("no-calls", no_calls);
    let drift = option_given(matches, "drift");
    let from = option_given(matches, "from");
    let slice_key = option_given(matches, "slice-key");
    no_calls.or(drift).or(from).or(slice_key)
}

// Returns a request to play a script, unless this option was given, which is for logs.
fn script_request<'a>(
    matches: &ArgMatches<'a>,
    log_option: Option<&'static str>,
    text: ScriptText<'a>,
) -> Asked<'a>
    ensures { IsOfScript (option_map (λ n. n.now) log_option.entry) text.entry (rows_of (found_of matches.now)) result }
{
    match log_option {
        Some(option) => Asked::Misused(Misuse::ForLogs(option)),
        None => play_request(matches, text),
    }
}

// Returns which trace of logs is wanted.
fn trace_flags<'a>(matches: &ArgMatches<'a>, no_calls: bool) -> TraceFlags<'a>
    ensures { AreTraceFlags no_calls (rows_of (found_of matches.now)) result }
{
    TraceFlags {
        with_calls: !no_calls,
        drift: matches.get_str("drift"),
        key: matches.get_str("key"),
        slice_key: matches.get_str("slice-key"),
        goes_on: matches.get_str("from").is_some(),
    }
}

// Returns a request to trace logs, unless a script was given too.
fn log_request<'a>(
    alloc: Global,
    matches: &ArgMatches<'a>,
    given: &[&'a str],
    no_calls: bool,
) -> Result<Asked<'a>, AllocError>
    ensures { IfOk result (IsOfLogs (map (λ n. n.now) given.now) no_calls (rows_of (found_of matches.now))) }
{
    if let Some(file) = matches.get_str("FILE") {
        return Ok(Asked::Misused(Misuse::ScriptAndLogs(file)));
    }
    let from = matches.get_str("from");
    Ok(Asked::Trace {
        names: names_of(alloc, from, given)?,
        flags: trace_flags(matches, no_calls),
    })
}

fn trace_request<'a>(alloc: Global, matches: &ArgMatches<'a>) -> Result<Asked<'a>, AllocError>
    ensures { IfOk result (AsksTrace (rows_of (found_of matches.now))) }
{
    let no_calls = matches.get_flag("no-calls");
    let key = matches.get_str("key");
    let logs = matches.get_strs("logs").unwrap_or(&[]);
    if !logs.is_empty() {
        return log_request(alloc, matches, logs, no_calls);
    }
    let log_option = log_option_given(matches, no_calls);
    Ok(script_request(matches, log_option, ScriptText::Traced { key }))
}

// Returns the names of logs: the state to go on from, and those that were given.
fn names_of<'a>(
    alloc: Global,
    from: Option<&'a str>,
    given: &[&'a str],
) -> Result<Vec<&'a str>, AllocError>
    ensures { IfOk result (λ names. map (λ n. n.now) names.items
        ≡ with_first (option_map (λ n. n.now) from.entry) (map (λ n. n.now) given.now)) }
{
    let mut names = Vec::new(alloc);
    if let Some(from) = from {
        names.push(from)?;
    }
    names.extend_from_slice(given)?;
    Ok(names)
}

// Returns a request to audit all logs that were given, in their order.
fn audited<'a>(alloc: Global, matches: &ArgMatches<'a>) -> Result<Asked<'a>, AllocError>
    ensures { IfOk result (AsksAudit (rows_of (found_of matches.now))) }
{
    let given = matches.get_strs("LOG").unwrap_or(&[]);
    let from = matches.get_str("from");
    let names = names_of(alloc, from, given)?;
    let progress = matches.get_flag("progress");
    let strict = matches.get_flag("strict");
    let all = matches.get_flag("all");
    let drift = matches.get_str("drift");
    let until = matches.get_str("until");
    let flags = AuditFlags {
        strict,
        all,
        drift,
        goes_on: from.is_some(),
        keeps: until.is_some(),
    };
    Ok(Asked::Audit {
        names,
        progress,
        flags,
        until,
    })
}

// Returns what the subcommand of this name asks for by what was given to it.
fn asked_by<'a>(
    alloc: Global,
    name: &str,
    matches: &ArgMatches<'a>,
) -> Result<Asked<'a>, AllocError>
    ensures { IfOk result (Asks name.now (rows_of (found_of matches.now))) }
{
    match name {
        "audit" => audited(alloc, matches),
        "trace" => trace_request(alloc, matches),
        _ => Ok(run_request(matches)),
    }
}

/// Parses a command line, whose first word is the name of the program; `version` is for `--version`.
///
/// Which words ask for what is defined by the options and arguments of each subcommand, and by what
/// `clap` proves of a command that has no more than those. The error has the text for `--help`, for
/// `--version`, or for words that ask for nothing the command does; `clap` writes that text, and no
/// clause says what it is.
pub fn parse_words<'a>(
    alloc: Global,
    version: &'a str,
    words: &'a [String],
) -> Result<Asked<'a>, Error>
    ensures ok { IfOk result (WordsAsk (map string_bytes words.entry.now)) }
    ensures faults { FailsBy (word_faults (map string_bytes words.entry.now)) result }
{
    let matches = hourstable_command(alloc, version)?.try_get_matches_from(words)?;
    match matches.subcommand() {
        Some((name, matches)) => Ok(asked_by(alloc, name, matches)?),
        None => Ok(run_request(&matches)),
    }
}
