//! `hourstable audit`: reads logs, and writes a report.

ghost use Rattle.std.specs.Prelude.{◌≡◌, ◌+◌, ◌++◌, ◌∷◌, ◌<◌, ◌^◌, [], ℕ, true, false, List, length, IfErr, IfOk, map};
ghost use Rattle.log_line.specs.Files.{lines_from};
ghost use Rattle.log_line.specs.Readers.{IsReading, IsReadLog};
ghost use Rattle.command.specs.declared.log_audit.AuditError.TheVariants as fault;
ghost use Rattle.command.specs.Audits.{AreJudged, AreLogsKept, AreLogsTaken, AreNotJudged, AreOpened, EndsInLine, IsJudged, IsLogBytes, IsLogRead, IsLogTaken, IsNotAudited, IsNotRead, IsNotSaved, IsOneMore, IsUnjudged, passes, status_of};
ghost use Rattle.command.specs.internals.{AreLogsAfter, AreNotAfter};

use crate::arguments::AuditFlags;
use crate::audit_options::options_of;
use crate::saved_state::{
    SavedState, check_state, read_state, say_bad_state, say_other_state, state_text,
};
use audit_text::{LogReport, audit_log};
use diagnosis::{say_about, say_memory, say_write};
use faults::{Escaped, LONG_WORDS};
use job_calls::{ClusterSnapshot, ResumeFault};
use log_line::{LinePosition, LogError, LogReader, Progress, ReadLog};
use memchr::memrchr;
use program_io::{MOST_LINE_BYTES, ReadError, WriteError, write_all};
use snapshot_text::SnapshotError;
use std::alloc::{AllocError, AllocFailed};
use std::fs::{self, File};
use std::io::{Error, Read, Write};
use std::rt::Files;

/// Why the stretches of a key are not traced.
#[derive(Clone, Copy, Debug, PartialEq, Eq)]
pub enum KeyFault {
    /// `--slice-key` is not a number below 2^63.
    NoSliceKey,
    /// `--key` and `--slice-key` are both given.
    TwoKeys,
    /// The logs go on from a state.
    FromState,
}

/// Why logs are not audited or traced.
#[derive(Debug, Drop)]
pub enum AuditError<'a> {
    /// The log with this name cannot be opened.
    Unopened {
        name: &'a str,
        error: Error,
    },
    /// The log with this name cannot be read to its end.
    Read {
        name: &'a str,
    },
    /// The logs are not a job and its calls.
    Refused(LogError),
    /// What is in the file of this name is not a state.
    BadState {
        name: &'a str,
        why: SnapshotError,
    },
    /// The state in the file of this name is none of the job.
    OtherState {
        name: &'a str,
        fault: ResumeFault,
    },
    /// This is not a drift, `EXTRA/PER/GRAIN`.
    NoDrift(&'a str),
    /// The stretches of the key in these words of an option are not traced.
    NoKey {
        option: &'static str,
        words: &'a str,
        fault: KeyFault,
    },
    /// The state cannot be saved in the file of this name.
    Unsaved {
        name: &'a str,
        error: Error,
    },
    /// The report or the trace cannot be written.
    Write,
    /// Memory ran out.
    Memory,
}

impl AuditError<'_> {
    /// Returns the exit status: 2 if a log cannot be opened, or if a log, the state, the drift or the
    /// key is refused, otherwise 3.
    pub fn status(&self) -> u8
        ensures { result ≡ status_of self.now }
    {
        match self {
            AuditError::Unopened { .. }
            | AuditError::Refused(_)
            | AuditError::BadState { .. }
            | AuditError::OtherState { .. }
            | AuditError::NoDrift(_)
            | AuditError::NoKey { .. } => 2,
            AuditError::Read { .. }
            | AuditError::Unsaved { .. }
            | AuditError::Write
            | AuditError::Memory => 3,
        }
    }
}

impl From<AllocError> for AuditError<'_> {
    ghost from_gives = { λ _ e. e ≡ fault.Memory };

    fn from(_error: AllocError) -> Self {
        AuditError::Memory
    }
}

impl<T: Drop> From<AllocFailed<T>> for AuditError<'_> {
    ghost from_gives = { λ _ e. e ≡ fault.Memory };

    fn from(_error: AllocFailed<T>) -> Self {
        AuditError::Memory
    }
}

impl From<WriteError> for AuditError<'_> {
    ghost from_gives = { λ _ e. e ≡ fault.Write };

    fn from(_error: WriteError) -> Self {
        AuditError::Write
    }
}

/// Reports the progress of an audit, if that is wanted.
#[derive(Drop)]
pub(crate) struct Counting<'a, E: Write> {
    pub(crate) errors: &'a mut E,
    pub(crate) is_wanted: bool,
}

/// How many bytes are read at a time.
const PIECE: usize = 4096;

/// How many reads a log may take.
const MOST_READS: u32 = 16_777_216;

/// How many lines there are between two reports of progress.
const EACH: u64 = 100_000;

impl<E: Write> Counting<'_, E> {
    fn count(&mut self, number: u64, words: &str) {
        if self.is_wanted && number % EACH == 0 {
            let _ = writeln!(self.errors, "hourstable: {number} {words}");
        }
    }
}

impl<E: Write> Progress for Counting<'_, E> {
    fn lines_read(&mut self, lines: u64) {
        self.count(lines, "lines read");
    }

    fn calls_judged(&mut self, calls: u64) {
        self.count(calls, "calls judged");
    }
}

/// What is reported of a last line that is left out.
const TORN_WORDS: &str = "a last line without its end was left out";

/// An audit to do.
#[derive(Clone, Copy, Debug)]
pub struct LogAudit<'n, 'a> {
    /// The names of the logs, where `-` is standard input.
    pub names: &'n [&'a str],
    /// Whether to report progress on standard error.
    pub progress: bool,
    /// How the logs are judged.
    pub flags: AuditFlags<'a>,
    /// The file to save the state in that the logs leave, if they are one run.
    pub until: Option<&'a str>,
}

// Logs that were judged, and their first job line.
#[derive(Drop)]
struct Judged {
    report: LogReport,
    job_line: Vec<u8>,
}

// Returns how many bytes there are since the last end of a line, where there were so many before
// the piece.
fn run_after(before: usize, piece: &[u8]) -> usize
    requires { before + length piece.now < 2 ^ 64 }
    ensures { (bytes : List ℕ) → EndsInLine bytes before → EndsInLine (bytes ++ piece.now) result }
{
    match memrchr(b'\n', piece) {
        Some(end) => piece.len() - end - 1,
        None => before + piece.len(),
    }
}

// Reads a log to its end, or up to a line that is too long, which is not read to its end.
fn read_log<R: Read, P: Progress>(
    reader: &mut R,
    log: LogReader,
    progress: &mut P,
) -> Result<LogReader, ReadError>
    ensures { (files : List (List ℕ)) → IsReading files [] log
        → IfOk result (IsLogTaken files (R.remaining reader.old) (R.remaining reader.new)) }
{
    let mut log = log;
    let mut run = 0;
    let mut piece = [0u8; PIECE];
    'reads: for _ in 0..MOST_READS {
        match reader.read(&mut piece) {
            Ok(0) => return Ok(log),
            Ok(n) => {
                let read = &piece[..n];
                log = log.read(read, progress)?;
                run = run_after(run, read);
                if run > MOST_LINE_BYTES + 1 {
                    return Ok(log);
                }
            }
            Err(_) => return Err(ReadError::Failed),
        }
    }
    Err(ReadError::Failed)
}

// Reads the log with this name, and ends its file.
fn read_named<'a, R: Read, P: Progress>(
    name: &'a str,
    reader: &mut R,
    log: LogReader,
    progress: &mut P,
) -> Result<LogReader, AuditError<'a>>
    ensures ok { (files : List (List ℕ)) → IsReading files [] log
        → IfOk result (IsOneMore IsLogBytes files (R.remaining reader.old) (R.remaining reader.new)) }
    ensures err { IfErr result IsNotRead }
{
    match read_log(reader, log, progress) {
        Ok(log) => Ok(log.end_file(progress)?),
        Err(ReadError::Failed) => Err(AuditError::Read { name }),
        Err(ReadError::Memory) => Err(AuditError::Memory),
    }
}

// Reads the log with this name; `-` is standard input.
fn read_next<'a, R: Read, P: Progress>(
    rt: &(impl Files + AllocGlobal),
    name: &'a str,
    input: &mut R,
    log: LogReader,
    progress: &mut P,
) -> Result<LogReader, AuditError<'a>>
    ensures ok { (files : List (List ℕ)) → IsReading files [] log
        → IfOk result (IsOneMore (IsLogRead IsLogBytes name.now) files (R.remaining input.old) (R.remaining input.new)) }
    ensures err { IfErr result IsNotRead }
{
    if name == "-" {
        return read_named(name, input, log, progress);
    }
    match File::open(rt, name) {
        Ok(mut file) => read_named(name, &mut file, log, progress),
        Err(error) => Err(AuditError::Unopened { name, error }),
    }
}

// Reads the logs with these names, in their order.
fn read_logs<'a, R: Read, P: Progress>(
    rt: &(impl Files + AllocGlobal),
    names: &[&'a str],
    input: &mut R,
    log: LogReader,
    progress: &mut P,
) -> Result<LogReader, AuditError<'a>>
    ensures ok { (front : List (List ℕ)) → IsReading front [] log
        → IfOk result (AreLogsTaken front (map (λ n. n.now) names.now) (R.remaining input.old) (R.remaining input.new)) }
    ensures err { IfErr result IsNotRead }
{
    let mut log = log;
    for name in names {
        log = read_next(rt, *name, input, log, progress)?;
    }
    Ok(log)
}

// Returns the log of the files that were read.
fn finished<'a>(log: LogReader) -> Result<ReadLog, AuditError<'a>>
    ensures ok { (files : List (List ℕ)) → IsReading files [] log
        → IfOk result (IsReadLog (lines_from 0 files)) }
    ensures err { (files : List (List ℕ)) → IsReading files [] log → IfErr result (IsNotAudited files) }
{
    match log.finish() {
        Ok(read) => Ok(read),
        Err(LogError::Memory) => Err(AuditError::Memory),
        Err(error) => Err(AuditError::Refused(error)),
    }
}

// Reads the logs with these names, in their order, and returns their log.
fn read_all<'a, R: Read, P: Progress>(
    rt: &(impl Files + AllocGlobal),
    names: &[&'a str],
    input: &mut R,
    progress: &mut P,
) -> Result<ReadLog, AuditError<'a>>
    ensures ok { IfOk result (AreLogsKept (map (λ n. n.now) names.now) (R.remaining input.old) (R.remaining input.new)) }
    ensures err { IfErr result (AreNotJudged false (map (λ n. n.now) names.now) (R.remaining input.old) (R.remaining input.new)) }
{
    let log = LogReader::new(rt.alloc());
    let log = read_logs(rt, names, input, log, progress)?;
    finished(log)
}

/// Logs that were read, and the snapshot that they go on from.
#[derive(Drop)]
pub struct OpenedLogs {
    /// The logs.
    pub read: ReadLog,
    /// The snapshot, if they go on from one.
    pub earlier: Option<ClusterSnapshot>,
}

// Reads the logs with these names.
fn open_logs<'a, R: Read, P: Progress>(
    rt: &(impl Files + AllocGlobal),
    names: &[&'a str],
    input: &mut R,
    progress: &mut P,
) -> Result<OpenedLogs, AuditError<'a>>
    ensures ok { IfOk result (AreOpened false (map (λ n. n.now) names.now) (R.remaining input.old) (R.remaining input.new)) }
    ensures err { IfErr result (AreNotJudged false (map (λ n. n.now) names.now) (R.remaining input.old) (R.remaining input.new)) }
{
    let read = read_all(rt, names, input, progress)?;
    Ok(OpenedLogs {
        read,
        earlier: None,
    })
}

// Reads the job line of a state as the first file of a log, and then the logs with these names.
fn read_after<'a, R: Read, P: Progress>(
    rt: &(impl Files + AllocGlobal),
    line: &[u8],
    names: &[&'a str],
    input: &mut R,
    progress: &mut P,
) -> Result<ReadLog, AuditError<'a>>
    ensures ok { IfOk result (AreLogsAfter line.now (map (λ n. n.now) names.now) (R.remaining input.old) (R.remaining input.new)) }
    ensures err { IfErr result (AreNotAfter line.now (map (λ n. n.now) names.now) (R.remaining input.old) (R.remaining input.new)) }
{
    let log = LogReader::new(rt.alloc());
    let log = log.read(line, progress)?;
    let log = log.end_file(progress)?;
    let log = read_logs(rt, names, input, log, progress)?;
    finished(log)
}

// Reads the state with this name, and the logs with these names, which go on from it.
fn open_on<'a, R: Read, P: Progress>(
    rt: &(impl Files + AllocGlobal),
    state: &'a str,
    names: &[&'a str],
    input: &mut R,
    progress: &mut P,
) -> Result<OpenedLogs, AuditError<'a>>
    ensures ok { IfOk result (AreOpened true (state.now ∷ map (λ n. n.now) names.now) (R.remaining input.old) (R.remaining input.new)) }
    ensures err { IfErr result (AreNotJudged true (state.now ∷ map (λ n. n.now) names.now) (R.remaining input.old) (R.remaining input.new)) }
{
    let SavedState { line, snapshot } = read_state(rt, state, input)?;
    match read_after(rt, line.as_slice(), names, input, progress) {
        Ok(read) => Ok(OpenedLogs {
            read,
            earlier: Some(snapshot),
        }),
        Err(error) => Err(error),
    }
}

/// Reads the logs with these names, of which the first is a state if they go on from one.
pub(crate) fn open_all<'a, R: Read, P: Progress>(
    rt: &(impl Files + AllocGlobal),
    names: &[&'a str],
    goes_on: bool,
    input: &mut R,
    progress: &mut P,
) -> Result<OpenedLogs, AuditError<'a>>
    ensures ok { IfOk result (AreOpened goes_on (map (λ n. n.now) names.now) (R.remaining input.old) (R.remaining input.new)) }
    ensures err { IfErr result (AreNotJudged goes_on (map (λ n. n.now) names.now) (R.remaining input.old) (R.remaining input.new)) }
{
    if !goes_on {
        return open_logs(rt, names, input, progress);
    }
    let [state, logs @ ..] = names else {
        return open_logs(rt, names, input, progress);
    };
    open_on(rt, *state, logs, input, progress)
}

// Reads the logs, and judges them.
fn judge<'a, R: Read, E: Write>(
    rt: &(impl Files + AllocGlobal),
    audit: LogAudit<'_, 'a>,
    input: &mut R,
    errors: &mut E,
) -> Result<Judged, AuditError<'a>>
    ensures ok { IfOk result (λ judged. AreJudged (map (λ n. n.now) audit.entry.names.now) audit.entry.flags
        (R.remaining input.old) (R.remaining input.new) judged.report) }
    ensures err { IfErr result (AreNotJudged audit.entry.flags.goes_on (map (λ n. n.now) audit.entry.names.now)
        (R.remaining input.old) (R.remaining input.new)) }
{
    let mut progress = Counting {
        errors,
        is_wanted: audit.progress,
    };
    let options = options_of(rt.alloc(), audit.flags)?;
    let names = audit.names;
    let opened = open_all(rt, names, audit.flags.goes_on, input, &mut progress)?;
    let OpenedLogs { read, earlier } = opened;
    let ReadLog {
        log,
        writes,
        job_line,
    } = read;
    check_state(rt.alloc(), names, log.job, &earlier)?;
    let report = audit_log(
        rt.alloc(),
        names,
        log,
        writes.as_slice(),
        earlier,
        options,
        &mut progress,
    )?;
    Ok(Judged { report, job_line })
}

// Writes bytes to the file of this name: to a new file beside it, which then takes its place.
fn replace_file(rt: &(impl Files + AllocGlobal), name: &str, bytes: &[u8]) -> Result<(), Error> {
    let fresh = format!(in rt.alloc(); "{name}.new")?;
    fs::write(rt, fresh.as_str(), bytes)?;
    fs::rename(rt, fresh.as_str(), name)
}

// Saves the state that logs leave in the file of this name, if there is a name and a state.
fn save_state<'a>(
    rt: &(impl Files + AllocGlobal),
    until: Option<&'a str>,
    job_line: &[u8],
    state: &Option<ClusterSnapshot>,
) -> Result<(), AuditError<'a>>
    ensures err { IfErr result IsNotSaved }
{
    let Some(name) = until else {
        return Ok(());
    };
    let Some(snapshot) = state else {
        return Ok(());
    };
    let text = state_text(rt.alloc(), job_line, snapshot)?;
    match replace_file(rt, name, text.as_slice()) {
        Ok(()) => Ok(()),
        Err(error) => Err(AuditError::Unsaved { name, error }),
    }
}

// Whether logs pass an audit.
fn passes(strict: bool, report: &LogReport) -> bool
    ensures { result ≡ passes strict report.now }
{
    if !report.is_fenced {
        return false;
    }
    if strict {
        report.is_timely && report.keeps_drift
    } else {
        report.is_one
    }
}

/// Audits the logs with these names, writes a report, and returns whether they pass: their calls
/// are one run, the law of fencing tokens rules out no write, and if the audit is strict, the clocks
/// were timely and kept the drift.
///
/// The logs are read in their order, and judged as one log. A log is read to its end, or up to a
/// line of more than [`MOST_LINE_BYTES`], for which it is refused. Each `-` is what is left of the
/// input. Nothing is written to `output` before all logs were read and judged. Last lines that are
/// left out are reported first.
pub fn audit_named<'a, R: Read, W: Write, E: Write>(
    rt: &(impl Files + AllocGlobal),
    audit: LogAudit<'_, 'a>,
    input: &mut R,
    output: &mut W,
    errors: &mut E,
) -> Result<bool, AuditError<'a>>
    ensures ok { IfOk result (IsJudged (map (λ n. n.now) audit.entry.names.now) audit.entry.flags
        (R.remaining input.old) (R.remaining input.new) (W.contents output.old) (W.contents output.new)) }
    ensures err { IfErr result (IsUnjudged (map (λ n. n.now) audit.entry.names.now) audit.entry.flags
        (R.remaining input.old) (R.remaining input.new) (W.contents output.old) (W.contents output.new)) }
{
    let Judged { report, job_line } = judge(rt, audit, input, errors)?;
    save_state(rt, audit.until, job_line.as_slice(), &report.state)?;
    say_torn(errors, audit.names, report.torn.as_slice());
    write_all(output, report.text.as_str().as_bytes())?;
    Ok(passes(audit.flags.strict, &report))
}

// Returns the name of the log at this index, as it is told.
fn told_name<'a>(names: &[&'a str], file: usize) -> Escaped<'a> {
    Escaped(names.get(file).copied().unwrap_or("-"))
}

// Reports what is wrong with the line at a position.
fn say_line<E: Write>(errors: &mut E, names: &[&str], place: LinePosition, words: &str) {
    let name = told_name(names, place.file);
    let _ = writeln!(errors, "hourstable: {name}:{}: {words}", place.line);
}

/// Reports the last lines that are left out.
pub(crate) fn say_torn<E: Write>(errors: &mut E, names: &[&str], torn: &[LinePosition]) {
    for place in torn {
        say_line(errors, names, *place, TORN_WORDS);
    }
}

// Reports that two job lines have different jobs.
fn say_other_job<E: Write>(
    errors: &mut E,
    names: &[&str],
    first: LinePosition,
    second: LinePosition,
) {
    let name = told_name(names, second.file);
    let other = told_name(names, first.file);
    let _ = writeln!(
        errors,
        "hourstable: {name}:{}: the job differs from the one at {other}:{}",
        second.line, first.line
    );
}

// Reports why logs are refused.
fn say_refused<E: Write>(errors: &mut E, names: &[&str], error: &LogError) {
    match error {
        LogError::NoJob { place, faults } => {
            for fault in faults {
                let name = told_name(names, place.file);
                let _ = writeln!(errors, "hourstable: {name}:{}: {fault}", place.line);
            }
        }
        LogError::OtherJob { first, second } => say_other_job(errors, names, *first, *second),
        LogError::LongLine(place) => say_line(errors, names, *place, LONG_WORDS),
        LogError::BadLine { place, mend, .. } => say_line(errors, names, *place, mend.as_str()),
        LogError::Empty | LogError::Memory => {
            let _ = writeln!(
                errors,
                "hourstable: the logs are empty; the first line must be the job line"
            );
        }
    }
}

// Reports why the stretches of a key are not traced.
fn say_no_key<E: Write>(errors: &mut E, option: &str, words: &str, fault: KeyFault) {
    let words = Escaped(words);
    let why = match fault {
        KeyFault::NoSliceKey => "it must be a number below 2^63",
        KeyFault::TwoKeys => "it cannot be given with --key",
        KeyFault::FromState => {
            "it cannot be given with --from: stretches begin with the first log"
        }
    };
    let _ = writeln!(errors, "hourstable: --{option} {words}: {why}");
}

/// Reports why logs are not audited or traced.
pub fn say_error<E: Write>(errors: &mut E, names: &[&str], error: &AuditError) {
    match error {
        AuditError::Unopened { name, error } => {
            let name = Escaped(name);
            let _ = writeln!(errors, "hourstable: {name}: {error}");
        }
        AuditError::Read { name } => {
            let _ = say_about(errors, name, "read fault");
        }
        AuditError::NoDrift(words) => {
            let words = Escaped(words);
            let _ = writeln!(
                errors,
                "hourstable: --drift {words}: it must be EXTRA/PER/GRAIN, three numbers below 2^64, and PER not 0"
            );
        }
        AuditError::NoKey {
            option,
            words,
            fault,
        } => say_no_key(errors, option, words, *fault),
        AuditError::Unsaved { name, error } => {
            let name = Escaped(name);
            let _ = writeln!(errors, "hourstable: {name}: not saved: {error}");
        }
        AuditError::Refused(error) => say_refused(errors, names, error),
        AuditError::BadState { name, why } => say_bad_state(errors, name, why),
        AuditError::OtherState { name, fault } => say_other_state(errors, name, *fault),
        AuditError::Write => {
            let _ = say_write(errors);
        }
        AuditError::Memory => {
            let _ = say_memory(errors);
        }
    }
}
