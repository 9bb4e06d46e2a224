//! States: what an audit saves, and what a later one goes on from.
//!
//! A state is a job line, and a snapshot of the job's machines as text.

ghost use Rattle.std.specs.Prelude.{◌≡◌, ◌++◌, ◌∷◌, [], IfErr, IfOk};
ghost use Rattle.snapshot_text.specs.Texts.{snapshot_text};
ghost use Rattle.command.specs.Audits.{IsNotRead, IsState, IsStateRead};
ghost use Rattle.command.specs.internals.{IsStateFrom};

use crate::log_audit::AuditError;
use cluster::Cluster;
use faults::Escaped;
use job_calls::{ClusterSnapshot, Job, ResumeFault};
use machines::Trouble;
use program_io::{ReadError, read_all};
use snapshot_text::{SnapshotError, first_line, snapshot_of, snapshot_text};
use std::alloc::{AllocError, Global};
use std::fs::File;
use std::io::{Read, Write};
use std::rt::Files;
use wire::JobName;

/// A state that was read.
#[derive(Drop)]
pub struct SavedState {
    /// The job line, with the end of the line.
    pub line: Vec<u8>,
    /// The snapshot.
    pub snapshot: ClusterSnapshot,
}

// Returns the state that these bytes are.
fn state_in<'a>(alloc: Global, name: &'a str, bytes: &[u8]) -> Result<SavedState, AuditError<'a>>
    ensures ok { IfOk result (λ state. IsState bytes.now state.line.items state.snapshot) }
    ensures err { IfErr result IsNotRead }
{
    let Some((job_line, text)) = first_line(bytes) else {
        let why = SnapshotError::Short;
        return Err(AuditError::BadState { name, why });
    };
    let mut line = Vec::from_slice(alloc, job_line)?;
    line.push(b'\n')?;
    match snapshot_of(alloc, &JobName::default(), text) {
        Ok(snapshot) => Ok(SavedState { line, snapshot }),
        Err(SnapshotError::Memory) => Err(AuditError::Memory),
        Err(why) => Err(AuditError::BadState { name, why }),
    }
}

// Reads a state to its end.
fn state_from<'a, R: Read>(
    alloc: Global,
    name: &'a str,
    reader: &mut R,
) -> Result<SavedState, AuditError<'a>>
    ensures ok { IfOk result (λ state. IsStateFrom (R.remaining reader.old) (R.remaining reader.new) state.line.items state.snapshot) }
    ensures err { IfErr result IsNotRead }
{
    match read_all(alloc, reader) {
        Ok(bytes) => state_in(alloc, name, bytes.as_slice()),
        Err(ReadError::Failed) => Err(AuditError::Read { name }),
        Err(ReadError::Memory) => Err(AuditError::Memory),
    }
}

/// Reads the state with this name; `-` is standard input.
pub(crate) fn read_state<'a, R: Read>(
    rt: &(impl Files + AllocGlobal),
    name: &'a str,
    input: &mut R,
) -> Result<SavedState, AuditError<'a>>
    ensures ok { IfOk result (λ state. IsStateRead name.now (R.remaining input.old) (R.remaining input.new) state.line.items state.snapshot) }
    ensures err { IfErr result IsNotRead }
{
    if name == "-" {
        return state_from(rt.alloc(), name, input);
    }
    match File::open(rt, name) {
        Ok(mut file) => state_from(rt.alloc(), name, &mut file),
        Err(error) => Err(AuditError::Unopened { name, error }),
    }
}

/// Fails if no machines of the job stand at the snapshot of a state, which has the first of the
/// names.
pub(crate) fn check_state<'a>(
    alloc: Global,
    names: &[&'a str],
    job: Job,
    earlier: &Option<ClusterSnapshot>,
) -> Result<(), AuditError<'a>>
    ensures { IfErr result IsNotRead }
{
    let Some(snapshot) = earlier else {
        return Ok(());
    };
    match Cluster::resume(alloc, job, snapshot) {
        Ok(_machines) => Ok(()),
        Err(Trouble::NoMemory) => Err(AuditError::Memory),
        Err(Trouble::Refused(fault)) => {
            let name = names.first().copied().unwrap_or("-");
            Err(AuditError::OtherState { name, fault })
        }
    }
}

/// Returns the state of a job with this job line at a snapshot.
pub(crate) fn state_text(
    alloc: Global,
    job_line: &[u8],
    snapshot: &ClusterSnapshot,
) -> Result<Vec<u8>, AllocError>
    ensures { IfOk result (λ text. text.items ≡ job_line.now ++ 10 ∷ snapshot_text [] snapshot.now) }
{
    let mut text = Vec::from_slice(alloc, job_line)?;
    text.push(b'\n')?;
    let parts = snapshot_text(alloc, &JobName::default(), snapshot)?;
    text.extend_from_slice(parts.as_slice())?;
    Ok(text)
}

/// Reports why what is in a file is not a state.
pub(crate) fn say_bad_state<E: Write>(errors: &mut E, name: &str, why: &SnapshotError) {
    let name = Escaped(name);
    let _ = match why {
        // The job line comes before the lines of the snapshot.
        SnapshotError::Line { number, why } => {
            let line = number.saturating_add(1);
            writeln!(errors, "hourstable: {name}:{line}: not a state: {why}")
        }
        _ => writeln!(errors, "hourstable: {name}: not a state: {why}"),
    };
}

/// Reports why a state is none of the job.
pub(crate) fn say_other_state<E: Write>(errors: &mut E, name: &str, fault: ResumeFault) {
    let name = Escaped(name);
    let words = match fault {
        ResumeFault::Table(_) => "no table of the job has these values",
        ResumeFault::Tasks => "it has another number of tasks",
        ResumeFault::Clerks => "it has another number of clerks",
        ResumeFault::Grants => "it has more grants than were made",
        ResumeFault::Assignments => "it has more assignments than generations",
        ResumeFault::Counts => "it has more notes or handles than a job can have",
        ResumeFault::TaskCalls => "no task accepts the calls of one of its tasks",
    };
    let _ = writeln!(
        errors,
        "hourstable: {name}: not a state of this job: {words}"
    );
}
