//! The job lines of a log: the first lines of its files that have a job.

ghost use Rattle.std.specs.Prelude.{◌≡◌, ◌++◌, ◌∷◌, [], List, None, map, IfErr, IfOk, OnOk};
ghost use Rattle.faults.specs.JobLines.{SaysJob};
ghost use Rattle.log_line.specs.Files.{AreParted, IsJobLine, PlacedLine, begins_file};
ghost use Rattle.log_line.specs.Readers.{AreJobLines, IsFirst, file_after, kept, others_with, shown};
ghost use Rattle.log_line.specs.internals.Reading.{IsJobMember, IsJobOf, IsNoJobFor, IsNoJobOf};

use crate::lines::{KeptLine, LineBytes};
use crate::log::LogError;
use faults::job_said;
use job_calls::Job;
use program_io::{Fault, JsonError, strict_value_of};
use replies::job_member;
use std::alloc::{AllocError, Global};

/// The job lines among the lines of a log that count.
#[derive(Debug, Drop)]
pub struct JobLines {
    /// The first line that counts.
    pub first: Option<KeptLine>,
    /// The file of the last line that counts.
    pub before: Option<usize>,
    /// The job lines.
    pub jobs: Vec<KeptLine>,
}

// Whether a line is an object whose one member is `job`.
fn has_job_member(alloc: Global, bytes: &[u8]) -> Result<bool, AllocError>
    ensures { IfOk result (IsJobMember bytes.now) }
{
    match strict_value_of(alloc, bytes) {
        Ok(value) => match job_member(&value) {
            Ok(_member) => Ok(true),
            Err(_) => Ok(false),
        },
        Err(JsonError::Memory) => Err(AllocError),
        Err(JsonError::NotJson(_)) => Ok(false),
        Err(JsonError::Repeated(_)) => Ok(false),
    }
}

// Whether a line is the first of its file, where the line before it is of the file `before`.
fn begins_file(before: Option<usize>, line: &LineBytes) -> bool
    ensures { result ≡ begins_file before (shown line.now) }
{
    match before {
        Some(before) => before != line.place.file,
        None => true,
    }
}

// Whether a line is a job line.
fn is_job_line(alloc: Global, before: Option<usize>, line: &LineBytes) -> Result<bool, AllocError>
    ensures { IfOk result (IsJobLine before (shown line.now)) }
{
    if begins_file(before, line) {
        has_job_member(alloc, line.bytes)
    } else {
        Ok(false)
    }
}

// Keeps a line if there was none before it.
fn keep_first(
    alloc: Global,
    first: &mut Option<KeptLine>,
    line: &LineBytes,
) -> Result<(), AllocError>
    ensures { (lines : List PlacedLine) → IsFirst lines first.old
        → OnOk result (IsFirst (lines ++ shown line.now ∷ []) first.new) }
{
    if first.is_none() {
        *first = Some(line.keep(alloc)?);
    }
    Ok(())
}

// Keeps a line if it is a job line.
fn keep_job(
    alloc: Global,
    jobs: &mut Vec<KeptLine>,
    line: &LineBytes,
    is_job: bool,
) -> Result<(), AllocError>
    ensures { (lines others : List PlacedLine) → AreParted None lines (map kept jobs.old.items) others
        → IsJobLine (file_after None lines) (shown line.now) is_job
        → OnOk result (AreParted None (lines ++ shown line.now ∷ []) (map kept jobs.new.items) (others_with others (shown line.now) is_job)) }
{
    if is_job {
        jobs.push(line.keep(alloc)?)?;
    }
    Ok(())
}

impl JobLines {
    /// Creates it without lines.
    pub fn new(alloc: Global) -> Self
        ensures { AreJobLines [] [] result }
    {
        JobLines {
            first: None,
            before: None,
            jobs: Vec::new(alloc),
        }
    }

    /// Takes the next line that counts, and returns whether it is a job line.
    pub fn take(&mut self, alloc: Global, line: &LineBytes) -> Result<bool, AllocError>
        ensures { (lines others : List PlacedLine) → AreJobLines lines others self.old
            → IfOk result (λ is_job. AreJobLines (lines ++ shown line.now ∷ []) (others_with others (shown line.now) is_job) self.new) }
    {
        let is_job = is_job_line(alloc, self.before, line)?;
        keep_first(alloc, &mut self.first, line)?;
        keep_job(alloc, &mut self.jobs, line, is_job)?;
        self.before = Some(line.place.file);
        Ok(is_job)
    }
}

// Parses a line as a job.
fn job_on(alloc: Global, line: &KeptLine) -> Result<Job, LogError>
    ensures ok { IfOk result (SaysJob line.now.bytes.items) }
    ensures err { IfErr result (IsNoJobFor (kept line.now)) }
{
    match job_said(alloc, line.bytes.as_slice()) {
        Ok(job) => Ok(job),
        Err(Fault::Input(faults)) => {
            let place = line.place;
            Err(LogError::NoJob { place, faults })
        }
        Err(_) => Err(LogError::Memory),
    }
}

/// Returns the job of the job lines. If there are none, `first` is parsed as one.
pub fn job_of(alloc: Global, jobs: &[KeptLine], first: &KeptLine) -> Result<Job, LogError>
    ensures ok { IfOk result (IsJobOf (map kept jobs.now) (kept first.now)) }
    ensures err { IfErr result (IsNoJobOf (map kept jobs.now) (kept first.now)) }
{
    if jobs.is_empty() {
        return job_on(alloc, first);
    }
    let job = job_on(alloc, &jobs[0])?;
    for index in 1..jobs.len() {
        let line = &jobs[index];
        let other = job_on(alloc, line)?;
        if other != job {
            return Err(LogError::OtherJob {
                first: jobs[0].place,
                second: line.place,
            });
        }
    }
    Ok(job)
}
