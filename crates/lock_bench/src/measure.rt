//! Runs of readers, and of a writer beside them.

ghost use Rattle.std.specs.Prelude.{◌≡◌, ◌⊎◌};
ghost use Rattle.history_lock.specs.Passes.{ArePassesOf};

use crate::seats::{Kind, LaneSeat, Seat};
use crate::table::{SLICES, new_table};
use history_lock::{LaneLock, MOST_ENTRIES, Pass};
use lease_table::LeaseTable;
use std::alloc::{AllocError, Global};
use std::sync::{Mutex, RwLock, Wait};
use std::thread::{Threads, map_vec, sleep};
use std::time::{Clock, Duration, Instant};

/// How many reads a thread makes before it looks at the clock again.
const ROUND: u64 = 1024;

/// How long a writer rests between two writes.
const REST_MILLIS: u64 = 1;

/// Who uses the lock, and for how long.
#[derive(Clone, Copy)]
pub(crate) struct Load {
    pub(crate) readers: u64,
    pub(crate) has_writer: bool,
    pub(crate) millis: u64,
}

/// How many reads and writes were made.
#[derive(Clone, Copy)]
pub(crate) struct Count {
    pub(crate) reads: u64,
    pub(crate) writes: u64,
}

// What a thread does.
#[derive(Drop)]
enum Job<'a> {
    Read(Seat<'a>),
    Write(Seat<'a>),
}

// Whether this much time has passed, or the clock cannot tell.
fn has_passed(rt: &impl Clock, start: &Option<Instant>, time: Duration) -> bool {
    match start.as_ref().map(|start| start.elapsed(rt)) {
        Some(Ok(passed)) => passed >= time,
        _ => true,
    }
}

// Reads in rounds until the time has passed.
fn read_for<R: Wait + Clock>(rt: &R, mut seat: Seat<'_>, time: Duration) -> Count
    ensures { result.writes ≡ 0 }
{
    let start = Instant::now(rt).ok();
    let mut reads = 0u64;
    for _ in 0..u64::MAX {
        for _ in 0..ROUND {
            reads = reads.saturating_add(seat.read(rt).min(1));
        }
        if has_passed(rt, &start, time) {
            break;
        }
    }
    Count { reads, writes: 0 }
}

// Writes once a millisecond until the time has passed.
fn write_for<R: Wait + Clock>(rt: &R, mut seat: Seat<'_>, time: Duration) -> Count
    ensures { result.reads ≡ 0 }
{
    let start = Instant::now(rt).ok();
    let mut writes = 0u64;
    for n in 0..u64::MAX - 3 {
        if seat.write(rt, n + 3) {
            writes = writes.saturating_add(1);
        }
        if has_passed(rt, &start, time) {
            break;
        }
        sleep(rt, Duration::from_millis(REST_MILLIS));
    }
    Count { reads: 0, writes }
}

// Returns what a thread did: it only reads, or only writes.
fn done<R: Wait + Clock>(rt: &R, job: Job<'_>, time: Duration) -> Count
    ensures { (result.reads ≡ 0) ⊎ (result.writes ≡ 0) }
{
    match job {
        Job::Read(seat) => read_for(rt, seat, time),
        Job::Write(seat) => write_for(rt, seat, time),
    }
}

// Returns what all threads did.
fn work<R: Threads + Wait + Clock + Sync>(
    rt: &R,
    jobs: Vec<Job<'_>>,
    time: Duration,
) -> Result<Count, AllocError> {
    let counts = map_vec(
        rt,
        jobs,
        &|job: Job<'_>| -> Count
            ensures { (result.reads ≡ 0) ⊎ (result.writes ≡ 0) }
        { done(rt, job, time) },
    )?;
    let mut all = Count {
        reads: 0,
        writes: 0,
    };
    for count in &counts {
        all.reads = all.reads.saturating_add(count.reads);
        all.writes = all.writes.saturating_add(count.writes);
    }
    Ok(all)
}

// Returns the jobs of a load, each with the seat that `seat` returns.
fn jobs_of<'a, F: Fn() -> Seat<'a>>(
    alloc: Global,
    load: Load,
    seat: &F,
) -> Result<Vec<Job<'a>>, AllocError>
    requires { F.pre seat.now }
{
    let mut jobs = Vec::new(alloc);
    for _ in 0..load.readers {
        jobs.push(Job::Read(seat()))?;
    }
    if load.has_writer {
        jobs.push(Job::Write(seat()))?;
    }
    Ok(jobs)
}

// Makes a run under the lock that keeps the history.
#[tactic(auto, using(history_lock::proofs::Dealt::new_passes))]
fn run_lanes<R: Threads + Wait + Clock + Sync>(
    rt: &R,
    alloc: Global,
    table: LeaseTable,
    load: Load,
) -> Option<Count> {
    let lanes = load.readers.saturating_add(u64::from(load.has_writer));
    let (lock, passes) = LaneLock::new(alloc, table, lanes, MOST_ENTRIES).ok()?;
    let jobs = lane_jobs(alloc, &lock, passes, load).ok()?;
    work(rt, jobs, Duration::from_millis(load.millis)).ok()
}

// Returns the same jobs, each with a pass of the lock.
fn lane_jobs<'a>(
    alloc: Global,
    lock: &'a LaneLock<LeaseTable>,
    mut passes: Vec<Pass<LeaseTable>>,
    load: Load,
) -> Result<Vec<Job<'a>>, AllocError>
    requires { ArePassesOf lock.now passes.items }
{
    let mut jobs = Vec::new(alloc);
    while let Some(pass) = passes.pop() {
        let seat = Seat::Lanes(LaneSeat { lock, pass });
        let is_writer = load.has_writer && jobs.is_empty();
        jobs.push(if is_writer {
            Job::Write(seat)
        } else {
            Job::Read(seat)
        })?;
    }
    Ok(jobs)
}

/// Returns what the threads of a load did under a lock of this kind, or `None` if memory ran out.
pub(crate) fn run<R: Threads + Wait + Clock + Sync>(
    rt: &R,
    alloc: Global,
    kind: Kind,
    load: Load,
) -> Option<Count> {
    let table = new_table(alloc, SLICES)?;
    match kind {
        Kind::Lanes => run_lanes(rt, alloc, table, load),
        Kind::ReadWrite => {
            let lock = RwLock::new(table);
            work(
                rt,
                jobs_of(alloc, load, &|| Seat::ReadWrite(&lock)).ok()?,
                Duration::from_millis(load.millis),
            )
            .ok()
        }
        Kind::Mutex => {
            let lock = Mutex::new(table);
            work(
                rt,
                jobs_of(alloc, load, &|| Seat::Mutex(&lock)).ok()?,
                Duration::from_millis(load.millis),
            )
            .ok()
        }
    }
}

/// Makes this many writes, alone, under a lock with this many lanes over a table of this many
/// slices. Returns `None` if the lock or the table could not be made.
#[tactic(auto, using(history_lock::proofs::Dealt::last_new))]
pub(crate) fn write_alone<R: Wait>(
    rt: &R,
    alloc: Global,
    lanes: u64,
    slices: u64,
    writes: u64,
) -> Option<u64> {
    let table = new_table(alloc, slices)?;
    let (lock, mut passes) = LaneLock::new(alloc, table, lanes, MOST_ENTRIES).ok()?;
    let pass = passes.pop()?;
    let mut seat = Seat::Lanes(LaneSeat { lock: &lock, pass });
    let mut written = 0u64;
    for n in 0..writes.min(u64::MAX - 3) {
        written = written.saturating_add(u64::from(seat.write(rt, n + 3)));
    }
    Some(written)
}
