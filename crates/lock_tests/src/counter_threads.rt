//! Threads, each with a pass of its own.

ghost use Rattle.std.specs.Prelude.{◌≡◌, ◌+◌, ◌≤◌, length, IfOk, All};
ghost use Rattle.history_lock.specs.Passes.{IsPassOf, ArePassesOf};

use crate::counter::Counter;
use crate::locks::{TwoLanes, close_all, close_with_both, new_lock, two_lanes};
use history_lock::{Closed, History, LaneLock, Pass};
use std::alloc::{AllocError, Global};
use std::sync::Wait;
use std::test::Fail;
use std::thread::{Threads, join, map_vec};

// Adds 1 so many times, and counts the replies: the pass has as many more events of its own.
fn add<R: Wait>(
    rt: &R,
    lock: &LaneLock<Counter>,
    mut pass: Pass<Counter>,
    times: u64,
) -> (Pass<Counter>, u64)
    requires { IsPassOf lock.now pass }
    ensures own { IsPassOf lock.now result.0 }
    ensures counted { length result.0.mine ≡ length pass.mine + result.1 }
    ensures most { result.1 ≤ times }
{
    let mut answered = 0;
    for _ in 0..times {
        if lock.write(rt, &mut pass, &mut || 1).is_ok() {
            answered += 1;
        }
    }
    (pass, answered)
}

// The same by two threads.
fn add_in_two_threads<R: Threads + Wait + Sync>(
    rt: &R,
    lock: &LaneLock<Counter>,
    first: Pass<Counter>,
    second: Pass<Counter>,
    times: u64,
) -> ((Pass<Counter>, u64), (Pass<Counter>, u64))
    requires first { IsPassOf lock.now first }
    requires second { IsPassOf lock.now second }
    ensures own { IsPassOf lock.now result.0.0 × IsPassOf lock.now result.1.0 }
    ensures most { (result.0.1 ≤ times) × (result.1.1 ≤ times) }
{
    join(
        rt,
        || add(rt, lock, first, times),
        || add(rt, lock, second, times),
    )
}

// How many replies two threads got, and what the lock of this limit leaves.
fn added_in_two_threads<R: Threads + Wait + Sync>(
    rt: &R,
    alloc: Global,
    limit: usize,
) -> Result<(u64, Closed<Counter>), Fail> {
    let TwoLanes {
        lock,
        others,
        p0,
        p1,
    } = two_lanes(alloc, limit)?;
    let ((p0, first), (p1, second)) = add_in_two_threads(rt, &lock, p0, p1, 100);
    let closed = close_with_both(lock, others, p0, p1)?;
    Ok((first + second, closed))
}

#[test]
fn has_as_many_entries_as_replies(rt: HostRuntime) -> Result<(), Fail> {
    for limit in [150, 300] {
        let (replies, closed) = added_in_two_threads(&rt, rt.alloc(), limit)?;
        assert_eq!(rt; replies, limit.min(200) as u64);
        assert_eq!(rt; closed.history.len() as u64, replies);
        assert_eq!(rt; closed.machine.get().count, replies);
    }
    Ok(())
}

// Writes so many times, and reads before each write. Counts the writes that were answered after a read that
// showed all those before.
fn read_and_write<R: Wait>(
    rt: &R,
    lock: &LaneLock<Counter>,
    mut pass: Pass<Counter>,
    times: u64,
) -> (Pass<Counter>, u64)
    requires { IsPassOf lock.now pass }
    ensures own { IsPassOf lock.now result.0 }
    ensures most { result.1 ≤ times }
{
    let mut answered = 0;
    for _ in 0..times {
        let seen = lock.shared(rt, &mut pass, &mut |counter: &Counter| counter.count);
        if seen >= answered && lock.write(rt, &mut pass, &mut || 1).is_ok() {
            answered += 1;
        }
    }
    (pass, answered)
}

// The same by each pass, in a thread of its own: the passes, and how many writes of each were answered so.
fn read_and_write_in_threads<R: Threads + Wait + Sync>(
    rt: &R,
    lock: &LaneLock<Counter>,
    passes: Vec<Pass<Counter>>,
    times: u64,
) -> Result<Vec<(Pass<Counter>, u64)>, AllocError>
    requires { ArePassesOf lock.now passes.items }
    ensures { IfOk result (λ done. All (λ both. IsPassOf lock.now both.0) done.items) }
{
    map_vec(
        rt,
        passes,
        &|pass: Pass<Counter>| -> (Pass<Counter>, u64)
            requires { IsPassOf lock.now pass }
            ensures { IsPassOf lock.entry.now result.0 }
        { read_and_write(rt, lock, pass, times) },
    )
}

// The passes alone, and how many writes were answered in all.
fn all_answered(
    alloc: Global,
    _lock: &LaneLock<Counter>,
    mut done: Vec<(Pass<Counter>, u64)>,
) -> Result<(Vec<Pass<Counter>>, u64), AllocError>
    requires { All (λ both. IsPassOf _lock.now both.0) done.items }
    ensures { IfOk result (λ all. ArePassesOf _lock.now all.0.items) }
{
    let mut passes = Vec::new(alloc);
    let mut answered = 0u64;
    while let Some((pass, count)) = done.pop() {
        passes.push(pass)?;
        answered = answered.saturating_add(count);
    }
    Ok((passes, answered))
}

// How many writes of so many threads were answered so, and what the lock leaves.
fn written_in_threads<R: Threads + Wait + Sync>(
    rt: &R,
    alloc: Global,
    threads: u64,
    times: u64,
) -> Result<(u64, Closed<Counter>), Fail> {
    let (lock, passes) = new_lock(alloc, threads, 10_000)?;
    let done = read_and_write_in_threads(rt, &lock, passes, times)?;
    let (passes, answered) = all_answered(alloc, &lock, done)?;
    let closed = close_all(lock, passes)?;
    Ok((answered, closed))
}

// How many entries are of a lane.
fn entries_of(history: &History<u16>, lane: u64) -> u64 {
    let entries = history.entries().iter();
    entries.filter(|entry| entry.lane == lane).count() as u64
}

#[test]
fn has_just_the_writes_of_many_threads(rt: HostRuntime) -> Result<(), Fail> {
    for threads in [2, 4, 8] {
        let times = 10_000 / threads;
        let (answered, closed) = written_in_threads(&rt, rt.alloc(), threads, times)?;
        assert_eq!(rt; answered, 10_000);
        assert_eq!(rt; closed.history.entries().len(), 10_000);
        for lane in 0..threads {
            assert_eq!(rt; entries_of(&closed.history, lane), times);
        }
        assert_eq!(rt; closed.machine.get().count, 10_000);
    }
    Ok(())
}
