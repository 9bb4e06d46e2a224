//! Locks and tickets when memory runs out: the call that needed it changes nothing, and returns the
//! next time what it returns with ample memory.

ghost use Rattle.history_lock.specs.Passes.{IsPassOf};

use crate::counter::Counter;
use crate::locks::{TwoLanes, close_with_both, two_lanes};
use history_lock::{Closed, History, LaneLock, Pass, WriteError};
use std::alloc::{AllocError, Global};
use std::sync::Wait;
use std::test::Fail;
use tickets::{Ticket, TicketError, TicketPass};

fn count<R: Wait>(rt: &R, lock: &LaneLock<Counter>, pass: &mut Pass<Counter>) -> u64
    requires { IsPassOf lock.now pass.old }
    ensures { IsPassOf lock.now pass.new }
{
    lock.shared(rt, pass, &mut |counter: &Counter| counter.count)
}

// The reply to a write, and whether memory ran out.
fn write<R: Wait>(
    rt: &R,
    lock: &LaneLock<Counter>,
    pass: &mut Pass<Counter>,
    more: u16,
) -> (Option<u64>, bool)
    requires { IsPassOf lock.now pass.old }
    ensures { IsPassOf lock.now pass.new }
{
    match lock.write(rt, pass, &mut || more) {
        Ok(reply) => (Some(reply), false),
        Err(error) => (None, matches!(error, WriteError::NoMemory)),
    }
}

// The reply to a write, made a second time where there was no memory, which left the count as it was.
fn written_at_last<R: Wait>(
    rt: &R,
    lock: &LaneLock<Counter>,
    pass: &mut Pass<Counter>,
    more: u16,
) -> Option<u64>
    requires { IsPassOf lock.now pass.old }
    ensures { IsPassOf lock.now pass.new }
{
    let before = count(rt, lock, pass);
    let (reply, is_out_of_memory) = write(rt, lock, pass, more);
    if is_out_of_memory && count(rt, lock, pass) == before {
        write(rt, lock, pass, more).0
    } else {
        reply
    }
}

fn copy_at_last(closed: &Closed<Counter>) -> Result<Closed<Counter>, AllocError> {
    match closed.copy() {
        Ok(copied) => Ok(copied),
        Err(AllocError) => closed.copy(),
    }
}

// The replies to a write of each lane, and a copy of what the lock leaves.
fn replies_and_end<R: Wait>(
    rt: &R,
    alloc: Global,
) -> Result<([Option<u64>; 2], Closed<Counter>), Fail> {
    let TwoLanes {
        lock,
        others,
        mut p0,
        mut p1,
    } = two_lanes(alloc, 2)?;
    let first = written_at_last(rt, &lock, &mut p0, 5);
    let second = written_at_last(rt, &lock, &mut p1, 7);
    let closed = close_with_both(lock, others, p0, p1)?;
    Ok(([first, second], copy_at_last(&closed)?))
}

// Whether a history has just these entries: the lane and the event of each.
fn has_entries(history: &History<u16>, wanted: &[(u64, u16)]) -> bool {
    let entries = history.entries().iter();
    entries
        .map(|entry| (entry.lane, entry.event))
        .eq(wanted.iter().copied())
}

#[test]
fn writes_as_before_without_memory(rt: HostRuntime) -> Result<(), Fail> {
    let (replies, closed) = replies_and_end(&rt, rt.alloc())?;
    assert_eq!(rt; replies, [Some(5), Some(12)]);
    assert!(rt; has_entries(&closed.history, &[(0, 5), (1, 7)]));
    assert_eq!(rt; closed.machine.get().count, 12);
    Ok(())
}

fn ticket_at_last(alloc: Global) -> Result<(Ticket, Vec<TicketPass>), Fail> {
    let made = match Ticket::new(alloc, 2, 1) {
        Err(TicketError::NoMemory) => Ticket::new(alloc, 2, 1),
        first => first,
    };
    Ok(made.ok().ok_or("running out of memory changes nothing")?)
}

#[test]
fn makes_a_ticket_as_before_without_memory(rt: HostRuntime) -> Result<(), Fail> {
    let (_ticket, passes) = ticket_at_last(rt.alloc())?;
    let left = passes.iter().map(TicketPass::left);
    assert!(rt; left.eq([1, 1]));
    Ok(())
}
