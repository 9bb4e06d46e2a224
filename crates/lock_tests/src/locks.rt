//! Locks around a counter and their passes, and how a lock closes.

ghost use Rattle.std.specs.Prelude.{IfOk};
ghost use Rattle.history_lock.specs.Passes.{IsPassOf, ArePassesOf};

use crate::counter::Counter;
use history_lock::{Closed, LaneLock, NewLockError, Pass};
use std::alloc::Global;
use std::test::Fail;

// A lock around a counter at 0, and the passes of all its lanes; made again where memory is refused once.
#[tactic(auto, using(history_lock::proofs::Dealt::new_passes))]
pub fn new_lock(
    alloc: Global,
    lanes: u64,
    limit: usize,
) -> Result<(LaneLock<Counter>, Vec<Pass<Counter>>), Fail>
    ensures { IfOk result (λ made. ArePassesOf made.0 made.1.items) }
{
    let made = match LaneLock::new(alloc, Counter { count: 0 }, lanes, limit) {
        Err(NewLockError::NoMemory) => LaneLock::new(alloc, Counter { count: 0 }, lanes, limit),
        first => first,
    };
    Ok(made.ok().ok_or("lanes and entries within range")?)
}

fn last_pass(
    _lock: &LaneLock<Counter>,
    passes: &mut Vec<Pass<Counter>>,
) -> Result<Pass<Counter>, Fail>
    requires { ArePassesOf _lock.now passes.old.items }
    ensures others { ArePassesOf _lock.now passes.new.items }
    ensures last { IfOk result (λ pass. IsPassOf _lock.now pass) }
{
    Ok(passes.pop().ok_or("a pass is left")?)
}

// A lock of two lanes; its passes of lane 0 and lane 1, and no others.
pub struct TwoLanes {
    pub lock: LaneLock<Counter>,
    pub others: Vec<Pass<Counter>>,
    pub p0: Pass<Counter>,
    pub p1: Pass<Counter>,
}

pub fn two_lanes(alloc: Global, limit: usize) -> Result<TwoLanes, Fail>
    ensures others { IfOk result (λ made. ArePassesOf made.lock made.others.items) }
    ensures first { IfOk result (λ made. IsPassOf made.lock made.p0) }
    ensures second { IfOk result (λ made. IsPassOf made.lock made.p1) }
{
    let (lock, mut others) = new_lock(alloc, 2, limit)?;
    let p1 = last_pass(&lock, &mut others)?;
    let p0 = last_pass(&lock, &mut others)?;
    Ok(TwoLanes {
        lock,
        others,
        p0,
        p1,
    })
}

// What the lock leaves when all passes are there.
pub fn close_all(
    lock: LaneLock<Counter>,
    passes: Vec<Pass<Counter>>,
) -> Result<Closed<Counter>, Fail>
    requires { ArePassesOf lock passes.items }
{
    Ok(lock.close(passes).ok().ok_or("all passes are there")?)
}

// The same with two passes more.
pub fn close_with_both(
    lock: LaneLock<Counter>,
    mut others: Vec<Pass<Counter>>,
    p0: Pass<Counter>,
    p1: Pass<Counter>,
) -> Result<Closed<Counter>, Fail>
    requires others { ArePassesOf lock others.items }
    requires first { IsPassOf lock p0 }
    requires second { IsPassOf lock p1 }
{
    others.push(p0)?;
    others.push(p1)?;
    close_all(lock, others)
}
