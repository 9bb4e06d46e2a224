//! Writes that the store took too late.

ghost use Rattle.std.specs.Prelude.{◌≡◌, ℕ, ◌+◌, List, take, Some, slice_get, IfOk, MatchOption, length};
ghost use Rattle.store_writes.specs.declared.taken.Taken.{Taken};
ghost use Rattle.store_writes.specs.internals.Firsts.{IsFirstOvertaken, IsFound, IsGreaterBefore, NoneOvertakenBefore, ruled_out};

use crate::ruled_out::{RuledOut, WriteFault};
use crate::shelves::Shelves;
use crate::taken::{Taken, taken_in};
use crate::write::WriteEvent;
use std::alloc::{AllocError, Global};

/// A write that another one overtook.
#[derive(Clone, Copy, Debug, PartialEq, Eq)]
pub struct Late {
    /// The index of its event.
    pub index: usize,
    /// The index of the event of the other one.
    pub by: usize,
}

impl Late {
    /// Returns it as a write that the law rules out.
    pub fn ruled_out(self) -> RuledOut
        ensures { result ≡ ruled_out self }
    {
        RuledOut {
            index: self.index,
            why: WriteFault::Overtaken(self.by),
        }
    }
}

// Returns the first of two late writes: of the first so far, and of the next write, if this one
// overtook it.
fn earlier(first: Option<Late>, write: Taken, by: Option<Taken>) -> Option<Late>
    ensures { (taken : List Taken) (place : ℕ) → IsFound taken place first → slice_get taken place ≡ Some write
        → IsGreaterBefore (take place taken) write by → IsFound taken (place + 1) result }
{
    let Some(by) = by else {
        return first;
    };
    let late = Late {
        index: write.index,
        by: by.index,
    };
    match first {
        Some(first) if first.index <= late.index => Some(first),
        _ => Some(late),
    }
}

// Returns the first that is late of these writes, which are in their order.
fn first_late(alloc: Global, taken: &[Taken]) -> Result<Option<Late>, AllocError>
    ensures { IfOk result (IsFound taken.now (length taken.now)) }
{
    let mut shelves = Shelves::new(alloc);
    let mut first = None;
    for place in 0..taken.len() {
        let write = taken[place];
        let by = shelves.take(write)?;
        first = earlier(first, write, by);
    }
    Ok(first)
}

/// Finds the first write that the store took after one of the same key with a greater token.
pub fn first_overtaken(alloc: Global, events: &[WriteEvent]) -> Result<Option<Late>, AllocError>
    ensures { IfOk result (λ found. MatchOption found (NoneOvertakenBefore events.now (length events.now)) (IsFirstOvertaken events.now)) }
{
    let mut taken = taken_in(alloc, events)?;
    taken.sort()?;
    let found = first_late(alloc, taken.as_slice())?;
    Ok(found)
}
