//! The first write that the law rules out.

ghost use Rattle.std.specs.Prelude.{List, IfOk, MatchOption, length};
ghost use Rattle.store_writes.specs.declared.write.WriteEvent.{WriteEvent};
ghost use Rattle.store_writes.specs.Writes.{IsFirstRuledOut, NoneBefore};
ghost use Rattle.store_writes.specs.internals.Firsts.{AllGivenBefore, IsFirstNotGiven, IsFirstOvertaken, NoneOvertakenBefore};

use crate::given::first_not_given;
use crate::late::{Late, first_overtaken};
use crate::write::WriteEvent;
use std::alloc::{AllocError, Global};

/// Why the law rules out a write.
#[derive(Clone, Copy, Debug, PartialEq, Eq)]
pub enum WriteFault {
    /// No task was given its token for its key before.
    NotGiven,
    /// The store took it later than the write at this index, which is of the same key and has a
    /// greater token.
    Overtaken(usize),
}

/// A write that the law rules out.
#[derive(Clone, Copy, Debug, PartialEq, Eq)]
pub struct RuledOut {
    /// The index of its event.
    pub index: usize,
    /// Why.
    pub why: WriteFault,
}

// Returns the first of the two kinds, and of one write the one that was not given.
#[tactic(auto, using(crate::proofs::Choosing::none_before, crate::proofs::Choosing::only_not_given, crate::proofs::Choosing::only_overtaken, crate::proofs::Choosing::both_not_given, crate::proofs::Choosing::both_overtaken))]
fn first_of(not_given: Option<usize>, overtaken: Option<Late>) -> Option<RuledOut>
    ensures { (events : List WriteEvent) → MatchOption not_given (AllGivenBefore events (length events)) (IsFirstNotGiven events)
        → MatchOption overtaken (NoneOvertakenBefore events (length events)) (IsFirstOvertaken events)
        → MatchOption result (NoneBefore events (length events)) (IsFirstRuledOut events) }
{
    let why = WriteFault::NotGiven;
    match (not_given, overtaken) {
        (None, None) => None,
        (Some(index), None) => Some(RuledOut { index, why }),
        (None, Some(late)) => Some(late.ruled_out()),
        (Some(index), Some(late)) if index <= late.index => Some(RuledOut { index, why }),
        (Some(_), Some(late)) => Some(late.ruled_out()),
    }
}

/// Finds the first write that the law of fencing tokens rules out. Events are in the order of their
/// tickets, and an index counts them from 0.
///
/// The law is `owners_law` of `job_fence`: a task writes with a token that it was given for the key,
/// and the tokens of the writes of a key that a store took never fall. A request of a log has no epoch,
/// so a token is looked for by its generation and its life; two tokens are compared with their epochs.
///
/// A write with a token that was not given is told so, even if it was overtaken too. If several
/// overtook it, one of them is told. The only error is out of memory.
pub fn first_ruled_out(alloc: Global, events: &[WriteEvent]) -> Result<Option<RuledOut>, AllocError>
    ensures { IfOk result (λ found. MatchOption found (NoneBefore events.now (length events.now)) (IsFirstRuledOut events.now)) }
{
    let not_given = first_not_given(alloc, events)?;
    let overtaken = first_overtaken(alloc, events)?;
    Ok(first_of(not_given, overtaken))
}
