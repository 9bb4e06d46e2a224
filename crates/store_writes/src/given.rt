//! Tokens that were given before they were used.

ghost use Rattle.std.specs.Prelude.{◌≡◌, ℕ, ◌+◌, List, Some, slice_get, IfOk, OnOk, MatchOption, length};
ghost use Rattle.store_writes.specs.declared.write.WriteEvent.{WriteEvent};
ghost use Rattle.store_writes.specs.declared.write.WriteEvent.TheVariants.{Given};
ghost use Rattle.store_writes.specs.internals.Firsts.{AllGivenBefore, AreGiven, IsFirstNotGiven, IsGiven, IsLacking};

use crate::write::{GivenToken, WriteEvent};
use std::alloc::{AllocError, Global};
use std::collections::HashSet;

/// The tokens that tasks were given so far.
#[derive(Drop)]
pub struct GivenTokens {
    tokens: HashSet<GivenToken>,
}

impl GivenTokens {
    /// Creates it before the first event.
    pub fn new(alloc: Global) -> Self
        ensures { (events : List WriteEvent) → AreGiven events 0 result }
    {
        GivenTokens {
            tokens: HashSet::new(alloc),
        }
    }

    // Takes the next event, with which a token is given.
    fn give(&mut self, token: GivenToken) -> Result<(), AllocError>
        ensures { (events : List WriteEvent) (index : ℕ) → AreGiven events index self.old
            → slice_get events index ≡ Some (Given token) → OnOk result (AreGiven events (index + 1) self.new) }
    {
        self.tokens.insert(token)?;
        Ok(())
    }

    // Whether a token was given.
    fn has(&self, token: GivenToken) -> bool
        ensures { (events : List WriteEvent) (index : ℕ) → AreGiven events index self.now → IsGiven events index token result }
    {
        self.tokens.contains(&token)
    }

    // Takes the next event. Returns whether it is a write whose token was not given. The only error is
    // out of memory.
    fn take(&mut self, event: WriteEvent) -> Result<bool, AllocError>
        ensures lacking { (events : List WriteEvent) (index : ℕ) → AreGiven events index self.old → slice_get events index ≡ Some event
            → IfOk result (IsLacking events index event) }
        ensures kept { (events : List WriteEvent) (index : ℕ) → AreGiven events index self.old → slice_get events index ≡ Some event
            → OnOk result (AreGiven events (index + 1) self.new) }
    {
        match event {
            WriteEvent::Given(token) => {
                self.give(token)?;
                Ok(false)
            }
            WriteEvent::Offered(write) => Ok(!self.has(write.token_needed())),
        }
    }
}

/// Finds the first write with a token that no task was given for its key before.
pub fn first_not_given(alloc: Global, events: &[WriteEvent]) -> Result<Option<usize>, AllocError>
    ensures { IfOk result (λ found. MatchOption found (AllGivenBefore events.now (length events.now)) (IsFirstNotGiven events.now)) }
{
    let mut given = GivenTokens::new(alloc);
    for index in 0..events.len() {
        let is_lacking = given.take(events[index])?;
        if is_lacking {
            return Ok(Some(index));
        }
    }
    Ok(None)
}
