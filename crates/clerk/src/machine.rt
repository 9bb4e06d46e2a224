//! A clerk as a machine.

ghost use Rattle.std.specs.Prelude.{◌≡◌, true, IfErr};
ghost use Rattle.machines.specs.declared.machine.Trouble.TheVariants.{NoMemory};
ghost use Rattle.machines.specs.Answers.{Takes};
ghost use Rattle.clerk.specs.Calls.{event_step, clerk_step};
ghost use Rattle.clerk.specs.Memory.{takes_memory};

use crate::call::{ClerkCall, ClerkReply};
use crate::clerk::Clerk;
use crate::error::ClerkError;
use machines::{Duplicate, Event, Machine, Trouble};
use std::alloc::AllocError;

/// A call of a clerk, with the ticket that was drawn for it.
pub type ClerkEvent = Event<ClerkCall>;

impl Clerk {
    /// Makes a call given as a value, and returns the reply of its method.
    ///
    /// Errors are those of the method, in its order, then out of memory, which is possible only for
    /// `Learn`. An error leaves the clerk unchanged.
    pub fn call(&mut self, call: &ClerkCall) -> Result<ClerkReply, Trouble<ClerkError>>
        ensures step { Takes (clerk_step self.old call.now) self.old result self.new }
        ensures memory { IfErr result (λ trouble. trouble ≡ NoMemory → takes_memory call.now ≡ true) }
    {
        match call {
            ClerkCall::Learn(assignment) => {
                self.learn(assignment)?;
                Ok(ClerkReply::Learnt)
            }
            ClerkCall::Forget => {
                self.forget();
                Ok(ClerkReply::Forgotten)
            }
        }
    }
}

impl Machine for Clerk {
    type Event = ClerkEvent;

    type Reply = ClerkReply;

    type Fault = ClerkError;

    ghost step = { event_step };

    fn apply(&mut self, event: &ClerkEvent) -> Result<ClerkReply, Trouble<ClerkError>> {
        self.call(&event.call)
    }

    fn copy(&self) -> Result<Self, AllocError> {
        Clerk::copy(self)
    }

    fn copy_event(event: &ClerkEvent) -> Result<ClerkEvent, AllocError> {
        event.copy()
    }
}
