//! A slicelet as a machine.

ghost use Rattle.std.specs.Prelude.{◌≡◌, true, IfErr};
ghost use Rattle.machines.specs.declared.machine.Trouble.TheVariants.{NoMemory};
ghost use Rattle.machines.specs.Answers.{Takes};
ghost use Rattle.slicelet.specs.Memory.{takes_memory};
ghost use Rattle.slicelet.specs.Steps.{event_step, slicelet_step};

use crate::slicelet::Slicelet;
use grants::{SliceletCall, SliceletError, SliceletReply};
use machines::{Duplicate, Event, Machine, Trouble};
use std::alloc::AllocError;

/// A call of a slicelet, with the ticket that was drawn for it.
pub type SliceletEvent = Event<SliceletCall>;

impl Slicelet {
    /// Makes a call given as a value, and returns the reply of its method.
    ///
    /// Errors are those of the method, in its order, then out of memory, which is possible only for
    /// `Hear` and `Release`. An error leaves the slicelet unchanged.
    pub fn call(&mut self, call: &SliceletCall) -> Result<SliceletReply, Trouble<SliceletError>>
        ensures step { Takes (slicelet_step self.old call.now) self.old result self.new }
        ensures memory { IfErr result (λ trouble. trouble ≡ NoMemory → takes_memory call.now ≡ true) }
    {
        match call {
            SliceletCall::Start { life, at } => {
                self.start(*life, *at).map_err(Trouble::Refused)?;
                Ok(SliceletReply::Started)
            }
            SliceletCall::Hear { grant, at } => {
                self.hear(grant, *at)?;
                Ok(SliceletReply::Heard)
            }
            SliceletCall::Release { kind, at } => {
                Ok(SliceletReply::Released(self.release(*kind, *at)?))
            }
            SliceletCall::Resume { life } => Ok(SliceletReply::Resumed(
                self.begin_anew(*life).map_err(Trouble::Refused)?,
            )),
        }
    }
}

impl Machine for Slicelet {
    type Event = SliceletEvent;

    type Reply = SliceletReply;

    type Fault = SliceletError;

    ghost step = { event_step };

    fn apply(&mut self, event: &SliceletEvent) -> Result<SliceletReply, Trouble<SliceletError>> {
        self.call(&event.call)
    }

    fn copy(&self) -> Result<Self, AllocError> {
        Slicelet::copy(self)
    }

    fn copy_event(event: &SliceletEvent) -> Result<SliceletEvent, AllocError> {
        event.copy()
    }
}
