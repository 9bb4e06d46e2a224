//! Machines that lanes share.

ghost use Rattle.std.specs.Prelude.{◌≡◌, IfOk};

use std::alloc::{AllocError, Global};
use std::marker::Model;
use std::sync::Arc;

/// A machine in memory that several owners share; contracts see the machine.
#[derive(Drop)]
pub struct SharedMachine<M> {
    machine: Arc<M>,
}

impl<M> Model for SharedMachine<M> {
    ghost use Rattle.std.specs.Arc.{arc_value};

    ghost Value = { M };

    ghost view = { λ s. arc_value s.machine };
}

impl<M> SharedMachine<M> {
    /// Returns the machine.
    pub fn get(&self) -> &M
        ensures { result.now ≡ self.now }
    {
        &self.machine
    }

    /// Returns one more owner of the same machine. The only error is out of memory.
    pub fn share(&self) -> Result<Self, AllocError>
        ensures { IfOk result (λ shared. shared ≡ self.now) }
    {
        Ok(SharedMachine {
            machine: Arc::try_clone(&self.machine)?,
        })
    }
}

impl<M: Drop> SharedMachine<M> {
    // A machine with one owner.
    pub(crate) fn new(alloc: Global, machine: M) -> Result<Self, AllocError>
        ensures { IfOk result (λ shared. shared ≡ machine) }
    {
        Ok(SharedMachine {
            machine: Arc::new(alloc, machine)?,
        })
    }
}
