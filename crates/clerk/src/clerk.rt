//! Clerks.

ghost use Rattle.std.specs.Prelude.{◌≡◌, None, IfOk, option_map};
ghost use Rattle.machines.specs.Answers.{Takes};
ghost use Rattle.clerk.specs.Steps.{learn_step, look_at};

use crate::error::{ClerkError, Unknown};
use arrayvec::ArrayVec;
use assignment::{Assignment, Owners};
use machines::Trouble;
use slice_ranges::SliceKey;
use std::alloc::AllocError;
use std::marker::Model;

/// A clerk tells a client which tasks own a key, by the newest assignment that it has learnt.
///
/// It keeps the assignment with the greatest generation of those that it has learnt since it last
/// forgot.
#[derive(Drop)]
pub struct Clerk {
    assignment: Option<Assignment>,
}

impl Model for Clerk {
    ghost use Rattle.std.specs.Prelude.{Option};
    ghost use Rattle.assignment.specs.Slices.{Slicing};

    ghost Value = { Option Slicing };

    ghost view = { λ c. c.assignment };
}

/// The owners of a key, and the generation of the assignment that names them.
#[derive(Debug, PartialEq, Eq, Drop)]
pub struct Found {
    /// The generation of the assignment.
    pub generation: u64,
    /// The tasks that own the key in this assignment, in rising order.
    pub owners: Owners,
}

impl Found {
    /// Returns a copy that equals this value.
    pub fn copy(&self) -> Self
        ensures { result ≡ self.now }
    {
        let mut owners = ArrayVec::new();
        owners
            .try_extend_from_slice(self.owners.as_slice())
            .unwrap();
        Found {
            generation: self.generation,
            owners,
        }
    }
}

impl Clerk {
    /// Creates a clerk that has learnt no assignment.
    pub fn new() -> Self
        ensures { result ≡ None }
    {
        Clerk { assignment: None }
    }

    /// Learns an assignment, which replaces the one that the clerk keeps.
    ///
    /// Errors, in this order: `Old`, if the generation is not above that of the kept assignment;
    /// out of memory. An error leaves the clerk unchanged.
    pub fn learn(&mut self, assignment: &Assignment) -> Result<(), Trouble<ClerkError>>
        ensures { Takes (learn_step self.old assignment.now) self.old result self.new }
    {
        if let Some(incumbent) = &self.assignment
            && assignment.generation() <= incumbent.generation()
        {
            return Err(Trouble::Refused(ClerkError::Old {
                generation: incumbent.generation(),
            }));
        }
        self.assignment = Some(assignment.copy()?);
        Ok(())
    }

    /// Returns the assignment that the clerk keeps, if any.
    pub fn kept(&self) -> Option<&Assignment>
        ensures { option_map (λ assignment. assignment.now) result ≡ self.now }
    {
        self.assignment.as_ref()
    }

    /// Returns the tasks that own a key in the kept assignment, and the generation of the
    /// assignment.
    ///
    /// The only error is `Unknown`, if the clerk keeps no assignment.
    pub fn look(&self, key: SliceKey) -> Result<Found, Unknown>
        ensures { result ≡ look_at self.now key }
    {
        match &self.assignment {
            Some(incumbent) => Ok(Found {
                generation: incumbent.generation(),
                owners: incumbent.owners(key),
            }),
            None => Err(Unknown),
        }
    }

    /// Forgets the kept assignment; the clerk keeps none until it learns the next one.
    pub fn forget(&mut self)
        ensures { self.new ≡ None }
    {
        self.assignment = None;
    }

    /// Returns a copy that equals this clerk. The only error is out of memory.
    pub fn copy(&self) -> Result<Self, AllocError>
        ensures { IfOk result (λ clerk. clerk ≡ self.now) }
    {
        match &self.assignment {
            Some(incumbent) => Ok(Clerk {
                assignment: Some(incumbent.copy()?),
            }),
            None => Ok(Clerk::new()),
        }
    }
}
