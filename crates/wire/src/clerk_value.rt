//! Clerks as bytes.

ghost use Rattle.std.specs.Prelude.{◌≡◌, IfOk, Ok, codes};
ghost use Rattle.serde_json.specs.View.{view};
ghost use Rattle.wire.specs.declared.numerals.Numerals.TheVariants as numeral;
ghost use Rattle.wire.specs.Clerks.{clerk_data, clerk_of};
ghost use Rattle.wire.specs.Refusals.{Gives};

use crate::fault::DecodeError;
use crate::kept::{assignment_or_null, unless_null};
use crate::message::Wire;
use crate::numerals::Numerals;
use crate::slicing::assignment_law;
use clerk::Clerk;
use machines::Trouble;
use serde_json::Value;
use std::alloc::{AllocError, Global};

// Reads a clerk from the assignment that it keeps, or from null.
fn clerk_of(alloc: Global, numerals: Numerals, value: &Value) -> Result<Clerk, DecodeError>
    ensures { Gives result (clerk_of numerals (view value.now)) }
{
    let mut clerk = Clerk::new();
    if let Some(assignment) = unless_null(alloc, numerals, value)? {
        match clerk.learn(&assignment) {
            Ok(()) => {}
            Err(Trouble::Refused(_)) => unreachable!("a new clerk learns each assignment"),
            Err(Trouble::NoMemory) => return Err(DecodeError::NoMemory),
        }
    }
    Ok(clerk)
}

// States that reading what was written of a clerk gives the same clerk.
fn clerk_law(clerk: &Clerk)
    ensures { clerk_of numeral.Quoted (clerk_data numeral.Quoted clerk.now) ≡ Ok clerk.now }
{
    match clerk.kept() {
        Some(assignment) => assignment_law(assignment),
        None => {}
    }
}

impl Wire for Clerk {
    ghost name = { codes "clerk" };

    ghost data_of = { clerk_data };

    ghost form = { clerk_of };

    fn name() -> &'static str {
        "clerk"
    }

    #[tactic(auto, using(crate::proofs::Clerks::clerk_written))]
    fn to_json(&self, alloc: Global) -> Result<Value, AllocError> {
        clerk_law(self);
        assignment_or_null(alloc, Numerals::Quoted, self.kept())
    }

    fn of_json(alloc: Global, numerals: Numerals, value: &Value) -> Result<Clerk, DecodeError> {
        clerk_of(alloc, numerals, value)
    }
}
