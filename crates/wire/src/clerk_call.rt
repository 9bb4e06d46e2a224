//! Calls of a clerk in JSON.

ghost use Rattle.std.specs.Prelude.{◌≡◌, map};
ghost use Rattle.serde_json.specs.View.{view};
ghost use Rattle.wire.specs.Named.{GivesBy, reader_of};
ghost use Rattle.wire.specs.Refusals.{Gives};
ghost use Rattle.wire.specs.ClerkCalls.{clerk_call_kinds, forget_of, learn_of};

use crate::fault::{DecodeError, DecodeRefusal, decoded};
use crate::numerals::Numerals;
use crate::slicing::assignment_in;
use clerk::ClerkCall;
use program_io::exactly_beside;
use serde_json::Value;
use std::alloc::Global;

#[tactic(auto, unfolding(crate::specs::ClerkCalls::learn_of))]
fn learn_of(
    alloc: Global,
    beside: &[&str],
    numerals: Numerals,
    value: &Value,
) -> Result<ClerkCall, DecodeError>
    ensures { Gives result (learn_of (map (λ n. n.now) beside.now) numerals (view value.now)) }
{
    exactly_beside(beside, &["do", "generation", "slices"], value)?;
    let assignment = assignment_in(alloc, numerals, value)?;
    Ok(ClerkCall::Learn(assignment))
}

#[tactic(auto, unfolding(crate::specs::ClerkCalls::forget_of))]
fn forget_of(beside: &[&str], value: &Value) -> Result<ClerkCall, DecodeRefusal>
    ensures { result ≡ forget_of (map (λ n. n.now) beside.now) (view value.now) }
{
    exactly_beside(beside, &["do"], value)?;
    Ok(ClerkCall::Forget)
}

/// Reads the clerk's call with this name from an object that has the members `beside`, too.
///
/// Returns `None` if there is no such call. The result is an error if a member is missing, is unknown, or does not
/// have the form that it must have, or if memory runs out.
pub fn clerk_call_named(
    alloc: Global,
    beside: &[&str],
    numerals: Numerals,
    name: &str,
    value: &Value,
) -> Option<Result<ClerkCall, DecodeError>>
    ensures { GivesBy (reader_of (clerk_call_kinds (map (λ n. n.now) beside.now) numerals) name.now) (view value.now) result }
{
    Some(match name {
        "learn" => learn_of(alloc, beside, numerals, value),
        "forget" => decoded(forget_of(beside, value)),
        _ => return None,
    })
}
