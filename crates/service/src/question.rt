//! The questions about the written rule that a script asks.

ghost use Rattle.std.specs.Prelude.{◌≡◌, nat_le, count_by};
ghost use Rattle.serde_json.specs.View.{view};
ghost use Rattle.lease_rule.specs.Leases.{same_kind};
ghost use Rattle.program_io.specs.Reading.{Gives};
ghost use Rattle.replies.specs.WrittenLeases.{lease_of};
ghost use Rattle.service.specs.Questions.{question_of};

use lease_rule::Kind;
use program_io::{Unread, exactly, flag_at, list_at, number_at};
use replies::{LeaseForm, WrittenLease, key_at};
use serde_json::Value;
use std::alloc::Global;
use world::Question;

// Whether at most one of the leases is of this kind.
fn has_one_at_most(kind: Kind, leases: &[WrittenLease]) -> bool
    ensures { result ≡ nat_le (count_by (λ lease. same_kind kind lease.kind) leases.now) 1 }
{
    leases.iter().filter(|lease| lease.kind == kind).count() <= 1
}

/// Reads the question of a `judge`.
#[tactic(auto, unfolding(crate::specs::Questions::question_of))]
pub fn question_of(alloc: Global, step: &Value) -> Result<Question, Unread>
    ensures { Gives result (question_of (view step.now)) }
{
    exactly(&["do", "up", "last", "leases", "key", "at"], step)?;
    let up = flag_at("up", step)?;
    let last = number_at("last", step)?;
    let leases = list_at::<LeaseForm>(alloc, "leases", step)?;
    let key = key_at(alloc, "key", step)?;
    let at = number_at("at", step)?;
    if !has_one_at_most(Kind::Guard, leases.as_slice())
        || !has_one_at_most(Kind::Bridge, leases.as_slice())
    {
        return Err(Unread::WrongForm);
    }
    Ok(Question {
        up,
        last,
        leases,
        key,
        at,
    })
}
