//! Writes of a task to its record.

ghost use Rattle.std.specs.Prelude.{◌≡◌, ℕ, ◌∷◌, true, IfOk, OnErr, Ok, if◌then◌else◌};
ghost use Rattle.world.specs.Jobs.{Job};
ghost use Rattle.world.specs.declared.step.Step.TheVariants as step;
ghost use Rattle.replies.specs.declared.reply.Reply.{Reply};
ghost use Rattle.world.specs.Pasts.{Past, event, steps_of, IsTimely};
ghost use Rattle.world.specs.Headline.{MayServe, IsOwner, is_served};
ghost use Rattle.world.specs.Worlds.{LeadsTo};

use lease_rule::Verdict;
use machines::Listed;
use replies::Reply;
use std::alloc::AllocError;
use world::{Step, World};

/// Writes a value to a task's record if the task may serve the key, and returns whether it did.
///
/// `at` is a reading of the task's clock, in ticks. If it wrote and the clocks were timely, the
/// task owned the key in the committed assignment when it wrote. If a slice has at most one owner,
/// no other task might serve the key at that time. Fails only if memory runs out, and then changes
/// nothing.
pub fn write_if_served(
    world: &mut World,
    task: u64,
    key: Listed<u8>,
    at: u64,
    value: u64,
    kept: &mut u64,
) -> Result<bool, AllocError>
    ensures written { IfOk result (λ written. kept.new ≡ (if written then value else kept.old)) }
    ensures unwritten { OnErr result (kept.new ≡ kept.old) }
    ensures leads { (job : Job) (past : Past) → LeadsTo job past world.old
        → IfOk result (λ written. (answer : Reply) × (written ≡ is_served answer)
        × LeadsTo job (event (step.Serve task key at) answer ∷ past) world.new) }
    ensures refused { OnErr result (world.new ≡ world.old) }
    ensures owned { (job : Job) (past : Past) → LeadsTo job past world.old → result ≡ Ok true
        → IsTimely job.policy.skew (step.Serve task key at ∷ steps_of past) → IsOwner job past task key }
    ensures alone { (job : Job) (past : Past) (other : ℕ) → LeadsTo job past world.old → result ≡ Ok true
        → IsTimely job.policy.skew (step.Serve task key at ∷ steps_of past)
        → job.policy.high ≡ 1 → MayServe job past other key → task ≡ other }
{
    world.headline_law();
    let replies = world.run(&[Step::Serve { task, key, at }])?;
    if !is_served(&replies[0]) {
        return Ok(false);
    }
    *kept = value;
    Ok(true)
}

// Whether a reply lets a task serve a key.
fn is_served(reply: &Reply) -> bool
    ensures { result ≡ is_served reply.now }
{
    matches!(reply, Reply::Verdict(Verdict::Allow { .. }))
}
