//! The text that is written for a script.

ghost use Rattle.std.specs.Prelude.{◌≡◌, [], true, IfOk, MatchBool, length, reverse, string_bytes};
ghost use Rattle.std.specs.List.{flat_map, list_all};
ghost use Rattle.world.specs.Pasts.{IsTimely};
ghost use Rattle.world.specs.Runs.{IsRun, past_after};
ghost use Rattle.replies.specs.Lines.{line_of};
ghost use Rattle.service.specs.Output.{text_of, is_answer, IsOutput};

use crate::script::Script;
use grants::policy_law;
use replies::{Line, Reply};
use std::alloc::{AllocError, Global};
use world::{Job, Step, World, timely};

/// Returns the replies to the steps, which are the first steps of their job.
///
/// Fails only if memory runs out, and then returns no reply.
pub fn replies_of(alloc: Global, job: Job, steps: &[Step]) -> Result<Vec<Reply>, AllocError>
    ensures many { IfOk result (λ replies. length replies.items ≡ length steps.now) }
    ensures run { IfOk result (λ replies. IsRun job (past_after [] steps.now replies.items)) }
{
    let mut world = World::new(alloc, job)?;
    let replies = world.run(steps)?;
    Ok(replies)
}

/// Whether the steps of a script are timely, by the skew of its job.
pub fn is_timely(script: &Script) -> bool
    ensures { MatchBool result (IsTimely script.now.job.policy.skew (reverse script.now.steps))
        (IsTimely script.now.job.policy.skew (reverse script.now.steps) → ⊥) }
{
    timely(script.steps.as_slice(), script.job.policy().skew())
}

// Returns the lines of the replies, none of which is `NoMemory`.
fn lines_of(alloc: Global, replies: &[Reply]) -> Result<String, AllocError>
    ensures lines { IfOk result (λ text. string_bytes text ≡ flat_map line_of replies.now) }
    ensures answers { IfOk result (λ text. list_all is_answer replies.now ≡ true) }
{
    let mut text = String::new(alloc);
    for reply in replies {
        if matches!(reply, Reply::NoMemory) {
            return Err(AllocError);
        }
        writeln!(text, "{}", Line(reply))?;
    }
    Ok(text)
}

// Returns the lines of the replies, none of which is `NoMemory`, and the last line.
fn text_of(alloc: Global, replies: &[Reply], timely: bool) -> Result<String, AllocError>
    ensures text { IfOk result (λ text. string_bytes text ≡ text_of replies.now timely) }
    ensures answers { IfOk result (λ text. list_all is_answer replies.now ≡ true) }
{
    let mut text = lines_of(alloc, replies)?;
    if timely {
        writeln!(text, "timely yes")?;
    } else {
        writeln!(text, "timely no")?;
    }
    Ok(text)
}

/// Plays the steps of a script, and returns the lines of their replies and the last line.
pub fn output_of(alloc: Global, script: &Script) -> Result<String, AllocError>
    ensures { IfOk result (λ text. IsOutput script.now (string_bytes text)) }
{
    policy_law(script.job.policy());
    let steps = script.steps.as_slice();
    let replies = replies_of(alloc, script.job, steps)?;
    let text = text_of(alloc, replies.as_slice(), is_timely(script))?;
    Ok(text)
}
