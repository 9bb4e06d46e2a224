//! Laws that hold of every text that is printed for a script.

ghost use Rattle.std.specs.Prelude.{◌≡◌, ℕ, ◌++◌, List, true};
ghost use Rattle.world.specs.Pasts.{Past};
ghost use Rattle.world.specs.Headline.{MayServe, IsOwner, IsWhileHeld};
ghost use Rattle.service.specs.declared.script.Script.{Script};
ghost use Rattle.service.specs.Output.{past_of, IsOutput};

/// States that the text printed for a script describes a run of its job, and what follows from
/// that.
///
/// After each step, with timely clocks, a task that may serve a key owns it in the committed
/// assignment. If a slice has at most one owner, no two tasks may serve the key.
///
/// If the last line is `timely yes` and the reply to a `check` by a task was `continuous`, the task
/// owned the key of the handle at each point from the `hold` to that `check`. If a slice has at
/// most one owner, no other task may serve the key at any of these points.
pub fn printed_law()
    ensures owner { (script : Script) (text : List ℕ) (output : IsOutput script text) (later past : Past) (task : ℕ) (key : List ℕ)
        → past_of script output.replies ≡ later ++ past → MayServe script.job past task key → IsOwner script.job past task key }
    ensures one { (script : Script) (text : List ℕ) (output : IsOutput script text) (later past : Past) (task other : ℕ) (key : List ℕ)
        → past_of script output.replies ≡ later ++ past → script.job.policy.high ≡ 1
        → MayServe script.job past task key → MayServe script.job past other key → task ≡ other }
    ensures held { (script : Script) (text : List ℕ) (output : IsOutput script text) (past : Past) (task : ℕ) (key : List ℕ)
        → output.timely ≡ true → IsWhileHeld (past_of script output.replies) past task key
        → IsOwner script.job past task key }
    ensures alone { (script : Script) (text : List ℕ) (output : IsOutput script text) (past : Past) (task other : ℕ) (key : List ℕ)
        → output.timely ≡ true → script.job.policy.high ≡ 1 → IsWhileHeld (past_of script output.replies) past task key
        → MayServe script.job past other key → other ≡ task }
{
    world::owner_law();
    world::interval_law();
}
