//! The names of steps.

ghost use Rattle.std.specs.Prelude.{◌≡◌};
ghost use Rattle.call_values.specs.Words.{step_word};

use world::Step;

/// Returns the name of the step, which is its member `do` in a script.
pub fn step_word(step: &Step) -> &'static str
    ensures { result.now ≡ step_word step.now }
{
    match step {
        Step::Hash { .. } => "hash",
        Step::Assign { .. } => "assign",
        Step::Owners { .. } => "owners",
        Step::Judge { .. } => "judge",
        Step::Take { .. } => "take",
        Step::Renew { .. } => "renew",
        Step::Propose { .. } => "propose",
        Step::Commit { .. } => "commit",
        Step::Phase => "phase",
        Step::Rows => "rows",
        Step::Grant { .. } => "grant",
        Step::Free { .. } => "free",
        Step::Lose => "lose",
        Step::Start { .. } => "start",
        Step::Hear { .. } => "hear",
        Step::Release { .. } => "release",
        Step::Serve { .. } => "serve",
        Step::Hold { .. } => "hold",
        Step::Check { .. } => "check",
        Step::Learn { .. } => "learn",
        Step::Look { .. } => "look",
        Step::Forget { .. } => "forget",
        Step::Load { .. } => "load",
        Step::Gather => "gather",
        Step::Plan { .. } => "plan",
        Step::Next { .. } => "next",
        Step::DropTerm { .. } => "restart",
    }
}
