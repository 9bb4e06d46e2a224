//! What holds of the values that are written.

ghost use Rattle.std.specs.Prelude.{◌≡◌, false};
ghost use Rattle.serde_json.specs.Written.{has_float};
ghost use Rattle.call_values.specs.Calls.{call_data};
ghost use Rattle.call_values.specs.Told.{told_data};

use log_line::{CallerReply, LoggedCall};

/// States that the value of a call has no fraction, so that its text is the compact one.
#[tactic(auto, using(crate::proofs::Calls::call_whole))]
pub fn call_law(call: &LoggedCall)
    ensures { has_float (call_data call.now) ≡ false }
{}

/// States that the value of a reply has no fraction, so that its text is the compact one.
#[tactic(auto, using(crate::proofs::CallerReplies::told_whole))]
pub fn told_law(told: &CallerReply)
    ensures { has_float (told_data told.now) ≡ false }
{}
