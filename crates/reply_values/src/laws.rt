//! What holds of the values of replies.

ghost use Rattle.std.specs.Prelude.{◌≡◌, false};
ghost use Rattle.serde_json.specs.Written.{has_float};
ghost use Rattle.reply_values.specs.Replies.{reply_data};

use replies::Reply;

/// States that the value of a reply has no fraction, so that its text is the compact one.
#[tactic(auto, using(crate::proofs::Whole::reply_whole))]
pub fn reply_law(reply: &Reply)
    ensures { has_float (reply_data reply.now) ≡ false }
{}
