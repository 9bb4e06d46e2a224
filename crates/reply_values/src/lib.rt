//! Replies and refusals as JSON values, as the lines of a trace have them.
//!
//! A reply has the first word of its line and each thing that the line names, under a name of its
//! own. Numbers that may be 2^53 or more are texts, since many readers of JSON round them.
#![tactic(auto)]

mod answered;
mod large;
mod laws;
mod lists;
mod members;
mod plan;
mod refusal;
mod reply;

pub use answered::{Warnings, answered_json, with_member, with_member_if};
pub use large::large_json;
pub use laws::reply_law;
pub use lists::{slices_json, tasks_json};
pub use members::{put_if, put_large, put_number, put_text};
pub use refusal::refusal_json;
pub use reply::reply_json;
