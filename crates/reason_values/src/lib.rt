//! The reasons of replies, and when tasks may serve, as the JSON values and lines of a trace.
//!
//! A trace has a line for each call. This crate has the values of its place and of what decides its
//! reply, and [`line_of`] writes a line. Stretches and handles have lines of their own.
//!
//! A number that may be 2^53 or more is the text of its decimal digits, since many readers of JSON
//! round it; any other is a JSON number.
#![tactic(auto)]

mod breaks;
mod line;
mod place;
mod reason;
mod request;
mod stretch;
mod unsent;

pub use line::line_of;
pub use place::{LogLine, place_json, put_place};
pub use reason::reason_json;
pub use stretch::{broken_line, stretch_line};
pub use unsent::{Difference, Member, Unsent, made_json, unsent_json};
