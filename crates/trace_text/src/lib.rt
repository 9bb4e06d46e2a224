//! The text of the trace of a script: what `hourstable trace` writes.
//!
//! [`trace_text`] plays a script and writes all lines of its trace. A line is one JSON object
//! without white space, and ends with a line feed.
#![tactic(auto)]

mod call;
mod handles;
mod readings;
mod stretch;
mod text;

pub use handles::handle_lines;
pub use stretch::stretch_lines;
pub use text::trace_text;
