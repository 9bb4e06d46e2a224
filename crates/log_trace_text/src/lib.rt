//! The text of the trace of logs: what `hourstable trace --logs` writes.
//!
//! [`traced_log`] judges the calls of a log and writes all lines of its trace. A line is one JSON
//! object without white space, and ends with a line feed. Calls are named by their numbers in the
//! order of the tickets, from 1, and by the lines of the logs.
#![tactic(auto)]

mod call;
mod counts;
mod drift;
mod ending;
mod fault;
mod hints;
mod place;
mod played;
mod reason;
mod text;
mod traced;
mod unsent;
mod untimely;

pub use traced::{TraceOptions, TracedLog, traced_log};
