//! Logs played call by call, and what decided each reply.
//!
//! A [`LogTracer`] plays the entries of a log one after another, in the order of their tickets, and
//! returns a [`LogLine`] for each: the right reply, whether the caller was told so, the reason of the
//! reply, and what the call warns of. It goes on after a wrong reply with what the machines answered.
#![tactic(auto)]

mod breaking;
mod line;
mod making;
mod owners;
mod placing;
mod serving;
mod takings;
mod trace;
mod tracer;
mod unsent;

pub use breaking::BrokenHandle;
pub use line::LogLine;
pub use serving::{LogServing, serving_of};
pub use takings::{Taking, Takings};
pub use trace::{LogTrace, log_trace_of};
pub use tracer::LogTracer;
