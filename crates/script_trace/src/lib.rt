//! Scripts played step by step, and what decided each reply.
//!
//! A [`ScriptTracer`] plays the steps of a script one after another and returns a [`TraceLine`] for
//! each: what the step delivered, its reply, the reason of the reply, and what it warns of. It also
//! knows when each task may serve a key and when handles break. [`trace_of`] does this for all steps
//! of a script.
#![tactic(auto)]

mod answered;
mod asked;
mod delivered;
mod kept;
mod line;
mod owners;
mod trace;
mod tracer;

pub use delivered::Delivered;
pub use line::{StepReason, TraceLine};
pub use trace::{ScriptTrace, trace_of};
pub use tracer::ScriptTracer;
