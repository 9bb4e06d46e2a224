//! The command `hourstable`: its arguments, its input and its output.
#![tactic(auto)]

mod arguments;
mod audit_options;
mod log_audit;
mod log_tracing;
mod program;
mod saved_state;
mod script_run;
mod trace_options;

pub use arguments::{
    Asked, AuditFlags, Misuse, Request, ScriptText, Source, TraceFlags, parse_words,
};
pub use log_audit::{AuditError, KeyFault, LogAudit, audit_named};
pub use log_tracing::{LogTracing, trace_named};
pub use program::{do_words, hourstable};
pub use script_run::run_lines;
