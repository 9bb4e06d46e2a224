//! The report of an audit: whether the calls of logs are one run, and else where they are not.
#![tactic(auto)]

mod auditing;
mod comparing;
mod counts_text;
mod drift_text;
mod fence_text;
mod report;
mod standing;

pub use auditing::{AuditOptions, LogReport, audit_log};
