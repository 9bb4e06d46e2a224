//! How to fix a job line.

use crate::found::Found;
use crate::members::{Members, missing_member, unknown_member};
use crate::quoted::Quoted;
use crate::wanted::{Wanted, WrongMember};
use serde_json::Value;
use std::alloc::{AllocError, Global};

/// The only member of a job line.
const LINE: Members = Members {
    kind: "job line",
    names: &["job"],
};

/// The members of a job.
const NAMES: &[&str] = &[
    "redundancy",
    "skew",
    "guard",
    "bridge",
    "job",
    "numbers",
    "assigners",
    "tasks",
    "clerks",
];

/// Returns how to fix a value that is not a job line, which is an object with the one member `job`.
pub fn job_line_mend(alloc: Global, line: &Value) -> Result<String, AllocError> {
    let wanted = "the job line must be an object with one member, \"job\"";
    let Some(object) = line.as_object() else {
        return format!(in alloc; "found {}; {wanted}", Found(line));
    };
    match unknown_member(object, LINE, "job") {
        Some(unknown) => format!(in alloc; "unknown member {}; {wanted}", Quoted(unknown)),
        None => format!(in alloc; "\"job\" is missing; {wanted}"),
    }
}

// Returns the number in this member, if it is one.
fn number_of(job: &Value, member: &str) -> Option<u64> {
    job.get(member).and_then(Value::as_u64)
}

// Describes the first member of the job whose value is wrong.
fn wrong_member(
    alloc: Global,
    job: &Value,
    most_clerks: u64,
) -> Result<Option<String>, AllocError> {
    for name in NAMES {
        let Some(value) = job.get(*name) else {
            continue;
        };
        let wanted = Wanted::of_job(name, most_clerks);
        if !wanted.is_met(alloc, value)? {
            let wrong = WrongMember {
                name: *name,
                value,
                wanted,
            };
            return Ok(Some(format!(in alloc; "{wrong}")?));
        }
    }
    Ok(None)
}

// Returns how to fix a job that has exactly its members: describes the first with a wrong value.
fn values_mend(alloc: Global, job: &Value, most_clerks: u64) -> Result<String, AllocError> {
    if let Some(wrong) = wrong_member(alloc, job, most_clerks)? {
        return Ok(wrong);
    }
    let skew = number_of(job, "skew").unwrap_or(0);
    for name in ["guard", "bridge"] {
        let term = number_of(job, name).unwrap_or(0);
        if term <= skew {
            return format!(in alloc;
                "\"skew\" is {skew}; it must be below \"{name}\", which is {term}"
            );
        }
    }
    String::from_str(alloc, "a member is outside its limits")
}

/// Returns how to fix a value that is not a job of at most so many clerks.
pub fn job_mend(alloc: Global, job: &Value, most_clerks: u64) -> Result<String, AllocError> {
    let Some(object) = job.as_object() else {
        return format!(in alloc; "found {}; a job must be an object", Found(job));
    };
    let members = Members {
        kind: "job",
        names: NAMES,
    };
    if let Some(unknown) = unknown_member(object, members, "job") {
        return format!(in alloc; "unknown member {}; {members}", Quoted(unknown));
    }
    match missing_member(job, members) {
        Some(missing) => format!(in alloc; "\"{missing}\" is missing; {members}"),
        None => values_mend(alloc, job, most_clerks),
    }
}
