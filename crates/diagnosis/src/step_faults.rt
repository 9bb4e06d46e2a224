//! How to fix an element that is not a step.

use crate::steps::members_of;
use faults::{Found, Members, Quoted, Wanted, WrongMember, missing_member, unknown_member};
use serde_json::Value;
use std::alloc::{AllocError, Global};
use world::Job;

// Describes the first of these members whose value is wrong.
fn wrong_member(
    alloc: Global,
    job: Job,
    value: &Value,
    members: Members,
) -> Result<Option<String>, AllocError> {
    for name in members.names {
        let Some(member) = value.get(*name) else {
            continue;
        };
        let wanted = Wanted::of(job, name);
        if !wanted.is_met(alloc, member)? {
            let wrong = WrongMember {
                name: *name,
                value: member,
                wanted,
            };
            return Ok(Some(format!(in alloc; "{wrong}")?));
        }
    }
    Ok(None)
}

// Returns how to fix the members of a step.
fn members_mend(
    alloc: Global,
    job: Job,
    members: Members,
    step: &Value,
) -> Result<String, AllocError> {
    let name = members.kind;
    if let Some(object) = step.as_object() {
        if let Some(unknown) = unknown_member(object, members, "do") {
            let unknown = Quoted(unknown);
            return format!(in alloc; "{name}: unknown member {unknown}; {members}");
        }
    }
    if let Some(missing) = missing_member(step, members) {
        return format!(in alloc; "{name}: \"{missing}\" is missing; {members}");
    }
    match wrong_member(alloc, job, step, members)? {
        Some(wrong) => format!(in alloc; "{name}: {wrong}"),
        None => format!(in alloc; "{name}: {members}"),
    }
}

/// Returns how to fix a value that is not a step of this job.
pub fn step_mend(alloc: Global, job: Job, value: &Value) -> Result<String, AllocError> {
    if !value.is_object() {
        return format!(in alloc; "found {}; a step must be an object", Found(value));
    }
    let Some(word) = value.get("do") else {
        return String::from_str(alloc, "\"do\" is missing; it names the step");
    };
    let Some(name) = word.as_str() else {
        return format!(in alloc; "\"do\" is {}; it must be the name of a step", Found(word));
    };
    match members_of(name) {
        Some(members) => members_mend(alloc, job, members, value),
        None => format!(in alloc; "unknown step {}", Quoted(name)),
    }
}
