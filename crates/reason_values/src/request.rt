//! Why a task may serve a key, or may not.

ghost use Rattle.std.specs.Prelude.{◌≡◌, IfOk};
ghost use Rattle.serde_json.specs.View.{view};
ghost use Rattle.wire.specs.Objects.{list_data};
ghost use Rattle.reason_values.specs.Requests.{lease_data, leases_of, owners_data, request_data, rule_data};

use crate::place::{LogLine, place_json};
use reasons::{KeyOwners, LeaseValues, RequestReason, RuleValues};
use reply_values::{large_json, tasks_json};
use serde_json::{Value, json};
use std::alloc::{AllocError, Global};
use wire::kind_word;

fn lease_json(alloc: Global, lines: &[LogLine], lease: &LeaseValues) -> Result<Value, AllocError>
    ensures { IfOk result (λ v. view v ≡ lease_data lines.now lease.now) }
{
    let ends = large_json(alloc, lease.ends)?;
    let generation = large_json(alloc, lease.generation)?;
    let number = large_json(alloc, lease.number)?;
    let kind = kind_word(lease.kind);
    let covers = lease.covers;
    match lease.heard {
        Some(call) => json!(in alloc; {
            "covers": covers,
            "ends": ends,
            "generation": generation,
            "heard": place_json(alloc, lines, call)?,
            "kind": kind,
            "number": number
        }),
        None => json!(in alloc; {
            "covers": covers,
            "ends": ends,
            "generation": generation,
            "kind": kind,
            "number": number
        }),
    }
}

// Writes the leases that a task holds, the guard lease first.
fn leases_json(alloc: Global, lines: &[LogLine], rule: &RuleValues) -> Result<Value, AllocError>
    ensures { IfOk result (λ v. view v ≡ list_data (lease_data lines.now) (leases_of rule.now.guard rule.now.bridge)) }
{
    match (&rule.guard, &rule.bridge) {
        (Some(guard), Some(bridge)) => {
            let guard = lease_json(alloc, lines, guard)?;
            let bridge = lease_json(alloc, lines, bridge)?;
            json!(in alloc; [guard, bridge])
        }
        (Some(lease), None) | (None, Some(lease)) => {
            let lease = lease_json(alloc, lines, lease)?;
            json!(in alloc; [lease])
        }
        (None, None) => json!(in alloc; []),
    }
}

/// Writes what the written rule decides by.
pub(crate) fn rule_json(
    alloc: Global,
    lines: &[LogLine],
    rule: &RuleValues,
) -> Result<Value, AllocError>
    ensures { IfOk result (λ v. view v ≡ rule_data lines.now rule.now) }
{
    let last = large_json(alloc, rule.last)?;
    let leases = leases_json(alloc, lines, rule)?;
    let started = rule.started;
    match rule.number {
        Some(number) => json!(in alloc; {
            "last": last,
            "leases": leases,
            "number": large_json(alloc, number)?,
            "started": started
        }),
        None => json!(in alloc; {
            "last": last,
            "leases": leases,
            "started": started
        }),
    }
}

/// Writes who owns the key in the committed assignment.
pub(crate) fn owners_json(alloc: Global, owners: &KeyOwners) -> Result<Value, AllocError>
    ensures { IfOk result (λ v. view v ≡ owners_data owners.now) }
{
    let generation = large_json(alloc, owners.generation)?;
    let tasks = tasks_json(alloc, owners.tasks.as_slice())?;
    json!(in alloc; {"generation": generation, "tasks": tasks})
}

/// Writes why a task may serve a key, or may not.
pub(crate) fn request_json(
    alloc: Global,
    lines: &[LogLine],
    reason: &RequestReason,
) -> Result<Value, AllocError>
    ensures { IfOk result (λ v. view v ≡ request_data lines.now reason.now) }
{
    let owners = owners_json(alloc, &reason.owners)?;
    let rule = rule_json(alloc, lines, &reason.rule)?;
    json!(in alloc; {"owners": owners, "rule": rule})
}
