//! Why handles are broken.

ghost use Rattle.std.specs.Prelude.{◌≡◌, IfOk, Some, None};
ghost use Rattle.serde_json.specs.View.{view};
ghost use Rattle.reasons.specs.declared.reason.Break.TheVariants as breaks;
ghost use Rattle.reason_values.specs.Reasons.{break_data, ground_word, taken_data};

use crate::place::{LogLine, place_json};
use crate::request::{owners_json, rule_json};
use lease_rule::Ground;
use reasons::{Break, RequestReason};
use serde_json::{Value, json};
use std::alloc::{AllocError, Global};

// Returns the word for why the written rule denies a key.
fn ground_word(denial: Ground) -> &'static str
    ensures { result.now ≡ ground_word denial }
{
    match denial {
        Ground::Down => "down",
        Ground::ClockBack => "clock-back",
        Ground::Ended => "ended",
        Ground::NotOwned { .. } => "not-owned",
        Ground::NoLease => "no-lease",
    }
}

// Writes the first and the last call that take a key from a handle, where there are such.
fn taken_json(
    alloc: Global,
    lines: &[LogLine],
    first: Option<u64>,
    last: Option<u64>,
) -> Result<Value, AllocError>
    ensures { IfOk result (λ v. view v ≡ taken_data lines.now first last) }
{
    match (first, last) {
        (Some(first), Some(last)) => json!(in alloc; {
            "first": place_json(alloc, lines, first)?,
            "last": place_json(alloc, lines, last)?
        }),
        (Some(first), None) => json!(in alloc; {"first": place_json(alloc, lines, first)?}),
        (None, Some(last)) => json!(in alloc; {"last": place_json(alloc, lines, last)?}),
        (None, None) => json!(in alloc; {}),
    }
}

fn other_life_json(
    alloc: Global,
    lines: &[LogLine],
    first: Option<u64>,
    life: u32,
) -> Result<Value, AllocError>
    ensures { IfOk result (λ v. view v ≡ break_data lines.now first (breaks.OtherLife life)) }
{
    match first {
        Some(first) => json!(in alloc; {
            "life": life,
            "taken": taken_json(alloc, lines, Some(first), None)?
        }),
        None => json!(in alloc; {"life": life}),
    }
}

fn denied_json(
    alloc: Global,
    lines: &[LogLine],
    first: Option<u64>,
    denial: Ground,
    request: &RequestReason,
) -> Result<Value, AllocError>
    ensures { IfOk result (λ v. view v ≡ break_data lines.now first (breaks.Denied denial request.now)) }
{
    let owners = owners_json(alloc, &request.owners)?;
    let rule = rule_json(alloc, lines, &request.rule)?;
    match first {
        Some(first) => json!(in alloc; {
            "denied": ground_word(denial),
            "owners": owners,
            "rule": rule,
            "taken": taken_json(alloc, lines, Some(first), None)?
        }),
        None => json!(in alloc; {
            "denied": ground_word(denial),
            "owners": owners,
            "rule": rule
        }),
    }
}

/// Writes why a handle is broken, with the first call that takes its key, if one is told.
pub(crate) fn break_json(
    alloc: Global,
    lines: &[LogLine],
    first: Option<u64>,
    broken: &Break,
) -> Result<Value, AllocError>
    ensures { IfOk result (λ v. view v ≡ break_data lines.now first broken.now) }
{
    match broken {
        Break::OtherLife(life) => other_life_json(alloc, lines, first, *life),
        Break::Denied { denial, request } => denied_json(alloc, lines, first, *denial, request),
        Break::Taken { last, .. } => {
            let taken = taken_json(alloc, lines, first, *last)?;
            json!(in alloc; {"taken": taken})
        }
    }
}
