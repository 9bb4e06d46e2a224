//! Why nothing was sent before what a call delivers.

ghost use Rattle.std.specs.Prelude.{◌≡◌, IfOk, OnOk};
ghost use Rattle.serde_json.specs.View.{members_view, view};
ghost use Rattle.reason_values.specs.declared.unsent.Unsent.TheVariants as unsent;
ghost use Rattle.reason_values.specs.Unsent.{made_data, member_name, sent_data, unsent_data, with_difference, with_name, with_values};

use crate::place::{LogLine, place_json, put_place};
use lease_rule::Kind;
use reply_values::large_json;
use serde_json::{Map, Value, json, put};
use std::alloc::{AllocError, Global};
use wire::kind_word;

/// A member of what a call delivers whose value is a number.
#[derive(Clone, Copy, Debug, PartialEq, Eq)]
pub enum Member {
    Task,
    Life,
    Generation,
    Ends,
    Until,
    SliceKey,
}

/// The first member of what a call delivers that differs from what was sent in its place.
#[derive(Clone, Copy, Debug, PartialEq, Eq)]
pub enum Difference {
    /// A number.
    Number {
        member: Member,
        /// The number that the call delivers.
        here: u64,
        /// The number that was sent.
        there: u64,
    },
    /// The kind of a lease.
    Kind {
        /// The kind that the call delivers.
        here: Kind,
        /// The kind that was sent.
        there: Kind,
    },
    /// The ranges of a lease.
    Ranges,
    /// The slices of an assignment.
    Slices,
}

/// Why nothing sent before what a call of logs delivers. A `call` is a number among all calls, from 1.
#[derive(Clone, Copy, Debug, PartialEq, Eq)]
pub enum Unsent {
    /// This later call is the first that sends it.
    Later { call: u64, ticket: u64 },
    /// No later call sends it, and this one sent another in its place.
    Other { call: u64, difference: Difference },
    /// No call sends it.
    Nothing,
}

/// Writes the reason of a step that delivers what was not made: the greatest number that was made so
/// far, 0 for none.
pub fn made_json(alloc: Global, made: u64) -> Result<Value, AllocError>
    ensures { IfOk result (λ v. view v ≡ made_data made) }
{
    json!(in alloc; {"made": large_json(alloc, made)?})
}

fn member_name(member: Member) -> &'static str
    ensures { result.now ≡ member_name member }
{
    match member {
        Member::Task => "task",
        Member::Life => "life",
        Member::Generation => "generation",
        Member::Ends => "ends",
        Member::Until => "until",
        Member::SliceKey => "slice_key",
    }
}

fn put_name(map: &mut Map<String, Value>, alloc: Global, name: &str) -> Result<(), AllocError>
    ensures { OnOk result (members_view map.new.entries ≡ with_name name.now (members_view map.old.entries)) }
{
    let name = Value::try_from_str(alloc, name)?;
    put(map, alloc, "member", name)
}

fn put_values(
    map: &mut Map<String, Value>,
    alloc: Global,
    here: Value,
    there: Value,
) -> Result<(), AllocError>
    ensures { OnOk result (members_view map.new.entries ≡ with_values (view here) (view there) (members_view map.old.entries)) }
{
    put(map, alloc, "here", here)?;
    put(map, alloc, "there", there)
}

fn put_difference(
    map: &mut Map<String, Value>,
    alloc: Global,
    difference: Difference,
) -> Result<(), AllocError>
    ensures { OnOk result (members_view map.new.entries ≡ with_difference difference (members_view map.old.entries)) }
{
    match difference {
        Difference::Number {
            member,
            here,
            there,
        } => {
            put_name(map, alloc, member_name(member))?;
            put_values(
                map,
                alloc,
                large_json(alloc, here)?,
                large_json(alloc, there)?,
            )
        }
        Difference::Kind { here, there } => {
            put_name(map, alloc, "kind")?;
            let here = Value::try_from_str(alloc, kind_word(here))?;
            let there = Value::try_from_str(alloc, kind_word(there))?;
            put_values(map, alloc, here, there)
        }
        Difference::Ranges => put_name(map, alloc, "ranges"),
        Difference::Slices => put_name(map, alloc, "slices"),
    }
}

fn later_json(alloc: Global, lines: &[LogLine], call: u64, ticket: u64) -> Result<Value, AllocError>
    ensures { IfOk result (λ v. view v ≡ sent_data lines.now (unsent.Later call ticket)) }
{
    let mut map = Map::new(alloc);
    put_place(&mut map, alloc, lines, call)?;
    put(&mut map, alloc, "ticket", large_json(alloc, ticket)?)?;
    json!(in alloc; {"later": Value::Object(map)})
}

fn other_json(
    alloc: Global,
    lines: &[LogLine],
    call: u64,
    difference: Difference,
) -> Result<Value, AllocError>
    ensures { IfOk result (λ v. view v ≡ sent_data lines.now (unsent.Other call difference)) }
{
    let mut map = Map::new(alloc);
    put(&mut map, alloc, "other", place_json(alloc, lines, call)?)?;
    put_difference(&mut map, alloc, difference)?;
    Ok(Value::Object(map))
}

fn sent_json(alloc: Global, lines: &[LogLine], unsent: Unsent) -> Result<Value, AllocError>
    ensures { IfOk result (λ v. view v ≡ sent_data lines.now unsent) }
{
    match unsent {
        Unsent::Later { call, ticket } => later_json(alloc, lines, call, ticket),
        Unsent::Other { call, difference } => other_json(alloc, lines, call, difference),
        Unsent::Nothing => json!(in alloc; {"nothing": true}),
    }
}

/// Writes the reason of a call of logs that delivers what nothing sent before.
///
/// `lines` are the lines of all calls of the logs, in the order of the calls.
pub fn unsent_json(alloc: Global, lines: &[LogLine], unsent: Unsent) -> Result<Value, AllocError>
    ensures { IfOk result (λ v. view v ≡ unsent_data lines.now unsent) }
{
    let sent = sent_json(alloc, lines, unsent)?;
    json!(in alloc; {"sent": sent})
}
