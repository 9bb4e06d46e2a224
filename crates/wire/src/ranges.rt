//! Sets of slice keys as JSON.

ghost use Rattle.std.specs.Prelude.{◌≡◌, ℕ, IfErr, IfOk, None, OnOk};
ghost use Rattle.serde_json.specs.Data.{put as with_member};
ghost use Rattle.serde_json.specs.View.{members_view, view};
ghost use Rattle.wire.specs.Ranges.{pair_data, ranges_data, ranges_of};
ghost use Rattle.slice_ranges.specs.Sets.{has, pairs_cover, refusal_of};
ghost use Rattle.machines.specs.Answers.{trouble_of};
ghost use Rattle.wire.specs.Refusals.{Gives, ranges_failure};

use crate::fault::DecodeError;
use crate::numerals::{Numerals, numeral_json, pairs_of};
use serde_json::{Map, Value, push, put};
use slice_ranges::Ranges;
use std::alloc::{AllocError, Global};

fn pair_json(alloc: Global, numerals: Numerals, start: u64, end: u64) -> Result<Value, AllocError>
    ensures { IfOk result (λ v. view v ≡ pair_data numerals (start, end)) }
{
    let mut pair = Vec::new(alloc);
    push(&mut pair, numeral_json(alloc, numerals, start)?)?;
    push(&mut pair, numeral_json(alloc, numerals, end)?)?;
    Ok(Value::Array(pair))
}

// Writes the set as pairs of a start and an end.
fn ranges_json(alloc: Global, numerals: Numerals, ranges: &Ranges) -> Result<Value, AllocError>
    ensures { IfOk result (λ v. view v ≡ ranges_data numerals ranges.now) }
{
    let mut pairs = Vec::new(alloc);
    let mut rest = ranges.boundaries();
    'pairs: while let [start, end, later @ ..] = rest {
        pairs.push(pair_json(alloc, numerals, *start, *end)?)?;
        rest = later;
    }
    Ok(Value::Array(pairs))
}

/// Puts a set under this name.
pub fn put_ranges(
    map: &mut Map<String, Value>,
    alloc: Global,
    numerals: Numerals,
    name: &str,
    ranges: &Ranges,
) -> Result<(), AllocError>
    ensures { OnOk result (members_view map.new.entries
        ≡ with_member name.now (ranges_data numerals ranges.now) (members_view map.old.entries)) }
{
    let value = ranges_json(alloc, numerals, ranges)?;
    put(map, alloc, name, value)
}

// Returns the set of the keys of these pairs. Memory runs out only where no refusal applies.
fn set_of(alloc: Global, pairs: &[(u64, u64)]) -> Result<Ranges, DecodeError>
    ensures keys { IfOk result (λ r. (key : ℕ) → has r key ≡ pairs_cover pairs.now key) }
    ensures accepted { OnOk result (refusal_of pairs.now ≡ None) }
    ensures refused { IfErr result (λ e. e ≡ ranges_failure (trouble_of (refusal_of pairs.now))) }
{
    Ok(Ranges::build(alloc, pairs)?)
}

/// Reads a set from an array of pairs.
#[tactic(auto, unfolding(crate::specs::Ranges::ranges_of))]
pub fn ranges_of(alloc: Global, numerals: Numerals, value: &Value) -> Result<Ranges, DecodeError>
    ensures { Gives result (ranges_of numerals (view value.now)) }
{
    let pairs = pairs_of(alloc, numerals, value)?;
    let ranges = set_of(alloc, pairs.as_slice())?;
    let _boundaries = ranges.boundaries();
    Ok(ranges)
}
