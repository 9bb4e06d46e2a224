//! Grants as bytes.

ghost use Rattle.std.specs.Prelude.{◌≡◌, IfOk, Ok, codes};
ghost use Rattle.serde_json.specs.View.{view};
ghost use Rattle.wire.specs.declared.numerals.Numerals.TheVariants as numeral;
ghost use Rattle.wire.specs.Grants.{grant_data, grant_of};
ghost use Rattle.wire.specs.Refusals.{Gives};

use crate::fault::DecodeError;
use crate::lease_members::{kind_at, kind_word, life_at, task_at};
use crate::message::Wire;
use crate::numerals::{Numerals, numeral_at};
use crate::object::{put_number, put_numeral, put_text};
use crate::ranges::{put_ranges, ranges_of};
use grants::Grant;
use lease_rule::Lease;
use program_io::{exactly, member_at};
use serde_json::{Map, Value};
use std::alloc::{AllocError, Global};

/// Writes the grant as JSON.
pub fn grant_json(alloc: Global, numerals: Numerals, grant: &Grant) -> Result<Value, AllocError>
    ensures { IfOk result (λ v. view v ≡ grant_data numerals grant.now) }
{
    let mut map = Map::new(alloc);
    put_numeral(&mut map, alloc, numerals, "ends", grant.lease.ends)?;
    put_numeral(
        &mut map,
        alloc,
        numerals,
        "generation",
        grant.lease.generation,
    )?;
    put_text(&mut map, alloc, "kind", kind_word(grant.lease.kind))?;
    put_number(&mut map, alloc, "life", grant.life as u64)?;
    put_numeral(&mut map, alloc, numerals, "number", grant.number)?;
    put_ranges(&mut map, alloc, numerals, "ranges", &grant.lease.ranges)?;
    put_number(&mut map, alloc, "task", grant.task.number())?;
    put_numeral(&mut map, alloc, numerals, "until", grant.table_ends)?;
    Ok(Value::Object(map))
}

/// Reads a grant from JSON.
#[tactic(auto, unfolding(crate::specs::Grants::grant_of))]
pub fn grant_of(alloc: Global, numerals: Numerals, value: &Value) -> Result<Grant, DecodeError>
    ensures { Gives result (grant_of numerals (view value.now)) }
{
    exactly(
        &[
            "ends",
            "generation",
            "kind",
            "life",
            "number",
            "ranges",
            "task",
            "until",
        ],
        value,
    )?;
    let number = numeral_at(numerals, "number", value)?;
    let task = task_at("task", value)?;
    let life = life_at("life", value)?;
    let kind = kind_at("kind", value)?;
    let generation = numeral_at(numerals, "generation", value)?;
    let ends = numeral_at(numerals, "ends", value)?;
    let table_ends = numeral_at(numerals, "until", value)?;
    let ranges = ranges_of(alloc, numerals, member_at("ranges", value)?)?;
    Ok(Grant {
        number,
        task,
        life,
        lease: Lease {
            kind,
            generation,
            ranges,
            ends,
        },
        table_ends,
    })
}

/// States that reading what was written of a grant gives the same grant.
#[tactic(auto, using(crate::proofs::Grants::grant_read))]
pub fn grant_law(grant: &Grant)
    ensures { grant_of numeral.Quoted (grant_data numeral.Quoted grant.now) ≡ Ok grant.now }
{
    let _number = grant.number;
    let _life = grant.life;
    let _generation = grant.lease.generation;
    let _ends = grant.lease.ends;
    let _until = grant.table_ends;
    let _task = grant.task.number();
    let _boundaries = grant.lease.ranges.boundaries();
}

impl Wire for Grant {
    ghost name = { codes "grant" };

    ghost data_of = { grant_data };

    ghost form = { grant_of };

    fn name() -> &'static str {
        "grant"
    }

    #[tactic(auto, using(crate::proofs::Grants::grant_written))]
    fn to_json(&self, alloc: Global) -> Result<Value, AllocError> {
        grant_law(self);
        grant_json(alloc, Numerals::Quoted, self)
    }

    fn of_json(alloc: Global, numerals: Numerals, value: &Value) -> Result<Grant, DecodeError> {
        grant_of(alloc, numerals, value)
    }
}
