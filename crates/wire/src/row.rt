//! Rows of a table as bytes.

ghost use Rattle.std.specs.Prelude.{◌≡◌, IfOk, Ok, codes};
ghost use Rattle.serde_json.specs.View.{view};
ghost use Rattle.wire.specs.declared.numerals.Numerals.TheVariants as numeral;
ghost use Rattle.wire.specs.Rows.{row_data, row_of};
ghost use Rattle.wire.specs.Refusals.{or_wrong};

use crate::fault::DecodeError;
use crate::lease_members::{kind_at, kind_word, life_at, task_at};
use crate::message::Wire;
use crate::numerals::{Numerals, numeral_at};
use crate::object::{put_number, put_numeral, put_text};
use grants::Row;
use program_io::{WrongForm, exactly};
use serde_json::{Map, Value};
use std::alloc::{AllocError, Global};

// Writes the row as JSON.
fn row_json(alloc: Global, numerals: Numerals, row: &Row) -> Result<Value, AllocError>
    ensures { IfOk result (λ v. view v ≡ row_data numerals row.now) }
{
    let mut map = Map::new(alloc);
    put_numeral(&mut map, alloc, numerals, "generation", row.generation)?;
    put_text(&mut map, alloc, "kind", kind_word(row.kind))?;
    put_number(&mut map, alloc, "life", row.life as u64)?;
    put_numeral(&mut map, alloc, numerals, "number", row.number)?;
    put_number(&mut map, alloc, "task", row.task.number())?;
    put_numeral(&mut map, alloc, numerals, "until", row.table_ends)?;
    Ok(Value::Object(map))
}

// Reads a row from JSON.
#[tactic(auto, unfolding(crate::specs::Rows::row_of))]
fn row_of(numerals: Numerals, value: &Value) -> Result<Row, WrongForm>
    ensures { result ≡ row_of numerals (view value.now) }
{
    exactly(
        &["generation", "kind", "life", "number", "task", "until"],
        value,
    )?;
    Ok(Row {
        number: numeral_at(numerals, "number", value)?,
        task: task_at("task", value)?,
        life: life_at("life", value)?,
        kind: kind_at("kind", value)?,
        generation: numeral_at(numerals, "generation", value)?,
        table_ends: numeral_at(numerals, "until", value)?,
    })
}

// States that reading what was written of a row gives the same row.
#[tactic(auto, using(crate::proofs::Rows::row_read))]
fn row_law(row: &Row)
    ensures { row_of numeral.Quoted (row_data numeral.Quoted row.now) ≡ Ok row.now }
{
    let _number = row.number;
    let _life = row.life;
    let _task = row.task.number();
    let _generation = row.generation;
    let _until = row.table_ends;
}

impl Wire for Row {
    ghost name = { codes "row" };

    ghost data_of = { row_data };

    ghost form = { λ numerals d. or_wrong (row_of numerals d) };

    fn name() -> &'static str {
        "row"
    }

    #[tactic(auto, using(crate::proofs::Rows::row_written))]
    fn to_json(&self, alloc: Global) -> Result<Value, AllocError> {
        row_law(self);
        row_json(alloc, Numerals::Quoted, self)
    }

    fn of_json(_alloc: Global, numerals: Numerals, value: &Value) -> Result<Row, DecodeError> {
        Ok(row_of(numerals, value)?)
    }
}
