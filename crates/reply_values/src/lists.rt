//! Lists of numbers, tasks, rows and slices as JSON values.

ghost use Rattle.std.specs.Prelude.{◌≡◌, IfOk};
ghost use Rattle.serde_json.specs.View.{view};
ghost use Rattle.wire.specs.declared.numerals.Numerals.TheVariants as numeral;
ghost use Rattle.wire.specs.Assignments.{slice_data};
ghost use Rattle.wire.specs.Objects.{list_data, number_data};
ghost use Rattle.wire.specs.Rows.{row_data};

use crate::large::large_json;
use assignment::{Slice, TaskId};
use grants::Row;
use serde_json::{Value, json};
use std::alloc::{AllocError, Global};
use wire::Wire;

/// Writes numbers below 2^53.
pub fn numbers_json(alloc: Global, numbers: &[u64]) -> Result<Value, AllocError>
    ensures { IfOk result (λ v. view v ≡ list_data number_data numbers.now) }
{
    let mut list = Vec::new(alloc);
    for number in numbers {
        list.push(Value::from(*number))?;
    }
    Ok(Value::Array(list))
}

/// Writes the numbers of tasks.
pub fn tasks_json(alloc: Global, tasks: &[TaskId]) -> Result<Value, AllocError>
    ensures { IfOk result (λ v. view v ≡ list_data number_data tasks.now) }
{
    let mut list = Vec::new(alloc);
    for task in tasks {
        list.push(Value::from(task.number()))?;
    }
    Ok(Value::Array(list))
}

/// Writes rows of the table, as messages have them.
pub fn rows_json(alloc: Global, rows: &[Row]) -> Result<Value, AllocError>
    ensures { IfOk result (λ v. view v ≡ list_data (row_data numeral.Quoted) rows.now) }
{
    let mut list = Vec::new(alloc);
    for row in rows {
        list.push(row.to_json(alloc)?)?;
    }
    Ok(Value::Array(list))
}

fn slice_json(alloc: Global, slice: &Slice) -> Result<Value, AllocError>
    ensures { IfOk result (λ v. view v ≡ slice_data numeral.Quoted slice.now) }
{
    let owners = numbers_json(alloc, slice.owners.as_slice())?;
    json!(in alloc; [large_json(alloc, slice.start)?, owners])
}

/// Writes slices, each as its start and its owners.
pub fn slices_json(alloc: Global, slices: &[Slice]) -> Result<Value, AllocError>
    ensures { IfOk result (λ v. view v ≡ list_data (slice_data numeral.Quoted) slices.now) }
{
    let mut list = Vec::new(alloc);
    for slice in slices {
        list.push(slice_json(alloc, slice)?)?;
    }
    Ok(Value::Array(list))
}
