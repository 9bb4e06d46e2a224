//! Rows of the lease table, as numbers.

ghost use Rattle.std.specs.Prelude.{◌≡◌, IfOk, map};
ghost use Rattle.c_calls.specs.tables.Rows.{row_numbers};

use crate::details::kind_number;
use grants::Row;
use std::alloc::{AllocError, Global};

/// A row: what a table keeps of a grant until the grant ends or is freed.
#[repr(C)]
#[derive(Clone, Copy, Debug, PartialEq, Eq)]
pub struct RowNumbers {
    /// The number of the grant.
    pub number: u64,
    /// The task that the grant is for.
    pub task: u64,
    /// The task's life that the grant is for.
    pub life: u64,
    /// The kind of its lease: 1 for a guard, 2 for a bridge.
    pub kind: u64,
    /// The generation of its lease.
    pub generation: u64,
    /// The first reading, in ticks, at which the row has ended.
    pub table_ends: u64,
}

impl RowNumbers {
    /// Returns the numbers of a row.
    pub fn of(row: &Row) -> Self
        ensures { result ≡ row_numbers row.now }
    {
        RowNumbers {
            number: row.number,
            task: row.task.number(),
            life: row.life as u64,
            kind: kind_number(row.kind),
            generation: row.generation,
            table_ends: row.table_ends,
        }
    }
}

/// Returns the numbers of each row, in order.
pub fn numbers_of(alloc: Global, rows: &[Row]) -> Result<Vec<RowNumbers>, AllocError>
    ensures { IfOk result (λ numbers. numbers.items ≡ map row_numbers rows.now) }
{
    let mut numbers = Vec::with_capacity(alloc, rows.len())?;
    for row in rows {
        numbers.push(RowNumbers::of(row))?;
    }
    Ok(numbers)
}
