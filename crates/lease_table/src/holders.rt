//! The rows of each holder, so that a note finds those that it closes.

ghost use Rattle.std.specs.Prelude.{◌≡◌, List, [], ◌∷◌, ◌++◌, if◌then◌else◌, filter, nat_le, nat_lt, length, IfOk, OnOk, OnErr};
ghost use Rattle.lease_table.specs.declared.holders.Holder.{Holder};
ghost use Rattle.grants.specs.Rows.{running_rows};
ghost use Rattle.lease_table.specs.internals.RowOrder.{NumbersRise};
ghost use Rattle.lease_table.specs.internals.Holders.{holder_of, holder_in, same_holder, rows_held};

use assignment::TaskId;
use grants::{ReleaseNote, Row};
use indexmap::IndexMap;
use lease_rule::Kind;
use std::alloc::{AllocError, Global};

/// Who holds the leases that one note may close: a task, in one of its lives, with one kind.
#[derive(Clone, Copy, PartialEq, Eq, Hash)]
pub struct Holder {
    task: TaskId,
    life: u32,
    kind: Kind,
}

impl Holder {
    fn of_row(row: &Row) -> Self
        ensures { result ≡ holder_of row.now }
    {
        Holder {
            task: row.task,
            life: row.life,
            kind: row.kind,
        }
    }

    fn of_note(note: &ReleaseNote) -> Self
        ensures { result ≡ holder_in note.now }
    {
        Holder {
            task: note.task,
            life: note.life,
            kind: note.kind,
        }
    }
}

/// Rows by their holders, each holder's in the order of the grants.
#[derive(Drop)]
pub struct Holders {
    lists: IndexMap<Holder, Vec<Row>>,
}

impl Holders {
    /// Creates lists without rows.
    pub fn new(alloc: Global) -> Self
        ensures { (holder : Holder) → rows_held result holder ≡ [] }
    {
        Holders {
            lists: IndexMap::new(alloc),
        }
    }

    /// Adds a row at the end of its holder's list. The only error is out of memory.
    pub fn push(&mut self, row: &Row) -> Result<(), AllocError>
        ensures ok { OnOk result ((holder : Holder) → rows_held self.new holder
            ≡ (if same_holder (holder_of row.now) holder then rows_held self.old holder ++ row.now ∷ [] else rows_held self.old holder)) }
        ensures err { OnErr result ((holder : Holder) → rows_held self.new holder ≡ rows_held self.old holder) }
    {
        let holder = Holder::of_row(row);
        if let Some(rows) = self.lists.get_mut(&holder) {
            rows.push(*row)?;
            return Ok(());
        }
        let mut rows = Vec::new(*self.lists.allocator());
        rows.push(*row)?;
        self.lists.insert(holder, rows)?;
        Ok(())
    }

    /// Returns the rows of the note's holder with numbers up to the note's.
    pub fn closed(&self, note: &ReleaseNote) -> &[Row]
        requires { NumbersRise (rows_held self.now (holder_in note.now)) }
        ensures { result.now ≡ filter (λ row. nat_le row.number note.now.number)
            (rows_held self.now (holder_in note.now)) }
    {
        match self.lists.get(&Holder::of_note(note)) {
            Some(rows) => rows_up_to(rows.as_slice(), note.number),
            None => &[],
        }
    }

    /// Removes the rows that a note closes.
    pub fn keep_open(&mut self, note: &ReleaseNote)
        ensures { (holder : Holder) → rows_held self.new holder
            ≡ (if same_holder (holder_in note.now) holder then filter (λ row. nat_lt note.now.number row.number) (rows_held self.old holder)
            else rows_held self.old holder) }
    {
        let number = note.number;
        if let Some(rows) = self.lists.get_mut(&Holder::of_note(note)) {
            rows.retain(|row| number < row.number);
        }
    }

    /// Removes the rows that have ended at a reading, in ticks, and the holders without rows.
    pub fn keep_running(&mut self, at: u64)
        ensures { (holder : Holder) → rows_held self.new holder ≡ running_rows at (rows_held self.old holder) }
    {
        if self.lists.len() > 0 {
            self.lists.retain(|_, rows| has_running(rows, at));
        }
    }

    /// Removes all rows.
    pub fn clear(&mut self)
        ensures { (holder : Holder) → rows_held self.new holder ≡ [] }
    {
        self.lists.clear();
    }

    /// Returns a copy that has the same rows. The only error is out of memory.
    pub fn copy(&self) -> Result<Self, AllocError>
        ensures { IfOk result (λ copied. (holder : Holder) → rows_held copied holder ≡ rows_held self.now holder) }
    {
        Ok(Holders {
            lists: self.lists.clone()?,
        })
    }
}

// Removes the rows that have ended at a reading, and returns whether rows are left.
fn has_running(rows: &mut Vec<Row>, at: u64) -> bool
    ensures left { rows.new.items ≡ running_rows at rows.old.items }
    ensures any { result ≡ nat_lt 0 (length rows.new.items) }
{
    rows.retain(|row| at < row.table_ends);
    !rows.is_empty()
}

// The rows with numbers up to this one.
fn rows_up_to(rows: &[Row], number: u64) -> &[Row]
    requires { NumbersRise rows.now }
    ensures { result.now ≡ filter (λ row. nat_le row.number number) rows.now }
{
    let count = rows.iter().take_while(|row| row.number <= number).count();
    &rows[..count]
}
