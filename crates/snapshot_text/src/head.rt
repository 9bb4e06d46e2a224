//! The first line of a text.

ghost use Rattle.std.specs.Prelude.{◌≡◌, IfOk, Ok, codes};
ghost use Rattle.serde_json.specs.View.{view};
ghost use Rattle.wire.specs.declared.numerals.Numerals.TheVariants as numeral;
ghost use Rattle.wire.specs.Refusals.{or_wrong};
ghost use Rattle.snapshot_text.specs.Heads.{head_data, head_of, head_in};

use job_calls::ClusterSnapshot;
use program_io::{WrongForm, exactly, number_at};
use serde_json::{Value, json};
use std::alloc::{AllocError, Global};
use wire::{DecodeError, Numerals, Wire, numeral_at, numeral_json};

/// What stands before the parts of a snapshot: the grace of its table, the counts of the job, and how
/// many parts of each kind follow.
#[derive(Clone, Copy, Debug, PartialEq, Eq)]
pub struct Head {
    /// The grace of the table, in ticks.
    pub grace: u64,
    /// How many notes were made.
    pub notes_made: u64,
    /// How many handles were returned.
    pub handles_made: u64,
    /// The greatest reading of the table's clock, in ticks.
    pub table_reading: u64,
    /// How many rows follow.
    pub rows: u64,
    /// How many tasks follow.
    pub tasks: u64,
    /// How many clerks follow.
    pub clerks: u64,
    /// How many grants follow.
    pub grants: u64,
    /// How many assignments follow.
    pub assignments: u64,
    /// How many notes follow.
    pub notes: u64,
    /// How many handles follow.
    pub handles: u64,
}

impl Head {
    /// Returns the head of a snapshot.
    pub fn new(snapshot: &ClusterSnapshot) -> Self
        ensures { result ≡ head_in snapshot.now }
    {
        Head {
            grace: snapshot.table.grace,
            notes_made: snapshot.notes_made,
            handles_made: snapshot.handles_made,
            table_reading: snapshot.table_reading,
            rows: snapshot.table.rows.len() as u64,
            tasks: snapshot.tasks.len() as u64,
            clerks: snapshot.clerks.len() as u64,
            grants: snapshot.grants.len() as u64,
            assignments: snapshot.assignments.len() as u64,
            notes: snapshot.notes.len() as u64,
            handles: snapshot.handles.len() as u64,
        }
    }
}

fn head_json(alloc: Global, head: &Head) -> Result<Value, AllocError>
    ensures { IfOk result (λ v. view v ≡ head_data numeral.Quoted head.now) }
{
    json!(in alloc; {
        "assignments": head.assignments,
        "clerks": head.clerks,
        "grace": numeral_json(alloc, Numerals::Quoted, head.grace)?,
        "grants": head.grants,
        "handles": head.handles,
        "handles_made": numeral_json(alloc, Numerals::Quoted, head.handles_made)?,
        "notes": head.notes,
        "notes_made": numeral_json(alloc, Numerals::Quoted, head.notes_made)?,
        "rows": head.rows,
        "table_reading": numeral_json(alloc, Numerals::Quoted, head.table_reading)?,
        "tasks": head.tasks
    })
}

#[tactic(auto, unfolding(crate::specs::Heads::head_of))]
fn head_of(numerals: Numerals, value: &Value) -> Result<Head, WrongForm>
    ensures { result ≡ head_of numerals (view value.now) }
{
    exactly(
        &[
            "assignments",
            "clerks",
            "grace",
            "grants",
            "handles",
            "handles_made",
            "notes",
            "notes_made",
            "rows",
            "table_reading",
            "tasks",
        ],
        value,
    )?;
    Ok(Head {
        grace: numeral_at(numerals, "grace", value)?,
        notes_made: numeral_at(numerals, "notes_made", value)?,
        handles_made: numeral_at(numerals, "handles_made", value)?,
        table_reading: numeral_at(numerals, "table_reading", value)?,
        rows: number_at("rows", value)?,
        tasks: number_at("tasks", value)?,
        clerks: number_at("clerks", value)?,
        grants: number_at("grants", value)?,
        assignments: number_at("assignments", value)?,
        notes: number_at("notes", value)?,
        handles: number_at("handles", value)?,
    })
}

// States that reading what was written of a head gives the same head.
#[tactic(auto, using(crate::proofs::Heads::head_read))]
fn head_law(head: &Head)
    ensures { head_of numeral.Quoted (head_data numeral.Quoted head.now) ≡ Ok head.now }
{
    let _grace = head.grace;
    let _notes_made = head.notes_made;
    let _handles_made = head.handles_made;
    let _table_reading = head.table_reading;
}

impl Wire for Head {
    ghost name = { codes "snapshot" };

    ghost data_of = { head_data };

    ghost form = { λ numerals d. or_wrong (head_of numerals d) };

    fn name() -> &'static str {
        "snapshot"
    }

    #[tactic(auto, using(crate::proofs::Heads::head_written))]
    fn to_json(&self, alloc: Global) -> Result<Value, AllocError> {
        head_law(self);
        head_json(alloc, self)
    }

    fn of_json(_alloc: Global, numerals: Numerals, value: &Value) -> Result<Head, DecodeError> {
        Ok(head_of(numerals, value)?)
    }
}
