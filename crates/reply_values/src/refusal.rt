//! Refusals as JSON values.

ghost use Rattle.std.specs.Prelude.{◌≡◌, IfOk};
ghost use Rattle.serde_json.specs.View.{view};
ghost use Rattle.grants.specs.declared.table_error.TableError.TheVariants as table;
ghost use Rattle.replies.specs.Lines.{refusal_words};
ghost use Rattle.reply_values.specs.Refusals.{clerk_data, refusal_data, refused_generation_data, refused_number_data, refused_until_data, slicelet_data, table_data};
ghost use Rattle.reply_values.specs.Values.{refused_data};

use crate::members::{put_large, put_number, put_text};
use assignment::TaskId;
use clerk::ClerkError;
use grants::{SliceletError, TableError};
use lease_rule::Kind;
use replies::{Refusal, RefusalWords};
use serde_json::{Map, Value, json};
use std::alloc::{AllocError, Global};
use wire::kind_word;

// Writes a refusal that has nothing but its word.
fn word_json(alloc: Global, refusal: Refusal) -> Result<Value, AllocError>
    ensures { IfOk result (λ v. view v ≡ refused_data (refusal_words refusal)) }
{
    let word = format!(in alloc; "{}", RefusalWords(refusal))?;
    json!(in alloc; {"refused": word})
}

// Writes a refusal that names a reading.
fn until_json(alloc: Global, word: &str, until: u64) -> Result<Value, AllocError>
    ensures { IfOk result (λ v. view v ≡ refused_until_data word.now until) }
{
    let mut map = Map::new(alloc);
    put_text(&mut map, alloc, "refused", word)?;
    put_large(&mut map, alloc, "until", until)?;
    Ok(Value::Object(map))
}

// Writes a refusal that names the number of a term or a grant.
fn number_json(alloc: Global, word: &str, number: u64) -> Result<Value, AllocError>
    ensures { IfOk result (λ v. view v ≡ refused_number_data word.now number) }
{
    let mut map = Map::new(alloc);
    put_large(&mut map, alloc, "number", number)?;
    put_text(&mut map, alloc, "refused", word)?;
    Ok(Value::Object(map))
}

// Writes a refusal that names a generation.
fn generation_json(alloc: Global, word: &str, generation: u64) -> Result<Value, AllocError>
    ensures { IfOk result (λ v. view v ≡ refused_generation_data word.now generation) }
{
    let mut map = Map::new(alloc);
    put_large(&mut map, alloc, "generation", generation)?;
    put_text(&mut map, alloc, "refused", word)?;
    Ok(Value::Object(map))
}

fn held_json(alloc: Global, task: TaskId, kind: Kind, number: u64) -> Result<Value, AllocError>
    ensures { IfOk result (λ v. view v ≡ table_data (table.Held task kind number)) }
{
    let mut map = Map::new(alloc);
    put_text(&mut map, alloc, "kind", kind_word(kind))?;
    put_large(&mut map, alloc, "number", number)?;
    put_text(&mut map, alloc, "refused", "held")?;
    put_number(&mut map, alloc, "task", task.number())?;
    Ok(Value::Object(map))
}

fn table_json(alloc: Global, error: TableError) -> Result<Value, AllocError>
    ensures { IfOk result (λ v. view v ≡ table_data error) }
{
    match error {
        TableError::JobHeld { until } => until_json(alloc, "job-held", until),
        TableError::NotHolder { term } => number_json(alloc, "not-holder", term),
        TableError::StaleBase { generation } => generation_json(alloc, "stale-base", generation),
        TableError::Grace { until } => until_json(alloc, "grace", until),
        TableError::Held { task, kind, number } => held_json(alloc, task, kind, number),
        TableError::ReadingRange
        | TableError::ClockBack
        | TableError::Pending
        | TableError::NothingPending
        | TableError::TooManyOwnersForJob
        | TableError::NoRow
        | TableError::NoAssignment
        | TableError::NumbersSpent => word_json(alloc, Refusal::Table(error)),
    }
}

fn slicelet_json(alloc: Global, error: SliceletError) -> Result<Value, AllocError>
    ensures { IfOk result (λ v. view v ≡ slicelet_data error) }
{
    match error {
        SliceletError::Old { heard } => number_json(alloc, "old", heard),
        SliceletError::NotStarted
        | SliceletError::OldLife
        | SliceletError::ClockBack
        | SliceletError::OtherTask
        | SliceletError::OtherLife
        | SliceletError::TooLate
        | SliceletError::NothingHeld
        | SliceletError::HistoryFull => word_json(alloc, Refusal::Slicelet(error)),
    }
}

fn clerk_json(alloc: Global, error: ClerkError) -> Result<Value, AllocError>
    ensures { IfOk result (λ v. view v ≡ clerk_data error) }
{
    match error {
        ClerkError::Old { generation } => generation_json(alloc, "old", generation),
    }
}

/// Converts a refusal to JSON: `refused` with its word, and what it names. The only error is out of
/// memory.
pub fn refusal_json(alloc: Global, refusal: Refusal) -> Result<Value, AllocError>
    ensures { IfOk result (λ v. view v ≡ refusal_data refusal) }
{
    match refusal {
        Refusal::Table(error) => table_json(alloc, error),
        Refusal::Slicelet(error) => slicelet_json(alloc, error),
        Refusal::Clerk(error) => clerk_json(alloc, error),
        Refusal::NoActor
        | Refusal::NotSent
        | Refusal::NoDraft
        | Refusal::Slices(_)
        | Refusal::Ranges(_)
        | Refusal::Stranger
        | Refusal::Unknown
        | Refusal::Load(_)
        | Refusal::Plan(_) => word_json(alloc, refusal),
    }
}
