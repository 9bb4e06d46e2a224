//! Release notes as bytes.

ghost use Rattle.std.specs.Prelude.{◌≡◌, IfOk, Ok, codes};
ghost use Rattle.serde_json.specs.View.{view};
ghost use Rattle.wire.specs.declared.numerals.Numerals.TheVariants as numeral;
ghost use Rattle.wire.specs.Notes.{note_data, note_of};
ghost use Rattle.wire.specs.Refusals.{or_wrong};

use crate::fault::DecodeError;
use crate::lease_members::{kind_at, kind_word, life_at, task_at};
use crate::message::Wire;
use crate::numerals::{Numerals, numeral_at};
use crate::object::{put_number, put_numeral, put_text};
use grants::ReleaseNote;
use program_io::{WrongForm, exactly};
use serde_json::{Map, Value};
use std::alloc::{AllocError, Global};

/// Writes the note as JSON.
pub fn note_json(alloc: Global, numerals: Numerals, note: &ReleaseNote) -> Result<Value, AllocError>
    ensures { IfOk result (λ v. view v ≡ note_data numerals note.now) }
{
    let mut map = Map::new(alloc);
    put_text(&mut map, alloc, "kind", kind_word(note.kind))?;
    put_number(&mut map, alloc, "life", note.life as u64)?;
    put_numeral(&mut map, alloc, numerals, "number", note.number)?;
    put_number(&mut map, alloc, "task", note.task.number())?;
    Ok(Value::Object(map))
}

/// Reads a note from JSON.
#[tactic(auto, unfolding(crate::specs::Notes::note_of))]
pub fn note_of(numerals: Numerals, value: &Value) -> Result<ReleaseNote, WrongForm>
    ensures { result ≡ note_of numerals (view value.now) }
{
    exactly(&["kind", "life", "number", "task"], value)?;
    Ok(ReleaseNote {
        task: task_at("task", value)?,
        life: life_at("life", value)?,
        kind: kind_at("kind", value)?,
        number: numeral_at(numerals, "number", value)?,
    })
}

// States that reading what was written of a note gives the same note.
#[tactic(auto, using(crate::proofs::Notes::note_read))]
fn note_law(note: &ReleaseNote)
    ensures { note_of numeral.Quoted (note_data numeral.Quoted note.now) ≡ Ok note.now }
{
    let _life = note.life;
    let _number = note.number;
    let _task = note.task.number();
}

impl Wire for ReleaseNote {
    ghost name = { codes "note" };

    ghost data_of = { note_data };

    ghost form = { λ numerals d. or_wrong (note_of numerals d) };

    fn name() -> &'static str {
        "note"
    }

    #[tactic(auto, using(crate::proofs::Notes::note_written))]
    fn to_json(&self, alloc: Global) -> Result<Value, AllocError> {
        note_law(self);
        note_json(alloc, Numerals::Quoted, self)
    }

    fn of_json(
        _alloc: Global,
        numerals: Numerals,
        value: &Value,
    ) -> Result<ReleaseNote, DecodeError> {
        Ok(note_of(numerals, value)?)
    }
}
