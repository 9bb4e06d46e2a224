//! Assignments as bytes.

ghost use Rattle.std.specs.Prelude.{◌≡◌, IfErr, IfOk, None, Ok, OnOk, codes};
ghost use Rattle.serde_json.specs.View.{view};
ghost use Rattle.program_io.specs.Members.{list_at};
ghost use Rattle.program_io.specs.Reading as reading;
ghost use Rattle.wire.specs.declared.numerals.Numerals.TheVariants as numeral;
ghost use Rattle.wire.specs.Assignments.{assignment_data, assignment_of, slice_data, slice_of, slicing_in};
ghost use Rattle.wire.specs.Objects.{list_data, number_data};
ghost use Rattle.assignment.specs.Owners.{built};
ghost use Rattle.assignment.specs.Slices.{refusal_of};
ghost use Rattle.machines.specs.Answers.{trouble_of};
ghost use Rattle.wire.specs.Refusals.{Gives, slices_failure};

use crate::fault::DecodeError;
use crate::message::Wire;
use crate::numerals::{Numerals, numeral_at, numeral_json, numeral_of};
use crate::object::put_numeral;
use assignment::{Assignment, OwnedSlice, Slice, TaskId};
use machines::Listed;
use program_io::{Form, Number, Unread, exactly, list_at, list_of, pair_of};
use serde_json::{Map, Value, push, put};
use std::alloc::{AllocError, Global};

fn owners_json(alloc: Global, owners: &[TaskId]) -> Result<Value, AllocError>
    ensures { IfOk result (λ v. view v ≡ list_data number_data owners.now) }
{
    let mut list = Vec::new(alloc);
    for owner in owners {
        list.push(Value::from(owner.number()))?;
    }
    Ok(Value::Array(list))
}

fn slice_json(alloc: Global, numerals: Numerals, slice: &OwnedSlice) -> Result<Value, AllocError>
    ensures { IfOk result (λ v. view v ≡ slice_data numerals slice.now) }
{
    let mut pair = Vec::new(alloc);
    push(
        &mut pair,
        numeral_json(alloc, numerals, slice.start().value())?,
    )?;
    push(&mut pair, owners_json(alloc, slice.owners())?)?;
    Ok(Value::Array(pair))
}

// Writes the slices as JSON.
fn slices_json(
    alloc: Global,
    numerals: Numerals,
    slices: &[OwnedSlice],
) -> Result<Value, AllocError>
    ensures { IfOk result (λ v. view v ≡ list_data (slice_data numerals) slices.now) }
{
    let mut list = Vec::new(alloc);
    for slice in slices {
        list.push(slice_json(alloc, numerals, slice)?)?;
    }
    Ok(Value::Array(list))
}

/// Writes the assignment as JSON.
pub fn assignment_json(
    alloc: Global,
    numerals: Numerals,
    assignment: &Assignment,
) -> Result<Value, AllocError>
    ensures { IfOk result (λ v. view v ≡ assignment_data numerals assignment.now) }
{
    let mut map = Map::new(alloc);
    put_numeral(
        &mut map,
        alloc,
        numerals,
        "generation",
        assignment.generation(),
    )?;
    put(
        &mut map,
        alloc,
        "slices",
        slices_json(alloc, numerals, assignment.slices())?,
    )?;
    Ok(Value::Object(map))
}

// Reads a slice from `[start, [owner, ..]]`.
#[tactic(auto, unfolding(crate::specs::Assignments::slice_of))]
fn slice_of(alloc: Global, numerals: Numerals, value: &Value) -> Result<Slice, Unread>
    ensures { reading.Gives result (slice_of numerals (view value.now)) }
{
    let (start, owners) = pair_of(value)?;
    Ok(Slice {
        start: numeral_of(numerals, start)?,
        owners: list_of::<Number>(alloc, owners)?,
    })
}

/// The form of a slice in a script, written as `[start, [owner, ..]]`.
pub struct SliceForm;

impl Form for SliceForm {
    type Output = Slice;

    ghost form = { slice_of numeral.Bare };

    fn read(alloc: Global, value: &Value) -> Result<Slice, Unread> {
        slice_of(alloc, Numerals::Bare, value)
    }
}

struct QuotedSlice;

impl Form for QuotedSlice {
    type Output = Slice;

    ghost form = { slice_of numeral.Quoted };

    fn read(alloc: Global, value: &Value) -> Result<Slice, Unread> {
        slice_of(alloc, Numerals::Quoted, value)
    }
}

/// The form of a slice in a line of a log, whose start may be a number or the text of one.
pub struct EitherSlice;

impl Form for EitherSlice {
    type Output = Slice;

    ghost form = { slice_of numeral.Either };

    fn read(alloc: Global, value: &Value) -> Result<Slice, Unread> {
        slice_of(alloc, Numerals::Either, value)
    }
}

// Reads the slices in the member `slices` of an object.
fn slices_in(alloc: Global, numerals: Numerals, value: &Value) -> Result<Listed<Slice>, Unread>
    ensures { reading.Gives result (list_at (slice_of numerals) (codes "slices") (view value.now)) }
{
    match numerals {
        Numerals::Bare => list_at::<SliceForm>(alloc, "slices", value),
        Numerals::Quoted => list_at::<QuotedSlice>(alloc, "slices", value),
        Numerals::Either => list_at::<EitherSlice>(alloc, "slices", value),
    }
}

// Returns the assignment of these slices. Memory runs out only where no refusal applies.
fn build(alloc: Global, generation: u64, slices: &[Slice]) -> Result<Assignment, DecodeError>
    ensures built { IfOk result (λ a. a ≡ built generation slices.now) }
    ensures accepted { OnOk result (refusal_of slices.now ≡ None) }
    ensures refused { IfErr result (λ e. e ≡ slices_failure (trouble_of (refusal_of slices.now))) }
{
    Ok(Assignment::build(alloc, generation, slices)?)
}

/// Reads an assignment from the members `generation` and `slices` of an object.
#[tactic(auto, unfolding(crate::specs::Assignments::slicing_in))]
pub fn assignment_in(
    alloc: Global,
    numerals: Numerals,
    value: &Value,
) -> Result<Assignment, DecodeError>
    ensures { Gives result (slicing_in numerals (view value.now)) }
{
    let generation = numeral_at(numerals, "generation", value)?;
    let slices = slices_in(alloc, numerals, value)?;
    build(alloc, generation, slices.as_slice())
}

/// Reads an assignment from JSON.
#[tactic(auto, unfolding(crate::specs::Assignments::assignment_of))]
pub fn assignment_of(
    alloc: Global,
    numerals: Numerals,
    value: &Value,
) -> Result<Assignment, DecodeError>
    ensures { Gives result (assignment_of numerals (view value.now)) }
{
    exactly(&["generation", "slices"], value)?;
    assignment_in(alloc, numerals, value)
}

/// States that reading what was written of an assignment gives the same assignment.
#[tactic(auto, using(crate::proofs::Assignments::assignment_read))]
pub fn assignment_law(assignment: &Assignment)
    ensures { assignment_of numeral.Quoted (assignment_data numeral.Quoted assignment.now) ≡ Ok assignment.now }
{
    let _generation = assignment.generation();
    let _slices = assignment.slices();
}

impl Wire for Assignment {
    ghost name = { codes "assignment" };

    ghost data_of = { assignment_data };

    ghost form = { assignment_of };

    fn name() -> &'static str {
        "assignment"
    }

    #[tactic(auto, using(crate::proofs::Assignments::assignment_written))]
    fn to_json(&self, alloc: Global) -> Result<Value, AllocError> {
        assignment_law(self);
        assignment_json(alloc, Numerals::Quoted, self)
    }

    fn of_json(
        alloc: Global,
        numerals: Numerals,
        value: &Value,
    ) -> Result<Assignment, DecodeError> {
        assignment_of(alloc, numerals, value)
    }
}
