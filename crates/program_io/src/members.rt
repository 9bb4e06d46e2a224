//! Readers of JSON values, one call for each kind of value.

ghost use Rattle.std.specs.Prelude.{◌≡◌, ◌++◌, List, Result, map, is_some};
ghost use Rattle.std.specs.List.{list_all};
ghost use Rattle.serde_json.specs.Find.{get};
ghost use Rattle.serde_json.specs.Data.{Data};
ghost use Rattle.serde_json.specs.View.{view};
ghost use Rattle.program_io.specs.declared.fault.WrongForm.{WrongForm};
ghost use Rattle.program_io.specs.Reading.{Gives};
ghost use Rattle.program_io.specs.Members.{IsRead, count_of, exactly, member_at, number_of, number_at, number_in, flag_at, text_at, array_of, pair_of, two_numbers_of, list_of, list_at};

use crate::fault::{Unread, WrongForm};
use machines::Listed;
use serde_json::Value;
use std::alloc::Global;

// Returns how many members an object has.
#[tactic(auto, using(crate::proofs::Forms::members_len_view))]
fn count_of(value: &Value) -> Result<usize, WrongForm>
    ensures { result ≡ count_of (view value.now) }
{
    match value.as_object() {
        Some(members) => Ok(members.len()),
        None => Err(WrongForm),
    }
}

fn has_all(names: &[&str], value: &Value) -> bool
    ensures { result ≡ list_all (λ name. is_some (get name.now (view value.now))) names.now }
{
    names.iter().all(|name| value.get(*name).is_some())
}

/// Checks that the value is an object with exactly these members.
///
/// `names` must not contain a name twice.
#[tactic(auto, using(crate::proofs::Forms::all_of_names, crate::proofs::Forms::length_of_names))]
pub fn exactly(names: &[&str], value: &Value) -> Result<(), WrongForm>
    ensures { result ≡ exactly (map (λ n. n.now) names.now) (view value.now) }
{
    if count_of(value)? == names.len() && has_all(names, value) {
        Ok(())
    } else {
        Err(WrongForm)
    }
}

/// Checks that the value is an object with exactly the members of both lists.
///
/// The lists together must not contain a name twice.
#[tactic(auto, using(crate::proofs::Forms::all_of_both, crate::proofs::Forms::length_of_both))]
pub fn exactly_beside(beside: &[&str], names: &[&str], value: &Value) -> Result<(), WrongForm>
    ensures { result ≡ exactly (map (λ n. n.now) beside.now ++ map (λ n. n.now) names.now) (view value.now) }
{
    let count = count_of(value)?;
    if count == beside.len() + names.len() && has_all(beside, value) && has_all(names, value) {
        Ok(())
    } else {
        Err(WrongForm)
    }
}

/// Returns the member with this name.
pub fn member_at<'v>(name: &str, value: &'v Value) -> Result<&'v Value, WrongForm>
    ensures { IsRead (λ v. view v.now) result (member_at name.now (view value.now)) }
{
    value.get(name).ok_or(WrongForm)
}

/// Returns the value as a number below 2^64, written without a sign, a fraction or an exponent.
pub fn number_of(value: &Value) -> Result<u64, WrongForm>
    ensures { result ≡ number_of (view value.now) }
{
    value.as_u64().ok_or(WrongForm)
}

/// Returns the member with this name as a number below 2^64.
pub fn number_at(name: &str, value: &Value) -> Result<u64, WrongForm>
    ensures { result ≡ number_at name.now (view value.now) }
{
    number_of(member_at(name, value)?)
}

/// Returns the member with this name as a number from `low` to `high`.
pub fn number_in(low: u64, high: u64, name: &str, value: &Value) -> Result<u64, WrongForm>
    ensures { result ≡ number_in low high name.now (view value.now) }
{
    let number = number_at(name, value)?;
    if low <= number && number <= high {
        Ok(number)
    } else {
        Err(WrongForm)
    }
}

/// Returns the member with this name as true or false.
pub fn flag_at(name: &str, value: &Value) -> Result<bool, WrongForm>
    ensures { result ≡ flag_at name.now (view value.now) }
{
    member_at(name, value)?.as_bool().ok_or(WrongForm)
}

/// Returns the member with this name as a text.
pub fn text_at<'v>(name: &str, value: &'v Value) -> Result<&'v str, WrongForm>
    ensures { IsRead (λ s. s.now) result (text_at name.now (view value.now)) }
{
    member_at(name, value)?.as_str().ok_or(WrongForm)
}

/// Returns the elements of an array.
#[tactic(auto, using(crate::proofs::Forms::elements_view))]
pub fn array_of(value: &Value) -> Result<&[Value], WrongForm>
    ensures { IsRead (λ vs. map view vs.now) result (array_of (view value.now)) }
{
    match value.as_array() {
        Some(list) => Ok(list.as_slice()),
        None => Err(WrongForm),
    }
}

/// Returns the elements of an array of two.
pub fn pair_of<'v>(value: &'v Value) -> Result<(&'v Value, &'v Value), WrongForm>
    ensures { IsRead (λ p. (view p.0.now, view p.1.now)) result (pair_of (view value.now)) }
{
    match array_of(value)? {
        [first, second] => Ok((first, second)),
        _ => Err(WrongForm),
    }
}

/// Returns two numbers that are written as an array.
#[tactic(auto, unfolding(crate::specs::Members::two_numbers_of))]
pub fn two_numbers_of(value: &Value) -> Result<(u64, u64), WrongForm>
    ensures { result ≡ two_numbers_of (view value.now) }
{
    let (first, second) = pair_of(value)?;
    Ok((number_of(first)?, number_of(second)?))
}

/// A way to read a JSON value, as a type parameter of the readers of lists.
pub trait Form {
    /// The type of the value that is read.
    type Output: Drop;

    ghost form: { Data → Result Self.Output WrongForm };

    /// Reads the value from JSON.
    fn read(alloc: Global, value: &Value) -> Result<Self::Output, Unread>
        ensures { Gives result (form (view value.now)) };
}

/// The form of a number below 2^64.
pub struct Number;

impl Form for Number {
    type Output = u64;

    ghost form = { number_of };

    fn read(_alloc: Global, value: &Value) -> Result<u64, Unread> {
        Ok(number_of(value)?)
    }
}

/// The form of two numbers, written as an array.
pub struct TwoNumbers;

impl Form for TwoNumbers {
    type Output = (u64, u64);

    ghost form = { two_numbers_of };

    fn read(_alloc: Global, value: &Value) -> Result<(u64, u64), Unread> {
        Ok(two_numbers_of(value)?)
    }
}

/// Reads each element of an array.
#[tactic(auto, unfolding(crate::specs::Members::list_of))]
pub fn list_of<F: Form>(alloc: Global, value: &Value) -> Result<Listed<F::Output>, Unread>
    ensures { Gives result (list_of F.form (view value.now)) }
{
    let elements = array_of(value)?;
    let mut list = Listed::new(alloc);
    for element in elements {
        list.push(F::read(alloc, element)?)?;
    }
    Ok(list)
}

/// Reads each element of the member with this name, which is an array.
#[tactic(auto, unfolding(crate::specs::Members::list_at))]
pub fn list_at<F: Form>(
    alloc: Global,
    name: &str,
    value: &Value,
) -> Result<Listed<F::Output>, Unread>
    ensures { Gives result (list_at F.form name.now (view value.now)) }
{
    list_of::<F>(alloc, member_at(name, value)?)
}
