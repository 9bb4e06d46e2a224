//! Numbers that may be 2^53 or more, as JSON.

ghost use Rattle.std.specs.Prelude.{◌≡◌, IfOk};
ghost use Rattle.serde_json.specs.View.{view};
ghost use Rattle.program_io.specs.Members.{list_of};
ghost use Rattle.program_io.specs.Reading.{Gives};
ghost use Rattle.wire.specs.declared.numerals.Numerals.TheVariants as numeral;
ghost use Rattle.wire.specs.Numerals.{number_in_digits, numeral_at, numeral_data, numeral_of, quoted_of, two_numerals_of};

use itoa::Buffer;
use machines::Listed;
use program_io::{Form, Unread, WrongForm, list_of, member_at, number_of, pair_of};
use serde_json::{Value, json};
use std::alloc::{AllocError, Global};

/// How the numbers of a value are written that may be 2^53 or more.
///
/// Many readers of JSON round a number from 2^53 on, so messages have the text of its decimal
/// digits. Smaller numbers, as those of tasks and lives, are JSON numbers always.
#[derive(Clone, Copy, Debug, PartialEq, Eq)]
pub enum Numerals {
    /// As JSON numbers: in scripts and in messages of version 1.
    Bare,
    /// As texts of decimal digits, without a leading zero: in messages of version 2.
    Quoted,
    /// Read in both forms, and written as JSON numbers: in lines of logs, which may have values
    /// of messages.
    Either,
}

/// Writes a number below 2^64.
pub fn numeral_json(alloc: Global, numerals: Numerals, number: u64) -> Result<Value, AllocError>
    ensures { IfOk result (λ v. view v ≡ numeral_data numerals number) }
{
    match numerals {
        Numerals::Quoted => json!(in alloc; Buffer::new().format(number)),
        Numerals::Bare | Numerals::Either => Ok(Value::from(number)),
    }
}

// Returns the number below 2^64 whose decimal form is this text.
fn number_in_digits(text: &str) -> Result<u64, WrongForm>
    ensures { result ≡ number_in_digits text.now }
{
    match text.parse::<u64>() {
        Ok(number) => {
            if Buffer::new().format(number) == text {
                Ok(number)
            } else {
                Err(WrongForm)
            }
        }
        Err(_) => Err(WrongForm),
    }
}

fn quoted_of(value: &Value) -> Result<u64, WrongForm>
    ensures { result ≡ quoted_of (view value.now) }
{
    number_in_digits(value.as_str().ok_or(WrongForm)?)
}

/// Reads a number below 2^64.
pub fn numeral_of(numerals: Numerals, value: &Value) -> Result<u64, WrongForm>
    ensures { result ≡ numeral_of numerals (view value.now) }
{
    match numerals {
        Numerals::Bare => number_of(value),
        Numerals::Quoted => quoted_of(value),
        Numerals::Either => match number_of(value) {
            Ok(number) => Ok(number),
            Err(WrongForm) => quoted_of(value),
        },
    }
}

/// Reads the member with this name as a number below 2^64.
pub fn numeral_at(numerals: Numerals, name: &str, value: &Value) -> Result<u64, WrongForm>
    ensures { result ≡ numeral_at numerals name.now (view value.now) }
{
    numeral_of(numerals, member_at(name, value)?)
}

// Reads two numbers that are written as an array.
#[tactic(auto, unfolding(crate::specs::Numerals::two_numerals_of))]
fn two_numerals_of(numerals: Numerals, value: &Value) -> Result<(u64, u64), WrongForm>
    ensures { result ≡ two_numerals_of numerals (view value.now) }
{
    let (first, second) = pair_of(value)?;
    Ok((numeral_of(numerals, first)?, numeral_of(numerals, second)?))
}

struct BarePair;

impl Form for BarePair {
    type Output = (u64, u64);

    ghost form = { two_numerals_of numeral.Bare };

    fn read(_alloc: Global, value: &Value) -> Result<(u64, u64), Unread> {
        Ok(two_numerals_of(Numerals::Bare, value)?)
    }
}

struct QuotedPair;

impl Form for QuotedPair {
    type Output = (u64, u64);

    ghost form = { two_numerals_of numeral.Quoted };

    fn read(_alloc: Global, value: &Value) -> Result<(u64, u64), Unread> {
        Ok(two_numerals_of(Numerals::Quoted, value)?)
    }
}

struct EitherPair;

impl Form for EitherPair {
    type Output = (u64, u64);

    ghost form = { two_numerals_of numeral.Either };

    fn read(_alloc: Global, value: &Value) -> Result<(u64, u64), Unread> {
        Ok(two_numerals_of(Numerals::Either, value)?)
    }
}

/// Reads an array of pairs of numbers.
pub fn pairs_of(
    alloc: Global,
    numerals: Numerals,
    value: &Value,
) -> Result<Listed<(u64, u64)>, Unread>
    ensures { Gives result (list_of (two_numerals_of numerals) (view value.now)) }
{
    match numerals {
        Numerals::Bare => list_of::<BarePair>(alloc, value),
        Numerals::Quoted => list_of::<QuotedPair>(alloc, value),
        Numerals::Either => list_of::<EitherPair>(alloc, value),
    }
}
