//! Codes for bytes that are not a message.

ghost use Rattle.std.specs.Prelude.{◌≡◌};
ghost use Rattle.c_calls.specs.AnswerNumbers.{ranges_number, slices_number, unread_number};
ghost use Rattle.c_calls.specs.Reading.{unread_answer};

use crate::answer::Answer;
use assignment::AssignmentError;
use slice_ranges::RangesError;
use wire::{DecodeError, DecodeRefusal};

/// Returns the code for why bytes are not a message of the expected type.
pub fn unread_number(refusal: DecodeRefusal) -> i32
    ensures { result ≡ unread_number refusal }
{
    match refusal {
        DecodeRefusal::NotJson => -3,
        DecodeRefusal::Version(_) => -4,
        DecodeRefusal::OtherType => -5,
        DecodeRefusal::OtherJob => -20,
        DecodeRefusal::TooLong | DecodeRefusal::RepeatedMember | DecodeRefusal::WrongForm => -6,
        DecodeRefusal::Slices(why) => slices_number(why),
        DecodeRefusal::Ranges(why) => ranges_number(why),
    }
}

fn ranges_number(error: RangesError) -> i32
    ensures { result ≡ ranges_number error }
{
    match error {
        RangesError::PastEnd => -7,
        RangesError::Unsorted => -8,
        RangesError::Empty => -9,
    }
}

fn slices_number(error: AssignmentError) -> i32
    ensures { result ≡ slices_number error }
{
    match error {
        AssignmentError::PastEnd => -7,
        AssignmentError::NoSlices => -10,
        AssignmentError::FirstNotZero => -11,
        AssignmentError::NotRising => -12,
        AssignmentError::NoOwner => -13,
        AssignmentError::TooManyOwners => -14,
        AssignmentError::OwnerTwice => -15,
        AssignmentError::BadTask => -16,
        AssignmentError::TooManySlices => -17,
    }
}

/// Returns the answer for bytes that were not decoded.
pub fn unread_answer(error: DecodeError) -> Answer
    ensures { result ≡ unread_answer error }
{
    match error {
        DecodeError::Refused(why) => Answer::Unread(why),
        DecodeError::NoMemory => Answer::NoMemory,
    }
}
