//! Why bytes are not decoded.

ghost use Rattle.std.specs.Prelude.{◌≡◌};
ghost use Rattle.wire.specs.declared.fault.DecodeError.TheVariants as failed;
ghost use Rattle.wire.specs.declared.fault.DecodeRefusal.TheVariants as refusal;
ghost use Rattle.wire.specs.Refusals.{Gives, failure_of, ranges_failure, slices_failure};

use assignment::AssignmentError;
use machines::Trouble;
use program_io::{Unread, WrongForm};
use slice_ranges::RangesError;
use std::alloc::{AllocError, AllocFailed};
use thiserror::Error;

/// Why bytes are not a message of a type.
///
/// The length is checked first, then that the bytes are JSON, then that no member is repeated, then
/// the version, the members of the message, the type, the job and the value.
#[derive(Clone, Copy, Debug, PartialEq, Eq, Error)]
pub enum DecodeRefusal {
    /// There are more than [`MOST_BYTES`](crate::MOST_BYTES) bytes.
    #[error("longer than 1048576 bytes")]
    TooLong,
    /// The bytes are not the text of a JSON value.
    #[error("not JSON")]
    NotJson,
    /// An object in the message has a member twice.
    #[error("a member is written twice")]
    RepeatedMember,
    /// The message has this version, which this crate does not read.
    #[error("version {0}")]
    Version(u64),
    /// The value is of another type.
    #[error("another type")]
    OtherType,
    /// The message is of another job.
    #[error("another job")]
    OtherJob,
    /// A member is missing, is unknown, or does not have the form that it must have.
    #[error("wrong form")]
    WrongForm,
    /// The slices make no assignment, for this reason.
    #[error("slices: {0:?}")]
    Slices(AssignmentError),
    /// The pairs make no set of keys, for this reason.
    #[error("ranges: {0:?}")]
    Ranges(RangesError),
}

/// Why decoding failed: the bytes are refused, or memory ran out.
#[derive(Clone, Copy, Debug, PartialEq, Eq, Error)]
pub enum DecodeError {
    /// The bytes are not a message of the type, for this reason.
    #[error("{0}")]
    Refused(DecodeRefusal),
    /// Memory ran out.
    #[error("out of memory")]
    NoMemory,
}

impl From<WrongForm> for DecodeError {
    ghost from_gives = { λ _ e. e ≡ failed.Refused refusal.WrongForm };

    fn from(_error: WrongForm) -> Self {
        DecodeError::Refused(DecodeRefusal::WrongForm)
    }
}

impl From<Unread> for DecodeError {
    ghost from_gives = { λ error e. e ≡ failure_of error };

    fn from(error: Unread) -> Self {
        match error {
            Unread::WrongForm => DecodeError::Refused(DecodeRefusal::WrongForm),
            Unread::Memory => DecodeError::NoMemory,
        }
    }
}

impl From<DecodeRefusal> for DecodeError {
    ghost from_gives = { λ error e. e ≡ failed.Refused error };

    fn from(error: DecodeRefusal) -> Self {
        DecodeError::Refused(error)
    }
}

/// Returns what was read without memory, or why it is refused.
pub fn decoded<T: Drop>(read: Result<T, DecodeRefusal>) -> Result<T, DecodeError>
    ensures { Gives result read }
{
    Ok(read?)
}

impl From<WrongForm> for DecodeRefusal {
    ghost from_gives = { λ _ e. e ≡ refusal.WrongForm };

    fn from(_error: WrongForm) -> Self {
        DecodeRefusal::WrongForm
    }
}

impl From<Trouble<RangesError>> for DecodeError {
    ghost from_gives = { λ error e. e ≡ ranges_failure error };

    fn from(error: Trouble<RangesError>) -> Self {
        match error {
            Trouble::Refused(why) => DecodeError::Refused(DecodeRefusal::Ranges(why)),
            Trouble::NoMemory => DecodeError::NoMemory,
        }
    }
}

impl From<Trouble<AssignmentError>> for DecodeError {
    ghost from_gives = { λ error e. e ≡ slices_failure error };

    fn from(error: Trouble<AssignmentError>) -> Self {
        match error {
            Trouble::Refused(why) => DecodeError::Refused(DecodeRefusal::Slices(why)),
            Trouble::NoMemory => DecodeError::NoMemory,
        }
    }
}

impl From<AllocError> for DecodeError {
    ghost from_gives = { λ _ e. e ≡ failed.NoMemory };

    fn from(_error: AllocError) -> Self {
        DecodeError::NoMemory
    }
}

impl<T: Drop> From<AllocFailed<T>> for DecodeError {
    ghost from_gives = { λ _ e. e ≡ failed.NoMemory };

    fn from(_error: AllocFailed<T>) -> Self {
        DecodeError::NoMemory
    }
}
