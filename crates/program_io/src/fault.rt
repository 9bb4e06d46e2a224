//! Why a program fails to handle its input.

ghost use Rattle.std.specs.Prelude.{◌≡◌};
ghost use Rattle.program_io.specs.declared.fault.Fault.TheVariants as fault;
ghost use Rattle.program_io.specs.declared.fault.JsonError.TheVariants as text;
ghost use Rattle.program_io.specs.declared.fault.ReadError.TheVariants as reading;
ghost use Rattle.program_io.specs.declared.fault.Unread.TheVariants as unread;
ghost use Rattle.program_io.specs.Status.{fault_of_reading, status_of};

use std::alloc::{AllocError, AllocFailed};
use std::fmt::Display;
use thiserror::Error;

/// The error for a JSON value that does not have the form that the reader wants.
#[derive(Clone, Copy, Debug, PartialEq, Eq)]
pub struct WrongForm;

/// Why a part of the input was not read.
#[derive(Drop)]
pub enum Unread {
    /// It does not have the form that the reader wants.
    WrongForm,
    /// Memory ran out.
    Memory,
}

impl From<WrongForm> for Unread {
    ghost from_gives = { λ _ e. e ≡ unread.WrongForm };

    fn from(_error: WrongForm) -> Self {
        Unread::WrongForm
    }
}

impl From<AllocError> for Unread {
    ghost from_gives = { λ _ e. e ≡ unread.Memory };

    fn from(_error: AllocError) -> Self {
        Unread::Memory
    }
}

impl<T: Drop> From<AllocFailed<T>> for Unread {
    ghost from_gives = { λ _ e. e ≡ unread.Memory };

    fn from(_error: AllocFailed<T>) -> Self {
        Unread::Memory
    }
}

/// Why bytes are not read as a JSON value in which no object has a member twice.
#[derive(Debug, Drop)]
pub enum JsonError {
    /// The bytes are not the text of a JSON value.
    NotJson(serde_json::Error),
    /// An object has this member twice: it is the first in the text that repeats a name.
    Repeated(String),
    /// Memory ran out.
    Memory,
}

impl From<AllocError> for JsonError {
    ghost from_gives = { λ _ e. e ≡ text.Memory };

    fn from(_error: AllocError) -> Self {
        JsonError::Memory
    }
}

/// Why a reader was not read to its end.
#[derive(Clone, Copy, Debug, PartialEq, Eq)]
pub enum ReadError {
    /// The reader failed, or did not come to its end.
    Failed,
    /// Memory ran out.
    Memory,
}

impl<T: Drop> From<AllocFailed<T>> for ReadError {
    ghost from_gives = { λ _ e. e ≡ reading.Memory };

    fn from(_error: AllocFailed<T>) -> Self {
        ReadError::Memory
    }
}

impl From<AllocError> for ReadError {
    ghost from_gives = { λ _ e. e ≡ reading.Memory };

    fn from(_error: AllocError) -> Self {
        ReadError::Memory
    }
}

/// The error for a writer that failed or accepted no more bytes.
#[derive(Clone, Copy, Debug, PartialEq, Eq)]
pub struct WriteError;

/// Why a program failed to handle its input.
#[derive(Debug, PartialEq, Eq, Drop, Error)]
#[error_bound(Refusal: Display)]
pub enum Fault<Refusal> {
    /// The input is refused.
    #[error("{0}")]
    Input(Refusal),
    /// The reader failed, or did not come to its end.
    #[error("read fault")]
    Read,
    /// The writer failed, or accepted no more bytes.
    #[error("write fault")]
    Write,
    /// Memory ran out.
    #[error("out of memory")]
    Memory,
}

impl<Refusal> Fault<Refusal> {
    /// Returns the exit status for this fault: 2 if the input is refused, otherwise 3.
    pub fn status(&self) -> u8
        ensures { result ≡ status_of self.now }
    {
        match self {
            Fault::Input(_) => 2,
            Fault::Read | Fault::Write | Fault::Memory => 3,
        }
    }
}

impl<Refusal> From<ReadError> for Fault<Refusal> {
    ghost from_gives = { λ error f. f ≡ fault_of_reading error };

    fn from(error: ReadError) -> Self {
        match error {
            ReadError::Failed => Fault::Read,
            ReadError::Memory => Fault::Memory,
        }
    }
}

impl<Refusal> From<WriteError> for Fault<Refusal> {
    ghost from_gives = { λ _ f. f ≡ fault.Write };

    fn from(_error: WriteError) -> Self {
        Fault::Write
    }
}

impl<Refusal> From<AllocError> for Fault<Refusal> {
    ghost from_gives = { λ _ f. f ≡ fault.Memory };

    fn from(_error: AllocError) -> Self {
        Fault::Memory
    }
}

impl<Refusal, T: Drop> From<AllocFailed<T>> for Fault<Refusal> {
    ghost from_gives = { λ _ f. f ≡ fault.Memory };

    fn from(_error: AllocFailed<T>) -> Self {
        Fault::Memory
    }
}
