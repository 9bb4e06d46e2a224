//! Why a text is not that of a snapshot.

ghost use Rattle.std.specs.Prelude.{◌≡◌};
ghost use Rattle.snapshot_text.specs.declared.error.SnapshotError.TheVariants as error;

use std::alloc::{AllocError, AllocFailed};
use thiserror::Error;
use wire::DecodeRefusal;

/// Why a text is not that of a snapshot: the first line that is not the part that is due there.
#[derive(Clone, Copy, Debug, PartialEq, Eq, Error)]
pub enum SnapshotError {
    /// The line is not a message of the part that is due there.
    #[error("line {number}: {why}")]
    Line {
        /// The number of the line, from 1.
        number: u64,
        /// Why it is not such a message.
        why: DecodeRefusal,
    },
    /// A part is due, and no line is left that has its end.
    #[error("a line is missing")]
    Short,
    /// Something follows the last part.
    #[error("more follows the last line")]
    Long,
    /// Memory ran out.
    #[error("out of memory")]
    Memory,
}

impl From<AllocError> for SnapshotError {
    ghost from_gives = { λ _ e. e ≡ error.Memory };

    fn from(_error: AllocError) -> Self {
        SnapshotError::Memory
    }
}

impl<T: Drop> From<AllocFailed<T>> for SnapshotError {
    ghost from_gives = { λ _ e. e ≡ error.Memory };

    fn from(_error: AllocFailed<T>) -> Self {
        SnapshotError::Memory
    }
}
