//! The errors of a clerk.

/// Why a clerk refuses a call.
#[derive(Clone, Copy, Debug, PartialEq, Eq)]
pub enum ClerkError {
    /// The generation of the assignment is not above that of the one that the clerk keeps.
    Old {
        /// The generation of the assignment that the clerk keeps.
        generation: u64,
    },
}

/// The error of a clerk that has learnt no assignment since it last forgot.
#[derive(Clone, Copy, Debug, PartialEq, Eq)]
pub struct Unknown;
