//! The arguments of a program.

use std::env::{Env, FillError};

/// Whether the program was given an argument beside its name.
pub fn has_arguments(rt: &impl Env) -> bool {
    !matches!(rt.arg(1, &mut []), Err(FillError::NotPresent))
}
