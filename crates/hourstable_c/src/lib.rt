//! Hourstable for callers in C: `include/hourstable.h` documents each function.
//!
//! A [`Place`](place::Place) is the address of a value that a caller keeps, with the right to use
//! it. Each function borrows what a place holds, makes a call of `c_calls` on it, and returns the
//! code of the answer. A place that holds something else is unchanged.
#![tactic(auto)]

mod assigner_exports;
mod assignment_exports;
mod block_exports;
mod clerk_exports;
mod clock_exports;
mod grant_exports;
mod held;
mod keeping_exports;
mod load_exports;
mod log_exports;
mod parts;
mod place;
mod place_exports;
mod process_exports;
mod receipt_exports;
mod slicelet_exports;
mod table_exports;
mod token_exports;
mod version_exports;
