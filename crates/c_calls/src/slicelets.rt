//! The calls of a slicelet.

mod calls;
mod handle_numbers;
mod heard;
mod permitted_keys;
mod process;
mod releasing;
mod serving;

pub use calls::{check, hear, hear_grant, hold, hold_at, open_slicelet, serve, serve_at, start};
pub use handle_numbers::HandleNumbers;
pub use permitted_keys::permitted;
pub use process::{HeldNumbers, calls_left, ended_note, held, next, resume_slicelet};
pub use releasing::release;
