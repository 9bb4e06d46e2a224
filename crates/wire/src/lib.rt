//! Values as bytes, so that any transport can carry them.
//!
//! A message is a JSON object with the name of its job, the type of its value, the value and a
//! version. [`encode`] writes it and [`decode`] reads it. Decoding the bytes of a value gives the
//! same value, and a message of another job is refused. Numbers that may be 2^53 or more are
//! written as text, since many readers of JSON round them. Messages of version 1 have no job and
//! no such text; they are read as messages of the job with the empty name.
#![tactic(auto)]

mod clerk_call;
mod clerk_value;
mod fault;
mod grant;
mod handle;
mod job_name;
mod kept;
mod lease_members;
mod message;
mod note;
mod numerals;
mod object;
mod ranges;
mod row;
mod slicing;
mod table_call;
mod task_call;

pub use clerk_call::clerk_call_named;
pub use fault::{DecodeError, DecodeRefusal};
pub use grant::{grant_json, grant_of};
pub use handle::{handle_json, handle_of, slice_key_at};
pub use job_name::{JobName, MOST_NAME_BYTES};
pub use kept::{kept_json, kept_of};
pub use lease_members::{kind_at, kind_word, life_at, task_at};
pub use message::{MOST_BYTES, VERSION, Wire, decode, encode};
pub use note::{note_json, note_of};
pub use numerals::{Numerals, numeral_at, numeral_json, numeral_of};
pub use slicing::{EitherSlice, SliceForm, assignment_in, assignment_json, assignment_of};
pub use table_call::table_call_named;
pub use task_call::task_call_named;
