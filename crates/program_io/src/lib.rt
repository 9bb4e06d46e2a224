//! Input and output of programs: their arguments, the bytes and lines of streams, readers of JSON
//! values, and how programs end.
#![tactic(auto)]

mod arguments;
mod fault;
mod json_text;
mod line;
mod line_reading;
mod members;
mod repeated;
mod streams;
mod version;

pub use arguments::has_arguments;
pub use fault::{Fault, JsonError, ReadError, Unread, WriteError, WrongForm};
pub use json_text::{strict_value_of, value_of};
pub use line::{LineRead, MOST_LINE_BYTES, is_blank, is_long};
pub use line_reading::next_line;
pub use members::{
    Form, Number, TwoNumbers, array_of, exactly, exactly_beside, flag_at, list_at, list_of,
    member_at, number_at, number_in, number_of, pair_of, text_at, two_numbers_of,
};
pub use streams::{read_all, write_all};
pub use version::{LIBRARY_VERSION, LibraryVersion};
