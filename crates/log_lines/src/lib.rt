//! Lines of logs of calls that were made through the library for C.
//!
//! A service says which call it made, what it passed, which code it got, and what the call wrote.
//! [`log_line`] returns the line that an audit reads as this call with this reply, and [`log_write`]
//! that of a write to a store.
#![tactic(auto)]

mod arguments;
mod blocks;
mod call_name;
mod calls;
mod laws;
mod line;
mod line_json;
mod line_laws;
mod message;
mod numbers;
mod output;
mod plain_line;
mod receipts;
mod refusals;
mod replied;
mod write_line;
mod write_numbers;

pub use blocks::{BlockNumbers, enter, leave};
pub use call_name::{CallName, TableCallName, TaskCallName};
pub use laws::{ground_law, table_error_law, task_error_law};
pub use line::log_line;
pub use numbers::LoggedNumbers;
pub use receipts::{ReceiptNumbers, receive};
pub use write_line::log_write;
pub use write_numbers::WriteNumbers;
