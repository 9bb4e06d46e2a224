//! The lines of logs, parsed: the calls that they say with the replies that callers got, and the
//! writes to stores.
#![tactic(auto)]

mod call_lines;
mod entry;
mod extensions;
mod job_lines;
mod key_member;
mod line;
mod lines;
mod log;
mod log_reader;
mod mend;
mod message_calls;
mod own_calls;
mod progress;
mod reading;
mod restored;
mod sent;
mod told;
mod write;
mod write_line;

pub use entry::{LinePosition, LogEntry, WriteEntry};
pub use line::{BareGrant, LoggedCall, LoggedLine, TaskSample, Words, with_ranges};
pub use log::{Log, LogError};
pub use log_reader::{LogReader, ReadLog};
pub use progress::Progress;
pub use reading::{NoLine, SaidLine, line_of, line_said};
pub use restored::{KeptNumbers, MOST_AHEAD, RestoreFault, numbers_of};
pub use sent::{Sent, bare, first_proposal, first_sender};
pub use told::{CallerReply, PlainLine, ToldLine, is_worded, named, told_as};
pub use write::{LoggedWrite, StoreReply};
pub use write_line::token_text_law;
