//! What is told of a call of logs.

use log_causes::Unsent;
use log_line::CallerReply;
use reasons::Reason;

/// A call of logs that was played, and what decides its reply.
///
/// Entries are named by their indices, in the order of the tickets. The reason alone names a call by
/// its number from 1, which is the index of its entry plus 1.
#[derive(Drop)]
pub struct LogLine {
    /// The index of the entry.
    pub index: usize,
    /// The right reply: what the machines answer after the calls before it.
    pub reply: CallerReply,
    /// Whether the caller was told so, in the words of the log.
    pub is_told: bool,
    /// The values of the machines just before the call; `None` if the call and the reply say
    /// everything.
    pub reason: Option<Reason>,
    /// Of a broken handle: the index of the first entry after whose call a check of it, at the last
    /// reading of its task, would have found it broken. `None` if no call before this one broke it.
    pub first_taking: Option<usize>,
    /// Of what nothing sent before: why. `None` if it is a handle, and the log does not say which
    /// handles on its key were given.
    pub unsent: Option<Unsent>,
    /// If the call reads a task's clock more than the skew below a reading of the table's before it:
    /// the greatest such reading, in ticks.
    pub untimely: Option<u64>,
    /// If a `serve` was allowed to a task that does not own the key in the committed assignment: its
    /// generation.
    pub not_owner: Option<u64>,
}
