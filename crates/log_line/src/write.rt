//! Writes to stores, as lines of logs tell them.

use fence::Token;
use slice_ranges::SliceKey;

/// What a store said of a write.
#[derive(Clone, Copy, Debug, PartialEq, Eq)]
pub enum StoreReply {
    /// It took the write, and gave it this revision, if it gives revisions. Of two writes of a key,
    /// the one that the store took later has the greater revision.
    Taken(Option<u64>),
    /// It refused the write: it had taken one of the key with a greater token.
    Refused,
    /// No answer came.
    Unknown,
}

/// A write that was offered to a store.
#[derive(Clone, Copy, Debug, PartialEq, Eq)]
pub struct LoggedWrite {
    /// The ticket of the write: its place among all calls and writes that drew one.
    pub ticket: u64,
    /// The slice key of its key.
    pub key: SliceKey,
    /// Its token.
    pub token: Token,
    /// What the store said.
    pub reply: StoreReply,
}
