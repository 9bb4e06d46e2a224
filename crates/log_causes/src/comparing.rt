//! How much is told of wrong replies.

/// How many wrong replies of a log are told at most.
pub const MOST_WRONG_REPLIES: usize = 20;
