//! A write to a store as numbers.

ghost use Rattle.std.specs.Prelude.{◌≡◌};
ghost use Rattle.fence.specs.declared.token.Token.{Token as SomeToken};
ghost use Rattle.fence.specs.Tokens.{Fits, bytes_of};
ghost use Rattle.log_lines.specs.Writes.{store_reply_of, write_in};

use crate::arguments::slice_key_of;
use c_calls::TokenBytes;
use fence::Token;
use log_line::{LoggedWrite, StoreReply};

/// A write that was offered to a store, and what the store said.
#[repr(C)]
#[derive(Clone, Copy, Debug, PartialEq, Eq)]
pub struct WriteNumbers {
    /// The ticket: that of the entry with which the task got the token, or a later one.
    pub ticket: u64,
    /// The slice key of the key.
    pub slice_key: u64,
    /// The revision that the store gave the write. If it gave none, this is not looked at.
    pub revision: u64,
    /// The token of the write.
    pub token: TokenBytes,
    /// What the store said: 1 if it took the write and gave it the revision, 2 if it took it and gives
    /// none, 3 if it refused it, 4 if no answer came.
    pub reply: u32,
}

// Returns what the store said.
fn store_reply_of(number: u32, revision: u64) -> Option<StoreReply>
    ensures { result ≡ store_reply_of number revision }
{
    match number {
        1 => Some(StoreReply::Taken(Some(revision))),
        2 => Some(StoreReply::Taken(None)),
        3 => Some(StoreReply::Refused),
        4 => Some(StoreReply::Unknown),
        _ => None,
    }
}

impl WriteNumbers {
    /// Returns the write that the numbers say, or `None` if they say none.
    pub fn write(&self) -> Option<LoggedWrite>
        ensures { (token : SomeToken) → Fits token → self.now.token.bytes ≡ bytes_of token → result ≡ write_in self.now token }
    {
        let key = slice_key_of(self.slice_key)?;
        let reply = store_reply_of(self.reply, self.revision)?;
        Some(LoggedWrite {
            ticket: self.ticket,
            key,
            token: Token::from_bytes(self.token.bytes),
            reply,
        })
    }
}
