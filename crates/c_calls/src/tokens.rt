//! Fencing tokens as bytes.

ghost use Rattle.std.specs.Prelude.{Some};
ghost use Rattle.slice_ranges.specs.Hash.{slice_key};
ghost use Rattle.c_calls.specs.Arguments.{slice_key_of};
ghost use Rattle.c_calls.specs.Tokens.{IsToken, IsOffered};

use crate::answer::Answer;
use crate::arguments::slice_key_of;
use fence::{Fence, NoToken, Token, token_of};
use slice_ranges::{SliceKey, slice_key};
use slicelet::Slicelet;

/// A fencing token: the epoch, the generation and the life, each with the high byte first.
#[repr(C)]
#[derive(Clone, Copy, Debug, PartialEq, Eq)]
pub struct TokenBytes {
    /// The bytes, whose order is that of the tokens.
    pub bytes: [u8; 16],
}

/// Writes the token that the task has for a key at the reading `at`, in ticks.
///
/// `most` is the most owners of a slice by the job's policy. `ManyOwners` if it is above one, then
/// why the task may not serve the key. Takes no memory.
pub fn token(
    slicelet: &Slicelet,
    most: u64,
    epoch: u32,
    key: &[u8],
    at: u64,
    out: &mut TokenBytes,
) -> Answer
    ensures { IsToken most epoch (Some (slice_key key.now)) slicelet.now at out.old out.new result }
{
    give_token(slicelet, most, epoch, slice_key(key), at, out)
}

/// Writes the token that the task has for the keys of a slice key, as [`token`] does.
///
/// `WrongForm` if it is no slice key.
pub fn token_at(
    slicelet: &Slicelet,
    most: u64,
    epoch: u32,
    slice_key: u64,
    at: u64,
    out: &mut TokenBytes,
) -> Answer
    ensures { IsToken most epoch (slice_key_of slice_key) slicelet.now at out.old out.new result }
{
    match slice_key_of(slice_key) {
        Some(key) => give_token(slicelet, most, epoch, key, at, out),
        None => Answer::WrongForm,
    }
}

fn give_token(
    slicelet: &Slicelet,
    most: u64,
    epoch: u32,
    key: SliceKey,
    at: u64,
    out: &mut TokenBytes,
) -> Answer
    ensures { IsToken most epoch (Some key) slicelet.now at out.old out.new result }
{
    match token_of(slicelet, most, epoch, key, at) {
        Ok(token) => {
            out.bytes = token.to_bytes();
            Answer::Done
        }
        Err(NoToken::ManyOwners) => Answer::ManyOwners,
        Err(NoToken::Denied(why)) => Answer::Denied(why),
    }
}

/// Offers a write with a token to a store that keeps the greatest token of the key.
///
/// The token is kept if the write is accepted. `Fenced` if it is below the greatest one; nothing
/// changes then. A key that was never written has 16 bytes of zero.
pub fn accept_token(greatest: &mut TokenBytes, token: &TokenBytes) -> Answer
    ensures { IsOffered token.now greatest.old greatest.new result }
{
    let mut fence = Fence::with_greatest(Token::from_bytes(greatest.bytes));
    if fence.accept(Token::from_bytes(token.bytes)) {
        greatest.bytes = token.bytes;
        Answer::Done
    } else {
        Answer::Fenced
    }
}
