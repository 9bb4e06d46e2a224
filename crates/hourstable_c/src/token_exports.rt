//! Exports for fencing tokens.

ghost use Rattle.std.specs.Prelude.{◌≡◌, Some};
ghost use Rattle.slice_ranges.specs.Hash.{slice_key};
ghost use Rattle.c_calls.specs.Arguments.{slice_key_of};
ghost use Rattle.c_calls.specs.Tokens.{IsToken, IsOffered};
ghost use Rattle.hourstable_c.specs.declared.held.Held.TheVariants as held;
ghost use Rattle.hourstable_c.specs.Places.{OnSlicelet};
ghost use Rattle.hourstable_c.specs.Returned.{Returns};

use crate::held::Held;
use crate::place::Place;
use c_calls::{Answer, TokenBytes, accept_token, token, token_at};

/// Writes the token that the task has for a key.
#[unsafe(no_mangle)]
#[tactic(auto, using(crate::proofs::Returning::returns))]
pub extern "C" fn hs_slicelet_token(
    place: &mut Place,
    most: u64,
    epoch: u32,
    key: &[u8],
    at: u64,
    out: &mut TokenBytes,
) -> i32
    ensures { OnSlicelet place.old.value place.new.value (out.new ≡ out.old) result
        (λ job old new. (new ≡ old) × Returns (IsToken most epoch (Some (slice_key key.now)) old at out.old out.new) result) }
{
    let Some(held) = place.read() else {
        return Answer::OtherPlace.number();
    };
    match held {
        Held::Slicelet(_, slicelet) => token(slicelet, most, epoch, key, at, out).number(),
        _ => Answer::OtherPlace.number(),
    }
}

/// Writes the token that the task has for the keys of a slice key, as [`hs_slicelet_token`] does.
#[unsafe(no_mangle)]
#[tactic(auto, using(crate::proofs::Returning::returns))]
pub extern "C" fn hs_slicelet_token_at(
    place: &mut Place,
    most: u64,
    epoch: u32,
    slice_key: u64,
    at: u64,
    out: &mut TokenBytes,
) -> i32
    ensures { OnSlicelet place.old.value place.new.value (out.new ≡ out.old) result
        (λ job old new. (new ≡ old) × Returns (IsToken most epoch (slice_key_of slice_key) old at out.old out.new) result) }
{
    let Some(held) = place.read() else {
        return Answer::OtherPlace.number();
    };
    match held {
        Held::Slicelet(_, slicelet) => token_at(slicelet, most, epoch, slice_key, at, out).number(),
        _ => Answer::OtherPlace.number(),
    }
}

/// Offers a write with a token to a store that keeps the greatest token of the key.
#[unsafe(no_mangle)]
#[tactic(auto, using(crate::proofs::Returning::returns))]
pub extern "C" fn hs_fence_accept(greatest: &mut TokenBytes, token: &TokenBytes) -> i32
    ensures { Returns (IsOffered token.now greatest.old greatest.new) result }
{
    accept_token(greatest, token).number()
}
