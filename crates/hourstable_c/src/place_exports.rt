//! Exports for keys and places.

ghost use Rattle.std.specs.Prelude.{◌≡◌, IfOk, None};
ghost use Rattle.slice_ranges.specs.Hash.{slice_key};
ghost use Rattle.hourstable_c.specs.Opened.{IsClosed, IsMade};

use crate::held::Held;
use crate::place::Place;
use c_calls::Answer;
use slice_ranges::slice_key;
use std::alloc::{AllocError, Global};
use std::mem::replace;

/// Returns the slice key of a key.
#[unsafe(no_mangle)]
pub extern "C" fn hs_slice_key(key: &[u8]) -> u64
    ensures { result ≡ slice_key key.now }
{
    slice_key(key).value()
}

/// Creates an empty place, or empties the one that is there.
#[unsafe(no_mangle)]
pub extern "C" fn hs_place_new(alloc: Global, place: &mut Place) -> i32
    ensures { IsMade place.old.value place.new.value result }
{
    if let Some(held) = place.held() {
        held.put(Held::Nothing);
        return Answer::Done.number();
    }
    match boxed_nothing(alloc) {
        Ok(held) => {
            replace(place, Place::of_box(held)).vanish();
            Answer::Done.number()
        }
        Err(_) => Answer::NoMemory.number(),
    }
}

fn boxed_nothing(alloc: Global) -> Result<Box<Held>, AllocError>
    ensures { IfOk result (λ held. held.value ≡ Held.Nothing) }
{
    Ok(Box::new(alloc, Held::Nothing)?)
}

/// Destroys what `place` holds, frees the place, and leaves null.
#[unsafe(no_mangle)]
pub extern "C" fn hs_place_free(alloc: Global, place: &mut Place)
    ensures { place.new.value ≡ None }
{
    if !place.is_nowhere() {
        drop(replace(place, Place::nowhere(alloc)).into_box());
    }
}

/// Destroys what a place holds, if it is of the kind that the caller closes.
pub fn close_where(is_of_kind: bool, held: &mut Held) -> i32
    ensures { IsClosed is_of_kind held.old held.new result }
{
    if !is_of_kind {
        return Answer::OtherPlace.number();
    }
    held.put(Held::Nothing);
    Answer::Done.number()
}
