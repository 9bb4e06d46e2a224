//! Why a handle is broken.

ghost use Rattle.std.specs.Prelude.{◌≡◌, ℕ, false, Ok, MatchOption};
ghost use Rattle.slicelet.specs.Continuity.{checked_in};
ghost use Rattle.reasons.specs.declared.reason.Break.TheVariants as break;
ghost use Rattle.reasons.specs.Breaking.{HasNoBreakingCall, HasNoCause, IsBreak, IsBreakingCall};
ghost use Rattle.reasons.specs.Placed.{place_of_call};

use crate::laws::unbroken_law;
use crate::places::TaskPlaces;
use crate::reason::Break;
use crate::rule::request_reason;
use key_handle::KeyHandle;
use lease_rule::Verdict;
use lease_table::LeaseTable;
use slicelet::Slicelet;

// A call of a task, and how many calls its process accepted so far.
#[derive(Clone, Copy)]
struct BreakingCall {
    // The number of the call among those.
    call: u64,
    count: u64,
}

// Returns the task's last call since the handle was given just before or just after which its key
// was denied; `None` if there is none.
fn breaking_call(slicelet: &Slicelet, handle: &KeyHandle, at: u64) -> Option<BreakingCall>
    ensures { MatchOption result (HasNoBreakingCall slicelet.now handle.now at)
        (λ found. IsBreakingCall slicelet.now handle.now at found.call × (found.count ≡ slicelet.now.count)) }
{
    if !matches!(slicelet.continuous(handle, at), Ok(false)) {
        return None;
    }
    let Ok(taken_now) = slicelet.hold(handle.key, at) else {
        return None;
    };
    for before in handle.position..taken_now.position {
        let call = before + 1;
        let later = KeyHandle::new(handle.task, handle.life, handle.key, call);
        if matches!(slicelet.continuous(&later, at), Ok(true)) {
            return Some(BreakingCall {
                call,
                count: taken_now.position,
            });
        }
    }
    None
}

// Returns the break by a call; `None` if no call broke the handle.
fn break_by_call(
    slicelet: &Slicelet,
    places: &TaskPlaces,
    handle: &KeyHandle,
    at: u64,
) -> Option<Break>
    ensures { MatchOption result (HasNoBreakingCall slicelet.now handle.now at)
        (λ broken. (call : ℕ) × IsBreakingCall slicelet.now handle.now at call
        × (broken ≡ break.Taken call (place_of_call call slicelet.now.count places.now.calls))) }
{
    let BreakingCall { call, count } = breaking_call(slicelet, handle, at)?;
    let last = places.of_call(call, count);
    Some(Break::Taken { call, last })
}

// Returns why a task finds a handle broken at a reading; `None` if there is no cause.
fn break_of(
    table: &LeaseTable,
    slicelet: &Slicelet,
    places: &TaskPlaces,
    handle: &KeyHandle,
    at: u64,
) -> Option<Break>
    ensures { MatchOption result (HasNoCause slicelet.now handle.now at)
        (IsBreak table.now slicelet.now places.now handle.now at) }
{
    if handle.life != slicelet.life() {
        return Some(Break::OtherLife(slicelet.life()));
    }
    match slicelet.serve(handle.key, at) {
        Verdict::Deny(denial) => Some(Break::Denied {
            denial,
            request: request_reason(table, slicelet, places.heard, handle.key, at),
        }),
        Verdict::Allow { .. } => break_by_call(slicelet, places, handle, at),
    }
}

/// Returns why a task finds a handle broken at a reading, in ticks; `None` only if it does not.
pub(crate) fn broken_reason(
    table: &LeaseTable,
    slicelet: &Slicelet,
    places: &TaskPlaces,
    handle: &KeyHandle,
    at: u64,
) -> Option<Break>
    ensures { checked_in slicelet.now handle.now at ≡ Ok false
        → MatchOption result ⊥ (IsBreak table.now slicelet.now places.now handle.now at) }
{
    slicelet.standing_law();
    unbroken_law();
    let _number = handle.key.value();
    break_of(table, slicelet, places, handle, at)
}
