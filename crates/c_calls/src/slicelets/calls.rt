//! What a slicelet is asked, and what it hears.

ghost use Rattle.std.specs.Prelude.{◌≡◌, Some, List};
ghost use Rattle.slice_ranges.specs.Hash.{slice_key};
ghost use Rattle.grants.specs.declared.slicelet_call.SliceletCall.{SliceletCall};
ghost use Rattle.key_handle.specs.declared.handle.KeyHandle.{KeyHandle};
ghost use Rattle.slicelet.specs.Accepted.{StandsAfter};
ghost use Rattle.slicelet.specs.Continuity.{handle_on};
ghost use Rattle.slicelet.specs.States.{newest_covering};
ghost use Rattle.c_calls.specs.Arguments.{slice_key_of};
ghost use Rattle.c_calls.specs.Details.{covering_number};
ghost use Rattle.c_calls.specs.declared.details.LeaseDetails.{LeaseDetails};
ghost use Rattle.c_calls.specs.slicelets.KeyHandles.{IsCheckAnswered, check_answer, checked_answer, handle_of, hold_numbers};
ghost use Rattle.c_calls.specs.slicelets.Keys.{rule_at, rule_at_after, rule_for, rule_for_after, taken_at, taken_by};
ghost use Rattle.c_calls.specs.slicelets.Leases.{IsServed};
ghost use Rattle.c_calls.specs.slicelets.SliceKeys.{IsServedAfter, IsServedAt, covering_at, hold_numbers_at};
ghost use Rattle.c_calls.specs.slicelets.Calls.{IsGrantHeard, IsHeardGrant, IsStarted, opened_slicelet};

use super::handle_numbers::HandleNumbers;
use super::heard::heard_answer;
use super::serving::serve_key;
use crate::answer::Answer;
use crate::arguments::{slice_key_of, task_of};
use crate::unread::unread_answer;
use grants::{Grant, Stranger};
use slice_ranges::{SliceKey, slice_key};
use slicelet::Slicelet;
use std::alloc::Global;
use wire::{JobName, decode};

/// Creates the slicelet of a task, or returns `None` if the number is not a task's.
pub fn open_slicelet(alloc: Global, task: u64) -> Option<Slicelet>
    ensures { result ≡ opened_slicelet task }
{
    let task = task_of(task)?;
    Some(Slicelet::new(alloc, task))
}

/// Starts a life of the task. The call takes no memory.
pub fn start(slicelet: &mut Slicelet, life: u32, at: u64) -> Answer
    ensures { IsStarted life at slicelet.old slicelet.new result }
{
    match slicelet.start(life, at) {
        Ok(()) => Answer::Done,
        Err(why) => Answer::Slicelet(why),
    }
}

/// Decodes a grant from its message, which is one of the job, and hears it.
///
/// Returns the lease that the task now holds of its kind, or why the grant was not heard.
pub fn hear(alloc: Global, job: &JobName, slicelet: &mut Slicelet, grant: &[u8], at: u64) -> Answer
    ensures { IsGrantHeard job.now grant.now at slicelet.old slicelet.new result }
{
    match decode::<Grant>(alloc, job, grant) {
        Ok(grant) => hear_grant(slicelet, &grant, at),
        Err(why) => unread_answer(why),
    }
}

/// Hears a grant that was decoded, as [`hear`] does.
#[tactic(auto, using(crate::proofs::Taken::taken))]
pub fn hear_grant(slicelet: &mut Slicelet, grant: &Grant, at: u64) -> Answer
    ensures { IsHeardGrant grant.now at slicelet.old slicelet.new result }
{
    heard_answer(grant, slicelet.hear(grant, at))
}

/// Returns the lease under which the task may serve a key, or why it may not.
///
/// Writes the greatest generation of the held leases that cover the key, live or ended, to
/// `covering`; 0 if none does.
pub fn serve(slicelet: &Slicelet, key: &[u8], at: u64, covering: &mut u64) -> Answer
    ensures state { IsServed (rule_for key.now slicelet.now at) slicelet.now result }
    ensures covering { covering.new ≡ covering_number (newest_covering slicelet.now (slice_key key.now)) }
    ensures calls { (calls : List SliceletCall) → StandsAfter calls slicelet.now
        → IsServed (rule_for_after key.now calls at) slicelet.now result }
{
    serve_key(slicelet, slice_key(key), at, covering)
}

/// Returns the lease under which the task may serve the keys of a slice key, or why it may not, as
/// [`serve`] does.
///
/// `WrongForm` if it is no slice key; `covering` is then unchanged.
pub fn serve_at(slicelet: &Slicelet, slice_key: u64, at: u64, covering: &mut u64) -> Answer
    ensures state { IsServedAt (slice_key_of slice_key) slicelet.now at result }
    ensures covering { covering.new ≡ covering_at (slice_key_of slice_key) slicelet.now covering.old }
    ensures calls { (calls : List SliceletCall) → StandsAfter calls slicelet.now
        → IsServedAfter (slice_key_of slice_key) calls slicelet.now at result }
{
    match slice_key_of(slice_key) {
        Some(key) => serve_key(slicelet, key, at, covering),
        None => Answer::WrongForm,
    }
}

/// Takes a handle on a key if the task may serve it, and answers as [`serve`] does.
pub fn hold(
    slicelet: &Slicelet,
    key: &[u8],
    at: u64,
    out: &mut HandleNumbers,
    covering: &mut u64,
) -> Answer
    ensures state { IsServed (rule_for key.now slicelet.now at) slicelet.now result }
    ensures handle { out.new ≡ hold_numbers (taken_by (rule_for key.now slicelet.now at) key.now slicelet.now) out.old }
    ensures covering { covering.new ≡ covering_number (newest_covering slicelet.now (slice_key key.now)) }
    ensures reads { (lease : LeaseDetails) → result ≡ Answer.Leased lease
        → handle_of out.new ≡ Some (handle_on (slice_key key.now) slicelet.now) }
    ensures calls { (calls : List SliceletCall) → StandsAfter calls slicelet.now
        → IsServed (rule_for_after key.now calls at) slicelet.now result }
{
    take_handle(slicelet, slice_key(key), at, out, covering)
}

/// Takes a handle on the keys of a slice key, as [`hold`] does.
///
/// `WrongForm` if it is no slice key; `out` and `covering` are then unchanged.
pub fn hold_at(
    slicelet: &Slicelet,
    slice_key: u64,
    at: u64,
    out: &mut HandleNumbers,
    covering: &mut u64,
) -> Answer
    ensures state { IsServedAt (slice_key_of slice_key) slicelet.now at result }
    ensures handle { out.new ≡ hold_numbers_at (slice_key_of slice_key) slicelet.now at out.old }
    ensures covering { covering.new ≡ covering_at (slice_key_of slice_key) slicelet.now covering.old }
    ensures reads { (lease : LeaseDetails) → result ≡ Answer.Leased lease
        → handle_of out.new ≡ Some (handle_on slice_key slicelet.now) }
    ensures calls { (calls : List SliceletCall) → StandsAfter calls slicelet.now
        → IsServedAfter (slice_key_of slice_key) calls slicelet.now at result }
{
    match slice_key_of(slice_key) {
        Some(key) => take_handle(slicelet, key, at, out, covering),
        None => Answer::WrongForm,
    }
}

fn take_handle(
    slicelet: &Slicelet,
    key: SliceKey,
    at: u64,
    out: &mut HandleNumbers,
    covering: &mut u64,
) -> Answer
    ensures state { IsServed (rule_at key slicelet.now at) slicelet.now result }
    ensures handle { out.new ≡ hold_numbers (taken_at (rule_at key slicelet.now at) key slicelet.now) out.old }
    ensures covering { covering.new ≡ covering_number (newest_covering slicelet.now key) }
    ensures reads { (lease : LeaseDetails) → result ≡ Answer.Leased lease
        → handle_of out.new ≡ Some (handle_on key slicelet.now) }
    ensures calls { (calls : List SliceletCall) → StandsAfter calls slicelet.now
        → IsServed (rule_at_after key calls at) slicelet.now result }
{
    if let Ok(handle) = slicelet.hold(key, at) {
        *out = HandleNumbers::of(&handle);
    }
    serve_key(slicelet, key, at, covering)
}

/// Returns whether the task held the handle's key since the handle was taken, and may serve it now.
pub fn check(slicelet: &Slicelet, handle: &HandleNumbers, at: u64) -> Answer
    ensures state { result ≡ check_answer (handle_of handle.now) slicelet.now at }
    ensures calls { (calls : List SliceletCall) (taken : KeyHandle) → StandsAfter calls slicelet.now
        → handle_of handle.now ≡ Some taken → IsCheckAnswered calls slicelet.now taken at result }
{
    match handle.handle() {
        Some(handle) => checked_answer(slicelet.continuous(&handle, at)),
        None => Answer::WrongForm,
    }
}

fn checked_answer(checked: Result<bool, Stranger>) -> Answer
    ensures { result ≡ checked_answer checked }
{
    match checked {
        Ok(true) => Answer::Done,
        Ok(false) => Answer::Broken,
        Err(Stranger) => Answer::Stranger,
    }
}
