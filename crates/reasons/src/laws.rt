//! Laws of reasons.

ghost use Rattle.std.specs.Prelude.{◌≡◌, ℕ, ◌<◌, List, false, Ok, Some};
ghost use Rattle.slice_ranges.specs.declared.key.TheConstants.{KEYS};
ghost use Rattle.lease_rule.specs.declared.lease.Kind.{Kind};
ghost use Rattle.grants.specs.declared.slicelet_call.SliceletCall.{SliceletCall};
ghost use Rattle.grants.specs.declared.values.Grant.{Grant};
ghost use Rattle.key_handle.specs.declared.handle.KeyHandle.{KeyHandle};
ghost use Rattle.slicelet.specs.Accepted.{StandsAfter};
ghost use Rattle.slicelet.specs.Calls.{this_process};
ghost use Rattle.slicelet.specs.Continuity.{checked_in};
ghost use Rattle.slicelet.specs.States.{SliceletState, held_in};
ghost use Rattle.cluster.specs.Pasts.{Past, history};
ghost use Rattle.reasons.specs.Breaking.{HasNoCause, IsBreakingCall, IsLastDenied};
ghost use Rattle.reasons.specs.Placed.{Placed, ArePlaced, accepted_in, heard_in, place_of_call, IsCallAt, IsHeardAt};

/// States that each broken handle has a cause.
///
/// It is about handles that the slicelet can have given.
pub fn unbroken_law()
    ensures { (calls : List SliceletCall) (s : SliceletState) (handle : KeyHandle) (at : ℕ) → handle.key < KEYS → StandsAfter calls s
        → checked_in s handle at ≡ Ok false → HasNoCause s handle at → ⊥ }
{
    slicelet::state_law();
}

/// States which call breaks a handle.
///
/// It is the last call of the process just before or just after which the written rule denied the
/// key of the handle at the reading of that call.
pub fn taken_law()
    ensures { (calls : List SliceletCall) (s : SliceletState) (handle : KeyHandle) (at call : ℕ) → handle.key < KEYS → StandsAfter calls s
        → IsBreakingCall s handle at call → IsLastDenied (this_process calls) handle.key call }
{
    slicelet::state_law();
}

/// States that a held lease was heard at the place that is kept of it, if one is.
pub fn heard_law()
    ensures { (placed : List Placed) (past : Past) (task : ℕ) (kind : Kind) (grant : Grant) (place : ℕ) → ArePlaced placed past
        → held_in (history task past) kind ≡ Some grant → heard_in task kind placed ≡ Some place → IsHeardAt placed task grant place }
{}

/// States that the place that is kept of a call of a task is that of this call.
///
/// The call has its number among those that the task's process accepted.
pub fn place_law()
    ensures { (placed : List Placed) (past : Past) (task number place : ℕ) → (are : ArePlaced placed past)
        → place_of_call number (history task past).count (accepted_in task placed) ≡ Some place → IsCallAt placed are.0 task number place }
{}
