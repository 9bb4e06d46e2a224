//! Laws that hold after every list of calls that a slicelet accepted, and laws of its rule.

ghost use Rattle.std.specs.Prelude.{◌≡◌, ℕ, ◌<◌, ◌≤◌, ◌↔◌, Bool, IsTrue, List, [], ◌∷◌, ◌++◌, true, Some, Ok, Contains};
ghost use Rattle.std.specs.List.{AllByRecursion};
ghost use Rattle.lease_rule.specs.declared.lease.Kind.{Kind};
ghost use Rattle.lease_rule.specs.declared.answer.Verdict.TheVariants.{Allow};
ghost use Rattle.grants.specs.declared.values.Grant.{Grant};
ghost use Rattle.grants.specs.declared.slicelet_call.SliceletCall.{SliceletCall};
ghost use Rattle.grants.specs.declared.slicelet_call.SliceletCall.TheVariants.{Start, Hear, Resume};
ghost use Rattle.grants.specs.declared.slicelet_call.SliceletReply.{SliceletReply};
ghost use Rattle.grants.specs.declared.policy.TheConstants.{MOST_GRANTS};
ghost use Rattle.grants.specs.declared.values.Row.{Row};
ghost use Rattle.grants.specs.Rows.{closes};
ghost use Rattle.slicelet.specs.Calls.{life_of, resumed_of, count_of, held_grant, greatest_heard};
ghost use Rattle.slicelet.specs.States.{SliceletState, opening, state_after, held_in, greatest_in, rule_in_state};
ghost use Rattle.slicelet.specs.Steps.{slicelet_step};
ghost use Rattle.grants.specs.SliceletCalls.{ended_note};
ghost use Rattle.slice_ranges.specs.declared.key.TheConstants.{KEYS};
ghost use Rattle.key_handle.specs.declared.handle.KeyHandle.{KeyHandle};
ghost use Rattle.slicelet.specs.Rules.{rule_after, is_permitted};
ghost use Rattle.slicelet.specs.Continuity.{IsContinuous, IsChecked, checked_in, is_strange, next_reading};
ghost use Rattle.slicelet.specs.Accepted.{AreAccepted, StandsAfter, notes_sent};
ghost use Rattle.slicelet.specs.Laws.{HoldsOwnLeases, IsAbove, HasCoveringLease, WasHeard, AgreeOnHeard};

/// States that what a slicelet knows is determined by the calls that it accepted.
///
/// Before the first call, and after each accepted one, its state is the state after these calls.
/// Its leases, its greatest numbers, its rule and its checks of handles are those of the calls.
pub fn state_law()
    ensures opening { (task : ℕ) → StandsAfter [] (opening task) }
    ensures next { (calls : List SliceletCall) (state : SliceletState) (call : SliceletCall) (taken : SliceletState × SliceletReply)
        → StandsAfter calls state → slicelet_step state call ≡ Ok taken → StandsAfter (call ∷ calls) taken.0 }
    ensures held { (calls : List SliceletCall) (state : SliceletState) (kind : Kind) → StandsAfter calls state
        → held_in state kind ≡ held_grant kind calls }
    ensures greatest { (calls : List SliceletCall) (state : SliceletState) (kind : Kind) → StandsAfter calls state
        → greatest_in state kind ≡ greatest_heard kind calls }
    ensures rule { (covers : Grant → Bool) (calls : List SliceletCall) (state : SliceletState) (at : ℕ) → StandsAfter calls state
        → rule_in_state covers state at ≡ rule_after covers calls at }
    ensures checked { (calls : List SliceletCall) (state : SliceletState) (handle : KeyHandle) (at : ℕ) → handle.key < KEYS → StandsAfter calls state
        → IsChecked state.task calls handle at (checked_in state handle at) }
{}

/// States that a slicelet holds only leases that it heard in its current life.
///
/// A held lease is of its kind and has the greatest number that was heard of this kind. A note that
/// was sent is of the current life or an earlier one. If it is of the current life, its number is
/// below the number of any lease of its kind that is held now, and was heard if the task has
/// started this life in its current process.
pub fn held_law()
    ensures { (task : ℕ) (h : List SliceletCall) → AreAccepted task h → HoldsOwnLeases task h }
{}

/// States that the lives of accepted starts rise, and never fall at a new process.
pub fn lives_law()
    ensures start { (task life at : ℕ) (h : List SliceletCall) → AreAccepted task (Start life at ∷ h) → life_of h < life }
    ensures resume { (task life : ℕ) (h : List SliceletCall) → AreAccepted task (Resume life ∷ h) → life_of h ≤ life }
    ensures later { (task : ℕ) (later h : List SliceletCall) → AreAccepted task (later ++ h) → life_of h ≤ life_of (later ++ h) }
{}

/// States what a new process of a task has left of those before it.
///
/// It starts only lives above those that they started. A handle of theirs is of a life that the new
/// process cannot have given a handle of: it is strange, at every later point. The notes for a life
/// that ended close every row of this life.
pub fn processes_law()
    ensures start { (task life at : ℕ) (h : List SliceletCall) → AreAccepted task (Start life at ∷ h) → resumed_of h < life }
    ensures strange { (task life : ℕ) (later h : List SliceletCall) (handle : KeyHandle) → AreAccepted task (later ++ Resume life ∷ h)
        → handle.life ≤ life → is_strange (state_after task (later ++ Resume life ∷ h)) handle ≡ true }
    ensures notes { (task life : ℕ) (row : Row) → row.task ≡ task → row.life ≡ life → row.number ≤ MOST_GRANTS
        → closes (ended_note task life row.kind) row ≡ true }
{}

/// States that a number that was released is never heard again in the same life.
pub fn released_law()
    ensures { (task : ℕ) (grant : Grant) (at : ℕ) (h : List SliceletCall) → AreAccepted task (Hear grant at ∷ h)
        → AllByRecursion (IsAbove grant) (notes_sent task h) }
{}

/// States that a key that may be served is covered by a held lease that is live.
///
/// If the rule allows the key, the lease has the kind and the generation that the rule returns. If
/// the key is permitted, there is such a lease of some kind and generation.
pub fn covering_lease_law()
    ensures allowed { (covers : Grant → Bool) (h : List SliceletCall) (at : ℕ) (kind : Kind) (generation : ℕ)
        → rule_after covers h at ≡ Allow kind generation → HasCoveringLease covers h at kind generation }
    ensures permitted { (covers : Grant → Bool) (h : List SliceletCall) (at : ℕ) → IsTrue (is_permitted covers h at)
        → (kind : Kind) × (generation : ℕ) × HasCoveringLease covers h at kind generation }
{}

/// States that the grant of a held lease is that of a `hear` among the calls.
pub fn heard_law()
    ensures held { (kind : Kind) (h : List SliceletCall) (grant : Grant) → held_grant kind h ≡ Some grant → WasHeard h grant }
    ensures among { (h : List SliceletCall) (grant : Grant) → (heard : WasHeard h grant) → Contains h (Hear grant heard.at) }
{}

/// States that the rule depends on what leases cover only at the grants that were heard.
///
/// The same holds for what is permitted and what is continuous: two tests of coverage that agree on
/// each grant that was heard give the same results.
pub fn agreement_law()
    ensures rule { (covers other : Grant → Bool) (h : List SliceletCall) (at : ℕ) → AgreeOnHeard covers other h
        → rule_after covers h at ≡ rule_after other h at }
    ensures permitted { (covers other : Grant → Bool) (h : List SliceletCall) (at : ℕ) → AgreeOnHeard covers other h
        → is_permitted covers h at ≡ is_permitted other h at }
    ensures continuous { (covers other : Grant → Bool) (h : List SliceletCall) (handle : KeyHandle) (at : ℕ) → AgreeOnHeard covers other h
        → IsContinuous covers h handle at ↔ IsContinuous other h handle at }
{}

/// States that the key of a continuous handle was permitted at every point since it was taken.
///
/// The handle was taken after some calls, of which each was accepted. At each point since then, the
/// key was permitted at the reading of the next call, or at the reading of the check after the last
/// call.
pub fn between_law()
    ensures { (task : ℕ) (covers : Grant → Bool) (later before h : List SliceletCall) (handle : KeyHandle) (at : ℕ)
        → AreAccepted task (later ++ (before ++ h)) → handle.life ≡ life_of h → handle.position ≡ count_of h
        → IsContinuous covers (later ++ (before ++ h)) handle at
        → IsTrue (is_permitted covers (before ++ h) (next_reading later at)) }
{}
