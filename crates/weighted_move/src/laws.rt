//! Laws that hold of every plan.

ghost use Rattle.std.specs.Prelude.{◌≡◌, ◌<◌, ◌+◌, ◌-◌, ◌↔◌, ℕ, min, max, length, List, Some, None, All};
ghost use Rattle.slice_ranges.specs.declared.key.TheConstants.{KEYS};
ghost use Rattle.assignment.specs.declared.slice.Slice.{Slice};
ghost use Rattle.assignment.specs.Slices.{refusal_of};
ghost use Rattle.assignment.specs.Owners.{owners_of};
ghost use Rattle.weighted_move.specs.declared.slice_plan.Plan.{Plan};
ghost use Rattle.weighted_move.specs.Policies.{PlanTerms};
ghost use Rattle.weighted_move.specs.declared.redundancy.Redundancy.{Redundancy};
ghost use Rattle.weighted_move.specs.declared.loaded_slice.LoadedSlice.{LoadedSlice};
ghost use Rattle.weighted_move.specs.declared.moves.Move.{Move};
ghost use Rattle.weighted_move.specs.Loads.{Tiles, load_of, share_of};
ghost use Rattle.weighted_move.specs.Moves.{IsCandidate, load_after, changed_slice, slices_after_move};
ghost use Rattle.weighted_move.specs.Owning.{IsFit, IsRedundancy, IsTaskSet, IsWithin};
ghost use Rattle.weighted_move.specs.Plans.{CanPlan, IsPlan, redundancy_for, slices_for_plan};
ghost use Rattle.weighted_move.specs.Fitting.{IsLeastLoaded, IsMostLoaded, least_loaded, most_loaded, strangers};
ghost use Rattle.weighted_move.specs.Keys.{bare, owners_after};
ghost use Rattle.weighted_move.specs.Handovers.{IsHandover, IsPlanOfHandovers};

/// States that the slices of a plan form an assignment, with owners changed only by its moves.
///
/// They form an assignment of any generation. Their owners are tasks of the set, as many as a slice
/// may have. The owners of a key are those that it had before the moves, changed by each move of a
/// slice that has the key. Merging and halving change no owner.
pub fn plan_law()
    ensures accepted { (slices : List Slice) (loads tasks : List ℕ) (terms : PlanTerms) (plan : Plan)
        → CanPlan slices loads tasks terms → IsPlan slices loads tasks terms plan
        → refusal_of plan.slices ≡ None }
    ensures members { (slices : List Slice) (loads tasks : List ℕ) (terms : PlanTerms) (plan : Plan)
        → IsPlan slices loads tasks terms plan → All (λ s. IsWithin tasks s.owners) plan.slices }
    ensures number { (slices : List Slice) (loads tasks : List ℕ) (terms : PlanTerms) (plan : Plan)
        → CanPlan slices loads tasks terms → IsPlan slices loads tasks terms plan
        → All (λ s. IsFit tasks (redundancy_for terms tasks) s.owners) plan.slices }
    ensures keys { (slices : List Slice) (loads tasks : List ℕ) (terms : PlanTerms) (plan : Plan) (key : ℕ)
        → CanPlan slices loads tasks terms → IsPlan slices loads tasks terms plan → key < KEYS
        → owners_of plan.slices key
        ≡ owners_after key (owners_of (bare (slices_for_plan slices loads tasks terms)) key) plan.moves }
{}

/// States which owner a slice loses and which task it gains when its number of owners changes.
///
/// The owner that it loses has the greatest load of its owners. The task that it gains has the
/// least load of the tasks that do not own it. Among equal loads, the lowest number is taken. One
/// is found whenever there is a task to choose from.
pub fn fitting_law()
    ensures loses { (load : ℕ → ℕ) (owners : List ℕ) → IsTaskSet owners
        → IsMostLoaded load owners (most_loaded load owners) }
    ensures gets { (load : ℕ → ℕ) (tasks owners : List ℕ) → IsTaskSet tasks
        → IsLeastLoaded load (strangers tasks owners) (least_loaded load (strangers tasks owners)) }
{}

/// States how a candidate changes the loads, and what it gains if the number of owners is fixed.
///
/// The loads after a candidate are those of the list with the candidate made. If the least number
/// of owners equals the greatest one, a candidate replaces an owner by another task, and its gain
/// is how much the greater of their two loads falls.
pub fn move_law()
    ensures loads { (slices : List LoadedSlice) (tasks : List ℕ) (redundancy : Redundancy) (left : ℕ) (move : Move) (candidate : IsCandidate slices tasks redundancy left move) (task : ℕ)
        → Tiles 0 slices KEYS
        → load_of (slices_after_move slices move) task ≡ load_after (load_of slices) candidate.slice (changed_slice move.giver move.taker candidate.slice) task }
    ensures fixed { (slices : List LoadedSlice) (tasks : List ℕ) (redundancy : Redundancy) (left : ℕ) (move : Move) (candidate : IsCandidate slices tasks redundancy left move)
        → redundancy.low ≡ redundancy.high → IsFit tasks redundancy candidate.slice.owners
        → (a : ℕ) × (b : ℕ) × (move.giver ≡ Some a) × (move.taker ≡ Some b) }
    ensures gain { (slices : List LoadedSlice) (tasks : List ℕ) (redundancy : Redundancy) (left a b : ℕ) (move : Move) (candidate : IsCandidate slices tasks redundancy left move)
        → IsTaskSet tasks → IsRedundancy tasks redundancy → IsFit tasks redundancy candidate.slice.owners → move.giver ≡ Some a → move.taker ≡ Some b
        → move.gain ≡ max (load_of slices a) (load_of slices b)
        - max (load_of slices a - share_of candidate.slice) (load_of slices b + share_of candidate.slice) }
{}

/// States that a plan changes owners by handovers alone if the number of owners is fixed.
///
/// The number is fixed if the least number of owners equals the greatest one. Each slice then gets
/// that number of owners, or as many as there are tasks, and keeps it. Each move is the best
/// handover after the earlier ones were made. The candidates are exactly the handovers.
pub fn fixed_law()
    ensures plan { (slices : List Slice) (loads tasks : List ℕ) (terms : PlanTerms) (plan : Plan)
        → CanPlan slices loads tasks terms → IsPlan slices loads tasks terms plan → terms.low ≡ terms.high
        → IsPlanOfHandovers slices loads tasks terms (min terms.low (length tasks)) plan }
    ensures number { (slices : List Slice) (loads tasks : List ℕ) (terms : PlanTerms) (plan : Plan)
        → CanPlan slices loads tasks terms → IsPlan slices loads tasks terms plan → terms.low ≡ terms.high
        → All (λ s. length s.owners ≡ min terms.low (length tasks)) plan.slices }
    ensures candidates { (slices : List LoadedSlice) (tasks : List ℕ) (redundancy : Redundancy) (left : ℕ) (move : Move)
        → IsTaskSet tasks → IsRedundancy tasks redundancy → redundancy.low ≡ redundancy.high → All (λ s. IsFit tasks redundancy s.owners) slices
        → IsCandidate slices tasks redundancy left move ↔ IsHandover slices tasks left move }
{}
