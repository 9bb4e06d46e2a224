//! The best move.

ghost use Rattle.std.specs.Prelude.{◌≡◌, ◌≤◌, ◌<◌, ◌^◌, ◌+◌, ◌-◌, ℕ, min, Some, None, Option, ◌⊎◌, false, All, length, map};
ghost use Rattle.std.specs.Bool.{OnFalse, OnTrue};
ghost use Rattle.std.specs.Option.{ForSome};
ghost use Rattle.slice_ranges.specs.Sets.{Rises};
ghost use Rattle.weighted_move.specs.Loads.{share_of, load_in, load_of, total_load};
ghost use Rattle.weighted_move.specs.Owning.{IsFit, IsRedundancy};
ghost use Rattle.weighted_move.specs.Ranks.{AreRanks, best_ratio, least_gain, most_ratio};
ghost use Rattle.weighted_move.specs.Fitting.{HasLeastLoad};
ghost use Rattle.weighted_move.specs.Moves.{IsBestOf, IsCandidate, IsMoveOf, greatest, is_ahead, number_of};
ghost use Rattle.weighted_move.specs.Kinds.{IsMoveTo, IsAddition, IsRemoval, IsReplacement, IsExchange, IsTakerOf, leader_of, load_changes_of};

use crate::exchange::Exchange;
use crate::load_changes::LoadChanges;
use crate::loaded_slice::LoadedSlice;
use crate::move_limits::MoveLimits;
use crate::moves::Move;
use crate::owners::Owners;
use crate::rank::Rank;
use crate::ratio::{least_gain, ratio_of};
use crate::redundancy::Redundancy;
use crate::task_loads::TaskLoads;
use assignment::TaskId;

/// Returns the best candidate within the limits, if there is a candidate.
pub fn best_candidate(
    slices: &[LoadedSlice],
    changes: &[LoadChanges],
    ranks: &[Rank],
    tasks: &[TaskId],
    loads: &TaskLoads,
    limits: MoveLimits,
) -> Option<Move>
    requires changes { changes.now ≡ map (load_changes_of limits.redundancy) slices.now }
    requires ranks { AreRanks (map (most_ratio limits.redundancy.low) slices.now) ranks.now }
    requires wide { All (λ s. 0 < s.width) slices.now }
    requires set { Rises 1 tasks.now 65 }
    requires redundancy { IsRedundancy tasks.now limits.redundancy }
    requires fits { All (λ s. IsFit tasks.now limits.redundancy s.owners) slices.now }
    requires small { total_load slices.now < 2 ^ 60 }
    requires loads { (task : ℕ) → load_in loads.now task ≡ load_of slices.now task }
    ensures { IsBestOf (IsCandidate slices.now tasks.now limits.redundancy limits.left) result }
{
    let lowest = loads.lowest(tasks)?;
    let least = loads.of_task(lowest);
    let mut best = None;
    let mut ratio = 0;
    for rank in ranks {
        if rank.ratio < ratio {
            break;
        }
        let slice = &slices[rank.place];
        if can_lead(
            slice,
            &changes[rank.place],
            loads,
            least,
            ratio,
            limits.left,
        ) {
            best = best_with(best, slice, tasks, loads, limits.redundancy, lowest);
            ratio = best_ratio(&best);
        }
    }
    best
}

// Whether a move of a slice may be affordable, and not behind each move of a ratio. No gain is
// above the share. No gain is above what is left when the least load of all tasks and the least
// change of a load are subtracted from the greatest load of the slice's owners.
fn can_lead(
    slice: &LoadedSlice,
    changes: &LoadChanges,
    loads: &TaskLoads,
    least: u64,
    ratio: u64,
    left: u64,
) -> bool
    ensures affordable { OnTrue result (slice.now.width ≤ left) }
    ensures behind { OnFalse result (slice.now.width ≤ left → (gain : ℕ) → 0 < gain
        → gain ≤ min changes.now.share (greatest (load_in loads.now) slice.now.owners - least - changes.now.least)
        → gain < least_gain ratio slice.now.width) }
{
    let most = loads.greatest(slice.owners.as_slice());
    let rest = most.saturating_sub(least);
    let bound = changes.share.min(rest.saturating_sub(changes.least));
    slice.width <= left && 0 < bound && least_gain(ratio, slice.width) <= bound
}

// The ratio of the best move, or 0 if there is none.
fn best_ratio(best: &Option<Move>) -> u64
    requires { ForSome best.now (λ m. 0 < m.churn) }
    ensures { result ≡ best_ratio best.now }
{
    match best {
        None => 0,
        Some(best) => ratio_of(best.gain, best.churn),
    }
}

// The best of a known move and the moves of a slice.
#[inline(never)]
fn best_with(
    known: Option<Move>,
    slice: &LoadedSlice,
    tasks: &[TaskId],
    loads: &TaskLoads,
    redundancy: Redundancy,
    lowest: TaskId,
) -> Option<Move>
    requires gains { ForSome known (λ m. 0 < m.gain) }
    requires wide { 0 < slice.now.width }
    requires set { Rises 1 tasks.now 65 }
    requires redundancy { IsRedundancy tasks.now redundancy }
    requires fit { IsFit tasks.now redundancy slice.now.owners }
    requires shared { All (λ t. share_of slice.now ≤ load_in loads.now t) slice.now.owners }
    requires small { ((t : ℕ) → load_in loads.now t < 2 ^ 60) × (slice.now.load < 2 ^ 60) }
    requires lowest { HasLeastLoad (load_in loads.now) tasks.now lowest }
    ensures { IsBestOf (λ m. (known ≡ Some m) ⊎ IsMoveOf (load_in loads.now) tasks.now redundancy slice.now m) result }
{
    let removed = best_removal(slice, loads, redundancy.low);
    let best = best_addition(known, slice, tasks, loads, redundancy.high, lowest);
    let best = leader_of(best, removed);
    best_replacement(best, slice, tasks, loads, lowest)
}

// Whether a move of a slice may be ahead of the best one, if its giver is this task or one with a
// higher number and its gain is at most `bound`. That is so if a move with this gain and no taker
// is ahead.
fn may_lead(best: &Option<Move>, slice: &LoadedSlice, giver: &Option<TaskId>, bound: u64) -> bool
    requires { ForSome best.now (λ m. 0 < m.gain) }
    ensures { OnFalse result ((from taker : Option ℕ) (gain : ℕ) → number_of giver.now ≤ number_of from → gain ≤ bound → 0 < gain
        → is_ahead (record { start = slice.now.start; giver = from; taker = taker; gain = gain; churn = slice.now.width }) best.now ≡ false) }
{
    let most = Move {
        start: slice.start,
        giver: *giver,
        taker: None,
        gain: bound,
        churn: slice.width,
    };
    0 < bound && most.is_ahead(best)
}

// The better of two moves, if there are two.
fn leader_of(known: Option<Move>, found: Option<Move>) -> Option<Move>
    ensures { result ≡ leader_of known found }
{
    match found {
        Some(move_found) if move_found.is_ahead(&known) => Some(move_found),
        _ => known,
    }
}

// The best of a known move and the additions of an owner to a slice.
fn best_addition(
    known: Option<Move>,
    slice: &LoadedSlice,
    tasks: &[TaskId],
    loads: &TaskLoads,
    high: usize,
    lowest: TaskId,
) -> Option<Move>
    requires gains { ForSome known (λ m. 0 < m.gain) }
    requires wide { 0 < slice.now.width }
    requires set { Rises 1 tasks.now 65 }
    requires rises { Rises 1 slice.now.owners 65 }
    requires some { 0 < length slice.now.owners }
    requires shared { All (λ t. share_of slice.now ≤ load_in loads.now t) slice.now.owners }
    requires small { ((t : ℕ) → load_in loads.now t < 2 ^ 60) × (slice.now.load < 2 ^ 60) }
    requires lowest { HasLeastLoad (load_in loads.now) tasks.now lowest }
    ensures { IsBestOf (λ m. (known ≡ Some m) ⊎ IsAddition (load_in loads.now) tasks.now high slice.now m) result }
{
    let owners = slice.owners.as_slice();
    if high <= owners.len() {
        return known;
    }
    let from = loads.greatest(owners);
    let share = slice.share_among(owners.len() + 1);
    let exchange = Exchange {
        giver: None,
        from,
        kept: from.saturating_sub(slice.share()) + share,
        share,
    };
    best_exchange(known, slice, &exchange, tasks, loads, lowest)
}

// The best removal of an owner.
fn best_removal(slice: &LoadedSlice, loads: &TaskLoads, low: usize) -> Option<Move>
    requires rises { Rises 1 slice.now.owners 65 }
    requires low { 0 < low }
    requires shared { All (λ t. share_of slice.now ≤ load_in loads.now t) slice.now.owners }
    requires small { ((t : ℕ) → load_in loads.now t < 2 ^ 60) × (slice.now.load < 2 ^ 60) }
    ensures { IsBestOf (IsRemoval (load_in loads.now) low slice.now) result }
{
    let owners = slice.owners.as_slice();
    if owners.len() <= low {
        return None;
    }
    let most = loads.greatest(owners);
    let share = slice.share();
    let fewer = slice.share_among(owners.len() - 1);
    let mut best = None;
    for giver in owners {
        let others = loads.greatest_without(*giver, owners).saturating_sub(share) + fewer;
        let kept = loads.of_task(*giver).saturating_sub(share);
        let found = Move {
            start: slice.start,
            giver: Some(*giver),
            taker: None,
            gain: most.saturating_sub(others.max(kept)),
            churn: slice.width,
        };
        if 0 < found.gain && found.is_ahead(&best) {
            best = Some(found);
        }
    }
    best
}

// The best of a known move and the replacements of an owner of a slice.
fn best_replacement(
    known: Option<Move>,
    slice: &LoadedSlice,
    tasks: &[TaskId],
    loads: &TaskLoads,
    lowest: TaskId,
) -> Option<Move>
    requires gains { ForSome known (λ m. 0 < m.gain) }
    requires wide { 0 < slice.now.width }
    requires set { Rises 1 tasks.now 65 }
    requires some { 0 < length slice.now.owners }
    requires shared { All (λ t. share_of slice.now ≤ load_in loads.now t) slice.now.owners }
    requires small { ((t : ℕ) → load_in loads.now t < 2 ^ 60) × (slice.now.load < 2 ^ 60) }
    requires lowest { HasLeastLoad (load_in loads.now) tasks.now lowest }
    ensures { IsBestOf (λ m. (known ≡ Some m) ⊎ IsReplacement (load_in loads.now) tasks.now slice.now m) result }
{
    let owners = slice.owners.as_slice();
    let share = slice.share();
    let mut best = known;
    for giver in owners {
        let from = loads.of_task(*giver);
        let kept = from.saturating_sub(share);
        let exchange = Exchange {
            giver: Some(*giver),
            from,
            kept,
            share,
        };
        best = best_exchange(best, slice, &exchange, tasks, loads, lowest);
    }
    best
}

// The best of a known move and the moves of a slice by an exchange.
fn best_exchange(
    known: Option<Move>,
    slice: &LoadedSlice,
    exchange: &Exchange,
    tasks: &[TaskId],
    loads: &TaskLoads,
    lowest: TaskId,
) -> Option<Move>
    requires gains { ForSome known (λ m. 0 < m.gain) }
    requires wide { 0 < slice.now.width }
    requires set { Rises 1 tasks.now 65 }
    requires exchange { IsExchange (load_in loads.now) tasks.now slice.now exchange.now }
    requires small { (t : ℕ) → load_in loads.now t < 2 ^ 60 }
    requires lowest { HasLeastLoad (load_in loads.now) tasks.now lowest }
    ensures { IsBestOf (λ m. (known ≡ Some m) ⊎ IsMoveTo (load_in loads.now) tasks.now slice.now exchange.now.giver m) result }
{
    let bound = exchange.gain_at(loads.of_task(lowest));
    if may_lead(&known, slice, &exchange.giver, bound) {
        leader_of(known, best_move_to(slice, exchange, tasks, loads, lowest))
    } else {
        known
    }
}

// The best move of a slice to a task, by an exchange.
fn best_move_to(
    slice: &LoadedSlice,
    exchange: &Exchange,
    tasks: &[TaskId],
    loads: &TaskLoads,
    lowest: TaskId,
) -> Option<Move>
    requires wide { 0 < slice.now.width }
    requires set { Rises 1 tasks.now 65 }
    requires exchange { IsExchange (load_in loads.now) tasks.now slice.now exchange.now }
    requires small { (t : ℕ) → load_in loads.now t < 2 ^ 60 }
    requires lowest { HasLeastLoad (load_in loads.now) tasks.now lowest }
    ensures { IsBestOf (IsMoveTo (load_in loads.now) tasks.now slice.now exchange.now.giver) result }
{
    let taker = best_taker(&slice.owners, tasks, loads, exchange.room(), lowest)?;
    let gain = exchange.gain_at(loads.of_task(taker));
    if gain == 0 {
        return None;
    }
    Some(Move {
        start: slice.start,
        giver: exchange.giver,
        taker: Some(taker),
        gain,
        churn: slice.width,
    })
}

// The best taker of a slice: the first task with the least load, if all loads up to `room` count as
// equal.
fn best_taker(
    owners: &Owners,
    tasks: &[TaskId],
    loads: &TaskLoads,
    room: u64,
    lowest: TaskId,
) -> Option<TaskId>
    requires set { Rises 1 tasks.now 65 }
    requires small { ((t : ℕ) → load_in loads.now t < 2 ^ 60) × (room < 2 ^ 62) }
    requires lowest { HasLeastLoad (load_in loads.now) tasks.now lowest }
    ensures { IsTakerOf (load_in loads.now) tasks.now owners.now room result }
{
    if room <= loads.of_task(lowest) && !owners.contains(lowest) {
        return Some(lowest);
    }
    first_taker(owners, tasks, loads, room)
}

// The same, by a look at each task.
fn first_taker(owners: &Owners, tasks: &[TaskId], loads: &TaskLoads, room: u64) -> Option<TaskId>
    requires set { Rises 1 tasks.now 65 }
    requires small { ((t : ℕ) → load_in loads.now t < 2 ^ 60) × (room < 2 ^ 62) }
    ensures { IsTakerOf (load_in loads.now) tasks.now owners.now room result }
{
    let mut best = None;
    let mut least = u64::MAX;
    for task in tasks {
        let load = loads.of_task(*task).max(room);
        if load < least && !owners.contains(*task) {
            best = Some(*task);
            least = load;
        }
    }
    best
}
