//! The atomic steps of a call: a lane is claimed, and given back.

ghost use Rattle.std.specs.Prelude.{◌≡◌, ◌≢◌, ℕ, ◌+◌, ◌<◌, ◌≤◌, [], ◌∷◌, ◌++◌, Option, Some, None, MatchResult, List, length};
ghost use Rattle.atomic_table.specs.Table.{rest};
ghost use Rattle.history_lock.specs.declared.entry.Entry.{Entry};
ghost use Rattle.history_lock.specs.declared.view.LaneState.{LaneState};
ghost use Rattle.history_lock.specs.declared.view.Role.TheVariants.{Lane};
ghost use Rattle.history_lock.specs.Histories.{replay, GrowsBy};
ghost use Rattle.history_lock.specs.Rule.{word_index, IsLaneState, IsTaken, view_after_claim, view_after_write, view_after_return, refused_claim};
ghost use Rattle.history_lock.specs.Answers.{IsWriterAt};
ghost use Rattle.history_lock.specs.internals.Seats.{IsRefusedClaim, IsHolding, HaveLaneStates, HasClaimed, IsTurned};
ghost use Rattle.history_lock.specs.declared.open.TheConstants.{MOST_LANES};

use crate::error::{Busy, Holder};
use crate::rule::{Claim, ClaimNext, Common, GiveBack, LaneSeat, Publish, WORDS_A_LANE};
use crate::view::LaneState;
use machines::Machine;

// Claims a reader's own lane, whose lane state stays in its slot, unless a writer holds the lane.
pub(crate) fn claim<M: Machine>(
    common: &Common<M, M::Event>,
    seat: &mut LaneSeat<M, M::Event>,
    lane: u64,
) -> Result<(), Busy>
    requires table { (seat.old.table_id ≡ common.now.table_id) × (word_index lane < common.now.table_id.words) × (lane < common.now.table_id.slots) × (lane < MOST_LANES) }
    requires idle { (seat.old.me.0.end ≤ seat.old.me.0.start) × (seat.old.me.1 ≡ []) }
    requires lane { seat.old.me.0.role ≡ Lane lane }
    ensures table { seat.new.table_id ≡ seat.old.table_id }
    ensures answer { MatchResult result
        (λ _. (lane_state : LaneState M M.Event) × (log : List (Entry M.Event)) × (seat.new.me ≡ (view_after_claim seat.old.me.0 lane lane 1 log, (lane, Some lane_state) ∷ []))
        × IsTaken M.step seat.old.me.0 log lane lane_state)
        (λ busy. (seat.new.me ≡ (record seat.old.me.0 { turned = seat.old.me.0.turned ++ busy ∷ [] }, []))
        × IsRefusedClaim seat.old.me.0 busy × IsWriterAt lane busy) }
{
    let found = common.compare_exchange::<Claim>(seat, lane as usize * WORDS_A_LANE, 0, 1);
    if found == 0 {
        Ok(())
    } else {
        Err(busy_of(lane, found))
    }
}

// Claims the next lane for a writer; the lane state stays in its slot.
fn claim_next<M: Machine>(
    common: &Common<M, M::Event>,
    seat: &mut LaneSeat<M, M::Event>,
    next: u64,
    lane: u64,
) -> Result<(), Busy>
    requires table { (seat.old.table_id ≡ common.now.table_id) × (word_index next < common.now.table_id.words) × (next < common.now.table_id.slots) × (next < MOST_LANES) × (lane < MOST_LANES) }
    requires holds { IsHolding seat.old.me.0 next (lane + 2) }
    requires role { seat.old.me.0.role ≡ Lane lane }
    ensures table { seat.new.table_id ≡ seat.old.table_id }
    ensures answer { MatchResult result
        (λ _. (lane_state : LaneState M M.Event) × (log : List (Entry M.Event))
        × (seat.new.me ≡ (view_after_claim seat.old.me.0 0 next (lane + 2) log, (next, Some lane_state) ∷ seat.old.me.1)) × IsTaken M.step seat.old.me.0 log next lane_state)
        (λ busy. (seat.new.me ≡ (record seat.old.me.0 { turned = seat.old.me.0.turned ++ busy ∷ [] }, seat.old.me.1))
        × IsRefusedClaim seat.old.me.0 busy) }
{
    let found = common.compare_exchange::<ClaimNext>(
        seat,
        next as usize * WORDS_A_LANE,
        0,
        lane + 2,
    );
    if found == 0 {
        Ok(())
    } else {
        Err(busy_of(next, found))
    }
}

// The refused claim of a lane whose word is not 0.
fn busy_of(lane: u64, word: u64) -> Busy
    requires { word ≢ 0 }
    ensures { result ≡ refused_claim lane word }
{
    let holder = if word == 1 {
        Holder::Reader
    } else {
        Holder::Writer { lane: word - 2 }
    };
    Busy { lane, holder }
}

// Gives back the lane that was claimed last, with a lane state of the same history.
pub(crate) fn give_back<M: Machine>(
    common: &Common<M, M::Event>,
    seat: &mut LaneSeat<M, M::Event>,
    lane: u64,
    lane_state: LaneState<M, M::Event>,
)
    requires table { (seat.old.table_id ≡ common.now.table_id) × (word_index lane < common.now.table_id.words) × (lane < common.now.table_id.slots) × (lane < MOST_LANES) }
    requires out { (old : Option (LaneState M M.Event)) × (seat.old.me.1 ≡ (lane, old) ∷ rest seat.old.me.1) }
    requires range { (seat.old.me.0.start ≤ lane) × (seat.old.me.0.end ≡ lane + 1) }
    requires lane_state { IsLaneState M.step common.now.key.value seat.old.me.0.seen lane lane_state }
    ensures table { seat.new.table_id ≡ seat.old.table_id }
    ensures back { seat.new.me ≡ (view_after_return seat.old.me.0 lane, rest seat.old.me.1) }
{
    drop(common.exchange(seat, lane as usize, Some(lane_state)));
    common.store::<GiveBack>(seat, lane as usize * WORDS_A_LANE, 0);
}

// Gives back the lane that was claimed last, unchanged.
pub(crate) fn hand_back<M: Machine>(
    common: &Common<M, M::Event>,
    seat: &mut LaneSeat<M, M::Event>,
    lane: u64,
)
    requires table { (seat.old.table_id ≡ common.now.table_id) × (word_index lane < common.now.table_id.words) × (lane < common.now.table_id.slots) × (lane < MOST_LANES) }
    requires out { (lane_state : LaneState M M.Event) × (seat.old.me.1 ≡ (lane, Some lane_state) ∷ rest seat.old.me.1) × IsLaneState M.step common.now.key.value seat.old.me.0.seen lane lane_state }
    requires range { (seat.old.me.0.start ≤ lane) × (seat.old.me.0.end ≡ lane + 1) }
    ensures table { seat.new.table_id ≡ seat.old.table_id }
    ensures back { seat.new.me ≡ (view_after_return seat.old.me.0 lane, rest seat.old.me.1) }
{
    common.store::<GiveBack>(seat, lane as usize * WORDS_A_LANE, 0);
}

// Gives back the last lane with a lane state that has one more event, by which the event happens.
pub(crate) fn publish<M: Machine>(
    common: &Common<M, M::Event>,
    seat: &mut LaneSeat<M, M::Event>,
    lane: u64,
    lane_state: LaneState<M, M::Event>,
)
    requires table { (seat.old.table_id ≡ common.now.table_id) × (word_index lane < common.now.table_id.words) × (common.now.table_id.slots ≡ lane + 1) × (lane < MOST_LANES) }
    requires out { (old : Option (LaneState M M.Event)) × (seat.old.me.1 ≡ (lane, old) ∷ rest seat.old.me.1) }
    requires range { (seat.old.me.0.start ≡ 0) × (seat.old.me.0.end ≡ lane + 1) × (seat.old.me.0.passes ≡ []) }
    requires grows { (n : ℕ) × (seat.old.me.0.role ≡ Lane n) × GrowsBy n seat.old.me.0.seen lane_state.history.items }
    requires legal { replay M.step common.now.key.value.machine lane_state.history.items ≡ Some lane_state.machine }
    requires short { length lane_state.history.items ≤ common.now.key.value.limit }
    ensures table { seat.new.table_id ≡ seat.old.table_id }
    ensures back { seat.new.me ≡ (view_after_write seat.old.me.0 lane lane_state.history.items, rest seat.old.me.1) }
{
    drop(common.exchange(seat, lane as usize, Some(lane_state)));
    common.store::<Publish>(seat, lane as usize * WORDS_A_LANE, 0);
}

// Gives back the lanes below this one unchanged, the highest first.
pub(crate) fn give_all_back<M: Machine>(
    common: &Common<M, M::Event>,
    seat: &mut LaneSeat<M, M::Event>,
    lanes: u64,
    _word: u64,
)
    requires table { (seat.old.table_id ≡ common.now.table_id) × (word_index lanes ≤ common.now.table_id.words) × (lanes ≤ common.now.table_id.slots) × (lanes ≤ MOST_LANES) }
    requires holds { IsHolding seat.old.me.0 lanes _word }
    requires lane_states { HaveLaneStates M.step common.now.key.value seat.old.me.0.seen lanes seat.old.me.1 }
    ensures table { seat.new.table_id ≡ seat.old.table_id }
    ensures idle { seat.new.me.0.end ≤ seat.new.me.0.start }
    ensures back { seat.new.me ≡ (view_after_return seat.old.me.0 seat.new.me.0.end, []) }
{
    let mut left = lanes;
    while left > 0 {
        left -= 1;
        common.store::<GiveBack>(seat, left as usize * WORDS_A_LANE, 0);
    }
}

// Claims the lanes below this one in rising order, or gives back those that it claimed.
pub(crate) fn claim_all<M: Machine>(
    common: &Common<M, M::Event>,
    seat: &mut LaneSeat<M, M::Event>,
    lanes: u64,
    lane: u64,
) -> Result<(), Busy>
    requires table { (seat.old.table_id ≡ common.now.table_id) × (word_index lanes ≤ common.now.table_id.words) × (lanes ≤ common.now.table_id.slots) × (lanes ≤ MOST_LANES) × (lane < MOST_LANES) }
    requires idle { (seat.old.me.0.end ≤ seat.old.me.0.start) × (seat.old.me.1 ≡ []) }
    requires role { seat.old.me.0.role ≡ Lane lane }
    requires opened { seat.old.me.0.opened ≡ Some common.now.key.value }
    ensures table { seat.new.table_id ≡ seat.old.table_id }
    ensures answer { MatchResult result
        (λ _. HasClaimed M.step common.now.key.value seat.old.me.0 lanes (lane + 2) seat.new.me)
        (λ busy. IsTurned M.step common.now.key.value seat.old.me.0 busy seat.new.me) }
{
    for next in 0..lanes {
        if let Err(busy) = claim_next(common, seat, next, lane) {
            give_all_back(common, seat, next, lane + 2);
            return Err(busy);
        }
    }
    Ok(())
}

// Takes the lane state of the lane that was claimed last out of its slot.
pub(crate) fn take_lane_state<M: Machine>(
    common: &Common<M, M::Event>,
    seat: &mut LaneSeat<M, M::Event>,
    last: u64,
) -> LaneState<M, M::Event>
    requires table { (seat.old.table_id ≡ common.now.table_id) × (last < common.now.table_id.slots) × (last < MOST_LANES) }
    requires lane_states { HaveLaneStates M.step common.now.key.value seat.old.me.0.seen (last + 1) seat.old.me.1 }
    ensures table { seat.new.table_id ≡ seat.old.table_id }
    ensures back { seat.new.me ≡ (seat.old.me.0, (last, None) ∷ rest seat.old.me.1) }
    ensures lane_state { IsLaneState M.step common.now.key.value seat.old.me.0.seen last result }
    ensures others { HaveLaneStates M.step common.now.key.value seat.old.me.0.seen last (rest seat.old.me.1) }
{
    common.exchange(seat, last as usize, None).unwrap()
}
