//! What a pass does while it holds the lane.

ghost use Rattle.std.specs.Prelude.{◌≡◌, ◌⊎◌, ◌+◌, ◌<◌, ◌≤◌, [], Some, MatchResult, IfOk, IfErr};
ghost use Rattle.std.specs.Fn.{CalledAt, TakesAt};
ghost use Rattle.history_lock.specs.Histories.{replay};
ghost use Rattle.history_lock.specs.Rule.{word_index, view_after_return};
ghost use Rattle.history_lock.specs.Passes.{lock_at, pass_view};
ghost use Rattle.history_lock.specs.Answers.{Wrote, Shared, IsTurnedAway, TriedToShare, TriedToMeet, IsWriterAt};
ghost use Rattle.history_lock.specs.internals.Turns.{IsTurn, only_reply};
ghost use Rattle.history_lock.specs.internals.Seats.{IsResting, SeesLegal, IsTable, AreOut, AreCopies};
ghost use Rattle.history_lock.specs.declared.open.TheConstants.{MOST_LANES};

use crate::entry::Entry;
use crate::error::{Busy, WriteError};
use crate::rule::{Common, LaneSeat, Meet, Tell};
use crate::shared_machine::SharedMachine;
use crate::steps::{
    claim, claim_all, give_all_back, give_back, hand_back, publish, take_lane_state,
};
use crate::view::LaneState;
use machines::{Machine, Trouble};
use std::alloc::{AllocError, Global};

// Adds the event that `make` returns to the state of the lane, if the machine takes it, and shares the machine
// with `others` other lanes.
fn take_event<M: Machine, F: FnMut() -> M::Event>(
    alloc: Global,
    lane_state: &mut LaneState<M, M::Event>,
    lane: u64,
    limit: usize,
    others: u64,
    make: &mut F,
) -> Result<(M::Reply, Vec<SharedMachine<M>>), WriteError<M::Event, M::Fault>>
    requires { F.pre make.old }
    ensures turn { IsTurn M.step lane limit (λ event. F.step make.old event make.new) (make.new ≡ make.old) lane_state.old (only_reply result) lane_state.new }
    ensures others { IfOk result (λ r. AreCopies lane_state.new.machine others r.1.items) }
{
    if lane_state.history.len() >= limit {
        return Err(WriteError::HistoryFull);
    }
    lane_state.history.reserve(1)?;
    let mut machine = lane_state.machine.get().copy()?;
    let event = make();
    let reply = match machine.apply(&event) {
        Ok(reply) => reply,
        Err(Trouble::Refused(fault)) => return Err(WriteError::Refused { event, fault }),
        Err(Trouble::NoMemory) => return Err(WriteError::NoMemory),
    };
    let machine = SharedMachine::new(alloc, machine)?;
    let machines = owners(&machine, alloc, others)?;
    lane_state.machine = machine;
    lane_state.history.push_reserved(Entry { lane, event });
    Ok((reply, machines))
}

// `count` more owners of a machine.
fn owners<M: Machine>(
    machine: &SharedMachine<M>,
    alloc: Global,
    count: u64,
) -> Result<Vec<SharedMachine<M>>, AllocError>
    ensures { IfOk result (λ made. AreCopies machine.now count made.items) }
{
    let mut made = Vec::with_capacity(alloc, count as usize)?;
    for done in 0..count {
        let _count = done;
        made.push(machine.share()?)?;
    }
    Ok(made)
}

// Gives back the lanes below this one with new machines, the highest first.
fn spread<M: Machine>(
    alloc: Global,
    common: &Common<M, M::Event>,
    seat: &mut LaneSeat<M, M::Event>,
    mut machines: Vec<SharedMachine<M>>,
    _lanes: u64,
)
    requires table { (seat.old.table_id ≡ common.now.table_id) × (_lanes + 1 ≡ common.now.key.value.lanes) × (word_index _lanes ≤ common.now.table_id.words) × (_lanes ≤ common.now.table_id.slots) × (_lanes ≤ MOST_LANES) }
    requires range { (seat.old.me.0.start ≡ 0) × (seat.old.me.0.end ≡ _lanes) }
    requires out { AreOut _lanes seat.old.me.1 }
    requires machines { (machine : M) × AreCopies machine _lanes machines.items × (replay M.step common.now.key.value.machine seat.old.me.0.seen ≡ Some machine) }
    ensures table { seat.new.table_id ≡ seat.old.table_id }
    ensures back { seat.new.me ≡ (view_after_return seat.old.me.0 0, []) }
{
    while let Some(machine) = machines.pop() {
        let lane = machines.len() as u64;
        let lane_state = LaneState {
            machine,
            history: Vec::new(alloc),
        };
        give_back(common, seat, lane, lane_state);
    }
}

// Makes a write by the pass of a lane, or returns why its claim was refused.
pub(crate) fn write_at<M: Machine, F: FnMut() -> M::Event>(
    common: &Common<M, M::Event>,
    seat: &mut LaneSeat<M, M::Event>,
    lane: u64,
    lanes: u64,
    limit: usize,
    alloc: Global,
    make: &mut F,
) -> Result<Result<M::Reply, WriteError<M::Event, M::Fault>>, Busy>
    requires table { (seat.old.table_id ≡ common.now.table_id) × IsTable common.now.table_id common.now.key.value }
    requires rests { IsResting seat.old.me lane }
    requires legal { SeesLegal M.step seat.old.me.0 }
    requires opened { (seat.old.me.0.opened ≡ Some common.now.key.value) × (common.now.key.value.limit ≡ limit) × (common.now.key.value.lanes ≡ lanes) }
    requires may { F.pre make.old }
    ensures table { seat.new.table_id ≡ seat.old.table_id }
    ensures rests { IsResting seat.new.me lane }
    ensures legal { SeesLegal M.step seat.new.me.0 }
    ensures opened { seat.new.me.0.opened ≡ seat.old.me.0.opened }
    ensures answer { MatchResult result
        (λ answer. Wrote M.step (lock_at common.now.table_id common.now.key.value) (λ event. F.step make.old event make.new) (make.new ≡ make.old)
        (pass_view seat.old.table_id lane seat.old.me.0) answer (pass_view seat.new.table_id lane seat.new.me.0))
        (λ busy. (make.new ≡ make.old)
        × IsTurnedAway (lock_at common.now.table_id common.now.key.value) (pass_view seat.old.table_id lane seat.old.me.0) busy (pass_view seat.new.table_id lane seat.new.me.0)) }
{
    claim_all(common, seat, lanes, lane)?;
    let last = lanes - 1;
    let mut lane_state = take_lane_state(common, seat, last);
    match take_event(alloc, &mut lane_state, lane, limit, last, make) {
        Ok((reply, machines)) => {
            publish(common, seat, last, lane_state);
            spread(alloc, common, seat, machines, last);
            Ok(Ok(reply))
        }
        Err(error) => {
            give_back(common, seat, last, lane_state);
            give_all_back(common, seat, last, lane + 2);
            Ok(Err(error))
        }
    }
}

// Calls `f` once with the machine, or returns why the claim was refused.
pub(crate) fn share_at<M: Machine, T, F: FnMut(&M) -> T>(
    common: &Common<M, M::Event>,
    seat: &mut LaneSeat<M, M::Event>,
    lane: u64,
    f: &mut F,
) -> Result<T, Busy>
    requires table { (seat.old.table_id ≡ common.now.table_id) × IsTable common.now.table_id common.now.key.value }
    requires rests { IsResting seat.old.me lane }
    requires legal { SeesLegal M.step seat.old.me.0 }
    requires opened { seat.old.me.0.opened ≡ Some common.now.key.value }
    requires may { (machine : M) → TakesAt F.FnMut f.old machine }
    ensures table { seat.new.table_id ≡ seat.old.table_id }
    ensures rests { IsResting seat.new.me lane }
    ensures legal { SeesLegal M.step seat.new.me.0 }
    ensures opened { seat.new.me.0.opened ≡ seat.old.me.0.opened }
    ensures answer { TriedToShare M.step (lock_at common.now.table_id common.now.key.value) (λ machine answer. CalledAt F.FnMut f.old machine answer f.new) (f.new ≡ f.old)
        (pass_view seat.old.table_id lane seat.old.me.0) result (pass_view seat.new.table_id lane seat.new.me.0) }
    ensures turned { IfErr result (λ busy. IsWriterAt lane busy) }
{
    claim(common, seat, lane)?;
    let lane_state = seat.slot_mut(common, lane as usize).as_ref().unwrap();
    let answer = f(lane_state.machine.get());
    hand_back(common, seat, lane);
    Ok(answer)
}

// Lets the first pass see all that the second one has seen, unless its claim is refused.
pub(crate) fn meet_at<M: Machine>(
    common: &Common<M, M::Event>,
    first: &mut LaneSeat<M, M::Event>,
    lane: u64,
    second: &mut LaneSeat<M, M::Event>,
    _other: u64,
) -> Result<(), Busy>
    requires table { (first.old.table_id ≡ common.now.table_id) × IsTable common.now.table_id common.now.key.value }
    requires other { second.old.table_id ≡ common.now.table_id }
    requires rests { IsResting first.old.me lane }
    requires legal { SeesLegal M.step first.old.me.0 }
    requires opened { first.old.me.0.opened ≡ Some common.now.key.value }
    ensures table { first.new.table_id ≡ first.old.table_id }
    ensures rests { IsResting first.new.me lane }
    ensures legal { SeesLegal M.step first.new.me.0 }
    ensures opened { first.new.me.0.opened ≡ first.old.me.0.opened }
    ensures other { (second.new.table_id ≡ second.old.table_id) × (second.new.me ≡ second.old.me) }
    ensures answer { TriedToMeet (lock_at common.now.table_id common.now.key.value) (pass_view first.old.table_id lane first.old.me.0) (pass_view second.old.table_id _other second.old.me.0)
        result (pass_view first.new.table_id lane first.new.me.0) }
    ensures turned { IfErr result (λ busy. IsWriterAt lane busy) }
{
    let news = common.split_seat::<Tell>(second);
    common.join_seat::<Meet>(first, news);
    claim(common, first, lane)?;
    hand_back(common, first, lane);
    Ok(())
}
