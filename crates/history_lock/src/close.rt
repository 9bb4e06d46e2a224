//! How a lock is closed.

ghost use Rattle.std.specs.Prelude.{◌≡◌, ◌⊎◌, ℕ, ◌<◌, [], ◌∷◌, true, false, IfOk, OnOk, IfErr, MatchBool, map};
ghost use Rattle.history_lock.specs.Passes.{ArePassesOf};
ghost use Rattle.history_lock.specs.internals.Seats.{IsTaking};
ghost use Rattle.history_lock.specs.Closing.{has_lane, IsWhole};
ghost use Rattle.history_lock.specs.internals.Gathering.{AreAt, IsGathered, IsEnd, gathered_pass, gathered_pass_of};

use crate::entry::{History, history_of};
use crate::pass::{LaneLock, Pass};
use crate::rule::{Common, Gather, LaneSeat, LaneTable};
use crate::shared_machine::SharedMachine;
use crate::view::LaneState;
use machines::Machine;
use std::alloc::AllocError;
use std::marker::Model;

/// The machine and the history that a closed lock leaves.
#[derive(Drop)]
pub struct Closed<M: Machine> {
    /// The machine after all events of the history.
    pub machine: SharedMachine<M>,
    /// The history, which is legal from the machine that the lock was opened with.
    pub history: History<M::Event>,
}

impl<M: Machine> Closed<M> {
    /// Returns a copy that equals this value and shares the machine. The only error is out of
    /// memory.
    pub fn copy(&self) -> Result<Self, AllocError>
        ensures { IfOk result (λ copied. copied ≡ self.now) }
    {
        Ok(Closed {
            machine: self.machine.share()?,
            history: history_of::<M>(&self.history)?,
        })
    }
}

/// The error of a close that lacks the pass of some lane; it holds the lock and the passes.
#[derive(Drop)]
pub struct PassesMissing<M: Machine> {
    lock: LaneLock<M>,
    passes: Vec<Pass<M>>,
}

impl<M: Machine> Model for PassesMissing<M> {
    ghost use Rattle.history_lock.specs.Passes.{LockAndPasses};

    ghost Value = { LockAndPasses M M.Event };

    ghost view = { λ p. record { lock = p.lock; passes = p.passes.items } };
}

impl<M: Machine> PassesMissing<M> {
    /// Returns the lock, and the passes that were to close it, unchanged.
    pub fn into_parts(self) -> (LaneLock<M>, Vec<Pass<M>>)
        ensures { (result.0 ≡ self.lock) × (result.1.items ≡ self.passes) }
    {
        let PassesMissing { lock, passes } = self;
        (lock, passes)
    }
}

impl<M: Machine> LaneLock<M> {
    /// Closes the lock and returns its machine and history, if the passes of all lanes are given.
    ///
    /// The only error is [`PassesMissing`], which returns the lock and the passes unchanged.
    pub fn close(self, passes: Vec<Pass<M>>) -> Result<Closed<M>, PassesMissing<M>>
        requires { ArePassesOf self passes.items }
        ensures closed { IfOk result (λ closed. IsWhole M.step self passes.items closed.machine closed.history) }
        ensures accepted { OnOk result ((lane : ℕ) → lane < self.opened.lanes → has_lane lane passes.items ≡ true) }
        ensures missing { IfErr result (λ back. (back ≡ record { lock = self; passes = passes.items })
            × ((lane : ℕ) × (lane < self.opened.lanes) × (has_lane lane passes.items ≡ false))) }
    {
        if has_all(passes.as_slice(), self.lanes) {
            Ok(self.finish(passes))
        } else {
            Err(PassesMissing { lock: self, passes })
        }
    }

    // Joins all passes into the last one, and closes the table.
    fn finish(self, mut passes: Vec<Pass<M>>) -> Closed<M>
        requires own { ArePassesOf self passes.items }
        requires all { (lane : ℕ) → lane < self.opened.lanes → has_lane lane passes.items ≡ true }
        ensures { IsWhole M.step self passes.items result.machine result.history }
    {
        let LaneLock {
            lane_table,
            lanes: _,
            limit: _,
            alloc: _,
            writers: _,
        } = self;
        let Pass { mut seat, lane } = passes.pop().unwrap();
        take_in(&lane_table.shared, &mut seat, lane, passes);
        let lane_state = close_table(lane_table, seat, lane);
        Closed {
            machine: lane_state.machine,
            history: History::of(lane_state.history),
        }
    }
}

// Whether there is a pass of each lane below `lanes`.
fn has_all<M: Machine>(passes: &[Pass<M>], lanes: u64) -> bool
    ensures { MatchBool result ((lane : ℕ) → lane < lanes → has_lane lane passes.now ≡ true)
        ((lane : ℕ) × (lane < lanes) × (has_lane lane passes.now ≡ false)) }
{
    for lane in 0..lanes {
        if !has_pass(passes, lane) {
            return false;
        }
    }
    true
}

// Whether there is a pass of this lane.
fn has_pass<M: Machine>(passes: &[Pass<M>], lane: u64) -> bool
    ensures { result ≡ has_lane lane passes.now }
{
    passes.iter().any(|pass| pass.lane() == lane)
}

// Joins all passes.
fn take_in<M: Machine>(
    common: &Common<M, M::Event>,
    seat: &mut LaneSeat<M, M::Event>,
    lane: u64,
    mut passes: Vec<Pass<M>>,
)
    requires table { (seat.old.table_id ≡ common.now.table_id) × (0 < common.now.table_id.words) }
    requires own { AreAt common.now.table_id passes.items }
    requires seat { IsTaking seat.old.me lane [] }
    ensures table { seat.new.table_id ≡ seat.old.table_id }
    ensures taken { IsTaking seat.new.me lane (map gathered_pass_of passes.items) }
    ensures same { (seat.new.me.0.seen ≡ seat.old.me.0.seen) × (seat.new.me.0.mine ≡ seat.old.me.0.mine) }
{
    while let Some(pass) = passes.pop() {
        take_one(common, seat, lane, pass);
    }
}

// Joins one pass.
fn take_one<M: Machine>(
    common: &Common<M, M::Event>,
    seat: &mut LaneSeat<M, M::Event>,
    _lane: u64,
    pass: Pass<M>,
)
    requires table { (seat.old.table_id ≡ common.now.table_id) × (0 < common.now.table_id.words) × (pass.table ≡ common.now.table_id) }
    requires seat { IsTaking seat.old.me _lane seat.old.me.0.passes }
    ensures table { seat.new.table_id ≡ seat.old.table_id }
    ensures taken { IsTaking seat.new.me _lane (gathered_pass_of pass ∷ seat.old.me.0.passes) }
    ensures same { (seat.new.me.0.seen ≡ seat.old.me.0.seen) × (seat.new.me.0.mine ≡ seat.old.me.0.mine) }
{
    let Pass {
        seat: other,
        lane: _,
    } = pass;
    common.join_seat::<Gather>(seat, other);
}

// The state of the last lane, if no seat but this one holds a lane.
fn close_table<M: Machine>(
    lane_table: LaneTable<M, M::Event>,
    seat: LaneSeat<M, M::Event>,
    _lane: u64,
) -> LaneState<M, M::Event>
    requires table { (seat.table_id ≡ lane_table.shared.table_id) × (lane_table.shared.table_id.slots ≡ lane_table.shared.key.value.lanes) × (0 < lane_table.shared.key.value.lanes) }
    requires seat { IsTaking seat.me _lane seat.me.0.passes }
    requires all { (n : ℕ) → n < lane_table.shared.key.value.lanes → (n ≡ _lane) ⊎ IsGathered n seat.me.0.passes }
    ensures { IsEnd M.step lane_table.shared.key.value (gathered_pass _lane seat.me.0.seen seat.me.0.mine ∷ seat.me.0.passes) result }
{
    let mut closed = lane_table.close_with(seat);
    let mut lane_state = None;
    let mut lane = 0;
    while lane < closed.slot_count() {
        lane_state = closed.take(lane);
        lane += 1;
    }
    closed.free();
    lane_state.unwrap()
}
