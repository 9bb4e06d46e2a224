//! The types of the lock and its passes.

ghost use Rattle.std.specs.Prelude.{◌≡◌};

use crate::rule::{LaneSeat, LaneTable};
use crate::waiting::Writers;
use machines::Machine;
use std::alloc::Global;
use std::marker::Model;

/// A lock around a machine that keeps the history of the events that the machine took.
///
/// Contracts see which lock it is, and with which machine, number of passes and limit of the
/// history it was opened.
#[derive(Drop)]
pub struct LaneLock<M: Machine> {
    pub(crate) lane_table: LaneTable<M, M::Event>,
    pub(crate) lanes: u64,
    pub(crate) limit: usize,
    pub(crate) alloc: Global,
    pub(crate) writers: Writers,
}

impl<M: Machine> Model for LaneLock<M> {
    ghost use Rattle.history_lock.specs.Passes.{Lock, lock_at};
    ghost use Rattle.history_lock.specs.internals.Seats.{IsOfLanes};

    ghost Value = { Lock M };

    ghost view = { λ l. lock_at l.lane_table.shared.table_id l.lane_table.shared.key.value };

    ghost invariant = { λ l. IsOfLanes l.lane_table.shared.table_id l.lane_table.shared.key.value l.lanes l.limit };
}

/// A pass: the right to call a lock as one of its lanes.
///
/// Contracts see what the pass has seen of the history, its own events, and its refused claims.
/// None of them exists when the program runs.
#[derive(Drop)]
pub struct Pass<M: Machine> {
    pub(crate) seat: LaneSeat<M, M::Event>,
    pub(crate) lane: u64,
}

impl<M: Machine> Model for Pass<M> {
    ghost use Rattle.history_lock.specs.Passes.{PassView, pass_view};
    ghost use Rattle.history_lock.specs.internals.Seats.{IsResting, SeesLegal};

    ghost Value = { PassView M M.Event };

    ghost view = { λ p. pass_view p.seat.table_id p.lane p.seat.me.0 };

    ghost invariant = { λ p. IsResting p.seat.me p.lane × SeesLegal M.step p.seat.me.0 };
}

impl<M: Machine> Pass<M> {
    /// Returns the lane of the pass, from 0 on.
    pub fn lane(&self) -> u64
        ensures { result ≡ self.now.lane }
    {
        self.lane
    }
}
