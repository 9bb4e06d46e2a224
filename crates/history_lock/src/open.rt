//! How a lock is made.

ghost use Rattle.std.specs.Prelude.{◌≡◌, ◌+◌, ◌<◌, ◌≤◌, [], ◌∷◌, true, Some, IfOk, OnOk, IfErr, if◌then◌else◌, vec_len, vec_capacity};
ghost use Rattle.history_lock.specs.declared.error.NewLockError.TheVariants as new_lock_error;
ghost use Rattle.history_lock.specs.Passes.{lock_at, new_pass, AreNewFrom, is_allowed};
ghost use Rattle.history_lock.specs.Rule.{word_index};
ghost use Rattle.history_lock.specs.internals.Views.{first_view};
ghost use Rattle.history_lock.specs.internals.Seats.{IsDealing, IsBlank};

use crate::error::NewLockError;
use crate::pass::{LaneLock, Pass};
use crate::rule::{Common, Deal, LaneSeat, LaneTable, WORDS_A_LANE};
use crate::shared_machine::SharedMachine;
use crate::view::{LaneState, Opened};
use crate::waiting::Writers;
use atomic_table::{Refused, Table};
use machines::Machine;
use std::alloc::{AllocError, Global};
use std::snapshot::Snapshot;

/// The greatest number of lanes of a lock.
pub const MOST_LANES: u64 = 8;

/// The greatest number of entries that the limit of a history may allow.
pub const MOST_ENTRIES: usize = 65_536;

impl<M: Machine> LaneLock<M> {
    /// Creates a lock around a machine, and a pass for each of its lanes, lane 0 first.
    ///
    /// The history takes at most `limit` entries.
    ///
    /// Errors, in this order: [`NewLockError::Lanes`], if `lanes` is not 1 to 8 or `limit` is not 1
    /// to 65,536; out of memory. On an error, the machine is dropped.
    pub fn new(
        alloc: Global,
        machine: M,
        lanes: u64,
        limit: usize,
    ) -> Result<(LaneLock<M>, Vec<Pass<M>>), NewLockError>
        ensures opened { IfOk result (λ made. (made.0.opened ≡ record { machine = machine; lanes = lanes; limit = limit })
            × (vec_len made.1 ≡ lanes) × AreNewFrom 0 made.0 made.1.items) }
        ensures accepted { OnOk result (is_allowed lanes limit ≡ true) }
        ensures refused { IfErr result (λ e. e ≡ (if is_allowed lanes limit then new_lock_error.NoMemory else new_lock_error.Lanes)) }
    {
        if are_allowed(lanes, limit) {
            open(alloc, machine, lanes, limit).map_err(|_| NewLockError::NoMemory)
        } else {
            Err(NewLockError::Lanes)
        }
    }

    /// Creates a lock around a copy of a machine, and a pass for each of its lanes, lane 0 first.
    ///
    /// A machine whose lock is closed, for instance because its history was full, goes on under a
    /// lock that is created over it. The new history is legal from the machine as it is now, and
    /// takes at most `limit` entries.
    ///
    /// Errors are those of [`new`](Self::new), in its order. The machine is unchanged.
    pub fn over(
        alloc: Global,
        machine: &M,
        lanes: u64,
        limit: usize,
    ) -> Result<(LaneLock<M>, Vec<Pass<M>>), NewLockError>
        ensures opened { IfOk result (λ made. (made.0.opened ≡ record { machine = machine.now; lanes = lanes; limit = limit })
            × (vec_len made.1 ≡ lanes) × AreNewFrom 0 made.0 made.1.items) }
        ensures accepted { OnOk result (is_allowed lanes limit ≡ true) }
        ensures refused { IfErr result (λ e. e ≡ (if is_allowed lanes limit then new_lock_error.NoMemory else new_lock_error.Lanes)) }
    {
        if !are_allowed(lanes, limit) {
            return Err(NewLockError::Lanes);
        }
        match machine.copy() {
            Ok(machine) => LaneLock::new(alloc, machine, lanes, limit),
            Err(_) => Err(NewLockError::NoMemory),
        }
    }
}

// Whether a lock may have this many lanes, and a history of this many entries.
fn are_allowed(lanes: u64, limit: usize) -> bool
    ensures { result ≡ is_allowed lanes limit }
{
    (0 < lanes && lanes <= MOST_LANES) && (0 < limit && limit <= MOST_ENTRIES)
}

// The lock and its passes.
fn open<M: Machine>(
    alloc: Global,
    machine: M,
    lanes: u64,
    limit: usize,
) -> Result<(LaneLock<M>, Vec<Pass<M>>), AllocError>
    requires { is_allowed lanes limit ≡ true }
    ensures { IfOk result (λ made. (made.0.opened ≡ record { machine = machine; lanes = lanes; limit = limit })
        × (vec_len made.1 ≡ lanes) × AreNewFrom 0 made.0 made.1.items) }
{
    let opened = Opened {
        machine,
        lanes,
        limit,
    };
    let (lane_table, mut dealer) = new_table(alloc, opened)?;
    let passes = deal(alloc, &lane_table.shared, &mut dealer, lanes)?;
    let lock = LaneLock {
        lane_table,
        lanes,
        limit,
        alloc,
        writers: Writers::none(),
    };
    Ok((lock, passes))
}

// The table with a cache line of words and a lane state for each lane, and the seat that deals the lanes.
fn new_table<M: Machine>(
    alloc: Global,
    opened: Opened<M>,
) -> Result<(LaneTable<M, M::Event>, LaneSeat<M, M::Event>), AllocError>
    requires { (0 < opened.lanes) × (opened.lanes ≤ MOST_LANES) }
    ensures { IfOk result (λ t. (t.0.shared.table_id.words ≡ word_index opened.lanes) × (t.0.shared.table_id.slots ≡ opened.lanes)
        × (t.1.table_id ≡ t.0.shared.table_id) × (t.0.shared.key.value ≡ opened) × (t.1.me ≡ (first_view opened, []))) }
{
    let key = Snapshot::of(&opened);
    let Opened {
        machine,
        lanes,
        limit: _,
    } = opened;
    let words = vec![in alloc; 0; lanes as usize * WORDS_A_LANE]?;
    let slots = blank(alloc, machine, lanes)?;
    match Table::new(alloc, words.as_slice(), slots, &key) {
        Ok(made) => Ok(made),
        Err(Refused { slots: _ }) => Err(AllocError),
    }
}

// The state of each lane.
fn blank<M: Machine>(
    alloc: Global,
    machine: M,
    lanes: u64,
) -> Result<Vec<Option<LaneState<M, M::Event>>>, AllocError>
    requires { (0 < lanes) × (lanes ≤ MOST_LANES) }
    ensures { IfOk result (λ made. IsBlank machine lanes made.items) }
{
    let shared = SharedMachine::new(alloc, machine)?;
    let mut slots = Vec::new(alloc);
    for done in 1..lanes {
        let _count = done;
        slots.push(Some(LaneState {
            machine: shared.share()?,
            history: Vec::new(alloc),
        }))?;
    }
    slots.push(Some(LaneState {
        machine: shared,
        history: Vec::new(alloc),
    }))?;
    Ok(slots)
}

// The passes of all lanes.
fn deal<M: Machine>(
    alloc: Global,
    common: &Common<M, M::Event>,
    dealer: &mut LaneSeat<M, M::Event>,
    lanes: u64,
) -> Result<Vec<Pass<M>>, AllocError>
    requires table { (dealer.old.table_id ≡ common.now.table_id) × (0 < common.now.table_id.words) }
    requires first { dealer.old.me ≡ (first_view common.now.key.value, []) }
    requires few { (lanes ≤ MOST_LANES) × (lanes ≡ common.now.key.value.lanes) }
    ensures { IfOk result (λ passes. (vec_len passes ≡ lanes)
        × AreNewFrom 0 (lock_at common.now.table_id common.now.key.value) passes.items) }
{
    let mut passes = Vec::new(alloc);
    for lane in 0..lanes {
        passes.reserve(1)?;
        passes.push_reserved(deal_one(common, dealer, lane));
    }
    Ok(passes)
}

// The pass of the next lane.
fn deal_one<M: Machine>(
    common: &Common<M, M::Event>,
    dealer: &mut LaneSeat<M, M::Event>,
    lane: u64,
) -> Pass<M>
    requires table { (dealer.old.table_id ≡ common.now.table_id) × (0 < common.now.table_id.words) }
    requires dealer { IsDealing dealer.old.me common.now.key.value lane }
    requires few { (lane < MOST_LANES) × (lane < common.now.key.value.lanes) }
    ensures table { dealer.new.table_id ≡ dealer.old.table_id }
    ensures dealer { IsDealing dealer.new.me common.now.key.value (lane + 1) }
    ensures pass { result ≡ new_pass (lock_at common.now.table_id common.now.key.value) lane }
{
    let seat = common.split_seat::<Deal>(dealer);
    Pass { seat, lane }
}
