//! What the table of a lock, and each seat at it, knows of the lock.

use crate::entry::Entry;
use crate::error::Busy;
use crate::shared_machine::SharedMachine;
use std::collections::LinkedList;

/// What a lock is opened with.
#[derive(Drop)]
pub struct Opened<M> {
    /// The machine before any event.
    pub machine: M,
    /// The number of passes.
    pub lanes: u64,
    /// The greatest number of entries of the history.
    pub limit: usize,
}

/// A machine and, in the last lane, the events that led to it.
///
/// In the other lanes, `history` is empty.
#[derive(Drop)]
pub struct LaneState<M, E> {
    pub machine: SharedMachine<M>,
    pub history: Vec<Entry<E>>,
}

/// The role of a seat at the table; it exists only in proofs.
pub enum Role {
    /// The seat gives out the lanes, from this one on.
    Dealer(u64),
    /// The seat is the pass of this lane.
    Lane(u64),
    /// The seat only knows what it has seen.
    Bare,
}

/// What is known of a pass that the closing lock took in; it exists only in proofs.
pub struct GatheredPass<E> {
    pub lane: u64,
    pub seen: LinkedList<Entry<E>>,
    pub mine: LinkedList<E>,
}

/// What a seat at the table knows; it exists only in proofs.
pub struct SeatView<M, E> {
    /// What the lock was opened with; a spent seat does not know it.
    pub opened: Option<Opened<M>>,
    pub role: Role,
    /// The first of the lanes that the seat holds.
    pub start: u64,
    /// The end of the lanes that the seat holds, which is above the last one.
    pub end: u64,
    /// The word of each lane that the seat holds.
    pub word: u64,
    /// A beginning of the history.
    pub seen: LinkedList<Entry<E>>,
    /// A beginning of the history that another pass had seen.
    pub news: LinkedList<Entry<E>>,
    /// The seat's own events.
    pub mine: LinkedList<E>,
    /// The seat's refused claims.
    pub turned: LinkedList<Busy>,
    /// The passes that the seat took in.
    pub passes: LinkedList<GatheredPass<E>>,
}
