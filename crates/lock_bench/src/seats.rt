//! How a thread reads and writes.

use crate::table::TERM;
use grants::{Phase, TableCall};
use history_lock::{LaneLock, Pass};
use lease_table::{LeaseTable, TableEvent};
use machines::Event;
use std::marker::Model;
use std::sync::{Mutex, RwLock, Wait};

/// The lock of a run.
#[derive(Clone, Copy, Debug)]
pub(crate) enum Kind {
    /// The lock that keeps the history, with a lane for each thread.
    Lanes,
    /// The kit's `RwLock`.
    ReadWrite,
    /// The kit's `Mutex`.
    Mutex,
}

/// A lane of the lock that keeps the history.
#[derive(Drop)]
pub(crate) struct LaneSeat<'a> {
    pub(crate) lock: &'a LaneLock<LeaseTable>,
    pub(crate) pass: Pass<LeaseTable>,
}

impl<'a> Model for LaneSeat<'a> {
    ghost use Rattle.history_lock.specs.Passes.{PassView, IsPassOf};
    ghost use Rattle.lease_table.specs.Tables.{Standing};
    ghost use Rattle.machines.specs.declared.event.Event.{Event};
    ghost use Rattle.grants.specs.declared.table_call.TableCall.{TableCall};

    ghost Value = { PassView Standing (Event TableCall) };

    ghost view = { λ s. s.pass };

    ghost invariant = { λ s. IsPassOf s.lock.now s.pass };
}

/// A thread's access to a lock.
#[derive(Drop)]
pub(crate) enum Seat<'a> {
    Lanes(LaneSeat<'a>),
    ReadWrite(&'a RwLock<LeaseTable>),
    Mutex(&'a Mutex<LeaseTable>),
}

impl Seat<'_> {
    /// Returns the committed generation.
    pub(crate) fn read<R: Wait>(&mut self, rt: &R) -> u64 {
        match self {
            Seat::Lanes(seat) => seat.lock.shared(rt, &mut seat.pass, &mut committed),
            Seat::ReadWrite(lock) => committed(&lock.read(rt)),
            Seat::Mutex(lock) => committed(&lock.lock(rt)),
        }
    }

    /// Renews the job lease, and returns whether the table accepted it.
    pub(crate) fn write<R: Wait>(&mut self, rt: &R, at: u64) -> bool {
        match self {
            Seat::Lanes(seat) => seat
                .lock
                .write(rt, &mut seat.pass, &mut || renewal(at))
                .is_ok(),
            Seat::ReadWrite(lock) => lock.write(rt).job_renew(TERM, at).is_ok(),
            Seat::Mutex(lock) => lock.lock(rt).job_renew(TERM, at).is_ok(),
        }
    }
}

fn committed(table: &LeaseTable) -> u64 {
    match table.phase() {
        Phase::Steady(generation) | Phase::Bridging(generation, _) => generation,
    }
}

fn renewal(at: u64) -> TableEvent {
    Event {
        ticket: at,
        call: TableCall::JobRenew { number: TERM, at },
    }
}
