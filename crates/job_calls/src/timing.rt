//! Readings of clocks.

ghost use Rattle.std.specs.Prelude.{◌≡◌};
ghost use Rattle.grants.specs.SliceletCalls.{clock_reading};
ghost use Rattle.grants.specs.TableCalls.{reading_of};
ghost use Rattle.job_calls.specs.Readings.{at_table, at_task, reading};

use crate::call::ClusterCall;
use grants::{SliceletCall, TableCall};

/// The clock that a call reads, and the reading in ticks.
#[derive(Clone, Copy, Debug, PartialEq, Eq)]
pub enum Reading {
    /// A reading of the table's clock.
    TableClock(u64),
    /// A reading of a task's clock.
    TaskClock(u64),
    /// The call reads no clock.
    NoClock,
}

impl Reading {
    /// Returns the reading of a call of the table.
    ///
    /// A restart reads no clock.
    pub fn of_table(call: &TableCall) -> Reading
        ensures { result ≡ at_table (reading_of call.now) }
    {
        match call {
            TableCall::JobTake { at, .. }
            | TableCall::JobRenew { at, .. }
            | TableCall::Propose { at, .. }
            | TableCall::Commit { at, .. }
            | TableCall::Grant { at, .. }
            | TableCall::Free { at, .. } => Reading::TableClock(*at),
            TableCall::Restart => Reading::NoClock,
        }
    }

    /// Returns the reading of a call of a task.
    ///
    /// The begin of a new process reads no clock.
    pub fn of_task(call: &SliceletCall) -> Reading
        ensures { result ≡ at_task (clock_reading call.now) }
    {
        match call.reading() {
            Some(at) => Reading::TaskClock(at),
            None => Reading::NoClock,
        }
    }
}

impl ClusterCall {
    /// Returns the reading of the call: whose clock it reads, and the ticks read.
    pub fn reading(&self) -> Reading
        ensures { result ≡ reading self.now }
    {
        match self {
            ClusterCall::Table(call) => Reading::of_table(call),
            ClusterCall::Task { task: _, call } => Reading::of_task(call),
            ClusterCall::Serve { at, .. }
            | ClusterCall::Hold { at, .. }
            | ClusterCall::Check { at, .. } => Reading::TaskClock(*at),
            _ => Reading::NoClock,
        }
    }
}
