//! Lines of a log, parsed.

ghost use Rattle.std.specs.Prelude.{◌≡◌, IfOk};
ghost use Rattle.log_line.specs.Calls.{reading_in, with_ranges};

use crate::restored::KeptNumbers;
use assignment::TaskId;
use clocks::Sample;
use grants::Grant;
use job_calls::{ClusterCall, Reading};
use lease_rule::{Kind, Lease};
use slice_ranges::Ranges;
use std::alloc::{AllocError, Global};
use std::marker::Model;

/// The words of the reply that a caller got. Contracts see their bytes.
#[derive(Debug, Drop)]
pub struct Words {
    text: String,
}

impl Model for Words {
    ghost use Rattle.std.specs.Prelude.{List, ℕ, string_bytes};

    ghost Value = { List ℕ };

    ghost view = { λ w. string_bytes w.text };
}

impl Words {
    /// Copies a text.
    pub fn new(alloc: Global, text: &str) -> Result<Self, AllocError>
        ensures { IfOk result (λ words. words ≡ text.now) }
    {
        Ok(Words {
            text: String::from_str(alloc, text)?,
        })
    }

    /// Returns the text.
    pub fn as_str(&self) -> &str
        ensures { result.now ≡ self.now }
    {
        self.text.as_str()
    }
}

/// A grant without the ranges of its lease.
#[derive(Clone, Copy, Debug, PartialEq, Eq)]
pub struct BareGrant {
    /// The number of the grant, among all grants of the table.
    pub number: u64,
    /// The task that the grant is for.
    pub task: TaskId,
    /// The task's life that the grant is for.
    pub life: u32,
    /// The kind of its lease.
    pub kind: Kind,
    /// The generation that its lease was granted for.
    pub generation: u64,
    /// The task's deadline, in ticks.
    pub ends: u64,
    /// The table's deadline, in ticks.
    pub table_ends: u64,
}

/// Returns a grant with these ranges.
pub fn with_ranges(grant: BareGrant, ranges: Ranges) -> Grant
    ensures { result ≡ with_ranges grant ranges }
{
    Grant {
        number: grant.number,
        task: grant.task,
        life: grant.life,
        lease: Lease {
            kind: grant.kind,
            generation: grant.generation,
            ranges,
            ends: grant.ends,
        },
        table_ends: grant.table_ends,
    }
}

/// A sample that a task's clock takes: an answer of the table.
#[derive(Clone, Copy, Debug, PartialEq, Eq)]
pub struct TaskSample {
    /// The task.
    pub task: u64,
    /// The local clock when the request was sent, and the table's reading in the answer, in ticks.
    pub sample: Sample,
    /// The local clock when the answer was taken, in ticks.
    pub now: u64,
}

/// A call as a log records it.
#[derive(Debug, Drop)]
pub enum LoggedCall {
    /// A call with everything that it delivers.
    Whole(ClusterCall),
    /// A task hears a grant without its ranges, at a reading of its clock in ticks.
    HearBare {
        task: u64,
        grant: BareGrant,
        at: u64,
    },
    /// A clerk learns the assignment of this generation, without its slices.
    LearnBare {
        clerk: u64,
        generation: u64,
    },
    /// A table is restored from kept values, of which these are the numbers.
    Restore(KeptNumbers),
    /// A task's clock takes a sample. No machine sees it.
    Sample(TaskSample),
}

impl LoggedCall {
    /// Returns whose clock the call reads, and the reading.
    pub fn reading(&self) -> Reading
        ensures { result ≡ reading_in self.now }
    {
        match self {
            LoggedCall::Whole(call) => call.reading(),
            LoggedCall::HearBare { at, .. } => Reading::TaskClock(*at),
            LoggedCall::LearnBare { .. } => Reading::NoClock,
            LoggedCall::Restore(numbers) => Reading::TableClock(numbers.last),
            LoggedCall::Sample(_) => Reading::NoClock,
        }
    }
}

/// A line of a log: a call, and the reply that its caller got.
#[derive(Debug, Drop)]
pub struct LoggedLine {
    /// The call's ticket: its place among all calls that drew one.
    pub ticket: u64,
    /// The call.
    pub call: LoggedCall,
    /// The reply that the caller got.
    pub reply: Words,
}
