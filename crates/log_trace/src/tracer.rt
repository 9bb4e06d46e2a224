//! Playing a log entry by entry.

ghost use Rattle.std.specs.Prelude.{◌<◌, [], IfOk, List, length, take};
ghost use Rattle.cluster.specs.Pasts.{Past};
ghost use Rattle.cluster.specs.continued.Clusters.{LeadsTo};
ghost use Rattle.cluster.specs.continued.Jobs.{Continued};
ghost use Rattle.cluster.specs.continued.Runs.{IsRun};
ghost use Rattle.log_line.specs.declared.entry.LogEntry.{LogEntry as Entry};
ghost use Rattle.reasons.specs.Placed.{Placed};
ghost use Rattle.log_run.specs.Starts.{Begins};
ghost use Rattle.log_trace.specs.Takings.{AreTakings};
ghost use Rattle.log_trace.specs.Tracers.{IsTracedAt, IsTracing};

use crate::breaking::taken_first;
use crate::line::LogLine;
use crate::making::{MadeCall, make_call};
use crate::owners::{foreign_in, not_owner_of};
use crate::takings::Takings;
use crate::unsent::unsent_of;
use cluster::Cluster;
use log_line::{LogEntry, is_worded};
use log_run::{LogMachines, Start};
use reasons::{CallPlaces, GreatestReading};
use std::alloc::{AllocError, Global};

/// Plays a log entry by entry, and tells of each.
#[derive(Drop)]
pub struct LogTracer {
    pub(crate) alloc: Global,
    pub(crate) machines: LogMachines,
    pub(crate) greatest: GreatestReading,
    pub(crate) places: CallPlaces,
}

impl LogTracer {
    /// Creates a tracer before the first entry, from this start.
    ///
    /// Fails if memory runs out, or if no machines stand at the snapshot of the start.
    pub fn new(alloc: Global, start: &Start) -> Result<Self, AllocError>
        ensures { (job : Continued) → Begins job start.now → IfOk result (IsTracing job [] job.earlier []) }
    {
        let skew = start.job.policy().skew();
        let machines = LogMachines::new(alloc, start, false)?;
        let places = CallPlaces::new(alloc, start.job.tasks())?;
        Ok(LogTracer {
            alloc,
            machines,
            greatest: GreatestReading::after(skew, start.table_reading()),
            places,
        })
    }

    /// Returns the machines after the entries so far.
    pub fn cluster(&self) -> &Cluster
        ensures { (job : Continued) (entries : List Entry) (past : Past) (placed : List Placed) → IsTracing job entries past placed self.now
            → LeadsTo job past result.now }
    {
        self.machines.cluster()
    }

    /// States that the calls that were made, with the replies of the machines, are a run.
    pub fn run_law(&self)
        ensures { (job : Continued) (entries : List Entry) (past : Past) (placed : List Placed) → IsTracing job entries past placed self.now
            → IsRun job past }
    {
        self.machines.run_law();
    }

    /// Plays the entry at `index`, which is the next one, and tells of it.
    ///
    /// `entries` are all entries of the log in the order of their tickets: what nothing sent before a
    /// call may be sent by a later one. `takings` are theirs. The only error is out of memory. After it the tracer is not
    /// to be used.
    pub fn next(
        &mut self,
        start: &Start,
        takings: &Takings,
        entries: &[LogEntry],
        index: usize,
    ) -> Result<LogLine, AllocError>
        requires { index < length entries.now }
        ensures { (job : Continued) (past : Past) (placed : List Placed) → Begins job start.now → AreTakings job entries.now takings.now
            → IsTracing job (take index entries.now) past placed self.old
            → IfOk result (λ line. IsTracedAt job entries.now index past placed line self.new) }
    {
        let alloc = self.alloc;
        let entry = &entries[index];
        let call = &entry.line.call;
        let foreign = foreign_in(self.machines.cluster(), call);
        let untimely = self.greatest.untimely(call.reading());
        let place = index as u64 + 1;
        let made = make_call(&mut self.machines, &mut self.places, place, call)?;
        let MadeCall { reply, reason } = made;
        self.greatest.read(call.reading());
        let is_told = is_worded(alloc, entry.line.reply.as_str(), &reply)?;
        let first_taking = taken_first(alloc, start, takings, &entries[..index], call, &reply)?;
        let unsent = unsent_of(alloc, self.machines.cluster(), entries, index, call, &reply)?;
        let not_owner = not_owner_of(foreign, &reply);
        Ok(LogLine {
            index,
            reply,
            is_told,
            reason,
            first_taking,
            unsent,
            untimely,
            not_owner,
        })
    }
}
