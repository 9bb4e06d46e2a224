//! Handles that callers found broken, and the calls that took their keys away.

ghost use Rattle.std.specs.Prelude.{◌≡◌, ⊤, None, IfOk, MatchOption, OnOk, map};
ghost use Rattle.std.specs.List.{All, Contains};
ghost use Rattle.cluster.specs.Pasts.{Past};
ghost use Rattle.cluster.specs.continued.Clusters.{LeadsTo};
ghost use Rattle.cluster.specs.continued.Jobs.{Continued, job_in};
ghost use Rattle.log_run.specs.Starts.{Begins};
ghost use Rattle.log_trace.specs.Takings.{AreAllWatched, AreTakings, IsWatched, told_broken};
ghost use Rattle.log_trace.specs.declared.breaking.BrokenHandle.{BrokenHandle as Broken};
ghost use Rattle.log_trace.specs.internals.Taking.{first_after, taking_after};

use crate::breaking::{BrokenHandle, broken_by};
use cluster::Cluster;
use log_causes::is_taken_away;
use log_line::{CallerReply, LogEntry, is_worded};
use log_run::{LogMachines, Start, tell};
use replies::Reply;
use std::alloc::{AllocError, Global};

/// A handle that is watched, and the first call that took its key away.
#[derive(Clone, Copy)]
pub struct Taking {
    /// The handle, and the task that is asked.
    pub broken: BrokenHandle,
    /// The index of the first entry after whose call a check of the handle, at the last reading of
    /// the task, would find it broken; `None` if there is none.
    pub first: Option<usize>,
}

/// The handles that callers found broken by a log, and the first calls that took their keys away.
#[derive(Drop)]
pub struct Takings {
    pub(crate) all: Vec<Taking>,
}

// Returns the handle that an entry's caller found broken, by the words of the log.
fn told_broken(alloc: Global, entry: &LogEntry) -> Result<Option<BrokenHandle>, AllocError>
    ensures { IfOk result (λ broken. broken ≡ told_broken entry.now) }
{
    let told = CallerReply::Scripted(Reply::Broken);
    let Some(broken) = broken_by(&entry.line.call, &told) else {
        return Ok(None);
    };
    if is_worded(alloc, entry.line.reply.as_str(), &told)? {
        Ok(Some(broken))
    } else {
        Ok(None)
    }
}

impl Taking {
    // Returns the first taking, once the call of the entry at `index` was played.
    fn first_after(&self, cluster: &Cluster, index: usize) -> Option<usize>
        ensures { (job : Continued) (past : Past) → LeadsTo job past cluster.now
            → result ≡ first_after (job_in job) past index self.now.broken self.now.first }
    {
        if let Some(place) = self.first {
            return Some(place);
        }
        if is_taken_away(cluster, self.broken.task, &self.broken.handle) {
            Some(index)
        } else {
            None
        }
    }

    // Returns the same handle, once the call of the entry at `index` was played.
    fn after(&self, cluster: &Cluster, index: usize) -> Taking
        ensures { (job : Continued) (past : Past) → LeadsTo job past cluster.now
            → result ≡ taking_after (job_in job) past index self.now }
    {
        Taking {
            broken: self.broken,
            first: self.first_after(cluster, index),
        }
    }
}

impl Takings {
    // Adds a handle, if it is not there yet.
    fn add(&mut self, broken: BrokenHandle) -> Result<(), AllocError>
        ensures added { OnOk result (IsWatched self.new.all.items broken) }
        ensures kept { (other : Broken) → IsWatched self.old.all.items other → OnOk result (IsWatched self.new.all.items other) }
        ensures none { All (λ taking. taking.first ≡ None) self.old.all.items
            → OnOk result (All (λ taking. taking.first ≡ None) self.new.all.items) }
    {
        if let Some(_taking) = self.find(&broken) {
            return Ok(());
        }
        self.all.push(Taking {
            broken,
            first: None,
        })?;
        Ok(())
    }

    // Adds the handle that an entry's caller found broken by the words of the log, if there is one.
    fn add_told(&mut self, alloc: Global, entry: &LogEntry) -> Result<(), AllocError>
        ensures told { OnOk result (MatchOption (told_broken entry.now) ⊤ (IsWatched self.new.all.items)) }
        ensures kept { (other : Broken) → IsWatched self.old.all.items other → OnOk result (IsWatched self.new.all.items other) }
        ensures none { All (λ taking. taking.first ≡ None) self.old.all.items
            → OnOk result (All (λ taking. taking.first ≡ None) self.new.all.items) }
    {
        match told_broken(alloc, entry)? {
            Some(broken) => self.add(broken),
            None => Ok(()),
        }
    }

    // Returns the handles that callers found broken by the words of a log, each once.
    fn told(alloc: Global, entries: &[LogEntry]) -> Result<Self, AllocError>
        ensures watched { IfOk result (λ takings. AreAllWatched entries.now takings.all.items) }
        ensures none { IfOk result (λ takings. All (λ taking. taking.first ≡ None) takings.all.items) }
    {
        let mut takings = Takings {
            all: Vec::new(alloc),
        };
        for entry in entries {
            takings.add_told(alloc, entry)?;
        }
        Ok(takings)
    }

    // Records that the call of the entry at `index` was played.
    fn watch(&mut self, cluster: &Cluster, index: usize)
        ensures { (job : Continued) (past : Past) → LeadsTo job past cluster.now
            → self.new.all.items ≡ map (taking_after (job_in job) past index) self.old.all.items }
    {
        for place in 0..self.all.len() {
            self.all[place] = self.all[place].after(cluster, index);
        }
    }

    /// Plays a log once, and returns the handles that callers found broken by its words, each with
    /// the first call that took its key away.
    ///
    /// The machines make each call, whatever its caller got. The only error is out of memory.
    pub fn of(alloc: Global, start: &Start, entries: &[LogEntry]) -> Result<Self, AllocError>
        ensures takings { (job : Continued) → Begins job start.now → IfOk result (AreTakings job entries.now) }
        ensures watched { (job : Continued) → Begins job start.now
            → IfOk result (λ takings. AreAllWatched entries.now takings.all.items) }
    {
        let mut takings = Takings::told(alloc, entries)?;
        if takings.all.is_empty() {
            return Ok(takings);
        }
        let mut machines = LogMachines::new(alloc, start, false)?;
        for index in 0..entries.len() {
            let entry = &entries[index];
            let _told = tell(&mut machines, &entry.line.call)?;
            machines.run_law();
            takings.watch(machines.cluster(), index);
        }
        Ok(takings)
    }

    /// Returns what is known of a handle, if it is one of those that are watched.
    pub fn find(&self, broken: &BrokenHandle) -> Option<Taking>
        ensures { MatchOption result ⊤ (λ taking. Contains self.now.all.items taking × (taking.broken ≡ broken.now)) }
    {
        for taking in &self.all {
            if taking.broken == *broken {
                return Some(*taking);
            }
        }
        None
    }
}
