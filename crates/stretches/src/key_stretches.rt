//! The stretches of one task on one key, call by call.

ghost use Rattle.std.specs.Prelude.{◌≡◌, ℕ, ◌<◌, ◌∷◌, List, [], reverse, IfOk, OnOk};
ghost use Rattle.grants.specs.declared.slicelet_call.SliceletCall.{SliceletCall};
ghost use Rattle.grants.specs.declared.slicelet_call.SliceletCall.TheVariants.{Resume};
ghost use Rattle.slicelet.specs.Accepted.{StandsAfter};
ghost use Rattle.stretches.specs.Stretches.{AreStretches, IsKept, IsNext, below, part_below, processes, then_in};
ghost use Rattle.stretches.specs.internals.Adding.{added, goes_on, newest_or};

use crate::stretch::{Stretch, stretch_from};
use slice_ranges::SliceKey;
use slicelet::Slicelet;
use std::alloc::{AllocError, Global};

impl Stretch {
    // Whether another stretch begins where this one ends, under the same lease.
    fn goes_on_with(&self, next: &Stretch) -> bool
        ensures { result ≡ goes_on self.now next.now }
    {
        self.process == next.process && self.to == next.from && self.lease == next.lease
    }
}

impl Stretch {
    // Returns the part below a reading, if there is one.
    fn below(&self, now: u64) -> Option<Stretch>
        ensures { result ≡ part_below now self.now }
    {
        if self.from < now {
            Some(Stretch {
                to: self.to.min(now),
                ..*self
            })
        } else {
            None
        }
    }
}

// Returns the part of a stretch below a reading, if there is one.
fn part(stretch: Option<Stretch>, now: u64) -> Option<Stretch>
    ensures { result ≡ below now stretch }
{
    match stretch {
        Some(stretch) => stretch.below(now),
        None => None,
    }
}

// Adds a stretch: to the last one, where it goes on with that.
fn add(stretches: &mut Vec<Stretch>, stretch: Stretch) -> Result<(), AllocError>
    ensures { OnOk result (reverse stretches.new.items ≡ added stretch (reverse stretches.old.items)) }
{
    match stretches.pop() {
        None => stretches.push(stretch)?,
        Some(last) if last.goes_on_with(&stretch) => stretches.push(Stretch {
            to: stretch.to,
            ..last
        })?,
        Some(last) => {
            stretches.push(last)?;
            stretches.push(stretch)?;
        }
    }
    Ok(())
}

// Adds a stretch, if there is one.
fn add_some(stretches: &mut Vec<Stretch>, stretch: Option<Stretch>) -> Result<(), AllocError>
    ensures { OnOk result (reverse stretches.new.items ≡ newest_or stretch (reverse stretches.old.items)) }
{
    match stretch {
        Some(stretch) => add(stretches, stretch),
        None => Ok(()),
    }
}

/// The stretches of a task on one key, from the calls that are known so far.
#[derive(Drop)]
pub struct KeyStretches {
    pub(crate) key: SliceKey,
    // How many processes of the task ended.
    pub(crate) process: u64,
    // The stretches below the last reading of the process.
    pub(crate) over: Vec<Stretch>,
    // Those from that reading on, if no other call comes: the second begins where the first ends.
    pub(crate) first: Option<Stretch>,
    pub(crate) second: Option<Stretch>,
}

impl KeyStretches {
    /// Returns the stretches of a task before its first call: there are none.
    pub fn new(alloc: Global, key: SliceKey) -> Self
        ensures key { result.key ≡ key }
        ensures kept { IsKept [] result }
    {
        KeyStretches {
            key,
            process: 0,
            over: Vec::new(alloc),
            first: None,
            second: None,
        }
    }

    /// Records that a new process of the task began.
    ///
    /// The only error is out of memory. After it the stretches are not to be used.
    pub fn begin_process(&mut self) -> Result<(), AllocError>
        ensures key { OnOk result (self.new.key ≡ self.old.key) }
        ensures kept { (calls : List SliceletCall) (life : ℕ) → IsKept calls self.old → processes calls < 18446744073709551615
            → OnOk result (IsKept (Resume life ∷ calls) self.new) }
    {
        add_some(&mut self.over, self.first)?;
        add_some(&mut self.over, self.second)?;
        self.process = self.process.saturating_add(1);
        self.first = None;
        self.second = None;
        Ok(())
    }

    /// Records what the task's slicelet knows now, after at most one more call, which began no
    /// process.
    ///
    /// The only error is out of memory. After it the stretches are not to be used.
    pub fn observe(&mut self, slicelet: &Slicelet) -> Result<(), AllocError>
        ensures key { OnOk result (self.new.key ≡ self.old.key) }
        ensures kept { (before after : List SliceletCall) → IsKept before self.old → StandsAfter after slicelet.now
            → IsNext before after → OnOk result (IsKept after self.new) }
    {
        let now = slicelet.last_reading();
        add_some(&mut self.over, part(self.first, now))?;
        add_some(&mut self.over, part(self.second, now))?;
        self.first = stretch_from(slicelet, self.key, self.process, now);
        self.second = self.stretch_after(slicelet, self.first);
        Ok(())
    }

    // Returns the stretch that begins where another one ends, if there is one.
    fn stretch_after(&self, slicelet: &Slicelet, first: Option<Stretch>) -> Option<Stretch>
        ensures { result ≡ then_in slicelet.now self.now.key self.now.process first }
    {
        match first {
            Some(first) => stretch_from(slicelet, self.key, self.process, first.to),
            None => None,
        }
    }

    /// Returns the stretches in their order, if no other call comes.
    pub fn stretches(&self) -> Result<Vec<Stretch>, AllocError>
        ensures { (calls : List SliceletCall) → IsKept calls self.now
            → IfOk result (λ stretches. AreStretches self.now.key calls stretches.items) }
    {
        let mut all = Vec::from_slice(*self.over.allocator(), self.over.as_slice())?;
        add_some(&mut all, self.first)?;
        add_some(&mut all, self.second)?;
        Ok(all)
    }
}
