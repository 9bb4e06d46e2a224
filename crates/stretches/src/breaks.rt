//! When handles break.

ghost use Rattle.std.specs.Prelude.{◌≡◌, ◌≤◌, ◌<◌, ◌∷◌, ◌++◌, ℕ, List, [], OnErr, OnOk, map, nat_lt};
ghost use Rattle.grants.specs.declared.slicelet_call.SliceletCall.{SliceletCall};
ghost use Rattle.grants.specs.declared.slicelet_call.SliceletCall.TheVariants.{Resume};
ghost use Rattle.slicelet.specs.Accepted.{StandsAfter};
ghost use Rattle.slicelet.specs.Calls.{last_reading};
ghost use Rattle.slicelet.specs.Rules.{covers_key};
ghost use Rattle.slicelet.specs.States.{holding_in, permits};
ghost use Rattle.stretches.specs.internals.Ends.{allowed_to};
ghost use Rattle.stretches.specs.Stretches.{IsNext, processes};
ghost use Rattle.stretches.specs.Breaks.{AreBreaks, IsBreakOf, IsFirstWithout, is_found_in, named};

use key_handle::KeyHandle;
use lease_rule::Verdict;
use slice_ranges::SliceKey;
use slicelet::Slicelet;
use std::alloc::{AllocError, Global};

/// A handle that a process of a task gave.
#[derive(Clone, Copy, Debug, PartialEq, Eq)]
pub struct GivenHandle {
    /// Its number among all that were given.
    pub number: u64,
    /// How many processes of the task ended before this one began.
    pub process: u64,
    pub handle: KeyHandle,
    /// The reading at which it was given, in ticks of the task's clock.
    pub from: u64,
    /// The first reading from there on at which a check would find it broken.
    pub breaks: u64,
}

// Returns the end of the lease under which the task may serve the key; `at` itself if there is
// none.
fn lease_end(slicelet: &Slicelet, key: SliceKey, at: u64) -> u64
    ensures { result ≡ allowed_to (holding_in (covers_key key) slicelet.now) at }
{
    match slicelet.serve(key, at) {
        Verdict::Allow { kind, .. } => match slicelet.held(kind) {
            Some(lease) => lease.ends,
            None => at,
        },
        Verdict::Deny(_) => at,
    }
}

// Returns the first reading from `from` on at which the task may not serve the key.
fn serving_end(slicelet: &Slicelet, key: SliceKey, from: u64) -> u64
    ensures { slicelet.now.last ≤ from → (at : ℕ) → from ≤ at
        → nat_lt at result ≡ permits slicelet.now key at }
{
    let first = lease_end(slicelet, key, from);
    lease_end(slicelet, key, first)
}

// Returns the first reading from `from` on at which a check finds the handle broken.
fn break_from(slicelet: &Slicelet, handle: &KeyHandle, from: u64) -> u64
    ensures { slicelet.now.last ≤ from → IsFirstWithout (is_found_in slicelet.now handle.now) from result }
{
    match slicelet.continuous(handle, from) {
        Ok(true) => serving_end(slicelet, handle.key, from).max(from),
        Ok(false) | Err(_) => from,
    }
}

impl GivenHandle {
    // Returns the handle with when it breaks, after at most one more call of the process.
    fn after(self, slicelet: &Slicelet, process: u64) -> GivenHandle
        ensures named { named result ≡ named self }
        ensures breaks { (before after : List SliceletCall) → IsBreakOf slicelet.now.task before self
            → process ≡ processes before → StandsAfter after slicelet.now → IsNext before after
            → IsBreakOf slicelet.now.task after result }
    {
        if self.process != process {
            return self;
        }
        let now = slicelet.last_reading();
        if self.breaks < now {
            return self;
        }
        let breaks = break_from(slicelet, &self.handle, now.max(self.from));
        GivenHandle { breaks, ..self }
    }
}

/// The handles that a task gave, and when each breaks, from the calls that are known so far.
#[derive(Drop)]
pub struct TaskHandles {
    // How many processes of the task ended.
    pub(crate) process: u64,
    pub(crate) handles: Vec<GivenHandle>,
}

impl TaskHandles {
    /// Returns the handles of a task before its first call: there are none.
    pub fn new(alloc: Global) -> Self
        ensures none { result.handles.items ≡ [] }
        ensures kept { (task : ℕ) → AreBreaks task [] result }
    {
        TaskHandles {
            process: 0,
            handles: Vec::new(alloc),
        }
    }

    /// Returns the handles in the order in which they were given, with when each breaks if no
    /// other call comes.
    pub fn handles(&self) -> &[GivenHandle]
        ensures { result.now ≡ self.now.handles.items }
    {
        self.handles.as_slice()
    }

    /// Records a handle that the task gave at the reading `at`, in ticks of its clock.
    ///
    /// The only error is out of memory. It leaves the handles unchanged.
    pub fn give(
        &mut self,
        slicelet: &Slicelet,
        number: u64,
        handle: KeyHandle,
        at: u64,
    ) -> Result<(), AllocError>
        ensures named { OnOk result (map named self.new.handles.items ≡ map named self.old.handles.items
            ++ record { number = number; process = self.old.process; handle = handle; from = at; breaks = 0 } ∷ []) }
        ensures kept { (calls : List SliceletCall) → AreBreaks slicelet.now.task calls self.old → StandsAfter calls slicelet.now
            → slicelet.now.last ≤ at → OnOk result (AreBreaks slicelet.now.task calls self.new) }
        ensures unchanged { OnErr result (self.new.handles.items ≡ self.old.handles.items) }
    {
        let breaks = break_from(slicelet, &handle, at);
        self.handles.push(GivenHandle {
            number,
            process: self.process,
            handle,
            from: at,
            breaks,
        })?;
        Ok(())
    }

    /// Records that a new process of the task began: the handles of earlier ones break no later
    /// than is known.
    pub fn begin_process(&mut self)
        ensures same { self.new.handles.items ≡ self.old.handles.items }
        ensures kept { (task : ℕ) (calls : List SliceletCall) (life : ℕ) → AreBreaks task calls self.old
            → processes calls < 18446744073709551615 → AreBreaks task (Resume life ∷ calls) self.new }
    {
        self.process = self.process.saturating_add(1);
    }

    /// Records what the task's slicelet knows now, after at most one more call, which began no
    /// process.
    pub fn observe(&mut self, slicelet: &Slicelet)
        ensures named { map named self.new.handles.items ≡ map named self.old.handles.items }
        ensures kept { (before after : List SliceletCall) → AreBreaks slicelet.now.task before self.old
            → StandsAfter after slicelet.now → IsNext before after → AreBreaks slicelet.now.task after self.new }
    {
        for place in 0..self.handles.len() {
            let given = self.handles[place];
            self.handles[place] = given.after(slicelet, self.process);
        }
    }
}
