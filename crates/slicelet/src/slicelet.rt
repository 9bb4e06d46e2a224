//! Slicelets.

ghost use Rattle.std.specs.Prelude.{◌≡◌, ◌+◌, ◌-◌, ◌^◌, ◌<◌, ◌≤◌, ◌∷◌, ℕ, List, None, option_map, IfOk, OnOk};
ghost use Rattle.std.specs.Result.{result_err};
ghost use Rattle.machines.specs.Refusals.{first_of};
ghost use Rattle.machines.specs.Answers.{Answers, Takes};
ghost use Rattle.grants.specs.declared.slicelet_call.SliceletCall.{SliceletCall};
ghost use Rattle.grants.specs.declared.slicelet_call.SliceletCall.TheVariants as call;
ghost use Rattle.slicelet.specs.declared.slicelet.TheConstants.{CALLS};
ghost use Rattle.slice_ranges.specs.Sets.{has};
ghost use Rattle.slicelet.specs.Calls.{life_of, count_of};
ghost use Rattle.slicelet.specs.Rules.{rule_after, covers_key};
ghost use Rattle.slicelet.specs.States.{opening, resumed, held_in, held_lease, greatest_in, rule_in_state, permits, covering_in, newest_covering};
ghost use Rattle.slicelet.specs.Steps.{not_started, clock_back, history_full, number_of, start_checks, hear_checks, release_checks, resume_checks, start_step, hear_step, release_step, resume_step};
ghost use Rattle.slicelet.specs.Accepted.{AreAccepted, StandsAfter};
ghost use Rattle.slicelet.specs.Continuity.{handle_on, held_by, is_strange, is_kept, checked_in, IsChecked};
ghost use Rattle.slicelet.specs.internals.State.{leases_of, with_lease};
ghost use Rattle.slicelet.specs.internals.Stamping.{IsRestamped};

use crate::heard::{
    HeardGrants, HeldLease, held_as, holds, live_keys_with, no_leases, put_lease, renews,
};
use crate::life_stamps::{copy_of, key_law, put_stamps, restamp, still};
use assignment::TaskId;
use grants::{EndedNotes, Grant, ReleaseNote, SliceletError, Stranger};
use key_handle::{KeyHandle, Stamped};
use lease_rule::{
    Ground, Holding, Kind, Lease, Verdict, covering_generation, greatest, permitted, verdict,
    verdict_and_newest,
};
use machines::Trouble;
use slice_ranges::{Ranges, SliceKey};
use std::alloc::{AllocError, Global};
use std::marker::Model;

/// The greatest number of calls that a slicelet accepts in one process, over all lives of its task.
pub const CALLS: u64 = 65_536;

/// A slicelet: the leases that one server task has heard of, which decide the keys it may serve.
///
/// A slicelet hears the grants of the lease table, decides by the written rule whether its task may
/// serve a key, and checks handles. Readings are in ticks of the task's clock. Contracts see its
/// state (`SliceletState`), and its replies depend on nothing else.
///
/// Memory grows with the ranges of the held leases and with the levels of the stamps. A stamp says
/// since which call a key has been permitted, and a level is a run of keys with the same stamp.
/// Levels can grow with accepted calls: a held range whose edges move at each generation leaves a
/// level for each, up to some 16,000 levels. A `hear` or `release` that may change the permitted
/// keys walks the ranges and all levels; any other walks the ranges only. `serve` and `hold`
/// search the ranges, and `continuous` the levels too. A new life starts without levels.
#[derive(Drop)]
pub struct Slicelet {
    alloc: Global,
    task: TaskId,
    count: u64,
    life: u32,
    // The greatest life of earlier processes of the task.
    resumed: u32,
    holding: Holding,
    heard: HeardGrants,
    // `None` if no call of this life made stamps.
    stamps: Option<Stamped>,
}

impl Model for Slicelet {
    ghost use Rattle.slicelet.specs.States.{SliceletState};

    ghost Value = { SliceletState };

    ghost use Rattle.std.specs.Prelude.{List};
    ghost use Rattle.grants.specs.declared.slicelet_call.SliceletCall.{SliceletCall};
    ghost use Rattle.slicelet.specs.Accepted.{StandsAfter};
    ghost use Rattle.slicelet.specs.internals.State.{state_of, stamps_in};

    ghost view = { λ s. state_of s.task s.count s.life s.resumed s.holding s.heard (stamps_in s.stamps) };

    ghost invariant = { λ s. (calls : List SliceletCall)
        × StandsAfter calls (state_of s.task s.count s.life s.resumed s.holding s.heard (stamps_in s.stamps)) };
}

impl Slicelet {
    /// Creates the slicelet of a task that never had another one, before its first call.
    ///
    /// A slicelet's knowledge is lost when it is destroyed. The next slicelet of the same task must
    /// be made by [`resume`](Self::resume): otherwise it may start a life again, and hear again a
    /// grant that the other one released.
    pub fn new(alloc: Global, task: TaskId) -> Self
        ensures { result ≡ opening task }
    {
        Slicelet::resume(alloc, task, 0)
    }

    /// Creates the slicelet of a task's new process, before its first call.
    ///
    /// `life` must be the greatest life that the task ever started, or a greater one, and no
    /// process of the task may still run. The new process starts only lives above `life`, its clock
    /// counts from 0, and every handle of an earlier process is [`Stranger`]. The notes for the life
    /// that ended are [`EndedNotes::new`]. The call takes no memory.
    pub fn resume(alloc: Global, task: TaskId, life: u32) -> Self
        ensures state { result ≡ resumed task life }
        ensures calls { (calls : List SliceletCall) → AreAccepted task calls → life_of calls ≤ life
            → StandsAfter (call.Resume life ∷ calls) result }
    {
        Slicelet {
            alloc,
            task,
            count: 0,
            life,
            resumed: life,
            holding: no_leases(false, 0),
            heard: HeardGrants::no_grants(),
            stamps: None,
        }
    }

    /// Begins a new process of the task, and returns the notes for the life that ended.
    ///
    /// This slicelet becomes the one of the new process, as [`resume`](Self::resume) makes it:
    /// `life` must be the greatest life that the task ever started, or a greater one, and no earlier
    /// process of the task may still run. A program that plays the calls of a task's processes in
    /// their order uses it; the new process itself uses `resume`. The call takes no memory.
    ///
    /// The only error is `OldLife`, if `life` is below the current life. An error leaves the
    /// slicelet unchanged.
    pub fn begin_anew(&mut self, life: u32) -> Result<EndedNotes, SliceletError>
        ensures { Answers (resume_step self.old life) self.old result self.new }
    {
        self.check_resume(life)?;
        *self = Slicelet::resume(self.alloc, self.task, life);
        Ok(EndedNotes::new(self.task, life))
    }

    /// Starts a life of the task at the reading `at`, in ticks.
    ///
    /// The new life holds no lease and has heard no grant. The call takes no memory.
    ///
    /// Errors, in this order: `OldLife`, `ClockBack`, `HistoryFull`. An error leaves the slicelet
    /// unchanged.
    pub fn start(&mut self, life: u32, at: u64) -> Result<(), SliceletError>
        ensures { Answers (start_step self.old life at) self.old result self.new }
    {
        self.check_start(life, at)?;
        self.count += 1;
        self.life = life;
        self.holding = no_leases(true, at);
        self.heard = HeardGrants::no_grants();
        self.stamps = None;
        Ok(())
    }

    /// Hears a grant at the reading `at`, in ticks: its lease replaces the held one of its kind.
    ///
    /// Errors, in this order: `NotStarted`, `ClockBack`, `OtherTask`, `OtherLife`, `Old`,
    /// `TooLate`, `HistoryFull`, out of memory. An error leaves the slicelet unchanged.
    pub fn hear(&mut self, grant: &Grant, at: u64) -> Result<(), Trouble<SliceletError>>
        ensures { Takes (hear_step self.old grant.now at) self.old result self.new }
    {
        self.check_hear(grant, at).map_err(Trouble::Refused)?;
        let lease = Some(grant.lease.copy()?);
        let stamps = if renews(&self.holding, grant.lease.kind, &lease, at) {
            None
        } else {
            Some(self.restamped(grant.lease.kind, &lease, at)?)
        };
        self.count += 1;
        self.holding.last = at;
        put_lease(&mut self.holding, grant.lease.kind, lease);
        self.heard = self.heard.with(grant);
        if let Some(stamps) = stamps {
            put_stamps(&mut self.stamps, stamps);
        }
        Ok(())
    }

    /// Gives up the lease of a kind, which may have ended, and returns the note for the lease
    /// table.
    ///
    /// The greatest number heard of the kind is unchanged.
    ///
    /// Errors, in this order: `NotStarted`, `ClockBack`, `NothingHeld`, `HistoryFull`, out of
    /// memory. An error leaves the slicelet unchanged.
    pub fn release(&mut self, kind: Kind, at: u64) -> Result<ReleaseNote, Trouble<SliceletError>>
        ensures { Takes (release_step self.old kind at) self.old result self.new }
    {
        let number = self.check_release(kind, at).map_err(Trouble::Refused)?;
        let stamps = if renews(&self.holding, kind, &None, at) {
            None
        } else {
            Some(self.restamped(kind, &None, at)?)
        };
        self.count += 1;
        self.holding.last = at;
        put_lease(&mut self.holding, kind, None);
        let note = ReleaseNote {
            task: self.task,
            life: self.life,
            kind,
            number,
        };
        if let Some(stamps) = stamps {
            put_stamps(&mut self.stamps, stamps);
        }
        Ok(note)
    }

    /// Returns why a release of the lease of a kind would be refused, if it would.
    ///
    /// The refusals are those of [`release`](Self::release), in their order.
    pub fn release_refusal(&self, kind: Kind, at: u64) -> Option<SliceletError>
        ensures { result ≡ first_of (release_checks self.now kind at) }
    {
        self.check_release(kind, at).err()
    }

    /// Returns why a new process with this life would be refused, if it would.
    ///
    /// The refusal is that of [`begin_anew`](Self::begin_anew).
    pub fn resume_refusal(&self, life: u32) -> Option<SliceletError>
        ensures { result ≡ first_of (resume_checks self.now life) }
    {
        self.check_resume(life).err()
    }

    /// Whether the task may serve a key at the reading `at`, in ticks, by the written rule.
    ///
    /// The verdict depends only on what the slicelet knows, and is the same for every list of
    /// accepted calls that leads there. The slicelet is unchanged.
    pub fn serve(&self, key: SliceKey, at: u64) -> Verdict
        ensures state { result ≡ rule_in_state (covers_key key) self.now at }
        ensures calls { (calls : List SliceletCall) → StandsAfter calls self.now
            → result ≡ rule_after (covers_key key) calls at }
    {
        verdict(&self.holding, key, at)
    }

    /// Returns what [`serve`](Self::serve) and [`newest_covering`](Self::newest_covering) return.
    ///
    /// The slicelet is unchanged.
    pub fn serve_and_newest(&self, key: SliceKey, at: u64) -> (Verdict, Option<u64>)
        ensures state { result.0 ≡ rule_in_state (covers_key key) self.now at }
        ensures calls { (calls : List SliceletCall) → StandsAfter calls self.now
            → result.0 ≡ rule_after (covers_key key) calls at }
        ensures newest { result.1 ≡ newest_covering self.now key }
    {
        verdict_and_newest(&self.holding, key, at)
    }

    /// Returns a handle on a key if the task may serve it at the reading `at`, in ticks.
    ///
    /// Otherwise returns why the task may not serve it. The slicelet is unchanged.
    pub fn hold(&self, key: SliceKey, at: u64) -> Result<KeyHandle, Ground>
        ensures state { result ≡ held_by (rule_in_state (covers_key key) self.now at) (handle_on key self.now) }
        ensures calls { (calls : List SliceletCall) → StandsAfter calls self.now
            → result ≡ held_by (rule_after (covers_key key) calls at)
            (record { task = self.now.task; life = life_of calls; key = key; position = count_of calls }) }
    {
        match self.serve(key, at) {
            Verdict::Allow { .. } => Ok(KeyHandle::new(self.task, self.life, key, self.count)),
            Verdict::Deny(why) => Err(why),
        }
    }

    /// Whether the task has held the key of a handle without a break, and may serve it at `at`, in
    /// ticks.
    ///
    /// The handle must be of the current life. Each call since it was taken must have found its key
    /// permitted at the reading of the call, both just before and just after the call. The key must
    /// be permitted at `at`.
    ///
    /// The only error is `Stranger`, if the slicelet cannot have given the handle. The slicelet is
    /// unchanged.
    pub fn continuous(&self, handle: &KeyHandle, at: u64) -> Result<bool, Stranger>
        ensures state { result ≡ checked_in self.now handle.now at }
        ensures calls { (calls : List SliceletCall) → StandsAfter calls self.now
            → IsChecked self.now.task calls handle.now at result }
    {
        key_law(handle.key);
        if self.is_strange(handle) {
            return Err(Stranger);
        }
        Ok(self.is_continuous(handle, at))
    }

    /// Returns the keys that the task may serve at the reading `at`, in ticks, by the written rule.
    ///
    /// They are the keys that [`serve`](Self::serve) allows. The only error is out of memory. The
    /// slicelet is unchanged.
    pub fn permitted(&self, at: u64) -> Result<Ranges, AllocError>
        ensures { IfOk result (λ r. (key : ℕ) → has r key ≡ permits self.now key at) }
    {
        permitted(self.alloc, &self.holding, at)
    }

    /// Returns how many more calls this process accepts before `HistoryFull`; [`CALLS`] before its
    /// first.
    pub fn calls_left(&self) -> u64
        ensures { result ≡ CALLS - self.now.count }
    {
        CALLS.saturating_sub(self.count)
    }

    /// Returns the lease of a kind that the task holds, if any; it may have ended.
    pub fn held(&self, kind: Kind) -> Option<HeldLease>
        ensures { result ≡ option_map held_lease (held_in self.now kind) }
    {
        match kind {
            Kind::Guard => held_as(&self.holding.guard, self.heard.guard),
            Kind::Bridge => held_as(&self.holding.bridge, self.heard.bridge),
        }
    }

    /// Returns the generation of the lease of a kind that the task holds, if the lease covers the
    /// key, whether or not it has ended.
    pub fn covering(&self, kind: Kind, key: SliceKey) -> Option<u64>
        ensures { result ≡ covering_in self.now kind key }
    {
        match kind {
            Kind::Guard => covering_generation(&self.holding.guard, key),
            Kind::Bridge => covering_generation(&self.holding.bridge, key),
        }
    }

    /// Returns the greatest generation of the held leases that cover the key, guard or bridge,
    /// whether or not they have ended; `None` if none covers it.
    pub fn newest_covering(&self, key: SliceKey) -> Option<u64>
        ensures { result ≡ newest_covering self.now key }
    {
        greatest(
            self.covering(Kind::Guard, key),
            self.covering(Kind::Bridge, key),
        )
    }

    /// Returns the task.
    pub fn task(&self) -> TaskId
        ensures { result ≡ self.now.task }
    {
        self.task
    }

    /// Returns whether the task has started a life in its current process.
    pub fn is_up(&self) -> bool
        ensures { result ≡ self.now.up }
    {
        self.holding.up
    }

    /// Returns the current life of the task; 0 before the first. In a new process, before its first
    /// call, this is the life that it was made with.
    pub fn life(&self) -> u32
        ensures { result ≡ self.now.life }
    {
        self.life
    }

    /// Returns the reading of the last accepted call, in ticks; 0 before the first.
    pub fn last_reading(&self) -> u64
        ensures { result ≡ self.now.last }
    {
        self.holding.last
    }

    /// States that some list of calls leads to the state of this slicelet.
    ///
    /// Each call of the list was accepted after those before it.
    pub fn standing_law(&self)
        ensures { (calls : List SliceletCall) × StandsAfter calls self.now }
    {
        let _ = &self.task;
    }

    /// Returns a copy that equals this slicelet. The only error is out of memory.
    pub fn copy(&self) -> Result<Self, AllocError>
        ensures { IfOk result (λ slicelet. slicelet ≡ self.now) }
    {
        Ok(Slicelet {
            alloc: self.alloc,
            task: self.task,
            count: self.count,
            life: self.life,
            resumed: self.resumed,
            holding: self.holding.copy()?,
            heard: self.heard,
            stamps: copy_of(&self.stamps)?,
        })
    }

    fn is_strange(&self, handle: &KeyHandle) -> bool
        ensures { result ≡ is_strange self.now handle.now }
    {
        handle.task != self.task
            || handle.life <= self.resumed
            || handle.life > self.life
            || handle.life == self.life && handle.position > self.count
    }

    fn is_continuous(&self, handle: &KeyHandle, at: u64) -> bool
        ensures { result ≡ is_kept self.now handle.now at }
    {
        key_law(handle.key);
        let is_kept = still(handle, self.life, &self.stamps);
        is_kept && self.permits(handle.key, at)
    }

    // The stamps after one more call, at which `lease`, or none, replaces that of its kind.
    fn restamped(&self, kind: Kind, lease: &Option<Lease>, at: u64) -> Result<Stamped, AllocError>
        requires { self.now.count + 1 < 2 ^ 64 }
        ensures { IfOk result
            (IsRestamped self.now at (with_lease (leases_of self.now) kind lease.now)) }
    {
        let before = permitted(self.alloc, &self.holding, at)?;
        let after = live_keys_with(self.alloc, &self.holding, kind, lease, at)?;
        restamp(self.alloc, &self.stamps, &before, &after, self.count + 1)
    }

    // Whether the task may serve the key.
    fn permits(&self, key: SliceKey, at: u64) -> bool
        ensures { result ≡ permits self.now key at }
    {
        matches!(self.serve(key, at), Verdict::Allow { .. })
    }

    // The greatest number heard of a kind.
    fn greatest_number(&self, kind: Kind) -> Option<u64>
        ensures { result ≡ greatest_in self.now kind }
    {
        self.heard.number(kind)
    }

    // The number of the held lease of a kind, which is the greatest heard of it.
    fn held_number(&self, kind: Kind) -> Option<u64>
        ensures { result ≡ option_map (λ grant. grant.number) (held_in self.now kind) }
    {
        if holds(&self.holding, kind) {
            self.greatest_number(kind)
        } else {
            None
        }
    }

    fn check_started(&self) -> Result<(), SliceletError>
        ensures { result_err result ≡ not_started self.now }
    {
        if self.holding.up {
            Ok(())
        } else {
            Err(SliceletError::NotStarted)
        }
    }

    fn check_reading(&self, at: u64) -> Result<(), SliceletError>
        ensures { result_err result ≡ clock_back self.now at }
    {
        if at < self.holding.last {
            Err(SliceletError::ClockBack)
        } else {
            Ok(())
        }
    }

    fn check_room(&self) -> Result<(), SliceletError>
        ensures { result_err result ≡ history_full self.now }
    {
        if self.count >= CALLS {
            Err(SliceletError::HistoryFull)
        } else {
            Ok(())
        }
    }

    fn check_start(&self, life: u32, at: u64) -> Result<(), SliceletError>
        ensures refusal { result_err result ≡ first_of (start_checks self.now life at) }
        ensures accepted { OnOk result (first_of (start_checks self.now life at) ≡ None) }
    {
        if life <= self.life {
            return Err(SliceletError::OldLife);
        }
        self.check_reading(at)?;
        self.check_room()
    }

    fn check_resume(&self, life: u32) -> Result<(), SliceletError>
        ensures refusal { result_err result ≡ first_of (resume_checks self.now life) }
        ensures accepted { OnOk result (first_of (resume_checks self.now life) ≡ None) }
    {
        if life < self.life {
            Err(SliceletError::OldLife)
        } else {
            Ok(())
        }
    }

    fn check_hear(&self, grant: &Grant, at: u64) -> Result<(), SliceletError>
        ensures refusal { result_err result ≡ first_of (hear_checks self.now grant.now at) }
        ensures accepted { OnOk result (first_of (hear_checks self.now grant.now at) ≡ None) }
    {
        self.check_started()?;
        self.check_reading(at)?;
        if grant.task != self.task {
            return Err(SliceletError::OtherTask);
        }
        if grant.life != self.life {
            return Err(SliceletError::OtherLife);
        }
        if let Some(heard) = self.greatest_number(grant.lease.kind)
            && grant.number <= heard
        {
            return Err(SliceletError::Old { heard });
        }
        if !grant.lease.is_live(at) {
            return Err(SliceletError::TooLate);
        }
        self.check_room()
    }

    // The number of the held lease of a kind, if it may be released.
    fn check_release(&self, kind: Kind, at: u64) -> Result<u64, SliceletError>
        ensures refusal { result_err result ≡ first_of (release_checks self.now kind at) }
        ensures accepted { OnOk result (first_of (release_checks self.now kind at) ≡ None) }
        ensures number { IfOk result (λ number. number ≡ number_of (held_in self.now kind)) }
    {
        self.check_started()?;
        self.check_reading(at)?;
        let number = self.held_number(kind).ok_or(SliceletError::NothingHeld)?;
        self.check_room()?;
        Ok(number)
    }
}
