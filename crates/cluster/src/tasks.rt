//! Calls of tasks.

ghost use Rattle.std.specs.Prelude.{◌≡◌, ◌∷◌, ◌++◌, [], ◌||◌, true, Ok, IfOk, IfErr, OnOk, OnErr, reverse};
ghost use Rattle.machines.specs.declared.machine.Trouble.TheVariants.{NoMemory};
ghost use Rattle.machines.specs.Answers.{Takes};
ghost use Rattle.cluster.specs.Memory.{task_takes_memory};
ghost use Rattle.slicelet.specs.Steps.{release_step, resume_step, slicelet_step};
ghost use Rattle.cluster.specs.continued.Jobs.{Continued};
ghost use Rattle.cluster.specs.continued.Clusters as continued;
ghost use Rattle.job_calls.specs.declared.call.ClusterCall.TheVariants as asked;
ghost use Rattle.job_calls.specs.declared.error.ClusterError.TheVariants as error;
ghost use Rattle.job_calls.specs.declared.reply.ClusterReply.TheVariants as reply;
ghost use Rattle.cluster.specs.Pasts.{Past, event};
ghost use Rattle.cluster.specs.continued.Deliveries.{task_refusal};
ghost use Rattle.cluster.specs.internals.Turns.{told_as, notes_kept, known_after};
ghost use Rattle.indexmap.specs.IndexSet.{contains};
ghost use Rattle.cluster.specs.Made.{same_note, same_handle};
ghost use Rattle.grants.specs.declared.values.ReleaseNote.{ReleaseNote as Note};
ghost use Rattle.key_handle.specs.declared.handle.KeyHandle.{KeyHandle as Handle};

use crate::actors::{place_of, unless};
use crate::cluster::Cluster;
use crate::known::{KnownHandle, KnownNote, insert_reserved};
use crate::laws::covers_law;
use grants::{EndedNotes, ReleaseNote, SliceletCall, SliceletError, SliceletReply};
use indexmap::IndexSet;
use job_calls::{ClusterError, ClusterReply};
use key_handle::KeyHandle;
use lease_rule::{Kind, Verdict};
use machines::Trouble;
use slice_ranges::SliceKey;
use slicelet::Slicelet;
use std::alloc::AllocError;

// Turns a slicelet's answer into the cluster's reply.
pub(crate) fn told_by_task(
    answer: Result<SliceletReply, Trouble<SliceletError>>,
) -> Result<ClusterReply, AllocError>
    ensures { result ≡ told_as error.Slicelet reply.Task answer }
{
    match answer {
        Ok(told) => Ok(ClusterReply::Task(told)),
        Err(Trouble::Refused(why)) => Ok(ClusterReply::Refused(ClusterError::Slicelet(why))),
        Err(Trouble::NoMemory) => Err(AllocError),
    }
}

// Makes a call of a slicelet, and keeps the notes of its reply.
fn take(
    slicelet: &mut Slicelet,
    notes: &mut Vec<ReleaseNote>,
    known: &mut IndexSet<KnownNote>,
    call: &SliceletCall,
) -> Result<SliceletReply, Trouble<SliceletError>>
    ensures step { Takes (slicelet_step slicelet.old call.now) slicelet.old result slicelet.new }
    ensures memory { IfErr result (λ trouble. trouble ≡ NoMemory → task_takes_memory call.now ≡ true) }
    ensures notes { reverse notes.new.items ≡ notes_kept result (reverse notes.old.items) }
    ensures known { (note : Note) → contains same_note known.new note ≡ known_after result note (contains same_note known.old note) }
{
    match call {
        SliceletCall::Start { life, at } => {
            slicelet.start(*life, *at).map_err(Trouble::Refused)?;
            Ok(SliceletReply::Started)
        }
        SliceletCall::Hear { grant, at } => {
            slicelet.hear(grant, *at)?;
            Ok(SliceletReply::Heard)
        }
        SliceletCall::Release { kind, at } => {
            Ok(SliceletReply::Released(release(slicelet, notes, known, *kind, *at)?))
        }
        SliceletCall::Resume { life } => Ok(SliceletReply::Resumed(begin_anew(
            slicelet, notes, known, *life,
        )?)),
    }
}

#[tactic(auto, using(crate::proofs::Turning::reversed_more))]
fn release(
    slicelet: &mut Slicelet,
    notes: &mut Vec<ReleaseNote>,
    known: &mut IndexSet<KnownNote>,
    kind: Kind,
    at: u64,
) -> Result<ReleaseNote, Trouble<SliceletError>>
    ensures step { Takes (release_step slicelet.old kind at) slicelet.old result slicelet.new }
    ensures ok { IfOk result (λ note. reverse notes.new.items ≡ note ∷ reverse notes.old.items) }
    ensures err { OnErr result (notes.new.items ≡ notes.old.items) }
    ensures known_ok { IfOk result (λ note. (other : Note) → contains same_note known.new other ≡ (same_note note other || contains same_note known.old other)) }
    ensures known_err { OnErr result ((other : Note) → contains same_note known.new other ≡ contains same_note known.old other) }
{
    if let Some(why) = slicelet.release_refusal(kind, at) {
        return Err(Trouble::Refused(why));
    }
    notes.reserve(1)?;
    known.reserve(1)?;
    let note = slicelet.release(kind, at)?;
    let member = KnownNote::new(&note);
    let made = note;
    notes.push_reserved(made);
    insert_reserved(known, member);
    Ok(note)
}

#[tactic(auto, using(crate::proofs::Turning::reversed_two))]
fn begin_anew(
    slicelet: &mut Slicelet,
    notes: &mut Vec<ReleaseNote>,
    known: &mut IndexSet<KnownNote>,
    life: u32,
) -> Result<EndedNotes, Trouble<SliceletError>>
    ensures step { Takes (resume_step slicelet.old life) slicelet.old result slicelet.new }
    ensures ok { IfOk result (λ ended. reverse notes.new.items ≡ ended.bridge ∷ ended.guard ∷ reverse notes.old.items) }
    ensures err { OnErr result (notes.new.items ≡ notes.old.items) }
    ensures known_ok { IfOk result (λ ended. (other : Note) → contains same_note known.new other
        ≡ (same_note ended.bridge other || (same_note ended.guard other || contains same_note known.old other))) }
    ensures known_err { OnErr result ((other : Note) → contains same_note known.new other ≡ contains same_note known.old other) }
{
    if let Some(why) = slicelet.resume_refusal(life) {
        return Err(Trouble::Refused(why));
    }
    notes.reserve(2)?;
    known.reserve(2)?;
    let ended = slicelet.begin_anew(life).map_err(Trouble::Refused)?;
    let guard = KnownNote::new(&ended.guard);
    let bridge = KnownNote::new(&ended.bridge);
    notes.push_reserved(ended.guard);
    notes.push_reserved(ended.bridge);
    insert_reserved(known, guard);
    insert_reserved(known, bridge);
    Ok(ended)
}

// Keeps a handle.
fn keep(
    handles: &mut Vec<KeyHandle>,
    known: &mut IndexSet<KnownHandle>,
    handle: KeyHandle,
) -> Result<(), AllocError>
    ensures ok { OnOk result (handles.new.items ≡ handles.old.items ++ handle ∷ []) }
    ensures err { OnErr result (handles.new.items ≡ handles.old.items) }
    ensures known_ok { OnOk result ((other : Handle) → contains same_handle known.new other ≡ (same_handle handle other || contains same_handle known.old other)) }
    ensures known_err { OnErr result ((other : Handle) → contains same_handle known.new other ≡ contains same_handle known.old other) }
{
    handles.reserve(1)?;
    known.reserve(1)?;
    let member = KnownHandle::new(&handle);
    handles.push_reserved(handle);
    insert_reserved(known, member);
    Ok(())
}

impl Cluster {
    /// Plays a call of a task, as [`Cluster::play`] does.
    ///
    /// # Errors
    ///
    /// The refusals, in this order: `NoActor`, `NotSent` for a grant that the table never sent, and
    /// those of the slicelet. Out of memory comes last and leaves the cluster unchanged.
    pub fn call_task(&mut self, task: u64, call: &SliceletCall) -> Result<ClusterReply, AllocError>
        ensures { (job : Continued) (past : Past) → continued.LeadsTo job past self.old
            → continued.IsPlayed job past (asked.Task task call.now) result self.new }
    {
        let Some(place) = place_of(task, self.tasks.as_slice()) else {
            return Ok(ClusterReply::Refused(ClusterError::NoActor));
        };
        if let Some(why) = self.task_refusal(call) {
            return Ok(ClusterReply::Refused(why));
        }
        told_by_task(take(
            &mut self.tasks[place],
            &mut self.notes,
            &mut self.known_notes,
            call,
        ))
    }

    // Returns why a call is refused before it reaches the task, if it is.
    fn task_refusal(&self, call: &SliceletCall) -> Option<ClusterError>
        ensures { (job : Continued) (past : Past) → continued.LeadsTo job past self.now → result ≡ task_refusal job.forgotten past call.now }
    {
        match call {
            SliceletCall::Hear { grant, .. } => unless(self.is_sent(grant), ClusterError::NotSent),
            _ => None,
        }
    }

    /// Plays `serve` of a task.
    pub(crate) fn serve(&self, task: u64, key: SliceKey, at: u64) -> ClusterReply
        ensures { (job : Continued) (past : Past) → continued.LeadsTo job past self.now
            → continued.IsPlayed job past (asked.Serve task key at) (Ok result) self.now }
    {
        covers_law();
        slicelet::agreement_law();
        let Some(place) = place_of(task, self.tasks.as_slice()) else {
            return ClusterReply::Refused(ClusterError::NoActor);
        };
        let _number = key.value();
        ClusterReply::Verdict(self.tasks[place].serve(key, at))
    }

    /// Plays `hold` of a task.
    pub(crate) fn hold(
        &mut self,
        task: u64,
        key: SliceKey,
        at: u64,
    ) -> Result<ClusterReply, AllocError>
        ensures { (job : Continued) (past : Past) → continued.LeadsTo job past self.old
            → continued.IsPlayed job past (asked.Hold task key at) result self.new }
    {
        covers_law();
        slicelet::agreement_law();
        let Some(place) = place_of(task, self.tasks.as_slice()) else {
            return Ok(ClusterReply::Refused(ClusterError::NoActor));
        };
        let _number = key.value();
        let handle = match self.tasks[place].hold(key, at) {
            Ok(handle) => handle,
            Err(why) => return Ok(ClusterReply::Verdict(Verdict::Deny(why))),
        };
        let made = handle;
        match keep(&mut self.handles, &mut self.known_handles, made) {
            Ok(()) => Ok(ClusterReply::Holding(handle)),
            Err(error) => Err(error),
        }
    }

    /// Plays `check` of a task.
    pub(crate) fn check(&self, task: u64, handle: &KeyHandle, at: u64) -> ClusterReply
        ensures { (job : Continued) (past : Past) → continued.LeadsTo job past self.now
            → continued.IsPlayed job past (asked.Check task handle.now at) (Ok result) self.now }
    {
        covers_law();
        slicelet::agreement_law();
        let Some(place) = place_of(task, self.tasks.as_slice()) else {
            return ClusterReply::Refused(ClusterError::NoActor);
        };
        if !self.is_given(handle) {
            return ClusterReply::Refused(ClusterError::NotSent);
        }
        let _key = handle.key.value();
        match self.tasks[place].continuous(handle, at) {
            Ok(true) => ClusterReply::Continuous,
            Ok(false) => ClusterReply::Broken,
            Err(_) => ClusterReply::Refused(ClusterError::Stranger),
        }
    }
}
