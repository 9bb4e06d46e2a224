//! The slicelet of a task that threads share.

ghost use Rattle.std.specs.Prelude.{◌≡◌};
ghost use Rattle.cluster.specs.Replies.{hold_reply};
ghost use Rattle.grants.specs.declared.slicelet_call.SliceletCall.TheVariants as slicelet_call;
ghost use Rattle.grants.specs.declared.slicelet_call.SliceletReply.TheVariants as slicelet_reply;
ghost use Rattle.history_lock.specs.Passes.{IsPassOf};
ghost use Rattle.job_calls.specs.declared.call.ClusterCall.TheVariants as recorded_call;
ghost use Rattle.job_calls.specs.declared.reply.ClusterReply.TheVariants as told;
ghost use Rattle.shared_objects.specs.Actors.{reading_at};
ghost use Rattle.shared_objects.specs.Calls.{AsksAtOnceFor, AsksFor, CalledToAsk, TriedToAsk};
ghost use Rattle.shared_objects.specs.Objects.{CalledSlicelet};
ghost use Rattle.shared_objects.specs.Queries.{check_told};
ghost use Rattle.slicelet.specs.Continuity.{checked_in, handle_on, held_by};
ghost use Rattle.slicelet.specs.Rules.{covers_key};
ghost use Rattle.slicelet.specs.States.{rule_in_state};
ghost use Rattle.slicelet.specs.Steps.{event_step};

use crate::draws::Draws;
use crate::error::{CallError, Recorded, TryError};
use crate::gate::{Gate, Turn};
use crate::queries::{AskCheck, AskHold, AskServe};
use crate::replies::release_note;
use crate::shared::Shared;
use crate::when::{REPLACED, When};
use grants::{Grant, ReleaseNote, SliceletCall, SliceletError, Stranger};
use history_lock::Pass;
use key_handle::KeyHandle;
use lease_rule::{Ground, Kind, Verdict};
use slice_ranges::SliceKey;
use slicelet::Slicelet;
use std::sync::Wait;
use tickets::Spent;

/// The slicelet of a task, which threads share.
///
/// It is created from its task, whose number is that of the object. A call with a reading takes it
/// as [`When`].
pub type SharedSlicelet = Shared<Slicelet>;

impl SharedSlicelet {
    /// Starts a life of the task, at a reading of its clock in ticks.
    ///
    /// # Errors
    ///
    /// Those of [`CallError`], in its order. The slicelet refuses with `OldLife`, `ClockBack` and
    /// `HistoryFull`, in this order. An error leaves the slicelet and its history unchanged.
    #[tactic(auto, using(crate::proofs::Naming::named_answer))]
    pub fn start<R: Wait>(
        &self,
        rt: &R,
        pass: &mut Pass<Slicelet>,
        draws: &mut Draws<'_>,
        life: u32,
        when: When,
    ) -> Result<(), CallError<SliceletError>>
        requires own { IsPassOf self.now.lock pass.old }
        ensures own { IsPassOf self.now.lock pass.new }
        ensures ticket { draws.new.ticket ≡ draws.old.ticket }
        ensures answer { CalledSlicelet self.now draws.old.pass draws.new.pass
            (λ ticket. slicelet_call.Start life (reading_at when ticket)) (λ _. slicelet_reply.Started)
            pass.old result pass.new }
    {
        let call = SliceletCall::Start { life, at: REPLACED };
        match self.write(rt, pass, draws, call, when) {
            Ok(_) => Ok(()),
            Err(error) => Err(error),
        }
    }

    /// Hears a grant, whose lease replaces the one of its kind.
    ///
    /// # Errors
    ///
    /// Those of [`CallError`], in its order. The slicelet refuses with `NotStarted`, `ClockBack`,
    /// `OtherTask`, `OtherLife`, `Old`, `TooLate` and `HistoryFull`, in this order. An error leaves
    /// the slicelet and its history unchanged.
    #[tactic(auto, using(crate::proofs::Naming::named_answer))]
    pub fn hear<R: Wait>(
        &self,
        rt: &R,
        pass: &mut Pass<Slicelet>,
        draws: &mut Draws<'_>,
        grant: Grant,
        when: When,
    ) -> Result<(), CallError<SliceletError>>
        requires own { IsPassOf self.now.lock pass.old }
        ensures own { IsPassOf self.now.lock pass.new }
        ensures ticket { draws.new.ticket ≡ draws.old.ticket }
        ensures answer { CalledSlicelet self.now draws.old.pass draws.new.pass
            (λ ticket. slicelet_call.Hear grant (reading_at when ticket)) (λ _. slicelet_reply.Heard)
            pass.old result pass.new }
    {
        let call = SliceletCall::Hear {
            grant,
            at: REPLACED,
        };
        match self.write(rt, pass, draws, call, when) {
            Ok(_) => Ok(()),
            Err(error) => Err(error),
        }
    }

    /// Releases the lease of a kind, and returns the note of the release.
    ///
    /// # Errors
    ///
    /// Those of [`CallError`], in its order. The slicelet refuses with `NotStarted`, `ClockBack`,
    /// `NothingHeld` and `HistoryFull`, in this order. An error leaves the slicelet and its history
    /// unchanged.
    #[tactic(auto, using(crate::proofs::Naming::named_answer))]
    pub fn release<R: Wait>(
        &self,
        rt: &R,
        pass: &mut Pass<Slicelet>,
        draws: &mut Draws<'_>,
        kind: Kind,
        when: When,
    ) -> Result<ReleaseNote, CallError<SliceletError>>
        requires own { IsPassOf self.now.lock pass.old }
        ensures own { IsPassOf self.now.lock pass.new }
        ensures ticket { draws.new.ticket ≡ draws.old.ticket }
        ensures answer { CalledSlicelet self.now draws.old.pass draws.new.pass
            (λ ticket. slicelet_call.Release kind (reading_at when ticket)) slicelet_reply.Released
            pass.old result pass.new }
    {
        let call = SliceletCall::Release { kind, at: REPLACED };
        match self.write(rt, pass, draws, call, when) {
            Ok(reply) => Ok(release_note(reply)),
            Err(error) => Err(error),
        }
    }

    /// Returns whether the task may serve a key at a reading of its clock, in ticks.
    ///
    /// Fails with [`Spent`] if the ticket pass may draw no more.
    pub fn serve<R: Wait>(
        &self,
        rt: &R,
        pass: &mut Pass<Slicelet>,
        draws: &mut Draws<'_>,
        key: SliceKey,
        when: When,
    ) -> Result<Recorded<Verdict>, Spent>
        requires own { IsPassOf self.now.lock pass.old }
        ensures own { IsPassOf self.now.lock pass.new }
        ensures ticket { draws.new.ticket ≡ draws.old.ticket }
        ensures answer { CalledToAsk draws.old.pass draws.new.pass
            (AsksFor event_step self.now.lock draws.old.pass draws.new.pass
            (λ slicelet ticket answer. answer ≡ rule_in_state (covers_key key) slicelet (reading_at when ticket))
            (λ ticket. recorded_call.Serve self.now.number key (reading_at when ticket)) told.Verdict)
            pass.old result pass.new }
    {
        self.ask(rt, pass, draws, AskServe { key, at: REPLACED }, when)
    }

    /// Does what [`Self::serve`] does, and calls a gate inside the call.
    ///
    /// The gate of `turn` is called after the ticket was drawn, while the lane is held.
    pub fn serve_gated<R: Wait, G: Gate>(
        &self,
        rt: &R,
        pass: &mut Pass<Slicelet>,
        draws: &mut Draws<'_>,
        key: SliceKey,
        turn: &Turn<'_, G>,
    ) -> Result<Recorded<Verdict>, Spent>
        requires own { IsPassOf self.now.lock pass.old }
        ensures own { IsPassOf self.now.lock pass.new }
        ensures ticket { draws.new.ticket ≡ draws.old.ticket }
        ensures answer { CalledToAsk draws.old.pass draws.new.pass
            (AsksFor event_step self.now.lock draws.old.pass draws.new.pass
            (λ slicelet ticket answer. answer ≡ rule_in_state (covers_key key) slicelet (reading_at turn.now.when ticket))
            (λ ticket. recorded_call.Serve self.now.number key (reading_at turn.now.when ticket)) told.Verdict)
            pass.old result pass.new }
    {
        self.ask_gated(rt, pass, draws, AskServe { key, at: REPLACED }, turn)
    }

    /// Does what [`Self::serve`] does, without waiting.
    ///
    /// # Errors
    ///
    /// Those of [`TryError`], in its order: the ticket pass may draw no more, or a lane is held.
    pub fn try_serve(
        &self,
        pass: &mut Pass<Slicelet>,
        draws: &mut Draws<'_>,
        key: SliceKey,
        when: When,
    ) -> Result<Recorded<Verdict>, TryError>
        requires own { IsPassOf self.now.lock pass.old }
        ensures own { IsPassOf self.now.lock pass.new }
        ensures ticket { draws.new.ticket ≡ draws.old.ticket }
        ensures answer { TriedToAsk event_step self.now.lock draws.old.pass draws.new.pass
            (AsksAtOnceFor event_step self.now.lock draws.old.pass draws.new.pass
            (λ slicelet ticket answer. answer ≡ rule_in_state (covers_key key) slicelet (reading_at when ticket))
            (λ ticket. recorded_call.Serve self.now.number key (reading_at when ticket)) told.Verdict)
            pass.old result pass.new }
    {
        self.try_ask(pass, draws, AskServe { key, at: REPLACED }, when)
    }

    /// Returns a handle on a key if the task may serve it at a reading of its clock, in ticks.
    ///
    /// Otherwise the answer is the ground on which the key is denied. Fails with [`Spent`] if the
    /// ticket pass may draw no more.
    pub fn hold<R: Wait>(
        &self,
        rt: &R,
        pass: &mut Pass<Slicelet>,
        draws: &mut Draws<'_>,
        key: SliceKey,
        when: When,
    ) -> Result<Recorded<Result<KeyHandle, Ground>>, Spent>
        requires own { IsPassOf self.now.lock pass.old }
        ensures own { IsPassOf self.now.lock pass.new }
        ensures ticket { draws.new.ticket ≡ draws.old.ticket }
        ensures answer { CalledToAsk draws.old.pass draws.new.pass
            (AsksFor event_step self.now.lock draws.old.pass draws.new.pass
            (λ slicelet ticket answer. answer ≡ held_by (rule_in_state (covers_key key) slicelet (reading_at when ticket)) (handle_on key slicelet))
            (λ ticket. recorded_call.Hold self.now.number key (reading_at when ticket)) hold_reply)
            pass.old result pass.new }
    {
        self.ask(rt, pass, draws, AskHold { key, at: REPLACED }, when)
    }

    /// Returns whether a handle is continuous at a reading of the task's clock, in ticks.
    ///
    /// The answer is [`Stranger`] if the slicelet cannot have returned the handle. Fails with
    /// [`Spent`] if the ticket pass may draw no more.
    pub fn check<R: Wait>(
        &self,
        rt: &R,
        pass: &mut Pass<Slicelet>,
        draws: &mut Draws<'_>,
        handle: KeyHandle,
        when: When,
    ) -> Result<Recorded<Result<bool, Stranger>>, Spent>
        requires own { IsPassOf self.now.lock pass.old }
        ensures own { IsPassOf self.now.lock pass.new }
        ensures ticket { draws.new.ticket ≡ draws.old.ticket }
        ensures answer { CalledToAsk draws.old.pass draws.new.pass
            (AsksFor event_step self.now.lock draws.old.pass draws.new.pass
            (λ slicelet ticket answer. answer ≡ checked_in slicelet handle (reading_at when ticket))
            (λ ticket. recorded_call.Check self.now.number handle (reading_at when ticket)) check_told)
            pass.old result pass.new }
    {
        self.ask(
            rt,
            pass,
            draws,
            AskCheck {
                handle,
                at: REPLACED,
            },
            when,
        )
    }
}
