//! Machines that threads share.

ghost use Rattle.std.specs.Prelude.{◌≡◌, ℕ, ◌<◌, true, false, IfOk, OnOk, IfErr, if◌then◌else◌, vec_len};
ghost use Rattle.history_lock.specs.Closing.{has_lane, IsWhole};
ghost use Rattle.history_lock.specs.Passes.{AreNewFrom, ArePassesOf, IsPassOf, is_allowed};
ghost use Rattle.history_lock.specs.declared.error.NewLockError.TheVariants as new_lock_error;
ghost use Rattle.shared_objects.specs.Actors.{made_at};
ghost use Rattle.shared_objects.specs.Calls.{AsksAtOnceFor, AsksFor, CalledToAsk, CalledToWrite, IsNoRefusal, TriedToAsk};

use crate::actor::Actor;
use crate::draws::Draws;
use crate::error::{CallError, Recorded, TryError};
use crate::gate::{Gate, OpenGate, Turn};
use crate::query::RecordedQuery;
use crate::read::{asked_at, read_gated, try_read};
use crate::when::When;
use crate::write::{Order, write};
use history_lock::{Closed, LaneLock, NewLockError, Pass};
use job_calls::CallRecord;
use std::alloc::Global;
use std::marker::Model;
use std::sync::Wait;
use tickets::Spent;

/// A machine under a lock of its own, which threads share.
///
/// Contracts see the lock, and the number under which the calls are recorded.
#[derive(Drop)]
pub struct Shared<M: Actor> {
    number: u64,
    pub(crate) lock: LaneLock<M>,
}

/// A shared object that was not closed because one of its passes is missing, with its passes.
///
/// The object and the passes are unchanged.
#[derive(Drop)]
pub struct NotClosed<M: Actor> {
    /// The object.
    pub object: Shared<M>,
    /// The passes that were given to close it.
    pub passes: Vec<Pass<M>>,
}

impl<M: Actor> Model for Shared<M> {
    ghost use Rattle.shared_objects.specs.Objects.{SharedObject, shared_object};

    ghost Value = { SharedObject M };

    ghost view = { λ s. shared_object s.number s.lock };

    ghost invariant = { λ s. M.is_numbered s.number s.lock.opened.machine };
}

impl<M: Actor> Shared<M> {
    /// Creates an object around a new machine, and a pass for each lane of its lock, lane 0 first.
    ///
    /// `opening` is the policy of a table, the task of a slicelet, or the number under which the
    /// calls of a clerk are recorded. The calls of a slicelet are recorded under its task, those of
    /// a table without a number. The history of the lock holds at most `limit` entries.
    ///
    /// # Errors
    ///
    /// In this order: [`NewLockError::Lanes`] if `lanes` is not 1 to 8 or `limit` is not 1 to
    /// 65,536, and out of memory.
    pub fn new(
        alloc: Global,
        opening: M::Opening,
        lanes: u64,
        limit: usize,
    ) -> Result<(Shared<M>, Vec<Pass<M>>), NewLockError>
        ensures opened { IfOk result (λ made. (made.0.lock.opened ≡ record { machine = M.opened opening; lanes = lanes; limit = limit })
            × (made.0.number ≡ M.opened_number opening) × (vec_len made.1 ≡ lanes) × AreNewFrom 0 made.0.lock made.1.items) }
        ensures accepted { OnOk result (is_allowed lanes limit ≡ true) }
        ensures refused { IfErr result (λ e. e ≡ (if is_allowed lanes limit then new_lock_error.NoMemory else new_lock_error.Lanes)) }
    {
        let number = M::number_of(&opening);
        let machine = M::open(alloc, opening);
        match LaneLock::new(alloc, machine, lanes, limit) {
            Ok((lock, passes)) => Ok((Shared { number, lock }, passes)),
            Err(error) => Err(error),
        }
    }

    /// Creates an object around a copy of a machine, and a pass for each lane of its lock, lane 0
    /// first.
    ///
    /// A machine whose lock was closed, for instance because its history was full, goes on in an
    /// object that is created over it. The history of the lock is legal from the machine as it is
    /// now, and holds at most `limit` entries. The machine that was copied is unchanged.
    ///
    /// `number` is the number under which the calls are recorded: that of a slicelet's task, any
    /// for a clerk, and 0 for a table.
    ///
    /// # Errors
    ///
    /// Those of [`Shared::new`], in its order.
    pub fn over(
        alloc: Global,
        machine: &M,
        number: u64,
        lanes: u64,
        limit: usize,
    ) -> Result<(Shared<M>, Vec<Pass<M>>), NewLockError>
        requires { M.is_numbered number machine.now }
        ensures opened { IfOk result (λ made. (made.0.lock.opened ≡ record { machine = machine.now; lanes = lanes; limit = limit })
            × (made.0.number ≡ number) × (vec_len made.1 ≡ lanes) × AreNewFrom 0 made.0.lock made.1.items) }
        ensures accepted { OnOk result (is_allowed lanes limit ≡ true) }
        ensures refused { IfErr result (λ e. e ≡ (if is_allowed lanes limit then new_lock_error.NoMemory else new_lock_error.Lanes)) }
    {
        match LaneLock::over(alloc, machine, lanes, limit) {
            Ok((lock, passes)) => Ok((Shared { number, lock }, passes)),
            Err(error) => Err(error),
        }
    }

    /// Makes a call that may change the machine, and returns the machine's reply.
    ///
    /// `when` gives the reading of the call, and replaces the one in it. A call without a reading
    /// stays as it is.
    ///
    /// # Errors
    ///
    /// Those of [`CallError`], in its order. The machine refuses a call for the reasons of its
    /// method, in their order; a table refuses no restart. An error leaves the machine and its
    /// history unchanged.
    pub fn write<R: Wait>(
        &self,
        rt: &R,
        pass: &mut Pass<M>,
        draws: &mut Draws<'_>,
        call: M::Call,
        when: When,
    ) -> Result<M::Reply, CallError<M::Fault>>
        requires own { IsPassOf self.now.lock pass.old }
        ensures own { IsPassOf self.now.lock pass.new }
        ensures ticket { draws.new.ticket ≡ draws.old.ticket }
        ensures answer { CalledToWrite M.step self.now.lock draws.old.pass draws.new.pass (λ ticket. made_at M.at when call ticket)
            (λ ticket. M.recorded self.now.number (made_at M.at when call ticket)) M.told pass.old result pass.new }
        ensures reply { IfOk result (λ reply. M.is_reply call reply) }
        ensures unrefused { IfErr result (λ error. M.may_refuse call ≡ false → IsNoRefusal error) }
    {
        let order = Order {
            actor: self.number,
            call,
            when,
        };
        write(rt, &self.lock, pass, draws, order)
    }

    /// Answers a query from the machine's state, and returns the answer with its record.
    ///
    /// `when` gives the reading of the query, and replaces the one in it. A query without a
    /// reading stays as it is. Fails with [`Spent`] if the ticket pass may draw no more.
    pub fn ask<R: Wait, Q: RecordedQuery<M>>(
        &self,
        rt: &R,
        pass: &mut Pass<M>,
        draws: &mut Draws<'_>,
        query: Q,
        when: When,
    ) -> Result<Recorded<Q::Answer>, Spent>
        requires own { IsPassOf self.now.lock pass.old }
        ensures own { IsPassOf self.now.lock pass.new }
        ensures ticket { draws.new.ticket ≡ draws.old.ticket }
        ensures answer { CalledToAsk draws.old.pass draws.new.pass
            (AsksFor M.step self.now.lock draws.old.pass draws.new.pass (λ machine ticket answer. Q.answers (made_at Q.at when query ticket) machine answer)
            (λ ticket. Q.recorded self.now.number (made_at Q.at when query ticket)) Q.told)
            pass.old result pass.new }
    {
        let turn = Turn {
            gate: &OpenGate,
            worker: 0,
            ask: 0,
            when,
        };
        self.ask_gated(rt, pass, draws, query, &turn)
    }

    /// Does what [`Self::ask`] does, and calls a gate inside the call.
    ///
    /// The gate of `turn` is called after the ticket was drawn, while the lane is held.
    pub fn ask_gated<R: Wait, Q: RecordedQuery<M>, G: Gate>(
        &self,
        rt: &R,
        pass: &mut Pass<M>,
        draws: &mut Draws<'_>,
        query: Q,
        turn: &Turn<'_, G>,
    ) -> Result<Recorded<Q::Answer>, Spent>
        requires own { IsPassOf self.now.lock pass.old }
        ensures own { IsPassOf self.now.lock pass.new }
        ensures ticket { draws.new.ticket ≡ draws.old.ticket }
        ensures answer { CalledToAsk draws.old.pass draws.new.pass
            (AsksFor M.step self.now.lock draws.old.pass draws.new.pass (λ machine ticket answer. Q.answers (made_at Q.at turn.now.when query ticket) machine answer)
            (λ ticket. Q.recorded self.now.number (made_at Q.at turn.now.when query ticket)) Q.told)
            pass.old result pass.new }
    {
        let (drawn, answer) = read_gated(rt, &self.lock, pass, draws, query, turn)?;
        Ok(recorded::<M, Q>(
            self.number,
            asked_at(query, turn.when, drawn),
            drawn,
            answer,
        ))
    }

    /// Does what [`Self::ask`] does, without waiting.
    ///
    /// # Errors
    ///
    /// Those of [`TryError`], in its order: the ticket pass may draw no more, or a lane is held.
    pub fn try_ask<Q: RecordedQuery<M>>(
        &self,
        pass: &mut Pass<M>,
        draws: &mut Draws<'_>,
        query: Q,
        when: When,
    ) -> Result<Recorded<Q::Answer>, TryError>
        requires own { IsPassOf self.now.lock pass.old }
        ensures own { IsPassOf self.now.lock pass.new }
        ensures ticket { draws.new.ticket ≡ draws.old.ticket }
        ensures answer { TriedToAsk M.step self.now.lock draws.old.pass draws.new.pass
            (AsksAtOnceFor M.step self.now.lock draws.old.pass draws.new.pass (λ machine ticket answer. Q.answers (made_at Q.at when query ticket) machine answer)
            (λ ticket. Q.recorded self.now.number (made_at Q.at when query ticket)) Q.told)
            pass.old result pass.new }
    {
        let (drawn, answer) = try_read(&self.lock, pass, draws, query, when)?;
        Ok(recorded::<M, Q>(self.number, asked_at(query, when, drawn), drawn, answer))
    }

    /// Closes the object and returns the machine and the history of its calls.
    ///
    /// The passes of all lanes must be given. If one is missing, [`NotClosed`] returns the object
    /// and the passes unchanged.
    pub fn close(self, passes: Vec<Pass<M>>) -> Result<Closed<M>, NotClosed<M>>
        requires { ArePassesOf self.lock passes.items }
        ensures closed { IfOk result (λ closed. IsWhole M.step self.lock passes.items closed.machine closed.history) }
        ensures accepted { OnOk result ((lane : ℕ) → lane < self.lock.opened.lanes → has_lane lane passes.items ≡ true) }
        ensures missing { IfErr result (λ back. (back.object ≡ self) × (back.passes.items ≡ passes.items)
            × ((lane : ℕ) × (lane < self.lock.opened.lanes) × (has_lane lane passes.items ≡ false))) }
    {
        let Shared { number, lock } = self;
        match lock.close(passes) {
            Ok(closed) => Ok(closed),
            Err(missing) => {
                let (lock, passes) = missing.into_parts();
                let object = Shared { number, lock };
                Err(NotClosed { object, passes })
            }
        }
    }
}

// Returns the answer to a query that drew a ticket, with its record.
fn recorded<M, Q: RecordedQuery<M>>(
    actor: u64,
    query: Q,
    drawn: u64,
    answer: Q::Answer,
) -> Recorded<Q::Answer>
    ensures answer { result.answer ≡ answer }
    ensures ticket { result.call.ticket ≡ drawn }
    ensures step { result.call.step ≡ Q.recorded actor query }
    ensures reply { result.call.reply ≡ Q.told answer }
{
    let call = CallRecord {
        ticket: drawn,
        step: query.into_record(actor),
        reply: Q::tell(&answer),
    };
    Recorded { answer, call }
}
