//! Writes of a lock, whose events are calls that draw a ticket.

ghost use Rattle.std.specs.Prelude.{◌≡◌, Some, IfSome};
ghost use Rattle.history_lock.specs.Passes.{IsPassOf};
ghost use Rattle.shared_objects.specs.Actors.{made_at};
ghost use Rattle.shared_objects.specs.Draws.{CanDraw, DrewFor};
ghost use Rattle.shared_objects.specs.Calls.{CalledToWrite};

use crate::actor::Actor;
use crate::draws::Draws;
use crate::error::{CallError, RefusedCall};
use crate::when::When;
use history_lock::{LaneLock, Pass, WriteError};
use job_calls::CallRecord;
use machines::Event;
use std::sync::Wait;

/// A call of the actor with this number, and the reading that it is made at.
#[derive(Drop)]
pub(crate) struct Order<C> {
    pub(crate) actor: u64,
    pub(crate) call: C,
    pub(crate) when: When,
}

// Makes one write of the lock, whose event is the ordered call at the ticket that it draws.
pub(crate) fn write<R: Wait, M: Actor>(
    rt: &R,
    lock: &LaneLock<M>,
    pass: &mut Pass<M>,
    draws: &mut Draws<'_>,
    order: Order<M::Call>,
) -> Result<M::Reply, CallError<M::Fault>>
    requires own { IsPassOf lock.now pass.old }
    ensures own { IsPassOf lock.now pass.new }
    ensures ticket { draws.new.ticket ≡ draws.old.ticket }
    ensures answer { CalledToWrite M.step lock.now draws.old.pass draws.new.pass (λ ticket. made_at M.at order.when order.call ticket)
        (λ ticket. M.recorded order.actor (made_at M.at order.when order.call ticket)) M.told pass.old result pass.new }
{
    if draws.left() == 0 {
        return Err(CallError::Spent);
    }
    let Order { actor, call, when } = order;
    let mut call = Some(call);
    let mut make = || -> Event<M::Call>
        requires can { CanDraw draws.now.pass }
        requires call { (given : M.Call) × (call ≡ Some given) }
        ensures ticket { draws.exit.now.ticket ≡ draws.entry.now.ticket }
        ensures made { IfSome call.entry (λ given. DrewFor (λ ticket. made_at M.at when given ticket) draws.entry.now.pass result draws.exit.now.pass) }
    {
        let ticket = draws.draw();
        event_of::<M>(call.take().unwrap(), when, ticket)
    };
    match lock.write(rt, pass, &mut make) {
        Ok(reply) => Ok(reply),
        Err(WriteError::HistoryFull) => Err(CallError::HistoryFull),
        Err(WriteError::NoMemory) => Err(CallError::NoMemory),
        Err(WriteError::Refused { event, fault }) => Err(CallError::Refused(refused_call::<M>(
            actor, event, fault,
        ))),
    }
}

// Returns the event of a call that drew a ticket.
fn event_of<M: Actor>(call: M::Call, when: When, ticket: u64) -> Event<M::Call>
    ensures ticket { result.ticket ≡ ticket }
    ensures call { result.call ≡ made_at M.at when call ticket }
{
    let call = M::at(call, when.reading(ticket));
    Event { ticket, call }
}

// Returns the refusal of an actor's event by the machine, with its record.
fn refused_call<M: Actor>(
    actor: u64,
    event: Event<M::Call>,
    fault: M::Fault,
) -> RefusedCall<M::Fault>
    ensures fault { result.fault ≡ fault }
    ensures ticket { result.call.ticket ≡ event.ticket }
    ensures step { result.call.step ≡ M.recorded actor event.call }
    ensures reply { result.call.reply ≡ M.told fault }
{
    let call = CallRecord {
        ticket: event.ticket,
        step: M::into_record(actor, event.call),
        reply: M::tell(&fault),
    };
    RefusedCall { fault, call }
}
