//! Shared calls of a lock, which draw a ticket and answer a query.

ghost use Rattle.std.specs.Prelude.{◌≡◌};
ghost use Rattle.history_lock.specs.Passes.{IsPassOf};
ghost use Rattle.tickets.specs.Tickets.{IsDrawn};
ghost use Rattle.shared_objects.specs.Actors.{made_at};
ghost use Rattle.shared_objects.specs.Draws.{CanDraw};
ghost use Rattle.shared_objects.specs.Calls.{Asks, AsksAtOnce, CalledToAsk, TriedToAsk};

use crate::draws::Draws;
use crate::error::TryError;
use crate::gate::{Gate, Turn};
use crate::query::Query;
use crate::when::When;
use history_lock::{LaneLock, Pass};
use machines::Machine;
use std::sync::Wait;
use tickets::Spent;

// Returns the query that is asked by the call that drew a ticket.
pub(crate) fn asked_at<M, Q: Query<M>>(query: Q, when: When, ticket: u64) -> Q
    ensures { result ≡ made_at Q.at when query ticket }
{
    query.at(when.reading(ticket))
}

// Makes one shared call of the lock, which draws a ticket, calls the gate and answers the query.
pub(crate) fn read_gated<R: Wait, M: Machine, Q: Query<M>, G: Gate>(
    rt: &R,
    lock: &LaneLock<M>,
    pass: &mut Pass<M>,
    draws: &mut Draws<'_>,
    query: Q,
    turn: &Turn<'_, G>,
) -> Result<(u64, Q::Answer), Spent>
    requires own { IsPassOf lock.now pass.old }
    ensures own { IsPassOf lock.now pass.new }
    ensures ticket { draws.new.ticket ≡ draws.old.ticket }
    ensures answer { CalledToAsk draws.old.pass draws.new.pass
        (λ before asked after. Asks M.step lock.now draws.old.pass draws.new.pass (λ machine drawn answer. Q.answers (made_at Q.at turn.now.when query drawn) machine answer) before asked.0 asked.1 after)
        pass.old result pass.new }
{
    if draws.left() == 0 {
        return Err(Spent);
    }
    let mut inside = |machine: &M| -> (u64, Q::Answer)
        requires can { CanDraw draws.now.pass }
        ensures ticket { draws.exit.now.ticket ≡ draws.entry.now.ticket }
        ensures drawn { IsDrawn draws.entry.now.pass result.0 draws.exit.now.pass }
        ensures answers { Q.answers (made_at Q.at turn.entry.now.when query result.0) machine.now result.1 }
    {
        let drawn = draws.draw();
        turn.gate.inside(rt, turn.worker, turn.ask, drawn);
        (drawn, asked_at(query, turn.when, drawn).ask(machine))
    };
    Ok(lock.shared(rt, pass, &mut inside))
}

// Does the same without a gate and without waiting.
pub(crate) fn try_read<M: Machine, Q: Query<M>>(
    lock: &LaneLock<M>,
    pass: &mut Pass<M>,
    draws: &mut Draws<'_>,
    query: Q,
    when: When,
) -> Result<(u64, Q::Answer), TryError>
    requires own { IsPassOf lock.now pass.old }
    ensures own { IsPassOf lock.now pass.new }
    ensures ticket { draws.new.ticket ≡ draws.old.ticket }
    ensures answer { TriedToAsk M.step lock.now draws.old.pass draws.new.pass
        (λ before asked after. AsksAtOnce M.step lock.now draws.old.pass draws.new.pass (λ machine drawn answer. Q.answers (made_at Q.at when query drawn) machine answer) before asked.0 asked.1 after)
        pass.old result pass.new }
{
    if draws.left() == 0 {
        return Err(TryError::Spent);
    }
    let mut inside = |machine: &M| -> (u64, Q::Answer)
        requires can { CanDraw draws.now.pass }
        ensures ticket { draws.exit.now.ticket ≡ draws.entry.now.ticket }
        ensures drawn { IsDrawn draws.entry.now.pass result.0 draws.exit.now.pass }
        ensures answers { Q.answers (made_at Q.at when query result.0) machine.now result.1 }
    {
        let drawn = draws.draw();
        (drawn, asked_at(query, when, drawn).ask(machine))
    };
    lock.try_shared(pass, &mut inside).map_err(TryError::Busy)
}
