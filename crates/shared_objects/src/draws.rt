//! The draws of a thread.

ghost use Rattle.std.specs.Prelude.{◌≡◌, ◌+◌, length};
ghost use Rattle.tickets.specs.Tickets.{DrawsFrom, IsDrawn};
ghost use Rattle.shared_objects.specs.Draws.{CanDraw};

use tickets::{Ticket, TicketPass};

/// The right of a thread to draw numbers of a ticket: the ticket, and a pass of it.
///
/// Each call of a shared object draws one number, its own ticket.
#[derive(Drop)]
pub struct Draws<'a> {
    ticket: &'a Ticket,
    pass: TicketPass,
    ghost own: { DrawsFrom ticket.now pass },
}

impl<'a> Draws<'a> {
    /// Creates the draws of a pass of this ticket.
    pub fn new(ticket: &'a Ticket, pass: TicketPass) -> Draws<'a>
        requires { DrawsFrom ticket.now pass }
        ensures ticket { result.ticket.now ≡ ticket.now }
        ensures pass { result.pass ≡ pass }
    {
        Draws { ticket, pass }
    }

    /// Returns how many numbers may still be drawn.
    pub fn left(&self) -> u64
        ensures { result + length self.now.pass.drawn ≡ self.now.pass.terms.quota }
    {
        self.pass.left()
    }

    /// Returns the pass, which is needed to close the ticket.
    pub fn into_pass(self) -> TicketPass
        ensures pass { result ≡ self.entry.pass }
        ensures own { DrawsFrom self.entry.ticket.now result }
    {
        self.pass
    }

    // Draws the next number. One must be left.
    pub(crate) fn draw(&mut self) -> u64
        requires { CanDraw self.old.pass }
        ensures ticket { self.new.ticket ≡ self.old.ticket }
        ensures drawn { IsDrawn self.old.pass result self.new.pass }
    {
        let Ok(number) = self.ticket.draw(&mut self.pass) else {
            unreachable!()
        };
        number
    }
}
