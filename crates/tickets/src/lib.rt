//! Tickets: numbers that any number of threads draw, each number once and none left out.
#![tactic(auto)]

mod ticket;
mod ticket_rule;

pub use ticket::{MOST_DRAWS, MOST_PASSES, PassesMissing, Spent, Ticket, TicketError, TicketPass};
