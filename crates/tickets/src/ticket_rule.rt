//! What is known of a ticket's word, and the steps on it.

use atomic_table::{Join, Play, Seat, Shared, Split, Table, TableRule};
use std::alloc::Global;
use std::collections::LinkedList;

/// The number of passes of a ticket, and the number of draws of each.
#[derive(Clone, Copy)]
pub struct TicketTerms {
    pub passes: u64,
    pub quota: u64,
}

/// What a seat at the word knows; it exists only in proofs.
pub struct TicketShare {
    pub terms: TicketTerms,
    /// How many passes the seat stands for.
    pub passes: u64,
    /// How many draws the seat has left.
    pub left: u64,
    /// The numbers that the seat drew, in order.
    pub drawn: LinkedList<u64>,
}

/// The table of a ticket's one word, which has one owner.
pub type TicketTable = Table<(), TicketShare, TicketTerms, EachOnce, Global>;

/// The same table as threads share it.
pub type TicketWord = Shared<(), TicketShare, TicketTerms, EachOnce>;

/// The seat of a pass at that table.
pub type TicketSeat = Seat<(), TicketShare>;

/// The rule of the table: what holds of the word and all seats between two steps.
pub struct EachOnce;

impl TableRule<(), TicketShare, TicketTerms> for EachOnce {
    ghost use Rattle.tickets.specs.TicketRule.{DrawsEachOnce, first_share};

    ghost holds = { λ terms s. DrawsEachOnce terms s };

    ghost first = { first_share };
}

/// A pass draws a number.
pub struct Draw;

impl Play<(), TicketShare> for Draw {
    ghost use Rattle.tickets.specs.TicketRule.{IsDrawnOn};

    ghost then = { λ _ before number after. IsDrawnOn before number after };
}

/// The dealer deals a pass.
pub struct DealPass;

impl Split<TicketShare> for DealPass {
    ghost use Rattle.tickets.specs.TicketRule.{share_after_dealing, new_share};

    ghost left = { share_after_dealing };

    ghost right = { λ share. new_share share.terms };
}

/// The closing ticket takes in a pass.
pub struct GatherPass;

impl Join<TicketShare> for GatherPass {
    ghost use Rattle.tickets.specs.TicketRule.{both_shares, no_share};

    ghost both = { both_shares };

    ghost spent = { no_share };
}
