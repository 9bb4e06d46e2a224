//! Tickets: numbers that any number of threads draw, each number once and none left out.

ghost use Rattle.std.specs.Prelude.{◌≡◌, ◌≢◌, ◌+◌, ◌<◌, [], ◌++◌, true, if◌then◌else◌, All, length, vec_len};
ghost use Rattle.std.specs.Prelude.{IfOk, OnOk, IfErr, IsErr};
ghost use mathlib.Core.Logic.{◌↔◌};
ghost use Rattle.tickets.specs.declared.ticket.TicketError.TheVariants as ticket_error;
ghost use Rattle.tickets.specs.TicketRule.{first_share};
ghost use Rattle.tickets.specs.internals.TicketSeats.{IsDealing, IsWhole, ticket_at};
ghost use Rattle.tickets.specs.Tickets.{DrawsFrom, DrewEachBelow, IsDrawn, is_allowed, new_ticket_pass};

use crate::ticket_rule::{
    DealPass, Draw, GatherPass, TicketSeat, TicketTable, TicketTerms, TicketWord,
};
use atomic_table::Table;
use std::alloc::{AllocError, Global};
use std::marker::Model;

/// The greatest number of passes of a ticket.
pub const MOST_PASSES: u64 = 128;

/// The greatest number of draws of a pass, 2^32.
pub const MOST_DRAWS: u64 = 1 << 32;

/// A ticket: a counter whose numbers, from 0 on, are drawn by passes, each number once.
///
/// Contracts see which ticket it is, how many passes it has, and how many numbers each may draw.
#[derive(Drop)]
pub struct Ticket {
    table: TicketTable,
    passes: u64,
}

impl Model for Ticket {
    ghost use Rattle.tickets.specs.Tickets.{TicketView};
    ghost use Rattle.tickets.specs.internals.TicketSeats.{IsOfOneWord, ticket_at};

    ghost Value = { TicketView };

    ghost view = { λ t. ticket_at t.table.shared.table_id t.table.shared.key };

    ghost invariant = { λ t. IsOfOneWord t.table.shared.table_id t.table.shared.key t.passes };
}

/// A pass: the right to draw a given number of numbers from one ticket.
///
/// Contracts see the numbers that the pass drew, which are not kept when the program runs.
#[derive(Drop)]
pub struct TicketPass {
    seat: TicketSeat,
    left: u64,
}

impl Model for TicketPass {
    ghost use Rattle.tickets.specs.Tickets.{TicketPassView};
    ghost use Rattle.tickets.specs.internals.TicketSeats.{IsResting, pass_at};

    ghost Value = { TicketPassView };

    ghost view = { λ p. pass_at p.seat.table_id p.seat.me.0 };

    ghost invariant = { λ p. IsResting p.seat.me p.left };
}

impl TicketPass {
    /// Returns how many numbers the pass may still draw.
    pub fn left(&self) -> u64
        ensures { result + length self.now.drawn ≡ self.now.terms.quota }
    {
        self.left
    }
}

/// Why no ticket was made.
#[derive(Debug, Drop)]
pub enum TicketError {
    /// The number of passes is not 1 to 128, or the number of draws of a pass is not 1 to 2^32.
    Passes,
    /// Memory for the ticket and its passes ran out.
    NoMemory,
}

impl From<AllocError> for TicketError {
    ghost from_gives = { λ _ e. e ≡ ticket_error.NoMemory };

    fn from(_error: AllocError) -> Self {
        TicketError::NoMemory
    }
}

/// The error of a pass that has drawn all the numbers that it may.
#[derive(Clone, Copy, Debug, PartialEq, Eq)]
pub struct Spent;

/// The error of a close that lacks a pass; it holds the ticket and the passes, unchanged.
#[derive(Drop)]
pub struct PassesMissing {
    /// The ticket.
    pub ticket: Ticket,
    /// The passes that were to close it.
    pub passes: Vec<TicketPass>,
}

impl Ticket {
    /// Creates a ticket with `passes` passes, each of which may draw `quota` numbers.
    ///
    /// Errors, in this order: [`TicketError::Passes`], if `passes` is not 1 to 128 or `quota` is
    /// not 1 to 2^32; out of memory.
    pub fn new(
        alloc: Global,
        passes: u64,
        quota: u64,
    ) -> Result<(Ticket, Vec<TicketPass>), TicketError>
        ensures made { IfOk result (λ made. (made.0.terms ≡ record { passes = passes; quota = quota })
            × (vec_len made.1 ≡ passes) × All (λ pass. pass ≡ new_ticket_pass made.0) made.1.items) }
        ensures accepted { OnOk result (is_allowed passes quota ≡ true) }
        ensures refused { IfErr result (λ e. e ≡ (if is_allowed passes quota
            then ticket_error.NoMemory else ticket_error.Passes)) }
    {
        if passes == 0 || passes > MOST_PASSES || quota == 0 || quota > MOST_DRAWS {
            return Err(TicketError::Passes);
        }
        let terms = TicketTerms { passes, quota };
        let (table, mut dealer) = Table::of_words(alloc, &[0], &terms)?;
        let dealt = deal(alloc, &table.shared, &mut dealer, terms)?;
        Ok((Ticket { table, passes }, dealt))
    }

    /// Draws the next number of the ticket for this pass.
    ///
    /// The only error is `Spent`, if the pass has drawn all the numbers that it may; it leaves the
    /// pass unchanged.
    pub fn draw(&self, pass: &mut TicketPass) -> Result<u64, Spent>
        requires own { DrawsFrom self.now pass.old }
        ensures own { DrawsFrom self.now pass.new }
        ensures drawn { IfOk result (λ number. IsDrawn pass.old number pass.new) }
        ensures spent { IsErr result ↔ (length pass.old.drawn ≡ pass.old.terms.quota) }
        ensures refused { IfErr result (λ _. pass.new ≡ pass.old) }
    {
        if pass.left == 0 {
            return Err(Spent);
        }
        let number = self.table.shared.fetch_add::<Draw>(&mut pass.seat, 0, 1);
        pass.left -= 1;
        Ok(number)
    }

    /// Closes the ticket and returns how many numbers were drawn, if all passes are given.
    ///
    /// The only error is [`PassesMissing`], which returns the ticket and the passes unchanged.
    pub fn close(self, passes: Vec<TicketPass>) -> Result<u64, PassesMissing>
        requires own { All (DrawsFrom self) passes.items }
        ensures closed { IfOk result (λ drawn. DrewEachBelow drawn passes.items) }
        ensures missing { IsErr result ↔ (vec_len passes ≢ self.terms.passes) }
        ensures back { IfErr result (λ back. (back.ticket ≡ self) × (back.passes ≡ passes)) }
    {
        if passes.len() as u64 != self.passes {
            return Err(PassesMissing {
                ticket: self,
                passes,
            });
        }
        let Ticket { table, passes: _ } = self;
        let seat = gather(&table.shared, passes);
        let closed = table.close_with(seat);
        let drawn = closed.word(0);
        closed.free();
        Ok(drawn)
    }
}

// All passes of a new ticket.
fn deal(
    alloc: Global,
    word: &TicketWord,
    dealer: &mut TicketSeat,
    terms: TicketTerms,
) -> Result<Vec<TicketPass>, AllocError>
    requires table { (dealer.old.table_id ≡ word.now.table_id) × (word.now.table_id.words ≡ 1) }
    requires key { word.now.key ≡ terms }
    requires first { dealer.old.me ≡ (first_share terms, []) }
    ensures { IfOk result (λ passes. (vec_len passes ≡ terms.passes)
        × All (λ pass. pass ≡ new_ticket_pass (ticket_at word.now.table_id terms)) passes.items) }
{
    let mut passes = Vec::new(alloc);
    for _ in 0..terms.passes {
        passes.reserve(1)?;
        passes.push_reserved(deal_one(word, dealer, terms));
    }
    Ok(passes)
}

// The next pass of a new ticket.
fn deal_one(word: &TicketWord, dealer: &mut TicketSeat, terms: TicketTerms) -> TicketPass
    requires table { (dealer.old.table_id ≡ word.now.table_id) × (word.now.table_id.words ≡ 1) }
    requires key { word.now.key ≡ terms }
    requires dealer { IsDealing dealer.old.me terms × (0 < dealer.old.me.0.passes) }
    ensures table { dealer.new.table_id ≡ dealer.old.table_id }
    ensures dealer { IsDealing dealer.new.me terms × (dealer.new.me.0.passes + 1 ≡ dealer.old.me.0.passes) }
    ensures pass { result ≡ new_ticket_pass (ticket_at word.now.table_id terms) }
{
    let seat = word.split_seat::<DealPass>(dealer);
    TicketPass {
        seat,
        left: terms.quota,
    }
}

// One seat for all these passes.
fn gather(word: &TicketWord, mut passes: Vec<TicketPass>) -> TicketSeat
    requires word { word.now.table_id.words ≡ 1 }
    requires some { 0 < vec_len passes }
    requires own { All (λ pass. pass.table ≡ word.now.table_id) passes.items }
    ensures table { result.table_id ≡ word.now.table_id }
    ensures gathered { IsWhole result.me passes.items }
{
    let TicketPass { mut seat, left: _ } = passes.pop().unwrap();
    while let Some(pass) = passes.pop() {
        take_in(word, &mut seat, pass);
    }
    seat
}

// Joins one more pass into the seat.
fn take_in(word: &TicketWord, seat: &mut TicketSeat, pass: TicketPass)
    requires table { (seat.old.table_id ≡ word.now.table_id) × (word.now.table_id.words ≡ 1) }
    requires own { pass.table ≡ word.now.table_id }
    requires some { 0 < seat.old.me.0.passes }
    ensures table { seat.new.table_id ≡ seat.old.table_id }
    ensures bare { seat.new.me.1 ≡ seat.old.me.1 }
    ensures one_more { seat.new.me.0.passes ≡ seat.old.me.0.passes + 1 }
    ensures drew { seat.new.me.0.drawn ≡ seat.old.me.0.drawn ++ pass.drawn }
{
    let TicketPass {
        seat: other,
        left: _,
    } = pass;
    word.join_seat::<GatherPass>(seat, other);
}
