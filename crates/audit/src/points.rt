//! Entries and records by ticket.

ghost use Rattle.std.specs.Prelude.{◌≡◌, ℕ, ◌+◌, ◌<◌, ◌++◌, All, length, map, IfOk, MatchOption, slice_index_or};
ghost use Rattle.std.specs.List.Sorted.{IsPermutation, IsNonDecreasingBy};
ghost use Rattle.job_calls.specs.declared.call.ClusterCall.TheVariants as call;
ghost use Rattle.audit.specs.OneRun.{all_turns, entry_turn, record_turn, ticket_of, turns_from, Falls, OneFalls, Rises};
ghost use Rattle.audit.specs.Shown.{evidence, turn_of};

use clerk::{ClerkCall, ClerkEvent};
use grants::{SliceletCall, TableCall};
use history_lock::{Entry, History};
use job_calls::CallRecord;
use lease_table::TableEvent;
use machines::Event;
use slicelet::SliceletEvent;
use std::alloc::{AllocError, Global};

// An entry of a history or a record of a caller.
#[derive(Clone, Copy)]
pub(crate) enum Point<'a> {
    Table(&'a TableEvent),
    Task(u64, &'a SliceletEvent),
    Clerk(u64, &'a ClerkEvent),
    Record(&'a CallRecord),
}

impl<'a> Point<'a> {
    pub(crate) fn ticket(&self) -> u64
        ensures { result ≡ (turn_of self.now).ticket }
    {
        match self {
            Point::Table(event) => event.ticket,
            Point::Task(_, event) => event.ticket,
            Point::Clerk(_, event) => event.ticket,
            Point::Record(record) => record.ticket,
        }
    }
}

fn add_table<'a>(
    points: &mut Vec<Point<'a>>,
    entries: &'a [Entry<TableEvent>],
) -> Result<(), AllocError>
    ensures { IfOk result (λ _. map turn_of points.new.items
        ≡ map turn_of points.old.items ++ map (entry_turn call.Table) entries.now) }
{
    for entry in entries {
        points.push(Point::Table(&entry.event))?;
    }
    Ok(())
}

fn add_task<'a>(
    points: &mut Vec<Point<'a>>,
    task: u64,
    entries: &'a [Entry<SliceletEvent>],
) -> Result<(), AllocError>
    ensures { IfOk result (λ _. map turn_of points.new.items
        ≡ map turn_of points.old.items ++ map (entry_turn (call.Task task)) entries.now) }
{
    for entry in entries {
        points.push(Point::Task(task, &entry.event))?;
    }
    Ok(())
}

fn add_clerk<'a>(
    points: &mut Vec<Point<'a>>,
    clerk: u64,
    entries: &'a [Entry<ClerkEvent>],
) -> Result<(), AllocError>
    ensures { IfOk result (λ _. map turn_of points.new.items
        ≡ map turn_of points.old.items ++ map (entry_turn (call.Clerk clerk)) entries.now) }
{
    for entry in entries {
        points.push(Point::Clerk(clerk, &entry.event))?;
    }
    Ok(())
}

fn add_tasks<'a>(
    points: &mut Vec<Point<'a>>,
    histories: &'a [History<SliceletEvent>],
) -> Result<(), AllocError>
    ensures { IfOk result (λ _. map turn_of points.new.items
        ≡ map turn_of points.old.items ++ turns_from call.Task 1 histories.now) }
{
    for place in 0..histories.len() {
        add_task(points, place as u64 + 1, histories[place].entries())?;
    }
    Ok(())
}

fn add_clerks<'a>(
    points: &mut Vec<Point<'a>>,
    histories: &'a [History<ClerkEvent>],
) -> Result<(), AllocError>
    ensures { IfOk result (λ _. map turn_of points.new.items
        ≡ map turn_of points.old.items ++ turns_from call.Clerk 1 histories.now) }
{
    for place in 0..histories.len() {
        add_clerk(points, place as u64 + 1, histories[place].entries())?;
    }
    Ok(())
}

fn add_records<'a>(points: &mut Vec<Point<'a>>, records: &'a [CallRecord]) -> Result<(), AllocError>
    ensures { IfOk result (λ _. map turn_of points.new.items
        ≡ map turn_of points.old.items ++ map record_turn records.now) }
{
    for record in records {
        points.push(Point::Record(record))?;
    }
    Ok(())
}

// Returns all entries and records.
fn points_of<'a>(
    alloc: Global,
    table: &'a History<TableEvent>,
    tasks: &'a [History<SliceletEvent>],
    clerks: &'a [History<ClerkEvent>],
    records: &'a [CallRecord],
) -> Result<Vec<Point<'a>>, AllocError>
    ensures { IfOk result (λ points. map turn_of points.items
        ≡ all_turns (evidence table.now tasks.now clerks.now records.now)) }
{
    let mut points = Vec::new(alloc);
    add_table(&mut points, table.entries())?;
    add_tasks(&mut points, tasks)?;
    add_clerks(&mut points, clerks)?;
    add_records(&mut points, records)?;
    Ok(points)
}

// Sorts points by ticket.
fn sort(points: &mut Vec<Point>)
    ensures same { IsPermutation points.old.items points.new.items }
    ensures order { IsNonDecreasingBy (λ p. (turn_of p).ticket) points.new.items }
{
    points.sort_unstable_by_key(|point| point.ticket());
}

// Returns all entries and records, sorted by ticket.
pub(crate) fn sorted_points<'a>(
    alloc: Global,
    table: &'a History<TableEvent>,
    tasks: &'a [History<SliceletEvent>],
    clerks: &'a [History<ClerkEvent>],
    records: &'a [CallRecord],
) -> Result<Vec<Point<'a>>, AllocError>
    ensures each { IfOk result (λ points. IsPermutation
        (all_turns (evidence table.now tasks.now clerks.now records.now)) (map turn_of points.items)) }
    ensures order { IfOk result (λ points. IsNonDecreasingBy (λ p. (turn_of p).ticket) points.items) }
{
    let mut points = points_of(alloc, table, tasks, clerks, records)?;
    sort(&mut points);
    Ok(points)
}

// Returns a ticket that occurs twice in sorted points, if there is one.
pub(crate) fn twice(points: &[Point]) -> Option<u64>
    requires { IsNonDecreasingBy (λ p. (turn_of p).ticket) points.now }
    ensures { MatchOption result (Rises (λ p. (turn_of p).ticket) points.now)
        (λ ticket. (k : ℕ) × (k + 1 < length points.now) × ((d : _)
        → ((turn_of (slice_index_or points.now k d)).ticket ≡ ticket) × ((turn_of (slice_index_or points.now (k + 1) d)).ticket ≡ ticket))) }
{
    for i in 1..points.len() {
        let before = points[i - 1].ticket();
        let ticket = points[i].ticket();
        if ticket == before {
            return Some(ticket);
        }
    }
    None
}

// Returns the ticket of the first entry that is not above that of the entry before it.
pub(crate) fn fall<C>(entries: &[Entry<Event<C>>]) -> Option<u64>
    ensures { MatchOption result (Rises ticket_of entries.now) (λ ticket. Falls entries.now ticket) }
{
    for i in 1..entries.len() {
        let before = entries[i - 1].event.ticket;
        let ticket = entries[i].event.ticket;
        if ticket <= before {
            return Some(ticket);
        }
    }
    None
}

// Does the same for several histories.
pub(crate) fn falls<C>(histories: &[History<Event<C>>]) -> Option<u64>
    ensures { MatchOption result (All (Rises ticket_of) histories.now) (λ ticket. OneFalls histories.now ticket) }
{
    for history in histories {
        if let Some(ticket) = fall(history.entries()) {
            return Some(ticket);
        }
    }
    None
}
