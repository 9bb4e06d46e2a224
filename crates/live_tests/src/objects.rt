//! The objects that the tests share, each of one lane, and tickets of one pass.

ghost use Rattle.std.specs.Prelude.{IfOk};
ghost use Rattle.history_lock.specs.Passes.{IsPassOf};
ghost use Rattle.tickets.specs.Tickets.{DrawsFrom};

use assignment::{Assignment, Slice, TaskId};
use clerk::{Clerk, ClerkEvent};
use grants::Policy;
use history_lock::{Closed, History, Pass};
use lease_table::{LeaseTable, TableEvent};
use machines::Listed;
use shared_objects::{SharedClerk, SharedSlicelet, SharedTable};
use slicelet::{Slicelet, SliceletEvent};
use std::alloc::Global;
use std::test::Fail;
use tickets::{Ticket, TicketPass};

// The half of the key space: "hello" lies below it.
const HALF: u64 = 1 << 62;

// A generation that gives the lower half to one task and the upper half to another.
pub fn halves(alloc: Global, generation: u64, lower: u64, upper: u64) -> Result<Assignment, Fail> {
    let mut slices = Vec::new(alloc);
    for (start, owner) in [(0, lower), (HALF, upper)] {
        slices.push(Slice {
            start,
            owners: Listed::from_slice(alloc, &[owner])?,
        })?;
    }
    Ok(
        Assignment::build(alloc, generation, &slices)
            .ok()
            .ok_or("two slices make an assignment")?,
    )
}

// Generation 1, which gives the lower half to task 1 and the upper half to task 2.
pub fn first_assignment(alloc: Global) -> Result<Assignment, Fail> {
    halves(alloc, 1, 1, 2)
}

pub fn first_task() -> Result<TaskId, Fail> {
    Ok(TaskId::new(1).ok_or("1 is the number of a task")?)
}

pub fn policy() -> Result<Policy, Fail> {
    Ok(Policy::new(1, 1, 10, 100, 100, 1000, 1000).ok_or("within the limits")?)
}

/// A table, task 1 and a clerk, each of one lane.
#[derive(Drop)]
pub struct Objects {
    pub table: SharedTable,
    pub task: SharedSlicelet,
    pub clerk: SharedClerk,
}

/// The one pass of each object.
#[derive(Drop)]
pub struct Passes {
    pub table: Pass<LeaseTable>,
    pub task: Pass<Slicelet>,
    pub clerk: Pass<Clerk>,
}

/// Creates all objects and their passes.
pub fn open_all(alloc: Global) -> Result<(Objects, Passes), Fail>
    ensures { IfOk result (λ made. IsPassOf made.0.table.lock made.1.table × IsPassOf made.0.task.lock made.1.task × IsPassOf made.0.clerk.lock made.1.clerk) }
{
    let (table, table_pass) = open_table(alloc, 10)?;
    let (task, task_pass) = open_task(alloc)?;
    let (clerk, clerk_pass) = open_clerk(alloc)?;
    let objects = Objects { table, task, clerk };
    let passes = Passes {
        table: table_pass,
        task: task_pass,
        clerk: clerk_pass,
    };
    Ok((objects, passes))
}

/// Creates an object of one lane over a copy of a table, and its one pass.
pub fn open_over(
    alloc: Global,
    table: &LeaseTable,
    entries: usize,
) -> Result<(SharedTable, Pass<LeaseTable>), Fail>
    ensures { IfOk result (λ made. IsPassOf made.0.lock made.1) }
{
    let made = SharedTable::over(alloc, table, 0, 1, entries);
    let (table, mut others) = made.ok().ok_or("one lane and some entries")?;
    let pass = others.pop().ok_or("the pass of lane 0")?;
    Ok((table, pass))
}

/// Creates a table of one lane whose history holds this many entries, and its one pass.
pub fn open_table(alloc: Global, entries: usize) -> Result<(SharedTable, Pass<LeaseTable>), Fail>
    ensures { IfOk result (λ made. IsPassOf made.0.lock made.1) }
{
    let made = SharedTable::new(alloc, policy()?, 1, entries);
    let (table, mut others) = made.ok().ok_or("one lane and some entries")?;
    let pass = others.pop().ok_or("the pass of lane 0")?;
    Ok((table, pass))
}

fn open_task(alloc: Global) -> Result<(SharedSlicelet, Pass<Slicelet>), Fail>
    ensures { IfOk result (λ made. IsPassOf made.0.lock made.1) }
{
    let made = SharedSlicelet::new(alloc, first_task()?, 1, 10);
    let (task, mut others) = made.ok().ok_or("one lane and ten entries")?;
    let pass = others.pop().ok_or("the pass of lane 0")?;
    Ok((task, pass))
}

fn open_clerk(alloc: Global) -> Result<(SharedClerk, Pass<Clerk>), Fail>
    ensures { IfOk result (λ made. IsPassOf made.0.lock made.1) }
{
    let made = SharedClerk::new(alloc, 1, 1, 10);
    let (clerk, mut others) = made.ok().ok_or("one lane and ten entries")?;
    let pass = others.pop().ok_or("the pass of lane 0")?;
    Ok((clerk, pass))
}

/// Creates a ticket of one pass that may draw this many numbers, and that pass.
pub fn open_ticket(alloc: Global, draws: u64) -> Result<(Ticket, TicketPass), Fail>
    ensures { IfOk result (λ made. DrawsFrom made.0 made.1) }
{
    let made = Ticket::new(alloc, 1, draws);
    let (ticket, mut others) = made.ok().ok_or("one pass")?;
    let pass = others.pop().ok_or("the one pass")?;
    Ok((ticket, pass))
}

/// Closes a table of one lane, and returns its machine and its history.
pub fn close_whole(
    alloc: Global,
    table: SharedTable,
    pass: Pass<LeaseTable>,
) -> Result<Closed<LeaseTable>, Fail>
    requires { IsPassOf table.lock pass }
{
    let mut passes = Vec::new(alloc);
    passes.push(pass)?;
    Ok(table.close(passes).ok().ok_or("its one pass is there")?)
}

pub fn close_table(
    alloc: Global,
    table: SharedTable,
    pass: Pass<LeaseTable>,
) -> Result<History<TableEvent>, Fail>
    requires { IsPassOf table.lock pass }
{
    Ok(close_whole(alloc, table, pass)?.history)
}

pub fn close_task(
    alloc: Global,
    task: SharedSlicelet,
    pass: Pass<Slicelet>,
) -> Result<History<SliceletEvent>, Fail>
    requires { IsPassOf task.lock pass }
{
    let mut passes = Vec::new(alloc);
    passes.push(pass)?;
    let closed = task.close(passes).ok().ok_or("its one pass is there")?;
    Ok(closed.history)
}

pub fn close_clerk(
    alloc: Global,
    clerk: SharedClerk,
    pass: Pass<Clerk>,
) -> Result<History<ClerkEvent>, Fail>
    requires { IsPassOf clerk.lock pass }
{
    let mut passes = Vec::new(alloc);
    passes.push(pass)?;
    let closed = clerk.close(passes).ok().ok_or("its one pass is there")?;
    Ok(closed.history)
}
