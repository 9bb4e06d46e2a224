//! A table whose lock is full goes on under another lock.

use crate::objects::{close_table, close_whole, open_over, open_table, open_ticket, policy};
use audit::{Audit, Why, audit};
use history_lock::{Closed, History};
use job_calls::Job;
use lease_table::{LeaseTable, TableEvent};
use shared_objects::{CallError, Draws, When};
use std::alloc::Global;
use std::sync::Wait;
use std::test::Fail;

// What an audit finds of the history of a table alone.
fn audited(alloc: Global, table: &History<TableEvent>) -> Result<Audit, Fail> {
    let job = Job::new(policy()?, 1, 1, 1).ok_or("within the limits")?;
    Ok(audit(alloc, &job, table, &[], &[], &[])?)
}

// When assigner 1 renews its term.
const RENEWAL: When = When::At(5);

// Takes the job under a lock of one entry, finds the lock full, and closes it.
fn take_and_close<R: Wait>(
    rt: &R,
    alloc: Global,
    draws: &mut Draws<'_>,
) -> Result<Closed<LeaseTable>, Fail> {
    let (first, mut pass) = open_table(alloc, 1)?;
    let taken = first.take(rt, &mut pass, draws, 1, When::At(0));
    taken.ok().ok_or("nobody holds the job")?;
    let second = first.renew(rt, &mut pass, draws, 1, RENEWAL);
    let is_full = matches!(second, Err(CallError::HistoryFull));
    is_full.then_some(()).ok_or("there is room for one entry")?;
    close_whole(alloc, first, pass)
}

// Renews the term under another lock over the same table.
fn renew_later<R: Wait>(
    rt: &R,
    alloc: Global,
    draws: &mut Draws<'_>,
    table: &LeaseTable,
) -> Result<History<TableEvent>, Fail> {
    let (second, mut pass) = open_over(alloc, table, 1)?;
    let renewed = second.renew(rt, &mut pass, draws, 1, RENEWAL);
    renewed.ok().ok_or("term 1 is in force")?;
    close_table(alloc, second, pass)
}

#[test]
fn goes_on_over_the_table_that_a_full_lock_left(rt: HostRuntime) -> Result<(), Fail> {
    let alloc = rt.alloc();
    let (ticket, ticket_pass) = open_ticket(alloc, 2)?;
    let mut draws = Draws::new(&ticket, ticket_pass);
    let mut closed = take_and_close(&rt, alloc, &mut draws)?;
    let mut later = renew_later(&rt, alloc, &mut draws, closed.machine.get())?;
    // The second history alone begins with the renewal of a term that was never taken.
    let why = Why::RefusedEntry;
    assert_eq!(rt; audited(alloc, &later)?, Audit::No { ticket: 1, why });
    closed.history.append(&mut later)?;
    let timely = true;
    assert_eq!(rt;
        audited(alloc, &closed.history)?,
        Audit::One { steps: 2, timely }
    );
    Ok(())
}
