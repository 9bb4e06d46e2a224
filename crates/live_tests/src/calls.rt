//! The calls of shared objects by one thread.

ghost use Rattle.history_lock.specs.Passes.{IsPassOf};

use crate::objects::{
    Objects, Passes, close_clerk, close_table, close_task, first_assignment, first_task, open_all,
    open_ticket, policy,
};
use assignment::TaskId;
use audit::{Audit, audit};
use clerk::{Clerk, ClerkEvent};
use grants::{Phase, Row};
use history_lock::{History, Pass};
use job_calls::{CallRecord, ClusterReply, Job};
use lease_rule::{Kind, Verdict};
use lease_table::{LeaseTable, TableEvent};
use machines::Event;
use shared_objects::{Draws, Proposal, SharedClerk, SharedSlicelet, SharedTable, TaskLife, When};
use slice_ranges::slice_key;
use slicelet::{Slicelet, SliceletEvent};
use std::alloc::Global;
use std::sync::Wait;
use std::test::Fail;

// Assigner 1 takes the job, and proposes and commits generation 1: its term's end, and the generation.
pub fn commit_first<R: Wait>(
    rt: &R,
    alloc: Global,
    table: &SharedTable,
    pass: &mut Pass<LeaseTable>,
    draws: &mut Draws<'_>,
) -> Result<(u64, u64), Fail>
    requires own { IsPassOf table.now.lock pass.old }
    ensures own { IsPassOf table.now.lock pass.new }
{
    let first = first_assignment(alloc)?;
    let taken = table.take(rt, pass, draws, 1, When::At(0));
    let term = taken.ok().ok_or("nobody holds the job")?;
    let proposal = Proposal {
        term: term.number,
        assignment: first,
    };
    let proposed = table.propose(rt, pass, draws, proposal, When::At(1));
    proposed.ok().ok_or("nothing is proposed")?;
    let committed = table.commit(rt, pass, draws, term.number, When::At(2));
    let generation = committed.ok().ok_or("no row holds it up")?;
    Ok((term.until, generation))
}

// Task 1 starts its first life, is granted a lease and hears of it: the grant's number and its two ends.
fn hear_first<R: Wait>(
    rt: &R,
    table: &SharedTable,
    task: &SharedSlicelet,
    table_pass: &mut Pass<LeaseTable>,
    task_pass: &mut Pass<Slicelet>,
    draws: &mut Draws<'_>,
) -> Result<(u64, u64, u64), Fail>
    requires table { IsPassOf table.now.lock table_pass.old }
    requires task { IsPassOf task.now.lock task_pass.old }
    ensures table { IsPassOf table.now.lock table_pass.new }
    ensures task { IsPassOf task.now.lock task_pass.new }
{
    let started = task.start(rt, task_pass, draws, 1, When::At(3));
    started.ok().ok_or("no life was started")?;
    let life = TaskLife {
        task: first_task()?,
        life: 1,
    };
    let granted = table.grant(rt, table_pass, draws, life, When::At(5));
    let grant = granted.ok().ok_or("numbers are left")?;
    let numbers = (grant.number, grant.lease.ends, grant.table_ends);
    let heard = task.hear(rt, task_pass, draws, grant, When::At(6));
    heard.ok().ok_or("the grant is the task's first")?;
    Ok(numbers)
}

const SERVED: Verdict = Verdict::Allow {
    kind: Kind::Guard,
    generation: 1,
};

// What task 1 answers where it is asked for "hello", and where it is asked without waiting.
fn serve_twice<R: Wait>(
    rt: &R,
    task: &SharedSlicelet,
    pass: &mut Pass<Slicelet>,
    draws: &mut Draws<'_>,
    records: &mut Vec<CallRecord>,
) -> Result<(Verdict, Verdict), Fail>
    requires own { IsPassOf task.now.lock pass.old }
    ensures own { IsPassOf task.now.lock pass.new }
{
    let key = slice_key(b"hello");
    let served = task
        .serve(rt, pass, draws, key, When::At(7))
        .ok()
        .ok_or("a draw is left")?;
    let tried = task
        .try_serve(pass, draws, key, When::At(7))
        .ok()
        .ok_or("the lane is free")?;
    records.push(served.call)?;
    records.push(tried.call)?;
    Ok((served.answer, tried.answer))
}

// Whether task 1 held "hello" all the time since it took a handle, by its answer and by its record.
fn hold_and_check<R: Wait>(
    rt: &R,
    task: &SharedSlicelet,
    pass: &mut Pass<Slicelet>,
    draws: &mut Draws<'_>,
    records: &mut Vec<CallRecord>,
) -> Result<(bool, bool), Fail>
    requires own { IsPassOf task.now.lock pass.old }
    ensures own { IsPassOf task.now.lock pass.new }
{
    let held = task
        .hold(rt, pass, draws, slice_key(b"hello"), When::At(7))
        .ok()
        .ok_or("a draw is left")?;
    let handle = held.answer.ok().ok_or("the task may serve the key")?;
    records.push(held.call)?;
    let checked = task
        .check(rt, pass, draws, handle, When::At(8))
        .ok()
        .ok_or("a draw is left")?;
    let told = matches!(checked.call.reply, ClusterReply::Continuous);
    records.push(checked.call)?;
    Ok((checked.answer == Ok(true), told))
}

// The table's phase, and whether its one row is that of grant 1.
fn ask_table<R: Wait>(
    rt: &R,
    table: &SharedTable,
    pass: &mut Pass<LeaseTable>,
    draws: &mut Draws<'_>,
    records: &mut Vec<CallRecord>,
) -> Result<(Phase, bool), Fail>
    requires own { IsPassOf table.now.lock pass.old }
    ensures own { IsPassOf table.now.lock pass.new }
{
    let phase = table.phase(rt, pass, draws).ok().ok_or("a draw is left")?;
    records.push(phase.call)?;
    let rows = table
        .rows(rt, pass, draws)
        .ok()
        .ok_or("a draw is left, and memory")?;
    records.push(rows.call)?;
    Ok((phase.answer, is_grant_1(rows.answer.as_slice())))
}

fn is_grant_1(rows: &[Row]) -> bool {
    rows.len() == 1 && rows.iter().all(|row| row.number == 1)
}

// Assigner 1 renews its term: the term's end.
fn renew<R: Wait>(
    rt: &R,
    table: &SharedTable,
    pass: &mut Pass<LeaseTable>,
    draws: &mut Draws<'_>,
) -> Result<u64, Fail>
    requires own { IsPassOf table.now.lock pass.old }
    ensures own { IsPassOf table.now.lock pass.new }
{
    let renewed = table.renew(rt, pass, draws, 1, When::At(8));
    let term = renewed.ok().ok_or("assigner 1 holds the job")?;
    Ok(term.until)
}

// The clerk learns what is committed.
fn learn<R: Wait>(
    rt: &R,
    table: &SharedTable,
    clerk: &SharedClerk,
    table_pass: &mut Pass<LeaseTable>,
    clerk_pass: &mut Pass<Clerk>,
    draws: &mut Draws<'_>,
) -> Result<(), Fail>
    requires table { IsPassOf table.now.lock table_pass.old }
    requires clerk { IsPassOf clerk.now.lock clerk_pass.old }
    ensures table { IsPassOf table.now.lock table_pass.new }
    ensures clerk { IsPassOf clerk.now.lock clerk_pass.new }
{
    let committed = table
        .committed(rt, table_pass)?
        .ok_or("generation 1 is committed")?;
    let learnt = clerk.learn(rt, clerk_pass, draws, committed);
    learnt.ok().ok_or("the clerk has learnt nothing")?;
    Ok(())
}

// What the clerk knows of "hello" before it forgets it: the generation, and whether task 1 alone owns it.
fn look<R: Wait>(
    rt: &R,
    clerk: &SharedClerk,
    pass: &mut Pass<Clerk>,
    draws: &mut Draws<'_>,
    records: &mut Vec<CallRecord>,
) -> Result<(u64, bool), Fail>
    requires own { IsPassOf clerk.now.lock pass.old }
    ensures own { IsPassOf clerk.now.lock pass.new }
{
    let looked = clerk
        .look(rt, pass, draws, slice_key(b"hello"))
        .ok()
        .ok_or("a draw is left")?;
    records.push(looked.call)?;
    let found = looked.answer.ok().ok_or("the clerk has learnt")?;
    let alone = is_task_1(found.owners.as_slice());
    let forgot = clerk.forget(rt, pass, draws);
    forgot.ok().ok_or("a clerk forgets at any time")?;
    Ok((found.generation, alone))
}

fn is_task_1(owners: &[TaskId]) -> bool {
    owners.len() == 1 && owners.iter().all(|task| task.number() == 1)
}

// Task 1 gives up its lease, and the table frees its rows: how many they are.
fn give_up<R: Wait>(
    rt: &R,
    table: &SharedTable,
    task: &SharedSlicelet,
    table_pass: &mut Pass<LeaseTable>,
    task_pass: &mut Pass<Slicelet>,
    draws: &mut Draws<'_>,
) -> Result<u64, Fail>
    requires table { IsPassOf table.now.lock table_pass.old }
    requires task { IsPassOf task.now.lock task_pass.old }
    ensures table { IsPassOf table.now.lock table_pass.new }
    ensures task { IsPassOf task.now.lock task_pass.new }
{
    let released = task.release(rt, task_pass, draws, Kind::Guard, When::At(9));
    let note = released.ok().ok_or("the task holds a guard")?;
    let freed = table.free(rt, table_pass, draws, note, When::At(10));
    Ok(freed.ok().ok_or("the row is open")?)
}

// The tickets of a history's entries.
fn tickets_of<C>(history: &History<Event<C>>, alloc: Global) -> Result<Vec<u64>, Fail> {
    let mut tickets = Vec::new(alloc);
    for entry in history.entries() {
        tickets.push(entry.event.ticket)?;
    }
    Ok(tickets)
}

// What the calls answered, in their order.
#[derive(Clone, Copy, Debug, PartialEq, Eq)]
struct Seen {
    committed: (u64, u64),
    granted: (u64, u64, u64),
    served: (Verdict, Verdict),
    continuous: (bool, bool),
    table: (Phase, bool),
    renewed: u64,
    known: (u64, bool),
    freed: u64,
}

const SEEN: Seen = Seen {
    committed: (1000, 1),
    granted: (1, 95, 105),
    served: (SERVED, SERVED),
    continuous: (true, true),
    table: (Phase::Steady(1), true),
    renewed: 1008,
    known: (1, true),
    freed: 1,
};

// Makes all calls, with the 18 draws of one pass of the ticket.
fn play<R: Wait>(
    rt: &R,
    alloc: Global,
    objects: &Objects,
    passes: &mut Passes,
    draws: &mut Draws<'_>,
    records: &mut Vec<CallRecord>,
) -> Result<Seen, Fail>
    requires { IsPassOf objects.now.table.lock passes.old.table × IsPassOf objects.now.task.lock passes.old.task × IsPassOf objects.now.clerk.lock passes.old.clerk }
    ensures { IsPassOf objects.now.table.lock passes.new.table × IsPassOf objects.now.task.lock passes.new.task × IsPassOf objects.now.clerk.lock passes.new.clerk }
{
    let Objects { table, task, clerk } = objects;
    let Passes {
        table: p,
        task: q,
        clerk: r,
    } = passes;
    let committed = commit_first(rt, alloc, table, p, draws)?;
    let granted = hear_first(rt, table, task, p, q, draws)?;
    let served = serve_twice(rt, task, q, draws, records)?;
    let continuous = hold_and_check(rt, task, q, draws, records)?;
    let answered = ask_table(rt, table, p, draws, records)?;
    let renewed = renew(rt, table, p, draws)?;
    learn(rt, table, clerk, p, r, draws)?;
    Ok(Seen {
        committed,
        granted,
        served,
        continuous,
        table: answered,
        renewed,
        known: look(rt, clerk, r, draws, records)?,
        freed: give_up(rt, table, task, p, q, draws)?,
    })
}

// What the locks of the table, the task and the clerk keep.
#[derive(Drop)]
struct Histories {
    table: History<TableEvent>,
    task: History<SliceletEvent>,
    clerk: History<ClerkEvent>,
}

fn close(alloc: Global, objects: Objects, passes: Passes) -> Result<Histories, Fail>
    requires { IsPassOf objects.table.lock passes.table × IsPassOf objects.task.lock passes.task × IsPassOf objects.clerk.lock passes.clerk }
{
    let Objects { table, task, clerk } = objects;
    let Passes {
        table: p,
        task: q,
        clerk: r,
    } = passes;
    Ok(Histories {
        table: close_table(alloc, table, p)?,
        task: close_task(alloc, task, q)?,
        clerk: close_clerk(alloc, clerk, r)?,
    })
}

// What an audit finds of the histories and the records.
fn audited(alloc: Global, played: Histories, records: &[CallRecord]) -> Result<Audit, Fail> {
    let job = Job::new(policy()?, 1, 2, 1).ok_or("within the limits")?;
    let Histories { table, task, clerk } = played;
    Ok(audit(alloc, &job, &table, &[task], &[clerk], records)?)
}

#[test]
fn plays_the_calls_of_a_table_a_task_and_a_clerk(rt: HostRuntime) -> Result<(), Fail> {
    let alloc = rt.alloc();
    let (objects, mut passes) = open_all(alloc)?;
    let (ticket, ticket_pass) = open_ticket(alloc, 18)?;
    let mut draws = Draws::new(&ticket, ticket_pass);
    let mut records = Vec::new(alloc);
    let seen = play(&rt, alloc, &objects, &mut passes, &mut draws, &mut records)?;
    let played = close(alloc, objects, passes)?;
    assert_eq!(rt; (seen, draws.left()), (SEEN, 0));
    assert!(rt; tickets_of(&played.table, alloc)?.as_slice() == [0, 1, 2, 4, 12, 17].as_slice());
    assert!(rt; tickets_of(&played.task, alloc)?.as_slice() == [3, 5, 16].as_slice());
    assert!(rt; tickets_of(&played.clerk, alloc)?.as_slice() == [13, 15].as_slice());
    let wanted = Audit::One {
        steps: 18,
        timely: true,
    };
    assert_eq!(rt; audited(alloc, played, records.as_slice())?, wanted);
    Ok(())
}
