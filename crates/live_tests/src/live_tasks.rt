//! Live runs, and what their gates see.

use assignment::OwnedSlice;
use audit::Audit;
use clerk::{ClerkCall, ClerkEvent};
use crossbeam_utils::Backoff;
use crossbeam_utils::atomic::AtomicCell;
use grants::{SliceletCall, TableCall};
use history_lock::History;
use job_calls::{CallRecord, ClusterCall};
use lease_rule::Kind;
use live_run::{LiveJob, LiveReport, run_live};
use shared_objects::{Gate, OpenGate};
use slice_ranges::slice_key;
use slicelet::SliceletEvent;
use std::alloc::Global;
use std::sync::Wait;
use std::test::Fail;
use std::thread::Threads;

#[test]
fn reports_what_two_tasks_with_two_workers_did(rt: HostRuntime) -> Result<(), Fail> {
    let job = LiveJob::new(2, 2, 3, 100).ok_or("within the limits")?;
    let report = run_live(&rt, rt.alloc(), &job, &OpenGate)?;
    assert_eq!(rt; (report.asked, report.generation), (400, 3));
    assert_eq!(rt; (report.tasks.len(), report.clerks.len()), (2, 1));
    assert!(rt; matches!(report.audit, Audit::One { timely: true, .. }));
    Ok(())
}

// The generation of the guard that a task heard by its last entry.
fn last_guard(history: &History<SliceletEvent>) -> Option<u64> {
    match &history.entries().last()?.event.call {
        SliceletCall::Hear { grant, .. } if grant.lease.kind == Kind::Guard => {
            Some(grant.lease.generation)
        }
        _ => None,
    }
}

// The generation that a clerk learnt by its last entry.
fn last_learnt(history: &History<ClerkEvent>) -> Option<u64> {
    match &history.entries().last()?.event.call {
        ClerkCall::Learn(assignment) => Some(assignment.generation()),
        ClerkCall::Forget => None,
    }
}

// Whether a slice has this owner alone.
fn is_owned_by(slice: &OwnedSlice, owner: u64) -> bool {
    matches!(slice.owners(), [only] if only.number() == owner)
}

// Whether a call proposes this generation with these two owners of a half of the keys each.
fn proposes(call: &TableCall, generation: u64, owners: (u64, u64)) -> bool {
    match call {
        TableCall::Propose { assignment, .. } => {
            assignment.generation() == generation
                && matches!(assignment.slices(), [lower, upper] if is_owned_by(lower, owners.0) && is_owned_by(upper, owners.1))
        }
        _ => false,
    }
}

#[test]
fn moves_the_halves_and_their_leases_in_each_round(rt: HostRuntime) -> Result<(), Fail> {
    let job = LiveJob::new(2, 1, 3, 10).ok_or("within the limits")?;
    let report = run_live(&rt, rt.alloc(), &job, &OpenGate)?;
    for (generation, owners) in [(1, (2, 1)), (2, (1, 2)), (3, (2, 1))] {
        assert!(rt;
            report
                .table
                .entries()
                .iter()
                .any(|entry| proposes(&entry.event.call, generation, owners))
        );
    }
    assert!(rt;
        report
            .tasks
            .iter()
            .all(|history| last_guard(history) == Some(3))
    );
    assert!(rt;
        report
            .clerks
            .iter()
            .all(|history| last_learnt(history) == Some(3))
    );
    Ok(())
}

// A gate that holds worker 1 inside its first ask until worker 2 is inside its second, and keeps the tickets of
// both, each with one added; 0 where there was none.
#[derive(Drop)]
struct HoldingGate {
    held: AtomicCell<u64>,
    next: AtomicCell<u64>,
    gave_up: AtomicCell<bool>,
}

impl HoldingGate {
    fn new() -> Self {
        HoldingGate {
            held: AtomicCell::new(0),
            next: AtomicCell::new(0),
            gave_up: AtomicCell::new(false),
        }
    }

    fn hold(&self) {
        let backoff = Backoff::new();
        for _ in 0..100_000_000u32 {
            if self.next.load() != 0 {
                return;
            }
            backoff.snooze();
        }
        self.gave_up.store(true);
    }
}

impl Gate for HoldingGate {
    fn inside<R: Wait>(&self, _rt: &R, worker: u32, ask: u32, ticket: u64) {
        match (worker, ask) {
            (1, 0) => {
                self.held.store(ticket.saturating_add(1));
                self.hold();
            }
            (2, 1) => self.next.store(ticket.saturating_add(1)),
            _ => {}
        }
    }
}

#[test]
fn holds_a_worker_until_another_task_answers(rt: HostRuntime) -> Result<(), Fail> {
    let gate = HoldingGate::new();
    let job = LiveJob::new(2, 1, 1, 2).ok_or("within the limits")?;
    let report = run_live(&rt, rt.alloc(), &job, &gate)?;
    assert_eq!(rt; (gate.gave_up.load(), report.asked), (false, 4));
    assert!(rt; gate.held.load() != 0 && gate.next.load() != 0);
    Ok(())
}

// Whether some entry of a task has a ticket between two others.
fn has_entry_between(report: &LiveReport, low: u64, high: u64) -> bool {
    report.tasks.iter().any(|history| history.entries().iter().any(|entry| low < entry.event.ticket
        && entry.event.ticket < high))
}

// A gate that holds worker 1 inside its first ask until worker 2 was answered and is inside its next. Worker 2
// waits a while in each of its asks for worker 1 to come, and holds it up no longer once it is in its last.
#[derive(Drop)]
struct LaneGate {
    last: u32,
    held: AtomicCell<u64>,
    answered: AtomicCell<bool>,
    next: AtomicCell<u64>,
    over: AtomicCell<bool>,
    gave_up: AtomicCell<bool>,
}

impl LaneGate {
    fn new(last: u32) -> Self {
        LaneGate {
            last,
            held: AtomicCell::new(0),
            answered: AtomicCell::new(false),
            next: AtomicCell::new(0),
            over: AtomicCell::new(false),
            gave_up: AtomicCell::new(false),
        }
    }

    fn hold(&self) {
        let backoff = Backoff::new();
        for _ in 0..100_000_000u32 {
            if self.next.load() != 0 || self.over.load() {
                return;
            }
            backoff.snooze();
        }
        self.gave_up.store(true);
    }

    // Whether worker 1 is in its first ask, or comes to it in a while.
    fn is_held(&self) -> bool {
        let backoff = Backoff::new();
        for _ in 0..1_000u32 {
            if self.held.load() != 0 {
                return true;
            }
            backoff.snooze();
        }
        false
    }

    fn pass(&self, ask: u32, ticket: u64) {
        if self.answered.load() {
            if self.next.load() == 0 {
                self.next.store(ticket.saturating_add(1));
            }
        } else if self.is_held() {
            self.answered.store(true);
        }
        if ask == self.last {
            self.over.store(true);
        }
    }
}

impl Gate for LaneGate {
    fn inside<R: Wait>(&self, _rt: &R, worker: u32, ask: u32, ticket: u64) {
        match (worker, ask) {
            (1, 0) => {
                self.held.store(ticket.saturating_add(1));
                self.hold();
            }
            (2, _) => self.pass(ask, ticket),
            _ => {}
        }
    }
}

// What one task with two workers did.
#[derive(Clone, Copy, Debug, PartialEq, Eq)]
struct Held {
    gave_up: bool,
    asked: u64,
    // Whether some entry of the task lies between the held ask and the one that let it go.
    parted: bool,
    // Whether worker 1 was held.
    held: bool,
}

fn run_two_workers<R: Threads + Wait + Sync>(rt: &R, alloc: Global) -> Result<Held, Fail> {
    let gate = LaneGate::new(99);
    let job = LiveJob::new(1, 2, 1, 100).ok_or("within the limits")?;
    let report = run_live(rt, alloc, &job, &gate)?;
    let held = gate.held.load();
    let next = gate.next.load();
    let parted = has_entry_between(&report, held.saturating_sub(1), next.saturating_sub(1));
    Ok(Held {
        gave_up: gate.gave_up.load(),
        asked: report.asked,
        parted,
        held: held < next,
    })
}

// Worker 2 may be through before worker 1 begins: then nobody is held, and the job is run again.
#[test]
fn answers_a_worker_while_another_of_its_task_is_held(rt: HostRuntime) -> Result<(), Fail> {
    let alloc = rt.alloc();
    let mut was_held = false;
    for _ in 0..100 {
        let seen = run_two_workers(&rt, alloc)?;
        assert_eq!(rt;
            (seen.gave_up, seen.asked, seen.parted),
            (false, 200, false)
        );
        was_held = seen.held;
        if was_held {
            break;
        }
    }
    assert!(rt; was_held);
    Ok(())
}

// A gate that counts its calls, and notes the ticket of each ask of each worker, with one added.
#[derive(Drop)]
struct NotingGate {
    asks: u32,
    calls: AtomicCell<u64>,
    tickets: Vec<AtomicCell<u64>>,
}

impl NotingGate {
    fn new(alloc: Global, workers: u32, asks: u32) -> Result<Self, Fail> {
        let mut tickets = Vec::new(alloc);
        for _ in 0..workers {
            for _ in 0..asks {
                tickets.push(AtomicCell::new(0))?;
            }
        }
        Ok(NotingGate {
            asks,
            calls: AtomicCell::new(0),
            tickets,
        })
    }

    // Whether a record tells of a noted ask, where each task has so many workers.
    fn has_noted(&self, alloc: Global, workers: u64, record: &CallRecord) -> Result<bool, Fail> {
        let ClusterCall::Serve { task, key, .. } = &record.step else {
            return Ok(false);
        };
        let noted = self
            .tickets
            .iter()
            .position(|cell| cell.load() == record.ticket.saturating_add(1));
        let Some(place) = noted else {
            return Ok(false);
        };
        let asks = u64::from(self.asks.max(1));
        let worker = place as u64 / asks;
        let ask = place as u64 % asks;
        let text = format!(in alloc; "{ask}")?;
        Ok(*task == worker / workers.max(1) + 1 && *key == slice_key(text.as_str().as_bytes()))
    }
}

impl Gate for NotingGate {
    fn inside<R: Wait>(&self, _rt: &R, worker: u32, ask: u32, ticket: u64) {
        self.calls.fetch_add(1);
        let first = worker.saturating_sub(1).saturating_mul(self.asks);
        if let Some(cell) = self.tickets.get(first.saturating_add(ask) as usize) {
            cell.store(ticket.saturating_add(1));
        }
    }
}

#[test]
fn records_the_calls_that_its_gate_saw(rt: HostRuntime) -> Result<(), Fail> {
    let alloc = rt.alloc();
    let gate = NotingGate::new(alloc, 4, 100)?;
    let job = LiveJob::new(2, 2, 3, 100).ok_or("within the limits")?;
    let report = run_live(&rt, alloc, &job, &gate)?;
    let mut noted = 0u64;
    for record in report.records.as_slice() {
        if gate.has_noted(alloc, 2, record)? {
            noted = noted.saturating_add(1);
        }
    }
    assert_eq!(rt; (gate.calls.load(), noted), (400, 400));
    Ok(())
}
