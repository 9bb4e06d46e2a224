//! Loads and plans, where memory is refused once.

use crate::asking::{again, changed, read};
use assignment::{Assignment, TaskId};
use load_ledger::{LoadBook, LoadError, LoadShare};
use machines::{Listed, Trouble};
use slice_ranges::slice_key;
use std::alloc::Global;
use std::test::Fail;
use weighted_move::{Move, PlanPolicy, TaskSet, plan};

// The half of the key space.
const HALF: u64 = 1 << 62;

// Two halves of task 1.
const HALVES: &str = r#"{"generation":"1","slices":[["0",[1]],["4611686018427387904",[1]]]}"#;

// Two shares of a task, with a record each. The slice key of "abc" lies in the upper half.
fn shares_of(alloc: Global, task: TaskId) -> Result<Listed<LoadShare>, Trouble<LoadError>> {
    let mut shares = Listed::new(alloc);
    for weight in [2, 4] {
        let mut share = LoadShare::new(alloc, task);
        share.add(slice_key(b"abc"), weight)?;
        shares.push(share)?;
    }
    Ok(shares)
}

#[test]
fn loads_add_up_without_memory(rt: HostRuntime) -> Result<(), Fail> {
    let alloc = rt.alloc();
    let assignment: Assignment = read(alloc, HALVES)?;
    let task = TaskId::new(3).ok_or("a number from 1 to 64")?;
    let mut share = LoadShare::new(alloc, task);
    for (weight, total) in [(2, 2), (4, 6)] {
        let added = changed(
            &mut share,
            |share| format!(in alloc; "{share:?}"),
            |share| share.add(slice_key(b"a"), weight),
        )?;
        assert_eq!(rt; added, total);
    }
    let mut book = LoadBook::new();
    let loads = changed(
        &mut book,
        |book| format!(in alloc; "{book:?}"),
        |book| {
            let gathered = book.gather(alloc, shares_of(alloc, task)?, &assignment);
            gathered.map_err(|refused| refused.why)
        },
    )?;
    assert_eq!(rt; loads.as_slice(), [0, 6].as_slice());
    assert_eq!(rt; book.total(task), 6);
    Ok(())
}

// Both halves of task 1 have a load of 4: the best move gives the lower one to task 2.
#[test]
fn plans_are_made_without_memory(rt: HostRuntime) -> Result<(), Fail> {
    let alloc = rt.alloc();
    let assignment: Assignment = read(alloc, HALVES)?;
    let (giver, taker) = (TaskId::new(1), TaskId::new(2));
    let tasks = TaskSet::empty()
        .with(giver.ok_or("task 1")?)
        .with(taker.ok_or("task 2")?);
    let policy = PlanPolicy::new(1, 1, 1 << 63, 0, 100, 1024).ok_or("within the limits")?;
    let made = again(|| plan(alloc, &assignment, &[4, 4], &tasks, &policy))?;
    let slices = made.slices.as_slice();
    assert_eq!(rt; slices.len(), 2);
    for (slice, (start, owner)) in slices.iter().zip([(0, 2), (HALF, 1)]) {
        assert_eq!(rt;
            (slice.start, slice.owners.as_slice()),
            (start, [owner].as_slice())
        );
    }
    let moved = Move {
        start: 0,
        giver,
        taker,
        gain: 4,
        churn: HALF,
    };
    assert_eq!(rt; made.moves.as_slice(), [moved].as_slice());
    Ok(())
}
