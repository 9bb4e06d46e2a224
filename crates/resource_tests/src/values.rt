//! Sets of keys, assignments and stamps, where memory is refused once.

use crate::asking::{again, read};
use assignment::{Assignment, Slice, TaskId};
use key_handle::Stamped;
use machines::{Duplicate, Listed};
use slice_ranges::{Ranges, SliceKey};
use std::alloc::Global;
use std::test::Fail;

#[test]
fn sets_combine_without_memory(rt: HostRuntime) -> Result<(), Fail> {
    let alloc = rt.alloc();
    let first = again(|| Ranges::build(alloc, &[(0, 5), (6, 9)]))?;
    let second = again(|| Ranges::build(alloc, &[(3, 4), (8, 12)]))?;
    let both = again(|| first.intersect(&second))?;
    assert_eq!(rt; both.boundaries(), [3, 4, 8, 9].as_slice());
    let either = again(|| first.union(&second))?;
    assert_eq!(rt; either.boundaries(), [0, 5, 6, 12].as_slice());
    let rest = again(|| first.without(&second))?;
    assert_eq!(rt; rest.boundaries(), [0, 3, 4, 5, 6, 8].as_slice());
    let copied = again(|| rest.copy())?;
    assert_eq!(rt; copied.boundaries(), [0, 3, 4, 5, 6, 8].as_slice());
    let levels = [(0, true), (5, false), (6, true), (9, false)];
    let joined = again(|| Ranges::from_levels(alloc, &levels))?;
    assert_eq!(rt; joined.boundaries(), [0, 5, 6, 9].as_slice());
    Ok(())
}

#[test]
fn assignments_are_read_without_memory(rt: HostRuntime) -> Result<(), Fail> {
    let alloc = rt.alloc();
    let json = r#"{"generation":"7","slices":[["0",[9]],["100",[2,9]],["200",[2]],["300",[9]]]}"#;
    let assignment: Assignment = read(alloc, json)?;
    let task = TaskId::new(9).ok_or("a number from 1 to 64")?;
    let keys = again(|| assignment.of_task(task))?;
    assert_eq!(rt; keys.boundaries(), [0, 200, 300, 1 << 63].as_slice());
    assert!(rt; again(|| assignment.copy())? == assignment);
    let owners = again(|| Listed::from_slice(alloc, &[5, 3]))?;
    let slice = Slice { start: 0, owners };
    let copied = again(|| slice.copy())?;
    assert_eq!(rt; copied.owners.as_slice(), [5, 3].as_slice());
    Ok(())
}

// The keys 0 to 7 are stamped 1. Then those below 2 are given up, and those from 4 on are taken anew
// and stamped 2.
#[test]
fn keys_are_stamped_without_memory(rt: HostRuntime) -> Result<(), Fail> {
    let alloc = rt.alloc();
    let none = Ranges::empty(alloc);
    let all = again(|| Ranges::build(alloc, &[(0, 8)]))?;
    let before = again(|| Ranges::build(alloc, &[(0, 4)]))?;
    let after = again(|| Ranges::build(alloc, &[(2, 8)]))?;
    let empty = Stamped::empty(alloc);
    let first = again(|| empty.restamp(&none, &all, 1))?;
    let second = again(|| first.restamp(&before, &after, 2))?;
    let copied = again(|| second.copy())?;
    for (number, stamp) in [(0, None), (3, Some(1)), (5, Some(2))] {
        let key = SliceKey::new(number).ok_or("a number of 63 bits is a key")?;
        assert_eq!(rt; copied.since(key), stamp);
    }
    Ok(())
}
