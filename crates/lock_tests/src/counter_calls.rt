//! The limits of a lock.

use crate::counter::Counter;
use history_lock::{LaneLock, NewLockError};
use std::alloc::Global;

// How many passes there are of a lock of so many lanes and entries, or `None` where it is refused for
// these numbers.
fn pass_count(alloc: Global, lanes: u64, limit: usize) -> Result<Option<usize>, NewLockError> {
    match LaneLock::new(alloc, Counter { count: 0 }, lanes, limit) {
        Ok((_, passes)) => Ok(Some(passes.len())),
        Err(NewLockError::Lanes) => Ok(None),
        Err(error) => Err(error),
    }
}

#[test]
fn refuses_lanes_and_limits_out_of_range(rt: HostRuntime) {
    let cases = [
        (0, 1, None),
        (9, 1, None),
        (1, 0, None),
        (1, 65_537, None),
        (1, 1, Some(1)),
        (8, 65_536, Some(8)),
    ];
    for (lanes, limit, wanted) in cases {
        let found = pass_count(rt.alloc(), lanes, limit).ok();
        assert_eq!(rt; found, Some(wanted), "{lanes} lanes, {limit} entries");
    }
}
