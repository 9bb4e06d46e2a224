//! The lease table that is read and written.

use assignment::{Assignment, Slice};
use grants::Policy;
use lease_table::LeaseTable;
use machines::Listed;
use slice_ranges::KEYS;
use std::alloc::{AllocError, Global};

/// The largest number of slices in its committed assignment.
pub(crate) const SLICES: u64 = 1024;

/// The number of the assigner's term.
pub(crate) const TERM: u64 = 1;

fn slices(alloc: Global, count: u64) -> Result<Vec<Slice>, AllocError> {
    let mut made = Vec::new(alloc);
    for place in 0..count.min(SLICES) {
        made.push(Slice {
            start: place * (KEYS / SLICES),
            owners: Listed::from_slice(alloc, &[place % 2 + 1])?,
        })?;
    }
    Ok(made)
}

/// Creates a table of two tasks with a committed assignment of this many slices, or returns `None`
/// if it could not be made.
pub(crate) fn new_table(alloc: Global, count: u64) -> Option<LeaseTable> {
    let term = 1 << 32;
    let policy = Policy::new(1, 1, 10, term, term, term, term)?;
    let mut table = LeaseTable::new(alloc, policy);
    let first = Assignment::build(alloc, 1, &slices(alloc, count).ok()?).ok()?;
    table.job_take(TERM, 0).ok()?;
    table.propose(TERM, &first, 1).ok()?;
    table.commit(TERM, 2).ok()?;
    Some(table)
}
