//! The loads of slices by the records of shares.

ghost use Rattle.std.specs.Prelude.{◌≡◌, ◌+◌, ◌≤◌, ℕ, List, ◌++◌, None, All, length, IfOk};
ghost use Rattle.assignment.specs.Slices.{refusal_of};
ghost use Rattle.load_ledger.specs.declared.share.LoadRecord.{LoadRecord};
ghost use Rattle.load_ledger.specs.Shares.{total_weight};
ghost use Rattle.load_ledger.specs.Loads.{slice_loads};
ghost use Rattle.load_ledger.specs.Books.{records_of, shares_total};

use crate::finding::place_of;
use crate::share::{LoadRecord, LoadShare, MOST_TOTAL};
use assignment::OwnedSlice;
use std::alloc::{AllocError, Global};

/// Returns the load of each slice, in order. The only error is out of memory.
pub fn loads_of(
    alloc: Global,
    shares: &[LoadShare],
    slices: &[OwnedSlice],
) -> Result<Vec<u64>, AllocError>
    requires accepted { refusal_of slices.now ≡ None }
    requires small { shares_total shares.now ≤ MOST_TOTAL }
    ensures { IfOk result (λ loads. loads.items ≡ slice_loads slices.now (records_of shares.now)) }
{
    let mut loads = vec![in alloc; 0; slices.len()]?;
    for share in shares {
        add_records(&mut loads, share.records(), slices);
    }
    Ok(loads)
}

// Adds the weight of each record to the load of the slice that has its key.
fn add_records(loads: &mut [u64], records: &[LoadRecord], slices: &[OwnedSlice])
    requires accepted { refusal_of slices.now ≡ None }
    requires each { length loads.old ≡ length slices.now }
    requires small { All (λ load. load + total_weight records.now ≤ MOST_TOTAL) loads.old }
    ensures { (before : List LoadRecord) → loads.old ≡ slice_loads slices.now before
        → loads.new ≡ slice_loads slices.now (before ++ records.now) }
{
    for record in records {
        loads[place_of(slices, record.key)] += record.weight;
    }
}
