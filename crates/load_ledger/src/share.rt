//! What one task counts.

ghost use Rattle.std.specs.Prelude.{◌≡◌, ◌^◌, ◌≤◌, [], IfOk};
ghost use Rattle.machines.specs.Answers.{Takes};
ghost use Rattle.load_ledger.specs.Shares.{add_step, share_total, total_weight};

use crate::error::LoadError;
use assignment::TaskId;
use machines::{Duplicate, Trouble};
use slice_ranges::SliceKey;
use std::alloc::{AllocError, Global};
use std::marker::Model;

/// The greatest weight of a record, 2^32.
pub const MOST_WEIGHT: u64 = 1 << 32;

/// The greatest total weight of a share, and of a book, 2^40.
pub const MOST_TOTAL: u64 = 1 << 40;

/// A record that a task did some work for a key.
#[derive(Clone, Copy, Debug, PartialEq, Eq)]
pub struct LoadRecord {
    /// The key.
    pub key: SliceKey,
    /// The weight of the work.
    pub weight: u64,
}

/// A load share: the records of one task since its shares were last gathered.
#[derive(Debug, Drop)]
pub struct LoadShare {
    task: TaskId,
    records: Vec<LoadRecord>,
    total: u64,
}

impl Model for LoadShare {
    ghost use Rattle.std.specs.Prelude.{◌≡◌, ◌≤◌};
    ghost use Rattle.load_ledger.specs.declared.share.TheConstants.{MOST_TOTAL};
    ghost use Rattle.load_ledger.specs.Shares.{Share, total_weight};

    ghost Value = { Share };

    ghost view = { λ s. record { task = s.task; records = s.records.items } };

    ghost invariant = { λ s. (s.total ≡ total_weight s.records.items) × (s.total ≤ MOST_TOTAL) };
}

impl LoadShare {
    /// Creates a share without records.
    pub fn new(alloc: Global, task: TaskId) -> Self
        ensures { result ≡ record { task = task; records = [] } }
    {
        LoadShare {
            task,
            records: Vec::new(alloc),
            total: 0,
        }
    }

    /// Adds a record for a key, and returns the total weight of the share.
    ///
    /// Errors, in this order: `WeightRange`, `TotalRange`, out of memory. An error leaves the share
    /// unchanged.
    pub fn add(&mut self, key: SliceKey, weight: u64) -> Result<u64, Trouble<LoadError>>
        ensures { Takes (add_step key weight self.old) self.old result self.new }
    {
        if weight == 0 || MOST_WEIGHT < weight {
            return Err(Trouble::Refused(LoadError::WeightRange));
        }
        let total = self.total + weight;
        if MOST_TOTAL < total {
            return Err(Trouble::Refused(LoadError::TotalRange));
        }
        self.records.push(LoadRecord { key, weight })?;
        self.total = total;
        Ok(total)
    }

    /// Returns the task whose records these are.
    pub fn task(&self) -> TaskId
        ensures { result ≡ self.now.task }
    {
        self.task
    }

    /// Returns the sum of the weights of all records.
    pub fn total(&self) -> u64
        ensures value { result ≡ share_total self.now }
        ensures small { result ≤ MOST_TOTAL }
    {
        self.total
    }

    /// Returns the records, the oldest first.
    pub fn records(&self) -> &[LoadRecord]
        ensures { result.now ≡ self.now.records }
    {
        self.records.as_slice()
    }
}

impl Duplicate for LoadShare {
    fn copy(&self) -> Result<LoadShare, AllocError> {
        Ok(LoadShare {
            task: self.task,
            records: Vec::from_slice(*self.records.allocator(), self.records.as_slice())?,
            total: self.total,
        })
    }
}
