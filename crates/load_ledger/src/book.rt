//! What all tasks counted.

ghost use Rattle.std.specs.Prelude.{◌≡◌, ◌+◌, ◌≤◌, ℕ, [], None, IfErr, length, sum};
ghost use Rattle.machines.specs.Answers.{Takes};
ghost use Rattle.machines.specs.Refusals.{first_of};
ghost use Rattle.load_ledger.specs.Books.{book_of, book_with, gather_checks, gather_step, shares_total, task_total, without_shares};

use crate::error::LoadError;
use crate::loads::loads_of;
use crate::share::{LoadShare, MOST_TOTAL};
use assignment::{Assignment, TaskId};
use machines::{Listed, Trouble};
use std::alloc::Global;
use std::marker::Model;

// The greatest number of tasks in a job.
const TASKS: usize = assignment::TASKS as usize;

/// The error of a gather; it holds the shares, unchanged.
#[derive(Debug, Drop)]
pub struct Ungathered {
    /// Why the shares were not gathered.
    pub why: Trouble<LoadError>,
    /// The shares.
    pub shares: Listed<LoadShare>,
}

/// A load book: the total weight of the work that each task has done, by the gathered shares.
///
/// Contracts see the totals of the tasks in the order of the tasks' numbers.
#[derive(Debug, Drop)]
pub struct LoadBook {
    totals: [u64; TASKS],
}

impl Model for LoadBook {
    ghost use Rattle.std.specs.Prelude.{◌≡◌, ◌≤◌, ℕ, List, length, sum};
    ghost use Rattle.load_ledger.specs.declared.share.TheConstants.{MOST_TOTAL};

    ghost Value = { List ℕ };

    ghost view = { λ b. b.totals };

    ghost invariant = { λ b. (length b.totals ≡ 64) × (sum b.totals ≤ MOST_TOTAL) };
}

impl LoadBook {
    /// Creates a book with all totals 0.
    pub fn new() -> Self
        ensures { result ≡ book_of [] }
    {
        LoadBook { totals: [0; TASKS] }
    }

    /// Adds shares to the totals of their tasks, and returns the shares' load of each slice.
    ///
    /// The loads are in the order of the slices of the assignment.
    ///
    /// Errors, in this order: `TotalRange`, if the sum of all totals would be above [`MOST_TOTAL`];
    /// out of memory. An error leaves the book unchanged and returns the shares.
    pub fn gather(
        &mut self,
        alloc: Global,
        shares: Listed<LoadShare>,
        assignment: &Assignment,
    ) -> Result<Listed<u64>, Ungathered>
        ensures gathers { Takes (gather_step shares assignment.now.slices self.old) self.old
            (without_shares result) self.new }
        ensures handed_back { IfErr result (λ refused. refused.shares ≡ shares) }
    {
        if let Some(refusal) = self.gather_refusal(shares.as_slice()) {
            let why = Trouble::Refused(refusal);
            return Err(Ungathered { why, shares });
        }
        match loads_of(alloc, shares.as_slice(), assignment.slices()) {
            Ok(loads) => {
                add_totals(&mut self.totals, shares.as_slice());
                Ok(Listed::from_vec(loads))
            }
            Err(_) => Err(Ungathered {
                why: Trouble::NoMemory,
                shares,
            }),
        }
    }

    /// Returns why a gather of shares would be refused, if it would.
    pub fn gather_refusal(&self, shares: &[LoadShare]) -> Option<LoadError>
        ensures { result ≡ first_of (gather_checks shares.now self.now) }
    {
        let mut left = self.left();
        for share in shares {
            if left < share.total() {
                return Some(LoadError::TotalRange);
            }
            left -= share.total();
        }
        None
    }

    /// Returns how much the totals of all tasks may still grow: they add up to at most [`MOST_TOTAL`].
    pub fn left(&self) -> u64
        ensures { result + sum self.now ≡ MOST_TOTAL }
    {
        MOST_TOTAL - self.totals.iter().sum::<u64>()
    }

    /// Returns the total weight of the work that a task has done.
    pub fn total(&self, task: TaskId) -> u64
        ensures { result ≡ task_total self.now task }
    {
        self.totals[task.number() as usize - 1]
    }

    /// Returns a copy that equals this book.
    pub fn copy(&self) -> Self
        ensures { result ≡ self.now }
    {
        LoadBook {
            totals: self.totals,
        }
    }
}

// Adds shares to the totals of their tasks.
fn add_totals(totals: &mut [u64], shares: &[LoadShare])
    requires each { length totals.old ≡ 64 }
    requires small { sum totals.old + shares_total shares.now ≤ MOST_TOTAL }
    ensures totals { totals.new ≡ book_with shares.now totals.old }
    ensures sum { sum totals.new ≡ sum totals.old + shares_total shares.now }
{
    for share in shares {
        totals[share.task().number() as usize - 1] += share.total();
    }
}
