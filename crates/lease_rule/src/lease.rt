//! Leases on slice keys.

ghost use Rattle.std.specs.Prelude.{◌≡◌, ◌↔◌, IfOk, nat_lt};
ghost use Rattle.std.specs.Bool.{IsTrue};
ghost use Rattle.std.specs.Cmp.{partial_equiv_from_equiv};
ghost use Rattle.slice_ranges.specs.Sets.{has};

use slice_ranges::{Ranges, SliceKey};
use std::alloc::AllocError;

/// The kind of a lease: for a committed assignment, or across a change of assignment.
#[derive(Clone, Copy, Debug, PartialEq, Eq, Hash)]
pub enum Kind {
    /// A guard lease: its task serves the keys that it owns in a committed assignment.
    Guard,
    /// A bridge lease: its task serves, across a change, the keys that it owns before and after it.
    Bridge,
}

/// A lease on slice keys, as the task that holds it sees it.
#[derive(Debug, Drop)]
pub struct Lease {
    /// The kind of the lease.
    pub kind: Kind,
    /// The generation of the assignment that the lease was granted for.
    pub generation: u64,
    /// The keys that the lease covers.
    pub ranges: Ranges,
    /// The task's deadline: the first reading, in ticks, at which the lease is no longer live.
    pub ends: u64,
}

impl PartialEq for Lease {
    ghost use Rattle.lease_rule.specs.Equality.{lease_eq, lease_equivalence};

    ghost eq = { lease_eq };

    ghost laws = { partial_equiv_from_equiv lease_equivalence };

    fn eq(&self, other: &Self) -> bool
        ensures eq { result ≡ lease_eq self.now other.now }
        ensures same { IsTrue result ↔ (self.now ≡ other.now) }
    {
        self.kind == other.kind
            && self.generation == other.generation
            && self.ranges == other.ranges
            && self.ends == other.ends
    }
}

impl Eq for Lease {
    ghost use Rattle.lease_rule.specs.Equality.{lease_equivalence};

    ghost laws = { lease_equivalence };
}

impl Lease {
    ghost use Rattle.lease_rule.specs.Leases.{is_live};

    /// Whether the lease is live at the reading `at`, in ticks: `at` is below its deadline.
    pub fn is_live(&self, at: u64) -> bool
        ensures { result ≡ is_live self.now at }
    {
        at < self.ends
    }

    /// Whether the lease covers the key, whether or not the lease is live.
    pub fn covers(&self, key: SliceKey) -> bool
        ensures { result ≡ has self.now.ranges key }
    {
        self.ranges.contains(key)
    }

    /// Returns a copy that equals this lease. The only error is out of memory.
    pub fn copy(&self) -> Result<Self, AllocError>
        ensures { IfOk result (λ lease. lease ≡ self.now) }
    {
        Ok(Lease {
            kind: self.kind,
            generation: self.generation,
            ranges: self.ranges.copy()?,
            ends: self.ends,
        })
    }
}
