//! What a task holds.

ghost use Rattle.std.specs.Prelude.{◌≡◌, ◌↔◌, IfOk};
ghost use Rattle.std.specs.Bool.{IsTrue};
ghost use Rattle.std.specs.Cmp.{partial_equiv_from_equiv};

use crate::lease::Lease;
use std::alloc::AllocError;

/// The leases that a task holds, at most one of each kind, and its last reading.
#[derive(Debug, Drop)]
pub struct Holding {
    /// Whether the task has started.
    pub up: bool,
    /// The task's last reading, in ticks.
    pub last: u64,
    /// The guard lease, if the task holds one: a lease for a committed assignment.
    pub guard: Option<Lease>,
    /// The bridge lease, if the task holds one: a lease across a change of assignment.
    pub bridge: Option<Lease>,
}

impl PartialEq for Holding {
    ghost use Rattle.lease_rule.specs.Equality.{holding_eq, holding_equivalence};

    ghost eq = { holding_eq };

    ghost laws = { partial_equiv_from_equiv holding_equivalence };

    fn eq(&self, other: &Self) -> bool
        ensures eq { result ≡ holding_eq self.now other.now }
        ensures same { IsTrue result ↔ (self.now ≡ other.now) }
    {
        self.up == other.up
            && self.last == other.last
            && self.guard == other.guard
            && self.bridge == other.bridge
    }
}

impl Eq for Holding {
    ghost use Rattle.lease_rule.specs.Equality.{holding_equivalence};

    ghost laws = { holding_equivalence };
}

impl Holding {
    /// Returns a copy that equals this holding. The only error is out of memory.
    pub fn copy(&self) -> Result<Self, AllocError>
        ensures { IfOk result (λ holding. holding ≡ self.now) }
    {
        Ok(Holding {
            up: self.up,
            last: self.last,
            guard: copy_of(&self.guard)?,
            bridge: copy_of(&self.bridge)?,
        })
    }
}

fn copy_of(lease: &Option<Lease>) -> Result<Option<Lease>, AllocError>
    ensures { IfOk result (λ copied. copied ≡ lease.now) }
{
    match lease {
        Some(lease) => Ok(Some(lease.copy()?)),
        None => Ok(None),
    }
}
