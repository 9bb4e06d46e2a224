//! How much was made before what a cluster keeps.

ghost use Rattle.std.specs.Prelude.{◌≡◌, ◌≤◌, ◌^◌, ◌&&◌, nat_le, is_some, IfSome};
ghost use Rattle.cluster.specs.continued.Jobs.{Counts as CountsOf, no_counts};

use std::marker::Model;

/// How many grants, notes, handles and proposals were made before those that a cluster keeps.
#[derive(Clone, Copy, Debug)]
pub(crate) struct Counts {
    grants: u64,
    notes: u64,
    handles: u64,
    proposals: u64,
}

impl Model for Counts {
    ghost use Rattle.std.specs.Prelude.{◌≡◌, true, ◌&&◌, nat_le, ◌^◌};
    ghost use Rattle.cluster.specs.continued.Jobs.{Counts as CountsOf};

    ghost Value = { CountsOf };

    ghost view = { λ c. record { grants = c.grants; notes = c.notes; handles = c.handles; proposals = c.proposals } };

    ghost invariant = { λ c. (nat_le c.notes (2 ^ 62) && nat_le c.handles (2 ^ 62)) ≡ true };

    ghost inverse = { λ c. record { grants = c.grants; notes = c.notes; handles = c.handles; proposals = c.proposals } };
}

impl Counts {
    /// Returns these counts. At most 2^62 notes and as many handles were made.
    pub(crate) fn new(grants: u64, notes: u64, handles: u64, proposals: u64) -> Self
        requires notes { notes ≤ 2 ^ 62 }
        requires handles { handles ≤ 2 ^ 62 }
        ensures { result ≡ record { grants = grants; notes = notes; handles = handles; proposals = proposals } }
    {
        Counts {
            grants,
            notes,
            handles,
            proposals,
        }
    }

    /// Returns the counts where all is kept that was made.
    pub(crate) fn none() -> Self
        ensures { result ≡ no_counts }
    {
        Counts {
            grants: 0,
            notes: 0,
            handles: 0,
            proposals: 0,
        }
    }

    pub(crate) fn grants(self) -> u64
        ensures { result ≡ self.grants }
    {
        self.grants
    }

    pub(crate) fn notes(self) -> u64
        ensures value { result ≡ self.notes }
        ensures within { result ≤ 2 ^ 62 }
    {
        self.notes
    }

    pub(crate) fn handles(self) -> u64
        ensures value { result ≡ self.handles }
        ensures within { result ≤ 2 ^ 62 }
    {
        self.handles
    }

    pub(crate) fn proposals(self) -> u64
        ensures { result ≡ self.proposals }
    {
        self.proposals
    }
}
