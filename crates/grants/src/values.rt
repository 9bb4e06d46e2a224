//! The values that the lease table returns and takes.

ghost use Rattle.std.specs.Prelude.{◌≡◌, ◌↔◌, IfOk};
ghost use Rattle.std.specs.Bool.{IsTrue};
ghost use Rattle.std.specs.Cmp.{partial_equiv_from_equiv};

use assignment::TaskId;
use lease_rule::{Kind, Lease};
use machines::Duplicate;
use std::alloc::AllocError;

/// A term of the job lease: while it lasts, its assigner may propose and commit.
#[derive(Clone, Copy, Debug, PartialEq, Eq)]
pub struct JobTerm {
    /// The number of the term: 1, 2, and so on.
    pub number: u64,
    /// The number of the assigner that holds the term.
    pub assigner: u64,
    /// The first reading, in ticks, at which the term has ended.
    pub until: u64,
}

/// The phase of a lease table: whether an assignment is proposed, and the generations.
#[derive(Clone, Copy, Debug, PartialEq, Eq)]
pub enum Phase {
    /// This generation is committed, and none is proposed. In generation 0, before the first
    /// commit, no task owns a key.
    Steady(u64),
    /// The first generation is committed, and the second one, the next, is proposed.
    Bridging(u64, u64),
}

/// A grant: a lease as the table sends it to a task.
#[derive(Debug, Drop)]
pub struct Grant {
    /// The number of the grant among all grants of the table: 1, 2, and so on.
    pub number: u64,
    /// The task that the grant is for.
    pub task: TaskId,
    /// The life of the task that the grant is for.
    pub life: u32,
    /// The lease, with the task's deadline.
    pub lease: Lease,
    /// The table's deadline: the first reading, in ticks, at which the grant's row has ended.
    pub table_ends: u64,
}

impl PartialEq for Grant {
    ghost use Rattle.grants.specs.Equality.{grant_eq, grant_equivalence};

    ghost eq = { grant_eq };

    ghost laws = { partial_equiv_from_equiv grant_equivalence };

    fn eq(&self, other: &Self) -> bool
        ensures eq { result ≡ grant_eq self.now other.now }
        ensures same { IsTrue result ↔ (self.now ≡ other.now) }
    {
        self.number == other.number
            && self.task == other.task
            && self.life == other.life
            && self.lease == other.lease
            && self.table_ends == other.table_ends
    }
}

impl Eq for Grant {
    ghost use Rattle.grants.specs.Equality.{grant_equivalence};

    ghost laws = { grant_equivalence };
}

impl Grant {
    /// Returns a copy that equals this grant. The only error is out of memory.
    pub fn copy(&self) -> Result<Self, AllocError>
        ensures { IfOk result (λ grant. grant ≡ self.now) }
    {
        Ok(Grant {
            number: self.number,
            task: self.task,
            life: self.life,
            lease: self.lease.copy()?,
            table_ends: self.table_ends,
        })
    }
}

impl Grant {
    ghost use Rattle.grants.specs.Rows.{row_of};

    /// Returns the row that the table keeps for this grant.
    pub fn row(&self) -> Row
        ensures { result ≡ row_of self.now }
    {
        Row {
            number: self.number,
            task: self.task,
            life: self.life,
            kind: self.lease.kind,
            generation: self.lease.generation,
            table_ends: self.table_ends,
        }
    }
}

/// A release note: what a task sends to the table to give leases back.
///
/// In this life, the task no longer serves under its leases of this kind that were granted up to
/// this number.
#[derive(Clone, Copy, Debug, PartialEq, Eq)]
pub struct ReleaseNote {
    /// The task that gives the leases back.
    pub task: TaskId,
    /// The life of the task.
    pub life: u32,
    /// The kind of the leases.
    pub kind: Kind,
    /// The number of the last grant that is given back.
    pub number: u64,
}

/// A row: what the table keeps of a grant until the grant ends or is freed.
#[derive(Clone, Copy, Debug, PartialEq, Eq)]
pub struct Row {
    /// The number of the grant.
    pub number: u64,
    /// The task that the grant is for.
    pub task: TaskId,
    /// The life of the task that the grant is for.
    pub life: u32,
    /// The kind of the lease.
    pub kind: Kind,
    /// The generation of the lease.
    pub generation: u64,
    /// The table's deadline: the first reading, in ticks, at which the row has ended.
    pub table_ends: u64,
}

impl Duplicate for Row {
    fn copy(&self) -> Result<Row, AllocError> {
        Ok(*self)
    }
}

impl ReleaseNote {
    ghost use Rattle.grants.specs.Rows.{closes};

    /// Whether the note closes the row: the same task, life and kind, and no greater number.
    pub fn closes(&self, row: &Row) -> bool
        ensures { result ≡ closes self.now row.now }
    {
        self.task == row.task
            && self.life == row.life
            && self.kind == row.kind
            && row.number <= self.number
    }
}
