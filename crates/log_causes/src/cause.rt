//! Why a caller should have got another reply.

use lease_rule::Kind;

/// A member of what a call delivers, whose value is a number.
#[derive(Clone, Copy, Debug, PartialEq, Eq)]
pub enum Member {
    Task,
    Life,
    Generation,
    Ends,
    Until,
    SliceKey,
}

/// A member of what a call delivers that differs from what was sent.
#[derive(Clone, Copy, Debug, PartialEq, Eq)]
pub enum Change {
    /// A number.
    Number {
        member: Member,
        /// The number that the call delivers.
        here: u64,
        /// The number that was sent.
        there: u64,
    },
    /// The kind of a lease.
    Kind {
        /// The kind that the call delivers.
        here: Kind,
        /// The kind that was sent.
        there: Kind,
    },
    /// The ranges of a lease.
    Ranges,
    /// The slices of an assignment.
    Slices,
}

/// What was sent in place of what a call delivers.
#[derive(Clone, Copy, Debug, PartialEq, Eq)]
pub struct Changed {
    /// The index of the entry that sent it, in the order of the tickets.
    pub place: usize,
    /// The first member that differs.
    pub change: Change,
}

/// Why nothing sent before what a call delivers.
///
/// Another stands in its place if it has the number of a grant, the generation of an assignment, the
/// task, life and number of a note, or the task, life and position of a handle.
#[derive(Clone, Copy, Debug, PartialEq, Eq)]
pub enum Unsent {
    /// It is sent later: the entry at this index is the first that sends it.
    Later(usize),
    /// No later entry sends it, but another in its place was sent before.
    Other(Changed),
    /// No later entry sends it, and no other in its place was sent before.
    Nothing,
}

/// Why a caller should have got another reply.
#[derive(Clone, Copy, Debug, PartialEq, Eq)]
pub enum Cause {
    /// Nothing sent before what a call delivers, and this is why.
    NotSent(Unsent),
    /// A handle is broken: the entry at this index is the first that took its key away.
    TakenAway(usize),
    /// The term that a call names is the last one that the table gave, and has ended.
    TermEnded {
        /// The term.
        term: u64,
        /// The first reading, in ticks, at which it has ended.
        at: u64,
    },
    /// A call names another term than the last one that the table gave, which is this one.
    OtherTerm(u64),
    /// The reading of a call, in ticks, is too early.
    ReadAt(u64),
    /// A reading is below the last accepted one of its clock.
    ReadAfter {
        /// The reading of the call, in ticks.
        at: u64,
        /// The last accepted one, in ticks.
        last: u64,
    },
    /// The row that holds a commit up has not ended.
    RowEnds {
        /// The table's deadline of the row, in ticks.
        ends: u64,
        /// The reading of the commit, in ticks.
        at: u64,
    },
    /// The lease of a grant that a call delivers has ended.
    GrantEnded {
        /// The kind of the lease.
        kind: Kind,
        /// The number of the grant.
        number: u64,
        /// The task's deadline, in ticks.
        ends: u64,
        /// The reading of the call, in ticks.
        at: u64,
    },
    /// The task is in this life.
    InLife(u32),
}
