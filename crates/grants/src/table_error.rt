//! Why the lease table refuses a call.

use assignment::TaskId;
use lease_rule::Kind;

/// Why the lease table refuses a call, in the order of the checks.
#[derive(Clone, Copy, Debug, PartialEq, Eq)]
pub enum TableError {
    /// The reading is 2^62 ticks or more.
    ReadingRange,
    /// The reading is below the last accepted one.
    ClockBack,
    /// The last term of the job lease has not ended.
    JobHeld {
        /// The first reading, in ticks, at which the term has ended.
        until: u64,
    },
    /// The term is not the last one given, or has ended.
    NotHolder {
        /// The number of the last term given, or 0 if none was given.
        term: u64,
    },
    /// The generation of the assignment is not the one after the committed generation.
    StaleBase {
        /// The committed generation.
        generation: u64,
    },
    /// An assignment is already proposed.
    Pending,
    /// No assignment is proposed.
    NothingPending,
    /// A slice has more owners than the job allows (`Policy::high`).
    TooManyOwnersForJob,
    /// The table has restarted, and a lease whose row it lost may not have ended.
    Grace {
        /// The first reading, in ticks, at which all of these leases have ended.
        until: u64,
    },
    /// A row of the committed generation or an older one has neither ended nor been freed.
    Held {
        /// The task of the row.
        task: TaskId,
        /// The kind of the row's lease.
        kind: Kind,
        /// The number of the row's grant, the lowest of those that hold up the commit.
        number: u64,
    },
    /// The note closes no row that has not ended.
    NoRow,
    /// No assignment is committed or proposed.
    NoAssignment,
    /// The table has made as many grants as the job allows (`Policy::numbers`).
    NumbersSpent,
}
