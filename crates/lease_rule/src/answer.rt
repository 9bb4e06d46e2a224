//! The results of the written rule.

use crate::lease::Kind;

/// Why a task may not serve a key.
#[derive(Clone, Copy, Debug, PartialEq, Eq)]
pub enum Ground {
    /// The task has not started.
    Down,
    /// The reading is below the task's last reading.
    ClockBack,
    /// A held lease covers the key, but has ended.
    Ended,
    /// No held lease covers the key, but a held lease is live.
    NotOwned {
        /// The greatest generation of a held lease that is live.
        generation: u64,
    },
    /// No held lease covers the key, and none is live.
    NoLease,
}

/// Whether a task may serve a key: under which lease, or why not.
#[derive(Clone, Copy, Debug, PartialEq, Eq)]
pub enum Verdict {
    /// The task may serve the key, under a lease of this kind and generation.
    Allow {
        /// The kind of the lease.
        kind: Kind,
        /// The generation of the lease.
        generation: u64,
    },
    /// The task may not serve the key, for this reason.
    Deny(Ground),
}
