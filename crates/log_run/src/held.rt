//! Leases that tasks hold.

use slicelet::HeldLease;

/// The leases that a task holds, each of which may have ended.
#[derive(Clone, Copy, Debug, PartialEq, Eq)]
pub struct HeldLeases {
    /// The guard lease.
    pub guard: Option<HeldLease>,
    /// The bridge lease.
    pub bridge: Option<HeldLease>,
}
