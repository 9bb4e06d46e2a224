//! A stretch, and the ones that a slicelet has from a reading on.

ghost use Rattle.std.specs.Prelude.{◌≡◌};
ghost use Rattle.stretches.specs.Stretches.{stretch_in};

use lease_rule::{Kind, Verdict};
use slice_ranges::SliceKey;
use slicelet::Slicelet;
use std::alloc::AllocError;

/// The lease under which a task serves a key.
#[derive(Clone, Copy, Debug, PartialEq, Eq)]
pub struct ServingLease {
    pub kind: Kind,
    /// The number of its grant.
    pub number: u64,
    pub generation: u64,
}

/// Readings of a task's clock, in ticks, at which the task may serve a key under one lease.
#[derive(Clone, Copy, Debug, PartialEq, Eq)]
pub struct Stretch {
    /// How many processes of the task ended before this one began.
    pub process: u64,
    /// The first reading.
    pub from: u64,
    /// The first reading after the stretch.
    pub to: u64,
    pub lease: ServingLease,
}

/// Returns the stretch that begins at a reading, if no other call comes; `None` if the task may not
/// serve the key at that reading.
pub fn stretch_from(slicelet: &Slicelet, key: SliceKey, process: u64, from: u64) -> Option<Stretch>
    ensures { result ≡ stretch_in slicelet.now key process from }
{
    match slicelet.serve(key, from) {
        Verdict::Allow { kind, .. } => {
            let held = slicelet.held(kind)?;
            let lease = ServingLease {
                kind,
                number: held.number,
                generation: held.generation,
            };
            Some(Stretch {
                process,
                from,
                to: held.ends,
                lease,
            })
        }
        Verdict::Deny(_) => None,
    }
}
