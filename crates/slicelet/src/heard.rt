//! What a slicelet keeps for each kind of lease.

ghost use Rattle.std.specs.Prelude.{◌≡◌, ℕ, true, Some, None, is_some, option_map, IfOk};
ghost use Rattle.slice_ranges.specs.Sets.{has};
ghost use Rattle.slicelet.specs.internals.State.{lease_of_kind, with_lease, heard_of_kind, with_heard, number_in, number_or_0};
ghost use Rattle.slicelet.specs.internals.Stamping.{serves, Stays, ServesSame, ServesAll, RenewsBeside, Renews};

use grants::Grant;
use lease_rule::{Holding, Kind, Lease, live_keys};
use slice_ranges::Ranges;
use std::alloc::{AllocError, Global};

/// What a slicelet keeps of a grant that it heard, besides the lease.
#[derive(Clone, Copy)]
pub struct HeardGrant {
    pub number: u64,
    pub table_ends: u64,
}

/// The last grant heard of each kind, which is the one with the greatest number.
#[derive(Clone, Copy)]
pub struct HeardGrants {
    pub guard: Option<HeardGrant>,
    pub bridge: Option<HeardGrant>,
}

impl HeardGrants {
    /// Returns the value for a task that has heard no grant.
    pub fn no_grants() -> Self
        ensures { result ≡ record { guard = None; bridge = None } }
    {
        HeardGrants {
            guard: None,
            bridge: None,
        }
    }

    /// Returns the number of the last grant heard of a kind, if any.
    pub fn number(&self, kind: Kind) -> Option<u64>
        ensures { result ≡ number_in (heard_of_kind self.now kind) }
    {
        let heard = match kind {
            Kind::Guard => self.guard,
            Kind::Bridge => self.bridge,
        };
        match heard {
            Some(grant) => Some(grant.number),
            None => None,
        }
    }

    /// Returns these grants, with `grant` as the last one of its kind.
    pub fn with(self, grant: &Grant) -> Self
        ensures { result ≡ with_heard self grant.now.lease.kind
            (record { number = grant.now.number; table_ends = grant.now.table_ends }) }
    {
        let heard = Some(HeardGrant {
            number: grant.number,
            table_ends: grant.table_ends,
        });
        match grant.lease.kind {
            Kind::Guard => HeardGrants {
                guard: heard,
                ..self
            },
            Kind::Bridge => HeardGrants {
                bridge: heard,
                ..self
            },
        }
    }
}

/// A lease that a task holds; it may have ended.
#[derive(Clone, Copy, Debug, PartialEq, Eq)]
pub struct HeldLease {
    /// The number of its grant.
    pub number: u64,
    /// The generation that it was granted for.
    pub generation: u64,
    /// The task's deadline: the first reading, in ticks, at which the lease is no longer live.
    pub ends: u64,
}

/// Returns a held lease with the number of the last grant heard of its kind, if one is held.
pub fn held_as(lease: &Option<Lease>, heard: Option<HeardGrant>) -> Option<HeldLease>
    ensures { result ≡ option_map (λ lease. record { number = number_or_0 heard; generation = lease.generation; ends = lease.ends }) lease.now }
{
    let number = match heard {
        Some(grant) => grant.number,
        None => 0,
    };
    match lease {
        Some(lease) => Some(HeldLease {
            number,
            generation: lease.generation,
            ends: lease.ends,
        }),
        None => None,
    }
}

/// Returns the holding of a task that holds no lease.
pub fn no_leases(up: bool, last: u64) -> Holding
    ensures { result ≡ record { up = up; last = last; guard = None; bridge = None } }
{
    Holding {
        up,
        last,
        guard: None,
        bridge: None,
    }
}

/// Whether the task holds a lease of a kind.
pub fn holds(holding: &Holding, kind: Kind) -> bool
    ensures { result ≡ is_some (lease_of_kind holding.now kind) }
{
    match kind {
        Kind::Guard => holding.guard.is_some(),
        Kind::Bridge => holding.bridge.is_some(),
    }
}

/// Replaces the lease of a kind by `lease`, which may be none.
pub fn put_lease(holding: &mut Holding, kind: Kind, lease: Option<Lease>)
    ensures { holding.new ≡ with_lease holding.old kind lease }
{
    match kind {
        Kind::Guard => holding.guard = lease,
        Kind::Bridge => holding.bridge = lease,
    }
}

/// Returns the keys that are served at a reading once `lease`, which may be none, is that of its
/// kind.
///
/// The reading is in ticks. The only error is out of memory.
pub fn live_keys_with(
    alloc: Global,
    holding: &Holding,
    kind: Kind,
    lease: &Option<Lease>,
    at: u64,
) -> Result<Ranges, AllocError>
    ensures { IfOk result
        (λ r. (key : ℕ) → has r key ≡ serves (with_lease holding.now kind lease.now) key at) }
{
    match kind {
        Kind::Guard => live_keys(alloc, lease, &holding.bridge, at),
        Kind::Bridge => live_keys(alloc, &holding.guard, lease, at),
    }
}

/// Whether the keys that may be served stay the same when `lease` replaces the one of its kind.
///
/// `lease` may be none, and the reading `at` is in ticks. Returns true if all held leases are live
/// and, in addition, `lease` covers the same keys as the lease before it, or the lease of the other
/// kind covers the keys of both. The call takes no memory.
pub fn renews(holding: &Holding, kind: Kind, lease: &Option<Lease>, at: u64) -> bool
    ensures { result ≡ true → Renews holding.now (with_lease holding.now kind lease.now) at }
{
    match kind {
        Kind::Guard => renews_beside(&holding.guard, lease, &holding.bridge, at),
        Kind::Bridge => renews_beside(&holding.bridge, lease, &holding.guard, at),
    }
}

// The same for a held lease, its replacement, and the lease of the other kind.
fn renews_beside(
    held: &Option<Lease>,
    lease: &Option<Lease>,
    other: &Option<Lease>,
    at: u64,
) -> bool
    ensures { result ≡ true → RenewsBeside at held.now lease.now other.now }
{
    is_none_or_live(held, at)
        && is_none_or_live(other, at)
        && (covers_same(held, lease, at)
            || covers_all(other, held, at) && covers_all(other, lease, at))
}

// Whether two leases are live and cover the same keys.
fn covers_same(held: &Option<Lease>, lease: &Option<Lease>, at: u64) -> bool
    ensures { result ≡ true → ServesSame at lease.now held.now }
{
    match (held, lease) {
        (Some(held), Some(lease)) => {
            held.is_live(at) && lease.is_live(at) && held.ranges == lease.ranges
        }
        _ => false,
    }
}

// Whether `other` is live and covers all keys of `lease`, or there is no `lease`.
fn covers_all(other: &Option<Lease>, lease: &Option<Lease>, at: u64) -> bool
    ensures { result ≡ true → ServesAll at other.now lease.now }
{
    match (other, lease) {
        (_, None) => true,
        (Some(other), Some(lease)) => other.is_live(at) && lease.ranges.is_subset(&other.ranges),
        (None, Some(_)) => false,
    }
}

// Whether no lease is held, or the held one is live.
fn is_none_or_live(held: &Option<Lease>, at: u64) -> bool
    ensures { result ≡ true → Stays at held.now }
{
    match held {
        Some(lease) => lease.is_live(at),
        None => true,
    }
}
