//! The keys that a task may serve.

ghost use Rattle.std.specs.Prelude.{◌≡◌, ℕ, ◌||◌, option_map, IfOk};
ghost use Rattle.slice_ranges.specs.Sets.{has};
ghost use Rattle.lease_rule.specs.Leases.{seen_from};
ghost use Rattle.lease_rule.specs.Rule.{rule, holding_seen_from, is_allowed, is_covered, is_serving};

use crate::holding::Holding;
use crate::lease::Lease;
use slice_ranges::Ranges;
use std::alloc::{AllocError, Global};

/// Returns the keys that a task with this holding may serve at the reading `at`, in ticks.
///
/// They are the keys that [`verdict`](crate::verdict) allows at this reading. The only error is out
/// of memory.
#[tactic(auto, using(crate::proofs::Permitting::permitted_live, crate::proofs::Permitting::permitted_down, crate::proofs::Permitting::permitted_back))]
pub fn permitted(alloc: Global, holding: &Holding, at: u64) -> Result<Ranges, AllocError>
    ensures { IfOk result
        (λ r. (key : ℕ) → has r key ≡ is_allowed (rule (holding_seen_from holding.now key) at)) }
{
    if !holding.up || at < holding.last {
        return Ok(Ranges::empty(alloc));
    }
    live_keys(alloc, &holding.guard, &holding.bridge, at)
}

/// Returns the keys covered by those of two leases that are held and live at `at`, in ticks.
///
/// The only error is out of memory.
pub fn live_keys(
    alloc: Global,
    guard: &Option<Lease>,
    bridge: &Option<Lease>,
    at: u64,
) -> Result<Ranges, AllocError>
    ensures { IfOk result (λ r. (key : ℕ) → has r key ≡ (is_serving at (option_map (seen_from key) guard.now)
        || is_serving at (option_map (seen_from key) bridge.now))) }
{
    match (live_lease(guard, at), live_lease(bridge, at)) {
        (Some(guard), Some(bridge)) => guard.ranges.union(&bridge.ranges),
        (Some(lease), None) | (None, Some(lease)) => lease.ranges.copy(),
        (None, None) => Ok(Ranges::empty(alloc)),
    }
}

// The lease, if it is held and live at the reading.
fn live_lease(lease: &Option<Lease>, at: u64) -> Option<&Lease>
    ensures { (key : ℕ) → is_covered (option_map (λ live. seen_from key live.now) result)
        ≡ is_serving at (option_map (seen_from key) lease.now) }
{
    match lease {
        Some(lease) if lease.is_live(at) => Some(lease),
        _ => None,
    }
}
