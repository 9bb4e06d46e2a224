//! The written rule.

ghost use Rattle.std.specs.Prelude.{◌≡◌, ℕ, option_map};
ghost use Rattle.lease_rule.specs.Leases.{seen_from};
ghost use Rattle.lease_rule.specs.Rule.{rule, holding_seen_from, serving_generation, covering_generation, newest_covering, live_generation, greatest};

use crate::answer::{Ground, Verdict};
use crate::holding::Holding;
use crate::lease::{Kind, Lease};
use slice_ranges::SliceKey;

/// Whether a task with this holding may serve the key at the reading `at`, in ticks.
///
/// The first case that holds decides:
///
/// - the task is down: `Down`;
/// - the reading is below the task's last one: `ClockBack`;
/// - the guard lease is live and covers the key: `Allow`;
/// - the bridge lease is live and covers the key: `Allow`;
/// - a held lease covers the key, and so has ended: `Ended`;
/// - a held lease is live: `NotOwned`;
/// - otherwise: `NoLease`.
pub fn verdict(holding: &Holding, key: SliceKey, at: u64) -> Verdict
    ensures { result ≡ rule (holding_seen_from holding.now key) at }
{
    verdict_and_newest(holding, key, at).0
}

/// Returns the [`verdict`] on the key, and the greatest generation of the held leases that cover
/// it, whether or not they have ended; `None` if none covers it.
pub fn verdict_and_newest(holding: &Holding, key: SliceKey, at: u64) -> (Verdict, Option<u64>)
    ensures verdict { result.0 ≡ rule (holding_seen_from holding.now key) at }
    ensures newest { result.1 ≡ newest_covering (holding_seen_from holding.now key) }
{
    let guard = covering_generation(&holding.guard, key);
    let bridge = covering_generation(&holding.bridge, key);
    (decide(holding, guard, bridge, at), greatest(guard, bridge))
}

/// Returns the generation of a lease that is held and covers the key, whether or not it has ended.
pub fn covering_generation(lease: &Option<Lease>, key: SliceKey) -> Option<u64>
    ensures { result ≡ covering_generation (option_map (seen_from key) lease.now) }
{
    match lease {
        Some(lease) if lease.covers(key) => Some(lease.generation),
        _ => None,
    }
}

/// Returns the greater of two generations, or the one that there is.
pub fn greatest(first: Option<u64>, second: Option<u64>) -> Option<u64>
    ensures { result ≡ greatest first second }
{
    match (first, second) {
        (Some(first), Some(second)) => Some(first.max(second)),
        (None, other) | (other, None) => other,
    }
}

// The rule, by the generations of the leases that cover the key.
fn decide(holding: &Holding, guard: Option<u64>, bridge: Option<u64>, at: u64) -> Verdict
    ensures { (key : ℕ) → guard ≡ covering_generation (option_map (seen_from key) holding.now.guard)
        → bridge ≡ covering_generation (option_map (seen_from key) holding.now.bridge)
        → result ≡ rule (holding_seen_from holding.now key) at }
{
    if !holding.up {
        return Verdict::Deny(Ground::Down);
    }
    if at < holding.last {
        return Verdict::Deny(Ground::ClockBack);
    }
    if let Some(generation) = serving_generation(&holding.guard, guard, at) {
        return Verdict::Allow {
            kind: Kind::Guard,
            generation,
        };
    }
    if let Some(generation) = serving_generation(&holding.bridge, bridge, at) {
        return Verdict::Allow {
            kind: Kind::Bridge,
            generation,
        };
    }
    if guard.is_some() || bridge.is_some() {
        return Verdict::Deny(Ground::Ended);
    }
    match newest_live_generation(holding, at) {
        Some(generation) => Verdict::Deny(Ground::NotOwned { generation }),
        None => Verdict::Deny(Ground::NoLease),
    }
}

// The generation of the lease, if it covers the key and is live.
fn serving_generation(lease: &Option<Lease>, covering: Option<u64>, at: u64) -> Option<u64>
    ensures { (key : ℕ) → covering ≡ covering_generation (option_map (seen_from key) lease.now)
        → result ≡ serving_generation at (option_map (seen_from key) lease.now) }
{
    match lease {
        Some(lease) if lease.is_live(at) => covering,
        _ => None,
    }
}

// The greatest generation of a held lease that is live.
fn newest_live_generation(holding: &Holding, at: u64) -> Option<u64>
    ensures { (key : ℕ) → result ≡ greatest
        (live_generation at (option_map (seen_from key) holding.now.guard))
        (live_generation at (option_map (seen_from key) holding.now.bridge)) }
{
    greatest(
        live_generation(&holding.guard, at),
        live_generation(&holding.bridge, at),
    )
}

// The generation of the lease, if it is held and live.
fn live_generation(lease: &Option<Lease>, at: u64) -> Option<u64>
    ensures { (key : ℕ) → result ≡ live_generation at (option_map (seen_from key) lease.now) }
{
    match lease {
        Some(lease) if lease.is_live(at) => Some(lease.generation),
        _ => None,
    }
}
