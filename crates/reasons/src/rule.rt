//! The values of the written rule.

ghost use Rattle.std.specs.Prelude.{◌≡◌, Bool, option_map};
ghost use Rattle.lease_rule.specs.declared.lease.Kind.TheVariants.{Guard, Bridge};
ghost use Rattle.slicelet.specs.Rules.{covers_key};
ghost use Rattle.slicelet.specs.States.{held_in, rule_in_state};
ghost use Rattle.reasons.specs.Values.{lease_values, rule_by, lease_if, first_of_leases, is_live_of, answering_lease, number_of, AreOf, AreOwners, IsOfRequest};

use crate::places::HeardPlaces;
use crate::reason::{KeyOwners, LeaseValues, RequestReason, RuleValues};
use arrayvec::ArrayVec;
use lease_rule::{Ground, Kind, Verdict};
use lease_table::LeaseTable;
use slice_ranges::SliceKey;
use slicelet::Slicelet;

// Returns the lease of a kind that a task holds, as it is seen from a key.
fn lease_values(
    slicelet: &Slicelet,
    kind: Kind,
    key: SliceKey,
    heard: Option<u64>,
) -> Option<LeaseValues>
    ensures { result ≡ option_map (lease_values kind key heard) (held_in slicelet.now kind) }
{
    match slicelet.held(kind) {
        Some(held) => Some(LeaseValues {
            kind,
            number: held.number,
            generation: held.generation,
            ends: held.ends,
            covers: slicelet.covering(kind, key).is_some(),
            heard,
        }),
        None => None,
    }
}

// Returns the lease if it covers the key.
fn covering(lease: Option<LeaseValues>) -> Option<LeaseValues>
    ensures { result ≡ lease_if (λ lease. lease.covers) lease }
{
    match lease {
        Some(lease) if lease.covers => Some(lease),
        _ => None,
    }
}

// Returns the lease if it is live at a reading and of a generation.
fn live_of(lease: Option<LeaseValues>, generation: u64, at: u64) -> Option<LeaseValues>
    ensures { result ≡ lease_if (is_live_of generation at) lease }
{
    match lease {
        Some(lease) if lease.generation == generation && at < lease.ends => Some(lease),
        _ => None,
    }
}

// Returns the first of two leases that covers the key.
fn first_covering(guard: Option<LeaseValues>, bridge: Option<LeaseValues>) -> Option<LeaseValues>
    ensures { result ≡ first_of_leases (λ lease. lease.covers) guard bridge }
{
    match covering(guard) {
        Some(lease) => Some(lease),
        None => covering(bridge),
    }
}

// Returns the first of two leases that is live at a reading and of a generation.
fn first_live(
    guard: Option<LeaseValues>,
    bridge: Option<LeaseValues>,
    generation: u64,
    at: u64,
) -> Option<LeaseValues>
    ensures { result ≡ first_of_leases (is_live_of generation at) guard bridge }
{
    match live_of(guard, generation, at) {
        Some(lease) => Some(lease),
        None => live_of(bridge, generation, at),
    }
}

// Returns the lease by which a verdict was given, if one decided.
fn answering_lease(
    guard: Option<LeaseValues>,
    bridge: Option<LeaseValues>,
    at: u64,
    verdict: Verdict,
) -> Option<LeaseValues>
    ensures { result ≡ answering_lease guard bridge at verdict }
{
    match verdict {
        Verdict::Allow {
            kind: Kind::Guard,
            ..
        } => guard,
        Verdict::Allow {
            kind: Kind::Bridge,
            ..
        } => bridge,
        Verdict::Deny(Ground::Ended) => first_covering(guard, bridge),
        Verdict::Deny(Ground::NotOwned { generation }) => first_live(guard, bridge, generation, at),
        Verdict::Deny(_) => None,
    }
}

// Returns the number of the grant of a lease.
fn number_of(lease: Option<LeaseValues>) -> Option<u64>
    ensures { result ≡ number_of lease }
{
    match lease {
        Some(lease) => Some(lease.number),
        None => None,
    }
}

// Returns the values by which the written rule decides whether a task may serve a key.
fn rule_values(slicelet: &Slicelet, heard: HeardPlaces, key: SliceKey, at: u64) -> RuleValues
    ensures values { AreOf slicelet.now heard key at result }
    ensures rules { rule_by result at ≡ rule_in_state (covers_key key) slicelet.now at }
{
    let guard = lease_values(slicelet, Kind::Guard, key, heard.guard);
    let bridge = lease_values(slicelet, Kind::Bridge, key, heard.bridge);
    let verdict = slicelet.serve(key, at);
    let answering = answering_lease(guard, bridge, at, verdict);
    RuleValues {
        started: slicelet.is_up(),
        last: slicelet.last_reading(),
        guard,
        bridge,
        number: number_of(answering),
    }
}

// Returns the owners of a key in the committed assignment.
fn key_owners(table: &LeaseTable, key: SliceKey) -> KeyOwners
    ensures { AreOwners table.now key result }
{
    match table.committed() {
        Some(assignment) => KeyOwners {
            generation: assignment.generation(),
            tasks: assignment.owners(key),
        },
        None => KeyOwners {
            generation: 0,
            tasks: ArrayVec::new(),
        },
    }
}

/// Returns why a task may serve a key at a reading, or may not.
///
/// The written rule over the values gives what [`Slicelet::serve`] returns.
pub fn request_reason(
    table: &LeaseTable,
    slicelet: &Slicelet,
    heard: HeardPlaces,
    key: SliceKey,
    at: u64,
) -> RequestReason
    ensures values { IsOfRequest table.now slicelet.now heard key at result }
    ensures rules { rule_by result.rule at ≡ rule_in_state (covers_key key) slicelet.now at }
{
    RequestReason {
        rule: rule_values(slicelet, heard, key, at),
        owners: key_owners(table, key),
    }
}
