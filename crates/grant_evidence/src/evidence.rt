//! Evidence that clocks are not timely.

ghost use Rattle.std.specs.Prelude.{◌≡◌, IsTrue, ◌↔◌};
ghost use Rattle.grant_evidence.specs.Evidence.{term_of, sent_at, IsAhead};

use grants::{Grant, Policy};
use lease_rule::Kind;

// The term of the leases of a kind, in ticks.
fn term_of(policy: Policy, kind: Kind) -> u64
    ensures { result ≡ term_of policy kind }
{
    match kind {
        Kind::Guard => policy.guard(),
        Kind::Bridge => policy.bridge(),
    }
}

/// Returns the table's reading when it sent a grant, in ticks: the end of its row, less the term of
/// its kind. The policy is the one of the table.
pub fn sent_at(grant: &Grant, policy: Policy) -> u64
    ensures { result ≡ sent_at policy grant.now }
{
    grant
        .table_ends
        .saturating_sub(term_of(policy, grant.lease.kind))
}

/// Whether a grant that a task has at the reading `at` of its clock shows that clocks are not
/// timely: it was sent at a reading of the table's clock that is more than the skew above `at`. The
/// grant need not be heard, and may be refused.
pub fn clock_evidence(grant: &Grant, at: u64, policy: Policy) -> bool
    ensures { IsTrue result ↔ IsAhead policy grant.now at }
{
    at.saturating_add(policy.skew()) < sent_at(grant, policy)
}
