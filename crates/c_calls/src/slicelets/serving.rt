//! The lease under which a key is served.

ghost use Rattle.std.specs.Prelude.{◌≡◌, List};
ghost use Rattle.lease_rule.specs.declared.answer.Verdict.TheVariants as verdict;
ghost use Rattle.grants.specs.declared.slicelet_call.SliceletCall.{SliceletCall};
ghost use Rattle.slicelet.specs.Accepted.{StandsAfter};
ghost use Rattle.slicelet.specs.States.{newest_covering};
ghost use Rattle.c_calls.specs.Details.{covering_number};
ghost use Rattle.c_calls.specs.slicelets.Keys.{rule_at, rule_at_after};
ghost use Rattle.c_calls.specs.slicelets.Leases.{Holds, IsHeldAs, IsServed};

use crate::answer::Answer;
use crate::details::LeaseDetails;
use lease_rule::{Kind, Verdict};
use slice_ranges::SliceKey;
use slicelet::{Slicelet, covering_lease_law, held_law, state_law};

// States that the lease of a kind under which the rule allows a key is held.
fn serving_law(slicelet: &Slicelet, key: SliceKey, at: u64, kind: Kind, generation: u64)
    requires { rule_at key slicelet.now at ≡ verdict.Allow kind generation }
    ensures { Holds slicelet.now kind generation }
{
    let _ = (key, at, kind, generation);
    slicelet.standing_law();
    state_law();
    covering_lease_law();
    held_law();
}

// Returns the lease of a kind under which the rule allows a key.
fn lease_under(
    slicelet: &Slicelet,
    key: SliceKey,
    at: u64,
    kind: Kind,
    generation: u64,
) -> LeaseDetails
    requires { rule_at key slicelet.now at ≡ verdict.Allow kind generation }
    ensures { IsHeldAs slicelet.now kind generation result }
{
    serving_law(slicelet, key, at, kind, generation);
    let lease = slicelet.held(kind).unwrap();
    LeaseDetails {
        kind,
        number: lease.number,
        generation,
        until: lease.ends,
    }
}

/// Returns the lease under which the task may serve the keys of a slice key, or why it may not.
///
/// Writes the greatest generation of the held leases that cover the keys, live or ended, to
/// `covering`; 0 if none does.
pub fn serve_key(slicelet: &Slicelet, key: SliceKey, at: u64, covering: &mut u64) -> Answer
    ensures state { IsServed (rule_at key slicelet.now at) slicelet.now result }
    ensures covering { covering.new ≡ covering_number (newest_covering slicelet.now key) }
    ensures calls { (calls : List SliceletCall) → StandsAfter calls slicelet.now
        → IsServed (rule_at_after key calls at) slicelet.now result }
{
    let (verdict, newest) = slicelet.serve_and_newest(key, at);
    *covering = newest.unwrap_or(0);
    match verdict {
        Verdict::Allow { kind, generation } => {
            Answer::Leased(lease_under(slicelet, key, at, kind, generation))
        }
        Verdict::Deny(why) => Answer::Denied(why),
    }
}
