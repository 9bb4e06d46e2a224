//! Leases as scripts write them.

ghost use Rattle.replies.specs.WrittenLeases.{lease_of};

use lease_rule::Kind;
use machines::Listed;
use program_io::{Form, TwoNumbers, Unread, exactly, list_at, number_at};
use serde_json::Value;
use std::alloc::Global;
use wire::kind_at;

/// A lease as a script writes it, for the written rule to judge.
#[derive(Debug, Drop)]
pub struct WrittenLease {
    /// The kind of the lease.
    pub kind: Kind,
    /// The generation that the lease was granted for.
    pub generation: u64,
    /// The slice keys that it covers, as pairs of a start and an end.
    pub ranges: Listed<(u64, u64)>,
    /// The first reading at which the lease is no longer live, in ticks.
    pub ends: u64,
}

/// The form of a lease, as a `judge` writes it.
pub struct LeaseForm;

impl Form for LeaseForm {
    type Output = WrittenLease;

    ghost form = { lease_of };

    #[tactic(auto, unfolding(crate::specs::WrittenLeases::lease_of))]
    fn read(alloc: Global, value: &Value) -> Result<WrittenLease, Unread> {
        exactly(&["kind", "generation", "ranges", "ends"], value)?;
        Ok(WrittenLease {
            kind: kind_at("kind", value)?,
            generation: number_at("generation", value)?,
            ranges: list_at::<TwoNumbers>(alloc, "ranges", value)?,
            ends: number_at("ends", value)?,
        })
    }
}
