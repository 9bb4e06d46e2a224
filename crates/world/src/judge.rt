//! The written rule, applied to leases that a step supplies.

ghost use Rattle.std.specs.Prelude.{◌≡◌};
ghost use Rattle.machines.specs.Answers.{trouble_of};
ghost use Rattle.replies.specs.declared.reply.Refusal.TheVariants as refusal;
ghost use Rattle.world.specs.Judging.{leases_refusal, judge_reply, IsJudged};
ghost use Rattle.world.specs.Troubles.{of_layer};

use lease_rule::{Holding, Kind, Lease, verdict};
use machines::{Listed, Trouble};
use replies::{Refusal, Reply, WrittenLease};
use slice_ranges::{Ranges, SliceKey, pairs_refusal};
use std::alloc::Global;

/// A question for the written rule: what a task holds, a key and a reading.
#[derive(Debug, Drop)]
pub struct Question {
    /// Whether the task was started.
    pub up: bool,
    /// The task's last reading, in ticks.
    pub last: u64,
    /// The leases that the task holds, at most one of each kind.
    pub leases: Listed<WrittenLease>,
    /// The bytes of the key.
    pub key: Listed<u8>,
    /// The reading at which the key is to be served, in ticks.
    pub at: u64,
}

// Returns the refusal of the first of these leases that has one, otherwise out of memory.
fn first_refusal(leases: &[WrittenLease]) -> Trouble<Refusal>
    ensures { result ≡ of_layer refusal.Ranges (trouble_of (leases_refusal leases.now)) }
{
    for lease in leases {
        if let Some(why) = pairs_refusal(lease.ranges.as_slice()) {
            return Trouble::Refused(Refusal::Ranges(why));
        }
    }
    Trouble::NoMemory
}

/// Returns what the written rule says of a slice key.
///
/// # Errors
///
/// The refusal of the first lease whose ranges make no set. Out of memory comes last.
pub fn judge(alloc: Global, question: &Question, key: SliceKey) -> Result<Reply, Trouble<Refusal>>
    ensures { IsJudged question.now key result }
{
    let mut holding = Holding {
        up: question.up,
        last: question.last,
        guard: None,
        bridge: None,
    };
    for lease in question.leases.as_slice() {
        let ranges = match Ranges::build(alloc, lease.ranges.as_slice()) {
            Ok(ranges) => ranges,
            Err(_) => return Err(first_refusal(question.leases.as_slice())),
        };
        let held = Lease {
            kind: lease.kind,
            generation: lease.generation,
            ranges,
            ends: lease.ends,
        };
        match lease.kind {
            Kind::Guard => holding.guard = Some(held),
            Kind::Bridge => holding.bridge = Some(held),
        }
    }
    Ok(Reply::Verdict(verdict(&holding, key, question.at)))
}
