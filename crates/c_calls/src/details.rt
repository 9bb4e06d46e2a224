//! The details of an answer.

ghost use Rattle.std.specs.Prelude.{◌≡◌};
ghost use Rattle.c_calls.specs.Details.{kind_number};

use lease_rule::Kind;

/// A lease of a task, as an answer tells it.
#[derive(Clone, Copy, Debug, PartialEq, Eq)]
pub struct LeaseDetails {
    /// Its kind.
    pub kind: Kind,
    /// The number of its grant.
    pub number: u64,
    /// The generation that it was granted for.
    pub generation: u64,
    /// The first reading of the task's clock, in ticks, at which it has ended.
    pub until: u64,
}

/// The details of an answer.
///
/// Fields that an answer does not set are unchanged.
#[repr(C)]
#[derive(Clone, Copy, Debug, PartialEq, Eq)]
pub struct AnswerDetails {
    /// The number of a grant or a term, or the version of a message.
    pub number: u64,
    /// The generation of a lease or an assignment.
    pub generation: u64,
    /// The kind of a lease: 1 for guard, 2 for bridge.
    pub kind: u64,
    /// The task, 1 to 64.
    pub task: u64,
    /// A reading, in ticks: until when a lease, a term or a grace lasts.
    pub until: u64,
    /// The greatest generation of the held leases that cover the key, live or ended; 0 if none does.
    pub covering: u64,
}

/// Returns the number that C uses for a kind of lease: 1 for guard, 2 for bridge.
pub fn kind_number(kind: Kind) -> u64
    ensures { result ≡ kind_number kind }
{
    match kind {
        Kind::Guard => 1,
        Kind::Bridge => 2,
    }
}
