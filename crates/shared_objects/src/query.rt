//! Queries to a machine, which change nothing.

ghost use Rattle.std.specs.Prelude.{◌≡◌, ℕ};
ghost use Rattle.job_calls.specs.declared.call.ClusterCall.{ClusterCall};
ghost use Rattle.job_calls.specs.declared.reply.ClusterReply.{ClusterReply};

use job_calls::{ClusterCall, ClusterReply};

/// A query to a machine.
pub trait Query<M>: Copy {
    /// The type of the answer.
    type Answer;

    // The same query at another reading, if it has one.
    ghost at: { Self → ℕ → Self };

    // What the machine answers.
    ghost answers: { Self → M → Self.Answer → Type 0 };

    /// Returns the same query at another reading, in ticks.
    ///
    /// A query without a reading stays as it is.
    fn at(self, reading: u64) -> Self
        ensures { result ≡ at self reading };

    /// Returns the machine's answer.
    fn ask(&self, machine: &M) -> Self::Answer
        ensures { answers self.now machine.now result };
}

/// A query whose answer can be recorded.
pub trait RecordedQuery<M>: Query<M> {
    // The record of the query to the actor with this number.
    ghost recorded: { ℕ → Self → ClusterCall };

    // The reply that is recorded for an answer.
    ghost told: { Self.Answer → ClusterReply };

    /// Returns the query to the actor with this number as it is recorded.
    fn into_record(self, actor: u64) -> ClusterCall
        ensures { result ≡ recorded actor self };

    /// Returns the reply that is recorded for an answer.
    fn tell(answer: &Self::Answer) -> ClusterReply
        ensures { result ≡ told answer.now };
}
