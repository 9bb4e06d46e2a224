//! The queries of a table, a task and a clerk.

ghost use Rattle.std.specs.Prelude.{◌≡◌};
ghost use Rattle.job_calls.specs.declared.call.ClusterCall.TheVariants as recorded_call;
ghost use Rattle.job_calls.specs.declared.reply.ClusterReply.TheVariants as told_reply;

use crate::query::{Query, RecordedQuery};
use clerk::{Clerk, Found, Unknown};
use grants::{Phase, Stranger};
use job_calls::{ClusterCall, ClusterError, ClusterReply};
use key_handle::KeyHandle;
use lease_rule::{Ground, Verdict};
use lease_table::LeaseTable;
use slice_ranges::SliceKey;
use slicelet::Slicelet;

/// Asks the table whether an assignment is proposed, and for the generations.
#[derive(Clone, Copy, Debug, PartialEq, Eq)]
pub struct AskPhase;

impl Query<LeaseTable> for AskPhase {
    type Answer = Phase;

    ghost use Rattle.lease_table.specs.Tables.{phase_of};

    ghost at = { λ query reading. query };

    ghost answers = { λ query table answer. answer ≡ phase_of table };

    fn at(self, _reading: u64) -> AskPhase {
        self
    }

    fn ask(&self, table: &LeaseTable) -> Phase {
        table.phase()
    }
}

impl RecordedQuery<LeaseTable> for AskPhase {
    ghost recorded = { λ actor query. recorded_call.Phase };

    ghost told = { told_reply.Phase };

    fn into_record(self, _actor: u64) -> ClusterCall {
        ClusterCall::Phase
    }

    fn tell(answer: &Phase) -> ClusterReply {
        ClusterReply::Phase(*answer)
    }
}

/// Asks a task whether it may serve a key at a reading of its clock, in ticks.
#[derive(Clone, Copy, Debug, PartialEq, Eq)]
pub struct AskServe {
    /// The key.
    pub key: SliceKey,
    /// The reading, which [`Shared::ask`](crate::Shared::ask) replaces.
    pub at: u64,
}

impl Query<Slicelet> for AskServe {
    type Answer = Verdict;

    ghost use Rattle.slicelet.specs.Rules.{covers_key};
    ghost use Rattle.slicelet.specs.States.{rule_in_state};

    ghost at = { λ query reading. record { key = query.key; at = reading } };

    ghost answers = { λ query slicelet answer. answer ≡ rule_in_state (covers_key query.key) slicelet query.at };

    fn at(self, reading: u64) -> AskServe {
        AskServe {
            key: self.key,
            at: reading,
        }
    }

    fn ask(&self, slicelet: &Slicelet) -> Verdict {
        slicelet.serve(self.key, self.at)
    }
}

impl RecordedQuery<Slicelet> for AskServe {
    ghost recorded = { λ actor query. recorded_call.Serve actor query.key query.at };

    ghost told = { told_reply.Verdict };

    fn into_record(self, actor: u64) -> ClusterCall {
        ClusterCall::Serve {
            task: actor,
            key: self.key,
            at: self.at,
        }
    }

    fn tell(answer: &Verdict) -> ClusterReply {
        ClusterReply::Verdict(*answer)
    }
}

/// Asks a task for a handle on a key at a reading of its clock, in ticks.
///
/// The answer is the ground on which the key is denied if the task may not serve it.
#[derive(Clone, Copy, Debug, PartialEq, Eq)]
pub struct AskHold {
    /// The key.
    pub key: SliceKey,
    /// The reading, which [`Shared::ask`](crate::Shared::ask) replaces.
    pub at: u64,
}

impl Query<Slicelet> for AskHold {
    type Answer = Result<KeyHandle, Ground>;

    ghost use Rattle.slicelet.specs.Continuity.{handle_on, held_by};
    ghost use Rattle.slicelet.specs.Rules.{covers_key};
    ghost use Rattle.slicelet.specs.States.{rule_in_state};

    ghost at = { λ query reading. record { key = query.key; at = reading } };

    ghost answers = { λ query slicelet answer. answer ≡ held_by (rule_in_state (covers_key query.key) slicelet query.at) (handle_on query.key slicelet) };

    fn at(self, reading: u64) -> AskHold {
        AskHold {
            key: self.key,
            at: reading,
        }
    }

    fn ask(&self, slicelet: &Slicelet) -> Result<KeyHandle, Ground> {
        slicelet.hold(self.key, self.at)
    }
}

impl RecordedQuery<Slicelet> for AskHold {
    ghost use Rattle.cluster.specs.Replies.{hold_reply};

    ghost recorded = { λ actor query. recorded_call.Hold actor query.key query.at };

    ghost told = { hold_reply };

    fn into_record(self, actor: u64) -> ClusterCall {
        ClusterCall::Hold {
            task: actor,
            key: self.key,
            at: self.at,
        }
    }

    fn tell(answer: &Result<KeyHandle, Ground>) -> ClusterReply {
        match answer {
            Ok(handle) => ClusterReply::Holding(*handle),
            Err(why) => ClusterReply::Verdict(Verdict::Deny(*why)),
        }
    }
}

/// Asks a task whether a handle is continuous at a reading of its clock, in ticks.
///
/// The answer is [`Stranger`] if the task's slicelet cannot have returned the handle.
#[derive(Clone, Copy, Debug, PartialEq, Eq)]
pub struct AskCheck {
    /// The handle.
    pub handle: KeyHandle,
    /// The reading, which [`Shared::ask`](crate::Shared::ask) replaces.
    pub at: u64,
}

impl Query<Slicelet> for AskCheck {
    type Answer = Result<bool, Stranger>;

    ghost use Rattle.slicelet.specs.Continuity.{checked_in};

    ghost at = { λ query reading. record { handle = query.handle; at = reading } };

    ghost answers = { λ query slicelet answer. answer ≡ checked_in slicelet query.handle query.at };

    fn at(self, reading: u64) -> AskCheck {
        AskCheck {
            handle: self.handle,
            at: reading,
        }
    }

    fn ask(&self, slicelet: &Slicelet) -> Result<bool, Stranger> {
        slicelet.continuous(&self.handle, self.at)
    }
}

impl RecordedQuery<Slicelet> for AskCheck {
    ghost use Rattle.shared_objects.specs.Queries.{check_told};

    ghost recorded = { λ actor query. recorded_call.Check actor query.handle query.at };

    ghost told = { check_told };

    fn into_record(self, actor: u64) -> ClusterCall {
        ClusterCall::Check {
            task: actor,
            handle: self.handle,
            at: self.at,
        }
    }

    fn tell(answer: &Result<bool, Stranger>) -> ClusterReply {
        match answer {
            Ok(true) => ClusterReply::Continuous,
            Ok(false) => ClusterReply::Broken,
            Err(Stranger) => ClusterReply::Refused(ClusterError::Stranger),
        }
    }
}

/// Asks a clerk who owns a key as far as it knows, and for the generation that says so.
///
/// The answer is [`Unknown`] if the clerk knows no assignment.
#[derive(Clone, Copy, Debug, PartialEq, Eq)]
pub struct AskLook {
    /// The key.
    pub key: SliceKey,
}

impl Query<Clerk> for AskLook {
    type Answer = Result<Found, Unknown>;

    ghost use Rattle.clerk.specs.Steps.{look_at};

    ghost at = { λ query reading. query };

    ghost answers = { λ query clerk answer. answer ≡ look_at clerk query.key };

    fn at(self, _reading: u64) -> AskLook {
        self
    }

    fn ask(&self, clerk: &Clerk) -> Result<Found, Unknown> {
        clerk.look(self.key)
    }
}

impl RecordedQuery<Clerk> for AskLook {
    ghost use Rattle.cluster.specs.Replies.{look_reply};

    ghost recorded = { λ actor query. recorded_call.Look actor query.key };

    ghost told = { look_reply };

    fn into_record(self, actor: u64) -> ClusterCall {
        ClusterCall::Look {
            clerk: actor,
            key: self.key,
        }
    }

    fn tell(answer: &Result<Found, Unknown>) -> ClusterReply {
        match answer {
            Ok(found) => ClusterReply::Found(found.copy()),
            Err(Unknown) => ClusterReply::Refused(ClusterError::Unknown),
        }
    }
}
