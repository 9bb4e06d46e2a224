//! Replies to calls.

ghost use Rattle.std.specs.Prelude.{◌≡◌, IfOk};

use crate::error::ClusterError;
use clerk::{ClerkReply, Found};
use grants::{Phase, Row, SliceletReply, TableReply};
use key_handle::KeyHandle;
use lease_rule::Verdict;
use machines::{Duplicate, Listed};
use std::alloc::AllocError;

/// The reply of a job's machines to a call.
#[derive(Debug, Drop)]
pub enum ClusterReply {
    /// The table accepted the call.
    Table(TableReply),
    /// The task's slicelet accepted the call.
    Task(SliceletReply),
    /// The clerk accepted the call.
    Clerk(ClerkReply),
    /// The table's phase.
    Phase(Phase),
    /// The table's open rows.
    Rows(Listed<Row>),
    /// What the written rule says of the key. For `hold`: why there is no handle.
    Verdict(Verdict),
    /// The handle that was taken.
    Holding(KeyHandle),
    /// The task has held the handle's key ever since the handle was taken.
    Continuous,
    /// The task has not held the handle's key all the time.
    Broken,
    /// Who owns the key, as far as the clerk knows.
    Found(Found),
    /// The call is refused, for this reason, and changed nothing.
    Refused(ClusterError),
}

impl Duplicate for ClusterReply {
    fn copy(&self) -> Result<ClusterReply, AllocError> {
        Ok(match self {
            ClusterReply::Table(reply) => ClusterReply::Table(reply.copy()?),
            ClusterReply::Task(reply) => ClusterReply::Task(*reply),
            ClusterReply::Clerk(reply) => ClusterReply::Clerk(*reply),
            ClusterReply::Phase(phase) => ClusterReply::Phase(*phase),
            ClusterReply::Rows(rows) => ClusterReply::Rows(rows.copy()?),
            ClusterReply::Verdict(verdict) => ClusterReply::Verdict(*verdict),
            ClusterReply::Holding(handle) => ClusterReply::Holding(*handle),
            ClusterReply::Continuous => ClusterReply::Continuous,
            ClusterReply::Broken => ClusterReply::Broken,
            ClusterReply::Found(found) => ClusterReply::Found(found.copy()),
            ClusterReply::Refused(why) => ClusterReply::Refused(*why),
        })
    }
}
