//! Tokens that tasks are given with requests.

ghost use Rattle.std.specs.Prelude.{◌≡◌};
ghost use Rattle.cluster.specs.continued.Jobs.{Continued, job_in};
ghost use Rattle.cluster.specs.continued.Clusters.{LeadsTo};
ghost use Rattle.cluster.specs.Pasts.{Past};
ghost use Rattle.log_writes.specs.Given.{asked_in, given_by, given_in};

use cluster::Cluster;
use fence::{NoToken, Token, token_of};
use job_calls::ClusterCall;
use log_line::LoggedCall;
use slice_ranges::SliceKey;
use store_writes::GivenToken;

/// A request for a key.
#[derive(Clone, Copy, Debug, PartialEq, Eq)]
pub struct Asked {
    /// The task that is asked.
    pub task: u64,
    /// The slice key of the key.
    pub key: SliceKey,
    /// The reading of the task's clock, in ticks.
    pub at: u64,
}

// Returns the request that a call is, if it is one.
fn asked_in(call: &LoggedCall) -> Option<Asked>
    ensures { result ≡ asked_in call.now }
{
    match call {
        LoggedCall::Whole(
            ClusterCall::Serve { task, key, at } | ClusterCall::Hold { task, key, at },
        ) => Some(Asked {
            task: *task,
            key: *key,
            at: *at,
        }),
        _ => None,
    }
}

// Returns what a task that has this token for a key is given.
fn given_by(key: SliceKey, token: Result<Token, NoToken>) -> Option<GivenToken>
    ensures { result ≡ given_by key token }
{
    match token {
        Ok(token) => Some(GivenToken {
            key: key.value(),
            generation: token.generation,
            life: token.life,
        }),
        Err(_) => None,
    }
}

/// Returns what a task is given with a call: the token that it has for the key that it is asked for,
/// if it may serve the key.
///
/// `most` is the most owners of a slice by the job's policy. The call is not played.
pub fn given_in(cluster: &Cluster, most: u64, call: &LoggedCall) -> Option<GivenToken>
    ensures { (job : Continued) (past : Past) → LeadsTo job past cluster.now → most ≡ job.policy.high
        → result ≡ given_in (job_in job) past call.now }
{
    let asked = asked_in(call)?;
    let slicelet = cluster.slicelet(asked.task)?;
    given_by(asked.key, token_of(slicelet, most, 0, asked.key, asked.at))
}
