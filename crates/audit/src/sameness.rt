//! Whether two callers were told the same.

ghost use Rattle.std.specs.Prelude.{◌≡◌, ◌≢◌, MatchBool};
ghost use Rattle.job_calls.specs.declared.reply.ClusterReply.TheVariants as answer;

use clerk::{ClerkReply, Found};
use grants::{Phase, Row, SliceletReply, TableReply};
use job_calls::{ClusterError, ClusterReply};
use key_handle::KeyHandle;
use lease_rule::Verdict;
use machines::Listed;

fn is_reply_of_table(reply: &TableReply, other: &TableReply) -> bool
    ensures { MatchBool result (other.now ≡ reply.now) (other.now ≢ reply.now) }
{
    match (reply, other) {
        (TableReply::Term(term), TableReply::Term(other)) => term == other,
        (TableReply::Proposed, TableReply::Proposed) => true,
        (TableReply::Committed(generation), TableReply::Committed(other)) => generation == other,
        (TableReply::Granted(grant), TableReply::Granted(other)) => grant == other,
        (TableReply::Freed(rows), TableReply::Freed(other)) => rows == other,
        (TableReply::Lost(rows), TableReply::Lost(other)) => rows == other,
        _ => false,
    }
}

fn is_table(reply: &TableReply, told: &ClusterReply) -> bool
    ensures { MatchBool result (told.now ≡ answer.Table reply.now) (told.now ≢ answer.Table reply.now) }
{
    match told {
        ClusterReply::Table(other) => is_reply_of_table(reply, other),
        _ => false,
    }
}

fn is_task(reply: SliceletReply, told: &ClusterReply) -> bool
    ensures { MatchBool result (told.now ≡ answer.Task reply) (told.now ≢ answer.Task reply) }
{
    match told {
        ClusterReply::Task(other) => reply == *other,
        _ => false,
    }
}

fn is_clerk(reply: ClerkReply, told: &ClusterReply) -> bool
    ensures { MatchBool result (told.now ≡ answer.Clerk reply) (told.now ≢ answer.Clerk reply) }
{
    match told {
        ClusterReply::Clerk(other) => reply == *other,
        _ => false,
    }
}

fn is_phase(phase: Phase, told: &ClusterReply) -> bool
    ensures { MatchBool result (told.now ≡ answer.Phase phase) (told.now ≢ answer.Phase phase) }
{
    match told {
        ClusterReply::Phase(other) => phase == *other,
        _ => false,
    }
}

fn is_rows(rows: &Listed<Row>, told: &ClusterReply) -> bool
    ensures { MatchBool result (told.now ≡ answer.Rows rows.now) (told.now ≢ answer.Rows rows.now) }
{
    match told {
        ClusterReply::Rows(other) => rows == other,
        _ => false,
    }
}

fn is_verdict(verdict: Verdict, told: &ClusterReply) -> bool
    ensures { MatchBool result (told.now ≡ answer.Verdict verdict) (told.now ≢ answer.Verdict verdict) }
{
    match told {
        ClusterReply::Verdict(other) => verdict == *other,
        _ => false,
    }
}

fn is_holding(handle: KeyHandle, told: &ClusterReply) -> bool
    ensures { MatchBool result (told.now ≡ answer.Holding handle) (told.now ≢ answer.Holding handle) }
{
    match told {
        ClusterReply::Holding(other) => handle == *other,
        _ => false,
    }
}

fn is_found(found: &Found, told: &ClusterReply) -> bool
    ensures { MatchBool result (told.now ≡ answer.Found found.now) (told.now ≢ answer.Found found.now) }
{
    match told {
        ClusterReply::Found(other) => found == other,
        _ => false,
    }
}

fn is_refusal(why: ClusterError, told: &ClusterReply) -> bool
    ensures { MatchBool result (told.now ≡ answer.Refused why) (told.now ≢ answer.Refused why) }
{
    match told {
        ClusterReply::Refused(other) => why == *other,
        _ => false,
    }
}

/// Whether two callers were told the same.
pub(crate) fn is_same(told: &ClusterReply, other: &ClusterReply) -> bool
    ensures { MatchBool result (other.now ≡ told.now) (other.now ≢ told.now) }
{
    match told {
        ClusterReply::Table(reply) => is_table(reply, other),
        ClusterReply::Task(reply) => is_task(*reply, other),
        ClusterReply::Clerk(reply) => is_clerk(*reply, other),
        ClusterReply::Phase(phase) => is_phase(*phase, other),
        ClusterReply::Rows(rows) => is_rows(rows, other),
        ClusterReply::Verdict(verdict) => is_verdict(*verdict, other),
        ClusterReply::Holding(handle) => is_holding(*handle, other),
        ClusterReply::Continuous => matches!(other, ClusterReply::Continuous),
        ClusterReply::Broken => matches!(other, ClusterReply::Broken),
        ClusterReply::Found(found) => is_found(found, other),
        ClusterReply::Refused(why) => is_refusal(*why, other),
    }
}
