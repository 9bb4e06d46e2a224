//! Replies of the machines, as replies to steps.

ghost use Rattle.std.specs.Prelude.{◌≡◌};
ghost use Rattle.replies.specs.Told.{term_reply, table_reply, task_reply, clerk_reply, refusal_by, told_as};

use crate::reply::{Refusal, Reply};
use clerk::ClerkReply;
use grants::{JobTerm, SliceletReply, TableReply};
use job_calls::{ClusterError, ClusterReply};

/// What a call names that its reply does not say.
#[derive(Clone, Copy, Debug)]
pub struct Named {
    /// The life that the call begins, or 0.
    pub life: u32,
    /// The number of the grant that the call delivers, or the generation that it proposes or
    /// delivers, or 0.
    pub number: u64,
    /// Whether the call renews the job lease.
    pub renews: bool,
}

/// The numbers that the next note and the next handle will get.
#[derive(Clone, Copy, Debug)]
pub struct NextNumbers {
    /// The number of the next note.
    pub note: u64,
    /// The number of the next handle.
    pub handle: u64,
}

fn term_reply(renews: bool, term: JobTerm) -> Reply
    ensures { result ≡ term_reply renews term }
{
    if renews {
        Reply::Renewed(term)
    } else {
        Reply::Term(term)
    }
}

/// Turns a reply of the table to a call into a step's reply. `named` is what the call names.
pub fn table_reply(named: Named, reply: TableReply) -> Reply
    ensures { result ≡ table_reply named reply }
{
    match reply {
        TableReply::Term(term) => term_reply(named.renews, term),
        TableReply::Proposed => Reply::Proposed(named.number),
        TableReply::Committed(generation) => Reply::Committed(generation),
        TableReply::Granted(grant) => Reply::Granted(grant),
        TableReply::Freed(rows) => Reply::Freed(rows),
        TableReply::Lost(rows) => Reply::Lost(rows),
    }
}

fn task_reply(named: Named, number: u64, reply: SliceletReply) -> Reply
    ensures { result ≡ task_reply named number reply }
{
    match reply {
        SliceletReply::Started => Reply::Started(named.life),
        SliceletReply::Heard => Reply::Heard(named.number),
        SliceletReply::Released(note) => Reply::Released { number, note },
        // No step begins a new process.
        SliceletReply::Resumed(_) => Reply::Started(named.life),
    }
}

fn clerk_reply(named: Named, reply: ClerkReply) -> Reply
    ensures { result ≡ clerk_reply named reply }
{
    match reply {
        ClerkReply::Learnt => Reply::Learnt(named.number),
        ClerkReply::Forgotten => Reply::Forgotten,
    }
}

/// Returns a refusal by the machines as a step's refusal.
pub fn refusal_by(error: ClusterError) -> Refusal
    ensures { result ≡ refusal_by error }
{
    match error {
        ClusterError::NoActor => Refusal::NoActor,
        ClusterError::NotSent => Refusal::NotSent,
        ClusterError::Table(why) => Refusal::Table(why),
        ClusterError::Slicelet(why) => Refusal::Slicelet(why),
        ClusterError::Stranger => Refusal::Stranger,
        ClusterError::Clerk(why) => Refusal::Clerk(why),
        ClusterError::Unknown => Refusal::Unknown,
    }
}

/// Turns a reply of the machines to a call into a step's reply.
///
/// `named` is what the call names. A note and a handle are told with the next numbers.
pub fn told_as(named: Named, next: NextNumbers, reply: ClusterReply) -> Reply
    ensures { result ≡ told_as named next reply }
{
    match reply {
        ClusterReply::Table(reply) => table_reply(named, reply),
        ClusterReply::Task(reply) => task_reply(named, next.note, reply),
        ClusterReply::Clerk(reply) => clerk_reply(named, reply),
        ClusterReply::Phase(phase) => Reply::Phase(phase),
        ClusterReply::Rows(rows) => Reply::Rows(rows),
        ClusterReply::Verdict(verdict) => Reply::Verdict(verdict),
        ClusterReply::Holding(handle) => Reply::Holding {
            number: next.handle,
            handle,
        },
        ClusterReply::Continuous => Reply::Continuous,
        ClusterReply::Broken => Reply::Broken,
        ClusterReply::Found(found) => Reply::Found(found),
        ClusterReply::Refused(why) => Reply::Refused(refusal_by(why)),
    }
}
