//! The replies that callers of logged calls get.

ghost use Rattle.std.specs.Prelude.{◌≡◌, IfOk, Some};
ghost use Rattle.std.specs.Str.{bytes_eq};
ghost use Rattle.log_line.specs.Told.{coarse_text, fault_word, is_worded, life_in, named, number_in, plain_text, renews, told_as, words_of};

use crate::line::LoggedCall;
use crate::restored::{KeptNumbers, RestoreFault};
use clerk::ClerkCall;
use grants::{SliceletCall, SliceletReply, TableCall};
use job_calls::{ClusterCall, ClusterReply};
use lease_rule::Verdict;
use replies::{Line, Named, NextNumbers, Reply};
use std::alloc::{AllocError, Global};
use std::fmt;

/// The reply that the caller of a logged call gets.
#[derive(Debug, Drop)]
pub enum CallerReply {
    /// A reply that scripts get too.
    Scripted(Reply),
    /// A new process of the task began; the value is the life that the call names.
    Opened(u32),
    /// A sample was taken.
    Sampled,
    /// A new process of the table began.
    Restored {
        /// The committed generation, 0 if there is none.
        generation: u64,
        /// The end of the grace, in ticks: no earlier commit is accepted.
        grace: u64,
    },
    /// The table is not restored, for this reason, and keeps these values.
    NotRestored(RestoreFault, KeptNumbers),
}

// Returns the life that a call names, or 0.
fn life_in(call: &LoggedCall) -> u32
    ensures { result ≡ life_in call.now }
{
    match call {
        LoggedCall::Whole(
            ClusterCall::Task {
                call: SliceletCall::Start { life, .. } | SliceletCall::Resume { life },
                ..
            },
        ) => *life,
        _ => 0,
    }
}

// Returns the number of the grant or the generation that a call names, or 0.
fn number_in(call: &LoggedCall) -> u64
    ensures { result ≡ number_in call.now }
{
    match call {
        LoggedCall::Whole(ClusterCall::Table(TableCall::Propose { assignment, .. })) => {
            assignment.generation()
        }
        LoggedCall::Whole(
            ClusterCall::Task {
                call: SliceletCall::Hear { grant, .. },
                ..
            },
        ) => grant.number,
        LoggedCall::Whole(
            ClusterCall::Clerk {
                call: ClerkCall::Learn(assignment),
                ..
            },
        ) => assignment.generation(),
        LoggedCall::HearBare { grant, .. } => grant.number,
        LoggedCall::LearnBare { generation, .. } => *generation,
        _ => 0,
    }
}

// Whether a call renews the job lease.
fn renews(call: &LoggedCall) -> bool
    ensures { result ≡ renews call.now }
{
    matches!(
        call,
        LoggedCall::Whole(ClusterCall::Table(TableCall::JobRenew { .. }))
    )
}

/// Returns what a logged call names.
pub fn named(call: &LoggedCall) -> Named
    ensures { result ≡ named call.now }
{
    Named {
        life: life_in(call),
        number: number_in(call),
        renews: renews(call),
    }
}

/// Converts the machines' reply to a logged call to the reply that its caller gets.
pub fn told_as(call: &LoggedCall, next: NextNumbers, reply: ClusterReply) -> CallerReply
    ensures { result ≡ told_as call.now next reply }
{
    match reply {
        ClusterReply::Task(SliceletReply::Resumed(_)) => CallerReply::Opened(life_in(call)),
        reply => CallerReply::Scripted(replies::told_as(named(call), next, reply)),
    }
}

// Returns the name of a fault.
fn fault_word(fault: RestoreFault) -> &'static str
    ensures { result.now ≡ fault_word fault }
{
    match fault {
        RestoreFault::LessThanLog => "less-than-log",
        RestoreFault::FarAhead => "far-ahead",
        RestoreFault::NotAhead => "not-ahead",
    }
}

/// Displays the line of a reply.
#[derive(Clone, Copy)]
pub struct ToldLine<'a>(pub &'a CallerReply);

impl fmt::Display for ToldLine<'_> {
    ghost output = { λ l. Some (words_of l.0.now) };

    fn fmt<W: fmt::Write>(&self, f: &mut fmt::Formatter<W>) -> fmt::Result {
        match self.0 {
            CallerReply::Scripted(reply) => write!(f, "{}", Line(reply)),
            CallerReply::Opened(life) => write!(f, "opened {life}"),
            CallerReply::Sampled => f.write_str("sampled"),
            CallerReply::Restored { generation, grace } => {
                write!(f, "restored generation {generation} grace {grace}")
            }
            CallerReply::NotRestored(fault, table) => {
                write!(
                    f,
                    "refused {} last {} granted {} deadline {}",
                    fault_word(*fault),
                    table.last,
                    table.granted,
                    table.deadline
                )
            }
        }
    }
}

/// Displays the line of a reply, without the numbers of notes and handles.
#[derive(Clone, Copy)]
pub struct PlainLine<'a>(pub &'a CallerReply);

impl fmt::Display for PlainLine<'_> {
    ghost output = { λ l. Some (plain_text l.0.now) };

    fn fmt<W: fmt::Write>(&self, f: &mut fmt::Formatter<W>) -> fmt::Result {
        match self.0 {
            CallerReply::Scripted(Reply::Released { note, .. }) => {
                write!(f, "released life {} number {}", note.life, note.number)
            }
            CallerReply::Scripted(Reply::Holding { handle, .. }) => {
                write!(
                    f,
                    "handle life {} position {}",
                    handle.life, handle.position
                )
            }
            told => write!(f, "{}", ToldLine(told)),
        }
    }
}

/// Displays one word of a reply, for callers that keep no more of it, or else its plain line.
#[derive(Clone, Copy)]
struct CoarseWord<'a>(&'a CallerReply);

impl fmt::Display for CoarseWord<'_> {
    ghost output = { λ l. Some (coarse_text l.0.now) };

    fn fmt<W: fmt::Write>(&self, f: &mut fmt::Formatter<W>) -> fmt::Result {
        match self.0 {
            CallerReply::Scripted(Reply::Verdict(Verdict::Allow { .. })) => f.write_str("served"),
            CallerReply::Scripted(Reply::Verdict(Verdict::Deny(_))) => f.write_str("denied"),
            CallerReply::Scripted(Reply::Refused(_)) => f.write_str("refused"),
            CallerReply::Scripted(Reply::Lost(_)) => f.write_str("lost"),
            CallerReply::NotRestored(_, _) => f.write_str("refused"),
            told => write!(f, "{}", PlainLine(told)),
        }
    }
}

// Whether words are the one word of a reply.
fn is_in_one_word(alloc: Global, words: &str, told: &CallerReply) -> Result<bool, AllocError>
    ensures { IfOk result (λ same. same ≡ bytes_eq words.now (coarse_text told.now)) }
{
    let word = format!(in alloc; "{}", CoarseWord(told))?;
    Ok(words == word.as_str())
}

/// Whether words are the line of a reply, with or without the numbers of notes and handles, or its
/// one word.
pub fn is_worded(alloc: Global, words: &str, told: &CallerReply) -> Result<bool, AllocError>
    ensures { IfOk result (λ same. same ≡ is_worded words.now told.now) }
{
    let line = format!(in alloc; "{}", ToldLine(told))?;
    if words == line.as_str() {
        return Ok(true);
    }
    let plain = format!(in alloc; "{}", PlainLine(told))?;
    if words == plain.as_str() {
        return Ok(true);
    }
    is_in_one_word(alloc, words, told)
}
