//! Grants of the table that no line of a log tells.

ghost use Rattle.std.specs.Prelude.{◌≡◌, ℕ, ◌<◌, ◌^◌, true, Some, IfOk, slice_get};
ghost use Rattle.log_causes.specs.Hints.{AreMissing, AreMissingFor, AreTold, IsNumberTold, IsOneTold, grants_between, number_wanted, tells_grant, words_in};

use crate::finding::Finding;
use log_line::{CallerReply, LogEntry};
use replies::Reply;
use std::alloc::{AllocError, Global};

/// Grants of the table with these numbers, and with all numbers between them.
#[derive(Clone, Copy, Debug, PartialEq, Eq)]
pub struct MissingGrants {
    /// The number of the first grant.
    pub first: u64,
    /// The number of the last grant.
    pub last: u64,
}

// Returns the second word of words as a number: no other grant can be told by them.
fn second_number(words: &str) -> Option<u64>
    ensures { (number : ℕ) → number < 2 ^ 64 → tells_grant number words.now ≡ true → result ≡ Some number }
{
    let Some((_, rest)) = words.split_once(' ') else {
        return None;
    };
    let Some((digits, _)) = rest.split_once(' ') else {
        return None;
    };
    match digits.parse::<u64>() {
        Ok(number) => Some(number),
        Err(_) => None,
    }
}

// Whether words begin as the reply to a `grant` with this number does.
fn tells_grant(alloc: Global, number: u64, words: &str) -> Result<bool, AllocError>
    ensures { IfOk result (λ is. is ≡ tells_grant number words.now) }
{
    let start = format!(in alloc; "grant {number} ")?;
    Ok(words.as_bytes().starts_with(start.as_bytes()))
}

// Returns the number of the grant that words tell.
fn number_told(alloc: Global, words: &str) -> Result<Option<u64>, AllocError>
    ensures told { IfOk result (IsNumberTold words.now) }
    ensures only { IfOk result (λ told.
        (number : ℕ) → number < 2 ^ 64 → tells_grant number words.now ≡ true → told ≡ Some number) }
{
    let Some(number) = second_number(words) else {
        return Ok(None);
    };
    if tells_grant(alloc, number, words)? {
        Ok(Some(number))
    } else {
        Ok(None)
    }
}

// Whether words tell one of these grants.
fn is_one_told(alloc: Global, grants: MissingGrants, words: &str) -> Result<bool, AllocError>
    ensures { IfOk result (IsOneTold grants words.now) }
{
    let Some(number) = number_told(alloc, words)? else {
        return Ok(false);
    };
    if number < grants.first {
        return Ok(false);
    }
    if grants.last < number {
        return Ok(false);
    }
    Ok(true)
}

// Whether some entry tells one of these grants.
fn are_told(alloc: Global, grants: MissingGrants, entries: &[LogEntry]) -> Result<bool, AllocError>
    ensures { IfOk result (AreTold grants entries.now) }
{
    for index in 0..entries.len() {
        let entry = &entries[index];
        if is_one_told(alloc, grants, entry.line.reply.as_str())? {
            return Ok(true);
        }
    }
    Ok(false)
}

// Returns the number of the grant that a caller should have got.
fn number_wanted(wanted: &CallerReply) -> Option<u64>
    ensures { result ≡ number_wanted wanted.now }
{
    match wanted {
        CallerReply::Scripted(Reply::Granted(grant)) => Some(grant.number),
        _ => None,
    }
}

// Returns the grants from the one that a caller should have got to the last one before that of
// which it was told.
fn grants_between(wanted: Option<u64>, told: Option<u64>) -> Option<MissingGrants>
    ensures { result ≡ grants_between wanted told }
{
    let first = wanted?;
    let told = told?;
    if first < told {
        Some(MissingGrants {
            first,
            last: told - 1,
        })
    } else {
        None
    }
}

// Returns these grants if no entry tells one of them.
fn untold(
    alloc: Global,
    entries: &[LogEntry],
    grants: Option<MissingGrants>,
) -> Result<Option<MissingGrants>, AllocError>
    ensures { IfOk result (AreMissing entries.now grants) }
{
    let Some(grants) = grants else {
        return Ok(None);
    };
    if are_told(alloc, grants, entries)? {
        Ok(None)
    } else {
        Ok(Some(grants))
    }
}

// Returns the words of the reply in an entry, or none.
fn words_at(entries: &[LogEntry], index: usize) -> &str
    ensures { result.now ≡ words_in (slice_get entries.now index) }
{
    match entries.get(index) {
        Some(entry) => entry.line.reply.as_str(),
        None => "",
    }
}

/// Returns the grants that the logs lack: if the caller of the finding's call was told of a later
/// grant than it should have got, those from the right one on that come before it, if no entry
/// tells one of them.
pub fn missing_grants(
    alloc: Global,
    entries: &[LogEntry],
    finding: &Finding,
) -> Result<Option<MissingGrants>, AllocError>
    ensures { IfOk result (AreMissingFor entries.now finding.now) }
{
    let Finding::Other { index, wanted, .. } = finding else {
        return Ok(None);
    };
    let told = number_told(alloc, words_at(entries, *index))?;
    let grants = grants_between(number_wanted(wanted), told);
    untold(alloc, entries, grants)
}
