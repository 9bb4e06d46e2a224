//! How to fix a line that is neither a call nor a write.

use crate::own_calls::bare_grant_of;
use crate::write_line::{is_store_reply, is_token_text};
use faults::{Found, Members, Quoted, Wanted, WrongMember, missing_member, unknown_member};
use program_io::{Unread, list_of};
use serde_json::Value;
use slice_ranges::SliceKey;
use std::alloc::{AllocError, Global};
use std::fmt;
use wire::{DecodeError, EitherSlice, Numerals, grant_of, handle_of, note_of, numeral_of};

/// The members of each call and of a write, in the order in which they are checked. One that may be left out comes last.
const CALLS: &[(&str, &[&str])] = &[
    ("take", &["ticket", "reply", "assigner", "at"]),
    ("renew", &["ticket", "reply", "term", "at"]),
    (
        "propose",
        &["ticket", "reply", "term", "generation", "slices", "at"],
    ),
    ("commit", &["ticket", "reply", "term", "at"]),
    ("grant", &["ticket", "reply", "task", "life", "at"]),
    ("free", &["ticket", "reply", "note", "at"]),
    ("lose", &["ticket", "reply"]),
    ("phase", &["ticket", "reply"]),
    ("rows", &["ticket", "reply"]),
    (
        "restore",
        &["ticket", "reply", "last", "granted", "deadline"],
    ),
    ("open", &["ticket", "reply", "task", "life"]),
    ("resume", &["ticket", "reply", "task", "life"]),
    ("start", &["ticket", "reply", "task", "life", "at"]),
    ("hear", &["ticket", "reply", "task", "grant", "at"]),
    (
        "sample",
        &["ticket", "reply", "task", "sent", "reading", "now"],
    ),
    ("release", &["ticket", "reply", "task", "kind", "at"]),
    ("serve", &["ticket", "reply", "task", "key", "at"]),
    ("hold", &["ticket", "reply", "task", "key", "at"]),
    ("check", &["ticket", "reply", "task", "handle", "at"]),
    (
        "learn",
        &["ticket", "reply", "clerk", "generation", "slices"],
    ),
    ("look", &["ticket", "reply", "clerk", "key"]),
    ("forget", &["ticket", "reply", "clerk"]),
    ("write", &["ticket", "reply", "key", "token", "revision"]),
];

/// The same for calls that name a slice key in place of a key.
const SLICE_KEY_CALLS: &[(&str, &[&str])] = &[
    ("serve", &["ticket", "reply", "task", "slice_key", "at"]),
    ("hold", &["ticket", "reply", "task", "slice_key", "at"]),
    ("look", &["ticket", "reply", "clerk", "slice_key"]),
    (
        "write",
        &["ticket", "reply", "slice_key", "token", "revision"],
    ),
];

/// What a member must be, for members that steps of scripts do not have.
#[derive(Clone, Copy)]
enum Delivered {
    Words,
    Grant,
    Note,
    Handle,
    StoreReply,
    Token,
}

impl Delivered {
    // Returns what the member with this name must be, if steps do not have it.
    fn of(call: &str, name: &str) -> Option<Delivered> {
        match name {
            "reply" if call == "write" => Some(Delivered::StoreReply),
            "token" => Some(Delivered::Token),
            "reply" => Some(Delivered::Words),
            "grant" => Some(Delivered::Grant),
            "note" => Some(Delivered::Note),
            "handle" => Some(Delivered::Handle),
            _ => None,
        }
    }

    fn is_met(self, alloc: Global, value: &Value) -> Result<bool, AllocError> {
        match self {
            Delivered::Words => Ok(value.is_string()),
            Delivered::Grant => is_grant(alloc, value),
            Delivered::Note => Ok(note_of(Numerals::Either, value).is_ok()),
            Delivered::Handle => Ok(handle_of(Numerals::Either, value).is_ok()),
            Delivered::StoreReply => Ok(value.as_str().is_some_and(is_store_reply)),
            Delivered::Token => Ok(value.as_str().is_some_and(is_token_text)),
        }
    }
}

impl fmt::Display for Delivered {
    fn fmt<W: fmt::Write>(&self, f: &mut fmt::Formatter<W>) -> fmt::Result {
        f.write_str(match self {
            Delivered::Words => "a string",
            Delivered::Grant => {
                "a grant {\"number\", \"task\", \"life\", \"kind\", \"generation\", \"ends\", \"until\"}, with or without \"ranges\""
            }
            Delivered::Note => "a release note {\"task\", \"life\", \"kind\", \"number\"}",
            Delivered::StoreReply => "\"taken\", \"refused\" or \"unknown\"",
            Delivered::Token => "the 32 hexadecimal digits of a token",
            Delivered::Handle => "a key handle {\"task\", \"life\", \"slice_key\", \"position\"}",
        })
    }
}

// Whether a value is a grant, with or without ranges.
fn is_grant(alloc: Global, value: &Value) -> Result<bool, AllocError> {
    if value.get("ranges").is_none() {
        return Ok(bare_grant_of(value).is_ok());
    }
    match grant_of(alloc, Numerals::Either, value) {
        Ok(_grant) => Ok(true),
        Err(DecodeError::Refused(_)) => Ok(false),
        Err(DecodeError::NoMemory) => Err(AllocError),
    }
}

// Whether a value is the member with this name as messages have it, whose numbers are texts.
fn is_of_message(alloc: Global, name: &str, value: &Value) -> Result<bool, AllocError> {
    match name {
        "assigner"
        | "term"
        | "generation"
        | "at"
        | "last"
        | "granted"
        | "deadline"
        | "sent"
        | "reading"
        | "now"
        | "revision" => { Ok(numeral_of(Numerals::Quoted, value).is_ok()) }
        "slice_key" => match numeral_of(Numerals::Quoted, value) {
            Ok(key) => Ok(SliceKey::new(key).is_some()),
            Err(_) => Ok(false),
        },
        "slices" => match list_of::<EitherSlice>(alloc, value) {
            Ok(_slices) => Ok(true),
            Err(Unread::WrongForm) => Ok(false),
            Err(Unread::Memory) => Err(AllocError),
        },
        _ => Ok(false),
    }
}

// Returns what a call's member with this name must be, if steps have it too. A task, an assigner
// and a clerk may be any number here: one that the job does not have is answered, and not refused.
fn wanted_of(call: &str, name: &str) -> Wanted {
    match name {
        "task" if call == "grant" => Wanted::Between(1, 64),
        "life" => Wanted::Between(0, (1 << 32) - 1),
        "key" => Wanted::Key,
        "slice_key" => Wanted::Between(0, (1 << 63) - 1),
        "kind" => Wanted::Kind,
        "slices" => Wanted::Slices,
        _ => Wanted::Between(0, u64::MAX),
    }
}

// Describes a member whose value is wrong; `None` if it is right.
fn member_mend(
    alloc: Global,
    call: &str,
    name: &'static str,
    value: &Value,
) -> Result<Option<String>, AllocError> {
    if let Some(delivered) = Delivered::of(call, name) {
        if delivered.is_met(alloc, value)? {
            return Ok(None);
        }
        if value.is_object() {
            return Ok(Some(format!(in alloc; "\"{name}\" must be {delivered}")?));
        }
        let found = Found(value);
        return Ok(Some(format!(in alloc; "\"{name}\" is {found}; it must be {delivered}")?));
    }
    let wanted = wanted_of(call, name);
    if wanted.is_met(alloc, value)? || is_of_message(alloc, name, value)? {
        return Ok(None);
    }
    let wrong = WrongMember {
        name,
        value,
        wanted,
    };
    Ok(Some(format!(in alloc; "{wrong}")?))
}

// Whether a call or a write may leave the member with this name out.
fn is_optional(call: &str, name: &str) -> bool {
    match call {
        "learn" => name == "slices",
        "write" => name == "revision",
        _ => false,
    }
}

// Returns how to fix the members of a call.
fn members_mend(alloc: Global, members: Members, line: &Value) -> Result<String, AllocError> {
    let call = members.kind;
    if let Some(object) = line.as_object() {
        if let Some(unknown) = unknown_member(object, members, "do") {
            let unknown = Quoted(unknown);
            return format!(in alloc; "{call}: unknown member {unknown}; {members}");
        }
    }
    if let Some(missing) = missing_member(line, members) {
        if !is_optional(call, missing) {
            return format!(in alloc; "{call}: \"{missing}\" is missing; {members}");
        }
    }
    for name in members.names {
        if let Some(value) = line.get(*name) {
            if let Some(wrong) = member_mend(alloc, call, *name, value)? {
                return format!(in alloc; "{call}: {wrong}");
            }
        }
    }
    if call == "write" {
        return String::from_str(
            alloc,
            "write: only a write that was \"taken\" has a \"revision\"",
        );
    }
    format!(in alloc; "{call}: {members}")
}

/// Returns how to fix a value that is neither a call nor a write.
pub fn call_mend(alloc: Global, line: &Value) -> Result<String, AllocError> {
    if !line.is_object() {
        return format!(in alloc; "found {}; a call must be an object", Found(line));
    }
    let Some(word) = line.get("do") else {
        return String::from_str(alloc, "\"do\" is missing; it names the call");
    };
    let Some(name) = word.as_str() else {
        return format!(in alloc; "\"do\" is {}; it must be the name of a call", Found(word));
    };
    if line.get("slice_key").is_some() {
        for (kind, names) in SLICE_KEY_CALLS {
            if *kind == name {
                return members_mend(alloc, Members { kind, names }, line);
            }
        }
    }
    for (kind, names) in CALLS {
        if *kind == name {
            return members_mend(alloc, Members { kind, names }, line);
        }
    }
    format!(in alloc; "unknown call {}", Quoted(name))
}
