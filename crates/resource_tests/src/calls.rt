//! Calls that are read from the members of an object, and replies as text.

use crate::asking::again;
use clerk::{ClerkCall, ClerkReply};
use grants::{SliceletCall, SliceletReply, TableCall, TableReply};
use program_io::{text_at, value_of};
use serde_json::Value;
use std::alloc::{AllocError, Global};
use std::test::Fail;
use wire::{
    DecodeError, DecodeRefusal, Numerals, clerk_call_named, grant_json, note_json,
    table_call_named, task_call_named,
};

/// A call that lines of logs have.
pub trait Named: Drop {
    /// Reads the call of this name from an object.
    fn named(alloc: Global, name: &str, value: &Value) -> Option<Result<Self, DecodeError>>
    where
        Self: Sized;
}

impl Named for TableCall {
    fn named(alloc: Global, name: &str, value: &Value) -> Option<Result<TableCall, DecodeError>> {
        table_call_named(alloc, &[], Numerals::Quoted, name, value)
    }
}

impl Named for SliceletCall {
    fn named(
        alloc: Global,
        name: &str,
        value: &Value,
    ) -> Option<Result<SliceletCall, DecodeError>> {
        task_call_named(alloc, &[], Numerals::Quoted, name, value)
    }
}

impl Named for ClerkCall {
    fn named(alloc: Global, name: &str, value: &Value) -> Option<Result<ClerkCall, DecodeError>> {
        clerk_call_named(alloc, &[], Numerals::Quoted, name, value)
    }
}

fn call_of<C: Named>(alloc: Global, name: &str, value: &Value) -> Result<C, DecodeError> {
    match C::named(alloc, name, value) {
        Some(call) => call,
        None => Err(DecodeError::Refused(DecodeRefusal::WrongForm)),
    }
}

/// Reads a call from its JSON, of which the member `do` has its name.
pub fn read_call<C: Named>(alloc: Global, text: &str) -> Result<C, Fail> {
    let value = again(|| value_of(alloc, text.as_bytes())).ok();
    let value = value.ok_or("a JSON text")?;
    let name = text_at("do", &value).ok();
    let name = name.ok_or("the name of a call")?;
    Ok(again(|| call_of(alloc, name, &value))?)
}

/// A reply that a test can compare.
pub trait Told: Drop {
    /// Returns the reply's words in a script, with what it delivers as JSON.
    fn told(&self, alloc: Global) -> Result<String, AllocError>;
}

impl Told for TableReply {
    fn told(&self, alloc: Global) -> Result<String, AllocError> {
        match self {
            TableReply::Term(term) => {
                format!(in alloc;
                    "term {} of {} until {}",
                    term.number, term.assigner, term.until
                )
            }
            TableReply::Proposed => format!(in alloc; "proposed"),
            TableReply::Committed(generation) => format!(in alloc; "committed {generation}"),
            TableReply::Granted(grant) => {
                grant_json(alloc, Numerals::Quoted, grant)?.to_string(alloc)
            }
            TableReply::Freed(rows) => format!(in alloc; "freed {rows}"),
            TableReply::Lost(rows) => format!(in alloc; "lost {rows}"),
        }
    }
}

impl Told for SliceletReply {
    fn told(&self, alloc: Global) -> Result<String, AllocError> {
        match self {
            SliceletReply::Started => format!(in alloc; "started"),
            SliceletReply::Heard => format!(in alloc; "heard"),
            SliceletReply::Released(note) => {
                note_json(alloc, Numerals::Quoted, note)?.to_string(alloc)
            }
            SliceletReply::Resumed(ended) => {
                let guard = note_json(alloc, Numerals::Quoted, &ended.guard)?.to_string(alloc)?;
                let bridge = note_json(alloc, Numerals::Quoted, &ended.bridge)?.to_string(alloc)?;
                format!(in alloc; "{guard} {bridge}")
            }
        }
    }
}

impl Told for ClerkReply {
    fn told(&self, alloc: Global) -> Result<String, AllocError> {
        match self {
            ClerkReply::Learnt => format!(in alloc; "learnt"),
            ClerkReply::Forgotten => format!(in alloc; "forgotten"),
        }
    }
}
