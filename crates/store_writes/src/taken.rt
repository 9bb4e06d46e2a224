//! Writes that the store took.

ghost use Rattle.std.specs.Prelude.{◌≡◌, ◌++◌, option_to_list, IfOk, OnOk};
ghost use Rattle.store_writes.specs.internals.Firsts.{AreTaken, taken_at};

use crate::write::{Write, WriteEvent};
use fence::Token;
use std::alloc::{AllocError, Global};

/// A write that the store took. They are ordered by revision, and those of one revision by token.
#[derive(Clone, Copy, Debug, PartialEq, Eq, PartialOrd, Ord)]
pub struct Taken {
    /// The store's number for it.
    pub revision: u64,
    /// Its token.
    pub token: Token,
    /// The slice key of its key.
    pub key: u64,
    /// The index of its event.
    pub index: usize,
}

// Returns the write of the event at an index, if the store took one.
fn taken_at(index: usize, event: WriteEvent) -> Option<Taken>
    ensures { result ≡ taken_at index event }
{
    match event {
        WriteEvent::Offered(
            Write {
                key,
                token,
                revision: Some(revision),
            },
        ) => Some(Taken {
            index,
            key,
            token,
            revision,
        }),
        _ => None,
    }
}

// Adds a write, if there is one.
fn add(taken: &mut Vec<Taken>, write: Option<Taken>) -> Result<(), AllocError>
    ensures { OnOk result (taken.new.items ≡ taken.old.items ++ option_to_list write) }
{
    if let Some(write) = write {
        taken.push(write)?;
    }
    Ok(())
}

/// Returns the writes that the store took.
pub fn taken_in(alloc: Global, events: &[WriteEvent]) -> Result<Vec<Taken>, AllocError>
    ensures { IfOk result (λ taken. AreTaken events.now taken.items) }
{
    let mut taken = Vec::new(alloc);
    for index in 0..events.len() {
        add(&mut taken, taken_at(index, events[index]))?;
    }
    Ok(taken)
}
