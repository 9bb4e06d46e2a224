//! The notes and handles that were made, as members of sets, so that one is found without a scan.

ghost use Rattle.std.specs.Prelude.{◌≡◌, ◌<◌, ◌≤◌, ◌+◌, ◌||◌, ◌++◌};
ghost use Rattle.std.proofs.Common.{rules};
ghost use Rattle.std.specs.Cmp.Rules.{comparing, hashing};
ghost use Rattle.std.specs.Hash as fed;
ghost use Rattle.indexmap.specs.IndexSet.{contains, spare};
ghost use Rattle.cluster.specs.Made.{same_note, same_handle};

use grants::ReleaseNote;
use indexmap::IndexSet;
use key_handle::KeyHandle;
use std::alloc::AllocError;
use std::hash::{Hash, Hasher};
use std::marker::Model;

/// A note that was made. Contracts see the note.
pub(crate) struct KnownNote {
    note: ReleaseNote,
}

impl Model for KnownNote {
    ghost use Rattle.grants.specs.declared.values.ReleaseNote.{ReleaseNote};

    ghost Value = { ReleaseNote };

    ghost view = { λ known. known.note };

    ghost inverse = { λ note. record { note = note } };
}

impl KnownNote {
    pub(crate) fn new(note: &ReleaseNote) -> Self
        ensures { result ≡ note.now }
    {
        KnownNote { note: *note }
    }
}

impl Clone for KnownNote {
    ghost is_clone = { λ known clone. clone ≡ known };

    ghost is_infallible = { λ _. Unit {0} };

    fn clone(&self) -> Result<Self, AllocError> {
        Ok(*self)
    }
}

impl Copy for KnownNote {}

impl PartialEq for KnownNote {
    ghost eq = { same_note };

    ghost laws = { Prim.search (comparing, rules) };

    fn eq(&self, other: &KnownNote) -> bool {
        self.note == other.note
    }
}

impl Eq for KnownNote {
    ghost laws = { Prim.search (comparing, rules) };
}

// Notes that differ only in their kind have the same hash.
impl Hash for KnownNote {
    ghost hash_input = { λ note. fed.u64 note.task ++ fed.u32 note.life ++ fed.u64 note.number };

    ghost respects_eq = { Prim.search (hashing, rules) };

    fn hash<H: Hasher>(&self, state: &mut H) {
        self.note.task.hash(state);
        self.note.life.hash(state);
        self.note.number.hash(state);
    }
}

/// A handle as a member of a set. Contracts see the handle.
pub struct KnownHandle {
    handle: KeyHandle,
}

impl Model for KnownHandle {
    ghost use Rattle.key_handle.specs.declared.handle.KeyHandle.{KeyHandle};

    ghost Value = { KeyHandle };

    ghost view = { λ known. known.handle };

    ghost inverse = { λ handle. record { handle = handle } };
}

impl KnownHandle {
    /// Creates the member that is this handle.
    pub fn new(handle: &KeyHandle) -> Self
        ensures { result ≡ handle.now }
    {
        KnownHandle { handle: *handle }
    }

    /// Returns the handle.
    pub fn handle(&self) -> KeyHandle
        ensures { result ≡ self.now }
    {
        self.handle
    }
}

impl Clone for KnownHandle {
    ghost is_clone = { λ known clone. clone ≡ known };

    ghost is_infallible = { λ _. Unit {0} };

    fn clone(&self) -> Result<Self, AllocError> {
        Ok(*self)
    }
}

impl Copy for KnownHandle {}

impl PartialEq for KnownHandle {
    ghost eq = { same_handle };

    ghost laws = { Prim.search (comparing, rules) };

    fn eq(&self, other: &KnownHandle) -> bool {
        self.handle == other.handle
    }
}

impl Eq for KnownHandle {
    ghost laws = { Prim.search (comparing, rules) };
}

impl Hash for KnownHandle {
    ghost hash_input = { λ handle. fed.u64 handle.task ++ fed.u32 handle.life ++ fed.u64 handle.key ++ fed.u64 handle.position };

    ghost respects_eq = { Prim.search (hashing, rules) };

    fn hash<H: Hasher>(&self, state: &mut H) {
        self.handle.task.hash(state);
        self.handle.life.hash(state);
        self.handle.key.hash(state);
        self.handle.position.hash(state);
    }
}

/// Adds a member to a set that has room for it.
pub(crate) fn insert_reserved<T: Hash + Eq + Drop>(known: &mut IndexSet<T>, member: T)
    requires { 0 < spare known.old }
    ensures members { (other : T) → contains T.eq known.new other ≡ (T.eq member other || contains T.eq known.old other) }
    ensures spare { spare known.old ≤ spare known.new + 1 }
{
    let _ = known.insert(member);
}
