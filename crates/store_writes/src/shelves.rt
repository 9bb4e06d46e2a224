//! The greatest token of each key.

ghost use Rattle.std.specs.Prelude.{List, [], ◌∷◌, ◌++◌, IfOk, OnOk};
ghost use Rattle.store_writes.specs.internals.Firsts.{AreGreatest, IsGreaterBefore};
ghost use Rattle.store_writes.specs.declared.taken.Taken.{Taken};

use crate::taken::Taken;
use std::alloc::{AllocError, Global};
use std::collections::HashMap;

/// For each key the write with the greatest token so far.
#[derive(Drop)]
pub struct Shelves {
    by_key: HashMap<u64, Taken>,
}

impl Shelves {
    /// Creates it before the first write.
    pub fn new(alloc: Global) -> Self
        ensures { AreGreatest [] result }
    {
        Shelves {
            by_key: HashMap::new(alloc),
        }
    }

    // Returns the write of this one's key with the greatest token, if that is greater than its.
    fn greater(&self, write: Taken) -> Option<Taken>
        ensures { (before : List Taken) → AreGreatest before self.now → IsGreaterBefore before write result }
    {
        let Some(greatest) = self.by_key.get(&write.key).copied() else {
            return None;
        };
        if greatest.token.is_up_to(write.token) {
            None
        } else {
            Some(greatest)
        }
    }

    /// Takes the next write. Returns one of its key before it with a greater token, if there is one.
    ///
    /// The only error is out of memory.
    pub fn take(&mut self, write: Taken) -> Result<Option<Taken>, AllocError>
        ensures greater { (before : List Taken) → AreGreatest before self.old → IfOk result (IsGreaterBefore before write) }
        ensures kept { (before : List Taken) → AreGreatest before self.old → OnOk result (AreGreatest (before ++ write ∷ []) self.new) }
    {
        let greater = self.greater(write);
        if greater.is_none() {
            self.by_key.insert(write.key, write)?;
        }
        Ok(greater)
    }
}
