//! Handles.

ghost use Rattle.std.specs.Prelude.{◌≡◌};
ghost use Rattle.key_handle.specs.Handles.{is_still};

use crate::stamped::Stamped;
use assignment::TaskId;
use slice_ranges::SliceKey;

/// A handle on a key: a task takes it when work on the key begins, and checks it later.
///
/// The check says whether the task has held the key without a break since it took the handle.
#[derive(Clone, Copy, Debug, PartialEq, Eq)]
pub struct KeyHandle {
    /// The task that took the handle.
    pub task: TaskId,
    /// The life of the task in which the handle was taken.
    pub life: u32,
    /// The key.
    pub key: SliceKey,
    /// How many calls the slicelet of the task had accepted in its process when the handle was
    /// taken.
    pub position: u64,
}

impl KeyHandle {
    /// Creates the handle that a task takes on a key in a life, after `position` accepted calls.
    pub fn new(task: TaskId, life: u32, key: SliceKey, position: u64) -> Self
        ensures { result ≡ record { task = task; life = life; key = key; position = position } }
    {
        KeyHandle {
            task,
            life,
            key,
            position,
        }
    }

    /// Whether the handle is of this life and its key has a stamp that is not above its position.
    pub fn still(&self, life: u32, stamps: &Stamped) -> bool
        ensures { result ≡ is_still self.now life stamps.now }
    {
        self.life == life
            && stamps
                .since(self.key)
                .is_some_and(|stamp| stamp <= self.position)
    }
}
