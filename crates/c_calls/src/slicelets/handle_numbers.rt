//! Key handles as structs of numbers.

ghost use Rattle.std.specs.Prelude.{◌≡◌, Some};

use crate::arguments::{slice_key_of, task_of};
use key_handle::KeyHandle;

/// A key handle, as numbers.
#[repr(C)]
#[derive(Clone, Copy, Debug, PartialEq, Eq)]
pub struct HandleNumbers {
    /// The task that took the handle.
    pub task: u64,
    /// The slice key.
    pub slice_key: u64,
    /// How many calls the task's slicelet had accepted when the handle was taken.
    pub position: u64,
    /// The task's life when the handle was taken.
    pub life: u32,
}

impl HandleNumbers {
    ghost use Rattle.c_calls.specs.slicelets.KeyHandles.{handle_of, handle_numbers};

    /// Returns the numbers of a handle.
    pub fn of(handle: &KeyHandle) -> Self
        ensures numbers { result ≡ handle_numbers handle.now }
        ensures reads { handle_of result ≡ Some handle.now }
    {
        HandleNumbers {
            task: handle.task.number(),
            slice_key: handle.key.value(),
            position: handle.position,
            life: handle.life,
        }
    }

    /// Returns the handle, or `None` if the task or the slice key is outside its limits.
    pub fn handle(&self) -> Option<KeyHandle>
        ensures { result ≡ handle_of self.now }
    {
        let task = task_of(self.task)?;
        let key = slice_key_of(self.slice_key)?;
        Some(KeyHandle::new(task, self.life, key, self.position))
    }
}
