//! The owners of a key as a struct of numbers.

use crate::assignments::owner_numbers;
use assignment::MOST_OWNERS;
use clerk::Found;

/// The owners of a key: the first `count` of `tasks`, in rising order. The rest are 0.
#[repr(C)]
#[derive(Clone, Copy, Debug, PartialEq, Eq)]
pub struct OwnersNumbers {
    /// The generation of the assignment in which they own the key.
    pub generation: u64,
    /// How many tasks own the key.
    pub count: u64,
    /// The owners, then zeros.
    pub tasks: [u64; MOST_OWNERS],
}

impl OwnersNumbers {
    ghost use Rattle.c_calls.specs.Clerks.{IsOf};

    /// Returns the numbers of the owners that a lookup found.
    pub fn of(found: &Found) -> Self
        ensures { IsOf found.now result }
    {
        let owners = found.owners.as_slice();
        OwnersNumbers {
            generation: found.generation,
            count: owners.len() as u64,
            tasks: owner_numbers(owners),
        }
    }
}
