//! The key sets of tasks, each made once and then shared.

ghost use Rattle.std.specs.Prelude.{◌≡◌, [], ◌∷◌, ◌++◌, option_map, unwrap_or, IfOk};
ghost use Rattle.std.specs.Arc.{arc_slice_items};
ghost use Rattle.lease_table.specs.internals.KeySets.{keys_in};

use assignment::TaskId;
use slice_ranges::Ranges;
use std::alloc::{AllocError, Global};
use std::marker::Model;
use std::sync::ArcSlice;

/// The keys of a task.
#[derive(Drop)]
pub struct KeySet {
    task: TaskId,
    keys: Ranges,
}

/// The key sets of tasks, which contracts see in the order in which they were added.
///
/// Copies share the memory of the sets and of their list.
#[derive(Drop)]
pub struct KeySets {
    sets: Option<ArcSlice<KeySet>>,
}

impl Model for KeySets {
    ghost use Rattle.std.specs.Prelude.{List, [], option_map, unwrap_or};
    ghost use Rattle.std.specs.Arc.{arc_slice_items};
    ghost use Rattle.lease_table.specs.declared.key_sets.KeySet.{KeySet};

    ghost Value = { List KeySet };

    ghost view = { λ k. unwrap_or (option_map arc_slice_items k.sets) [] };
}

impl KeySets {
    /// Creates an empty list of key sets.
    pub fn none() -> Self
        ensures { result ≡ [] }
    {
        KeySets { sets: None }
    }

    /// Returns the keys of a task, if the list has them.
    pub fn keys(&self, task: TaskId) -> Option<&Ranges>
        ensures { option_map (λ keys. keys.now) result ≡ keys_in self.now task }
    {
        keys_among(slice_of(&self.sets), task)
    }

    /// Returns these sets with the keys of one more task added. The only error is out of memory.
    pub fn with(&self, alloc: Global, task: TaskId, keys: Ranges) -> Result<Self, AllocError>
        ensures { IfOk result (λ sets. sets ≡ self.now ++ record { task = task; keys = keys } ∷ []) }
    {
        let mut sets = copies(alloc, slice_of(&self.sets))?;
        sets.push(KeySet { task, keys })?;
        Ok(KeySets {
            sets: Some(ArcSlice::from_vec(sets)?),
        })
    }

    /// Returns a copy that equals these sets. The only error is out of memory.
    pub fn copy(&self) -> Result<Self, AllocError>
        ensures { IfOk result (λ sets. sets ≡ self.now) }
    {
        Ok(KeySets {
            sets: shared(&self.sets)?,
        })
    }
}

// The sets as a slice.
fn slice_of(sets: &Option<ArcSlice<KeySet>>) -> &[KeySet]
    ensures { result.now ≡ unwrap_or (option_map arc_slice_items sets.now) [] }
{
    match sets {
        Some(sets) => sets.as_slice(),
        None => &[],
    }
}

// The same sets, in the same memory.
fn shared(sets: &Option<ArcSlice<KeySet>>) -> Result<Option<ArcSlice<KeySet>>, AllocError>
    ensures { IfOk result (λ copied. unwrap_or (option_map arc_slice_items copied) []
        ≡ unwrap_or (option_map arc_slice_items sets.now) []) }
{
    match sets {
        Some(sets) => Ok(Some(sets.clone()?)),
        None => Ok(None),
    }
}

fn keys_among(sets: &[KeySet], task: TaskId) -> Option<&Ranges>
    ensures { option_map (λ keys. keys.now) result ≡ keys_in sets.now task }
{
    sets.iter()
        .find(|set| set.task == task)
        .map(|set| &set.keys)
}

// The same sets in a vector, with room for one more.
fn copies(alloc: Global, sets: &[KeySet]) -> Result<Vec<KeySet>, AllocError>
    ensures { IfOk result (λ copied. copied.items ≡ sets.now) }
{
    let mut copied = Vec::with_capacity(alloc, sets.len().saturating_add(1))?;
    for set in sets {
        copied.push(KeySet {
            task: set.task,
            keys: set.keys.copy()?,
        })?;
    }
    Ok(copied)
}
