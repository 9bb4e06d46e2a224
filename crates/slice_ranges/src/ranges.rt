//! A set of slice keys, as half-open ranges.

ghost use Rattle.std.specs.Prelude.{◌≡◌, ◌↔◌, ℕ, Bool, ◌-◌, ◌<◌, ◌≤◌, ◌&&◌, ◌||◌, not, nat_eq, List, [], None, false, IfOk, IfErr, OnOk, option_map, unwrap_or, if◌then◌else◌};
ghost use Rattle.std.specs.Arc.{arc_slice_items};
ghost use Rattle.std.specs.Bool.{IsTrue};
ghost use Rattle.std.specs.Cmp.{partial_equiv_from_equiv};
ghost use Rattle.std.specs.Cmp.Lexicographic.{pointwise};
ghost use Rattle.std.proofs.lemmas.Cmp.{nat_list_eq_equiv};
ghost use Rattle.machines.specs.Answers.{trouble_of};
ghost use Rattle.slice_ranges.specs.Sets.{pairs_cover, refusal_of, has, count, keys_where, IsRanges, IsSubset};
ghost use Rattle.slice_ranges.specs.Levels.{value_after, LevelsRise};
ghost use Rattle.slice_ranges.specs.internals.Sweeps.{apply};

use crate::error::RangesError;
use crate::key::{KEYS, SliceKey};
use crate::levels::boundaries_of_levels;
use crate::pairs::{boundaries_of_pairs, pairs_refusal};
use crate::subset::is_subset;
use crate::sweep::{Operation, sweep};
use machines::Trouble;
use std::alloc::{AllocError, Global};
use std::marker::Model;
use std::sync::ArcSlice;

/// A set of slice keys, stored as half-open ranges of keys in rising order.
///
/// Two sets are equal if they have the same keys. Contracts see a set as its boundaries: the keys
/// at which membership changes, in rising order, the first of which starts the first range. Copies
/// share the memory of their boundaries.
#[derive(Debug, Drop)]
pub struct Ranges {
    alloc: Global,
    // `None` for the empty set.
    boundaries: Option<ArcSlice<u64>>,
}

impl Model for Ranges {
    ghost use Rattle.std.specs.Prelude.{List, [], ℕ, option_map, unwrap_or};
    ghost use Rattle.std.specs.Arc.{arc_slice_items};
    ghost use Rattle.slice_ranges.specs.Sets.{IsRanges};

    ghost Value = { List ℕ };

    ghost view = { λ r. unwrap_or (option_map arc_slice_items r.boundaries) [] };

    ghost invariant = { λ r. IsRanges (unwrap_or (option_map arc_slice_items r.boundaries) []) };
}

/// Sets are equal if they have the same keys.
impl PartialEq for Ranges {
    ghost eq = { pointwise nat_eq };

    ghost laws = { partial_equiv_from_equiv nat_list_eq_equiv };

    fn eq(&self, other: &Self) -> bool
        ensures eq { result ≡ pointwise nat_eq self.now other.now }
        ensures same { IsTrue result ↔ (self.now ≡ other.now) }
    {
        self.boundaries() == other.boundaries()
    }
}

impl Eq for Ranges {
    ghost laws = { nat_list_eq_equiv };
}

impl Ranges {
    /// Creates the empty set.
    pub fn empty(alloc: Global) -> Self
        ensures { result ≡ [] }
    {
        Ranges {
            alloc,
            boundaries: None,
        }
    }

    /// Builds the set of the keys in `pairs`, each a start key and the end after its last key.
    ///
    /// No pair may start before the end of the pair before it. Pairs that touch are joined. An
    /// empty list gives the empty set.
    ///
    /// Errors, in this order: the first [`RangesError`] of the first pair that has one; out of
    /// memory.
    pub fn build(alloc: Global, pairs: &[(u64, u64)]) -> Result<Self, Trouble<RangesError>>
        ensures keys { IfOk result (λ r. (key : ℕ) → has r key ≡ pairs_cover pairs.now key) }
        ensures accepted { OnOk result (refusal_of pairs.now ≡ None) }
        ensures refused { IfErr result (λ trouble. trouble ≡ trouble_of (refusal_of pairs.now)) }
    {
        if let Some(why) = pairs_refusal(pairs) {
            return Err(Trouble::Refused(why));
        }
        Ok(Ranges::of(alloc, boundaries_of_pairs(alloc, pairs)?)?)
    }

    /// Builds the set of the keys at which `levels` is true.
    ///
    /// Each level is a key and the value from this key up to the key of the next level. The keys of
    /// the levels rise and are below [`KEYS`]. No key below the first level is in the set. The only
    /// error is out of memory.
    pub fn from_levels(alloc: Global, levels: &[(u64, bool)]) -> Result<Self, AllocError>
        requires { LevelsRise 0 levels.now KEYS }
        ensures { IfOk result
            (λ r. (key : ℕ) → key < KEYS → has r key ≡ value_after false levels.now key) }
    {
        Ranges::of(alloc, boundaries_of_levels(alloc, levels)?)
    }

    /// Whether the set has the key.
    pub fn contains(&self, key: SliceKey) -> bool
        ensures { result ≡ has self.now key }
    {
        slice_of(&self.boundaries).partition_point(|boundary| *boundary <= key.value()) % 2 == 1
    }

    /// Returns the keys at which membership changes, in rising order.
    ///
    /// The first boundary is the start of the first range, the second one its end, and so on.
    pub fn boundaries(&self) -> &[u64]
        ensures boundaries { result.now ≡ self.now }
        ensures ranges { IsRanges self.now }
    {
        slice_of(&self.boundaries)
    }

    /// Returns the number of keys in the set.
    pub fn width(&self) -> u64
        ensures { result ≡ count (has self.now) KEYS }
    {
        width_of(self.boundaries())
    }

    /// Whether every key of this set is in `other`. The call takes no memory.
    pub fn is_subset(&self, other: &Ranges) -> bool
        ensures { IsTrue result ↔ IsSubset self.now other.now }
    {
        is_subset(self.boundaries(), other.boundaries())
    }

    /// Returns the keys that are in both sets. The only error is out of memory.
    pub fn intersect(&self, other: &Ranges) -> Result<Self, AllocError>
        ensures { IfOk result
            (λ r. (key : ℕ) → has r key ≡ (has self.now key && has other.now key)) }
    {
        self.combine(other, Operation::Both)
    }

    /// Returns the keys that are in at least one of the sets. The only error is out of memory.
    pub fn union(&self, other: &Ranges) -> Result<Self, AllocError>
        ensures { IfOk result
            (λ r. (key : ℕ) → has r key ≡ (has self.now key || has other.now key)) }
    {
        self.combine(other, Operation::Either)
    }

    /// Returns the keys of this set that are not in `other`. The only error is out of memory.
    pub fn without(&self, other: &Ranges) -> Result<Self, AllocError>
        ensures { IfOk result
            (λ r. (key : ℕ) → has r key ≡ (has self.now key && not (has other.now key))) }
    {
        self.combine(other, Operation::Without)
    }

    fn combine(&self, other: &Ranges, operation: Operation) -> Result<Self, AllocError>
        ensures { IfOk result
            (λ r. (key : ℕ) → has r key ≡ apply operation (has self.now key) (has other.now key)) }
    {
        let boundaries = sweep(self.alloc, self.boundaries(), other.boundaries(), operation)?;
        Ranges::of(self.alloc, boundaries)
    }

    /// Returns a copy that equals this set and shares its memory. The only error is out of memory.
    pub fn copy(&self) -> Result<Self, AllocError>
        ensures { IfOk result (λ r. r ≡ self.now) }
    {
        Ok(Ranges {
            alloc: self.alloc,
            boundaries: shared(&self.boundaries)?,
        })
    }

    // The set with these boundaries.
    fn of(alloc: Global, boundaries: Vec<u64>) -> Result<Self, AllocError>
        requires { IsRanges boundaries.items }
        ensures { IfOk result (λ r. r ≡ boundaries.items) }
    {
        if boundaries.is_empty() {
            return Ok(Ranges::empty(alloc));
        }
        Ok(Ranges {
            alloc,
            boundaries: Some(ArcSlice::from_vec(boundaries)?),
        })
    }

    /// States that a set is determined by the test that its keys pass.
    ///
    /// A set is the set of the keys that pass a test if it has exactly these keys, and the set of
    /// the keys that pass a test has exactly these keys.
    pub fn keys_where_law(set: &Ranges)
        ensures is { (member : ℕ → Bool) → ((key : ℕ) → key < KEYS → has set.now key ≡ member key)
            → set.now ≡ keys_where member }
        ensures has { (member : ℕ → Bool) (key : ℕ) → key < KEYS
            → has (keys_where member) key ≡ member key }
    {
        let _ = &set.boundaries;
        keys_where_law();
    }

    /// States that two sets with the same keys are equal.
    pub fn same_keys_law(first: &Ranges, second: &Ranges)
        ensures { ((key : ℕ) → key < KEYS → has first.now key ≡ has second.now key)
            → first.now ≡ second.now }
    {
        let _ = &first.boundaries;
        let _ = &second.boundaries;
    }
}

/// States that the set of the keys that pass a test has exactly the keys that pass it.
pub fn keys_where_law()
    ensures { (member : ℕ → Bool) (key : ℕ) → key < KEYS → has (keys_where member) key ≡ member key }
{}

// The boundaries as a slice.
fn slice_of(boundaries: &Option<ArcSlice<u64>>) -> &[u64]
    ensures { result.now ≡ unwrap_or (option_map arc_slice_items boundaries.now) [] }
{
    match boundaries {
        Some(boundaries) => boundaries.as_slice(),
        None => &[],
    }
}

// The same boundaries, in the same memory.
fn shared(boundaries: &Option<ArcSlice<u64>>) -> Result<Option<ArcSlice<u64>>, AllocError>
    ensures { IfOk result (λ copied. unwrap_or (option_map arc_slice_items copied) [] ≡ unwrap_or (option_map arc_slice_items boundaries.now) []) }
{
    match boundaries {
        Some(boundaries) => Ok(Some(boundaries.clone()?)),
        None => Ok(None),
    }
}

// The number of keys inside the boundaries.
fn width_of(boundaries: &[u64]) -> u64
    requires { IsRanges boundaries.now }
    ensures { result ≡ count (has boundaries.now) KEYS }
{
    let mut total = 0;
    let mut last = 0;
    let mut inside = false;
    for boundary in boundaries {
        total += width_between(inside, last, *boundary);
        inside = !inside;
        last = *boundary;
    }
    total
}

fn width_between(inside: bool, start: u64, end: u64) -> u64
    requires { start ≤ end }
    ensures { result ≡ (if inside then end - start else 0) }
{
    if inside { end - start } else { 0 }
}
