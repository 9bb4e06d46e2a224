//! A list that contracts see as its elements.

ghost use Rattle.std.specs.Prelude.{◌≡◌, List, [], ◌∷◌, ◌++◌, length, IfOk, OnOk, OnErr};
ghost use Rattle.std.specs.Cmp.Lexicographic.{pointwise, lists_per, lists_equiv};

use crate::copies::Duplicate;
use std::alloc::{AllocError, Global};
use std::marker::Model;

/// A list of values that contracts see as its elements only, not where they are stored.
///
/// Two lists with the same elements are therefore equal values.
#[derive(Debug, Drop)]
pub struct Listed<T> {
    items: Vec<T>,
}

impl<T> Model for Listed<T> {
    ghost Value = { List T };

    ghost view = { λ l. l.items.items };
}

/// Lists are equal if their elements are equal, one by one.
impl<T: PartialEq> PartialEq for Listed<T> {
    ghost eq = { pointwise T.eq };

    ghost laws = { lists_per T.laws };

    fn eq(&self, other: &Self) -> bool {
        self.items == other.items
    }
}

impl<T: Eq> Eq for Listed<T> {
    ghost laws = { lists_equiv T.Eq.laws };
}

impl<T: Duplicate + Drop> Duplicate for Listed<T> {
    fn copy(&self) -> Result<Listed<T>, AllocError> {
        let mut items = Vec::with_capacity(*self.items.allocator(), self.items.len())?;
        for item in &self.items {
            items.push(item.copy()?)?;
        }
        Ok(Listed { items })
    }
}

impl<T> Listed<T> {
    /// Creates an empty list.
    pub fn new(alloc: Global) -> Self
        ensures { result ≡ [] }
    {
        Listed {
            items: Vec::new(alloc),
        }
    }

    /// Makes a list of a vector's elements, without moving them in memory.
    pub fn from_vec(items: Vec<T>) -> Self
        ensures { result ≡ items.items }
    {
        Listed { items }
    }

    /// Copies the elements of a slice into a new list. The only error is out of memory.
    pub fn from_slice(alloc: Global, items: &[T]) -> Result<Self, AllocError>
    where
        T: Copy,
        ensures { IfOk result (λ listed. listed ≡ items.now) }
    {
        Ok(Listed {
            items: Vec::from_slice(alloc, items)?,
        })
    }

    /// Returns a vector of the list's elements, without moving them in memory.
    pub fn into_vec(self) -> Vec<T>
        ensures { result.items ≡ self }
    {
        let Listed { items } = self;
        items
    }

    /// Returns the elements in order.
    pub fn as_slice(&self) -> &[T]
        ensures { result.now ≡ self.now }
    {
        self.items.as_slice()
    }
}

impl<T: Drop> Listed<T> {
    /// Adds an element at the end of the list.
    ///
    /// The only error is out of memory, which leaves the list unchanged.
    pub fn push(&mut self, item: T) -> Result<(), AllocError>
        ensures ok { OnOk result (self.new ≡ self.old ++ item ∷ []) }
        ensures err { OnErr result (self.new ≡ self.old) }
    {
        self.items.push(item)?;
        Ok(())
    }
}
