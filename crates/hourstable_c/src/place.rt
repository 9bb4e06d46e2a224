//! A value in its own block.

ghost use Rattle.std.specs.Prelude.{◌≡◌, Option, Some, None, false, is_none, option_map, true};
ghost use Rattle.std.specs.Borrow.{sem};
ghost use Rattle.hourstable_c.specs.declared.held.Held.{Held};
ghost use Rattle.hourstable_c.specs.Addresses.{held_coded, stands_at};

use crate::held::Held;
use crate::parts::Parts;
use std::alloc::Global;
use std::marker::Model;
use std::ptr::null_mut;

/// The address of a value, with the right to use it and to free its block; or null, where no value
/// is.
#[repr(C)]
pub struct Place {
    at: *mut u8,
    alloc: Global,
    pub ghost value: { Option Held } by { held_coded },
}

impl Model for Place {
    ghost also_owns = { λ h. stands_at h.alloc h.at h.value };
}

// SAFETY: what a place holds shares nothing with other threads, and its block can be freed on any
// thread.
unsafe impl Send for Place {}

impl Place {
    ghost use Rattle.hourstable_c.specs.Lending.{LendsValue, LendsIfThere, Stays};

    /// Creates a place at which no value is.
    pub fn nowhere(alloc: Global) -> Place
        ensures { result.value ≡ None }
    {
        Place {
            at: null_mut(),
            alloc,
        }
    }

    /// Creates the place of a boxed value.
    pub fn of_box(value: Box<Held>) -> Place
        ensures { result.value ≡ Some value.value }
    {
        Place::of_parts(Parts::of(value))
    }

    /// Returns whether there is no value.
    pub fn is_nowhere(&mut self) -> bool
        ensures { (result ≡ is_none self.old.value) × (self.new ≡ self.old) }
    {
        self.at.is_null()
    }

    /// Lends the value, which the borrower may change.
    pub fn lend(&mut self) -> &mut Held
        requires { is_none self.old.value ≡ false }
        ensures* writes_back { sem 𝓛 (LendsValue self.entry result) }
        ensures value { self.old.value ≡ Some result.now }
    {
        unsafe { &mut *(self.at as *mut Held) }
    }

    /// Lends the value, if there is one.
    pub fn held(&mut self) -> Option<&mut Held>
        ensures* writes_back { sem 𝓛 (LendsIfThere self.entry result) }
        ensures value { self.old.value ≡ option_map (λ held. held.now) result }
    {
        if self.is_nowhere() {
            None
        } else {
            Some(self.lend())
        }
    }

    /// Lends the value for reading, if there is one.
    pub fn read(&mut self) -> Option<&Held>
        ensures* stays { sem 𝓛 (Stays self.entry) }
        ensures value { self.old.value ≡ option_map (λ held. held.now) result }
    {
        match self.held() {
            Some(held) => Some(&*held),
            None => None,
        }
    }

    /// Lets go of a place at which no value is.
    pub fn vanish(self)
        requires { is_none self.value ≡ true }
    {
        let Place { at: _, alloc: _ } = self;
    }

    /// Returns the value in its box.
    pub fn into_box(self) -> Box<Held>
        requires { is_none self.value ≡ false }
        ensures { self.value ≡ Some result.value }
    {
        self.into_parts().into_box()
    }

    fn of_parts(parts: Parts<Held, Global>) -> Place
        ensures { result.value ≡ Some parts.value }
    {
        let Parts { ptr, alloc } = parts;
        Place {
            at: ptr as *mut u8,
            alloc,
        }
    }

    fn into_parts(self) -> Parts<Held, Global>
        requires { is_none self.value ≡ false }
        ensures { self.value ≡ Some result.value }
    {
        let Place { at, alloc } = self;
        Parts {
            ptr: at as *mut Held,
            alloc,
        }
    }
}
