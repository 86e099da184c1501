//! What a host holds: a pointer to an instrument, a recorder or a reader on the heap, or null.
ghost use Rattle.std.specs.Prelude.{◌≡◌};
ghost use Rattle.std.specs.declared.option.Option.{Option};
ghost use Rattle.std.specs.declared.option.Option.TheVariants.{None, Some};
ghost use Rattle.std.specs.Option.{MatchOption, is_some, option_map};
ghost use Rattle.wormweekly_c.specs.Held.{held, held_coded};
ghost use Rattle.wormweekly_c.specs.declared.held.Held.{Held};

use crate::held::Held;
use crate::parts::Parts;
use std::alloc::Global;
use std::marker::Model;
use std::mem::replace;
use std::ptr::null_mut;

/// What a host holds of a run on the heap, or nothing where `at` is null.
#[repr(C)]
pub struct Handle {
    at: *mut u8,
    alloc: Global,
    pub ghost value: { Option Held } by { held_coded },
}

impl Model for Handle {
    ghost also_owns = { λ h. held h.alloc h.at h.value };
}

impl Handle {
    pub(crate) fn empty(alloc: Global) -> Handle
        ensures { result.value ≡ None }
    {
        Handle {
            at: null_mut(),
            alloc,
        }
    }

    pub(crate) fn of(held: Box<Held>) -> Handle
        ensures { result.value ≡ Some held.value }
    {
        Handle::of_parts(Parts::of(held))
    }

    /// Takes out what the handle holds, which is null then.
    pub(crate) fn take(&mut self, alloc: Global) -> Option<Box<Held>>
        ensures held { option_map (λ held. held.value) result ≡ self.old.value }
        ensures null { self.new.value ≡ None }
    {
        replace(self, Handle::empty(alloc)).into_box()
    }

    /// Puts back what was taken out.
    pub(crate) fn put(&mut self, alloc: Global, held: Option<Box<Held>>)
        ensures { self.new.value ≡ option_map (λ held. held.value) held }
    {
        *self = match held {
            None => Handle::empty(alloc),
            Some(held) => Handle::of(held),
        };
    }

    /// Whether the handle holds something. It holds the same afterwards.
    pub(crate) fn is_open(&mut self, alloc: Global) -> bool
        ensures answer { result ≡ is_some self.old.value }
        ensures kept { self.new.value ≡ self.old.value }
    {
        let held = self.take(alloc);
        let is_open = held.is_some();
        self.put(alloc, held);
        is_open
    }

    fn into_box(self) -> Option<Box<Held>>
        ensures { option_map (λ held. held.value) result ≡ self.value }
    {
        match self.into_parts() {
            None => None,
            Some(parts) => Some(parts.into_box()),
        }
    }

    fn of_parts(parts: Parts<Held, Global>) -> Handle
        ensures { result.value ≡ Some parts.value }
    {
        let Parts { ptr, alloc } = parts;
        Handle {
            at: ptr.cast::<u8>(),
            alloc,
        }
    }

    fn into_parts(self) -> Option<Parts<Held, Global>>
        ensures { MatchOption result (self.value ≡ None) (λ parts. self.value ≡ Some parts.value) }
    {
        let Handle { at, alloc } = self;
        if at.is_null() {
            None
        } else {
            Some(Parts {
                ptr: at.cast::<Held>(),
                alloc,
            })
        }
    }
}

impl Drop for Handle {
    fn drop(self) {
        match self.into_parts() {
            None => {}
            Some(parts) => drop(parts.into_box()),
        }
    }
}

unsafe impl Send for Handle {}
