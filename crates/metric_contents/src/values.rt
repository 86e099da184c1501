//! The values that a key declares.
ghost use Rattle.std.specs.Prelude.{◌≡◌, ◌≤◌, ◌<◌, None, Some, false, length, IfOk, IfSome, if◌then◌else◌, ◌==◌};
ghost use Rattle.metric_names.specs.Values.{value_of};
ghost use Rattle.metric_contents.specs.Places.{has_repeat, place};

use crate::numbering::Numbering;
use crate::shortcuts::Shortcuts;
use metric_base::{Copied, Few, Items, Shared};
use metric_names::{AttrValue, ValueRef};
use std::alloc::{AllocError, Global};
use std::marker::Model;

/// Distinct values, at most 1,000, numbered from 0 in declared order. They are shared, so that a copy takes no room. A
/// clause sees the list.
#[derive(Drop)]
pub struct Values {
    shared: Shared<Listed>,
}

// The values, and how each is found.
#[derive(Drop)]
pub(crate) struct Listed {
    list: Few<AttrValue, 1000>,
    numbering: Numbering,
    shortcuts: Shortcuts,
}

impl Model for Values {
    ghost use Rattle.std.specs.Prelude.{All, List};
    ghost use Rattle.metric_names.specs.declared.value.AttrValue.{AttrValue};
    ghost use Rattle.metric_contents.specs.Numbering.{IsNumbered};
    ghost use Rattle.metric_contents.specs.Shortcuts.{IsRight};

    ghost Value = { List AttrValue };

    ghost view = { λ v. v.shared.list };

    ghost invariant = { λ v. IsNumbered v.shared.numbering v.shared.list
        × All (IsRight v.shared.list) v.shared.shortcuts.slots.items };
}

impl Values {
    /// The values of a list, or nothing where a value stands twice. Fails only when out of memory.
    pub fn from_items(alloc: Global, values: Items<AttrValue>) -> Result<Option<Values>, AllocError>
        requires { length values ≤ 1000 }
        ensures { IfOk result
            (λ made. made ≡ (if has_repeat values then None else Some values)) }
    {
        let mut numbering = Numbering::new(alloc);
        if !numbering.number_all(alloc, values.as_slice())? {
            return Ok(None);
        }
        let shortcuts = Shortcuts::new(alloc, values.as_slice(), &numbering)?;
        let list = Few::from_items(values);
        let listed = Listed {
            list,
            numbering,
            shortcuts,
        };
        let shared = Shared::new(alloc, listed)?;
        Ok(Some(Values { shared }))
    }

    /// The values in declared order.
    pub fn as_slice(&self) -> &[AttrValue]
        ensures values { result.now ≡ self.now }
        ensures few { length self.now ≤ 1000 }
        ensures distinct { has_repeat self.now ≡ false }
    {
        self.shared.get().list.as_slice()
    }

    /// How many values there are.
    pub fn len(&self) -> usize
        ensures length { result ≡ length self.now }
        ensures few { length self.now ≤ 1000 }
    {
        self.shared.get().list.len()
    }

    /// Whether there is no value.
    pub fn is_empty(&self) -> bool
        ensures { result ≡ (length self.now == 0) }
    {
        self.as_slice().is_empty()
    }

    /// The number of a value: its place in the list. Found by hash, and allocates no memory.
    #[inline(always)]
    pub fn number_of(&self, value: ValueRef<'_>) -> Option<u16>
        ensures exact { result ≡ place self.now (value_of value.entry) }
        ensures within { IfSome result (λ number. number < length self.now) }
        ensures few { length self.now ≤ 1000 }
    {
        let listed = self.shared.get();
        if let ValueRef::Text(text) = value {
            if let Some(number) = listed.shortcuts.number_of(text) {
                return Some(number);
            }
        }
        listed.numbering.number_of(value)
    }
}

impl Copied for Values {
    fn copy(&self, alloc: Global) -> Result<Values, AllocError> {
        let shared = self.shared.copy(alloc)?;
        Ok(Values { shared })
    }
}
