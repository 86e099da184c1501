//! The numbers of values, found by hash.
ghost use Rattle.std.specs.Prelude.{◌≡◌, ◌≤◌, [], Ok, Some, true, not, length, IfOk, OnOk, if◌then◌else◌};
ghost use Rattle.metric_names.specs.Values.{value_of};
ghost use Rattle.metric_contents.specs.Places.{has_repeat};
ghost use Rattle.metric_contents.specs.Numbering.{Numbers, PutsNumber, number_in};

use metric_names::{AttrValue, ValueRef};
use std::alloc::{AllocError, Global};
use std::collections::HashMap;

// Gives values their numbers: texts and whole numbers by hash, flags by a look.
pub(crate) struct Numbering {
    texts: HashMap<String, u16>,
    wholes: HashMap<i64, u16>,
    yes: Option<u16>,
    no: Option<u16>,
}

impl Drop for Numbering {
    // A call of its own, so that what owns a numbering does not carry the steps of dropping two maps.
    fn drop(self) {
        let Numbering {
            texts: _texts,
            wholes: _wholes,
            yes: _,
            no: _,
        } = self;
    }
}

impl Numbering {
    // The numbering of no value. Allocates no memory.
    pub(crate) fn new(alloc: Global) -> Numbering
        ensures { Numbers result [] }
    {
        Numbering {
            texts: HashMap::new(alloc),
            wholes: HashMap::new(alloc),
            yes: None,
            no: None,
        }
    }

    // The number of a value.
    #[inline(never)]
    pub(crate) fn number_of(&self, value: ValueRef<'_>) -> Option<u16>
        ensures { result ≡ number_in self.now (value_of value.entry) }
    {
        match value {
            ValueRef::Text(text) => self.texts.get(text).copied(),
            ValueRef::Whole(number) => self.wholes.get(&number).copied(),
            ValueRef::Flag(true) => self.yes,
            ValueRef::Flag(false) => self.no,
        }
    }

    // Gives a value this number, and answers the number that it had.
    fn insert(
        &mut self,
        alloc: Global,
        value: &AttrValue,
        number: u16,
    ) -> Result<Option<u16>, AllocError>
        ensures old { IfOk result (λ old. old ≡ number_in self.old value.now) }
        ensures new { OnOk result (PutsNumber self.old self.new value.now number) }
    {
        match value {
            AttrValue::Text(text) => {
                let text = String::from_str(alloc, text.as_str())?;
                Ok(self.texts.insert(text, number)?)
            }
            AttrValue::Whole(whole) => Ok(self.wholes.insert(*whole, number)?),
            AttrValue::Flag(true) => Ok(self.yes.replace(number)),
            AttrValue::Flag(false) => Ok(self.no.replace(number)),
        }
    }

    // Gives each value its place in the list, and answers whether no value stands twice.
    pub(crate) fn number_all(
        &mut self,
        alloc: Global,
        values: &[AttrValue],
    ) -> Result<bool, AllocError>
        requires empty { Numbers self.old [] }
        requires few { length values.now ≤ 1000 }
        ensures distinct { IfOk result (λ distinct. distinct ≡ not (has_repeat values.now)) }
        ensures numbers { result ≡ Ok true → Numbers self.new values.now }
    {
        for (place, value) in values.iter().enumerate() {
            let earlier = self.insert(alloc, value, place as u16)?;
            if earlier.is_some() {
                return Ok(false);
            }
        }
        Ok(true)
    }
}
