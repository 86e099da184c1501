//! Instrument names, units and attribute values.
#![tactic(auto)]

mod name;
mod printable;
mod unit;
mod value;

pub use name::{Name, NameFault};
pub use printable::first_other_than_printable;
pub use unit::{Unit, UnitFault};
pub use value::{AttrValue, ValueRef};
