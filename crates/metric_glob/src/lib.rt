//! Patterns of instrument names, and reasons why a name matches or does not.
//!
//! A name matches where it divides into pieces, one for each pattern character. A reason shows one or
//! the other, and can be tested without a search: `Pattern::confirms` trusts nobody who made it.
#![tactic(auto)]

mod characters;
mod confirming;
mod matching;
mod pattern;
mod reason;
mod walk;
mod why;

pub use pattern::{Pattern, PatternFault};
pub use reason::Reason;
