//! Words that every layer cites: a text, a list and a bounded list that contracts see as lists,
//! copies that are equal to their source, equality that means the same value, and rising numbers.
//!
//! `specs/Steps.antt` has the words for "the first fault in this order", `specs/Fronts.antt` those for "the
//! first element with which no whole list goes on".
#![tactic(auto)]

mod boundaries;
mod copied;
mod exact;
mod few;
mod items;
mod rising;
mod shared;
mod text;

pub use boundaries::Boundaries;
pub use copied::{Copied, copy_all};
pub use exact::{Exact, is_same};
pub use few::Few;
pub use items::Items;
pub use rising::is_rising;
pub use shared::Shared;
pub use text::Text;
