//! The instruments of certified plans as they stand behind locks, one by one.
//!
//! A thread that has taken a lock knows nothing of what other threads did, but the type of what it finds there: the
//! cell of one instrument of a certified plan, with its recordings within the budgets and the spare. A call compares
//! what it finds with what its caller was told before.
#![tactic(auto)]

mod safety;
mod seen;
mod slot;
mod sums;
mod told;

pub use safety::{certified_facts_are_safe, journal_reports_are_within};
pub use seen::Seen;
pub use slot::Slot;
pub use sums::{is_above, least_sum};
pub use told::Told;
