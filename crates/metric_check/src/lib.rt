//! The check of certificates: whether a certificate shows that a catalogue and a config can overflow
//! neither a limit nor a number.
//!
//! It trusts nobody who made the certificate, and matches no name itself: it confirms the reasons, fills the
//! streams that they give, and compares what the certificate says of them.
#![tactic(auto)]

mod bounds;
mod certificates;
mod entries;
mod evidence;
mod fault;
mod laws;
mod limits;
mod numbers;
mod orders;
mod reasons;
mod selection;

pub use certificates::check;
pub use fault::{ClaimFault, ClaimPlace};
pub use laws::{faults_are_single, nothing_is_found_where_valid, valid_is_safe};
pub use metric_plan::{CheckFault, Plan};
