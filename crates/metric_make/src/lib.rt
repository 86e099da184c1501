//! The making of certificates: what is safe gets one, and what is not the first part of safety that fails.
//!
//! Nothing that checks certificates stands on this crate.
#![tactic(auto)]

mod bounds;
mod fault;
pub mod laws;
mod making;
mod orders;
mod reasons;
mod streams;

pub use fault::MakeFault;
pub use making::make;
