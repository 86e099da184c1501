//! Certificates: what shows that a catalogue and a config can overflow neither a limit nor a number.
#![tactic(auto)]

mod bound;
mod certificate;
mod claims;
mod criteria;
mod decimals;
mod entry;
mod fault;
mod fields;
mod lists;
mod numbers;
mod order;
mod printing;
mod reason;
mod stream;
mod tables;

pub use bound::InstrumentBound;
pub use certificate::Certificate;
pub use claims::Claims;
pub use criteria::pattern_for;
pub use fault::{CertFault, CertList, CertPlace};
pub use order::ReaderOrder;
pub use reason::{Criterion, Evidence, SelectionReason};
pub use stream::{By, StreamSets};
