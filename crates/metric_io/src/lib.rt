//! Where the bytes of a run come from and where they go.
//!
//! A [`Source`] is read and a [`Sink`] is written, in the shapes of std's traits. Their contracts
//! see the bytes, where those are known, and count the failures of the device, so that a caller can
//! promise to blame it only where it failed. What a signal interrupts is no failure, and is tried
//! again. [`StdSource`] and [`StdSink`] wrap std's readers and writers. [`CutSource`] and
//! [`CutSink`] are of memory and fail where a test wants them to. [`read_all`] and [`write_all`]
//! move a whole text.
#![tactic(auto)]

mod counts;
mod cut;
mod devices;
mod standard;
mod whole;

pub use counts::ReadCounts;
pub use cut::{CutSink, CutSource};
pub use devices::{Broken, Sink, Source, SourceFault};
pub use standard::{StdSink, StdSource};
pub use whole::{MAX_BYTES, MAX_READS, ReadFault, read_all, write_all};
