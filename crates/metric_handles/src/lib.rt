//! Instruments and seats by name, and attributes that are bound once.
//!
//! A number in place of a name is wrong without a word once a file is put in another order. Here names, kinds and keys
//! are compared with the plan's catalogue once, at the start, and a handle is kept: [`counter`], [`up_down_counter`],
//! [`histogram`] and [`gauge`] give one, or the first [`HandleFault`]; [`expected`] compares values and the unit, too.
//! What a call by a handle does is what the seat's call at the handle's number does, of a recorder's seat or of another
//! [`Seat`], as a [`Counted`] one. Keys that were compared are not refused later: that is a law,
//! [`compared_keys_are_recorded`]. `specs/Named.antt` says which instrument a name is of, `specs/Meant.antt` when it is
//! what a program was made for, `specs/Calls.antt` what a call does, `specs/KeysGiven.antt` what the law says.
#![tactic(auto)]

mod asking;
mod at;
mod bound;
mod bound_list;
mod budget;
mod counted;
mod during;
mod fault;
mod found;
mod handle;
mod jobs;
mod kinds;
mod laws;
mod meant;
mod named;
mod recorded;
mod refused;
mod replaced;
mod rooms;
mod seat;
mod seats;
mod spares;
mod time_unit;
mod timed;
mod timer;

pub use asking::Asking;
pub use at::{AnySeat, At};
pub use bound::{Bound, BoundCounter, BoundGauge, BoundHistogram, BoundUpDownCounter};
pub use bound_list::{BoundList, ListFault};
pub use budget::left;
pub use counted::Counted;
pub use fault::{HandleFault, NoHandle};
pub use found::value_of;
pub use handle::{Counter, Gauge, Handle, Histogram, UpDownCounter};
pub use jobs::Need;
pub use kinds::{Adds, IsCounter, IsGauge, IsHistogram, IsUpDownCounter, OfKind, Records};
pub use laws::{compared_keys_are_bound, compared_keys_are_recorded};
pub use meant::expected;
pub use named::{counter, gauge, histogram, up_down_counter};
pub use recorded::Recorded;
pub use refused::Refused;
pub use replaced::Replaced;
pub use seat::Seat;
pub use seats::{take_reader, take_recorder};
pub use time_unit::TimeUnit;
pub use timed::TimedFault;
pub use timer::{Timer, TimerFault};
