//! The periodic reader: collects at each tick of a ticker, and hands what it collected on to an exporter (Metrics SDK,
//! periodic exporting metric reader). A [`Periodic`] shuts its exporter down at its end; an [`Outlet`] is a reader and
//! its exporter over all runs. [`collect_each`] collects of all instruments, so that a refused one hides no other.
//!
//! A [`Ticker`] gives a reader its moments: a [`ListTicker`] those of a list, a [`ClockTicker`] those of a clock, until
//! a [`StopFlag`] is set.
#![tactic(auto)]

mod clock_ticker;
mod collecting;
mod counts;
mod driving;
mod each;
mod ended;
mod exports;
mod laws;
mod list_ticker;
mod outlet;
mod outlets;
mod periodic;
mod reading;
mod showing;
mod shown;
mod stop_flag;
mod tick;
mod watch;

pub use clock_ticker::ClockTicker;
pub use collecting::collect_each;
pub use counts::RunningCounts;
pub use driving::make_turns;
pub use each::{Collection, RefusedInstrument};
pub use ended::{ReaderEnd, Uncollected, Unexported};
pub use laws::outlets_tell_once;
pub use list_ticker::ListTicker;
pub use outlet::{Outlet, OutletLeft};
pub use outlets::Outlets;
pub use periodic::{Periodic, PeriodicEnd};
pub use stop_flag::StopFlag;
pub use tick::{StopCause, Tick, Ticker};
pub use watch::now;
