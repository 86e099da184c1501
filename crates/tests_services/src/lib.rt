//! Tests of what a service runs: instruments behind locks, their seats and slots, and tickers.
//!
//! A module has what no clause says: that a seat's call makes its step, that what is given is called through its trait,
//! and that a call succeeds while memory is there. Most tests have what they are told written as one text, case by
//! case.
#![tactic(auto)]

#[cfg(test)]
mod agreement;
#[cfg(test)]
mod asserted;
#[cfg(test)]
mod audited;
#[cfg(test)]
mod clocks;
#[cfg(test)]
mod gates;
#[cfg(test)]
mod generated;
#[cfg(test)]
mod hosted;
#[cfg(test)]
mod keys;
#[cfg(test)]
mod lanes;
#[cfg(test)]
mod lives;
#[cfg(test)]
mod many;
#[cfg(test)]
mod page;
#[cfg(test)]
mod runs;
#[cfg(test)]
mod samples;
#[cfg(test)]
mod seats;
#[cfg(test)]
mod slots;
#[cfg(test)]
mod texts;
