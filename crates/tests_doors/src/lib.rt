//! Tests of the doors of a service: instruments and seats by name, exports that fail, and a life of many runs.
//!
//! A module has what no clause says: that a call succeeds while memory is there, what it prints, and what stands behind
//! a lock. Most tests are one loop over a table of cases, of which each writes a page that is compared as a whole.
#![tactic(auto)]

#[cfg(test)]
mod asks;
#[cfg(test)]
mod asserted;
#[cfg(test)]
mod audits;
#[cfg(test)]
mod calls;
#[cfg(test)]
mod ends;
#[cfg(test)]
mod failing;
#[cfg(test)]
mod faults;
#[cfg(test)]
mod handles;
#[cfg(test)]
mod life;
#[cfg(test)]
mod one_recorder;
#[cfg(test)]
mod outlets;
#[cfg(test)]
mod page;
#[cfg(test)]
mod periods;
#[cfg(test)]
mod proved_caller;
#[cfg(test)]
mod services;
#[cfg(test)]
mod strangers;
#[cfg(test)]
mod works;
