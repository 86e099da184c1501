//! Tests of what calls of the lower crates answer where no program shows it: devices, copies, printed texts, what a host
//! is told. What a program shows is in the cases of `tests/`.
//!
//! A module has what no clause says: examples from outside, printed texts, and that a call succeeds while memory is there.
#![tactic(auto)]

#[cfg(test)]
mod asserted;
#[cfg(test)]
mod base;
#[cfg(test)]
mod calls;
#[cfg(test)]
mod certificates;
#[cfg(test)]
mod devices;
#[cfg(test)]
mod explained;
#[cfg(test)]
mod faults;
#[cfg(test)]
mod told;
#[cfg(test)]
mod values;
