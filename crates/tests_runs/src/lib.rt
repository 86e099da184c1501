//! Tests of what calls of the crates of runs answer where no program shows it: aggregators, tables of series, cells, cores
//! over each book, audits, exports, and commands on devices that fail. What a program shows is in the cases of `tests/`.
//!
//! They have what no clause says: examples from outside, printed texts, and that a call succeeds while memory is there.
//! `agreement` puts scripts together from a seed, so each run of the tests has the same ones.
#![tactic(auto)]

#[cfg(test)]
mod aggregates;
#[cfg(test)]
mod agreement;
#[cfg(test)]
mod asserted;
#[cfg(test)]
mod audits;
#[cfg(test)]
mod cells;
#[cfg(test)]
mod commands;
#[cfg(test)]
mod dense;
#[cfg(test)]
mod dice;
#[cfg(test)]
mod exported;
#[cfg(test)]
mod facts;
#[cfg(test)]
mod plans;
#[cfg(test)]
mod refusing;
#[cfg(test)]
mod runs;
#[cfg(test)]
mod series;
#[cfg(test)]
mod threads;
