//! Whether what queries ask for can ever be in a page of Prometheus: a catalogue and a config say each name, each label
//! and each value that a page can have, and so which selectors can never match.
//!
//! A selector is judged of one stream after the other, of a stream key by key: which entries of each key its matchers
//! take ([`can_match`]). What a label that a server writes itself has is not known, so that such a matcher is never the
//! reason.
//!
//! Proved is what [`can_match`] answers of a stream, that this is whether some line of a page matches, and when
//! [`remarks_of`] has a reason. Which reason it has, and what else it tells, is tested.
#![tactic(auto)]

mod asked;
mod judging;
mod known;
mod laws;
mod matching;
mod points;
mod sample;
mod served;
mod test;

pub use asked::Asked;
pub use judging::{QueryRemark, Remarks, remarks_of};
pub use known::{Known, choices_of};
pub use laws::{keys_are_enough, sets_are_found, told_match_nothing};
pub use matching::can_match;
pub use sample::Sample;
pub use served::{Served, add_page, stream_named};
pub use test::{Test, takes, test_of};
