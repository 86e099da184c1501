//! Reasons for a match or for none, which anybody can test.

use metric_base::Items;

/// Why a text matches a pattern, or why it does not.
#[derive(Debug, PartialEq, Drop)]
pub enum Reason {
    /// It matches: how many characters each `*` takes, in order.
    Takes(Items<u16>),
    /// It does not match: for each place of the text, from 0 to its length, the pattern's places that
    /// can be reached there, rising. The pattern's end is not among the last.
    Rows(Items<Items<u16>>),
}
