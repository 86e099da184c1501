//! Why a text is not read.
ghost use Rattle.std.specs.Prelude.{◌≡◌};

use std::alloc::AllocError;

/// What of a text is not PromQL.
#[derive(Clone, Copy, Debug, PartialEq, Eq, Drop)]
pub enum Unread {
    /// A character that no token has.
    Character,
    /// A text whose quotes are not closed.
    Unclosed,
    /// An escape that quotes do not have, or one that is no UTF-8.
    Escape,
    /// What begins as a number and is neither one nor a duration.
    Number,
    /// A value was expected.
    Operand,
    /// An operator or the end was expected.
    Operator,
    /// A label was expected.
    Label,
    /// One of `=`, `!=`, `=~` and `!~` was expected.
    Sign,
    /// A text in quotes was expected.
    Quoted,
    /// A comma, or what closes the list, was expected.
    Comma,
    /// A second name of one selector.
    TwoNames,
    /// A selector without a name and a matcher.
    Empty,
    /// A duration was expected.
    Duration,
    /// A range of what is no selector.
    Range,
    /// What closes a bracket was expected.
    Bracket,
    /// A bracket that is not closed.
    Open,
    /// Too many brackets in one another.
    Deep,
    /// A dashboard that is no JSON.
    Json,
}

/// Why a text is not read.
#[derive(Clone, Copy, Debug, PartialEq, Eq, Drop)]
pub enum PromqlFault {
    /// It is not PromQL.
    Unread {
        /// What is not.
        cause: Unread,
        /// The byte of the text where that shows.
        at: usize,
    },
    /// Out of memory.
    Memory,
}

impl PromqlFault {
    pub(crate) fn new(cause: Unread, at: usize) -> PromqlFault
        ensures { result ≡ PromqlFault.Unread cause at }
    {
        PromqlFault::Unread { cause, at }
    }
}

impl From<AllocError> for PromqlFault {
    ghost use Rattle.std.specs.Prelude.{◌≡◌};
    ghost use Rattle.metric_promql.specs.declared.fault.PromqlFault.TheVariants.{Memory};

    ghost from_gives = { λ _ fault. fault ≡ Memory };

    fn from(_refused: AllocError) -> PromqlFault {
        PromqlFault::Memory
    }
}
