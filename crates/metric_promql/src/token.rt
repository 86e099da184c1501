//! The tokens of a text, and the words that PromQL itself has, in any case.
use crate::selector::Sign;

/// What a word is in PromQL.
#[derive(Clone, Copy, Debug, PartialEq, Eq)]
pub(crate) enum Keyword {
    /// None of its words: a name.
    None,
    /// An aggregation, as `sum`.
    Aggregation,
    /// `and`, `or`, `unless` or `atan2`.
    Operator,
    /// `bool`.
    Bool,
    /// `on` or `ignoring`.
    Matching,
    /// `group_left` or `group_right`.
    Group,
    /// `by`.
    By,
    /// `without`.
    Without,
    /// `offset`.
    Offset,
    /// `start` or `end`.
    Edge,
    /// `inf` or `nan`.
    Number,
}

static KEYWORDS: [(&str, Keyword); 11] = [
    (
        "sum avg count min max group stddev stdvar topk bottomk count_values quantile",
        Keyword::Aggregation,
    ),
    ("limitk limit_ratio", Keyword::Aggregation),
    ("and or unless atan2", Keyword::Operator),
    ("bool", Keyword::Bool),
    ("on ignoring", Keyword::Matching),
    ("group_left group_right", Keyword::Group),
    ("by", Keyword::By),
    ("without", Keyword::Without),
    ("offset", Keyword::Offset),
    ("start end", Keyword::Edge),
    ("inf nan", Keyword::Number),
];

/// What a word is.
pub(crate) fn keyword_of(word: &[u8]) -> Keyword {
    for row in KEYWORDS.iter() {
        if is_among(row.0, word) {
            return row.1;
        }
    }
    Keyword::None
}

fn is_among(words: &str, word: &[u8]) -> bool {
    words
        .split(' ')
        .any(|one| one.as_bytes().eq_ignore_ascii_case(word))
}

/// What a token is.
#[derive(Clone, Copy, Debug, PartialEq, Eq)]
pub(crate) enum Kind {
    /// A name, or a word of PromQL.
    Word(Keyword),
    /// A number.
    Number,
    /// A duration.
    Duration,
    /// A text in quotes.
    Quoted,
    /// What a variable stands in.
    Variable,
    /// What a matcher tests by; `!=` compares too.
    Sign(Sign),
    /// `+` or `-`.
    Plus,
    /// Any other operator.
    Operator,
    /// Any other mark.
    Mark(u8),
    /// The end of the text.
    End,
}

/// A token, and where it stands.
#[derive(Clone, Copy, Debug)]
pub(crate) struct Token {
    pub kind: Kind,
    pub start: usize,
    pub end: usize,
}
