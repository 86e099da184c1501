//! What a text in PromQL asks for.
ghost use Rattle.std.specs.Prelude.{◌≡◌, find};
ghost use Rattle.std.specs.Option.{option_copied, option_map};
ghost use Rattle.metric_promql.specs.Selectors.{sign_text};

use metric_base::{Items, Text};
use std::alloc::{AllocError, Global};

/// The label under which the name of a series is matched.
pub const NAME_LABEL: &str = "__name__";

/// How a matcher tests the text of a label.
#[derive(Clone, Copy, Debug, PartialEq, Eq, Drop)]
pub enum Sign {
    /// `=`: it is this text.
    Equal,
    /// `!=`: it is another one.
    NotEqual,
    /// `=~`: the expression matches all of it.
    Like,
    /// `!~`: the expression does not.
    Unlike,
}

impl Sign {
    /// How it is written.
    pub fn as_str(self) -> &'static str
        ensures { result.now ≡ sign_text self }
    {
        match self {
            Sign::Equal => "=",
            Sign::NotEqual => "!=",
            Sign::Like => "=~",
            Sign::Unlike => "!~",
        }
    }
}

/// A matcher of a selector.
#[derive(Debug, Drop)]
pub struct LabelTest {
    /// The byte of the text at which it begins.
    pub at: usize,
    /// The label.
    pub label: Text,
    /// How its text is tested.
    pub sign: Sign,
    /// The text or the expression that it is tested by.
    pub text: Text,
}

impl LabelTest {
    ghost use Rattle.metric_promql.specs.Selectors.{is_name};

    // Whether it says which text the name is.
    fn is_name(&self) -> bool
        ensures { result ≡ is_name self.now }
    {
        matches!(self.sign, Sign::Equal) && self.label.as_str() == NAME_LABEL
    }
}

/// A selector: which series a text asks for.
#[derive(Debug, Drop)]
pub struct Selector {
    /// The byte of the text at which it begins.
    pub at: usize,
    /// The matchers, in order: of the name first, where it stands before the braces.
    pub tests: Items<LabelTest>,
    /// Whether a variable stands in its name, so that it may be any.
    pub is_open: bool,
    /// The function that asks for a counter, and whose argument it is, without an operator between.
    pub rate: Option<&'static str>,
    /// Whether `histogram_quantile` is over it.
    pub is_quantile: bool,
    /// Whether the aggregations between these two, if any, keep the label `le`.
    pub keeps_le: bool,
}

impl Selector {
    ghost use Rattle.metric_promql.specs.Selectors.{is_name, name_of};

    /// The name of the series, where it is one text.
    pub fn name(&self) -> Option<&str>
        ensures { option_map (λ text. text.now) result ≡ name_of self.now }
    {
        match self.name_test() {
            Some(test) => Some(test.text.as_str()),
            None => None,
        }
    }

    // The first matcher that says which text the name is.
    fn name_test(&self) -> Option<&LabelTest>
        ensures { option_copied result ≡ find is_name self.now.tests }
    {
        self.tests.as_slice().iter().find(|test| test.is_name())
    }

    /// Puts its name last.
    pub(crate) fn put_name(&mut self, alloc: Global, name: Text) -> Result<(), AllocError> {
        self.tests.push(LabelTest {
            at: self.at,
            label: Text::new(alloc, NAME_LABEL)?,
            sign: Sign::Equal,
            text: name,
        })
    }
}

/// What a text asks for.
#[derive(Drop)]
pub struct Scan {
    /// Its selectors, in order.
    pub selectors: Vec<Selector>,
    /// How many names, matchers and labels are left out, since a variable stands in them.
    pub left_out: usize,
}
