//! Lists of labels, of aggregations and of operators, and the matchers of selectors.
use crate::escapes::text_in_quotes;
use crate::fault::{PromqlFault, Unread};
use crate::lexer::begins_number;
use crate::scanner::{Before, Scanner};
use crate::selector::{LabelTest, NAME_LABEL, Selector};
use crate::token::{Keyword, Kind};
use crate::variable::has_variable;
use metric_base::Text;

impl Scanner<'_> {
    /// Takes `by (..)` or `without (..)`, where one stands here: whether it drops `le`.
    pub(crate) fn grouping(&mut self) -> Result<Option<bool>, PromqlFault> {
        let is_by = match self.kind(0) {
            Kind::Word(Keyword::By) => true,
            Kind::Word(Keyword::Without) => false,
            _ => return Ok(None),
        };
        self.skip(1);
        let names_le = self.take_labels()?;
        Ok(Some(is_by != names_le))
    }

    // Takes a list of labels in brackets: whether `le` is one, or a variable that may be.
    fn take_labels(&mut self) -> Result<bool, PromqlFault> {
        self.take_mark(b'(')?;
        let mut names_le = false;
        // Each step takes a label at least.
        for _label in 0..self.tokens.len() {
            if self.kind(0) == Kind::Mark(b')') {
                break;
            }
            let is_le = match self.label()? {
                Some(label) => label.as_str() == "le",
                None => {
                    self.leave_out();
                    true
                }
            };
            names_le = names_le || is_le;
            self.skip(1);
            self.take_comma_or(b')')?;
        }
        self.take_mark(b')')?;
        Ok(names_le)
    }

    // Takes a comma, unless the list is closed here.
    fn take_comma_or(&mut self, closing: u8) -> Result<(), PromqlFault> {
        match self.kind(0) {
            Kind::Mark(b',') => self.skip(1),
            Kind::Mark(mark) if mark == closing => {}
            _ => return Err(self.fault(Unread::Comma)),
        }
        Ok(())
    }

    /// Takes a binary operator, with what says how the series of both sides are put together.
    pub(crate) fn take_binary(&mut self) -> Result<(), PromqlFault> {
        self.skip(1);
        self.before = Before::Nothing;
        if self.kind(0) == Kind::Word(Keyword::Bool) {
            self.skip(1);
        }
        if self.kind(0) == Kind::Word(Keyword::Matching) {
            self.skip(1);
            let _names_le = self.take_labels()?;
            if self.kind(0) == Kind::Word(Keyword::Group) {
                self.skip(1);
                if self.kind(0) == Kind::Mark(b'(') {
                    let _names_le = self.take_labels()?;
                }
            }
        }
        Ok(())
    }

    /// Takes matchers up to the brace that closes them. Where a name stands before the braces, none stands in them.
    pub(crate) fn take_matchers(&mut self, selector: &mut Selector) -> Result<(), PromqlFault> {
        let is_named = !selector.tests.is_empty();
        // Each step takes a matcher at least.
        for _matcher in 0..self.tokens.len() {
            let is_alone = matches!(self.kind(1), Kind::Mark(b',' | b'}'));
            match self.kind(0) {
                Kind::Mark(b'}') => break,
                Kind::Variable if is_alone => self.leave_out(),
                Kind::Quoted if is_alone => self.put_name(selector, is_named)?,
                _ => self.take_matcher(selector, is_named)?,
            }
            self.skip(1);
            self.take_comma_or(b'}')?;
        }
        self.take_mark(b'}')
    }

    // Puts the name last that stands here in quotes.
    fn put_name(&mut self, selector: &mut Selector, is_named: bool) -> Result<(), PromqlFault> {
        if is_named {
            return Err(self.fault(Unread::TwoNames));
        }
        match self.text()? {
            Some(name) => selector.put_name(self.alloc, name)?,
            None => {
                selector.is_open = true;
                self.leave_out();
            }
        }
        Ok(())
    }

    // Takes a matcher up to its text, at which it then stands.
    fn take_matcher(&mut self, selector: &mut Selector, is_named: bool) -> Result<(), PromqlFault> {
        let at = self.place();
        let label = self.matched_label()?;
        self.skip(1);
        let Kind::Sign(sign) = self.kind(0) else {
            return Err(self.fault(Unread::Sign));
        };
        self.skip(1);
        let text = match self.kind(0) {
            Kind::Variable => None,
            Kind::Quoted => self.text()?,
            _ => return Err(self.fault(Unread::Quoted)),
        };
        match (label, text) {
            (Some(label), Some(text)) => {
                if label.as_str() == NAME_LABEL && is_named {
                    return Err(self.fault(Unread::TwoNames));
                }
                selector.tests.push(LabelTest {
                    at,
                    label,
                    sign,
                    text,
                })?;
            }
            _ => self.leave_out(),
        }
        Ok(())
    }

    // The label of a matcher. In braces `inf` and `nan` are no numbers.
    fn matched_label(&self) -> Result<Option<Text>, PromqlFault> {
        match self.kind(0) {
            Kind::Number if !begins_number(self.word()) => Ok(Some(self.text_of_word()?)),
            _ => self.label(),
        }
    }

    // The label that stands here; none where it is a variable.
    fn label(&self) -> Result<Option<Text>, PromqlFault> {
        match self.kind(0) {
            Kind::Word(_) if !self.word().contains(&b':') => Ok(Some(self.text_of_word()?)),
            Kind::Quoted => {
                let text = text_in_quotes(self.alloc, self.word(), self.place())?;
                Ok(Some(text))
            }
            Kind::Variable => Ok(None),
            _ => Err(self.fault(Unread::Label)),
        }
    }

    // The text in quotes that stands here; none where a variable stands in it, for another text.
    fn text(&self) -> Result<Option<Text>, PromqlFault> {
        let text = text_in_quotes(self.alloc, self.word(), self.place())?;
        if self.is_template && has_variable(text.as_str().as_bytes()) {
            return Ok(None);
        }
        Ok(Some(text))
    }
}
