//! The selectors of a text, found from token to token.
use crate::bytes::{between, blanks_length};
use crate::fault::{PromqlFault, Unread};
use crate::lexer::tokens_of;
use crate::selector::{Scan, Selector};
use crate::token::{Keyword, Kind, Token};
use metric_base::{Items, Text};
use std::alloc::{AllocError, Global};

// So many brackets may be open in one another: what closes one looks at all selectors in it.
const MOST_FRAMES: usize = 100;

// The functions that ask for a counter.
static RATES: [&str; 3] = ["rate", "irate", "increase"];

/// What a text asks for, or why it is not PromQL. In a template a variable may stand in a text in quotes, as in
/// `route="$route"`; the matcher is then left out and counted.
pub fn scan(alloc: Global, text: &str, is_template: bool) -> Result<Scan, PromqlFault> {
    let bytes = text.as_bytes();
    let mut found = Scan {
        selectors: Vec::new(alloc),
        left_out: 0,
    };
    // A dashboard's own function, whose argument is no PromQL.
    let first = between(bytes, blanks_length(bytes), bytes.len());
    if is_template && first.starts_with(b"metrics(") {
        found.left_out = 1;
        return Ok(found);
    }
    let tokens = tokens_of(alloc, bytes)?;
    let mut scanner = Scanner {
        alloc,
        text: bytes,
        tokens: tokens.as_slice(),
        at: 0,
        is_template,
        found,
        frames: Vec::new(alloc),
        before: Before::Nothing,
    };
    scanner.take_all()?;
    let Scanner { found, .. } = scanner;
    Ok(found)
}

/// What stands before the next token.
#[derive(Clone, Copy, Debug, PartialEq, Eq)]
pub(crate) enum Before {
    /// Nothing that is a value.
    Nothing,
    /// A number or a text.
    Scalar,
    /// A selector.
    Selector,
    /// Any other value.
    Value,
}

// What a bracket is of.
#[derive(Clone, Copy, Debug, PartialEq, Eq)]
enum Bracket {
    Group,
    // A function; one that asks for a counter; `histogram_quantile`; `label_values` of dashboards.
    Call,
    Rate(&'static str),
    Quantile,
    LabelValues,
    // An aggregation, and whether it drops `le`, where its labels stand before.
    Aggregation(Option<bool>),
}

// A bracket that is open: where it stands, the number of the token behind it, how many selectors stand before it, and
// how many commas it has so far.
#[derive(Clone, Copy, Debug, Drop)]
struct Frame {
    bracket: Bracket,
    at: usize,
    inside: usize,
    first: usize,
    commas: usize,
}

/// What is found so far.
#[derive(Drop)]
pub(crate) struct Scanner<'t> {
    pub alloc: Global,
    pub text: &'t [u8],
    pub tokens: &'t [Token],
    /// The number of the next token.
    pub at: usize,
    /// Whether variables stand for texts in quotes.
    pub is_template: bool,
    pub found: Scan,
    frames: Vec<Frame>,
    pub before: Before,
}

impl Scanner<'_> {
    /// What the token is that stands so many behind the next.
    pub(crate) fn kind(&self, behind: usize) -> Kind {
        match self.tokens.get(self.at.saturating_add(behind)) {
            Some(token) => token.kind,
            None => Kind::End,
        }
    }

    /// The byte at which the next token stands.
    pub(crate) fn place(&self) -> usize {
        match self.tokens.get(self.at) {
            Some(token) => token.start,
            None => self.text.len(),
        }
    }

    /// The bytes of the next token.
    pub(crate) fn word(&self) -> &[u8] {
        match self.tokens.get(self.at) {
            Some(token) => between(self.text, token.start, token.end),
            None => &[],
        }
    }

    /// Goes past the next tokens.
    pub(crate) fn skip(&mut self, count: usize) {
        self.at = self.at.saturating_add(count);
    }

    /// A fault at the next token.
    pub(crate) fn fault(&self, cause: Unread) -> PromqlFault {
        PromqlFault::new(cause, self.place())
    }

    /// Takes a mark, which is the next token.
    pub(crate) fn take_mark(&mut self, mark: u8) -> Result<(), PromqlFault> {
        if self.kind(0) != Kind::Mark(mark) {
            return Err(self.fault(Unread::Bracket));
        }
        self.skip(1);
        Ok(())
    }

    /// Counts what is not judged, since a variable stands there.
    pub(crate) fn leave_out(&mut self) {
        self.found.left_out = self.found.left_out.saturating_add(1);
    }

    // Takes so many tokens, which are a value or not.
    fn pass(&mut self, count: usize, before: Before) -> Result<(), PromqlFault> {
        self.skip(count);
        self.before = before;
        Ok(())
    }

    fn take_all(&mut self) -> Result<(), PromqlFault> {
        // Each step takes a token at least.
        for _step in 0..self.tokens.len() {
            if self.at >= self.tokens.len() {
                break;
            }
            if self.before == Before::Nothing {
                self.take_operand()?;
            } else {
                self.take_operator()?;
            }
        }
        if self.before == Before::Nothing {
            return Err(self.fault(Unread::Operand));
        }
        match self.frames.last() {
            Some(frame) => Err(PromqlFault::new(Unread::Open, frame.at)),
            None => Ok(()),
        }
    }

    // Takes what begins a value.
    fn take_operand(&mut self) -> Result<(), PromqlFault> {
        match (self.kind(0), self.kind(1)) {
            (Kind::Plus, _) => self.pass(1, Before::Nothing),
            (Kind::Number | Kind::Duration | Kind::Quoted, _) => self.pass(1, Before::Scalar),
            (Kind::Variable, Kind::Mark(b'(')) => self.open(Bracket::Call, 1),
            (Kind::Variable, next) if next != Kind::Mark(b'{') => {
                self.leave_out();
                self.pass(1, Before::Selector)
            }
            (Kind::Variable | Kind::Mark(b'{'), _) => self.take_selector(),
            (Kind::Mark(b'('), _) => self.open(Bracket::Group, 0),
            (Kind::Mark(b')'), _) if self.is_call_of_nothing() => self.close(),
            (Kind::Word(keyword), next) => self.take_word(keyword, next),
            _ => Err(self.fault(Unread::Operand)),
        }
    }

    // Takes a word that begins a value, with what stands behind it.
    fn take_word(&mut self, keyword: Keyword, next: Kind) -> Result<(), PromqlFault> {
        let is_call = next == Kind::Mark(b'(');
        let is_grouped = matches!(next, Kind::Word(Keyword::By | Keyword::Without));
        match keyword {
            Keyword::Aggregation if is_call || is_grouped => {
                self.skip(1);
                let drops = self.grouping()?;
                self.open(Bracket::Aggregation(drops), 0)
            }
            Keyword::Bool | Keyword::Matching | Keyword::Group => {
                Err(self.fault(Unread::Operand))
            }
            _ if is_call => {
                let bracket = self.call();
                self.open(bracket, 1)
            }
            _ if self.is_label(next) => self.pass(1, Before::Scalar),
            _ => self.take_selector(),
        }
    }

    // What the bracket is of that stands behind the next word.
    fn call(&self) -> Bracket {
        let name = self.word();
        if name == b"histogram_quantile".as_slice() {
            return Bracket::Quantile;
        }
        if name == b"label_values".as_slice() {
            return Bracket::LabelValues;
        }
        match RATES.iter().find(|rate| rate.as_bytes() == name) {
            Some(rate) => Bracket::Rate(rate),
            None => Bracket::Call,
        }
    }

    // Whether the next token closes the arguments of a function that has none.
    fn is_call_of_nothing(&self) -> bool {
        match self.frames.last() {
            Some(frame) => {
                let is_call = !matches!(frame.bracket, Bracket::Group | Bracket::Aggregation(_));
                is_call && frame.inside == self.at
            }
            None => false,
        }
    }

    // Whether the next word is the label of `label_values`: its only argument, or the second.
    fn is_label(&self, next: Kind) -> bool {
        match self.frames.last() {
            Some(frame) => {
                let is_alone = frame.inside == self.at && next == Kind::Mark(b')');
                frame.bracket == Bracket::LabelValues && (frame.commas > 0 || is_alone)
            }
            None => false,
        }
    }

    // Opens the bracket that stands so many tokens behind the next.
    fn open(&mut self, bracket: Bracket, behind: usize) -> Result<(), PromqlFault> {
        let at = self.place();
        self.skip(behind);
        self.take_mark(b'(')?;
        if self.frames.len() >= MOST_FRAMES {
            return Err(PromqlFault::new(Unread::Deep, at));
        }
        let frame = Frame {
            bracket,
            at,
            inside: self.at,
            first: self.found.selectors.len(),
            commas: 0,
        };
        put(&mut self.frames, frame)?;
        self.pass(0, Before::Nothing)
    }

    // Takes a selector: its name or a variable for it, if it has one, and its matchers.
    fn take_selector(&mut self) -> Result<(), PromqlFault> {
        let at = self.place();
        let mut selector = Selector {
            at,
            tests: Items::new(self.alloc),
            is_open: self.kind(0) == Kind::Variable,
            rate: self.rate(),
            is_quantile: false,
            keeps_le: true,
        };
        if selector.is_open {
            self.leave_out();
        }
        if let Kind::Word(_) = self.kind(0) {
            selector.put_name(self.alloc, self.text_of_word()?)?;
        }
        if self.kind(0) != Kind::Mark(b'{') {
            self.skip(1);
        } else if self.kind(1) == Kind::Mark(b'}') {
            return Err(PromqlFault::new(Unread::Empty, at));
        }
        if self.kind(0) == Kind::Mark(b'{') {
            self.skip(1);
            self.take_matchers(&mut selector)?;
        }
        put(&mut self.found.selectors, selector)?;
        self.pass(0, Before::Selector)
    }

    /// The text of the next token, which is a word, and so of ASCII.
    pub(crate) fn text_of_word(&self) -> Result<Text, PromqlFault> {
        match std::str::from_utf8(self.word()) {
            Ok(text) => Ok(Text::new(self.alloc, text)?),
            Err(_) => Err(self.fault(Unread::Character)),
        }
    }

    // The function that asks for a counter, whose argument begins here.
    fn rate(&self) -> Option<&'static str> {
        match self.frames.last()?.bracket {
            Bracket::Rate(name) => Some(name),
            _ => None,
        }
    }

    // Takes what follows a value.
    fn take_operator(&mut self) -> Result<(), PromqlFault> {
        match self.kind(0) {
            Kind::Mark(b')') if !self.frames.is_empty() => self.close(),
            Kind::Mark(b',') => self.take_comma(),
            Kind::Mark(b'[') => self.take_range(),
            Kind::Mark(b'@') | Kind::Word(Keyword::Offset) => self.take_time(),
            Kind::Word(Keyword::Operator) | Kind::Plus | Kind::Operator => self.take_binary(),
            Kind::Sign(sign) if sign.as_str() == "!=" => self.take_binary(),
            Kind::Variable => {
                self.leave_out();
                self.pass(1, Before::Nothing)
            }
            _ => Err(self.fault(Unread::Operator)),
        }
    }

    // Takes a comma of arguments.
    fn take_comma(&mut self) -> Result<(), PromqlFault> {
        match self.frames.last_mut() {
            Some(frame) if frame.bracket != Bracket::Group => {
                frame.commas = frame.commas.saturating_add(1);
            }
            _ => return Err(self.fault(Unread::Operator)),
        }
        self.pass(1, Before::Nothing)
    }

    // Closes the last open bracket. An aggregation whose labels stand nowhere keeps none.
    fn close(&mut self) -> Result<(), PromqlFault> {
        self.pass(1, Before::Value)?;
        let Some(frame) = self.frames.pop() else {
            return Ok(());
        };
        match frame.bracket {
            Bracket::Aggregation(drops) => {
                let later = self.grouping()?;
                if drops.or(later).unwrap_or(true) {
                    self.drop_boundaries(frame.first);
                }
            }
            Bracket::Quantile => self.mark_quantiles(frame.first),
            _ => {}
        }
        Ok(())
    }

    fn drop_boundaries(&mut self, first: usize) {
        for selector in self.found.selectors.iter_mut().skip(first) {
            if !selector.is_quantile {
                selector.keeps_le = false;
            }
        }
    }

    fn mark_quantiles(&mut self, first: usize) {
        for selector in self.found.selectors.iter_mut().skip(first) {
            selector.is_quantile = true;
        }
    }

    // Takes a range of a selector, or one with steps of any value.
    fn take_range(&mut self) -> Result<(), PromqlFault> {
        let before = self.before;
        if before == Before::Scalar {
            return Err(self.fault(Unread::Operator));
        }
        self.pass(1, Before::Value)?;
        self.take_duration()?;
        if self.kind(0) == Kind::Mark(b':') {
            self.skip(1);
            if self.kind(0) != Kind::Mark(b']') {
                self.take_duration()?;
            }
        } else if before != Before::Selector {
            return Err(self.fault(Unread::Range));
        }
        self.take_mark(b']')
    }

    // Takes `offset` and a duration, or `@` and a time or an end of the range that is asked for.
    fn take_time(&mut self) -> Result<(), PromqlFault> {
        if self.before == Before::Scalar {
            return Err(self.fault(Unread::Operator));
        }
        let is_edge = self.kind(1) == Kind::Word(Keyword::Edge) && self.kind(0) == Kind::Mark(b'@');
        self.pass(1, Before::Value)?;
        if is_edge {
            self.skip(1);
            self.take_mark(b'(')?;
            return self.take_mark(b')');
        }
        if self.kind(0) == Kind::Plus {
            self.skip(1);
        }
        self.take_duration()
    }

    fn take_duration(&mut self) -> Result<(), PromqlFault> {
        match self.kind(0) {
            Kind::Number | Kind::Duration | Kind::Variable => {
                self.skip(1);
                Ok(())
            }
            _ => Err(self.fault(Unread::Duration)),
        }
    }
}

// Puts one more last.
fn put<T: Drop>(list: &mut Vec<T>, one: T) -> Result<(), AllocError> {
    list.push(one)?;
    Ok(())
}
