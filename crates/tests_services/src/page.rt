//! A page on which a test writes what it is told, line by line, and which is compared as a whole.
use crate::asserted::{OrFail, assert_equal};
use std::alloc::Global;
use std::fmt::{Debug, Display};
use std::process::Abort;

/// What a test was told so far, and what its calls are passed.
#[derive(Drop)]
pub(crate) struct Page<'a, R> {
    pub(crate) rt: &'a R,
    pub(crate) alloc: Global,
    text: String,
}

impl<'a, R: Abort> Page<'a, R> {
    /// An empty page.
    pub(crate) fn new(rt: &'a R, alloc: Global) -> Page<'a, R> {
        let text = String::new(alloc);
        Page { rt, alloc, text }
    }

    /// Writes a text.
    pub(crate) fn push(&mut self, text: &str) {
        self.text.push_str(text).or_fail(self.rt)
    }

    /// Writes what people are told.
    pub(crate) fn put<T: Display + Drop>(&mut self, value: T) {
        write!(self.text, "{value}").or_fail(self.rt)
    }

    /// Writes a line with all of a value.
    pub(crate) fn tell<T: Debug + Drop>(&mut self, value: T) {
        writeln!(self.text, "{value:?}").or_fail(self.rt)
    }

    /// Writes a line with what people are told.
    pub(crate) fn say<T: Display + Drop>(&mut self, value: T) {
        writeln!(self.text, "{value}").or_fail(self.rt)
    }

    /// What is on the page.
    pub(crate) fn text(&self) -> &str {
        self.text.as_str()
    }

    /// Ends the test where this is not what is on the page.
    pub(crate) fn assert(self, wanted: &str) {
        assert_equal(self.rt, self.text.as_str(), wanted)
    }
}
