//! Files of queries, judged.
use crate::concerns::names;
use crate::message::Message;
use crate::noting::MOST_NOTES;
use crate::parts::Texts;
use crate::query_message::{cause_of, words_of};
use crate::shown_path::shown;
use metric_base::Text;
use metric_command_lines::Request;
use metric_messages::{NamedText, Pair, diagnose_at};
use metric_promql::{
    Expression, Expressions, FileForm, PromqlFault, QueryKind, Selector, Unread, expressions_of,
    scan,
};
use metric_queries::{Known, QueryRemark, Served, remarks_of};
use metric_views::Stream;
use std::alloc::{AllocError, Global};

/// What is told of queries.
#[derive(Drop)]
pub(crate) struct Told {
    pub kind: QueryKind,
    /// The query that it is told of.
    pub query: Query,
    /// What is told in full of the first.
    pub detail: Option<Detail>,
}

/// A query: the number of its file, and its own in the file.
#[derive(Clone, Copy, PartialEq, Eq, PartialOrd, Ord, Drop)]
pub(crate) struct Query {
    pub file: usize,
    pub number: usize,
}

/// What is told in full, with the name of the series that is asked for and the text of the matcher that it is about, each
/// empty where there is none.
#[derive(Drop)]
pub(crate) struct Detail {
    pub message: Message,
    pub name: Text,
    pub text: Text,
}

/// What is found in files of queries.
#[derive(Drop)]
pub(crate) struct Found {
    /// What is told.
    pub told: Vec<Told>,
    /// How much is not judged, since a variable stands there.
    pub left_out: usize,
}

/// The pages that queries are judged by: what they were made of, and the streams on them.
#[derive(Clone, Copy)]
pub(crate) struct Pages<'a, 'p> {
    pub pair: Pair<'a>,
    pub streams: &'a [Stream],
    pub served: &'a [Served<'p>],
}

// What a file is judged by, and what is found so far.
#[derive(Drop)]
struct Judge<'a, 'p> {
    alloc: Global,
    allowed: &'a [Text],
    skipped: &'a [Told],
    pages: Pages<'a, 'p>,
    known: Known<'a, 'p>,
    query: Query,
    found: Found,
}

/// Judges the selectors of files by the streams of pages, in the order in which they stand, but for queries of which
/// something is told already. The rules of one file may record what another asks for.
pub(crate) fn judge_files(
    alloc: Global,
    request: &Request,
    texts: &Texts,
    pages: Pages<'_, '_>,
    skipped: &[Told],
) -> Result<Found, AllocError> {
    let files = texts.queries.as_slice();
    let read = read_all(alloc, request, files)?;
    let recorded = recorded_of(alloc, &read)?;
    let mut judge = Judge {
        alloc,
        allowed: request.concerns.allowed.as_slice(),
        skipped,
        pages,
        known: Known {
            added: request.concerns.labels.as_slice(),
            recorded: &recorded,
            served: pages.served,
        },
        query: Query { file: 0, number: 0 },
        found: Found {
            told: Vec::new(alloc),
            left_out: 0,
        },
    };
    for (file, read) in read.iter().enumerate() {
        judge.query = Query { file, number: 0 };
        judge.take_file(source_of(request, files, file), read)?;
    }
    let Judge { found, .. } = judge;
    Ok(found)
}

// A file of queries with its name.
fn source_of<'t>(request: &'t Request, files: &'t [Text], number: usize) -> NamedText<'t> {
    match (
        request.files.queries.as_slice().get(number),
        files.get(number),
    ) {
        (Some(path), Some(text)) => NamedText {
            name: shown(path.as_str()),
            text: text.as_str(),
        },
        _ => NamedText { name: "", text: "" },
    }
}

// The expressions of each file, or why they are not read.
fn read_all(
    alloc: Global,
    request: &Request,
    files: &[Text],
) -> Result<Vec<Result<Expressions, PromqlFault>>, AllocError> {
    let mut read = Vec::new(alloc);
    for number in 0..files.len() {
        let source = source_of(request, files, number);
        let form = FileForm::of(source.name, source.text);
        match expressions_of(alloc, source.text, form) {
            Err(PromqlFault::Memory) => return Err(AllocError),
            found => read.push(found)?,
        }
    }
    Ok(read)
}

// The names that the rules of all files record, in order.
fn recorded_of(
    alloc: Global,
    read: &[Result<Expressions, PromqlFault>],
) -> Result<Vec<String>, AllocError> {
    let mut recorded = Vec::new(alloc);
    for file in read {
        if let Ok(expressions) = file {
            for name in expressions.recorded.as_slice() {
                recorded.push(String::from_str(alloc, name.as_str())?)?;
            }
        }
    }
    recorded.sort()?;
    Ok(recorded)
}

impl Judge<'_, '_> {
    fn take_file(
        &mut self,
        source: NamedText<'_>,
        read: &Result<Expressions, PromqlFault>,
    ) -> Result<(), AllocError> {
        match read {
            Ok(expressions) => {
                for (number, expression) in expressions.list.as_slice().iter().enumerate() {
                    self.query.number = number;
                    if !self.is_skipped() {
                        self.take_expression(source, expression, expressions.is_template)?;
                    }
                }
                Ok(())
            }
            Err(PromqlFault::Memory) => Err(AllocError),
            Err(PromqlFault::Unread { .. }) if self.is_skipped() => Ok(()),
            Err(PromqlFault::Unread { cause, at }) => self.tell_unread(source, *cause, *at),
        }
    }

    // Whether something is told of the query already.
    fn is_skipped(&self) -> bool {
        let query = self.query;
        let place = self.skipped.partition_point(|told| told.query < query);
        match self.skipped.get(place) {
            Some(told) => told.query == query,
            None => false,
        }
    }

    fn take_expression(
        &mut self,
        source: NamedText<'_>,
        expression: &Expression,
        is_template: bool,
    ) -> Result<(), AllocError> {
        match scan(self.alloc, expression.text.as_str(), is_template) {
            Ok(found) => {
                self.found.left_out = self.found.left_out.saturating_add(found.left_out);
                for selector in found.selectors.as_slice() {
                    self.take_selector(source, expression, selector)?;
                }
                Ok(())
            }
            Err(PromqlFault::Memory) => Err(AllocError),
            Err(PromqlFault::Unread { cause, at }) => {
                self.tell_unread(source, cause, expression.place_of(at))
            }
        }
    }

    fn take_selector(
        &mut self,
        source: NamedText<'_>,
        expression: &Expression,
        selector: &Selector,
    ) -> Result<(), AllocError> {
        let remarks = remarks_of(self.alloc, &self.known, selector)?;
        for remark in remarks.hints.iter().chain(remarks.reasons.iter()) {
            if !names(self.allowed, remark.kind.name()) {
                self.take_remark(source, expression, selector, *remark)?;
            }
        }
        Ok(())
    }

    fn take_remark(
        &mut self,
        source: NamedText<'_>,
        expression: &Expression,
        selector: &Selector,
        remark: QueryRemark,
    ) -> Result<(), AllocError> {
        let alloc = self.alloc;
        if !self.tells() {
            return self.tell(remark.kind, None);
        }
        let words = words_of(
            alloc,
            self.pages.pair,
            self.pages.streams,
            &self.known,
            selector,
            remark,
        )?;
        let at = expression.place_of(remark.at);
        let found = diagnose_at(source, remark.kind, at, words);
        let detail = Detail {
            message: Message::diagnosed(alloc, Ok(found))?,
            name: Text::new(alloc, selector.name().unwrap_or(""))?,
            text: Text::new(alloc, text_of_test(selector, remark.matcher))?,
        };
        self.tell(remark.kind, Some(detail))
    }

    fn tell_unread(
        &mut self,
        source: NamedText<'_>,
        cause: Unread,
        at: usize,
    ) -> Result<(), AllocError> {
        let (alloc, kind) = (self.alloc, QueryKind::Unread);
        if names(self.allowed, kind.name()) {
            return Ok(());
        }
        if !self.tells() {
            return self.tell(kind, None);
        }
        let words = String::from_str(alloc, cause_of(cause))?;
        let found = diagnose_at(source, kind, at, words);
        let detail = Detail {
            message: Message::diagnosed(alloc, Ok(found))?,
            name: Text::new(alloc, "")?,
            text: Text::new(alloc, "")?,
        };
        self.tell(kind, Some(detail))
    }

    // Whether what comes next is told in full.
    fn tells(&self) -> bool {
        self.found.told.len() < MOST_NOTES
    }

    fn tell(&mut self, kind: QueryKind, detail: Option<Detail>) -> Result<(), AllocError> {
        let query = self.query;
        self.found.told.push(Told {
            kind,
            query,
            detail,
        })?;
        Ok(())
    }
}

// The text of a matcher, empty where there is none.
fn text_of_test(selector: &Selector, number: Option<usize>) -> &str {
    let tests = selector.tests.as_slice();
    match tests.get(number.unwrap_or(usize::MAX)) {
        Some(test) => test.text.as_str(),
        None => "",
    }
}
