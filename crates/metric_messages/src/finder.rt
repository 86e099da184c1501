//! Where a table, a field or an entry of a list stands in a TOML text.
//!
//! One pass over the words and marks of the text, along the headers, keys and brackets that lead to the place. What is
//! not on the way is skipped by counting its brackets.
use crate::lexer::{Lexer, Word};
use crate::way::Way;
use std::alloc::{AllocError, Global};

// The byte at which a place begins: the name of the field of the last level, or where that has a number, the table or
// the entry. Nothing where it is not found, or where a name on the way is spelled by escapes. The text is right TOML.
pub(crate) fn find(alloc: Global, text: &str, way: Way<'_>) -> Result<Option<usize>, AllocError> {
    if way.count() == 0 {
        return Ok(Some(0));
    }
    let mut lexer = Lexer::new();
    let mut finder = Finder::new(alloc, text.as_bytes(), way);
    for (at, byte) in text.as_bytes().iter().enumerate() {
        let taken = lexer.take(at, *byte);
        if let Some(word) = taken.word {
            finder.take_word(word);
        }
        if let Some(mark) = taken.mark {
            finder.take_mark(at, mark)?;
        }
        if finder.is_done {
            return Ok(finder.found);
        }
    }
    Ok(None)
}

// What is expected next.
#[derive(Clone, Copy)]
enum Grammar {
    // A name of a key, or at the beginning of a line a header.
    Key,
    // A name of a header, of an element of a list or not.
    Header(bool),
    // What follows a header in its line.
    Headed,
    // A value.
    Value,
    // What follows a value.
    Valued,
}

// How far a table or a value is on the way to the place.
#[derive(Clone, Copy)]
enum Lead {
    Off,
    // It is the table that has the name of this level.
    Table(usize),
    // It is the list of this level.
    List(usize),
}

// A bracket that is open on the way: of the list of a level, at the element of this number, or of a table.
#[derive(Clone, Copy)]
enum Frame {
    List(usize, usize),
    Table(usize),
}

#[derive(Drop)]
struct Finder<'t> {
    text: &'t [u8],
    wanted: Way<'t>,
    is_done: bool,
    found: Option<usize>,
    grammar: Grammar,
    // What the header before leads to.
    section: Lead,
    // What the names so far of a key, or the bracket before, lead to.
    way: Lead,
    frames: Vec<Frame>,
    // How many brackets are open that are not on the way.
    skipped: usize,
    // Where a header and its last name begin, how many names it has so far, and whether these are those of the way.
    start: usize,
    last: usize,
    depth: usize,
    is_alike: bool,
    // How many elements the list of each level has so far.
    counts: [usize; 8],
}

impl<'t> Finder<'t> {
    fn new(alloc: Global, text: &'t [u8], wanted: Way<'t>) -> Finder<'t> {
        Finder {
            text,
            wanted,
            is_done: false,
            found: None,
            grammar: Grammar::Key,
            section: Lead::Table(0),
            way: Lead::Table(0),
            frames: Vec::new(alloc),
            skipped: 0,
            start: 0,
            last: 0,
            depth: 0,
            is_alike: true,
            counts: [0; 8],
        }
    }

    fn take_word(&mut self, word: Word) {
        if self.skipped > 0 {
            return;
        }
        match self.grammar {
            Grammar::Key => self.take_name(word),
            Grammar::Header(_) => self.take_header(word),
            Grammar::Value => {
                self.begin(word.start);
                self.grammar = Grammar::Valued;
            }
            Grammar::Headed | Grammar::Valued => {}
        }
    }

    fn take_mark(&mut self, at: usize, mark: u8) -> Result<(), AllocError> {
        if self.skipped > 0 {
            self.skip(mark);
            return Ok(());
        }
        match (self.grammar, mark) {
            (Grammar::Key, b'[') => self.open_header(at),
            (Grammar::Key, b'=') => self.grammar = Grammar::Value,
            (Grammar::Header(_), b'[') => self.grammar = Grammar::Header(true),
            (Grammar::Header(is_list), b']') => self.close_header(is_list),
            (Grammar::Value, b'[' | b'{') => {
                self.begin(at);
                self.open(mark)?;
            }
            (Grammar::Valued, b',') => self.go_on(),
            (_, b']' | b'}') => self.close(),
            (Grammar::Headed | Grammar::Valued, b'\n') => self.end_line(),
            _ => {}
        }
        Ok(())
    }

    // The place begins here.
    fn end_at(&mut self, start: usize) {
        self.is_done = true;
        self.found = Some(start);
    }

    // Whether a word is the name of a level. A name that escapes spell is not looked into.
    fn is_named(&mut self, word: Word, number: usize) -> bool {
        let from = word.start.saturating_add(word.quotes);
        let name = self.text.get(from..word.end).unwrap_or(&[]);
        if word.quotes > 0 && name.contains(&b'\\') {
            self.is_done = true;
        }
        number < self.wanted.count() && self.wanted.level(number).name.as_bytes() == name
    }

    // Takes a name of a key.
    fn take_name(&mut self, word: Word) {
        let Lead::Table(number) = self.way else {
            self.way = Lead::Off;
            return;
        };
        if !self.is_named(word, number) {
            self.way = Lead::Off;
        } else if self.wanted.level(number).number.is_some() {
            self.way = Lead::List(number);
        } else {
            self.way = Lead::Table(number.saturating_add(1));
            if number.saturating_add(1) == self.wanted.count() {
                self.end_at(word.start.saturating_add(word.quotes));
            }
        }
    }

    fn open_header(&mut self, at: usize) {
        self.grammar = Grammar::Header(false);
        self.start = at;
        self.depth = 0;
        self.is_alike = true;
    }

    // Takes a name of a header.
    fn take_header(&mut self, word: Word) {
        self.last = word.start.saturating_add(word.quotes);
        let depth = self.depth;
        let is_named = self.is_named(word, depth);
        self.is_alike = is_named && self.is_alike;
        self.depth = self.depth.saturating_add(1);
    }

    // Goes to the table of a header, which is a new element of its list or not.
    fn close_header(&mut self, is_list: bool) {
        self.grammar = Grammar::Headed;
        self.section = Lead::Off;
        if !self.is_alike {
            return;
        }
        if is_list {
            self.count();
        }
        if self.is_reached() {
            self.section = Lead::Table(self.depth);
            if self.depth == self.wanted.count() {
                let begin = self.begin_of_header();
                self.end_at(begin);
            }
        }
    }

    // Where a header stands: of an element at its bracket, of a field at its name.
    fn begin_of_header(&self) -> usize {
        match self.wanted.level(self.depth.saturating_sub(1)).number {
            Some(_) => self.start,
            None => self.last,
        }
    }

    // Counts an element of the list of a header. The lists in it begin anew.
    fn count(&mut self) {
        let last = self.depth.saturating_sub(1);
        for (number, count) in self.counts.iter_mut().enumerate() {
            if number == last {
                *count = count.saturating_add(1);
            } else if number > last {
                *count = 0;
            }
        }
    }

    // Whether the last elements of the lists of a header are those of the way.
    fn is_reached(&self) -> bool {
        for (level, count) in self.counts.iter().enumerate().take(self.depth) {
            if let Some(number) = self.wanted.level(level).number {
                if number.saturating_add(1) != *count {
                    return false;
                }
            }
        }
        true
    }

    // A value begins here: of an element of a list, it may be the place.
    fn begin(&mut self, start: usize) {
        let Some(Frame::List(number, element)) = self.frames.last().copied() else {
            return;
        };
        if self.wanted.level(number).number != Some(element) {
            self.way = Lead::Off;
            return;
        }
        self.way = Lead::Table(number.saturating_add(1));
        if number.saturating_add(1) == self.wanted.count() {
            self.end_at(start);
        }
    }

    // Opens the bracket of a value.
    fn open(&mut self, mark: u8) -> Result<(), AllocError> {
        match (self.way, mark) {
            (Lead::List(number), b'[') => {
                self.frames.push(Frame::List(number, 0))?;
            }
            (Lead::Table(number), b'{') => {
                self.frames.push(Frame::Table(number))?;
                self.grammar = Grammar::Key;
            }
            _ => self.skipped = 1,
        }
        Ok(())
    }

    // Goes on to the next element of a list, or the next key of a table.
    fn go_on(&mut self) {
        match self.frames.pop() {
            Some(Frame::List(number, element)) => {
                let next = Frame::List(number, element.saturating_add(1));
                let _kept = self.frames.push(next);
                self.grammar = Grammar::Value;
            }
            Some(Frame::Table(number)) => {
                let _kept = self.frames.push(Frame::Table(number));
                self.way = Lead::Table(number);
                self.grammar = Grammar::Key;
            }
            None => {}
        }
    }

    // Closes the bracket that was opened last.
    fn close(&mut self) {
        let _closed = self.frames.pop();
        self.grammar = Grammar::Valued;
    }

    // Leaves brackets that are not on the way.
    fn skip(&mut self, mark: u8) {
        match mark {
            b'[' | b'{' => self.skipped = self.skipped.saturating_add(1),
            b']' | b'}' => self.skipped = self.skipped.saturating_sub(1),
            _ => {}
        }
        self.grammar = Grammar::Valued;
    }

    // A line of the top, or of a header, ends.
    fn end_line(&mut self) {
        if self.frames.is_empty() {
            self.grammar = Grammar::Key;
            self.way = self.section;
        }
    }
}
