//! The words and marks of a TOML text, byte by byte.

// A word: a bare one, or a text in quotes.
#[derive(Clone, Copy)]
pub(crate) struct Word {
    // Where it begins, with its quotes.
    pub(crate) start: usize,
    // How many quotes it begins with.
    pub(crate) quotes: usize,
    // Where it ends, without its quotes.
    pub(crate) end: usize,
}

// What a byte gives: the word that ends before it, and the mark that it is.
#[derive(Clone, Copy)]
pub(crate) struct Taken {
    pub(crate) word: Option<Word>,
    pub(crate) mark: Option<u8>,
}

// What a byte is in.
#[derive(Clone, Copy)]
enum Mode {
    Plain,
    Bare,
    Comment,
    // So many quotes, which open a text or are an empty one.
    Opening(u8, usize),
    // A text in one line, and whether a backslash stands before.
    Short(u8, bool),
    // A text in several lines, how many quotes stand before, and whether a backslash does.
    Long(u8, usize, bool),
}

#[derive(Clone, Copy, Drop)]
pub(crate) struct Lexer {
    mode: Mode,
    // Where the word begins.
    start: usize,
}

const NOTHING: Taken = Taken {
    word: None,
    mark: None,
};

impl Lexer {
    pub(crate) fn new() -> Lexer {
        Lexer {
            mode: Mode::Plain,
            start: 0,
        }
    }

    // Takes the next byte.
    pub(crate) fn take(&mut self, at: usize, byte: u8) -> Taken {
        match self.mode {
            Mode::Plain => self.open(None, at, byte),
            Mode::Bare => self.take_bare(at, byte),
            Mode::Comment if byte == b'\n' => self.open(None, at, byte),
            Mode::Comment => NOTHING,
            Mode::Opening(quote, run) => self.take_quote(quote, run, at, byte),
            Mode::Short(quote, escaped) => self.take_short(quote, escaped, at, byte),
            Mode::Long(quote, run, escaped) => self.take_long(quote, run, escaped, at, byte),
        }
    }

    fn take_bare(&mut self, at: usize, byte: u8) -> Taken {
        if !is_mark(byte) && !matches!(byte, b' ' | b'\t' | b'\r' | b'#') {
            return NOTHING;
        }
        let word = self.word(0, at);
        self.open(word, at, byte)
    }

    fn take_quote(&mut self, quote: u8, run: usize, at: usize, byte: u8) -> Taken {
        if byte == quote {
            self.mode = if run < 2 {
                Mode::Opening(quote, 2)
            } else {
                Mode::Long(quote, 0, false)
            };
            return NOTHING;
        }
        if run < 2 {
            self.mode = Mode::Short(quote, is_escape(quote, byte));
            return NOTHING;
        }
        let word = self.word(1, self.start.saturating_add(1));
        self.open(word, at, byte)
    }

    fn take_short(&mut self, quote: u8, escaped: bool, at: usize, byte: u8) -> Taken {
        if byte == quote && !escaped {
            self.mode = Mode::Plain;
            return Taken {
                word: self.word(1, at),
                mark: None,
            };
        }
        self.mode = Mode::Short(quote, !escaped && is_escape(quote, byte));
        NOTHING
    }

    // Two quotes more than the three that end a text belong to it.
    fn take_long(&mut self, quote: u8, run: usize, escaped: bool, at: usize, byte: u8) -> Taken {
        if byte == quote && !escaped {
            self.mode = Mode::Long(quote, run.saturating_add(1), false);
            return NOTHING;
        }
        if run >= 3 {
            let word = self.word(3, at);
            return self.open(word, at, byte);
        }
        self.mode = Mode::Long(quote, 0, !escaped && is_escape(quote, byte));
        NOTHING
    }

    // The word that ends here.
    fn word(&self, quotes: usize, end: usize) -> Option<Word> {
        Some(Word {
            start: self.start,
            quotes,
            end,
        })
    }

    // Takes a byte that stands in no word, after a word that ends before it.
    fn open(&mut self, word: Option<Word>, at: usize, byte: u8) -> Taken {
        self.start = at;
        self.mode = match byte {
            b'#' => Mode::Comment,
            b'"' | b'\'' => Mode::Opening(byte, 1),
            b' ' | b'\t' | b'\r' => Mode::Plain,
            _ if is_mark(byte) => Mode::Plain,
            _ => Mode::Bare,
        };
        let mark = if is_mark(byte) { Some(byte) } else { None };
        Taken { word, mark }
    }
}

fn is_mark(byte: u8) -> bool {
    matches!(byte, b'[' | b']' | b'{' | b'}' | b',' | b'=' | b'.' | b'\n')
}

// Whether a byte of a text in such quotes takes the meaning of the next.
fn is_escape(quote: u8, byte: u8) -> bool {
    quote == b'"' && byte == b'\\'
}
