//! A line of a text with a mark.
use crate::sentence::write_three;
use crate::shown::visible;
use metric_lint::Position;
use std::fmt;

// How many characters of a line are shown.
const WIDTH: usize = 120;

// How many of these stand before the mark, where the line is cut there.
const BEFORE: usize = 60;

// What stands for characters that are left out.
const CUT: &str = "..";

/// A line of a text with its number, and a mark below a place in it. As a text it is two lines, of which each ends with
/// a line feed, or empty. Of a long line some 120 characters round the mark are shown. Control characters are shown as
/// symbols.
#[derive(Clone, Copy)]
pub struct Excerpt<'t> {
    position: Option<Position>,
    line: &'t str,
}

impl<'t> Excerpt<'t> {
    pub(crate) fn new(position: Option<Position>, line: &'t str) -> Excerpt<'t> {
        Excerpt { position, line }
    }
}

impl fmt::Display for Excerpt<'_> {
    fn fmt<W: fmt::Write>(&self, f: &mut fmt::Formatter<W>) -> fmt::Result {
        match self.position {
            Some(Position { line, column }) => {
                let window = Window::new(self.line, column.saturating_sub(1));
                let number = (indent_of(line), &line);
                write_three(
                    f,
                    number,
                    (" | ", &window),
                    ("\n      | ", &window.mark()),
                    "\n",
                )
            }
            None => Ok(()),
        }
    }
}

// The blanks before the number of a line, which stands at the right of five places.
fn indent_of(line: usize) -> &'static str {
    match line {
        0..=9 => "    ",
        10..=99 => "   ",
        100..=999 => "  ",
        1_000..=9_999 => " ",
        _ => "",
    }
}

// The part of a line that is shown.
#[derive(Clone, Copy)]
struct Window<'t> {
    text: &'t str,
    // How many characters are left out at the front.
    start: usize,
    // How many characters stand before the mark.
    marked: usize,
}

impl<'t> Window<'t> {
    fn new(text: &'t str, marked: usize) -> Window<'t> {
        let start = if text.chars().count() <= WIDTH {
            0
        } else {
            marked.saturating_sub(BEFORE)
        };
        Window {
            text,
            start,
            marked,
        }
    }

    // The mark below the window.
    fn mark(&self) -> Mark {
        let shown = self.marked.saturating_sub(self.start);
        let cut = if self.start == 0 { 0 } else { CUT.len() };
        Mark {
            before: shown.saturating_add(cut),
        }
    }
}

impl fmt::Display for Window<'_> {
    fn fmt<W: fmt::Write>(&self, f: &mut fmt::Formatter<W>) -> fmt::Result {
        if self.start > 0 {
            f.write_str(CUT)?;
        }
        let mut place = 0usize;
        for character in self.text.chars() {
            if place.saturating_sub(self.start) >= WIDTH {
                return f.write_str(CUT);
            }
            if place >= self.start {
                f.write_char(visible(character))?;
            }
            place = place.saturating_add(1);
        }
        Ok(())
    }
}

// A mark after so many blanks.
#[derive(Clone, Copy)]
struct Mark {
    before: usize,
}

impl fmt::Display for Mark {
    fn fmt<W: fmt::Write>(&self, f: &mut fmt::Formatter<W>) -> fmt::Result {
        for _ in 0..self.before {
            f.write_str(" ")?;
        }
        f.write_str("^")
    }
}
