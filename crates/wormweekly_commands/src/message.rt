//! A fault as it is told to people, and to machines.
use metric_kit_commands::KitFault;
use metric_lint::Position;
use metric_messages::Diagnosis;
use metric_sheet::{Cell, Row, Sheet};
use std::alloc::{AllocError, Global};

/// The fields of a fault and of a remark.
pub(crate) static TITLES: [&str; 5] = ["kind", "file", "line", "column", "text"];

/// What is told of a fault: as a text for people, and as a row for machines.
#[derive(Drop)]
pub(crate) struct Message {
    /// All of it, in lines.
    pub text: String,
    // The file that it is in, where there is one, and the place there.
    file: String,
    position: Option<Position>,
    // The cause.
    words: String,
}

impl Message {
    /// A cause that a file has.
    pub(crate) fn of_file(alloc: Global, file: &str, words: &str) -> Result<Message, AllocError> {
        Ok(Message {
            text: format!(in alloc; "{file}: {words}\n")?,
            file: String::from_str(alloc, file)?,
            position: None,
            words: String::from_str(alloc, words)?,
        })
    }

    /// A cause at the beginning of a line of a file.
    pub(crate) fn of_line(
        alloc: Global,
        file: &str,
        line: usize,
        words: &str,
    ) -> Result<Message, AllocError> {
        Ok(Message {
            text: format!(in alloc; "{file}:{line}:1: {words}\n")?,
            file: String::from_str(alloc, file)?,
            position: Some(Position { line, column: 1 }),
            words: String::from_str(alloc, words)?,
        })
    }

    /// A fault as `metric_kit` tells it.
    pub(crate) fn plain(alloc: Global, fault: KitFault) -> Result<Message, AllocError> {
        Message::of_words(alloc, format!(in alloc; "{fault}")?)
    }

    /// A cause that no file has.
    pub(crate) fn of_words(alloc: Global, words: String) -> Result<Message, AllocError> {
        Ok(Message {
            text: format!(in alloc; "{words}\n")?,
            file: String::new(alloc),
            position: None,
            words,
        })
    }

    /// A fault that was diagnosed, where that could be made, with the line that it is in.
    pub(crate) fn diagnosed<F: Drop>(
        alloc: Global,
        told: Result<Diagnosis<'_, F>, AllocError>,
    ) -> Result<Message, AllocError> {
        let told = told?;
        let excerpt = told.excerpt();
        Ok(Message {
            text: format!(in alloc; "{told}\n{excerpt}")?,
            file: String::from_str(alloc, told.file)?,
            position: told.position,
            words: String::from_str(alloc, told.words.as_str())?,
        })
    }
}

impl Sheet for Message {
    fn titles(&self) -> &'static [&'static str] {
        TITLES.as_slice()
    }

    fn rows(&self) -> usize {
        1
    }

    fn row(&self, alloc: Global, _number: usize) -> Result<Vec<Cell>, AllocError> {
        let mut row = Row::new(alloc);
        row.text("fault");
        self.put_place(&mut row);
        row.cells()
    }
}

impl Message {
    /// The cause alone.
    pub(crate) fn words(&self) -> &str {
        self.words.as_str()
    }

    /// The file and the place in it, as far as there are.
    pub(crate) fn place(&self, alloc: Global) -> Result<String, AllocError> {
        let file = self.file.as_str();
        match self.position {
            Some(Position { line, column }) => format!(in alloc; "{file}:{line}:{column}"),
            None => String::from_str(alloc, file),
        }
    }

    /// Puts the file, the place and the cause last.
    pub(crate) fn put_place(&self, row: &mut Row) {
        if self.file.is_empty() {
            row.nothing();
        } else {
            row.text(self.file.as_str());
        }
        put_position(row, self.position);
        row.text(self.words.as_str());
    }
}

/// Puts a line and a column last, or nothing twice.
pub(crate) fn put_position(row: &mut Row, position: Option<Position>) {
    match position {
        Some(position) => {
            row.number(position.line as u128);
            row.number(position.column as u128);
        }
        None => {
            row.nothing();
            row.nothing();
        }
    }
}
