//! Standard output into a pipe that may be closed at its other end, as `head` does it.
use std::cell::Cell;
use std::io::{ErrorKind, Result, Write};

/// A writer that notes whether the pipe that it writes to is closed.
#[derive(Drop)]
pub struct Watched<'a, W> {
    pub writer: W,
    pub is_closed: &'a Cell<bool>,
}

impl<W: Write> Write for Watched<'_, W> {
    ghost contents = { λ watched. W.contents watched.writer };

    fn write(&mut self, buf: &[u8]) -> Result<usize> {
        let answer = self.writer.write(buf);
        note(self.is_closed, &answer);
        answer
    }

    fn flush(&mut self) -> Result<()> {
        let answer = self.writer.flush();
        note(self.is_closed, &answer);
        answer
    }
}

// Notes a pipe that is closed.
fn note<T>(is_closed: &Cell<bool>, answer: &Result<T>) {
    if let Err(error) = answer
        && error.kind() == ErrorKind::BrokenPipe
    {
        is_closed.set(true);
    }
}

/// A writer that writes nothing more once the pipe of another one is closed.
#[derive(Drop)]
pub struct Hushed<'a, W> {
    pub writer: W,
    pub is_closed: &'a Cell<bool>,
}

impl<W: Write> Write for Hushed<'_, W> {
    fn write(&mut self, buf: &[u8]) -> Result<usize> {
        if self.is_closed.get() {
            Ok(buf.len())
        } else {
            self.writer.write(buf)
        }
    }

    fn flush(&mut self) -> Result<()> {
        self.writer.flush()
    }
}
