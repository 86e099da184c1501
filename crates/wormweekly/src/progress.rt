//! How far a request is, for whoever waits at a terminal.
use metric_command_lines::{Form, Request, RequestFault, Task};
use std::cell::Cell;
use std::io::{self, IsTerminal, Write};
use std::time::Instant;

// Takes away the longest line.
const BLANK: &[u8] = b"\r                              \r";

/// What the program is at, in one line of standard error, and only where that is a terminal and standard output is not:
/// which file it reads, then what it makes of them. A replay shows once a second how many lines it has written.
#[derive(Drop)]
pub struct Progress<'a> {
    rt: &'a HostRuntime,
    is_shown: bool,
    work: &'static str,
    // When a replay began of which the lines are counted.
    start: Option<Instant>,
    lines: Cell<u64>,
    // The whole second at which the lines were shown last.
    seconds: Cell<u64>,
    files: Cell<u32>,
    is_filled: Cell<bool>,
}

impl<'a> Progress<'a> {
    /// That of a request, at its beginning.
    pub fn new(rt: &'a HostRuntime, request: &Result<Request, RequestFault>) -> Progress<'a> {
        let is_shown = rt.stderr().is_terminal() && !rt.stdout().is_terminal();
        let is_counted = is_shown && writes_lines(request);
        Progress {
            rt,
            is_shown,
            work: work_of(request),
            start: if is_counted {
                Instant::now(rt).ok()
            } else {
                None
            },
            lines: Cell::new(0),
            seconds: Cell::new(0),
            files: Cell::new(0),
            is_filled: Cell::new(false),
        }
    }

    /// The next file is read.
    pub fn reads(&self) {
        let number = self.files.get().saturating_add(1);
        self.files.set(number);
        if self.is_shown
            && let Ok(text) = format!(in self.rt.alloc(); "reading file {number}")
        {
            self.show(text.as_str());
        }
    }

    /// A file was read; the work begins where it was the last.
    pub fn works(&self) {
        if self.is_shown {
            self.show(self.work);
        }
    }

    /// Takes the line away.
    pub fn erase(&self) {
        if self.is_filled.get() {
            self.is_filled.set(false);
            let _erased = self.rt.stderr().write_all(BLANK);
        }
    }

    // Counts what was written, and shows it once a second.
    fn count(&self, written: &[u8]) {
        let Some(start) = self.start else {
            return;
        };
        let more = written.iter().filter(|byte| **byte == b'\n').count();
        let lines = self.lines.get().saturating_add(more as u64);
        self.lines.set(lines);
        if let Ok(passed) = start.elapsed(self.rt)
            && passed.as_secs() > self.seconds.get()
        {
            self.seconds.set(passed.as_secs());
            if let Ok(text) = format!(in self.rt.alloc(); "lines: {lines}") {
                self.show(text.as_str());
            }
        }
    }

    // Shows a text in the place of what stands in the line.
    fn show(&self, text: &str) {
        self.erase();
        self.is_filled.set(true);
        let _shown = self.rt.stderr().write_all(text.as_bytes());
    }
}

// Whether a request writes lines while it runs.
fn writes_lines(request: &Result<Request, RequestFault>) -> bool {
    match request {
        Ok(request) => {
            request.task == Task::Replay
                && matches!(request.options.form, Form::Replies | Form::OtlpLines)
        }
        Err(_) => false,
    }
}

// What is made of the files.
fn work_of(request: &Result<Request, RequestFault>) -> &'static str {
    match request {
        Ok(request) => match request.task {
            Task::Make => "making a certificate",
            Task::Check => "checking a certificate",
            Task::Replay => "replaying",
            Task::Diff => "comparing",
            Task::Draw => "drawing",
            Task::Queries => "judging queries",
            Task::Lint | Task::Show | Task::Headroom | Task::Report | Task::Expand | Task::Bind =>
                "working",
        },
        Err(_) => "working",
    }
}

/// A writer before whose texts the line is taken away, and of which the lines are counted.
#[derive(Drop)]
pub struct Counted<'a, W> {
    pub writer: W,
    pub progress: &'a Progress<'a>,
}

impl<W: Write> Write for Counted<'_, W> {
    ghost contents = { λ counted. W.contents counted.writer };

    fn write(&mut self, buf: &[u8]) -> io::Result<usize> {
        self.progress.erase();
        let answer = self.writer.write(buf);
        if let Ok(written) = &answer {
            self.progress.count(&buf[..*written]);
        }
        answer
    }

    fn flush(&mut self) -> io::Result<()> {
        self.writer.flush()
    }
}

/// A writer before whose texts the line is taken away.
#[derive(Drop)]
pub struct Cleared<'a, W> {
    pub writer: W,
    pub progress: &'a Progress<'a>,
}

impl<W: Write> Write for Cleared<'_, W> {
    fn write(&mut self, buf: &[u8]) -> io::Result<usize> {
        self.progress.erase();
        self.writer.write(buf)
    }

    fn flush(&mut self) -> io::Result<()> {
        self.writer.flush()
    }
}
