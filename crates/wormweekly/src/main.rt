//! Tells before a deploy what a catalogue and a config of metrics will give.
#![tactic(auto)]

mod disk;
mod pipe;
mod progress;

use disk::Disk;
use metric_command_lines::{Request, RequestFault, request_of};
use metric_io::StdSink;
use pipe::{Hushed, Watched};
use progress::{Cleared, Counted, Progress};
use std::alloc::{AllocError, Global};
use std::cell::Cell;
use std::env;
use std::io::{BufWriter, ErrorKind, Write};
use std::process::ExitCode;
use wormweekly_commands::run_request;

// The exit status of a program that writes into a closed pipe and is ended by its signal.
const CLOSED: u8 = 141;

const NOT_TEXT: &str =
    "error: a word of the command line is not UTF-8, as the path of a file has to be\n";

fn main(rt: HostRuntime) -> ExitCode {
    ExitCode::from(run(&rt, asked(&rt)))
}

// What the words of the command line ask for.
fn asked(rt: &HostRuntime) -> Result<Request, RequestFault> {
    let owned = words(rt)?;
    let words = borrowed(rt.alloc(), &owned)?;
    request_of(rt.alloc(), &words)
}

// The words of the command line, each of which has to be UTF-8, also the path of a file.
fn words(rt: &HostRuntime) -> Result<Vec<String>, RequestFault> {
    match env::args(rt) {
        Ok(words) => Ok(words.collect(rt.alloc())?),
        Err(error) => match error.kind() {
            ErrorKind::InvalidData => {
                Err(RequestFault::Usage(String::from_str(rt.alloc(), NOT_TEXT)?))
            }
            _ => Err(RequestFault::Memory),
        },
    }
}

fn borrowed<'a>(alloc: Global, owned: &'a [String]) -> Result<Vec<&'a str>, AllocError> {
    let mut words = Vec::new(alloc);
    for word in owned {
        words.push(word.as_str())?;
    }
    Ok(words)
}

// Runs a request, and gives the exit status.
fn run(rt: &HostRuntime, request: Result<Request, RequestFault>) -> u8 {
    let progress = Progress::new(rt, &request);
    let counted = Counted {
        writer: rt.stdout(),
        progress: &progress,
    };
    let told = Cleared {
        writer: rt.stderr(),
        progress: &progress,
    };
    let status = match BufWriter::new(rt.alloc(), counted) {
        Ok(output) => run_into(rt, request, &progress, output, told),
        Err(_) => run_into(rt, Err(RequestFault::Memory), &progress, rt.stdout(), told),
    };
    progress.erase();
    status
}

// Runs a request into a writer. The exit status; that of a closed pipe, where the writer is one.
fn run_into<W: Write + Drop, E: Write + Drop>(
    rt: &HostRuntime,
    request: Result<Request, RequestFault>,
    progress: &Progress<'_>,
    output: W,
    told: E,
) -> u8 {
    let is_closed = Cell::new(false);
    let status = run_watched(rt, request, progress, output, told, &is_closed);
    if is_closed.get() { CLOSED } else { status }
}

// Runs a request into a writer, and tells another one why it stops, unless the pipe of the first is closed.
fn run_watched<W: Write + Drop, E: Write + Drop>(
    rt: &HostRuntime,
    request: Result<Request, RequestFault>,
    progress: &Progress<'_>,
    output: W,
    told: E,
    is_closed: &Cell<bool>,
) -> u8 {
    let mut folder = Disk { rt, progress };
    let mut sink = StdSink::new(Watched {
        writer: output,
        is_closed,
    });
    let mut faults = StdSink::new(Watched {
        writer: rt.stdout(),
        is_closed,
    });
    let mut errors = StdSink::new(Hushed {
        writer: told,
        is_closed,
    });
    let columns = columns(rt);
    run_request(
        rt.alloc(),
        request,
        columns,
        &mut folder,
        &mut sink,
        &mut faults,
        &mut errors,
    )
}

// How wide the terminal is, as the environment says; 0 where it does not.
fn columns(rt: &HostRuntime) -> u32 {
    match env::var(rt, "COLUMNS") {
        Ok(text) => text.as_str().parse().unwrap_or(0),
        Err(_) => 0,
    }
}
