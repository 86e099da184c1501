//! Runs a command on an input of parts from standard input.
#![tactic(auto)]

use metric_command_lines::{Line, LineFault, command_of};
use metric_io::{StdSink, StdSource};
use metric_kit_program::run_line;
use std::alloc::{AllocError, Global};
use std::env;
use std::io::{BufWriter, ErrorKind, Write};
use std::process::ExitCode;
use std::sync::Wait;
use std::thread::Threads;

fn main(rt: HostRuntime) -> ExitCode {
    ExitCode::from(run_buffered(&rt, &rt, line_of(&rt)))
}

// The command that the words of the command line name.
fn line_of(rt: &HostRuntime) -> Result<Line, LineFault> {
    let owned = words(rt)?;
    let words = borrowed(rt.alloc(), &owned)?;
    command_of(rt.alloc(), &words)
}

// The words of the command line. One that is not UTF-8 is a word of no command.
fn words(rt: &HostRuntime) -> Result<Vec<String>, LineFault> {
    match env::args(rt) {
        Ok(words) => Ok(words.collect(rt.alloc())?),
        Err(error) => match error.kind() {
            ErrorKind::InvalidData => Err(LineFault::Usage),
            _ => Err(LineFault::Memory),
        },
    }
}

// The same words, lent, as the command line is read by.
fn borrowed<'a>(alloc: Global, owned: &'a [String]) -> Result<Vec<&'a str>, AllocError> {
    let mut words = Vec::new(alloc);
    for word in owned {
        words.push(word.as_str())?;
    }
    Ok(words)
}

// Runs a command, and gives the exit status. Only main's own handle may start threads.
fn run_buffered<T: Threads + Wait + Sync>(
    threads: &T,
    rt: &HostRuntime,
    line: Result<Line, LineFault>,
) -> u8 {
    match BufWriter::new(rt.alloc(), rt.stdout()) {
        Ok(output) => run_into(threads, rt, line, output),
        Err(_) => run_into(threads, rt, Err(LineFault::Memory), rt.stdout()),
    }
}

// Runs a command from standard input into a writer, and tells on standard error why it stops.
fn run_into<T: Threads + Wait + Sync, W: Write + Drop>(
    threads: &T,
    rt: &HostRuntime,
    line: Result<Line, LineFault>,
    output: W,
) -> u8 {
    let mut source = StdSource::new(rt.stdin());
    let mut sink = StdSink::new(output);
    let mut errors = StdSink::new(rt.stderr());
    run_line(
        threads,
        rt.alloc(),
        line,
        &mut source,
        &mut sink,
        &mut errors,
    )
}
