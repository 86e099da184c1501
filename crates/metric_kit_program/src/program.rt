//! Command lines, run.
ghost use Rattle.std.specs.Prelude.{◌≡◌, IfErr, IfOk, OnErr};
ghost use Rattle.metric_kit_commands.specs.Commands.{sink_run, source_run};
ghost use Rattle.metric_kit_program.specs.Programs.{IsUnasked, RunsLine, RunsTold};

use crate::options::ThreadsOptions;
use crate::stops::{stop, tell_end, tell_usage};
use crate::threads::threads_run;
use metric_command_lines::{Line, LineFault};
use metric_io::{Sink, Source};
use metric_kit_commands::{KitFault, ReplayOptions, check_run, make_run, replay, show_run};
use std::alloc::Global;
use std::sync::Wait;
use std::thread::Threads;

/// Runs the command that a command line asks for, from a source and into a sink, tells on `errors` by one line why it
/// stops, and gives the program's exit status: 0 where the command is done, 1 where the input is refused, 2 where the
/// words name no command, 3 where the input is unreadable, 4 when out of memory, 5 where the sink failed. The status
/// stands whatever becomes of the line. Where there is no command, nothing is read and nothing written but the line.
pub fn run_line<R: Threads + Wait + Sync, S: Source, W: Sink, E: Sink>(
    rt: &R,
    alloc: Global,
    line: Result<Line, LineFault>,
    source: &mut S,
    sink: &mut W,
    errors: &mut E,
) -> u8
    ensures runs { IfOk line (λ asked. RunsTold asked
        (source_run S.remaining S.counts source.old source.new)
        (sink_run W.contents W.failures sink.old sink.new)
        (sink_run E.contents E.failures errors.old errors.new) result) }
    ensures unasked { IfErr line (λ fault. IsUnasked fault
        (sink_run E.contents E.failures errors.old errors.new) result) }
    ensures unread { OnErr line (source.new ≡ source.old) }
    ensures unwritten { OnErr line (sink.new ≡ sink.old) }
{
    match line {
        Ok(line) => {
            let end = run_command(rt, alloc, line, source, sink);
            tell_end(alloc, end, errors)
        }
        Err(LineFault::Usage) => tell_usage(errors),
        Err(LineFault::Memory) => stop(alloc, KitFault::Memory, errors),
    }
}

// Runs a command.
fn run_command<R: Threads + Wait + Sync, S: Source, W: Sink>(
    rt: &R,
    alloc: Global,
    line: Line,
    source: &mut S,
    sink: &mut W,
) -> Result<(), KitFault>
    ensures { RunsLine line (source_run S.remaining S.counts source.old source.new)
        (sink_run W.contents W.failures sink.old sink.new) result }
{
    match line {
        Line::Make => make_run(alloc, source, sink),
        Line::Check => check_run(alloc, source, sink),
        Line::Show => show_run(alloc, source, sink),
        Line::Replay { trial, audit } => {
            replay(alloc, ReplayOptions { trial, audit }, source, sink)
        }
        Line::Threads { each } => threads_run(rt, alloc, ThreadsOptions { each }, source, sink),
    }
}
