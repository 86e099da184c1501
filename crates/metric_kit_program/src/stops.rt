//! Why the program stops, told by a line and by its exit status.
ghost use Rattle.std.specs.Prelude.{◌≡◌, ◌++◌, IfErr, OnOk, codes};
ghost use Rattle.std.specs.Io.KnownBytes.{Appends};
ghost use Rattle.metric_io.specs.Counts.{HasFailed};
ghost use Rattle.metric_io.specs.Prefix.{AppendsPrefix};
ghost use Rattle.metric_kit_commands.specs.Commands.{sink_run};
ghost use Rattle.metric_kit_commands.specs.Faults.{status_of};
ghost use Rattle.metric_kit_program.specs.Programs.{IsEndTold, IsTold, TellsLine, exit_status, usage_line, usage_status};

use metric_io::{Broken, Sink, write_all};
use metric_kit_commands::KitFault;
use std::alloc::Global;

// The exit status where a command is done.
const DONE: u8 = 0;

// The exit status where the words name no command.
const USAGE: u8 = 2;

/// Tells why a command stops, where it does, and gives the exit status.
pub(crate) fn tell_end<E: Sink>(alloc: Global, end: Result<(), KitFault>, errors: &mut E) -> u8
    ensures told { IsEndTold end (sink_run E.contents E.failures errors.old errors.new) }
    ensures status { result ≡ exit_status end }
{
    match end {
        Ok(()) => DONE,
        Err(fault) => stop(alloc, fault, errors),
    }
}

/// Tells that the words of a command line name no command, and gives the exit status.
pub(crate) fn tell_usage<E: Sink>(errors: &mut E) -> u8
    ensures told { IsTold usage_line (sink_run E.contents E.failures errors.old errors.new) }
    ensures status { result ≡ usage_status }
{
    tell(errors, "refused: usage");
    USAGE
}

/// Tells a fault, and gives its exit status. When out of memory for its line, that is reported.
pub(crate) fn stop<E: Sink>(alloc: Global, fault: KitFault, errors: &mut E) -> u8
    ensures told { TellsLine (sink_run E.contents E.failures errors.old errors.new) }
    ensures status { result ≡ status_of fault }
{
    tell_fault(alloc, &fault, errors);
    fault.status()
}

fn tell_fault<E: Sink>(alloc: Global, fault: &KitFault, errors: &mut E)
    ensures { TellsLine (sink_run E.contents E.failures errors.old errors.new) }
{
    match fault.line(alloc) {
        Ok(line) => tell(errors, line.as_str()),
        Err(_) => tell(errors, "refused: memory"),
    }
}

// Writes a line as far as the sink takes it. What becomes of it changes nothing else.
fn tell<E: Sink>(errors: &mut E, line: &str)
    ensures { IsTold line.now (sink_run E.contents E.failures errors.old errors.new) }
{
    let _written = write_line(errors, line);
}

// Writes a line and its end.
fn write_line<E: Sink>(errors: &mut E, line: &str) -> Result<(), Broken>
    ensures whole { OnOk result (Appends (E.contents errors.old) (E.contents errors.new)
        (line.now ++ codes "\n")) }
    ensures prefix { AppendsPrefix (E.contents errors.old) (E.contents errors.new)
        (line.now ++ codes "\n") }
    ensures broken { IfErr result (λ _. HasFailed (E.failures errors.old) (E.failures errors.new)) }
{
    write_all(errors, line.as_bytes())?;
    write_all(errors, b"\n")?;
    errors.flush()?;
    Ok(())
}
