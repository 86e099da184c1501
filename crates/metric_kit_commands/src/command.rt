//! What a command is, and how one runs.
ghost use Rattle.std.specs.Prelude.{◌≡◌, OnOk, IfOk, IfErr, IsSome, IsTrue};
ghost use Rattle.std.specs.Io.KnownBytes.{Appends};
ghost use Rattle.metric_io.specs.Prefix.{AppendsPrefix};
ghost use Rattle.metric_kit_commands.specs.Commands.{HasNeeded, IsAnswerTo, RunsCommand, RunsParts, sink_run, source_run};
ghost use Rattle.metric_kit_commands.specs.Faults.{IsOfInput};
ghost use Rattle.metric_kit_commands.specs.Written.{IsSinkFault};

use crate::fault::KitFault;
use metric_io::{Sink, Source, read_all};
use metric_parts::{Needs, Parts, parts_of};
use metric_text::lines;
use std::alloc::Global;

/// What a command makes of the parts of an input, and how it writes that.
pub(crate) trait Command {
    ghost use Rattle.std.specs.Prelude.{ℕ, List};
    ghost use Rattle.metric_text.specs.Lines.{lines_of};
    ghost use Rattle.metric_parts.specs.Input.{IsFirstFault as IsFaultyLine};
    ghost use Rattle.metric_parts.specs.Kept.{IsRead};
    ghost use Rattle.metric_parts.specs.declared.needs.Needs.{Needs as Needed};
    ghost use Rattle.metric_parts.specs.declared.parts.Parts.{Parts as Read};
    ghost use Rattle.metric_kit_commands.specs.declared.fault.KitFault.{KitFault as Fault};
    ghost use Rattle.metric_kit_commands.specs.declared.fault.KitFault.TheVariants.{Input, Memory};

    type Answer: Drop;

    ghost needed: { Self → Needed };

    ghost is_answer: { Self → Read → Self.Answer → Type 0 };

    ghost is_fault: { Self → Fault → Read → Type 0 };

    ghost is_due: { Self → Read → List ℕ → Type 0 };

    ghost is_first_fault: { Self → List ℕ → Fault → Type 0 };

    ghost text: { Self → Read → Self.Answer → List ℕ };

    /// Which parts of an input the command needs.
    fn needed_parts(&self) -> Needs
        ensures { result ≡ needed self.now };

    /// The answer to the parts of an input.
    fn answer(&self, alloc: Global, parts: &Parts<'_>) -> Result<Self::Answer, KitFault>
        requires certificate { IsTrue (needed self.now).certificate
            → IsSome parts.now.certificate }
        requires script { IsTrue (needed self.now).script → IsSome parts.now.script }
        ensures ok { IfOk result (is_answer self.now parts.now) }
        ensures first { IfErr result (λ fault. is_fault self.now fault parts.now) }
        ensures own { IfErr result IsOfInput };

    /// Writes the text of the answer to the parts of an input.
    fn write<W: Sink>(
        &self,
        alloc: Global,
        sink: &mut W,
        parts: &Parts<'_>,
        answer: Self::Answer,
    ) -> Result<(), KitFault>
        requires { is_answer self.now parts.now answer }
        ensures ok { OnOk result (Appends (W.contents sink.old) (W.contents sink.new)
            (text self.now parts.now answer)) }
        ensures prefix { AppendsPrefix (W.contents sink.old) (W.contents sink.new)
            (text self.now parts.now answer) }
        ensures broken { IfErr result (IsSinkFault (W.failures sink.old) (W.failures sink.new)) }
        ensures counted { OnOk result (W.failures sink.new ≡ W.failures sink.old) };

    // The text of an answer to the parts is due of them.
    ghost answered: { (command : Self) (read : Read) (answer : Self.Answer)
        → is_answer command read answer → is_due command read (text command read answer) };

    // A fault of the parts is the first of the input.
    ghost refused: { (command : Self) (input : List ℕ) (read : Read) (fault : Fault)
        → IsRead (needed command) (lines_of input) read → is_fault command fault read
        → is_first_fault command input fault };

    // So is a line with which no input goes on.
    ghost unread: { (command : Self) (input : List ℕ) (line : ℕ)
        → IsFaultyLine (needed command) (lines_of input) line
        → is_first_fault command input (Input line) };

    // Out of memory may stand in place of any fault.
    ghost unremembered: { (command : Self) (input : List ℕ)
        → is_first_fault command input Memory };
}

/// Reads an input, and writes the text of the command's answer.
pub(crate) fn run_whole<C: Command, R: Source, W: Sink>(
    alloc: Global,
    command: &C,
    source: &mut R,
    sink: &mut W,
) -> Result<(), KitFault>
    ensures { RunsCommand (IsAnswerTo (C.needed command.now) (C.is_due command.now))
        (C.is_first_fault command.now)
        (source_run R.remaining R.counts source.old source.new)
        (sink_run W.contents W.failures sink.old sink.new) result }
{
    let input = read_all(alloc, source)?;
    let lines = lines(alloc, &input)?;
    let parts = parts_of(alloc, &lines, command.needed_parts())?;
    let answer = command.answer(alloc, &parts)?;
    write_answer(alloc, command, sink, &parts, answer)
}

/// Writes the text of the command's answer to parts that were read.
pub(crate) fn run_parts<C: Command, W: Sink>(
    alloc: Global,
    command: &C,
    parts: &Parts<'_>,
    sink: &mut W,
) -> Result<(), KitFault>
    requires { HasNeeded (C.needed command.now) parts.now }
    ensures { RunsParts (C.is_due command.now parts.now)
        (λ fault. C.is_fault command.now fault parts.now)
        (sink_run W.contents W.failures sink.old sink.new) result }
{
    let answer = command.answer(alloc, parts)?;
    write_answer(alloc, command, sink, parts, answer)
}

/// The answer of a command to an input.
pub(crate) fn read_and_answer<C: Command>(
    alloc: Global,
    command: &C,
    input: &[u8],
) -> Result<C::Answer, KitFault>
    ensures ok { IfOk result
        (IsAnswerTo (C.needed command.now) (C.is_answer command.now) input.now) }
    ensures first { IfErr result (C.is_first_fault command.now input.now) }
    ensures own { IfErr result IsOfInput }
{
    let lines = lines(alloc, input)?;
    let parts = parts_of(alloc, &lines, command.needed_parts())?;
    command.answer(alloc, &parts)
}

// Writes the text of an answer, and passes on what the sink holds back.
#[tactic(auto, using(metric_io::specs::Prefix::prefixes))]
fn write_answer<C: Command, W: Sink>(
    alloc: Global,
    command: &C,
    sink: &mut W,
    parts: &Parts<'_>,
    answer: C::Answer,
) -> Result<(), KitFault>
    requires { C.is_answer command.now parts.now answer }
    ensures ok { OnOk result (Appends (W.contents sink.old) (W.contents sink.new)
        (C.text command.now parts.now answer)) }
    ensures prefix { AppendsPrefix (W.contents sink.old) (W.contents sink.new)
        (C.text command.now parts.now answer) }
    ensures broken { IfErr result (IsSinkFault (W.failures sink.old) (W.failures sink.new)) }
{
    command.write(alloc, sink, parts, answer)?;
    sink.flush()?;
    Ok(())
}
