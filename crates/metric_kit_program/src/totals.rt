//! The texts of totals, written.
ghost use Rattle.std.specs.Prelude.{◌≡◌, ◌++◌, OnOk, IfErr};
ghost use Rattle.std.specs.Io.KnownBytes.{Appends};
ghost use Rattle.metric_io.specs.Prefix.{AppendsPrefix};
ghost use Rattle.metric_kit_program.specs.Threading.{sum_text, total_text, totals_text};
ghost use Rattle.metric_kit_commands.specs.Written.{IsSinkFault};

use itoa::Buffer;
use metric_io::Sink;
use metric_kit_commands::{KitFault, PartWriter, write_parts, write_text};
use metric_provider::Total;
use metric_text::{push_byte, push_numbered, push_text};
use std::alloc::{AllocError, Global};

// Writes a sum, and the end of its line.
#[tactic(auto, unfolding(crate::specs::Threading::sum_text))]
fn push_sum(out: &mut Vec<u8>, sum: &i128) -> Result<(), AllocError>
    ensures { OnOk result (out.new.items ≡ out.old.items ++ sum_text sum.now) }
{
    push_text(out, " sum ")?;
    push_text(out, Buffer::new().format(*sum))?;
    push_byte(out, b'\n')
}

// Writes the line of an instrument's total.
fn push_total(out: &mut Vec<u8>, instrument: u64, total: &Total) -> Result<(), AllocError>
    ensures { OnOk result (out.new.items ≡ out.old.items ++ total_text instrument total.now) }
{
    push_numbered(out, "instrument ", instrument)?;
    push_numbered(out, " count ", total.count)?;
    push_sum(out, &total.sum)
}

/// Writes the line of each total in order, and passes on what the sink holds back.
#[tactic(auto, using(metric_io::specs::Prefix::prefixes))]
pub(crate) fn write_totals<W: Sink>(
    alloc: Global,
    sink: &mut W,
    totals: &[Total],
) -> Result<(), KitFault>
    ensures ok { OnOk result (Appends (W.contents sink.old) (W.contents sink.new)
        (totals_text totals.now)) }
    ensures prefix { AppendsPrefix (W.contents sink.old) (W.contents sink.new)
        (totals_text totals.now) }
    ensures broken { IfErr result (IsSinkFault (W.failures sink.old) (W.failures sink.new)) }
{
    write_parts(alloc, sink, &TotalLines, totals)?;
    sink.flush()?;
    Ok(())
}

// How the totals of instruments are written.
struct TotalLines;

impl PartWriter<Total> for TotalLines {
    ghost use Rattle.metric_kit_program.specs.Threading.{total_text as text_of};

    ghost text = { λ _. text_of };

    #[tactic(auto, using(metric_io::specs::Prefix::prefixes))]
    fn write_part<W: Sink>(
        &self,
        buffer: &mut Vec<u8>,
        sink: &mut W,
        number: u64,
        total: &Total,
    ) -> Result<(), KitFault> {
        buffer.clear();
        push_total(buffer, number, total)?;
        write_text(sink, buffer)
    }
}
