//! Texts written part by part, so that memory holds one part at a time.
ghost use Rattle.std.specs.Prelude.{◌≡◌, OnOk, IfErr};
ghost use Rattle.std.specs.Io.KnownBytes.{Appends};
ghost use Rattle.metric_io.specs.Prefix.{AppendsPrefix};
ghost use Rattle.metric_kit_commands.specs.Written.{IsSinkFault, parts_text};

use crate::fault::KitFault;
use metric_io::{Sink, write_all};
use std::alloc::Global;

/// How the parts of a text are written, each with its number, counted from 0.
pub trait PartWriter<T> {
    ghost use Rattle.std.specs.Prelude.{ℕ, List};

    ghost text: { Self → ℕ → T → List ℕ };

    /// Writes a part to a sink, where it likes by way of a buffer that may hold an earlier one.
    fn write_part<W: Sink>(
        &self,
        buffer: &mut Vec<u8>,
        sink: &mut W,
        number: u64,
        part: &T,
    ) -> Result<(), KitFault>
        ensures ok { OnOk result (Appends (W.contents sink.old) (W.contents sink.new)
            (text self.now number part.now)) }
        ensures prefix { AppendsPrefix (W.contents sink.old) (W.contents sink.new)
            (text self.now number part.now) }
        ensures broken { IfErr result
            (IsSinkFault (W.failures sink.old) (W.failures sink.new)) }
        ensures counted { OnOk result (W.failures sink.new ≡ W.failures sink.old) };
}

/// Writes each part to a sink.
pub fn write_parts<T, P: PartWriter<T>, W: Sink>(
    alloc: Global,
    sink: &mut W,
    writer: &P,
    parts: &[T],
) -> Result<(), KitFault>
    ensures ok { OnOk result (Appends (W.contents sink.old) (W.contents sink.new)
        (parts_text (P.text writer.now) parts.now)) }
    ensures prefix { AppendsPrefix (W.contents sink.old) (W.contents sink.new)
        (parts_text (P.text writer.now) parts.now) }
    ensures broken { IfErr result (IsSinkFault (W.failures sink.old) (W.failures sink.new)) }
    ensures counted { OnOk result (W.failures sink.new ≡ W.failures sink.old) }
{
    let mut buffer = Vec::new(alloc);
    for (number, part) in parts.iter().enumerate() {
        writer.write_part(&mut buffer, sink, number as u64, part)?;
    }
    Ok(())
}

/// Writes a text to a sink.
pub fn write_text<W: Sink>(sink: &mut W, text: &[u8]) -> Result<(), KitFault>
    ensures ok { OnOk result (Appends (W.contents sink.old) (W.contents sink.new) text.now) }
    ensures prefix { AppendsPrefix (W.contents sink.old) (W.contents sink.new) text.now }
    ensures broken { IfErr result (IsSinkFault (W.failures sink.old) (W.failures sink.new)) }
    ensures counted { OnOk result (W.failures sink.new ≡ W.failures sink.old) }
{
    write_all(sink, text)?;
    Ok(())
}
