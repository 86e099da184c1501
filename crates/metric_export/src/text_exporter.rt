//! An exporter that writes batches to a sink.
ghost use Rattle.std.specs.Prelude.{◌≡◌, ◌≢◌, Err, IsErrOf, IsOkUnless, None, OnOk, Some};
ghost use Rattle.std.specs.Io.KnownBytes.{Keeps};
ghost use Rattle.metric_io.specs.Counts.{HasFailed, CountsFlush};
ghost use Rattle.metric_export.specs.ExporterCalls.{ExportsText, FlushesOnce, FlushesText, ShutsTextDown};
ghost use Rattle.metric_export.specs.Exports.{Exports, KeepsNone, refuses};
ghost use Rattle.metric_export.specs.States.{Answers, refused_in, state_after};
ghost use Rattle.metric_export.specs.declared.fault.ExportFault.{ExportFault};

use crate::batch::write_encoded;
use crate::encoding::{Encoding, Plain};
use crate::exporter::MetricExporter;
use crate::fault::ExportFault;
use crate::state::ExporterState;
use metric_history::Batch;
use metric_io::Sink;
use metric_plan::Plan;
use std::alloc::Global;
use std::marker::Model;

/// An exporter that writes each batch to a sink, as its text or in another encoding.
///
/// After a write or a flush that failed it asks the sink no more: what the sink holds ends with a
/// prefix of a text, and each later call answers [`ExportFault::Write`]. Contracts see it as the
/// encoding, the sink and its state.
#[derive(Drop)]
pub struct TextExporter<W, E = Plain> {
    encoding: E,
    sink: W,
    state: ExporterState,
}

impl<W, E> Model for TextExporter<W, E> {
    ghost use Rattle.metric_export.specs.States.{TextExporterValue};

    ghost Value = { TextExporterValue W E };

    ghost view = { λ e. record { encoding = e.encoding; sink = e.sink; state = e.state } };
}

impl<W: Sink> TextExporter<W, Plain> {
    /// An exporter that writes texts to this sink.
    pub fn new(sink: W) -> TextExporter<W, Plain>
        ensures { result ≡ record {
          encoding = record {};
          sink = sink;
          state = ExporterState.Open;
        } }
    {
        TextExporter::of(Plain, sink)
    }
}

impl<W: Sink, E: Encoding + Drop> TextExporter<W, E> {
    /// An exporter that writes in this encoding to this sink.
    pub fn of(encoding: E, sink: W) -> TextExporter<W, E>
        ensures { result ≡ record {
          encoding = encoding;
          sink = sink;
          state = ExporterState.Open;
        } }
    {
        TextExporter {
            encoding,
            sink,
            state: ExporterState::Open,
        }
    }

    /// The sink, with what it took.
    pub fn into_inner(self) -> W
        ensures { result ≡ self.sink }
    {
        let TextExporter {
            encoding: _,
            sink,
            state: _,
        } = self;
        sink
    }

    /// The sink, to look at what it took.
    pub fn sink(&self) -> &W
        ensures { result.now ≡ self.now.sink }
    {
        &self.sink
    }

    /// Whether the exporter still takes calls.
    pub fn state(&self) -> ExporterState
        ensures { result ≡ self.now.state }
    {
        self.state
    }
}

impl<W: Sink, E: Encoding + Drop> MetricExporter for TextExporter<W, E> {
    ghost text = { λ e. E.text e.encoding };

    ghost contents = { λ e. W.contents e.sink };

    ghost failures = { λ e. W.failures e.sink };

    ghost state = { λ e. e.state };

    ghost takes = { λ e. E.takes e.encoding };

    ghost export_gives = { ExportsText E.text E.takes W.contents W.failures };

    ghost flush_gives = { FlushesText W.flush_gives };

    ghost shutdown_gives = { ShutsTextDown W.contents W.failures W.flush_gives };

    fn takes(&self, plan: u64, reader: u32) -> bool {
        self.encoding.takes(plan, reader)
    }

    fn export(&mut self, alloc: Global, plan: &Plan, batch: &Batch) -> Result<(), ExportFault>
        ensures text { Exports (W.contents self.old.sink) (W.contents self.new.sink)
            (E.text self.old.encoding plan.now batch.now) result }
        ensures encoding { self.new.encoding ≡ self.old.encoding }
        ensures answer { Answers self.old.state
            (HasFailed (W.failures self.old.sink) (W.failures self.new.sink)) result }
        ensures state { self.new.state ≡ state_after self.old.state result }

        // Ok tells that no write failed, and without a write the sink is as it was.
        ensures counted { OnOk result
            (W.failures self.new.sink ≡ W.failures self.old.sink) }
        ensures unwritten { self.old.state ≢ ExporterState.Open → self.new ≡ self.old }
        ensures memory { IsErrOf result ExportFault.Memory → self.new ≡ self.old }
        ensures others { (why : ExportFault)
            → refuses (E.takes self.old.encoding) plan.now batch.now ≡ Some why
            → result ≡ Err (refused_in why self.old.state) }
        ensures others_unwritten { refuses (E.takes self.old.encoding) plan.now batch.now ≢ None
            → self.new ≡ self.old }
        ensures unkept { KeepsNone (refuses (E.takes self.old.encoding) plan.now batch.now) result }
    {
        self.state.admit()?;
        let answer = write_encoded(alloc, &mut self.sink, &self.encoding, plan, batch);
        self.state = self.state.after(&answer);
        answer
    }

    fn force_flush(&mut self) -> Result<(), ExportFault>
        ensures text { Keeps (W.contents self.old.sink) (W.contents self.new.sink) }
        ensures encoding { self.new.encoding ≡ self.old.encoding }
        ensures answer { Answers self.old.state
            (HasFailed (W.failures self.old.sink) (W.failures self.new.sink)) result }
        ensures state { self.new.state ≡ state_after self.old.state result }

        ensures counted { OnOk result
            (W.failures self.new.sink ≡ W.failures self.old.sink) }
        ensures unwritten { self.old.state ≢ ExporterState.Open → self.new ≡ self.old }
        ensures memory { IsErrOf result ExportFault.Memory → ⊥ }
        ensures flushed { self.old.state ≡ ExporterState.Open →
            FlushesOnce W.flush_gives self.old.sink self.new.sink result }
    {
        self.state.admit()?;
        let answer = flushed(&mut self.sink);
        self.state = self.state.after(&answer);
        answer
    }

    fn retry(&mut self, _alloc: Global, _plan: &Plan) -> Result<(), ExportFault> {
        Ok(())
    }

    fn shutdown(&mut self) -> Result<(), ExportFault>
        ensures text { Keeps (W.contents self.old.sink) (W.contents self.new.sink) }
        ensures encoding { self.new.encoding ≡ self.old.encoding }
        ensures answer { Answers self.old.state
            (HasFailed (W.failures self.old.sink) (W.failures self.new.sink)) result }
        ensures state { self.new.state ≡ ExporterState.ShutDown }

        ensures counted { OnOk result
            (W.failures self.new.sink ≡ W.failures self.old.sink) }
        ensures unwritten { self.old.state ≢ ExporterState.Open →
            self.new.sink ≡ self.old.sink }
        ensures memory { IsErrOf result ExportFault.Memory → ⊥ }
        ensures flushed { self.old.state ≡ ExporterState.Open →
            FlushesOnce W.flush_gives self.old.sink self.new.sink result }
    {
        let answer = self.force_flush();
        self.state = ExporterState::ShutDown;
        answer
    }
}

// Flushes a sink.
fn flushed<W: Sink>(sink: &mut W) -> Result<(), ExportFault>
    ensures text { Keeps (W.contents sink.old) (W.contents sink.new) }
    ensures failures { CountsFlush (W.failures sink.old) (W.failures sink.new) result }
    ensures write { IsOkUnless result ExportFault.Write }
    ensures flushed { FlushesOnce W.flush_gives sink.old sink.new result }
{
    match sink.flush() {
        Ok(()) => Ok(()),
        Err(_) => Err(ExportFault::Write),
    }
}
