//! An exporter of texts that opens a new sink after a failure.
ghost use Rattle.std.specs.Prelude.{◌≡◌, ◌≢◌, IsErrOf, IsOkUnless, None, Result};
ghost use Rattle.metric_io.specs.declared.devices.Broken.{Broken};
ghost use Rattle.metric_io.specs.Counts.{HasFailed};
ghost use Rattle.metric_export.specs.Exports.{refuses};
ghost use Rattle.metric_export.specs.Reopens.{ExportsAnew, FindsSink, FlushesOpen, FlushesReopening, Reopens, ShutsReopeningDown};
ghost use Rattle.metric_export.specs.Reopens.{WritesText, WritesToFound};
ghost use Rattle.metric_export.specs.States.{Answers};

use crate::batch::write_encoded;
use crate::belonging::own_batch;
use crate::encoding::{Encoding, Plain};
use crate::exporter::MetricExporter;
use crate::fault::ExportFault;
use crate::queued::failures_after;
use crate::state::ExporterState;
use metric_history::Batch;
use metric_io::{Broken, Sink};
use metric_plan::Plan;
use std::alloc::Global;
use std::marker::Model;

/// What opens sinks, as a log's next file or a new connection.
///
/// Contracts see what it says of its calls, by which a caller can promise that each sink that it writes to is one that
/// was given.
pub trait OpenSink<W> {
    // What opening does to the opener, by the answer.
    ghost opens: { Self → Self → Result W Broken → Type 0 };

    /// A new sink, or [`Broken`] where none can be opened now. It may be asked again.
    fn open(&mut self) -> Result<W, Broken>
        ensures { opens self.old self.new result };
}

/// An exporter that writes each batch to a sink, as its text or in another encoding, and after a failure opens a
/// new one at the next export.
///
/// A sink that failed is let go, so what was written to a sink is whole texts, one after the other, but for the last,
/// which may be a prefix. A batch whose export failed is not written again: a [`Queued`](crate::Queued) over this
/// exporter tries that. A file that is renamed meanwhile is written on: [`reopen`](ReopeningExporter::reopen) lets it go.
/// Contracts see the encoding, what opens the sinks, the open sink, the count of the calls that failed, and the state.
#[derive(Drop)]
pub struct ReopeningExporter<O, W, E = Plain> {
    encoding: E,
    opener: O,
    sink: Option<W>,
    failures: u64,
    state: ExporterState,
}

impl<O, W, E> Model for ReopeningExporter<O, W, E> {
    ghost use Rattle.metric_export.specs.Reopens.{ReopeningValue};

    ghost Value = { ReopeningValue O W E };

    ghost view = { λ e. record {
      encoding = e.encoding;
      opener = e.opener;
      sink = e.sink;
      failures = e.failures;
      state = e.state;
    } };
}

impl<O: OpenSink<W>, W: Sink + Drop> ReopeningExporter<O, W, Plain> {
    /// An exporter of texts that opens its sinks by this opener, the first one at the first export.
    pub fn new(opener: O) -> ReopeningExporter<O, W, Plain>
        ensures { result ≡ record {
          encoding = record {};
          opener = opener;
          sink = None;
          failures = 0;
          state = ExporterState.Open;
        } }
    {
        ReopeningExporter::of(Plain, opener)
    }
}

impl<O: OpenSink<W>, W: Sink + Drop, E: Encoding + Drop> ReopeningExporter<O, W, E> {
    /// An exporter in this encoding that opens its sinks by this opener, the first one at the first export.
    pub fn of(encoding: E, opener: O) -> ReopeningExporter<O, W, E>
        ensures { result ≡ record {
          encoding = encoding;
          opener = opener;
          sink = None;
          failures = 0;
          state = ExporterState.Open;
        } }
    {
        ReopeningExporter {
            encoding,
            opener,
            sink: None,
            failures: 0,
            state: ExporterState::Open,
        }
    }

    /// Flushes the sink that is open, and lets it go: the next export opens a new one. A file that is renamed, as one that
    /// is rotated, is no failure of its sink, which writes on to it until this call.
    ///
    /// # Errors
    ///
    /// [`ExportFault::Write`] where the flush failed, and the sink is let go all the same; [`ExportFault::ShutDown`] after
    /// a shutdown.
    pub fn reopen(&mut self) -> Result<(), ExportFault>
        ensures answer { Answers self.old.state
            (HasFailed self.old.failures self.new.failures) result }
        ensures gives { Reopens W.flush_gives self.old self.new result }
    {
        self.force_flush()?;
        self.sink = None;
        Ok(())
    }

    /// The opener, and the sink that is open.
    pub fn into_parts(self) -> (O, Option<W>)
        ensures opener { result.0 ≡ self.opener }
        ensures sink { result.1 ≡ self.sink }
    {
        let ReopeningExporter {
            encoding: _,
            opener,
            sink,
            failures: _,
            state: _,
        } = self;
        (opener, sink)
    }
}

impl<O: OpenSink<W>, W: Sink + Drop, E: Encoding + Drop> MetricExporter
    for ReopeningExporter<O, W, E> {
    ghost text = { λ e. E.text e.encoding };

    // One sink comes after the other.
    ghost contents = { λ _. None };

    ghost failures = { λ e. e.failures };

    ghost state = { λ e. e.state };

    ghost takes = { λ e. E.takes e.encoding };

    ghost export_gives = { ExportsAnew E.text E.takes O.opens W.contents W.failures };

    ghost flush_gives = { FlushesReopening W.flush_gives };

    ghost shutdown_gives = { ShutsReopeningDown W.flush_gives };

    fn takes(&self, plan: u64, reader: u32) -> bool {
        self.encoding.takes(plan, reader)
    }

    fn export(&mut self, alloc: Global, plan: &Plan, batch: &Batch) -> Result<(), ExportFault> {
        self.state.admit()?;
        own_batch(plan, batch, self.encoding.takes(batch.plan, batch.reader))?;
        let found = take_sink(&mut self.opener, &mut self.sink);
        let (left, answer) = write_to_found(alloc, &self.encoding, plan, batch, found);
        self.sink = left;
        self.failures = failures_after(self.failures, &answer);
        answer
    }

    fn force_flush(&mut self) -> Result<(), ExportFault> {
        self.state.admit()?;
        let (left, answer) = flush(self.sink.take());
        self.sink = left;
        self.failures = failures_after(self.failures, &answer);
        answer
    }

    fn retry(&mut self, _alloc: Global, _plan: &Plan) -> Result<(), ExportFault> {
        Ok(())
    }

    fn shutdown(&mut self) -> Result<(), ExportFault> {
        let answer = self.force_flush();
        self.state = ExporterState::ShutDown;
        answer
    }
}

// Takes the sink that is open, or else a new one.
fn take_sink<O: OpenSink<W>, W>(opener: &mut O, sink: &mut Option<W>) -> Result<W, Broken>
    ensures { FindsSink O.opens opener.old opener.new sink.old result }
{
    match sink.take() {
        Some(sink) => Ok(sink),
        None => opener.open(),
    }
}

// Writes a batch to the sink that was found. The sink that stays open, and the answer.
fn write_to_found<W: Sink + Drop, E: Encoding>(
    alloc: Global,
    encoding: &E,
    plan: &Plan,
    batch: &Batch,
    found: Result<W, Broken>,
) -> (Option<W>, Result<(), ExportFault>)
    requires { refuses (E.takes encoding.now) plan.now batch.now ≡ None }
    ensures written { WritesToFound W.contents W.failures (E.text encoding.now plan.now batch.now)
        found result.0 result.1 }
    ensures not_shut_down { IsErrOf result.1 ExportFault.ShutDown → ⊥ }
{
    match found {
        Ok(sink) => write_to(alloc, encoding, plan, batch, sink),
        Err(_) => (None, Err(ExportFault::Write)),
    }
}

// Writes a batch to a sink, which stays open unless it failed.
fn write_to<W: Sink + Drop, E: Encoding>(
    alloc: Global,
    encoding: &E,
    plan: &Plan,
    batch: &Batch,
    sink: W,
) -> (Option<W>, Result<(), ExportFault>)
    requires { refuses (E.takes encoding.now) plan.now batch.now ≡ None }
    ensures written { WritesText W.contents W.failures (E.text encoding.now plan.now batch.now)
        sink result.0 result.1 }
    ensures not_shut_down { IsErrOf result.1 ExportFault.ShutDown → ⊥ }
{
    let mut sink = sink;
    match write_encoded(alloc, &mut sink, encoding, plan, batch) {
        Ok(()) => (Some(sink), Ok(())),
        Err(ExportFault::Write) => (None, Err(ExportFault::Write)),
        Err(ExportFault::ShutDown) => (Some(sink), Err(ExportFault::ShutDown)),
        Err(ExportFault::Memory) => (Some(sink), Err(ExportFault::Memory)),
        Err(ExportFault::Kept) => (Some(sink), Err(ExportFault::Kept)),
        Err(ExportFault::OtherPlan) => (Some(sink), Err(ExportFault::OtherPlan)),
        Err(ExportFault::OtherReader) => (Some(sink), Err(ExportFault::OtherReader)),
    }
}

// Flushes the sink that is open, which stays open unless that fails.
fn flush<W: Sink + Drop>(sink: Option<W>) -> (Option<W>, Result<(), ExportFault>)
    ensures flushed { FlushesOpen W.flush_gives sink result.0 result.1 }
    ensures write { IsOkUnless result.1 ExportFault.Write }
{
    let Some(mut sink) = sink else {
        return (None, Ok(()));
    };
    match sink.flush() {
        Ok(()) => (Some(sink), Ok(())),
        Err(_) => (None, Err(ExportFault::Write)),
    }
}
