//! One crate for a service that records metrics: every call that it needs, in the order in which it meets them.
//!
//! Two texts declare a service: a catalogue says what may be recorded, and a config which metric readers and views
//! there are. This program opens them, records three orders, and prints what was collected:
//!
//! ```text
//! use anyhow::{Context, Result};
//! use metric_sdk::{AnySeat, Attr, Runs, StdSink, counter, open, write_batch};
//! use std::io;
//!
//! const CATALOGUE: &str = "format = 1
//! [[meter]]
//! name = 'shop'
//! [[meter.instrument]]
//! name = 'orders'
//! kind = 'counter'
//! range = [1, 100]
//! key = [{ name = 'country', values = ['de', 'fr'] }]
//! [[recorder]]
//! name = 'main'
//! budget = [{ instrument = 0, amount = 1000 }]
//! ";
//!
//! const CONFIG: &str = "format = 1\n[[reader]]\nname = 'console'\n";
//!
//! fn main(rt: HostRuntime) -> Result<()> {
//!     let (alloc, mut runs) = (rt.alloc(), Runs::new());
//!     let opened = open(&rt, alloc, CATALOGUE, CONFIG, 0, &mut runs)?;
//!     let (provider, mut recorders, mut readers) = opened;
//!     let orders = counter(provider.plan(), "shop", "orders", &["country"])?;
//!     let recorder = recorders.first_mut().context("no recorder")?;
//!     let mut at = recorder.at(&rt, &provider);
//!     for (country, articles) in [("de", 2), ("fr", 1), ("de", 5)] {
//!         at.add(&orders, &[Attr::text("country", country)], articles)?;
//!     }
//!     let reader = readers.first_mut().context("no reader")?;
//!     let batch = reader.collect(&rt, alloc, &provider, orders.number(), 1_000)?;
//!     let mut console = StdSink::new(io::writer(&rt));
//!     write_batch(alloc, &mut console, provider.plan(), &batch)?;
//!     Ok(())
//! }
//! ```
//!
//! The rest of this page follows the life of a service. What calls cost was measured on one machine
//! (`docs/PERFORMANCE.md`).
//!
//! # Open
//!
//! [`open`] reads the two texts, makes a certificate that no limit and no number can overflow, checks it, and starts.
//! It returns a [`MeterProvider`] with a seat for each recorder and each reader, in the order of the texts, or the
//! first [`SetupFault`]. [`now`] gives the moment of the start, and the one [`Runs`] of a process the number of the
//! run. [`diagnosed`] makes what is [`Unopened`] of a fault, in words, with its place.
//!
//! - [`open_certified`] takes a certificate that somebody else made, and does not trust them.
//! - [`open_with_lanes`] gives instruments several locks, so that threads recording on one do not wait for each other.
//! - [`open_audited`] keeps each recording ([Other books](#other-books)).
//!
//! # Look up
//!
//! [`counter`], [`up_down_counter`], [`histogram`] and [`gauge`] find an instrument of the plan by its meter and its
//! name, and compare its kind and its keys with what the service is going to record. They return a [`Handle`] of that
//! kind ([`Counter`] and so on), or, before anything is recorded, [`NoHandle`] with a [`HandleFault`], in words that name
//! the instrument. Code that `wormweekly bind` made of a catalogue asks with [`expected`], by the kind of a mark
//! ([`OfKind`]), whether an instrument is the [`Expected`] one. [`take_recorder`] and [`take_reader`] take a seat out of
//! those that `open` returned.
//!
//! # Record
//!
//! A thread records with a [`Recorder`]: a handle's `add` or `record` takes the value and the [`Attr`]s, each a key
//! with a [`ValueRef`]. A recording that is not counted returns a [`Refusal`], and [`explain_refusal`] its
//! [`Explanation`]. It is never counted in another series, and no new series appears. Attributes that are each
//! declared, but not together, are refused too ([`Refusal::Combination`] of the allowed [`Combinations`]).
//!
//! `seat.at(&rt, &provider)` of [`AnySeat`] is an [`At`]: a seat together with what it records on. Its `add` and
//! `record` name only the rest. If the seat is [`Recorded`], its `during` counts work as in progress until it ends,
//! however it ends.
//!
//! - `Recorder::accepted` says what the seat was [`Told`], and [`left`] how much of its budget is left.
//! - A [`Counted`] seat counts its refusals; handles take it as they take a recorder's (a [`Seat`]).
//! - `known_or` of a handle replaces an undeclared value by a declared one, and `At::add_clamped` and `record_clamped`
//!   record an amount that is out of range as the nearest one that is in range; a [`Replaced`] counts both.
//! - An [`Asking`] seat asks for some of a spare before its budget runs out; `wants_next_run` says when none is left.
//!
//! # Record faster
//!
//! `Handle::bind` looks attributes up once, and `Handle::bind_set` takes the ranks of values that were compared before.
//! The [`Bound`] that they return records without a look-up, and a [`BoundList`] hands on many recordings under one lock.
//! `Bound::timer` gives a [`Timer`], with the [`TimeUnit`] that its histogram is declared in, or a [`TimerFault`];
//! `timed` of an `At` records with it how long work took, or returns a [`TimedFault`].
//!
//! Below both are set keys: `Recorder::admits` gives the [`SetKey`] of attributes, `Recorder::record_set` records with
//! it, and `Recorder::record_sets` records a list of [`Measurement`]s, up to a [`SetsFault`].
//!
//! # Export
//!
//! A [`Periodic`] collects at each [`Tick`] of a [`Ticker`]: a [`ClockTicker`] until its [`StopFlag`] is set, or a
//! [`ListTicker`]. It hands each batch to a [`MetricExporter`], flushes it after each collection, and collects a last
//! time at its end. Its [`PeriodicEnd`] says what it did, with the [`StopCause`] of its ticker. Meanwhile other threads
//! read its [`RunningCounts`], and `StopFlag::wake` makes it export now.
//!
//! A [`TextExporter`] writes each batch with an [`Encoding`]: [`Plain`] is its text, [`OtlpLines`] the lines of a file
//! that the OpenTelemetry Collector reads, and [`OtlpBytes`] what an OTLP receiver takes. The latter two are made for
//! one reader ([`Served`]), or not at all ([`OutletFault`]), and add the attributes of a [`Resource`] (or return a
//! [`ResourceFault`]). `TextExporter::of` and `ReopeningExporter::of` take any encoding.
//!
//! An export can fail with an [`ExportFault`]. A [`Queued`] keeps what was refused and retries it before the next
//! batch, so that the window of a delta reader is not lost; other threads read the [`QueueCounts`] of a [`ToldQueue`].
//! A [`ReopeningExporter`] opens its sink anew, such as an [`AddedFile`].
//!
//! An [`Outlet`] is a reader's seat and one exporter over all runs (or an [`OutletLeft`]); a service has one for each
//! reader ([End](#end)). In it, and in [`collect_each`], a [`RefusedInstrument`] of a [`Collection`] hides no other.
//! [`export_each`] exports a list and says what was [`Handed`] on; [`has_points`] says which batches need not be.
//!
//! An exporter of your own refuses a batch of another plan with [`own_plan`], and with [`own_batch`] one of a reader
//! whose batches it does not take. A batch has the [`StreamPoints`] of each [`Stream`], and a [`Point`] the
//! [`PointValue`] of one series, whose [`attributes`] the plan knows. To collect by hand, a [`Collector`] collects the
//! [`Batch`] of one instrument or of all, up to an [`AllFault`]; [`write_batch`] writes a batch as text, and
//! [`write_encoded`] as bytes.
//!
//! For Prometheus, an [`Exposition`] has the lines of a page in a [`Dialect`], and a [`PageExporter`] hands the whole
//! page of one reader to [`Pages`] after each collection, such as a [`PageFile`] that node_exporter reads. Two attributes of a
//! resource with one label are a [`TargetFault`]. Before anything is recorded, [`expose`] says whether a server would
//! hold each sample of a reader's pages, and [`expose_to_otlp`] whether each boundary leaves as it is, or the first
//! [`ExposureFault`].
//!
//! # Live long
//!
//! Budgets run out. [`headrooms`] says how often each instrument may be recorded: its [`Headroom`].
//! `Provider::roll_over` ends a run and starts the next one of the same plan, with new seats and full budgets, or hands
//! everything back with a [`RollFault`]. [`Service::roll_over`] does so with the readers and their exporters, and
//! returns the [`NextRun`], or what is [`Left`].
//!
//! For what no recorder's budget foresees, an instrument may have a spare. During the run, `Provider::grant` gives some
//! of it to any recorder, and a recorder whose budget is spent ([`Refusal::Budget`]) asks with `Recorder::ask`, until
//! nothing is left ([`Refusal::NoSpare`]). The certificate vouches for the budgets and the spare together.
//! `Recorder::room` says what a recorder has left with its grants, and `Provider::spare_left` what is left of a spare.
//! `has_room` of an `At` says whether there is room for each [`Need`] of a job that makes several recordings, so that
//! the job is begun only if it can be finished.
//!
//! # End
//!
//! A [`Service`] is a provider with the way out of each reader. [`Service::builder`] takes what `open` gave;
//! `ServiceBuilder::tell` pairs a reader with its exporter and a period, or hands both back ([`TellLeft`], with a
//! [`TellFault`]), and `build` names the first reader that is not told and not ignored. So no reader is forgotten,
//! and no exporter gets the batches of two. [`live`] runs workers, each a call of your [`Work`], in threads beside the
//! [`Outlets`], of which [`make_turns`] makes the turns. `Service::force_flush` lets all export now.
//!
//! [`Service::end`] lets each outlet collect a last time, exports, flushes, and finishes the provider: what was
//! [`Ended`]. What is [`Left`] else has each cause, how each reader ended ([`ReaderEnd`], with what was [`Uncollected`]
//! and [`Unexported`]), and the service that goes on where it is [`Unended`], by an [`UnendedFault`].
//! `Provider::finish` alone returns the [`Totals`], a [`Total`] for each instrument, exactly what the recorders were
//! told, or a [`FinishFault`]. `Provider::finish_keeping` also returns the plan, and `Provider::finish_partly` ends a
//! run in which a recorder's seat was lost, with what is [`Partly`] known. Calls that hand things back return them in a
//! tuple with the fault; `?` makes a [`ServiceFault`] of each. What a service hands back is an error as it is.
//!
//! # Files that are wrong
//!
//! [`lint`] returns a [`Remark`] on each thing in the files that looks like a mistake. [`locate_in_catalogue`] and
//! [`locate_in_config`] give the [`Position`] of a fault, and a [`MakeFault`] has the streams or the instrument for
//! which there is no certificate. For people, a [`Diagnosis`] says in one line where a fault is and why, with an
//! [`Excerpt`] of the text: [`diagnose_catalogue`] and [`diagnose_config`] of a [`NamedText`], [`diagnose_make`] and
//! [`diagnose_remark`] of a [`Pair`] of them, [`diagnose_certificate`] and [`diagnose_check`] of a certificate.
//!
//! # Step by step
//!
//! What `open` does, one call at a time:
//!
//! 1. [`Catalogue::open`] and [`Config::read`] return the first fault, a [`CatalogueFault`] or a [`ViewFault`] with its
//!    place.
//! 2. [`make`] returns a [`Certificate`], or a [`MakeFault`]. `Certificate::write` and `Certificate::read` take it from
//!    one machine to another.
//! 3. [`check`] trusts nobody. It returns the certified [`Plan`], or a [`ClaimFault`]: a [`CheckFault`] with its
//!    [`ClaimPlace`].
//! 4. [`start`] makes the [`Provider`] of a plan.
//!
//! [`certified_plan`] and [`vouched_plan`] return the plan of texts. What all of it comes to is one law,
//! [`certified_runs_are_exact`]. A [`Text`] or an [`Items`] is a `String` or a `Vec` that contracts see as a text or a
//! list: read it with `as_str` and `as_slice`.
//!
//! # Other books
//!
//! A provider is generic over the book that keeps the recordings of an instrument, and over a [`Gate`], with which a
//! test holds threads inside a lock. Services use [`Marked`] and [`NoGate`]. [`batches_are_bounded`] says of each
//! batch, over every book, what [`tables_are_bounded`] says of running tables; [`windows_meet`] says that by number and
//! by time nothing is between two of them, or in both. [`outlets_tell_once`] says so of a whole run of an [`Outlet`]: each
//! recording of a delta reader is in one batch, and each batch with points is to be handed on.
//!
//! A service that has to prove its numbers to somebody, for billing or after an incident, starts with [`Audited`]. It
//! keeps each recording beside the tables, 32 bytes in the list of its instrument and 24 in the seat of its recorder:
//! its memory grows as long as a run lasts, and each recording takes somewhat longer. Its totals have the journal of
//! each instrument, its recordings as [`Entry`], and the [`Slip`]s of each recorder; [`audit`] says whether these and
//! the batches agree, or returns an [`AuditFault`]. [`open_audited`] opens an [`AuditedProvider`], and [`audit_run`]
//! audits a whole run of it, up to an [`Extent`], or returns a [`RunAuditFault`].
//!
//! # Devices
//!
//! A [`Sink`] takes bytes and a [`Source`] gives them. [`StdSink`] and [`StdSource`] are those of std, and [`CutSink`]
//! and [`CutSource`] are in memory. For tests, a [`KeepingExporter`] keeps its batches, in which [`value_of`] finds a
//! point. [`read_all`] and [`write_all`] move a whole text.
#![tactic(auto)]

mod files;
mod headline;
mod leftover;
mod living;
mod opening;
mod provider;
mod run_audit;
mod running;
mod runs;
mod service;
mod service_fault;
mod tables;
mod unopened;

pub use files::{AddedFile, PageFile};
pub use headline::{certified_plans_run_exactly, certified_runs_are_exact};
pub use leftover::{Ended, Left, NextRun, Unended, UnendedFault};
pub use living::{Work, live};
pub use opening::{open, open_audited, open_certified, open_with_lanes};
pub use provider::{AuditedProvider, MeterProvider};
pub use run_audit::audit_run;
pub use runs::Runs;
pub use service::{Service, ServiceBuilder, TellFault, TellLeft};
pub use service_fault::ServiceFault;
pub use tables::{audited_tables_are_bounded, tables_are_bounded};
pub use unopened::{Unopened, diagnosed};

// What is declared.
pub use metric_base::{Boundaries, Few, Items, Shared, Text};
pub use metric_catalogue::{
    Catalogue, CatalogueDefect, CatalogueFault, CatalogueField, CataloguePlace, CatalogueSpot,
};
pub use metric_cert::{CertFault, CertList, CertPlace, Certificate};
pub use metric_check::{ClaimFault, ClaimPlace, check};
pub use metric_combinations::Combinations;
pub use metric_contents::{Attr, Instrument, Key, Kind, Meter, OwnedAttr, Refusal, SetKey, Values};
pub use metric_lint::{
    Explanation, Headroom, KeyList, Limit, Mistake, Position, Remark, explain_refusal, headrooms,
    lint, locate_in_catalogue, locate_in_config,
};
pub use metric_make::{MakeFault, make};
pub use metric_messages::{
    Diagnosis, Excerpt, NamedText, Pair, diagnose_catalogue, diagnose_certificate, diagnose_check,
    diagnose_config, diagnose_make, diagnose_remark,
};
pub use metric_names::{AttrValue, ValueRef};
pub use metric_plan::{CheckFault, Plan};
pub use metric_setup::{SetupFault, certified_plan, vouched_plan};
pub use metric_views::{
    ByKind, Config, ConfigField, ConfigPlace, ConfigSpot, Reader, Stream, StreamAggregation,
    Temporality, ViewDefect, ViewFault,
};

// What records, and what is collected.
pub use metric_aggregate::PointValue;
pub use metric_audit::{AuditFault, Audited, Extent, RunAuditFault, audit};
pub use metric_facts::Facts;
pub use metric_handles::{
    Adds, AnySeat, Asking, At, Bound, BoundCounter, BoundGauge, BoundHistogram, BoundList,
    BoundUpDownCounter, Counted, Counter, Gauge, Handle, HandleFault, Histogram, IsCounter,
    IsGauge, IsHistogram, IsUpDownCounter, ListFault, Need, NoHandle, OfKind, Recorded, Records,
    Refused, Replaced, Seat, TimeUnit, TimedFault, Timer, TimerFault, UpDownCounter, counter,
    expected, gauge, histogram, left, take_reader, take_recorder, up_down_counter, value_of,
};
pub use metric_history::{Batch, Book, Entry, Point, StreamPoints};
pub use metric_marked::Marked;
pub use metric_meaning::Expected;
pub use metric_provider::{
    AllFault, Collector, FinishFault, Finished, Gate, Measurement, NoGate, Partly, Provider,
    Recorder, RollFault, Rolled, SetsFault, Slip, Told, Total, Totals, batches_are_bounded, start,
    start_with_lanes, windows_meet,
};
pub use metric_slot::Slot;

// What exports.
pub use metric_export::{
    Encoding, ExportFault, ExporterState, Handed, KeepingExporter, MetricExporter, OpenSink, Plain,
    QueueCounts, Queued, ReopeningExporter, TextExporter, ToldQueue, attributes, export_each,
    has_points, own_batch, own_plan, write_batch, write_encoded,
};
pub use metric_exposition::{Dialect, TargetFault};
pub use metric_exposure::{ExposureFault, expose, expose_to_otlp};
pub use metric_io::{
    Broken, CutSink, CutSource, ReadFault, Sink, Source, SourceFault, StdSink, StdSource, read_all,
    write_all,
};
pub use metric_outlets::{
    Exposition, OtlpBytes, OtlpLines, OutletFault, PageExporter, Pages, Served,
};
pub use metric_periodic::{
    ClockTicker, Collection, ListTicker, Outlet, OutletLeft, Outlets, Periodic, PeriodicEnd,
    ReaderEnd, RefusedInstrument, RunningCounts, StopCause, StopFlag, Tick, Ticker, Uncollected,
    Unexported, collect_each, make_turns, now, outlets_tell_once,
};
pub use metric_resource::{Resource, ResourceFault};
