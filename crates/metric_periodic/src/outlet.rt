//! A reader and its way out, over all runs.
ghost use Rattle.std.specs.Prelude.{◌≡◌, ◌<◌, ◌≤◌, ◌==◌, ◌||◌, IfErr, IfOk, IfSome, OnOk};
ghost use Rattle.std.specs.Prelude.{length, replicate, slice_get, true};
ghost use Rattle.std.specs.Option.{option_map};
ghost use Rattle.metric_export.specs.ExporterCalls.{calls_of};
ghost use Rattle.metric_periodic.specs.Outlets.{EndsOutlet, IsLeft, IsLeftBy, TurnsOn, TurnsOutlet, due_after};
ghost use Rattle.metric_periodic.specs.Outlets.{new_outlet, seat_place, tick_due, unshown};
ghost use Rattle.metric_periodic.specs.Ticks.{is_woken};
ghost use Rattle.metric_plan.specs.Plans.{print_of};
ghost use Rattle.metric_slot.specs.declared.seen.Seen.{Seen as sightings};

use crate::ended::{ReaderEnd, Unexported};
use crate::exports::Exports;
use crate::outlets::Outlets;
use crate::showing::Showing;
use crate::shown::Shown;
use crate::tick::Tick;
use metric_export::{ExportFault, Handed, MetricExporter};
use metric_history::{Batch, Book};
use metric_plan::Plan;
use metric_provider::{Collector, Gate, Provider, Total};
use std::alloc::{AllocError, Global};
use std::marker::Model;
use std::sync::Wait;

/// A reader and its way out: its seat, one exporter, and what that took, over all runs of a service. So no reader can
/// be handed to another's exporter.
///
/// Each turn collects of each instrument and hands on each batch with points, once and in order. Where an exporter may
/// still show points of a run that has ended, as a page does, the next batch of that instrument is handed on also
/// without points, so that they go. A refused instrument hides no other, and loses nothing: the next turn tries it
/// again.
#[derive(Drop)]
pub struct Outlet<E> {
    showing: Showing,
    exports: Exports<E>,
    period: u64,
    due: u64,
}

impl<E> Model for Outlet<E> {
    ghost use Rattle.metric_periodic.specs.Outlets.{OutletValue};

    ghost Value = { OutletValue E };

    ghost view = { λ o. record {
      showing = o.showing;
      counts = o.exports;
      period = o.period;
      due = o.due;
    } };
}

/// A seat and an exporter that do not go together, or for which memory ran out.
#[derive(Drop)]
pub struct OutletLeft<E> {
    /// The seat.
    pub seat: Collector,
    /// The exporter.
    pub exporter: E,
    /// [`ExportFault::OtherReader`] where the exporter does not take the batches of this reader, else
    /// [`ExportFault::Memory`].
    pub fault: ExportFault,
}

impl<E: MetricExporter> Outlet<E> {
    /// An outlet of this seat of the plan by this exporter, with a turn every so many milliseconds, at least 1, where
    /// it is driven by a clock.
    ///
    /// # Errors
    ///
    /// Both are handed back: with [`ExportFault::OtherReader`] where the exporter does not take the batches of this
    /// reader, else with [`ExportFault::Memory`].
    pub fn new(
        alloc: Global,
        plan: &Plan,
        seat: Collector,
        exporter: E,
        milliseconds: u64,
    ) -> Result<Outlet<E>, OutletLeft<E>>
        ensures made { IfOk result (λ outlet.
            outlet ≡ new_outlet plan.now seat exporter milliseconds) }
        ensures own { OnOk result
            (E.takes exporter (print_of plan.now) seat.number ≡ true) }
        ensures left { IfErr result (λ left. (left.seat ≡ seat) × ((left.exporter ≡ exporter)
            × IsLeftBy (E.takes exporter (print_of plan.now) seat.number) left.fault)) }
    {
        if !exporter.takes(plan.fingerprint(), seat.number()) {
            return Err(OutletLeft {
                seat,
                exporter,
                fault: ExportFault::OtherReader,
            });
        }
        match nothing_shown(alloc, plan) {
            Ok(shown) => Ok(Outlet {
                showing: Showing { seat, shown },
                exports: Exports::new(exporter),
                period: milliseconds.max(1),
                due: 0,
            }),
            Err(_) => Err(OutletLeft {
                seat,
                exporter,
                fault: ExportFault::Memory,
            }),
        }
    }

    /// One turn, at the moment of a tick: collects of each instrument, hands on what is to be told, lets the exporter
    /// try again what it keeps where the tick was asked for ([`Tick::Woken`]) or nothing was handed on, and flushes it.
    /// What failed is counted. The next turn is due a period later.
    pub fn turn<R: Wait, B: Book, G: Gate>(
        &mut self,
        rt: &R,
        alloc: Global,
        provider: &Provider<B, G>,
        tick: Tick,
    )
        ensures { TurnsOn provider.now (calls_of E.MetricExporter provider.now.plan) tick
            self.old self.new }
    {
        make_turn(
            rt,
            alloc,
            provider,
            tick,
            &mut self.showing,
            &mut self.exports,
        );
        self.due = due_after(tick.moment(), self.period);
    }

    /// The last turn of a run, when nobody records any more: collects of each instrument, hands on what is to be told,
    /// up to the first batch that the exporter neither takes nor keeps, lets it try again what it keeps, and flushes
    /// it. What is left is handed back. The seat stays, so that the run may go on.
    pub fn end_run<R: Wait, B: Book, G: Gate>(
        &mut self,
        rt: &R,
        alloc: Global,
        provider: &Provider<B, G>,
        now: u64,
    ) -> ReaderEnd
        ensures ended { EndsOutlet provider.now now (calls_of E.MetricExporter provider.now.plan)
            self.old self.new result }
    {
        let (plan, reader) = (provider.plan(), self.number());
        let (batches, uncollected) = self.showing.collect(rt, alloc, provider, now);
        self.exports.count_refusal(uncollected.is_some());
        let handed = self.exports.hand_on_in_order(alloc, plan, &batches);
        self.showing.note(&batches, handed.refused.is_some());
        let unexported = left_of(batches, handed);
        let unsent = self.exports.retry(alloc, plan).err();
        let unflushed = self.exports.flush().err();
        ReaderEnd {
            reader,
            uncollected,
            unexported,
            unsent,
            unflushed,
        }
    }

    /// The number of the reader.
    pub fn number(&self) -> u32
        ensures { result ≡ self.now.showing.seat.number }
    {
        self.showing.seat.number()
    }

    /// How many recordings of an instrument the last batch counted, 0 before one in this run; nothing for an unknown
    /// instrument.
    pub fn seen(&self, instrument: u32) -> Option<u64>
        ensures { let mark = λ (seen : sightings). seen.mark in
            result ≡ option_map mark (slice_get self.now.showing.seat.seen instrument) }
    {
        self.showing.seat.seen(instrument)
    }

    /// The exporter.
    pub fn exporter(&self) -> &E
        ensures { result.now ≡ self.now.counts.exporter }
    {
        &self.exports.exporter
    }

    /// The seat and the exporter, as they are.
    pub fn into_parts(self) -> (Collector, E)
        ensures seat { result.0 ≡ self.showing.seat }
        ensures exporter { result.1 ≡ self.counts.exporter }
    {
        let Outlet {
            showing,
            exports,
            period: _,
            due: _,
        } = self;
        let Showing { seat, shown: _ } = showing;
        (seat, exports.exporter)
    }

    /// The batches that the exporter took in all runs, up to 2^64 - 1.
    pub fn exported(&self) -> u64
        ensures { result ≡ self.now.counts.exported }
    {
        self.exports.exported
    }

    /// Those that it neither took nor keeps.
    pub fn failed(&self) -> u64
        ensures { result ≡ self.now.counts.failed }
    {
        self.exports.failed
    }

    /// Those that it kept to try them again, each once. What became of them the exporter tells.
    pub fn delayed(&self) -> u64
        ensures { result ≡ self.now.counts.delayed }
    {
        self.exports.delayed
    }

    /// The collections in which an instrument was refused, or all were.
    pub fn refused(&self) -> u64
        ensures { result ≡ self.now.counts.refused }
    {
        self.exports.refused
    }

    /// The flushes of the exporter that failed.
    pub fn unflushed(&self) -> u64
        ensures { result ≡ self.now.counts.unflushed }
    {
        self.exports.unflushed
    }
}

impl<E: MetricExporter + Drop> Outlets for Outlet<E> {
    ghost use Rattle.std.specs.Prelude.{◌≡◌, ◌∷◌, []};
    ghost use Rattle.metric_export.specs.ExporterCalls.{calls_of};
    ghost use Rattle.metric_periodic.specs.Outlets.{Begins, Counts, EndsOutlet, TurnsWhenDue, seat_place};
    ghost use Rattle.metric_periodic.specs.declared.ended.ReaderEnd.{ReaderEnd};

    ghost count = { λ _. 1 };

    ghost turns = { λ p. TurnsWhenDue p (calls_of E.MetricExporter p.plan) };

    ghost ends = { λ p now old new told. (end : ReaderEnd) × ((told ≡ end ∷ [])
        × EndsOutlet p now (calls_of E.MetricExporter p.plan) old new end) };

    ghost counts = { λ outlet. Counts outlet.showing.seat };

    ghost begins = { λ old new seats.
        Begins (seat_place old.showing.seat.number seats) old new seats };

    fn count(&self) -> usize {
        1
    }

    fn turn_if_due<R: Wait, B: Book, G: Gate>(
        &mut self,
        rt: &R,
        alloc: Global,
        provider: &Provider<B, G>,
        now: u64,
        is_asked: bool,
    ) -> u64 {
        match tick_due(self.due, now, is_asked) {
            Some(tick) => self.turn(rt, alloc, provider, tick),
            // The first call of a run begins the wait.
            None if self.due == 0 => self.due = due_after(now, self.period),
            None => {}
        }
        self.due
    }

    fn end_each<R: Wait, B: Book, G: Gate>(
        &mut self,
        rt: &R,
        alloc: Global,
        provider: &Provider<B, G>,
        now: u64,
        all: &mut Vec<ReaderEnd>,
    ) {
        all.push_reserved(self.end_run(rt, alloc, provider, now));
    }

    fn are_counted(&self, totals: &[Total]) -> bool {
        for (instrument, total) in totals.iter().enumerate() {
            // Instruments have numbers of 32 bits.
            let Ok(instrument) = u32::try_from(instrument) else {
                return true;
            };
            if self.seen(instrument) != Some(total.count) {
                return false;
            }
        }
        true
    }

    fn begin_each(&mut self, seats: &mut Vec<Collector>) -> bool {
        let Some(place) = seat_place(self.number(), seats) else {
            return false;
        };
        self.showing.begin(seats.remove(place));
        self.due = 0;
        true
    }
}

// What may be shown of each instrument of a plan: nothing.
fn nothing_shown(alloc: Global, plan: &Plan) -> Result<Vec<Shown>, AllocError>
    ensures { IfOk result (λ shown.
        shown.items ≡ replicate (length plan.now.facts.instruments) unshown) }
{
    let unshown = Shown {
        this_run: false,
        ended_run: false,
    };
    vec![in alloc; unshown; plan.catalogue().instruments().len()]
}

// What is left of batches that were handed on up to the first that was refused: that one and those after it.
fn left_of(batches: Vec<Batch>, handed: Handed) -> Option<Unexported>
    requires { handed.taken ≤ length batches.items }
    ensures { IsLeft batches.items handed.taken handed.refused result }
{
    let fault = handed.refused?;
    let mut batches = batches;
    batches.drain(..handed.taken);
    Some(Unexported { batches, fault })
}

// The moment so many milliseconds after another one, in nanoseconds.
fn due_after(now: u64, milliseconds: u64) -> u64
    ensures { result ≡ due_after now milliseconds }
{
    now.saturating_add(milliseconds.saturating_mul(1_000_000))
}

// The place of the first seat of a reader.
fn seat_place(reader: u32, seats: &[Collector]) -> Option<usize>
    ensures place { result ≡ seat_place reader seats.now }
    ensures within { IfSome result (λ place. place < length seats.now) }
{
    seats.iter().position(|seat| seat.number() == reader)
}

// Whether what is kept is tried again: where the tick was asked for, or nothing was handed on.
fn is_retried(tick: Tick, batches: &[Batch]) -> bool
    ensures { result ≡ (is_woken tick || (length batches.now == 0)) }
{
    tick.is_woken() || batches.is_empty()
}

// The tick of a turn that is asked for or due, if there is one.
fn tick_due(due: u64, now: u64, is_asked: bool) -> Option<Tick>
    ensures { result ≡ tick_due due now is_asked }
{
    if is_asked {
        Some(Tick::Woken(now))
    } else if due > 0 && due <= now {
        Some(Tick::At(now))
    } else {
        None
    }
}

// One turn of a seat and an exporter.
fn make_turn<R: Wait, B: Book, G: Gate, E: MetricExporter>(
    rt: &R,
    alloc: Global,
    provider: &Provider<B, G>,
    tick: Tick,
    showing: &mut Showing,
    exports: &mut Exports<E>,
)
    ensures { TurnsOutlet provider.now (calls_of E.MetricExporter provider.now.plan) tick
        showing.old showing.new exports.old exports.new }
{
    let (plan, failed) = (provider.plan(), exports.failed());
    let (batches, uncollected) = showing.collect(rt, alloc, provider, tick.moment());
    exports.count_refusal(uncollected.is_some());
    exports.hand_on(alloc, plan, &batches);
    showing.note(&batches, exports.has_failed_since(failed));
    let is_due = is_retried(tick, &batches);
    exports.retry_where(alloc, plan, is_due);
    let _counted = exports.flush();
}
