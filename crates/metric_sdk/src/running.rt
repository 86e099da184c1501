//! The runs of a service.
ghost use Rattle.std.specs.Prelude.{◌≡◌, ◌==◌, ◌&&◌, IfErr, IfOk, List, MatchResult, OnErr, OnOk, false, length, true};
ghost use Rattle.std.specs.List.{list_all};
ghost use Rattle.metric_io.specs.Counts.{next_count};
ghost use Rattle.metric_periodic.specs.Outlets.{is_clean, is_collected, is_exported};
ghost use Rattle.metric_periodic.specs.declared.ended.ReaderEnd.{ReaderEnd as reader_end};
ghost use Rattle.metric_provider.specs.Rolling.{RefusesRoll};
ghost use Rattle.metric_provider.specs.Totals.{RefusesFinish, seated};
ghost use Rattle.metric_sdk.specs.Services.{AreCounted, Begins, EndsService, GoesOn, RefusesEnd};
ghost use Rattle.metric_sdk.specs.Services.{RefusesRollOver, RollsOver};

use crate::leftover::{Ended, Left, NextRun, Unended, UnendedFault};
use crate::runs::Runs;
use crate::service::Service;
use metric_history::Book;
use metric_periodic::{Outlets, ReaderEnd};
use metric_provider::{Finished, Gate, Provider, Recorder, Rolled};
use std::alloc::{AllocError, Global};
use std::sync::Wait;

impl<O: Outlets, B: Book, G: Gate> Service<O, B, G> {
    /// Ends the run and begins the next one, by the seats of all recorders: each outlet makes its last turn at a
    /// moment, in which a refused instrument hides no other; then the provider rolls over, and the next run starts at
    /// that moment, with the next number, new seats of all recorders, and for each outlet the new seat of its reader.
    /// What an exporter keeps stays with it.
    ///
    /// # Errors
    ///
    /// A [`Left`] has each cause, and hands back what is left. Batches that an exporter neither takes nor keeps do not
    /// keep the run from ending: they are handed back with the next run. Where a last collection was refused an
    /// instrument, or the provider does not roll over, the run goes on: the service and all seats are handed back, so
    /// that no recording is lost and none is collected twice.
    pub fn roll_over<R: Wait>(
        self,
        rt: &R,
        alloc: Global,
        recorders: Vec<Recorder>,
        now: u64,
    ) -> Result<NextRun<O, B, G>, Left<NextRun<O, B, G>, O, B, G>>
        ensures rolled { IfOk result (λ next. (told : List reader_end)
            × (RollsOver O.Outlets B.KEEPS_ENTRIES self recorders.items now told true true
            next.service next.recorders.items next.totals
            × (list_all is_exported told ≡ true))) }
        ensures left { IfErr result (λ left. MatchResult left.done
            (λ next. RollsOver O.Outlets B.KEEPS_ENTRIES self recorders.items now
            left.ends.items left.is_counted left.are_seated next.service
            next.recorders.items next.totals)
            (λ unended. let p = self.provider in
            let refuses = RefusesRollOver (RefusesRoll B.stands (length p.plan.facts.instruments)
            (next_count self.runs == p.run.number) now (seated p recorders.items)) in
            GoesOn O.Outlets refuses self recorders.items now left.ends.items
            unended.service unended.recorders.items unended.fault)) }
        ensures some_left { IfErr result (λ left. OnOk left.done
            (((left.is_counted && left.are_seated) && list_all is_exported left.ends.items)
            ≡ false)) }
    {
        let Service {
            provider,
            mut outlets,
            runs,
        } = self;
        let ends = match last_turns(rt, alloc, &provider, &mut outlets, now) {
            Ok(ends) => ends,
            Err(_) => {
                let service = Service::from_parts(provider, outlets, runs);
                let none = Vec::new(alloc);
                return Err(left_by(service, recorders, UnendedFault::Memory, none));
            }
        };
        if !are_collected(&ends) {
            let service = Service::from_parts(provider, outlets, runs);
            return Err(left_by(service, recorders, UnendedFault::Uncollected, ends));
        }
        match provider.roll_over(rt, alloc, recorders, now, runs.coming()) {
            Ok(rolled) => next_run(outlets, runs, rolled, ends),
            Err((provider, recorders, fault)) => {
                let service = Service::from_parts(provider, outlets, runs);
                Err(left_by(service, recorders, UnendedFault::Roll(fault), ends))
            }
        }
    }

    /// Ends the service, by the seats of all recorders: each outlet makes its last turn at a moment, in which a refused
    /// instrument hides no other, and the provider is finished. The exporters are flushed and open.
    ///
    /// # Errors
    ///
    /// A [`Left`] has each cause, and hands back what is left: with what was [`Ended`] the batches that nobody took and
    /// nobody keeps, and whether an exporter keeps something still; else the service, which goes on, as
    /// [`Service::roll_over`] says.
    pub fn end<R: Wait>(
        self,
        rt: &R,
        alloc: Global,
        recorders: Vec<Recorder>,
        now: u64,
    ) -> Result<Ended<O>, Left<Ended<O>, O, B, G>>
        ensures ended { IfOk result (λ ended. (told : List reader_end)
            × (EndsService O.Outlets B.KEEPS_ENTRIES self recorders.items now told true
            ended.outlets ended.plan ended.totals
            × (list_all is_clean told ≡ true))) }
        ensures left { IfErr result (λ left. MatchResult left.done
            (λ ended. EndsService O.Outlets B.KEEPS_ENTRIES self recorders.items now
            left.ends.items left.is_counted ended.outlets ended.plan ended.totals)
            (λ unended. let p = self.provider in
            let refuses = RefusesEnd (RefusesFinish (seated p recorders.items)) in
            GoesOn O.Outlets refuses self recorders.items now left.ends.items
            unended.service unended.recorders.items unended.fault)) }
        ensures some_left { IfErr result (λ left. OnOk left.done
            ((left.is_counted && list_all is_clean left.ends.items) ≡ false)) }
    {
        let Service {
            provider,
            mut outlets,
            runs,
        } = self;
        let ends = match last_turns(rt, alloc, &provider, &mut outlets, now) {
            Ok(ends) => ends,
            Err(_) => {
                let service = Service::from_parts(provider, outlets, runs);
                let none = Vec::new(alloc);
                return Err(left_by(service, recorders, UnendedFault::Memory, none));
            }
        };
        if !are_collected(&ends) {
            let service = Service::from_parts(provider, outlets, runs);
            return Err(left_by(service, recorders, UnendedFault::Uncollected, ends));
        }
        match provider.finish_keeping(rt, alloc, recorders) {
            Ok(finished) => ended(outlets, finished, ends),
            Err((provider, recorders, fault)) => {
                let service = Service::from_parts(provider, outlets, runs);
                Err(left_by(service, recorders, UnendedFault::Finish(fault), ends))
            }
        }
    }
}

// The last turn of each outlet in a run. How each ended.
fn last_turns<R: Wait, O: Outlets, B: Book, G: Gate>(
    rt: &R,
    alloc: Global,
    provider: &Provider<B, G>,
    outlets: &mut O,
    now: u64,
) -> Result<Vec<ReaderEnd>, AllocError>
    ensures ended { IfOk result (λ told.
        O.ends provider.now now outlets.old outlets.new told.items) }
    ensures err { OnErr result (outlets.new ≡ outlets.old) }
{
    let mut ends = Vec::with_capacity(alloc, outlets.count())?;
    outlets.end_each(rt, alloc, provider, now, &mut ends);
    Ok(ends)
}

// Whether no instrument was refused.
fn are_collected(ends: &[ReaderEnd]) -> bool
    ensures { result ≡ list_all is_collected ends.now }
{
    ends.iter().all(ReaderEnd::is_collected)
}

// Whether no batch is handed back.
fn are_exported(ends: &[ReaderEnd]) -> bool
    ensures { result ≡ list_all is_exported ends.now }
{
    ends.iter().all(ReaderEnd::is_exported)
}

// Whether nothing is left.
fn are_clean(ends: &[ReaderEnd]) -> bool
    ensures { result ≡ list_all is_clean ends.now }
{
    ends.iter().all(ReaderEnd::is_clean)
}

// A run that goes on, and why.
fn left_by<T, O, B: Book, G: Gate>(
    service: Service<O, B, G>,
    recorders: Vec<Recorder>,
    fault: UnendedFault,
    ends: Vec<ReaderEnd>,
) -> Left<T, O, B, G>
    ensures done { MatchResult result.done (λ _. ⊥) (λ unended. (unended.service ≡ service)
        × ((unended.recorders.items ≡ recorders.items) × (unended.fault ≡ fault))) }
    ensures ends { result.ends.items ≡ ends.items }
{
    Left {
        done: Err(Unended {
            service,
            recorders,
            fault,
        }),
        ends,
        is_counted: true,
        are_seated: true,
    }
}

// The next run of a service whose last turns ended so, or with it what is left.
fn next_run<O: Outlets, B: Book, G: Gate>(
    outlets: O,
    runs: Runs,
    rolled: Rolled<B, G>,
    ends: Vec<ReaderEnd>,
) -> Result<NextRun<O, B, G>, Left<NextRun<O, B, G>, O, B, G>>
    ensures next { IfOk result (λ next. Begins O.Outlets outlets runs rolled.provider
        rolled.collectors.items rolled.totals true true next.service
        × ((next.recorders.items ≡ rolled.recorders.items) × (next.totals ≡ rolled.totals))) }
    ensures exported { OnOk result (list_all is_exported ends.items ≡ true) }
    ensures left { IfErr result (λ left. MatchResult left.done
        (λ next. Begins O.Outlets outlets runs rolled.provider
        rolled.collectors.items rolled.totals left.is_counted left.are_seated next.service
        × ((next.recorders.items ≡ rolled.recorders.items) × (next.totals ≡ rolled.totals)))
        (λ _. ⊥)) }
    ensures ends { IfErr result (λ left. left.ends.items ≡ ends.items) }
    ensures some_left { IfErr result (λ left.
        ((left.is_counted && left.are_seated) && list_all is_exported left.ends.items)
        ≡ false) }
{
    let Rolled {
        provider,
        recorders,
        collectors,
        totals,
    } = rolled;
    let is_counted = outlets.are_counted(&totals.instruments);
    let (mut outlets, mut runs, mut seats) = (outlets, runs, collectors);
    let are_seated = outlets.begin_each(&mut seats);
    let _given = runs.next();
    let next = NextRun {
        service: Service::from_parts(provider, outlets, runs),
        recorders,
        totals,
    };
    if is_counted && are_seated && are_exported(&ends) {
        Ok(next)
    } else {
        Err(Left {
            done: Ok(next),
            ends,
            is_counted,
            are_seated,
        })
    }
}

// What a service came to whose last turns ended so, or with it what is left.
fn ended<O: Outlets, B: Book, G: Gate>(
    outlets: O,
    finished: Finished<G>,
    ends: Vec<ReaderEnd>,
) -> Result<Ended<O>, Left<Ended<O>, O, B, G>>
    ensures ended { IfOk result (λ ended. (ended.outlets ≡ outlets)
        × ((ended.plan ≡ finished.plan) × ((ended.totals ≡ finished.totals)
        × AreCounted (O.counts outlets) finished.totals true))) }
    ensures clean { OnOk result (list_all is_clean ends.items ≡ true) }
    ensures left { IfErr result (λ left. MatchResult left.done
        (λ ended. (ended.outlets ≡ outlets)
        × ((ended.plan ≡ finished.plan) × (ended.totals ≡ finished.totals))) (λ _. ⊥)) }
    ensures told { IfErr result (λ left.
        AreCounted (O.counts outlets) finished.totals left.is_counted) }
    ensures ends { IfErr result (λ left. left.ends.items ≡ ends.items) }
    ensures some_left { IfErr result (λ left.
        (left.is_counted && list_all is_clean left.ends.items) ≡ false) }
{
    let Finished {
        totals,
        plan,
        gate: _gate,
    } = finished;
    let is_counted = outlets.are_counted(&totals.instruments);
    let ended = Ended {
        totals,
        plan,
        outlets,
    };
    if is_counted && are_clean(&ends) {
        Ok(ended)
    } else {
        Err(Left {
            done: Ok(ended),
            ends,
            is_counted,
            are_seated: true,
        })
    }
}
