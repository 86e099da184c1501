//! A service: a provider, and the way out of each of its readers.
ghost use Rattle.std.specs.Prelude.{◌≡◌, ◌<◌, ◌^◌, ℕ, [], IfErr, IfOk, MatchOption, OnOk, Some};
ghost use Rattle.std.specs.Prelude.{false, is_some, slice_get, true};
ghost use Rattle.metric_handles.specs.Seats.{is_reader_named, others_of, reader_place, taken_of};
ghost use Rattle.metric_seat.specs.Seats.{CollectorValue};
ghost use Rattle.metric_plan.specs.Plans.{print_of};
ghost use Rattle.metric_sdk.specs.Services.{IsBackIn, IsToldBy, IsUntoldBy, service_of};

use crate::runs::Runs;
use metric_export::{ExportFault, MetricExporter};
use metric_handles::take_reader;
use metric_history::Book;
use metric_periodic::{Outlet, OutletLeft, Outlets};
use metric_plan::Plan;
use metric_provider::{Collector, Gate, Provider};
use std::alloc::Global;
use std::marker::Model;
use std::sync::Wait;

/// A service: a provider, the way out of each of its readers, and the numbers of its runs. The seats of its recorders
/// are the workers'.
///
/// A reader stays with the exporter that it was told, over all runs: there is no call that takes an exporter beside it.
#[derive(Drop)]
pub struct Service<O, B: Book, G: Gate> {
    pub(crate) provider: Provider<B, G>,
    pub(crate) outlets: O,
    pub(crate) runs: Runs,
}

impl<O, B: Book, G: Gate> Model for Service<O, B, G> {
    ghost use Rattle.metric_sdk.specs.Services.{ServiceValue};

    ghost Value = { ServiceValue O };

    ghost view = { λ s. record { provider = s.provider; outlets = s.outlets; runs = s.runs } };
}

impl<B: Book, G: Gate> Service<(), B, G> {
    /// Begins a service of what [`open`](crate::open) gave, with the numbers that its runs have.
    pub fn builder(
        provider: Provider<B, G>,
        readers: Vec<Collector>,
        runs: Runs,
    ) -> ServiceBuilder<(), B, G>
        ensures { result ≡ record {
          service = service_of provider tt runs;
          readers = readers.items;
        } }
    {
        let service = Service::from_parts(provider, (), runs);
        ServiceBuilder { service, readers }
    }
}

impl<O, B: Book, G: Gate> Service<O, B, G> {
    /// The provider of the run that is going, for who records by hand.
    pub fn provider(&self) -> &Provider<B, G>
        ensures { result.now ≡ self.now.provider }
    {
        &self.provider
    }

    /// The plan.
    pub fn plan(&self) -> &Plan
        ensures { result.now ≡ self.now.provider.plan }
    {
        self.provider.plan()
    }

    /// The outlets, the first one innermost: `((((), first), second), third)`.
    pub fn outlets(&self) -> &O
        ensures { result.now ≡ self.now.outlets }
    {
        &self.outlets
    }

    /// A turn of each outlet at a moment: collects, hands on, tries again what exporters keep, and flushes them
    /// (Metrics SDK, force flush).
    pub fn force_flush<R: Wait>(&mut self, rt: &R, alloc: Global, now: u64)
    where
        O: Outlets,
        ensures turn { (next : ℕ) × O.turns self.old.provider now true self.old.outlets
            self.new.outlets next }
        ensures rest { self.new
            ≡ service_of self.old.provider self.new.outlets self.old.runs }
    {
        let _due = self
            .outlets
            .turn_if_due(rt, alloc, &self.provider, now, true);
    }

    /// A service of these. So one goes on whose run ended by hand, as by [`Provider::finish_partly`] where a recorder's
    /// seat was lost: with a new provider of its texts, and its outlets, which begin that run ([`Outlets::begin_each`]).
    pub fn from_parts(provider: Provider<B, G>, outlets: O, runs: Runs) -> Service<O, B, G>
        ensures { result ≡ service_of provider outlets runs }
    {
        Service {
            provider,
            outlets,
            runs,
        }
    }

    /// The provider, the outlets and the numbers of the runs, for who ends them by hand.
    pub fn into_parts(self) -> (Provider<B, G>, O, Runs)
        ensures { (result.0 ≡ self.provider) × ((result.1 ≡ self.outlets)
            × (result.2 ≡ self.runs)) }
    {
        let Service {
            provider,
            outlets,
            runs,
        } = self;
        (provider, outlets, runs)
    }
}

/// A service that is being put together: each reader is told an exporter, or ignored.
#[derive(Drop)]
pub struct ServiceBuilder<O, B: Book, G: Gate> {
    service: Service<O, B, G>,
    readers: Vec<Collector>,
}

impl<O, B: Book, G: Gate> Model for ServiceBuilder<O, B, G> {
    ghost use Rattle.metric_sdk.specs.Services.{BuilderValue};

    ghost Value = { BuilderValue O };

    ghost view = { λ b. record { service = b.service; readers = b.readers.items } };
}

/// Why a reader does not go with an exporter, or has none.
#[derive(Clone, Copy, Debug, PartialEq, Eq, Drop)]
pub enum TellFault {
    /// The plan has no reader of this name, or it has been told or ignored before.
    UnknownReader,
    /// [`ExportFault::OtherReader`] where the exporter does not take its batches, or [`ExportFault::Memory`].
    Exporter(ExportFault),
    /// The reader of this number has been told no exporter, and is not ignored.
    Untold(u32),
}

/// A service that is being put together and an exporter, which do not go together; or the service alone, where a reader
/// has no exporter.
#[derive(Drop)]
pub struct TellLeft<E, O, B: Book, G: Gate> {
    /// The service, as it was, but that the seat of the reader stands last, unless memory ran out for that.
    pub builder: ServiceBuilder<O, B, G>,
    /// The exporter.
    pub exporter: E,
    /// Why.
    pub fault: TellFault,
}

impl<O, B: Book, G: Gate> ServiceBuilder<O, B, G> {
    /// Tells the reader of this name an exporter, to which it hands on every so many milliseconds.
    ///
    /// # Errors
    ///
    /// A [`TellLeft`] hands both back: where there is no such reader any more, where the exporter does not take its
    /// batches, as a page made for another reader, or when out of memory.
    pub fn tell<E: MetricExporter>(
        self,
        alloc: Global,
        reader: &str,
        exporter: E,
        milliseconds: u64,
    ) -> Result<ServiceBuilder<(O, Outlet<E>), B, G>, TellLeft<E, O, B, G>>
        ensures told { IfOk result (λ next. let place = reader_place self.service.provider.plan
            reader.now self.readers in
            IsToldBy place self exporter milliseconds next) }
        ensures own { IfOk result (λ next. E.takes exporter (print_of self.service.provider.plan)
            next.service.outlets.1.showing.seat.number ≡ true) }
        ensures left { IfErr result (λ left. let place = reader_place self.service.provider.plan
            reader.now self.readers in
            (left.exporter ≡ exporter) × IsUntoldBy (E.takes exporter) place self left.builder
            left.fault) }
    {
        let ServiceBuilder {
            service,
            mut readers,
        } = self;
        let Some(seat) = take_reader(service.plan(), &mut readers, reader) else {
            return Err(TellLeft {
                builder: ServiceBuilder { service, readers },
                exporter,
                fault: TellFault::UnknownReader,
            });
        };
        match Outlet::new(alloc, service.plan(), seat, exporter, milliseconds) {
            Ok(outlet) => Ok(ServiceBuilder {
                service: with_outlet(service, outlet),
                readers,
            }),
            Err(left) => Err(left_by(service, readers, left)),
        }
    }

    /// Ignores the reader of this name: nobody collects what it would export. Whether there was one.
    pub fn ignore(&mut self, reader: &str) -> bool
        ensures there { let place = reader_place self.old.service.provider.plan reader.now
            self.old.readers in
            result ≡ is_some (taken_of self.old.readers place) }
        ensures left { let place = reader_place self.old.service.provider.plan reader.now
            self.old.readers in
            self.new ≡ record self.old { readers = others_of self.old.readers place } }
    {
        take_reader(self.service.plan(), &mut self.readers, reader).is_some()
    }

    /// The number of the reader of this name: by it an exporter is made that takes the batches of one reader alone.
    pub fn reader(&self, name: &str) -> Option<u32>
        ensures { let is_named = is_reader_named self.now.service.provider.plan name.now in
            MatchOption result ((number : ℕ) → number < 2 ^ 32 → is_named number ≡ false)
            (λ number. is_named number ≡ true) }
    {
        let readers = self.plan().config().readers();
        let place = readers.iter().position(|it| it.name.as_str() == name)?;
        u32::try_from(place).ok()
    }

    /// The plan.
    pub fn plan(&self) -> &Plan
        ensures { result.now ≡ self.now.service.provider.plan }
    {
        self.service.plan()
    }

    /// The service, if each reader has been told an exporter or is ignored.
    ///
    /// # Errors
    ///
    /// [`TellFault::Untold`] names the first reader that has not; the service is handed back.
    pub fn build(self) -> Result<Service<O, B, G>, TellLeft<(), O, B, G>>
        ensures ok { IfOk result (λ service. (service ≡ self.service) × (self.readers ≡ [])) }
        ensures err { IfErr result (λ left. (left.builder ≡ self)
            × ((seat : CollectorValue) × ((slice_get self.readers 0 ≡ Some seat)
            × (left.fault ≡ TellFault.Untold seat.number)))) }
    {
        match self.readers.first() {
            Some(seat) => {
                let fault = TellFault::Untold(seat.number());
                Err(TellLeft {
                    builder: self,
                    exporter: (),
                    fault,
                })
            }
            None => {
                let ServiceBuilder {
                    service,
                    readers: _,
                } = self;
                Ok(service)
            }
        }
    }
}

// A service with one outlet more.
fn with_outlet<O, E, B: Book, G: Gate>(
    service: Service<O, B, G>,
    outlet: Outlet<E>,
) -> Service<(O, Outlet<E>), B, G>
    ensures { result ≡ service_of service.provider (service.outlets, outlet) service.runs }
{
    let Service {
        provider,
        outlets,
        runs,
    } = service;
    Service::from_parts(provider, (outlets, outlet), runs)
}

// What is left where a seat and an exporter do not go together.
fn left_by<E, O, B: Book, G: Gate>(
    service: Service<O, B, G>,
    readers: Vec<Collector>,
    left: OutletLeft<E>,
) -> TellLeft<E, O, B, G>
    ensures left { (result.exporter ≡ left.exporter)
        × ((result.fault ≡ TellFault.Exporter left.fault) × (result.builder.service ≡ service)) }
    ensures readers { IsBackIn readers.items left.seat result.builder.readers }
{
    let OutletLeft {
        seat,
        exporter,
        fault,
    } = left;
    let mut readers = readers;
    let _back = readers.push(seat);
    TellLeft {
        builder: ServiceBuilder { service, readers },
        exporter,
        fault: TellFault::Exporter(fault),
    }
}
