//! The faults of a reader's streams.
ghost use Rattle.std.specs.Prelude.{◌≡◌, IfOk};
ghost use Rattle.metric_base.specs.Steps.{Gives};
ghost use Rattle.metric_exposure.specs.Exposures.{exposure_faults, first_of};

use crate::fault::ExposureFault;
use crate::outlet::Outlet;
use crate::streams::{add_otlp_faults, add_page_faults, first_otlp_fault};
use metric_catalogue::Catalogue;
use metric_plan::Plan;
use metric_views::Stream;
use std::alloc::{AllocError, Global};

/// Tells whether the streams of a reader of a plan can stand in a page of Prometheus: no sample of the page would be
/// lost, or taken for another. The answer is the first fault, stream by stream in the order of the plan, or `Memory`.
pub fn expose(alloc: Global, plan: &Plan, reader: u32) -> Result<(), ExposureFault>
    ensures { Gives ExposureFault.Memory result (first_of (exposure_faults Outlet.Prometheus
        plan.now.facts.contents plan.now.streams reader)) }
{
    let faults = exposure_faults(
        alloc,
        plan.catalogue(),
        plan.streams(),
        reader,
        Outlet::Prometheus,
    )?;
    first_of(faults.as_slice())
}

/// Tells whether the streams of a reader of a plan can stand in requests of OTLP, where boundaries are doubles. The
/// answer is the first fault, stream by stream in the order of the plan, and never `Memory`.
pub fn expose_to_otlp(plan: &Plan, reader: u32) -> Result<(), ExposureFault>
    ensures { result ≡ first_of (exposure_faults Outlet.Otlp
        plan.now.facts.contents plan.now.streams reader) }
{
    first_otlp_fault(plan.catalogue(), plan.streams(), reader)
}

/// All faults of the streams of a reader for a way out, stream by stream in order. The streams are numbered from 0; the
/// reader is told by its number. Fails only when out of memory.
pub fn exposure_faults(
    alloc: Global,
    catalogue: &Catalogue,
    streams: &[Stream],
    reader: u32,
    outlet: Outlet,
) -> Result<Vec<ExposureFault>, AllocError>
    ensures { IfOk result (λ faults. faults.items
        ≡ exposure_faults outlet catalogue.now streams.now reader) }
{
    let mut faults = Vec::new(alloc);
    match outlet {
        Outlet::Prometheus => add_page_faults(alloc, &mut faults, catalogue, streams, reader)?,
        Outlet::Otlp => add_otlp_faults(&mut faults, catalogue, streams, reader)?,
    }
    Ok(faults)
}

// The first fault, where there is one.
fn first_of(faults: &[ExposureFault]) -> Result<(), ExposureFault>
    ensures { result ≡ first_of faults.now }
{
    match faults.first() {
        None => Ok(()),
        Some(fault) => Err(*fault),
    }
}
