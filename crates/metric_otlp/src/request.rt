//! The request of batches.
ghost use Rattle.std.specs.Prelude.{◌≡◌, ◌++◌, OnOk, map};
ghost use Rattle.std.specs.List.{flat_map};
ghost use Rattle.metric_wire.specs.Wire.{block};
ghost use Rattle.metric_otlp.specs.Reported.{report_by};
ghost use Rattle.metric_otlp.specs.Requests.{report_request, request, resource_message};
ghost use Rattle.metric_otlp.specs.Scopes.{scope_field};

use crate::attribute::push_attribute;
use crate::metric::push_scope;
use crate::report::{Report, reports_of};
use metric_catalogue::Catalogue;
use metric_contents::OwnedAttr;
use metric_history::Batch;
use metric_resource::Resource;
use metric_views::Stream;
use metric_wire::push_block;
use std::alloc::{AllocError, Global};

/// Writes the batches of a collection as a message `ExportMetricsServiceRequest`
/// (opentelemetry.proto.collector.metrics.v1): one `ResourceMetrics` with the attributes of the resource, and in it a
/// `ScopeMetrics` for each meter with points; in that a `Metric` for each stream that has points, with its name,
/// description and unit as they were declared. Meters are in the order of the catalogue, streams in that of the
/// batches.
///
/// The streams are those of the plan, numbered from 0. Batches without points, or of no instrument of the catalogue,
/// are no bytes, and a stream whose number is not there is left out. Numbers are exact, but for sums, least and
/// greatest values of histograms, which are the doubles nearest to them: exact up to 2^53. Times are in nanoseconds;
/// 0 is not written, as "unknown".
///
/// Requests one after the other are one request. Fails only when out of memory, and may then have written a part.
pub fn push_request(
    alloc: Global,
    out: &mut Vec<u8>,
    resource: &Resource,
    catalogue: &Catalogue,
    streams: &[Stream],
    batches: &[Batch],
) -> Result<(), AllocError>
    ensures { OnOk result (out.new.items ≡ out.old.items
        ++ request resource.now catalogue.now streams.now batches.now) }
{
    let reports = reports_of(alloc, catalogue, streams, batches)?;
    push_reports(alloc, out, resource, reports.as_slice())
}

// Writes a message `ResourceMetrics`, unless nothing is reported.
fn push_reports(
    alloc: Global,
    out: &mut Vec<u8>,
    resource: &Resource,
    reports: &[Report<'_>],
) -> Result<(), AllocError>
    ensures { OnOk result (out.new.items ≡ out.old.items
        ++ report_request resource.now (map report_by reports.now)) }
{
    if reports.is_empty() {
        return Ok(());
    }
    let mut message = Vec::new(alloc);
    push_resource(alloc, &mut message, resource.as_slice())?;
    push_scopes(alloc, &mut message, reports)?;
    push_block(out, 1, message.as_slice())
}

#[tactic(auto, using(metric_text::specs::ListLaws::steps))]
fn push_scopes(alloc: Global, out: &mut Vec<u8>, reports: &[Report<'_>]) -> Result<(), AllocError>
    ensures { OnOk result (out.new.items ≡ out.old.items
        ++ flat_map scope_field (map report_by reports.now)) }
{
    for report in reports {
        let mut scope = Vec::new(alloc);
        push_scope(alloc, &mut scope, report)?;
        push_block(out, 2, scope.as_slice())?;
    }
    Ok(())
}

fn push_resource(
    alloc: Global,
    out: &mut Vec<u8>,
    attributes: &[OwnedAttr],
) -> Result<(), AllocError>
    ensures { OnOk result (out.new.items
        ≡ out.old.items ++ block 1 (resource_message attributes.now)) }
{
    let mut message = Vec::new(alloc);
    push_owned(&mut message, attributes)?;
    push_block(out, 1, message.as_slice())
}

#[tactic(auto, using(metric_text::specs::ListLaws::steps))]
fn push_owned(out: &mut Vec<u8>, attributes: &[OwnedAttr]) -> Result<(), AllocError>
    ensures { OnOk result (out.new.items ≡ out.old.items ++ resource_message attributes.now) }
{
    for attribute in attributes {
        push_attribute(out, 1, attribute.key.as_str(), &attribute.value)?;
    }
    Ok(())
}
