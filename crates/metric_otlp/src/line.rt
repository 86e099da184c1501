//! The request of batches as a line of JSON.
ghost use Rattle.std.specs.Prelude.{◌≡◌, ◌∷◌, ◌++◌, OnOk, map};
ghost use Rattle.std.specs.List.{flat_map};
ghost use Rattle.metric_text.specs.Lists.{joined};
ghost use Rattle.metric_otlp.specs.Lines.{covered_json, data_json, data_name, line, meter_json, metric_json};
ghost use Rattle.metric_otlp.specs.Lines.{points_json, report_line, reported_json, request_json, resource_json};
ghost use Rattle.metric_otlp.specs.Lines.{scope_json, scoped_json};
ghost use Rattle.metric_otlp.specs.Reported.{report_by, reported_by};

use crate::attribute_json::push_owned;
use crate::member::{Member, push_object};
use crate::metric::{bounds_of, covers, rises};
use crate::point_json::push_points;
use crate::report::{Report, Reported, reports_of};
use crate::series::{Form, Series};
use metric_catalogue::Catalogue;
use metric_contents::{Meter, OwnedAttr};
use metric_history::Batch;
use metric_resource::Resource;
use metric_text::push_byte;
use metric_views::{Stream, StreamAggregation};
use std::alloc::{AllocError, Global};

/// Writes the batches of a collection as a line of OTLP/JSON: the message that `push_request` writes, as JSON and then a
/// line feed, in the order of members in which the OpenTelemetry Collector writes it. A member whose value is its
/// default is left out, as in the bytes.
///
/// All numbers are exact: those of 64 bits are decimal digits in quotes, and sums, least and greatest values of
/// histograms and boundaries are decimal digits. Batches that are no bytes are no line. Fails only when out of memory,
/// and may then have written a part.
pub fn push_line(
    alloc: Global,
    out: &mut Vec<u8>,
    resource: &Resource,
    catalogue: &Catalogue,
    streams: &[Stream],
    batches: &[Batch],
) -> Result<(), AllocError>
    ensures { OnOk result (out.new.items ≡ out.old.items
        ++ line resource.now catalogue.now streams.now batches.now) }
{
    let reports = reports_of(alloc, catalogue, streams, batches)?;
    push_report_line(alloc, out, resource, reports.as_slice())
}

// Writes the line of what is reported, none of nothing.
fn push_report_line(
    alloc: Global,
    out: &mut Vec<u8>,
    resource: &Resource,
    reports: &[Report<'_>],
) -> Result<(), AllocError>
    ensures { OnOk result (out.new.items
        ≡ out.old.items ++ report_line resource.now (map report_by reports.now)) }
{
    if reports.is_empty() {
        return Ok(());
    }
    push_request_object(alloc, out, resource, reports)?;
    push_byte(out, b'\n')
}

#[tactic(auto, unfolding(crate::specs::Lines::request_json))]
fn push_request_object(
    alloc: Global,
    out: &mut Vec<u8>,
    resource: &Resource,
    reports: &[Report<'_>],
) -> Result<(), AllocError>
    ensures { OnOk result (out.new.items
        ≡ out.old.items ++ request_json resource.now (map report_by reports.now)) }
{
    let mut reported = Vec::new(alloc);
    push_reported(alloc, &mut reported, resource, reports)?;
    push_object(
        out,
        &[Member::Items("resourceMetrics", reported.as_slice())],
    )
}

#[tactic(auto, unfolding(crate::specs::Lines::reported_json))]
fn push_reported(
    alloc: Global,
    out: &mut Vec<u8>,
    resource: &Resource,
    reports: &[Report<'_>],
) -> Result<(), AllocError>
    ensures { OnOk result (out.new.items
        ≡ out.old.items ++ reported_json resource.now (map report_by reports.now)) }
{
    let mut own = Vec::new(alloc);
    push_resource(alloc, &mut own, resource.as_slice())?;
    let mut scopes = Vec::new(alloc);
    push_scopes(alloc, &mut scopes, reports)?;
    let members = [
        Member::Object("resource", own.as_slice()),
        Member::Items("scopeMetrics", scopes.as_slice()),
    ];
    push_object(out, &members)
}

#[tactic(auto, unfolding(crate::specs::Lines::resource_json), using(metric_text::specs::ListLaws::joined_is_led))]
fn push_resource(
    alloc: Global,
    out: &mut Vec<u8>,
    attributes: &[OwnedAttr],
) -> Result<(), AllocError>
    ensures { OnOk result (out.new.items ≡ out.old.items ++ resource_json attributes.now) }
{
    let mut items = Vec::new(alloc);
    push_owned(alloc, &mut items, "", attributes)?;
    push_object(out, &[Member::Items("attributes", items.as_slice())])
}

// Writes the scopes of meters, with commas between.
fn push_scopes(alloc: Global, out: &mut Vec<u8>, reports: &[Report<'_>]) -> Result<(), AllocError>
    ensures { OnOk result (out.new.items ≡ out.old.items
        ++ joined scope_json (map report_by reports.now)) }
{
    let Some((first, others)) = reports.split_first() else {
        return Ok(());
    };
    push_scope(alloc, out, first)?;
    push_more_scopes(alloc, out, others)
}

// Writes the scopes of meters, with a comma before each.
#[tactic(auto, using(metric_text::specs::ListLaws::steps))]
fn push_more_scopes(
    alloc: Global,
    out: &mut Vec<u8>,
    reports: &[Report<'_>],
) -> Result<(), AllocError>
    ensures { OnOk result (out.new.items ≡ out.old.items
        ++ flat_map (λ report. 44 ∷ scope_json report) (map report_by reports.now)) }
{
    for report in reports {
        push_byte(out, b',')?;
        push_scope(alloc, out, report)?;
    }
    Ok(())
}

fn push_scope(alloc: Global, out: &mut Vec<u8>, report: &Report<'_>) -> Result<(), AllocError>
    ensures { OnOk result (out.new.items ≡ out.old.items ++ scope_json (report_by report.now)) }
{
    let mut meter = Vec::new(alloc);
    push_meter(&mut meter, report.meter)?;
    let mut metrics = Vec::new(alloc);
    push_metrics(alloc, &mut metrics, report.streams.as_slice())?;
    let schema_url = report.meter.schema_url.as_str();
    push_scoped(out, meter.as_slice(), metrics.as_slice(), schema_url)
}

#[tactic(auto, unfolding(crate::specs::Lines::scoped_json))]
fn push_scoped<'a>(
    out: &mut Vec<u8>,
    scope: &'a [u8],
    metrics: &'a [u8],
    schema_url: &'a str,
) -> Result<(), AllocError>
    ensures { OnOk result (out.new.items
        ≡ out.old.items ++ scoped_json scope.now metrics.now schema_url.now) }
{
    let members = [
        Member::Object("scope", scope),
        Member::Items("metrics", metrics),
        Member::SomeText("schemaUrl", schema_url),
    ];
    push_object(out, &members)
}

#[tactic(auto, unfolding(crate::specs::Lines::meter_json))]
fn push_meter(out: &mut Vec<u8>, meter: &Meter) -> Result<(), AllocError>
    ensures { OnOk result (out.new.items ≡ out.old.items ++ meter_json meter.now) }
{
    let members = [
        Member::SomeText("name", meter.name.as_str()),
        Member::SomeText("version", meter.version.as_str()),
    ];
    push_object(out, &members)
}

// Writes the metrics of streams, with commas between.
fn push_metrics(
    alloc: Global,
    out: &mut Vec<u8>,
    streams: &[Reported<'_>],
) -> Result<(), AllocError>
    ensures { OnOk result (out.new.items ≡ out.old.items
        ++ joined metric_json (map reported_by streams.now)) }
{
    let Some((first, others)) = streams.split_first() else {
        return Ok(());
    };
    push_metric(alloc, out, first)?;
    push_more_metrics(alloc, out, others)
}

// Writes the metrics of streams, with a comma before each.
#[tactic(auto, using(metric_text::specs::ListLaws::steps))]
fn push_more_metrics(
    alloc: Global,
    out: &mut Vec<u8>,
    streams: &[Reported<'_>],
) -> Result<(), AllocError>
    ensures { OnOk result (out.new.items ≡ out.old.items
        ++ flat_map (λ reported. 44 ∷ metric_json reported) (map reported_by streams.now)) }
{
    for reported in streams {
        push_byte(out, b',')?;
        push_metric(alloc, out, reported)?;
    }
    Ok(())
}

#[tactic(auto, unfolding(crate::specs::Lines::metric_json))]
fn push_metric(alloc: Global, out: &mut Vec<u8>, reported: &Reported<'_>) -> Result<(), AllocError>
    ensures { OnOk result
        (out.new.items ≡ out.old.items ++ metric_json (reported_by reported.now)) }
{
    let stream = reported.stream;
    let mut data = Vec::new(alloc);
    push_data(alloc, &mut data, reported)?;
    let members = [
        Member::SomeText("name", stream.name.get().as_str()),
        Member::SomeText("description", stream.description.get().as_str()),
        Member::SomeText("unit", stream.unit.get().as_str()),
        Member::Object(data_name(&stream.aggregation), data.as_slice()),
    ];
    push_object(out, &members)
}

// Writes the points of a stream, and what they cover and whether they only rise.
fn push_data(alloc: Global, out: &mut Vec<u8>, reported: &Reported<'_>) -> Result<(), AllocError>
    ensures { OnOk result (out.new.items ≡ out.old.items
        ++ data_json reported.now.keys.now reported.now.batch.now reported.now.stream.now
        reported.now.points.now) }
{
    let mut items = Vec::new(alloc);
    push_stream_points(alloc, &mut items, reported)?;
    push_covered(out, items.as_slice(), reported.stream)
}

fn push_stream_points(
    alloc: Global,
    out: &mut Vec<u8>,
    reported: &Reported<'_>,
) -> Result<(), AllocError>
    ensures { OnOk result (out.new.items ≡ out.old.items
        ++ points_json reported.now.keys.now reported.now.batch.now reported.now.stream.now
        reported.now.points.now) }
{
    let Reported {
        keys,
        batch,
        stream,
        points,
    } = *reported;
    let kept = stream.kept.get().as_slice();
    let bounds = bounds_of(&stream.aggregation);
    let series = Series::new(alloc, Form::Json, keys, kept, points.len())?;
    push_points(alloc, out, &series, bounds, batch, points)
}

#[tactic(auto, unfolding(crate::specs::Lines::covered_json))]
fn push_covered(out: &mut Vec<u8>, points: &[u8], stream: &Stream) -> Result<(), AllocError>
    ensures { OnOk result (out.new.items ≡ out.old.items ++ covered_json points.now stream.now) }
{
    let covers = covers(stream.temporality, &stream.aggregation);
    let members = [
        Member::Items("dataPoints", points),
        Member::Enum("aggregationTemporality", covers),
        Member::Flag("isMonotonic", rises(stream.kind, &stream.aggregation)),
    ];
    push_object(out, &members)
}

// The member of a metric that has its points.
fn data_name(aggregation: &StreamAggregation) -> &'static str
    ensures { result.now ≡ data_name aggregation.now }
{
    match aggregation {
        StreamAggregation::LastValue => "gauge",
        StreamAggregation::Sum => "sum",
        StreamAggregation::Histogram(_) => "histogram",
    }
}
