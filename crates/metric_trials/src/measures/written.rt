//! What it costs to write the points of a batch.
use crate::asserted::{OrFail, Stop};
use crate::measures::Case;
use crate::measures::recording::batch_of;
use crate::measures::watch::Watch;
use metric_contents::Attr;
use metric_export::{Encoding, Plain};
use metric_exposition::Dialect;
use metric_outlets::{Exposition, OtlpBytes, OtlpLines};
use metric_resource::Resource;
use std::alloc::Global;

// Between what times the points lie, in nanoseconds since 1970.
const BEGIN: u64 = 1_700_000_000_123_456_789;

const TIME: u64 = 1_700_000_010_000_000_000;

/// Writes a batch as text, as a request or a line of OTLP, or as the lines of a page. How many bytes there are; nothing
/// for an unknown way.
pub(crate) fn done<R: Stop>(
    rt: &R,
    alloc: Global,
    case: &Case<'_>,
    watch: &mut Watch,
) -> Option<u64> {
    let plan = case.input.plan(rt, alloc);
    let resource = Resource::new(alloc, &[Attr::text("service.name", "bench")]).or_fail(rt);
    match case.act {
        "text" => Some(write(rt, alloc, case, &Plain, watch)),
        "otlp-bytes" => {
            let bytes = OtlpBytes::new(&plan, 0, resource).or_fail(rt);
            Some(write(rt, alloc, case, &bytes, watch))
        }
        "otlp-line" => {
            let lines = OtlpLines::new(&plan, 0, resource).or_fail(rt);
            Some(write(rt, alloc, case, &lines, watch))
        }
        "page" => {
            let page = Exposition::new(Dialect::Text);
            Some(write(rt, alloc, case, &page, watch))
        }
        _ => None,
    }
}

// Writes a batch of one recording of each series, after the buffer has grown. How many bytes there are.
fn write<R: Stop, E: Encoding>(
    rt: &R,
    alloc: Global,
    case: &Case<'_>,
    encoding: &E,
    watch: &mut Watch,
) -> u64 {
    let plan = case.input.plan(rt, alloc);
    let mut batch = batch_of(rt, alloc, case, watch);
    batch.start = BEGIN;
    batch.time = TIME;
    let mut out = Vec::new(alloc);
    encoding.push(alloc, &mut out, &plan, &batch).or_fail(rt);
    out.clear();
    watch.start(rt, u64::from(case.size));
    encoding.push(alloc, &mut out, &plan, &batch).or_fail(rt);
    watch.stop(rt);
    out.len() as u64
}
