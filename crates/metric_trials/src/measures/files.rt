//! What it costs to read a catalogue, a config and a certificate, to make and check it, to start what it certifies, and
//! to replay a script.
use crate::asserted::{OrFail, Stop};
use crate::measures::Case;
use crate::measures::watch::Watch;
use crate::seats::{Seats, seats_of};
use metric_catalogue::Catalogue;
use metric_cert::Certificate;
use metric_check::check;
use metric_io::{CutSink, CutSource};
use metric_kit_commands::{ReplayOptions, replay};
use metric_make::make;
use metric_marked::Marked;
use metric_views::Config;
use std::alloc::Global;

/// Does a step over the files of the input. A number that depends on it; nothing for an unknown step.
pub(crate) fn done<R: Stop>(
    rt: &R,
    alloc: Global,
    case: &Case<'_>,
    watch: &mut Watch,
) -> Option<u64> {
    match case.act {
        "read-catalogue" => {
            let text = case.input.catalogue.as_str();
            Some(read_catalogue(rt, alloc, text, watch))
        }
        "read-config" => Some(read_config(rt, alloc, case.input.config.as_str(), watch)),
        "start" => Some(start_once(rt, alloc, case, watch)),
        "replay" => Some(replay_once(rt, alloc, case, watch)),
        "make" | "check" | "read-certificate" => Some(certify(rt, alloc, case, watch)),
        _ => None,
    }
}

fn read_catalogue<R: Stop>(rt: &R, alloc: Global, text: &str, watch: &mut Watch) -> u64 {
    watch.start(rt, text.len() as u64);
    let catalogue = Catalogue::read(alloc, text).or_fail(rt);
    watch.stop(rt);
    catalogue.instruments().len() as u64
}

fn read_config<R: Stop>(rt: &R, alloc: Global, text: &str, watch: &mut Watch) -> u64 {
    watch.start(rt, text.len() as u64);
    let config = Config::read(alloc, text).or_fail(rt);
    watch.stop(rt);
    config.views().len() as u64
}

// An instrument and a view of it are a pair.
fn start_once<R: Stop>(rt: &R, alloc: Global, case: &Case<'_>, watch: &mut Watch) -> u64 {
    let plan = case.input.plan(rt, alloc);
    watch.start(rt, u64::from(case.size));
    let seats: Seats<Marked> = seats_of(rt, alloc, plan, 1);
    watch.stop(rt);
    seats.recorders.len() as u64
}

// What is done with files that were read before.
fn certify<R: Stop>(rt: &R, alloc: Global, case: &Case<'_>, watch: &mut Watch) -> u64 {
    let catalogue = Catalogue::read(alloc, case.input.catalogue.as_str()).or_fail(rt);
    let config = Config::read(alloc, case.input.config.as_str()).or_fail(rt);
    watch.start(rt, u64::from(case.size));
    let certificate = make(alloc, &catalogue, &config).or_fail(rt);
    watch.stop(rt);
    let text = certificate.write(alloc).or_fail(rt);
    match case.act {
        "check" => {
            let certificate = Certificate::read(alloc, &text).or_fail(rt);
            watch.start(rt, u64::from(case.size));
            let plan = check(alloc, catalogue, config, &certificate).ok();
            watch.stop(rt);
            plan.or_fail(rt).streams().len() as u64
        }
        "read-certificate" => {
            watch.start(rt, text.len() as u64);
            let certificate = Certificate::read(alloc, &text).or_fail(rt);
            watch.stop(rt);
            certificate.claims().streams.len() as u64
        }
        _ => text.len() as u64,
    }
}

// Replays the file, without a certificate. How many bytes it writes.
fn replay_once<R: Stop>(rt: &R, alloc: Global, case: &Case<'_>, watch: &mut Watch) -> u64 {
    let input = case.input.text.as_bytes();
    let mut source = CutSource::new(input, None);
    let mut sink = CutSink::new(alloc, None);
    let options = ReplayOptions {
        trial: true,
        audit: false,
    };
    watch.start(rt, input.len() as u64);
    replay(alloc, options, &mut source, &mut sink).or_fail(rt);
    watch.stop(rt);
    sink.taken().len() as u64
}
