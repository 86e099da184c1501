//! The calls that lead to a plan, and those over what a run came to.
use crate::asserted::{OrFail, Stop};
use crate::inputs::Input;
use crate::mark::mark;
use crate::refusals::Asked;
use crate::refusals::answers::{Answers, push, push_fault};
use crate::refusals::played::played;
use crate::seats::{Seats, audited, seats_of};
use metric_audit::{AuditFault, Audited};
use metric_catalogue::Catalogue;
use metric_cert::Certificate;
use metric_check::check;
use metric_history::{Batch, Reply};
use metric_io::{CutSource, StdSink};
use metric_kit_commands::{KitFault, ReplayOptions, replay};
use metric_make::make;
use metric_plan::{CheckFault, Plan};
use metric_views::Config;
use std::alloc::{AllocError, Global};
use std::fmt::Debug;

// A plan, or what was handed in and the fault.
type Planned = Result<Plan, (Catalogue, Config, CheckFault)>;

/// Makes a call that needs no book. Whether it is known.
pub(crate) fn is_answered<R: Stop>(
    answers: &mut Answers,
    rt: &R,
    alloc: Global,
    asked: &Asked<'_>,
) -> bool {
    match asked.call {
        "make" => answer_make(answers, rt, alloc, asked.input),
        "write" => answer_write(answers, rt, alloc, asked.input),
        "read" => answer_read(answers, rt, alloc, asked.input),
        "check" => answer_plan(answers, rt, alloc, asked.input, true),
        "trial" => answer_plan(answers, rt, alloc, asked.input, false),
        "audit" => answer_audit(answers, rt, alloc, asked.input),
        "replay" => answer_replay(answers, rt, alloc, asked.input),
        _ => return false,
    }
    true
}

fn catalogue_of<R: Stop>(rt: &R, alloc: Global, input: &Input) -> Catalogue {
    Catalogue::read(alloc, input.catalogue.as_str()).or_fail(rt)
}

fn config_of<R: Stop>(rt: &R, alloc: Global, input: &Input) -> Config {
    Config::read(alloc, input.config.as_str()).or_fail(rt)
}

fn certificate_of<R: Stop>(rt: &R, alloc: Global, input: &Input) -> Certificate {
    let catalogue = catalogue_of(rt, alloc, input);
    make(alloc, &catalogue, &config_of(rt, alloc, input)).or_fail(rt)
}

// Makes a certificate.
fn answer_make<R: Stop>(answers: &mut Answers, rt: &R, alloc: Global, input: &Input) {
    let catalogue = catalogue_of(rt, alloc, input);
    let config = config_of(rt, alloc, input);
    mark(alloc);
    let first = make(alloc, &catalogue, &config);
    mark(alloc);
    push_certificate(rt, &mut answers.first, alloc, first);
    let second = make(alloc, &catalogue, &config);
    push_certificate(rt, &mut answers.second, alloc, second);
}

// Reads a certificate.
fn answer_read<R: Stop>(answers: &mut Answers, rt: &R, alloc: Global, input: &Input) {
    let text = certificate_of(rt, alloc, input).write(alloc).or_fail(rt);
    mark(alloc);
    let first = Certificate::read(alloc, &text);
    mark(alloc);
    push_certificate(rt, &mut answers.first, alloc, first);
    let second = Certificate::read(alloc, &text);
    push_certificate(rt, &mut answers.second, alloc, second);
}

fn push_certificate<R: Stop, E: Debug + Drop>(
    rt: &R,
    out: &mut String,
    alloc: Global,
    answer: Result<Certificate, E>,
) {
    match answer {
        Ok(certificate) => push_written(rt, out, certificate.write(alloc)),
        Err(fault) => push_fault(rt, out, &fault),
    }
}

// Writes a certificate.
fn answer_write<R: Stop>(answers: &mut Answers, rt: &R, alloc: Global, input: &Input) {
    let certificate = certificate_of(rt, alloc, input);
    mark(alloc);
    let first = certificate.write(alloc);
    mark(alloc);
    push_written(rt, &mut answers.first, first);
    push_written(rt, &mut answers.second, certificate.write(alloc));
}

fn push_written<R: Stop>(rt: &R, out: &mut String, answer: Result<String, AllocError>) {
    match answer {
        Ok(text) => push(rt, out, &text),
        Err(fault) => push_fault(rt, out, &fault),
    }
}

// Checks a certificate, or tries a catalogue and a config without one.
fn answer_plan<R: Stop>(
    answers: &mut Answers,
    rt: &R,
    alloc: Global,
    input: &Input,
    is_checked: bool,
) {
    let certificate = match is_checked {
        true => Some(certificate_of(rt, alloc, input)),
        false => None,
    };
    let (catalogue, config) = (catalogue_of(rt, alloc, input), config_of(rt, alloc, input));
    mark(alloc);
    let first = planned(alloc, catalogue, config, &certificate);
    mark(alloc);
    match first {
        Ok(plan) => push_plan(rt, &mut answers.first, &plan),
        Err((catalogue, config, fault)) => {
            push_fault(rt, &mut answers.first, &fault);
            let second = planned(alloc, catalogue, config, &certificate);
            push_plan(rt, &mut answers.second, &second.ok().or_fail(rt));
        }
    }
}

fn planned(
    alloc: Global,
    catalogue: Catalogue,
    config: Config,
    certificate: &Option<Certificate>,
) -> Planned {
    match certificate {
        None => Plan::trial(alloc, catalogue, config),
        Some(certificate) => match check(alloc, catalogue, config, certificate) {
            Ok(plan) => Ok(plan),
            Err((catalogue, config, refused)) => Err((catalogue, config, refused.fault)),
        },
    }
}

fn push_plan<R: Stop>(rt: &R, out: &mut String, plan: &Plan) {
    let (count, is_certified) = (plan.streams().len(), plan.is_certified());
    writeln!(out, "plan of {count} streams, certified: {is_certified}").or_fail(rt);
}

// Audits the first instrument after the script.
fn answer_audit<R: Stop>(answers: &mut Answers, rt: &R, alloc: Global, input: &Input) {
    let plan = input.plan(rt, alloc);
    let mut seats: Seats<Audited> = seats_of(rt, alloc, input.plan(rt, alloc), 1);
    let replies = played(rt, alloc, &mut seats, &input.events);
    let batches = first_batches(rt, alloc, replies);
    let totals = seats.finish(rt, alloc);
    mark(alloc);
    let first = audited(rt, alloc, &plan, 0, &totals, &batches);
    mark(alloc);
    push_audited(rt, &mut answers.first, first);
    let second = audited(rt, alloc, &plan, 0, &totals, &batches);
    push_audited(rt, &mut answers.second, second);
}

// The batches of the first instrument among replies.
fn first_batches<R: Stop>(rt: &R, alloc: Global, replies: Vec<Reply>) -> Vec<Batch> {
    let mut batches = Vec::new(alloc);
    for reply in replies {
        if let Reply::Collected(batch) = reply
            && batch.instrument == 0
        {
            batches.push(batch).ok().or_fail(rt);
        }
    }
    batches
}

fn push_audited<R: Stop>(rt: &R, out: &mut String, answer: Result<u64, AuditFault>) {
    match answer {
        Ok(_) => push(rt, out, "audited\n"),
        Err(fault) => push_fault(rt, out, &fault),
    }
}

// Room for all that a replay writes, so that its sink asks for none while it is called.
const ROOM: usize = 1_000_000;

// With a certificate, and without an audit.
const OPTIONS: ReplayOptions = ReplayOptions {
    trial: false,
    audit: false,
};

const SCRIPT: &str = "%% script\n";

// Replays the input with its certificate.
fn answer_replay<R: Stop>(answers: &mut Answers, rt: &R, alloc: Global, input: &Input) {
    let certificate = certificate_of(rt, alloc, input).write(alloc).or_fail(rt);
    let (head, script) = input.text.as_str().split_once(SCRIPT).or_fail(rt);
    let text = format!(in alloc; "{head}%% certificate\n{certificate}{SCRIPT}{script}").or_fail(rt);
    let mut sink = sink_with_room(rt, alloc);
    let mut source = CutSource::new(text.as_bytes(), None);
    mark(alloc);
    let first = replay(alloc, OPTIONS, &mut source, &mut sink);
    mark(alloc);
    push_replayed(rt, &mut answers.first, first, sink);
    let mut sink = sink_with_room(rt, alloc);
    let mut source = CutSource::new(text.as_bytes(), None);
    let second = replay(alloc, OPTIONS, &mut source, &mut sink);
    push_replayed(rt, &mut answers.second, second, sink);
}

// A sink in memory.
type Held = StdSink<Vec<u8>>;

fn sink_with_room<R: Stop>(rt: &R, alloc: Global) -> Held {
    StdSink::new(Vec::with_capacity(alloc, ROOM).or_fail(rt))
}

// Adds what was written, and how the replay ended.
fn push_replayed<R: Stop>(rt: &R, out: &mut String, answer: Result<(), KitFault>, sink: Held) {
    let written = sink.into_inner();
    push(rt, out, str::from_utf8(written.as_slice()).or_fail(rt));
    match answer {
        Ok(()) => push(rt, out, "all replayed\n"),
        Err(fault) => push_fault(rt, out, &fault),
    }
}
