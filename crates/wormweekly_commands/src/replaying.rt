//! A script replayed.
ghost use Rattle.std.specs.Prelude.{◌≡◌, ◌≢◌, IfOk, Some, is_some, not};
ghost use Rattle.metric_kit_commands.specs.Commands.{HasNeeded, sink_run};
ghost use Rattle.metric_kit_commands.specs.Replaying.{needs_of, plain_options};
ghost use Rattle.metric_parts.specs.Reading.{texts};
ghost use Rattle.wormweekly_commands.specs.Inputs.{IsReplayIn, script_of};

use metric_base::Text;
use metric_command_lines::{Form, Request};
use metric_export::Encoding;
use metric_history::Batch;
use metric_io::Sink;
use metric_kit_commands::{KitFault, ReplayOptions, replay_encoded, replay_parts};
use metric_otlp::{push_line, push_request};
use metric_parts::{Parts, Script};
use metric_plan::Plan;
use metric_resource::Resource;
use std::alloc::{AllocError, Global};
use std::slice::from_ref;

// How batches are written in OTLP, with the attributes of a resource.
#[derive(Clone, Copy)]
enum Otlp<'a> {
    Line(&'a Resource),
    Request(&'a Resource),
}

impl Encoding for Otlp<'_> {
    ghost use Rattle.wormweekly_commands.specs.Encodings.{otlp_text};

    ghost text = { otlp_text };

    fn takes(&self, _plan: u64, _reader: u32) -> bool {
        true
    }

    fn push(
        &self,
        alloc: Global,
        out: &mut Vec<u8>,
        plan: &Plan,
        batch: &Batch,
    ) -> Result<(), AllocError> {
        let (catalogue, streams) = (plan.catalogue(), plan.streams());
        let batches = from_ref(batch);
        match self {
            Otlp::Line(resource) => push_line(alloc, out, resource, catalogue, streams, batches),
            Otlp::Request(resource) => {
                push_request(alloc, out, resource, catalogue, streams, batches)
            }
        }
    }
}

/// Replays the script of parts in the form that is asked for, which is no page. A refused replay writes nothing.
pub(crate) fn replay_in_form<W: Sink>(
    alloc: Global,
    request: &Request,
    trial: bool,
    parts: &Parts<'_>,
    sink: &mut W,
) -> Result<(), KitFault>
    requires needed { HasNeeded (needs_of (plain_options trial)) parts.now }
    requires text { request.now.options.form ≢ Form.Prometheus }
    requires metrics { request.now.options.form ≢ Form.OpenMetrics }
    requires created { request.now.options.form ≢ Form.OpenMetricsCreated }
    ensures { IsReplayIn request.now.options.form request.now.resource trial
        request.now.options.audit parts.now
        (sink_run W.contents W.failures sink.old sink.new) result }
{
    let audit = request.options.audit;
    let resource = &request.resource;
    match request.options.form {
        Form::Replies => replay_parts(alloc, ReplayOptions { trial, audit }, parts, sink),
        Form::OtlpLines => replay_encoded(alloc, trial, &Otlp::Line(resource), parts, sink),
        Form::OtlpBytes => replay_encoded(alloc, trial, &Otlp::Request(resource), parts, sink),
        Form::Prometheus | Form::OpenMetrics | Form::OpenMetricsCreated => unreachable!(),
    }
}

/// The parts of a replay: those of its files, with the lines of its script.
pub(crate) fn scripted<'a>(
    alloc: Global,
    parts: &Parts<'_>,
    lines: &'a [&'a [u8]],
) -> Result<Parts<'a>, AllocError>
    ensures { IfOk result (λ all.
        all ≡ record parts.now { script = Some (script_of (texts lines.entry.now)) }) }
{
    Ok(Parts {
        catalogue: Text::new(alloc, parts.catalogue.as_str())?,
        opens: parts.opens,
        config: Text::new(alloc, parts.config.as_str())?,
        certificate: copied(alloc, &parts.certificate)?,
        script: Some(Script::of_lines(lines)),
    })
}

// The same text, where there is one.
fn copied(alloc: Global, text: &Option<Text>) -> Result<Option<Text>, AllocError>
    ensures { IfOk result (λ copy. copy ≡ text.now) }
{
    match text {
        Some(text) => Ok(Some(Text::new(alloc, text.as_str())?)),
        None => Ok(None),
    }
}

/// Whether a replay is a trial: it is one without a certificate.
pub(crate) fn is_trial(parts: &Parts<'_>) -> bool
    ensures { result ≡ not (is_some parts.now.certificate) }
{
    !parts.certificate.is_some()
}
