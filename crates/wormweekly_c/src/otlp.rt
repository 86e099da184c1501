//! Batches in the encodings of OTLP.
ghost use Rattle.std.specs.Prelude.{◌≡◌, ◌≢◌, ◌⊎◌, IfOk};
ghost use Rattle.std.specs.Option.{MatchOption};
ghost use Rattle.wormweekly_c.specs.Codes.{WhereHeld, reader_in};
ghost use Rattle.wormweekly_c.specs.Otlp.{AnswersOtlp, encoded, line_of, request_of};
ghost use Rattle.wormweekly_c.specs.Resources.{resource_from};
ghost use Rattle.wormweekly_c.specs.Texts.{AnswersText};

use crate::attributes::Attribute;
use crate::codes::{MEMORY, NOT_OPEN, UNKNOWN};
use crate::handles::Handle;
use crate::held::Held;
use crate::resources::{code_of, resource_from};
use crate::texts::copy_text;
use metric_hosted::HostedReader;
use metric_otlp::{push_line, push_request};
use metric_resource::Resource;
use std::alloc::{AllocError, Global};

/// Writes the batches that a reader keeps in the OpenTelemetry protocol, with the attributes of what produces the
/// metrics, if there is room for all of it, and its length: as a message `ExportMetricsServiceRequest` (`json` 0), or
/// as a line of JSON (1). It is empty before a batch, and where no batch has points. Requests one after the other are
/// one request.
#[unsafe(no_mangle)]
pub extern "C" fn wormweekly_otlp(
    alloc: Global,
    reader: &mut Handle,
    json: u32,
    texts: &[u8],
    given: &[Attribute],
    out: &mut [u8],
    text_length: &mut usize,
) -> u32
    ensures answer { let read = resource_from given.now texts.now in
        WhereHeld (reader_in reader.old) (result ≡ 100) (λ own.
        AnswersOtlp own json read out.old out.new text_length.new result ⊎ (result ≡ 11)) }
    ensures reader { reader.new.value ≡ reader.old.value }
    ensures refused { result ≢ 0 → out.new ≡ out.old }
    ensures length { result ≢ 0 → result ≢ 102 → text_length.new ≡ text_length.old }
{
    let held = reader.take(alloc);
    let code = match held.as_deref() {
        Some(Held::Reader(own)) => write_given(alloc, own, json, texts, given, out, text_length),
        _ => NOT_OPEN,
    };
    reader.put(alloc, held);
    code
}

// Reads the attributes, and writes the batch.
fn write_given(
    alloc: Global,
    own: &HostedReader,
    json: u32,
    texts: &[u8],
    given: &[Attribute],
    out: &mut [u8],
    text_length: &mut usize,
) -> u32
    ensures answer { let read = resource_from given.now texts.now in
        AnswersOtlp own.now json read out.old out.new text_length.new result ⊎ (result ≡ 11) }
    ensures refused { result ≢ 0 → out.new ≡ out.old }
    ensures length { result ≢ 0 → result ≢ 102 → text_length.new ≡ text_length.old }
{
    match resource_from(alloc, texts, given) {
        Err(why) => code_of(&why),
        Ok(resource) => write_encoded(alloc, own, json, &resource, out, text_length),
    }
}

fn write_encoded(
    alloc: Global,
    own: &HostedReader,
    json: u32,
    resource: &Resource,
    out: &mut [u8],
    text_length: &mut usize,
) -> u32
    ensures answer { MatchOption (encoded json own.now resource.now) (result ≡ 106) (λ text.
        AnswersText text out.old out.new text_length.new result ⊎ (result ≡ 11)) }
    ensures refused { result ≢ 0 → out.new ≡ out.old }
    ensures length { result ≢ 0 → result ≢ 102 → text_length.new ≡ text_length.old }
{
    let encoded = match json {
        0 => request_of(alloc, own, resource),
        1 => line_of(alloc, own, resource),
        _ => return UNKNOWN,
    };
    match encoded {
        Err(_) => MEMORY,
        Ok(bytes) => copy_text(bytes.as_slice(), out, text_length),
    }
}

// The request of the batches that a reader keeps.
fn request_of(alloc: Global, own: &HostedReader, resource: &Resource) -> Result<Vec<u8>, AllocError>
    ensures { IfOk result (λ bytes. bytes.items ≡ request_of own.now resource.now) }
{
    let mut out = Vec::new(alloc);
    let plan = own.plan.get();
    let kept = own.kept.as_slice();
    push_request(
        alloc,
        &mut out,
        resource,
        plan.catalogue(),
        plan.streams(),
        kept,
    )?;
    Ok(out)
}

// The same as a line of JSON.
fn line_of(alloc: Global, own: &HostedReader, resource: &Resource) -> Result<Vec<u8>, AllocError>
    ensures { IfOk result (λ bytes. bytes.items ≡ line_of own.now resource.now) }
{
    let mut out = Vec::new(alloc);
    let plan = own.plan.get();
    let kept = own.kept.as_slice();
    push_line(
        alloc,
        &mut out,
        resource,
        plan.catalogue(),
        plan.streams(),
        kept,
    )?;
    Ok(out)
}
