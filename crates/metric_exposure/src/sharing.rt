//! Streams of several meters that stand under one name.
ghost use Rattle.std.specs.Prelude.{◌≡◌, ◌++◌, Some, IfOk, OnOk, string_bytes};
ghost use Rattle.metric_family.specs.Families.{family};
ghost use Rattle.metric_family.specs.Labels.{label_of, scope_names};
ghost use Rattle.metric_family.specs.Words.{is_among};
ghost use Rattle.metric_exposure.specs.Sharing.{are_shared, is_alike, is_led_by, is_scope_kept, keeps_scope, scope_text, scoped};
ghost use Rattle.metric_exposure.specs.Sources.{boundaries_of};
ghost use Rattle.std.specs.BTreeMap.{get_by_text};

use crate::collisions::Claims;
use crate::sources::{boundaries_of, keys_of, meter_of};
use metric_catalogue::Catalogue;
use metric_contents::{Key, Meter};
use metric_family::{MetricType, family_of, label_of, unit_text_of};
use metric_views::Stream;
use std::alloc::{AllocError, Global};

/// Whether a stream may stand under the name of the first one that claims this name, that of its family.
pub(crate) fn is_led(
    alloc: Global,
    claims: &Claims,
    catalogue: &Catalogue,
    streams: &[Stream],
    stream: &Stream,
    name: &str,
) -> Result<bool, AllocError>
    requires { name.now ≡ family stream.now }
    ensures { IfOk result (λ answer. answer ≡ is_led_by catalogue.now streams.now stream.now
        (get_by_text claims.now name.now)) }
{
    let Some(leader) = claims.get(name) else {
        return Ok(false);
    };
    let Some(other) = streams.get(*leader) else {
        return Ok(false);
    };
    are_shared(alloc, catalogue, other, stream, name)
}

// Whether two streams may stand under this name, the second's own.
#[tactic(auto, unfolding(crate::specs::Sharing::are_shared))]
fn are_shared(
    alloc: Global,
    catalogue: &Catalogue,
    other: &Stream,
    stream: &Stream,
    name: &str,
) -> Result<bool, AllocError>
    requires { name.now ≡ family stream.now }
    ensures { IfOk result (λ answer. answer ≡ are_shared catalogue.now other.now stream.now) }
{
    if !is_alike(alloc, other, stream, name)? {
        return Ok(false);
    }
    if is_scope_kept(alloc, catalogue, other)? {
        return Ok(false);
    }
    let is_kept = is_scope_kept(alloc, catalogue, stream)?;
    Ok(!is_kept)
}

// Whether two streams have one family, type, unit and boundaries, where the second's family has this name. Texts are
// made only where what needs none is the same.
fn is_alike(alloc: Global, other: &Stream, stream: &Stream, name: &str) -> Result<bool, AllocError>
    requires { name.now ≡ family stream.now }
    ensures { IfOk result (λ answer. answer ≡ is_alike other.now stream.now) }
{
    if MetricType::of(other).name() != MetricType::of(stream).name()
        || boundaries_of(&other.aggregation) != boundaries_of(&stream.aggregation)
    {
        return Ok(false);
    }
    let family = family_of(alloc, other)?;
    if family.as_str() != name {
        return Ok(false);
    }
    let unit = unit_text_of(alloc, other)?;
    let own_unit = unit_text_of(alloc, stream)?;
    Ok(unit.as_str() == own_unit.as_str())
}

// Whether a kept key of a stream has a label of the scope.
fn is_scope_kept(alloc: Global, catalogue: &Catalogue, stream: &Stream) -> Result<bool, AllocError>
    ensures { IfOk result (λ answer. answer ≡ is_scope_kept catalogue.now stream.now) }
{
    keeps_scope(
        alloc,
        keys_of(catalogue, stream),
        stream.kept.get().as_slice(),
    )
}

// The same of these keys. It calls itself at most as often as there are keys.
fn keeps_scope(alloc: Global, keys: &[Key], kept: &[bool]) -> Result<bool, AllocError>
    ensures { IfOk result (λ answer. answer ≡ keeps_scope keys.now kept.now) }
{
    let Some((key, keys)) = keys.split_first() else {
        return Ok(false);
    };
    let Some((is_kept, kept)) = kept.split_first() else {
        return Ok(false);
    };
    if *is_kept && is_scope_label(alloc, key)? {
        return Ok(true);
    }
    keeps_scope(alloc, keys, kept)
}

fn is_scope_label(alloc: Global, key: &Key) -> Result<bool, AllocError>
    ensures { IfOk result (λ answer. answer ≡ is_among scope_names (label_of key.now.name)) }
{
    let label = label_of(alloc, key.name.as_str())?;
    Ok(matches!(
        label.as_str(),
        "otel_scope_name" | "otel_scope_version" | "otel_scope_schema_url"
    ))
}

/// A family with the texts of the scope of a stream, by which streams of one family are told apart.
#[tactic(auto, unfolding(crate::specs::Sharing::scoped))]
pub(crate) fn scoped(
    alloc: Global,
    catalogue: &Catalogue,
    stream: &Stream,
    name: &str,
) -> Result<String, AllocError>
    requires { name.now ≡ family stream.now }
    ensures { IfOk result (λ text. string_bytes text ≡ scoped catalogue.now stream.now) }
{
    let mut text = String::from_str(alloc, name)?;
    if let Some(meter) = meter_of(catalogue, stream) {
        push_scope(&mut text, meter)?;
    }
    Ok(text)
}

fn push_scope(name: &mut String, meter: &Meter) -> Result<(), AllocError>
    ensures { OnOk result (string_bytes name.new
        ≡ string_bytes name.old ++ scope_text (Some meter.now)) }
{
    name.push_str("\n")?;
    name.push_str(meter.name.as_str())?;
    name.push_str("\n")?;
    name.push_str(meter.version.as_str())?;
    name.push_str("\n")?;
    name.push_str(meter.schema_url.as_str())
}
