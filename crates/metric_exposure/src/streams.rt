//! The faults of streams.
ghost use Rattle.std.specs.Prelude.{◌≡◌, ◌++◌, ◌==◌, ◌&&◌, [], ℕ, List, Some, None, IfOk, OnOk, if◌then◌else◌};
ghost use Rattle.std.specs.BTreeMap.{get_by_text};
ghost use Rattle.std.specs.List.{list_any};
ghost use Rattle.std.specs.Str.{bytes_eq};
ghost use Rattle.metric_contents.specs.PlaceLaws.{or_else};
ghost use Rattle.metric_family.specs.Families.{claims_of};
ghost use Rattle.metric_family.specs.Words.{is_among};
ghost use Rattle.metric_exposure.specs.declared.outlet.Outlet.TheVariants.{Otlp, Prometheus};
ghost use Rattle.metric_exposure.specs.Collisions.{is_claimed};
ghost use Rattle.metric_exposure.specs.Exposures.{boundary_faults, exposure_faults, first_of, is_inexact};
ghost use Rattle.metric_exposure.specs.Exposures.{name_faults, page_faults, reserved_of};
ghost use Rattle.metric_exposure.specs.Sharing.{is_scoped, scope_fault, scoped};
ghost use Rattle.metric_exposure.specs.Sources.{boundaries_of};

use crate::collisions::{Claims, add_claims, add_name, collision_of};
use crate::fault::ExposureFault;
use crate::keys::{add_key_faults, reserved_labels};
use crate::sharing::{is_led, scoped};
use crate::sources::{boundaries_of, keys_of, meter_of};
use metric_base::Text;
use metric_catalogue::Catalogue;
use metric_family::{MetricType, family_of};
use metric_views::{Stream, Temporality};
use std::alloc::{AllocError, Global};
use std::collections::BTreeMap;

// The greatest whole number up to which each is a double.
const EXACT: u64 = 1 << 53;

/// The first stream that claims each name, and each scope in a family.
#[derive(Drop)]
pub(crate) struct Taken {
    /// Of each name.
    pub names: Claims,
    /// Of each family with the texts of a scope.
    pub scopes: Claims,
}

/// Puts the faults of a reader's streams for pages last.
pub(crate) fn add_page_faults(
    alloc: Global,
    faults: &mut Vec<ExposureFault>,
    catalogue: &Catalogue,
    streams: &[Stream],
    reader: u32,
) -> Result<(), AllocError>
    ensures { OnOk result (faults.new.items ≡ faults.old.items
        ++ exposure_faults Prometheus catalogue.now streams.now reader) }
{
    let mut taken = Taken {
        names: BTreeMap::new(alloc),
        scopes: BTreeMap::new(alloc),
    };
    for (number, stream) in streams.iter().enumerate() {
        add_faults_for(
            alloc, faults, &mut taken, catalogue, streams, reader, number, stream,
        )?;
    }
    Ok(())
}

// Puts the faults of a stream for pages last, and keeps what it claims, where it is the reader's.
#[tactic(auto, using(crate::proofs::Claimed::or_nothing))]
fn add_faults_for(
    alloc: Global,
    faults: &mut Vec<ExposureFault>,
    taken: &mut Taken,
    catalogue: &Catalogue,
    streams: &[Stream],
    reader: u32,
    number: usize,
    stream: &Stream,
) -> Result<(), AllocError>
    ensures faults { OnOk result (faults.new.items ≡ faults.old.items
        ++ (if stream.now.reader == reader
        then page_faults catalogue.now streams.now (get_by_text taken.old.names)
        (get_by_text taken.old.scopes) number stream.now else [])) }
    ensures names { OnOk result ((name : List ℕ) → get_by_text taken.new.names name
        ≡ or_else (get_by_text taken.old.names name)
        (if is_claimed reader name stream.now then Some number else None)) }
    ensures scopes { OnOk result ((name : List ℕ) → get_by_text taken.new.scopes name
        ≡ or_else (get_by_text taken.old.scopes name)
        (if is_scoped catalogue.now reader name stream.now then Some number else None)) }
{
    if stream.reader != reader {
        return Ok(());
    }
    add_stream_faults(alloc, faults, taken, catalogue, streams, number, stream)
}

// Puts the faults of a stream for pages last, and keeps what it claims.
#[tactic(auto, unfolding(crate::specs::Exposures::page_faults))]
fn add_stream_faults(
    alloc: Global,
    faults: &mut Vec<ExposureFault>,
    taken: &mut Taken,
    catalogue: &Catalogue,
    streams: &[Stream],
    number: usize,
    stream: &Stream,
) -> Result<(), AllocError>
    ensures faults { OnOk result (faults.new.items ≡ faults.old.items
        ++ page_faults catalogue.now streams.now (get_by_text taken.old.names)
        (get_by_text taken.old.scopes) number stream.now) }
    ensures names { OnOk result ((name : List ℕ) → get_by_text taken.new.names name
        ≡ or_else (get_by_text taken.old.names name)
        (if is_among (claims_of stream.now) name then Some number else None)) }
    ensures scopes { OnOk result ((name : List ℕ) → get_by_text taken.new.scopes name
        ≡ or_else (get_by_text taken.old.scopes name)
        (if bytes_eq name (scoped catalogue.now stream.now) then Some number else None)) }
{
    if stream.temporality == Temporality::Delta {
        faults.push(ExposureFault::Delta { stream: number })?;
    }
    add_boundary_fault(faults, number, stream)?;
    add_name_faults(alloc, faults, taken, catalogue, streams, number, stream)?;
    let labels = reserved_of(alloc, catalogue, stream)?;
    let keys = keys_of(catalogue, stream);
    add_key_faults(
        alloc,
        faults,
        number,
        labels,
        keys,
        stream.kept.get().as_slice(),
    )
}

// The labels that no key of a stream may have.
#[tactic(auto, unfolding(crate::specs::Exposures::reserved_of))]
fn reserved_of(
    alloc: Global,
    catalogue: &Catalogue,
    stream: &Stream,
) -> Result<Vec<Text>, AllocError>
    ensures { IfOk result (λ labels. labels.items ≡ reserved_of catalogue.now stream.now) }
{
    let kind = MetricType::of(stream);
    let meter = meter_of(catalogue, stream);
    let keys = keys_of(catalogue, stream);
    reserved_labels(alloc, kind, meter, keys, stream.kept.get().as_slice())
}

// Puts the faults of a stream's names last, and keeps what it claims.
#[tactic(auto, unfolding(metric_family::specs::Families::claims_of))]
fn add_name_faults(
    alloc: Global,
    faults: &mut Vec<ExposureFault>,
    taken: &mut Taken,
    catalogue: &Catalogue,
    streams: &[Stream],
    number: usize,
    stream: &Stream,
) -> Result<(), AllocError>
    ensures faults { OnOk result (faults.new.items ≡ faults.old.items
        ++ name_faults catalogue.now streams.now (get_by_text taken.old.names)
        (get_by_text taken.old.scopes) number stream.now) }
    ensures names { OnOk result ((name : List ℕ) → get_by_text taken.new.names name
        ≡ or_else (get_by_text taken.old.names name)
        (if is_among (claims_of stream.now) name then Some number else None)) }
    ensures scopes { OnOk result ((name : List ℕ) → get_by_text taken.new.scopes name
        ≡ or_else (get_by_text taken.old.scopes name)
        (if bytes_eq name (scoped catalogue.now stream.now) then Some number else None)) }
{
    let text = family_of(alloc, stream)?;
    let family = text.as_str();
    let kind = MetricType::of(stream);
    if family.is_empty() {
        faults.push(ExposureFault::Nameless { stream: number })?;
    }
    let scope = scoped(alloc, catalogue, stream, family)?;
    let found = if is_led(alloc, &taken.names, catalogue, streams, stream, family)? {
        scope_fault(&taken.scopes, number, scope.as_str())
    } else {
        collision_of(alloc, &taken.names, number, family, kind)?
    };
    if let Some(fault) = found {
        faults.push(fault)?;
    }
    add_name(&mut taken.scopes, scope, number)?;
    add_claims(alloc, &mut taken.names, number, family, kind)
}

// The fault of a scope that an earlier stream of its family has.
fn scope_fault(scopes: &Claims, number: usize, scope: &str) -> Option<ExposureFault>
    ensures { result ≡ scope_fault number (get_by_text scopes.now scope.now) }
{
    let other = scopes.get(scope).copied()?;
    Some(ExposureFault::NameCollision {
        stream: number,
        with: Some(other),
    })
}

// Puts the fault of a boundary beyond 2^53 last, where the stream has one.
fn add_boundary_fault(
    faults: &mut Vec<ExposureFault>,
    number: usize,
    stream: &Stream,
) -> Result<(), AllocError>
    ensures { OnOk result (faults.new.items
        ≡ faults.old.items ++ boundary_faults number stream.now) }
{
    if has_inexact_boundary(stream) {
        faults.push(ExposureFault::Boundary { stream: number })?;
    }
    Ok(())
}

// Whether a boundary is below -2^53 or above 2^53.
fn has_inexact_boundary(stream: &Stream) -> bool
    ensures { result ≡ list_any is_inexact (boundaries_of stream.now.aggregation) }
{
    boundaries_of(&stream.aggregation)
        .iter()
        .any(|boundary| boundary.unsigned_abs() > EXACT)
}

/// Puts the faults of a reader's streams for requests of OTLP last.
pub(crate) fn add_otlp_faults(
    faults: &mut Vec<ExposureFault>,
    catalogue: &Catalogue,
    streams: &[Stream],
    reader: u32,
) -> Result<(), AllocError>
    ensures { OnOk result (faults.new.items ≡ faults.old.items
        ++ exposure_faults Otlp catalogue.now streams.now reader) }
{
    // For the proof alone: the catalogue has no part in it.
    let _ = catalogue;
    for (number, stream) in streams.iter().enumerate() {
        add_otlp_fault(faults, reader, number, stream)?;
    }
    Ok(())
}

fn add_otlp_fault(
    faults: &mut Vec<ExposureFault>,
    reader: u32,
    number: usize,
    stream: &Stream,
) -> Result<(), AllocError>
    ensures { OnOk result (faults.new.items ≡ faults.old.items
        ++ (if stream.now.reader == reader then boundary_faults number stream.now else [])) }
{
    if stream.reader != reader {
        return Ok(());
    }
    add_boundary_fault(faults, number, stream)
}

/// The first fault of a reader's streams for requests of OTLP, if there is one.
pub(crate) fn first_otlp_fault(
    catalogue: &Catalogue,
    streams: &[Stream],
    reader: u32,
) -> Result<(), ExposureFault>
    ensures { result ≡ first_of (exposure_faults Otlp catalogue.now streams.now reader) }
{
    // For the proof alone: the catalogue has no part in it.
    let _ = catalogue;
    for (number, stream) in streams.iter().enumerate() {
        if is_inexact_for(reader, stream) {
            return Err(ExposureFault::Boundary { stream: number });
        }
    }
    Ok(())
}

// Whether a stream is the reader's, and has a boundary beyond 2^53.
fn is_inexact_for(reader: u32, stream: &Stream) -> bool
    ensures { result ≡ (stream.now.reader == reader
        && list_any is_inexact (boundaries_of stream.now.aggregation)) }
{
    stream.reader == reader && has_inexact_boundary(stream)
}
