//! Names that two families claim, found in an ordered map.
ghost use Rattle.std.specs.Prelude.{◌≡◌, ◌++◌, ℕ, List, Some, None, map, codes, IfOk, OnOk, string_bytes, if◌then◌else◌};
ghost use Rattle.std.specs.BTreeMap.{get_by_text};
ghost use Rattle.std.specs.Str.{bytes_eq};
ghost use Rattle.metric_contents.specs.PlaceLaws.{or_else};
ghost use Rattle.metric_family.specs.Families.{claims_by};
ghost use Rattle.metric_family.specs.Words.{is_among};
ghost use Rattle.metric_exposure.specs.Collisions.{collision_by, is_of_target, name_fault};

use crate::fault::ExposureFault;
use metric_family::MetricType;
use std::alloc::{AllocError, Global};
use std::collections::BTreeMap;

/// The first stream that claims each name.
pub(crate) type Claims = BTreeMap<String, usize>;

/// The fault of the first name of a family that is claimed by the target or an earlier stream.
pub(crate) fn collision_of(
    alloc: Global,
    claims: &Claims,
    number: usize,
    family: &str,
    kind: MetricType,
) -> Result<Option<ExposureFault>, AllocError>
    ensures { IfOk result (λ found. found
        ≡ collision_by number (get_by_text claims.now) (claims_by family.now kind)) }
{
    if family.is_empty() {
        return Ok(None);
    }
    collision_with(alloc, claims, number, family, kind.suffixes())
}

// The same of the names with these ends. It calls itself at most as often as a type has ends.
fn collision_with(
    alloc: Global,
    claims: &Claims,
    number: usize,
    family: &str,
    suffixes: &[&str],
) -> Result<Option<ExposureFault>, AllocError>
    ensures { IfOk result (λ found. found ≡ collision_by number (get_by_text claims.now)
        (map (λ suffix. family.now ++ suffix.now) suffixes.now)) }
{
    let Some((suffix, others)) = suffixes.split_first() else {
        return Ok(None);
    };
    let name = name_of(alloc, family, suffix)?;
    match name_fault(claims, number, name.as_str()) {
        Some(fault) => Ok(Some(fault)),
        None => collision_with(alloc, claims, number, family, others),
    }
}

// The fault of a name that the target claims, or an earlier stream.
fn name_fault(claims: &Claims, number: usize, name: &str) -> Option<ExposureFault>
    ensures { result ≡ name_fault number (get_by_text claims.now) name.now }
{
    if is_of_target(name) {
        return Some(ExposureFault::NameCollision {
            stream: number,
            with: None,
        });
    }
    let other = claims.get(name).copied()?;
    Some(ExposureFault::NameCollision {
        stream: number,
        with: Some(other),
    })
}

// Whether a name is of what describes the target, or of what a server writes itself of each target that it scrapes.
fn is_of_target(name: &str) -> bool
    ensures { result ≡ is_of_target name.now }
{
    matches!(
        name,
        "target"
            | "target_info"
            | "up"
            | "scrape_duration_seconds"
            | "scrape_samples_scraped"
            | "scrape_samples_post_metric_relabeling"
            | "scrape_series_added"
    )
}

/// Keeps the names of a family that no stream claims yet, as those of the stream of this number.
pub(crate) fn add_claims(
    alloc: Global,
    claims: &mut Claims,
    number: usize,
    family: &str,
    kind: MetricType,
) -> Result<(), AllocError>
    ensures { OnOk result ((name : List ℕ) → get_by_text claims.new name
        ≡ or_else (get_by_text claims.old name)
        (if is_among (claims_by family.now kind) name then Some number else None)) }
{
    if family.is_empty() {
        return Ok(());
    }
    add_names(alloc, claims, number, family, kind.suffixes())
}

// The same of the names with these ends. It calls itself at most as often as a type has ends.
fn add_names(
    alloc: Global,
    claims: &mut Claims,
    number: usize,
    family: &str,
    suffixes: &[&str],
) -> Result<(), AllocError>
    ensures { OnOk result ((name : List ℕ) → get_by_text claims.new name
        ≡ or_else (get_by_text claims.old name)
        (if is_among (map (λ suffix. family.now ++ suffix.now) suffixes.now) name
        then Some number else None)) }
{
    let Some((suffix, others)) = suffixes.split_first() else {
        return Ok(());
    };
    let name = name_of(alloc, family, suffix)?;
    add_name(claims, name, number)?;
    add_names(alloc, claims, number, family, others)
}

/// Keeps a name, unless a stream claims it.
pub(crate) fn add_name(claims: &mut Claims, name: String, number: usize) -> Result<(), AllocError>
    ensures { OnOk result ((other : List ℕ) → get_by_text claims.new other
        ≡ or_else (get_by_text claims.old other)
        (if bytes_eq other (string_bytes name) then Some number else None)) }
{
    if claims.contains_key(name.as_str()) {
        return Ok(());
    }
    claims.insert(name, number)?;
    Ok(())
}

// A family's name with what stands after it in the name of a sample.
fn name_of(alloc: Global, family: &str, suffix: &str) -> Result<String, AllocError>
    ensures { IfOk result (λ name. string_bytes name ≡ family.now ++ suffix.now) }
{
    let mut name = String::from_str(alloc, family)?;
    name.push_str(suffix)?;
    Ok(name)
}
