//! Certificates of what is safe.
ghost use Rattle.std.specs.Prelude.{◌≡◌, ◌≤◌, All, IfOk, IsOkUnless, length};
ghost use Rattle.std.specs.Result.{result_err};
ghost use Rattle.metric_catalogue.specs.Sound.{IsSound};
ghost use Rattle.metric_bounds.specs.First.{Reports, Then};
ghost use Rattle.metric_bounds.specs.Safe.{AreDistinct, IsSafe};
ghost use Rattle.metric_resolve.specs.Resolved.{streams_of};
ghost use Rattle.metric_resolve.specs.Warnings.{warnings_of};
ghost use Rattle.metric_make.specs.Finding.{CollisionFinds, InstrumentsFind, LimitsFind, UnsafeFinds, first_collision};
ghost use Rattle.metric_make.specs.Making.{IsMade, IsMadeFor, IsNamed};
ghost use Rattle.metric_cert.specs.Valid.{IsValid};

use crate::bounds::bounds_of;
use crate::fault::MakeFault;
use crate::orders::orders_of;
use crate::reasons::reasons_of;
use crate::streams::entries_of;
use metric_catalogue::Catalogue;
use metric_cert::{Certificate, Claims};
use metric_resolve::{
    Streams, Warning, collisions_are_of_one_identity, resolve, streams_are_what_views_give,
};
use metric_views::{Config, Stream};
use std::alloc::{AllocError, Global};

/// A certificate that a catalogue and a config are safe, or the first part of safety that fails, with what it is about:
/// two streams have one identity; then of each instrument `CountRange`, `AmountRange`, `SumLow` and `SumHigh`; then a
/// stream may have more series than its limit.
///
/// A reason is the first criterion that is given and fails, in the order in which `Criterion` lists them,
/// else what `why` answers of the name pattern. A stream is bounded by product where that is within its
/// limit, else by list where its instrument lists combinations and as many sets are within its limit, else by
/// budget. The certificate's format is that of the catalogue.
pub fn make(alloc: Global, catalogue: &Catalogue, config: &Config) -> Result<Certificate, MakeFault>
    ensures valid { IfOk result (IsValid catalogue.now config.now) }
    ensures made { IfOk result (IsMade catalogue.now config.now) }
    ensures found { Reports MakeFault.Memory (UnsafeFinds catalogue.now config.now) result }
    ensures safe { IfOk result (λ _. IsSafe catalogue.now config.now) }
    ensures accepts { IsSafe catalogue.now config.now → IsOkUnless result MakeFault.Memory }
{
    let resolved = streams_for(alloc, catalogue, config)?;
    are_distinct(catalogue, config, &resolved)?;
    certificate_of(alloc, catalogue, config, resolved.list())
}

// The streams of a config, each with an identity.
fn streams_for(alloc: Global, catalogue: &Catalogue, config: &Config) -> Result<Streams, AllocError>
    ensures list { IfOk result (λ s. s.list ≡ streams_of catalogue.now config.now) }
    ensures warnings { IfOk result (λ s. s.warnings ≡ warnings_of catalogue.now config.now) }
    ensures named { IfOk result (λ s. All (IsNamed catalogue.now) s.list) }
{
    // That each stream has an identity rests on two facts: the catalogue is sound, which it tells where
    // it is read, and its streams are what its views give.
    let _instruments = catalogue.instruments();
    streams_are_what_views_give();
    resolve(alloc, catalogue, config)
}

// The fault where two streams have one identity, of which there is a warning then.
fn are_distinct(catalogue: &Catalogue, config: &Config, resolved: &Streams) -> Result<(), MakeFault>
    requires list { resolved.now.list ≡ streams_of catalogue.now config.now }
    requires warnings { resolved.now.warnings ≡ warnings_of catalogue.now config.now }
    requires named { All (IsNamed catalogue.now) resolved.now.list }
    ensures { CollisionFinds catalogue.now resolved.now.list resolved.now.warnings
        (result_err result) }
{
    // What the warnings mean.
    collisions_are_of_one_identity();
    match first_collision(resolved.warnings()) {
        Some(fault) => Err(fault),
        None => Ok(()),
    }
}

// The first collision of which there is a warning.
fn first_collision(warnings: &[Warning]) -> Option<MakeFault>
    ensures { result ≡ first_collision warnings.now }
{
    for warning in warnings {
        if let Warning::Collision { a, b } = *warning {
            return Some(MakeFault::Collision { first: a, later: b });
        }
    }
    None
}

// The certificate for streams of distinct identities, part for part, or the first fault.
fn certificate_of(
    alloc: Global,
    catalogue: &Catalogue,
    config: &Config,
    streams: &[Stream],
) -> Result<Certificate, MakeFault>
    requires few { length streams.now ≤ 2097152 }
    requires named { All (IsNamed catalogue.now) streams.now }
    requires distinct { AreDistinct catalogue.now streams.now }
    ensures made { IfOk result (IsMadeFor catalogue.now config.now streams.now) }
    ensures found { Reports MakeFault.Memory
        (Then (InstrumentsFind catalogue.now streams.now) (LimitsFind catalogue.now streams.now))
        result }
{
    let bounds = bounds_of(alloc, catalogue, streams)?;
    let entries = entries_of(alloc, catalogue, bounds.as_slice(), streams)?;
    let orders = orders_of(alloc, catalogue, config, streams)?;
    let reasons = reasons_of(alloc, catalogue, config)?;
    let claims = Claims {
        format: format_of(catalogue),
        reasons,
        streams: entries,
        bounds,
        orders,
    };
    Ok(Certificate::made(claims))
}

// The format of the catalogue, which says whether an instrument may list combinations.
fn format_of(catalogue: &Catalogue) -> u16
    ensures format { result ≡ catalogue.now.format }
    ensures sound { IsSound catalogue.now }
{
    u16::from(catalogue.format())
}
