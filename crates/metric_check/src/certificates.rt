//! The check of a certificate.
ghost use Rattle.std.specs.Prelude.{◌≡◌, ◌≢◌, IfErr, IfOk, OnOk, Some, true};
ghost use Rattle.metric_bounds.specs.First.{Reports};
ghost use Rattle.metric_cert.specs.Valid.{IsValid};
ghost use Rattle.metric_bounds.specs.Safe.{AreSafe};
ghost use Rattle.metric_plan.specs.Plans.{ProductsFit, plan_of};
ghost use Rattle.metric_resolve.specs.Resolved.{streams_of};
ghost use Rattle.metric_check.specs.Findings.{CheckFinds, StreamsFind, of_none};
ghost use Rattle.metric_check.specs.Products.{by_product_of, entry_flags, is_product};

use crate::bounds::check_bounds;
use crate::entries::check_entries;
use crate::fault::ClaimFault;
use crate::limits::check_limits;
use crate::orders::check_orders;
use crate::reasons::check_reasons;
use crate::selection::ByReasons;
use metric_base::Items;
use metric_catalogue::Catalogue;
use metric_cert::{By, Certificate, Claims, StreamSets};
use metric_glob::Pattern;
use metric_plan::{CheckFault, Plan};
use metric_resolve::{StreamList, streams_by};
use metric_views::{Config, Stream};
use std::alloc::{AllocError, Global};

/// The certified plan of a catalogue and a config, where a certificate shows that they can overflow neither
/// a limit nor a number, whoever made it. A stream of the plan is by product where its entry says so.
///
/// The faults are tried in these steps: the reasons of all pairs of a view and an instrument, by view
/// (`PairMissing`, `BadTakes`, `BadMiss`, `BadRows`); the streams that the reasons give (`StreamStrange`,
/// `StreamMissing`); the orders of the readers (`BadOrder`); the bounds of each instrument (`CountRange`,
/// `AmountRange`, `SumLow`, `SumHigh`); the number of series of each stream, and the list of one by list
/// (`BadSets`, `LimitExceeded`).
/// The first fault of the first step that fails is answered, with the first entry that it is of. `Memory`, which is of
/// no entry, may stand in place of any. Where there is no plan, catalogue and config are handed back.
pub fn check(
    alloc: Global,
    catalogue: Catalogue,
    config: Config,
    certificate: &Certificate,
) -> Result<Plan, (Catalogue, Config, ClaimFault)>
    ensures plan { IfOk result (λ plan.
        plan ≡ plan_of true (by_product_of certificate.now) catalogue config) }
    ensures valid { OnOk result (IsValid catalogue config certificate.now) }
    ensures fault { IfErr result (λ refused. refused.2 ≢ of_none CheckFault.Memory
        → CheckFinds catalogue config certificate.now (Some refused.2)) }
    ensures memory { IfErr result (λ refused. IsValid catalogue config certificate.now
        → refused.2 ≡ of_none CheckFault.Memory) }
    ensures back { IfErr result (λ refused. (refused.0 ≡ catalogue) × (refused.1 ≡ config)) }
{
    // What each catalogue keeps is among the reasons why a valid certificate shows safety.
    let _ = catalogue.meters();
    match checked_streams(alloc, &catalogue, &config, certificate) {
        Ok(checked) => {
            let CheckedStreams {
                streams,
                by_product,
            } = checked;
            certified(alloc, catalogue, config, streams, by_product)
        }
        Err(fault) => Err((catalogue, config, fault)),
    }
}

// The plan of streams that are safe. It is refused only when out of memory.
fn certified(
    alloc: Global,
    catalogue: Catalogue,
    config: Config,
    streams: StreamList,
    by_product: Items<bool>,
) -> Result<Plan, (Catalogue, Config, ClaimFault)>
    requires streams { streams ≡ streams_of catalogue config }
    requires safe { AreSafe catalogue streams }
    requires products { ProductsFit catalogue by_product streams }
    ensures plan { IfOk result (λ plan. plan ≡ plan_of true by_product catalogue config) }
    ensures memory { IfErr result (λ refused. refused.2 ≡ of_none CheckFault.Memory) }
    ensures back { IfErr result (λ refused. (refused.0 ≡ catalogue) × (refused.1 ≡ config)) }
{
    match Plan::certified(alloc, catalogue, config, streams, by_product) {
        Ok(plan) => Ok(plan),
        Err((catalogue, config, fault)) => Err((catalogue, config, ClaimFault::of_none(fault))),
    }
}

// The streams of a config, and a flag for each that says whether its entry is by product.
struct CheckedStreams {
    streams: StreamList,
    by_product: Items<bool>,
}

// The streams, where no step has a fault.
fn checked_streams(
    alloc: Global,
    catalogue: &Catalogue,
    config: &Config,
    certificate: &Certificate,
) -> Result<CheckedStreams, ClaimFault>
    ensures found { Reports (of_none CheckFault.Memory)
        (CheckFinds catalogue.now config.now certificate.now) result }
    ensures streams { IfOk result (λ checked.
        checked.streams ≡ streams_of catalogue.now config.now) }
    ensures by_product { IfOk result (λ checked.
        checked.by_product ≡ by_product_of certificate.now) }
{
    let any = Pattern::any(alloc)?;
    let claims = certificate.claims();
    let reasons = claims.reasons.as_slice();
    check_reasons(&any, catalogue, config, reasons)?;
    let selection = ByReasons {
        catalogue,
        config,
        reasons,
    };
    let streams = streams_by(alloc, &selection)?;
    check_streams(alloc, catalogue, config, claims, streams.as_slice())?;
    let by_product = entry_flags(alloc, claims.streams.as_slice())?;
    Ok(CheckedStreams {
        streams,
        by_product,
    })
}

// Whether each entry is by product.
fn entry_flags(alloc: Global, entries: &[StreamSets]) -> Result<Items<bool>, AllocError>
    ensures { IfOk result (λ flags. flags ≡ entry_flags entries.now) }
{
    let mut flags = Items::new(alloc);
    for entry in entries {
        flags.push(is_product(&entry.by))?;
    }
    Ok(flags)
}

fn is_product(by: &By) -> bool
    ensures { result ≡ is_product by.now }
{
    match by {
        By::Product => true,
        By::List(_) | By::Budget => false,
    }
}

// The first fault of the steps after the reasons.
fn check_streams(
    alloc: Global,
    catalogue: &Catalogue,
    config: &Config,
    claims: &Claims,
    streams: &[Stream],
) -> Result<(), ClaimFault>
    requires { streams.now ≡ streams_of catalogue.now config.now }
    ensures { Reports (of_none CheckFault.Memory)
        (StreamsFind catalogue.now config.now claims.now streams.now) result }
{
    let entries = claims.streams.as_slice();
    let bounds = claims.bounds.as_slice();
    check_entries(streams, entries)?;
    check_orders(catalogue, config, streams, claims.orders.as_slice())?;
    check_bounds(alloc, catalogue, streams, bounds)?;
    check_limits(alloc, catalogue, streams, entries, bounds)
}
