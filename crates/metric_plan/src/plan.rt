//! Plans and how a trial makes one.
ghost use Rattle.std.specs.Prelude.{◌≡◌, ◌↔◌, ◌<◌, ◌≤◌, [], Some, IsTrue, true, false, length, slice_get, FitsSigned, IfOk, IfErr, IsSomeAnd, OnOk};
ghost use Rattle.std.specs.Int.{w64};
ghost use Rattle.metric_bounds.specs.Safe.{AreSafe};
ghost use Rattle.metric_bounds.specs.Sets.{product_of};
ghost use Rattle.metric_facts.specs.Facts.{is_by_product};
ghost use Rattle.metric_facts.specs.Products.{AreProductsWithin};
ghost use Rattle.metric_resolve.specs.Resolved.{streams_of};
ghost use Rattle.metric_plan.specs.Counting.{is_counted};
ghost use Rattle.metric_plan.specs.Plans.{AreVouched, IsPlan, ProductsFit, RangesFit, plan_of, print_of, run_facts};
ghost use Rattle.metric_plan.specs.Fingerprints.{fingerprint_of};

use crate::counting::is_counted;
use crate::fault::CheckFault;
use crate::fingerprint::fingerprint_of;
use metric_base::Items;
use metric_catalogue::Catalogue;
use metric_facts::{Facts, all_facts, is_by_product};
use metric_resolve::{StreamList, resolve_streams};
use metric_views::{Config, Stream};
use std::alloc::{AllocError, Global};
use std::marker::Model;

/// A catalogue with a config, the streams that they give, and what the run of each instrument depends on.
///
/// The type of a certified plan keeps that no two of its streams share an identity, that each can have at most as many
/// series as its limit, and that no count and no kept sum leaves 64 bits, whatever is recorded within the budgets and
/// what is granted. Where a stream of it is by product, it can have at most as many series as its limit whatever the
/// budgets are.
pub struct Plan {
    catalogue: Catalogue,
    config: Config,
    streams: StreamList,
    by_product: Items<bool>,
    facts: Items<Facts>,
    is_certified: bool,
    fingerprint: u64,
}

impl Drop for Plan {
    // A call of its own, so that what owns a plan does not carry the steps of dropping each part.
    fn drop(self) {
        let Plan {
            catalogue: _catalogue,
            config: _config,
            streams: _streams,
            by_product: _by_product,
            facts: _facts,
            is_certified: _,
            fingerprint: _,
        } = self;
    }
}

impl Model for Plan {
    ghost use Rattle.metric_plan.specs.Plans.{IsPrinted, PlanValue};

    ghost Value = { PlanValue };

    ghost view = { λ p. record {
      is_certified = p.is_certified;
      by_product = p.by_product;
      config = p.config;
      streams = p.streams;
      facts = record { contents = p.catalogue; instruments = p.facts };
    } };

    ghost invariant = { λ p. IsPrinted (record {
      is_certified = p.is_certified;
      by_product = p.by_product;
      config = p.config;
      streams = p.streams;
      facts = record { contents = p.catalogue; instruments = p.facts };
    }) p.fingerprint };
}

impl Plan {
    /// The plan of a catalogue and a config without a certificate, for any readers and views. `CountRange` comes
    /// exactly where the budgets and the spare budget of some instrument are together above the range of u64; the
    /// only other fault is `Memory`. Where there is no plan, catalogue and config are handed back.
    pub fn trial(
        alloc: Global,
        catalogue: Catalogue,
        config: Config,
    ) -> Result<Plan, (Catalogue, Config, CheckFault)>
        ensures plan { IfOk result (λ plan. plan ≡ plan_of false [] catalogue config) }
        ensures counted { OnOk result (is_counted catalogue ≡ true) }
        ensures count_range { IfErr result (λ refused.
            (refused.2 ≡ CheckFault.CountRange) ↔ (is_counted catalogue ≡ false)) }
        ensures memory { IfErr result (λ refused. is_counted catalogue ≡ true
            → refused.2 ≡ CheckFault.Memory) }
        ensures back { IfErr result (λ refused. (refused.0 ≡ catalogue) × (refused.1 ≡ config)) }
    {
        if !is_counted(&catalogue) {
            return Err((catalogue, config, CheckFault::CountRange));
        }
        match resolve_streams(alloc, &catalogue, &config) {
            Ok(streams) => {
                let none = Items::new(alloc);
                Plan::new(alloc, false, catalogue, config, streams, none)
            }
            Err(_) => Err((catalogue, config, CheckFault::Memory)),
        }
    }

    /// The certified plan of a catalogue and a config with the streams that they give, of which the flags say
    /// which are by product, in order. Who calls it has shown that they can overflow neither a limit nor a number,
    /// and that those by product can have no more series than their limits, whatever is recorded. Only `Memory`
    /// refuses; catalogue and config are then handed back.
    pub fn certified(
        alloc: Global,
        catalogue: Catalogue,
        config: Config,
        streams: StreamList,
        by_product: Items<bool>,
    ) -> Result<Plan, (Catalogue, Config, CheckFault)>
        requires streams { streams ≡ streams_of catalogue config }
        requires safe { AreSafe catalogue streams }
        requires products { ProductsFit catalogue by_product streams }
        ensures plan { IfOk result (λ plan. plan ≡ plan_of true by_product catalogue config) }
        ensures memory { IfErr result (λ refused. refused.2 ≡ CheckFault.Memory) }
        ensures back { IfErr result (λ refused. (refused.0 ≡ catalogue) × (refused.1 ≡ config)) }
    {
        Plan::new(alloc, true, catalogue, config, streams, by_product)
    }

    fn new(
        alloc: Global,
        is_certified: bool,
        catalogue: Catalogue,
        config: Config,
        streams: StreamList,
        by_product: Items<bool>,
    ) -> Result<Plan, (Catalogue, Config, CheckFault)>
        requires streams { streams ≡ streams_of catalogue config }
        requires counted { is_counted catalogue ≡ true }
        requires safe { IsTrue is_certified → AreSafe catalogue streams }
        requires products { ProductsFit catalogue by_product streams }
        requires vouched { AreVouched is_certified by_product }
        ensures plan { IfOk result (λ plan.
            plan ≡ plan_of is_certified by_product catalogue config) }
        ensures memory { IfErr result (λ refused. refused.2 ≡ CheckFault.Memory) }
        ensures back { IfErr result (λ refused. (refused.0 ≡ catalogue) × (refused.1 ≡ config)) }
    {
        let fingerprint = fingerprint_of(&catalogue, &config);
        match facts_of(
            alloc,
            fingerprint,
            is_certified,
            &by_product,
            &catalogue,
            &config,
            &streams,
        ) {
            Ok(facts) => {
                ranges_fit(facts.as_slice());
                Ok(Plan {
                    catalogue,
                    config,
                    streams,
                    by_product,
                    facts,
                    is_certified,
                    fingerprint,
                })
            }
            Err(_) => Err((catalogue, config, CheckFault::Memory)),
        }
    }

    /// Whether a certificate vouches for the plan's limits and numbers; that of a trial has none.
    pub fn is_certified(&self) -> bool
        ensures certified { result ≡ self.now.is_certified }
        ensures safe { IsTrue result → AreSafe self.now.facts.contents self.now.streams }
        ensures kept { IsPlan self.now }
    {
        self.is_certified
    }

    /// What plans are told apart by, as handles and batches do: FNV-1a of 64 bits over all that the catalogue and the
    /// config say. It is kept through a roll-over, and plans of the same contents have the same one on purpose, as they
    /// name the same things by the same numbers. It guards against a mix-up, not against an attacker: two others have
    /// the same one by chance, 1 in 2^64 for each pair, or since somebody chose their texts so.
    #[inline(always)]
    pub fn fingerprint(&self) -> u64
        ensures { result ≡ print_of self.now }
    {
        self.fingerprint
    }

    /// The catalogue.
    pub fn catalogue(&self) -> &Catalogue
        ensures catalogue { result.now ≡ self.now.facts.contents }
        ensures one_each { length self.now.facts.instruments ≡ length result.now.instruments }
        ensures kept { IsPlan self.now }
    {
        // For the proof alone: a plan keeps something of its facts too.
        let _ = &self.facts;
        &self.catalogue
    }

    /// The config.
    pub fn config(&self) -> &Config
        ensures { result.now ≡ self.now.config }
    {
        &self.config
    }

    /// The streams of all readers and instruments. A stream's number is its place here.
    pub fn streams(&self) -> &[Stream]
        ensures streams { result.now ≡ self.now.streams }
        ensures kept { IsPlan self.now }
    {
        self.streams.as_slice()
    }

    /// Whether the certificate bounds how many series the stream of this number can have by the product over the
    /// keys that it keeps (`by = "product"`), and not by the budgets: it can then have at most as many as its limit,
    /// whatever is recorded. No stream of a trial is.
    pub fn by_product(&self, stream: u32) -> bool
        requires { stream < length self.now.streams }
        ensures flag { result ≡ is_by_product self.now.by_product stream }
        ensures certified { IsTrue result → IsTrue self.now.is_certified }
        ensures within { IsTrue result → IsSomeAnd (slice_get self.now.streams stream)
            (λ s. product_of self.now.facts.contents s ≤ s.limit) }
        ensures kept { IsPlan self.now }
    {
        is_by_product(self.by_product.as_slice(), stream)
    }

    /// What the run of the instrument of this number depends on.
    pub fn facts(&self, instrument: u32) -> &Facts
        requires { instrument < length self.now.facts.instruments }
        ensures facts { slice_get self.now.facts.instruments instrument ≡ Some result.now }
        ensures products { AreProductsWithin result.now }
        ensures kept { IsPlan self.now }
    {
        &self.facts.as_slice()[instrument as usize]
    }

    /// The same of each instrument, in order.
    pub fn all_facts(&self) -> &[Facts]
        ensures facts { result.now ≡ self.now.facts.instruments }
        ensures kept { IsPlan self.now }
    {
        self.facts.as_slice()
    }
}

// The facts of each instrument.
fn facts_of(
    alloc: Global,
    fingerprint: u64,
    is_certified: bool,
    by_product: &Items<bool>,
    catalogue: &Catalogue,
    config: &Config,
    streams: &StreamList,
) -> Result<Items<Facts>, AllocError>
    requires { fingerprint ≡ fingerprint_of catalogue.now config.now }
    ensures { IfOk result (λ facts. facts
        ≡ (run_facts is_certified by_product.now catalogue.now config.now
        streams.now).instruments) }
{
    all_facts(
        alloc,
        fingerprint,
        is_certified,
        by_product.as_slice(),
        catalogue,
        config.readers(),
        streams.as_slice(),
    )
}

// The range of each instrument is one of 64-bit numbers, as who reads it learns.
fn ranges_fit(all: &[Facts])
    ensures { RangesFit all.now }
{
    for own in all {
        range_fits(own);
    }
}

fn range_fits(own: &Facts)
    ensures low { FitsSigned w64 own.now.lo }
    ensures high { FitsSigned w64 own.now.hi }
{
    // For the proof alone: both are read, so both are of their type.
    let _ = own.lo <= own.hi;
}
