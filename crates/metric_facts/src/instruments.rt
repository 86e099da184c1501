//! Makes the facts of each instrument.
ghost use Rattle.std.specs.Prelude.{◌≡◌, ◌≤◌, ◌<◌, ◌^◌, [], map, length, IfOk, OnOk};
ghost use Rattle.metric_contents.specs.Budgets.{amount_of};
ghost use Rattle.metric_facts.specs.Facts.{facts_from, facts_of, is_delta_reader, is_delta_temporality, key_facts, with_stream};

use crate::facts::{Facts, FactsFields, KeyFacts, NumberedStream, is_by_product};
use metric_base::{Copied, Items};
use metric_catalogue::Catalogue;
use metric_contents::{Instrument, Key, Kind, Recorder};
use metric_views::{Reader, Stream, Temporality};
use std::alloc::{AllocError, Global};

/// Whether a temporality is delta.
pub(crate) fn is_delta(temporality: Temporality) -> bool
    ensures { result ≡ is_delta_temporality temporality }
{
    matches!(temporality, Temporality::Delta)
}

// The facts of each key.
fn key_facts_of(alloc: Global, keys: &[Key]) -> Result<Items<KeyFacts>, AllocError>
    ensures { IfOk result (λ all. all ≡ map key_facts keys.now) }
{
    let mut all = Items::new(alloc);
    for key in keys {
        all.push(KeyFacts {
            values: key.values.len() as u16,
            optional: key.optional,
        })?;
    }
    Ok(all)
}

// The budget of each recorder for the instrument of this number.
fn budgets_of(alloc: Global, recorders: &[Recorder], number: u32) -> Result<Items<u64>, AllocError>
    ensures { IfOk result (λ budgets.
        budgets ≡ map (λ recorder. amount_of recorder number) recorders.now) }
{
    let mut budgets = Items::new(alloc);
    for recorder in recorders {
        budgets.push(recorder.budget(number))?;
    }
    Ok(budgets)
}

// Whether each reader is delta for the kind.
fn delta_flags(alloc: Global, readers: &[Reader], kind: Kind) -> Result<Items<bool>, AllocError>
    ensures { IfOk result (λ flags. flags ≡ map (is_delta_reader kind) readers.now) }
{
    let mut flags = Items::new(alloc);
    for reader in readers {
        flags.push(is_delta(reader.temporality.of(kind)))?;
    }
    Ok(flags)
}

// The facts of the instrument of this number, before its streams.
fn instrument_facts(
    alloc: Global,
    plan: u64,
    certified: bool,
    recorders: &[Recorder],
    readers: &[Reader],
    number: u32,
    instrument: &Instrument,
) -> Result<FactsFields, AllocError>
    ensures { IfOk result (λ facts.
        facts ≡ facts_of plan certified [] recorders.now readers.now [] number instrument.now) }
{
    let keys = key_facts_of(alloc, instrument.keys.as_slice())?;
    let allowed = instrument.allowed.copy(alloc)?;
    let budgets = budgets_of(alloc, recorders, number)?;
    let delta = delta_flags(alloc, readers, instrument.kind)?;
    Ok(FactsFields {
        plan,
        certified,
        instrument: number,
        keys,
        allowed,
        lo: instrument.lo,
        hi: instrument.hi,
        budgets,
        spare: instrument.spare,
        delta,
        streams: Items::new(alloc),
    })
}

// Those of each instrument.
fn without_streams(
    alloc: Global,
    plan: u64,
    certified: bool,
    recorders: &[Recorder],
    readers: &[Reader],
    instruments: &[Instrument],
) -> Result<Vec<FactsFields>, AllocError>
    requires { length instruments.now ≤ 512 }
    ensures { IfOk result (λ all.
        all.items ≡ facts_from plan certified [] recorders.now readers.now [] 0 instruments.now) }
{
    let mut all = Vec::new(alloc);
    for (number, instrument) in instruments.iter().enumerate() {
        let facts = instrument_facts(
            alloc,
            plan,
            certified,
            recorders,
            readers,
            number as u32,
            instrument,
        )?;
        all.push(facts)?;
    }
    Ok(all)
}

// Gives a stream to its instrument.
fn add_stream(
    alloc: Global,
    all: &mut [FactsFields],
    number: u32,
    by_product: bool,
    stream: &Stream,
) -> Result<(), AllocError>
    ensures { OnOk result (all.new ≡ with_stream 0 number by_product stream.now all.old) }
{
    let at = stream.instrument as usize;
    if at >= all.len() {
        return Ok(());
    }
    let stream = stream.copy(alloc)?;
    let own = &mut all[at];
    own.streams.push(NumberedStream {
        number,
        by_product,
        stream,
    })?;
    Ok(())
}

// Facts with these fields, in order.
fn sealed(alloc: Global, all: Vec<FactsFields>) -> Result<Items<Facts>, AllocError>
    ensures { IfOk result (λ sealed. sealed ≡ all.items) }
{
    let mut sealed = Items::new(alloc);
    for fields in all {
        sealed.push(Facts::new(alloc, fields)?)?;
    }
    Ok(sealed)
}

/// The facts of each instrument of a catalogue, in a plan of this fingerprint, for the readers of a config and all
/// their streams, of which each has its place among them as its number. The flags say which streams are by product, in
/// the same order; those without a flag are not. Fails only when out of memory.
pub fn all_facts(
    alloc: Global,
    plan: u64,
    certified: bool,
    by_product: &[bool],
    catalogue: &Catalogue,
    readers: &[Reader],
    streams: &[Stream],
) -> Result<Items<Facts>, AllocError>
    requires { length streams.now < 2 ^ 32 }
    ensures { IfOk result (λ all. let declared = catalogue.now in
        let recorders = declared.recorders in
        let flags = by_product.now in
        let instruments = declared.instruments in
        all ≡ facts_from plan certified flags recorders readers.now streams.now 0 instruments) }
{
    let mut all = without_streams(
        alloc,
        plan,
        certified,
        catalogue.recorders(),
        readers,
        catalogue.instruments(),
    )?;
    for (number, stream) in streams.iter().enumerate() {
        let number = number as u32;
        let own = is_by_product(by_product, number);
        add_stream(alloc, all.as_mut_slice(), number, own, stream)?;
    }
    sealed(alloc, all)
}
