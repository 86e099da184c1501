//! Facts with the streams of one reader alone.
ghost use Rattle.std.specs.Prelude.{◌≡◌, filter, IfOk, OnOk, if◌then◌else◌};
ghost use Rattle.metric_facts.specs.Facts.{is_of_reader};
ghost use Rattle.metric_audit.specs.Replays.{facts_of_reader, with_stream_of};

use metric_base::{Copied, Items};
use metric_facts::{Facts, FactsFields, NumberedStream};
use std::alloc::{AllocError, Global};

// Puts a copy of a stream last, where it is the reader's.
fn add_stream(
    all: &mut Items<NumberedStream>,
    alloc: Global,
    numbered: &NumberedStream,
    reader: u32,
) -> Result<(), AllocError>
    ensures { OnOk result (all.new ≡ with_stream_of reader all.old numbered.now) }
{
    if numbered.stream.reader == reader {
        let stream = numbered.stream.copy(alloc)?;
        all.push(NumberedStream {
            number: numbered.number,
            by_product: numbered.by_product,
            stream,
        })?;
    }
    Ok(())
}

// A copy of each stream of a reader.
fn streams_of(
    alloc: Global,
    streams: &[NumberedStream],
    reader: u32,
) -> Result<Items<NumberedStream>, AllocError>
    ensures { IfOk result (λ own. own ≡ filter (is_of_reader reader) streams.now) }
{
    let mut own = Items::new(alloc);
    for numbered in streams {
        add_stream(&mut own, alloc, numbered, reader)?;
    }
    Ok(own)
}

/// The facts with the streams of a reader alone.
pub(crate) fn facts_of_reader(
    alloc: Global,
    facts: &Facts,
    reader: u32,
) -> Result<Facts, AllocError>
    ensures { IfOk result (λ own. own ≡ facts_of_reader facts.now reader) }
{
    Facts::new(
        alloc,
        FactsFields {
            plan: facts.plan,
            certified: facts.certified,
            instrument: facts.instrument,
            keys: Items::from_vec(Vec::from_slice(alloc, facts.keys.as_slice())?),
            allowed: facts.allowed.copy(alloc)?,
            lo: facts.lo,
            hi: facts.hi,
            budgets: Items::from_vec(Vec::from_slice(alloc, facts.budgets.as_slice())?),
            spare: facts.spare,
            delta: Items::from_vec(Vec::from_slice(alloc, facts.delta.as_slice())?),
            streams: streams_of(alloc, facts.streams.as_slice(), reader)?,
        },
    )
}
