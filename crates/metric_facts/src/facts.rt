//! What the run of an instrument depends on.
ghost use Rattle.std.specs.Prelude.{◌≡◌, ◌↔◌, IfOk, IsTrue, false, slice_index_or};
ghost use Rattle.metric_facts.specs.Facts.{is_by_product, is_full_set};
ghost use Rattle.metric_facts.specs.Flat.{flat_facts};

use crate::entry_ranges::{are_within, fill_least, fill_most};
use crate::flat::flat_facts;
use metric_base::{Copied, Items, Shared};
use metric_combinations::Combinations;
use metric_contents::SetKey;
use metric_views::Stream;
use std::alloc::{AllocError, Global};
use std::marker::Model;
use std::ops::Deref;

/// A declared key, as far as set keys depend on it.
#[derive(Clone, Copy, Debug, PartialEq, Eq, Drop)]
pub struct KeyFacts {
    /// How many values it declares.
    pub values: u16,
    /// Whether a recording may leave it out.
    pub optional: bool,
}

/// A stream with its number.
#[derive(Drop)]
pub struct NumberedStream {
    /// The number.
    pub number: u32,
    /// Whether a certificate shows that the stream can have at most as many series as its limit whatever is
    /// recorded, by the product over the keys that it keeps of what a recording may say of each.
    pub by_product: bool,
    /// The stream.
    pub stream: Stream,
}

/// What facts say: of the catalogue, the config and the streams that they give.
pub struct FactsFields {
    /// The fingerprint of the plan.
    pub plan: u64,
    /// Whether a certificate vouches for the instrument's limits and numbers.
    pub certified: bool,
    /// The number of the instrument.
    pub instrument: u32,
    /// The declared keys, in declared order.
    pub keys: Items<KeyFacts>,
    /// The allowed combinations of their values, where these are listed; else each full set is allowed.
    pub allowed: Option<Combinations>,
    /// The least value that may be recorded.
    pub lo: i64,
    /// The greatest value that may be recorded.
    pub hi: i64,
    /// How many recordings each recorder may make without a grant, in the order of the recorders.
    pub budgets: Items<u64>,
    /// How many recordings may be granted to recorders beside their budgets.
    pub spare: u64,
    /// Whether each reader is delta for the instrument's kind (Metrics SDK, temporality), in the order of the readers.
    pub delta: Items<bool>,
    /// The streams of the instrument with their numbers, in order.
    pub streams: Items<NumberedStream>,
}

impl Drop for FactsFields {
    // A call of its own, so that what owns facts does not carry the steps of dropping each part.
    fn drop(self) {
        let FactsFields {
            plan: _,
            certified: _,
            instrument: _,
            keys: _keys,
            allowed: _allowed,
            lo: _,
            hi: _,
            budgets: _budgets,
            spare: _,
            delta: _delta,
            streams: _streams,
        } = self;
    }
}

// Fields, with their bytes and the ranges of a full set's entries beside them.
#[derive(Drop)]
struct FlatFields {
    fields: FactsFields,
    bytes: Vec<u8>,
    least: [u16; 8],
    most: [u16; 8],
    // Whether a set key has a place for each key.
    are_few: bool,
}

impl Model for FlatFields {
    ghost use Rattle.std.specs.Prelude.{◌≡◌};
    ghost use Rattle.metric_facts.specs.declared.facts.FactsFields.{FactsFields};
    ghost use Rattle.metric_facts.specs.EntryRanges.{AreRanges};
    ghost use Rattle.metric_facts.specs.Flat.{flat_facts};

    ghost Value = { FactsFields };

    ghost view = { λ f. f.fields };

    ghost invariant = { λ f. (f.bytes.items ≡ flat_facts f.fields)
        × AreRanges f.fields.keys f.least f.most f.are_few };
}

impl FlatFields {
    fn of(fields: FactsFields, bytes: Vec<u8>) -> FlatFields
        requires { bytes.items ≡ flat_facts fields }
        ensures { result ≡ fields }
    {
        let keys = fields.keys.as_slice();
        let (mut least, mut most) = ([0u16; 8], [0u16; 8]);
        fill_least(keys, &mut least);
        fill_most(keys, &mut most);
        let are_few = keys.len() <= 8;
        FlatFields {
            fields,
            bytes,
            least,
            most,
            are_few,
        }
    }

    fn as_bytes(&self) -> &[u8]
        ensures { result.now ≡ flat_facts self.now }
    {
        self.bytes.as_slice()
    }

    #[inline(always)]
    #[tactic(auto, using(crate::proofs::RangeLaws::takes_full))]
    fn takes(&self, set: &SetKey) -> bool
        ensures { result ≡ is_full_set self.now.keys set.now }
    {
        self.are_few & are_within(&self.least, &self.most, set)
    }
}

/// What the run of one instrument depends on. Beside the fields stand their bytes, made once, so that facts are
/// compared without a walk through lists and texts, and the range of each entry of a full set. All are stored once,
/// however many copies there are. A clause sees the fields.
#[derive(Drop)]
pub struct Facts {
    shared: Shared<FlatFields>,
}

impl Model for Facts {
    ghost use Rattle.metric_facts.specs.declared.facts.FactsFields.{FactsFields};

    ghost Value = { FactsFields };

    ghost view = { λ f. f.shared };
}

impl Facts {
    /// The facts that fields say. Fails only when out of memory.
    pub fn new(alloc: Global, fields: FactsFields) -> Result<Facts, AllocError>
        ensures { IfOk result (λ facts. facts ≡ fields) }
    {
        let bytes = flat_facts(alloc, &fields)?;
        let shared = Shared::new(alloc, FlatFields::of(fields, bytes))?;
        Ok(Facts { shared })
    }

    /// Whether the entries of a set key are a full set of the keys: a declared value for each, or 0 where it may be left
    /// out, and 0 after them.
    #[inline(always)]
    pub fn takes(&self, set: &SetKey) -> bool
        ensures { result ≡ is_full_set self.now.keys set.now }
    {
        self.shared.get().takes(set)
    }
}

impl Deref for Facts {
    type Target = FactsFields;

    ghost use Rattle.std.specs.Prelude.{◌≡◌};

    ghost deref_gives = { λ facts fields. fields ≡ facts };

    fn deref(&self) -> &FactsFields {
        let flat = self.shared.get();
        &flat.fields
    }
}

impl PartialEq for Facts {
    ghost use Rattle.std.specs.Cmp.{partial_equiv_from_equiv};
    ghost use Rattle.std.specs.Cmp.Lexicographic.{on_texts_equal};
    ghost use Rattle.metric_facts.specs.Flat.{facts_eq, flat_facts};

    ghost eq = { facts_eq };

    ghost laws = { partial_equiv_from_equiv (on_texts_equal flat_facts) };

    fn eq(&self, other: &Facts) -> bool {
        self.shared.get().as_bytes() == other.shared.get().as_bytes()
    }
}

/// Whether two facts are the same. It compares their bytes alone.
#[tactic(auto, using(crate::proofs::FlatLaws::facts_eq_decides))]
pub fn same_facts(a: &Facts, b: &Facts) -> bool
    ensures { IsTrue result ↔ (a.now ≡ b.now) }
{
    *a == *b
}

impl FactsFields {
    ghost use Rattle.metric_facts.specs.Facts.{in_bounds, is_delta};

    /// Whether a value is in the instrument's range.
    pub fn admits(&self, value: &i64) -> bool
        ensures { result ≡ in_bounds self.now value.now }
    {
        self.lo <= *value && *value <= self.hi
    }

    /// Whether a reader is delta for the instrument; a reader of another number is not.
    pub fn is_delta(&self, reader: u32) -> bool
        ensures { result ≡ is_delta self.now reader }
    {
        flag_at(self.delta.as_slice(), reader)
    }
}

// The flag of a number, where there is one.
pub(crate) fn flag_at(flags: &[bool], number: u32) -> bool
    ensures { result ≡ slice_index_or flags.now number false }
{
    flags.get(number as usize).copied().unwrap_or(false)
}

/// Whether the stream of a number is by product, where the flags are those of the streams, in order; a stream
/// without a flag is not.
pub fn is_by_product(flags: &[bool], stream: u32) -> bool
    ensures { result ≡ is_by_product flags.now stream }
{
    flag_at(flags, stream)
}

// One more owner of the same fields, which takes no room.
impl Copied for Facts {
    fn copy(&self, alloc: Global) -> Result<Facts, AllocError> {
        let shared = self.shared.copy(alloc)?;
        Ok(Facts { shared })
    }
}
