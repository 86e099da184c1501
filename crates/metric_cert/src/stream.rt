//! How many series a stream can have.
ghost use Rattle.std.specs.Prelude.{◌≡◌, ◌==◌, Some, None, OnOk, if◌then◌else◌, length};
ghost use Rattle.toml.specs.View.{table_view};
ghost use Rattle.metric_base.specs.Steps.{Gives};
ghost use Rattle.metric_table.specs.Fields.{only};
ghost use Rattle.metric_cert.specs.Names.{by_name, word_for, word_name, word_named};
ghost use Rattle.metric_cert.specs.Reading.{shape_faults};
ghost use Rattle.metric_cert.specs.Streams.{PutsList, by_of, by_with, stream_fields};

use crate::entry::EntryKind;
use crate::fault::{CertFault, MISSHAPEN, shape_faults};
use crate::fields::Fields;
use crate::lists::{ListOf, listed, write_all};
use crate::numbers::{Number, ShortNumber};
use crate::tables::{needed, optional, put, put_given};
use metric_base::Items;
use metric_contents::SetKey;
use metric_table::{only, text_of};
use std::alloc::{AllocError, Global};
use toml::{Table, Value};

/// What bounds how many series a stream can have.
#[derive(Debug, Drop)]
pub enum By {
    /// How many distinct sets of the kept keys there are.
    Product,
    /// The distinct sets of the kept keys that the allowed combinations leave, in strictly rising order.
    List(Items<SetKey>),
    /// How often the instrument may be recorded.
    Budget,
}

impl By {
    /// The name in files.
    pub fn name(&self) -> &'static str
        ensures { result.now ≡ by_name self.now }
    {
        self.word().name()
    }

    fn word(&self) -> BoundWord
        ensures { result ≡ word_for self.now }
    {
        match self {
            By::Product => BoundWord::Product,
            By::List(_) => BoundWord::List,
            By::Budget => BoundWord::Budget,
        }
    }
}

/// A stream, with how many series it can have.
#[derive(Debug, Drop)]
pub struct StreamSets {
    /// The number of the reader.
    pub reader: u32,
    /// The number of the instrument.
    pub instrument: u32,
    /// The number of the view, or none for the default stream.
    pub view: Option<u32>,
    /// What bounds the number of series.
    pub by: By,
    /// The number of series.
    pub sets: u32,
}

/// The words for what bounds a number of series.
#[derive(Clone, Copy, Drop)]
pub(crate) enum BoundWord {
    Product,
    List,
    Budget,
}

impl BoundWord {
    fn named(text: &str) -> Option<BoundWord>
        ensures { result ≡ word_named text.now }
    {
        match text {
            "product" => Some(BoundWord::Product),
            "list" => Some(BoundWord::List),
            "budget" => Some(BoundWord::Budget),
            _ => None,
        }
    }

    fn name(&self) -> &'static str
        ensures { result.now ≡ word_name self.now }
    {
        match self {
            BoundWord::Product => "product",
            BoundWord::List => "list",
            BoundWord::Budget => "budget",
        }
    }
}

/// Such a word.
pub(crate) struct ByWord;

impl EntryKind for ByWord {
    ghost use Rattle.metric_cert.specs.Names.{word_of};

    type Read = BoundWord;

    ghost step = { word_of };

    ghost levels = { 0 };

    #[tactic(auto, unfolding(crate::specs::Names::word_of))]
    fn read(_alloc: Global, value: &Value) -> Result<BoundWord, CertFault> {
        let text = text_of(value, &shape_faults())?;
        BoundWord::named(text).ok_or(MISSHAPEN)
    }

    fn write(alloc: Global, entry: &BoundWord) -> Result<Value, AllocError> {
        let value = Value::string(alloc, entry.name())?;
        Ok(value)
    }
}

/// A set key.
pub(crate) struct SetKeyEntry;

// The sets of a list.
type SetKeys = ListOf<SetKeyEntry>;

impl EntryKind for SetKeyEntry {
    ghost use Rattle.metric_cert.specs.Streams.{set_key_of};

    type Read = SetKey;

    ghost step = { set_key_of };

    ghost levels = { 1 };

    #[tactic(auto, unfolding(crate::specs::Streams::set_key_of))]
    fn read(alloc: Global, value: &Value) -> Result<SetKey, CertFault> {
        let set = ListOf::<ShortNumber>::read(alloc, value)?;
        set_key_of(set.as_slice()).ok_or(MISSHAPEN)
    }

    fn write(alloc: Global, entry: &SetKey) -> Result<Value, AllocError> {
        let values = write_all::<ShortNumber>(alloc, numbers_of(entry))?;
        Ok(listed(values))
    }
}

/// The table of a stream.
pub(crate) struct StreamTable;

impl Fields for StreamTable {
    ghost use Rattle.metric_cert.specs.Streams.{stream_of};

    type Read = StreamSets;

    ghost step = { stream_of };

    ghost levels = { 2 };

    #[tactic(auto, unfolding(crate::specs::Streams::stream_of))]
    fn read(alloc: Global, table: &Table) -> Result<StreamSets, CertFault> {
        only_stream(table)?;
        let reader = needed::<Number>(alloc, table, "reader")?;
        let instrument = needed::<Number>(alloc, table, "instrument")?;
        let view = optional::<Number>(alloc, table, "view")?;
        let by = by_of(alloc, table)?;
        let sets = needed::<Number>(alloc, table, "sets")?;
        Ok(StreamSets {
            reader,
            instrument,
            view,
            by,
            sets,
        })
    }

    fn put(alloc: Global, table: &mut Table, entry: &StreamSets) -> Result<(), AllocError> {
        put::<Number>(alloc, table, "reader", &entry.reader)?;
        put::<Number>(alloc, table, "instrument", &entry.instrument)?;
        put_given::<Number>(alloc, table, "view", &entry.view)?;
        put::<ByWord>(alloc, table, "by", &entry.by.word())?;
        put_list(alloc, table, &entry.by)?;
        put::<Number>(alloc, table, "sets", &entry.sets)
    }
}

fn only_stream(table: &Table) -> Result<(), CertFault>
    ensures { result ≡ only shape_faults stream_fields (table_view table.now) }
{
    only(
        table,
        &["reader", "instrument", "view", "by", "sets", "list"],
        &shape_faults(),
    )
}

#[tactic(auto, unfolding(crate::specs::Streams::by_of))]
fn by_of(alloc: Global, table: &Table) -> Result<By, CertFault>
    ensures { Gives CertFault.Memory result (by_of (table_view table.now)) }
{
    let word = needed::<ByWord>(alloc, table, "by")?;
    let list = optional::<SetKeys>(alloc, table, "list")?;
    by_with(word, list).ok_or(MISSHAPEN)
}

// What bounds a stream: the word `list` comes with a list, and no other word does.
fn by_with(word: BoundWord, list: Option<Items<SetKey>>) -> Option<By>
    ensures { result ≡ by_with word list }
{
    match (word, list) {
        (BoundWord::Product, None) => Some(By::Product),
        (BoundWord::List, Some(list)) => Some(By::List(list)),
        (BoundWord::Budget, None) => Some(By::Budget),
        _ => None,
    }
}

fn put_list(alloc: Global, table: &mut Table, by: &By) -> Result<(), AllocError>
    ensures { OnOk result (PutsList by.now (table_view table.old) (table_view table.new)) }
{
    match by {
        By::List(list) => put::<SetKeys>(alloc, table, "list", list),
        By::Product | By::Budget => Ok(()),
    }
}

fn numbers_of(set: &SetKey) -> &[u16]
    ensures numbers { result.now ≡ set.now }
    ensures long { length result.now ≡ 8 }
{
    set
}

// The set key of numbers, of which there are 8.
fn set_key_of(numbers: &[u16]) -> Option<SetKey>
    ensures { result ≡ (if length numbers.now == 8 then Some numbers.now else None) }
{
    let mut set = [0; 8];
    if numbers.len() != set.len() {
        return None;
    }
    set.copy_from_slice(numbers);
    Some(set)
}
