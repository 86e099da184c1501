//! Reading a catalogue from TOML.
ghost use Rattle.std.specs.Prelude.{◌≡◌, ◌≤◌, Ok, false, is_some, length, map, string_bytes, IfOk, IfSome, vec_capacity};
ghost use Rattle.std.specs.Option.{option_map};
ghost use Rattle.toml.specs.View.{table_view, view};
ghost use Rattle.metric_base.specs.Steps.{Gives, GivesBy, in_turn};
ghost use Rattle.metric_contents.specs.Attributes.{given_by, given_by_owned};
ghost use Rattle.metric_contents.specs.Budgets.{budget_at, spare_at};
ghost use Rattle.metric_contents.specs.Encoding.{encode_of};
ghost use Rattle.metric_catalogue.specs.InFull.{fits_in_full};
ghost use Rattle.metric_catalogue.specs.Meters.{with_meter};
ghost use Rattle.metric_catalogue.specs.Sound.{IsSound};
ghost use Rattle.metric_catalogue.specs.Catalogues.{catalogue_of, contents_declared, contents_of, declared_format, document_of, format_of_top, is_shared, is_three, latest_format, nothing_metered, opened_of, recorders_declared};

use crate::fault::{CatalogueFault, CatalogueField, CataloguePlace};
use crate::full::{fits, printed};
use crate::known::top_names;
use crate::meters::{Metered, add_meters};
use crate::named::named_of;
use crate::recorders::recorders_of;
use crate::same::are_same_contents;
use crate::seats::seats_declared;
use crate::shared_keys::{SharedKey, shared_keys};
use crate::texts::{faults_at, unknown_at};
use metric_base::{Few, Items};
use metric_contents::{
    Attr, Contents, Instrument, Meter, OwnedAttr, Recorder, Refusal, SetKey, encode_of,
    encode_with_room,
};
use metric_table::{format_up_to, member, only, tables_field};
use std::alloc::{AllocError, Global};
use std::marker::Model;
use toml::{Table, Value};

// The fields of the top table, and those of format 3.
pub(crate) const TOP_FIELDS: [&str; 3] = ["format", "meter", "recorder"];

pub(crate) const SHARED_TOP_FIELDS: [&str; 4] = ["format", "key", "meter", "recorder"];

/// The instruments of a program with their meters and keys, and its recorders with their budgets.
/// Instruments and recorders are numbered from 0 in the order of the file.
#[derive(Drop)]
pub struct Catalogue {
    contents: Contents,
}

impl Model for Catalogue {
    ghost use Rattle.metric_contents.specs.declared.contents.Contents.{Contents};
    ghost use Rattle.metric_catalogue.specs.Sound.{IsSound};

    ghost Value = { Contents };

    ghost view = { λ c. c.contents };

    ghost invariant = { λ c. IsSound c.contents };
}

impl Catalogue {
    /// The catalogue that a text in TOML is, or its first fault: the top table first, then each meter, each of its
    /// instruments and each of that one's keys, then each recorder and each of its budgets; in a table first a field
    /// that has no place there, then the fields in the order of the format, then a table that stands twice. The fault
    /// has the field that is wrong first, and of `values` and `allowed` the entry.
    #[tactic(auto, unfolding(crate::specs::Catalogues::catalogue_of))]
    pub fn read(alloc: Global, text: &str) -> Result<Catalogue, CatalogueFault>
        ensures { Gives CatalogueFault.Memory result (catalogue_of text.now) }
    {
        let table = document(alloc, text)?;
        let contents = contents_of(alloc, &table, false)?;
        Ok(Catalogue { contents })
    }

    /// The catalogue that a text of format 1, 2 or 3 is, or its first fault. What `read` answers of a text that is not of
    /// format 3; of one that is, the same contents that a file of format 2 may have, with the faults of its own fields:
    /// the top table first, then each key that is declared once, each meter as `read` has it and its groups, and each
    /// recorder. A fault of a field that an instrument has of its group is the instrument's.
    pub fn open(alloc: Global, text: &str) -> Result<Catalogue, CatalogueFault>
        ensures opened { Gives CatalogueFault.Memory result (opened_of text.now) }
        ensures read { is_shared text.now ≡ false
            → Gives CatalogueFault.Memory result (catalogue_of text.now) }
    {
        opened(alloc, text)
    }

    /// The text of a file of format 1 or 2 that declares the same, or nothing where it would be too large: where the
    /// values of all keys, each time that an instrument has one, come to more than 8,388,608 bytes, with 16 more for
    /// each.
    pub fn in_full(&self, alloc: Global) -> Result<Option<String>, AllocError>
        ensures same { IfOk result (λ full. IfSome full (λ text.
            catalogue_of (string_bytes text) ≡ Ok self.now)) }
        ensures large { IfOk result (λ full. is_some full ≡ fits_in_full self.now) }
    {
        if !fits(&self.contents) {
            return Ok(None);
        }
        let text = printed(alloc, &self.contents)?;
        let read = Catalogue::read(alloc, text.as_str());
        Ok(Some(if_same(text, read, self)?))
    }

    /// The format of the file: 1, or 2, in which an instrument may list its combinations; 2 also for one of format 3.
    pub fn format(&self) -> u8
        ensures format { result ≡ self.now.format }
        ensures sound { IsSound self.now }
    {
        self.contents.format
    }

    /// The meters in the order of the file.
    pub fn meters(&self) -> &[Meter]
        ensures meters { result.now ≡ self.now.meters }
        ensures few { length self.now.meters ≤ 64 }
        ensures sound { IsSound self.now }
    {
        self.contents.meters.as_slice()
    }

    /// The instruments of all meters in the order of the file.
    pub fn instruments(&self) -> &[Instrument]
        ensures instruments { result.now ≡ self.now.instruments }
        ensures few { length self.now.instruments ≤ 512 }
        ensures sound { IsSound self.now }
    {
        self.contents.instruments.as_slice()
    }

    /// The recorders in the order of the file.
    pub fn recorders(&self) -> &[Recorder]
        ensures recorders { result.now ≡ self.now.recorders }
        ensures few { length self.now.recorders ≤ 64 }
        ensures sound { IsSound self.now }
    {
        self.contents.recorders.as_slice()
    }

    /// How many recordings a recorder may make on an instrument: 0 where the file declares no budget.
    pub fn budget(&self, recorder: u32, instrument: u32) -> u64
        ensures { result ≡ budget_at self.now.recorders recorder instrument }
    {
        match self.recorders().get(recorder as usize) {
            Some(recorder) => recorder.budget(instrument),
            None => 0,
        }
    }

    /// How many recordings on an instrument may be granted to recorders beside their budgets: 0 where the file declares
    /// no spare budget.
    pub fn spare(&self, instrument: u32) -> u64
        ensures { result ≡ spare_at self.now.instruments instrument }
    {
        match self.instruments().get(instrument as usize) {
            Some(instrument) => instrument.spare,
            None => 0,
        }
    }

    /// The set key that the attributes name for the instrument of this number, in any order, or the first refusal of
    /// `UnknownInstrument`, `DuplicateKey`, `UnknownKey`, `UnknownValue`, `MissingKey`, each tried over the whole list
    /// before the next, and `Combination`. Allocates no memory, and takes only one pass where the attributes stand in
    /// the declared order of their keys.
    pub fn encode(&self, instrument: u32, attrs: &[Attr<'_>]) -> Result<SetKey, Refusal>
        ensures { result ≡ encode_of self.now.instruments instrument (map given_by attrs.now) }
    {
        encode_of(self.instruments(), instrument, attrs)
    }

    /// The same for attributes that are owned.
    pub fn encode_owned(&self, instrument: u32, attrs: &[OwnedAttr]) -> Result<SetKey, Refusal>
        ensures { result
            ≡ encode_of self.now.instruments instrument (map given_by_owned attrs.now) }
    {
        encode_of(self.instruments(), instrument, attrs)
    }

    /// What `encode_owned` answers, for lists of any length: a room that holds as many keys as there are attributes
    /// takes the place of comparing each key with all others, where one is not declared. Allocates no memory, and what
    /// the room has held is lost.
    pub fn encode_with_room<'a>(
        &self,
        instrument: u32,
        attrs: &'a [OwnedAttr],
        room: &mut Vec<&'a str>,
    ) -> Result<SetKey, Refusal>
        requires { length attrs.now ≤ vec_capacity room.old }
        ensures exact { result
            ≡ encode_of self.now.instruments instrument (map given_by_owned attrs.now) }
        ensures room { vec_capacity room.new ≡ vec_capacity room.old }
    {
        encode_with_room(self.instruments(), instrument, attrs, room)
    }
}

#[tactic(auto, unfolding(crate::specs::Catalogues::opened_of))]
fn opened(alloc: Global, text: &str) -> Result<Catalogue, CatalogueFault>
    ensures { Gives CatalogueFault.Memory result (opened_of text.now) }
{
    let table = document(alloc, text)?;
    let is_shared = is_three(member(&table, "format"));
    let contents = contents_of(alloc, &table, is_shared)?;
    Ok(Catalogue { contents })
}

// The text that was read, where it declares the same as another catalogue.
fn if_same(
    text: String,
    read: Result<Catalogue, CatalogueFault>,
    other: &Catalogue,
) -> Result<String, AllocError>
    requires { Gives CatalogueFault.Memory read (catalogue_of (string_bytes text)) }
    ensures { IfOk result (λ text. catalogue_of (string_bytes text) ≡ Ok other.now) }
{
    match read {
        Ok(read) => {
            if are_same_contents(&read.contents, &other.contents) {
                Ok(text)
            } else {
                Err(AllocError)
            }
        }
        Err(_) => Err(AllocError),
    }
}

// The table that a text in TOML is.
fn document(alloc: Global, text: &str) -> Result<Table, CatalogueFault>
    ensures { GivesBy table_view CatalogueFault.Memory result (document_of text.now) }
{
    match toml::table_from_str(alloc, text) {
        Ok(table) => Ok(table),
        Err(error) => {
            if error.is_memory() {
                Err(CatalogueFault::Memory)
            } else {
                Err(CatalogueFault::NotToml)
            }
        }
    }
}

// The contents of a catalogue's table, of format 1 or 2, or 3 where that is known.
#[tactic(auto, unfolding(crate::specs::Catalogues::contents_of))]
fn contents_of(alloc: Global, table: &Table, is_shared: bool) -> Result<Contents, CatalogueFault>
    ensures { Gives CatalogueFault.Memory result (contents_of is_shared (table_view table.now)) }
{
    let format = format_of_top(table, is_shared)?;
    let of_keys = faults_at(CataloguePlace::Top.field(CatalogueField::Key));
    let keys = tables_field(alloc, table, "key", 512, &of_keys)?;
    let of_meters = faults_at(CataloguePlace::Top.field(CatalogueField::Meter));
    let meters = tables_field(alloc, table, "meter", 64, &of_meters)?;
    let of_recorders = faults_at(CataloguePlace::Top.field(CatalogueField::Recorder));
    let recorders = tables_field(alloc, table, "recorder", 64, &of_recorders)?;
    contents_declared(
        alloc,
        format,
        keys.as_slice(),
        meters.as_slice(),
        recorders.as_slice(),
    )
}

// The contents that the tables of keys, meters and recorders declare in this format.
#[tactic(auto, unfolding(crate::specs::Catalogues::contents_declared))]
fn contents_declared(
    alloc: Global,
    format: u8,
    keys: &[&Table],
    meters: &[&Table],
    recorders: &[&Table],
) -> Result<Contents, CatalogueFault>
    requires keys { length keys.now ≤ 512 }
    requires meters { length meters.now ≤ 64 }
    requires recorders { length recorders.now ≤ 64 }
    ensures { Gives CatalogueFault.Memory result (contents_declared format
        (map (λ t. table_view t.now) keys.now) (map (λ t. table_view t.now) meters.now)
        (map (λ t. table_view t.now) recorders.now)) }
{
    let shared = shared_keys(alloc, keys)?;
    let metered = metered_of(alloc, meters, format, shared.as_slice(), recorders)?;
    let recorders = recorders_declared(alloc, recorders, format, &metered)?;
    Ok(Contents {
        format: declared_format(format),
        meters: Few::from_items(metered.meters),
        instruments: Few::from_items(metered.instruments),
        recorders: Few::from_items(recorders),
    })
}

fn declared_format(format: u8) -> u8
    ensures { result ≡ declared_format format }
{
    if format == 1 { 1 } else { 2 }
}

// The recorders beside these instruments.
fn recorders_declared(
    alloc: Global,
    tables: &[&Table],
    format: u8,
    metered: &Metered,
) -> Result<Items<Recorder>, CatalogueFault>
    requires tables { length tables.now ≤ 64 }
    requires instruments { length metered.now.instruments ≤ 512 }
    ensures exact { Gives CatalogueFault.Memory result
        (recorders_declared format metered.now (map (λ t. table_view t.now) tables.now)) }
    ensures few { IfOk result (λ recorders. length recorders ≤ 64) }
{
    let instruments = metered.instruments.as_slice();
    if format == 3 {
        let named = named_of(alloc, metered.meters.as_slice(), instruments)?;
        seats_declared(alloc, tables, named.as_slice())
    } else {
        recorders_of(alloc, tables, instruments.len() as u32)
    }
}

fn metered_of(
    alloc: Global,
    tables: &[&Table],
    format: u8,
    shared: &[SharedKey],
    recorders: &[&Table],
) -> Result<Metered, CatalogueFault>
    requires { length tables.now ≤ 64 }
    ensures exact { Gives CatalogueFault.Memory result
        (in_turn (with_meter format shared.now (map (λ t. table_view t.now) recorders.now))
        nothing_metered (map (λ t. table_view t.now) tables.now)) }
    ensures meters { IfOk result (λ metered. length metered.meters ≤ 64) }
    ensures instruments { IfOk result (λ metered. length metered.instruments ≤ 512) }
{
    let mut metered = Metered {
        meters: Items::new(alloc),
        instruments: Items::new(alloc),
    };
    add_meters(alloc, &mut metered, tables, format, shared, recorders)?;
    Ok(metered)
}

// The number of the format, of a top table with no other fields.
#[tactic(auto, unfolding(crate::specs::Catalogues::format_of_top))]
fn format_of_top(table: &Table, is_shared: bool) -> Result<u8, CatalogueFault>
    ensures { result ≡ format_of_top is_shared (table_view table.now) }
{
    let unknown = unknown_at(CataloguePlace::Top);
    only(table, top_names(is_shared), &unknown)?;
    let faults = faults_at(CataloguePlace::Top.field(CatalogueField::Format));
    format_up_to(table, latest_format(is_shared), &faults)
}

fn latest_format(is_shared: bool) -> u8
    ensures { result ≡ latest_format is_shared }
{
    if is_shared { 3 } else { 2 }
}

/// Whether what stands in the field `format` is 3.
pub fn is_three(format: Option<&Value>) -> bool
    ensures { result ≡ is_three (option_map (λ v. view v.now) format.entry) }
{
    match format {
        Some(Value::Integer(number)) => *number == 3,
        _ => false,
    }
}
