//! The fields of a table that are a text, a number or a flag.
ghost use Rattle.std.specs.Prelude.{◌≡◌, map, length};
ghost use Rattle.std.specs.Option.{option_map};
ghost use Rattle.std.specs.BTreeMap.{keys};
ghost use Rattle.std.specs.List.{list_all, list_any};
ghost use Rattle.std.specs.Str.{bytes_eq, chars};
ghost use Rattle.std.specs.String.{string_bytes};
ghost use Rattle.toml.specs.Data.{get_member};
ghost use Rattle.toml.specs.View.{table_view, view};
ghost use Rattle.metric_table.specs.Fields.{Reads, field, flag_or, format_up_to, integer_of, now_of, number_between, only, optional_text, short_text, text_field, text_of, whole_in};

use crate::faults::FieldFaults;
use toml::{Table, Value};

/// Tries that the table has no other fields than these.
#[tactic(auto, unfolding(crate::specs::Fields::only), using(crate::proofs::Tables::only_laws))]
pub fn only<F: Copy>(table: &Table, names: &[&str], faults: &FieldFaults<F>) -> Result<(), F>
    ensures { result ≡ only faults.now (map now_of names.now) (table_view table.now) }
{
    if has_only(table, names) {
        Ok(())
    } else {
        Err(faults.unknown)
    }
}

fn has_only(table: &Table, names: &[&str]) -> bool
    ensures { result ≡ list_all
        (λ key. list_any (λ name. bytes_eq name.now (string_bytes key)) names.now)
        (keys table.now) }
{
    table.keys().all(|key| is_among(names, key.as_str()))
}

fn is_among(names: &[&str], key: &str) -> bool
    ensures { result ≡ list_any (λ name. bytes_eq name.now key.now) names.now }
{
    names.iter().any(|name| *name == key)
}

/// The value of a field, where the table has it.
#[tactic(auto, using(crate::proofs::Tables::table_laws))]
pub fn member<'a>(table: &'a Table, name: &str) -> Option<&'a Value>
    ensures { option_map (λ v. view v.now) result ≡ get_member name.now (table_view table.now) }
{
    table.get(name)
}

/// The value of a needed field.
#[tactic(auto, unfolding(crate::specs::Fields::field))]
pub fn required<'a, F: Copy>(
    table: &'a Table,
    name: &str,
    faults: &FieldFaults<F>,
) -> Result<&'a Value, F>
    ensures { Reads (λ value. view value.now) result
        (field faults.now name.now (table_view table.now)) }
{
    match member(table, name) {
        Some(value) => Ok(value),
        None => Err(faults.missing),
    }
}

/// The text that a value is.
#[tactic(auto, unfolding(crate::specs::Fields::text_of))]
pub fn text_of<'a, F: Copy>(value: &'a Value, faults: &FieldFaults<F>) -> Result<&'a str, F>
    ensures { Reads now_of result (text_of faults.now (view value.now)) }
{
    match value.as_str() {
        Some(text) => Ok(text),
        None => Err(faults.wrong_kind),
    }
}

/// The text of a needed field.
#[tactic(auto, unfolding(crate::specs::Fields::text_field))]
pub fn text_field<'a, F: Copy>(
    table: &'a Table,
    name: &str,
    faults: &FieldFaults<F>,
) -> Result<&'a str, F>
    ensures { Reads now_of result (text_field faults.now name.now (table_view table.now)) }
{
    let value = required(table, name, faults)?;
    text_of(value, faults)
}

/// The text of a field, where the table has it.
#[tactic(auto, unfolding(crate::specs::Fields::optional_text))]
pub fn optional_text<'a, F: Copy>(
    table: &'a Table,
    name: &str,
    faults: &FieldFaults<F>,
) -> Result<Option<&'a str>, F>
    ensures { Reads (option_map now_of) result
        (optional_text faults.now name.now (table_view table.now)) }
{
    match member(table, name) {
        Some(value) => {
            let text = text_of(value, faults)?;
            Ok(Some(text))
        }
        None => Ok(None),
    }
}

/// Tries that a free text has at most 1,023 characters.
#[tactic(auto, unfolding(crate::specs::Fields::short_text))]
pub fn short_text<'a, F: Copy>(text: &'a str, faults: &FieldFaults<F>) -> Result<&'a str, F>
    ensures { Reads now_of result (short_text faults.now text.now) }
{
    if count_of_characters(text) <= 1023 {
        Ok(text)
    } else {
        Err(faults.too_many)
    }
}

#[tactic(auto, using(std::proofs::lemmas::Str::chars_from_encodes))]
fn count_of_characters(text: &str) -> usize
    ensures { result ≡ length (chars text.now) }
{
    text.chars().count()
}

/// The whole number that a value is.
#[tactic(auto, unfolding(crate::specs::Fields::integer_of))]
pub fn integer_of<F: Copy>(value: &Value, faults: &FieldFaults<F>) -> Result<i64, F>
    ensures { result ≡ integer_of faults.now (view value.now) }
{
    match value.as_integer() {
        Some(number) => Ok(number),
        None => Err(faults.wrong_kind),
    }
}

/// The whole number that a value is, or 0 where it is none.
pub fn whole_in(value: &Value) -> i64
    ensures { result ≡ whole_in (view value.now) }
{
    value.as_integer().unwrap_or(0)
}

/// The flag of a field, or the default where the table does not have it.
#[tactic(auto, unfolding(crate::specs::Fields::flag_or))]
pub fn flag_or<F: Copy>(
    table: &Table,
    name: &str,
    default: bool,
    faults: &FieldFaults<F>,
) -> Result<bool, F>
    ensures { result ≡ flag_or faults.now name.now default (table_view table.now) }
{
    match member(table, name) {
        Some(value) => match value.as_bool() {
            Some(flag) => Ok(flag),
            None => Err(faults.wrong_kind),
        },
        None => Ok(default),
    }
}

/// The number of the needed field `format`, which is a whole number from 1 to the latest.
#[tactic(auto, unfolding(crate::specs::Fields::format_up_to))]
pub fn format_up_to<F: Copy>(table: &Table, latest: u8, faults: &FieldFaults<F>) -> Result<u8, F>
    ensures { result ≡ format_up_to faults.now latest (table_view table.now) }
{
    let value = required(table, "format", faults)?;
    let format = integer_of(value, faults)?;
    number_between(1, latest, format).ok_or(faults.wrong_kind)
}

fn number_between(low: u8, high: u8, number: i64) -> Option<u8>
    ensures { result ≡ number_between low high number }
{
    if i64::from(low) <= number && number <= i64::from(high) {
        Some(number as u8)
    } else {
        None
    }
}
