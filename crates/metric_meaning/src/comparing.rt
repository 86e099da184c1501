//! Whether an instrument means what a program was made for.
ghost use Rattle.std.specs.Prelude.{◌≡◌, IfErr, IfSome, MatchOption, false, is_none, is_some, map, not, option_map, slice_get};
ghost use Rattle.std.specs.Result.{result_ok};
ghost use Rattle.metric_contents.specs.Attributes.{given_by};
ghost use Rattle.metric_contents.specs.Places.{same_value};
ghost use Rattle.metric_meaning.specs.Agreeing.{HasHead, HasOwn, after_key, after_values, is_missing, keys_agree, shape_by};
ghost use Rattle.metric_meaning.specs.Meanings.{Means, meter_name};

use crate::difference::Difference;
use crate::expected::Expected;
use metric_catalogue::Catalogue;
use metric_contents::{Attr, Instrument, Key};
use metric_names::AttrValue;

/// The name of the meter of the instrument of a number.
pub fn meter_name(catalogue: &Catalogue, number: usize) -> Option<&str>
    ensures { option_map (λ name. name.now) result ≡ meter_name catalogue.now number }
{
    let instrument = catalogue.instruments().get(number)?;
    let meter = catalogue.meters().get(instrument.meter as usize)?;
    Some(meter.name.as_str())
}

/// In what the instrument of a number is first not what a program was made for: its meter, name, kind or unit, or its
/// keys in order. Nothing exactly where these are as they are expected, the first keys are those that are, each optional
/// exactly where that is said, with values that begin with those that are expected, and each further key may be left out.
/// Then a set key that is written for them names the same attributes.
pub fn first_difference<'d, 'a>(
    catalogue: &'d Catalogue,
    number: usize,
    expected: &Expected<'a>,
) -> Option<Difference<'d, 'a>>
    ensures means { let shape = shape_by expected.now in
        MatchOption result (Means catalogue.now number shape)
        (λ difference. Means catalogue.now number shape → ⊥) }
    ensures missing { IfSome result (λ difference. is_missing difference
        ≡ is_none (slice_get catalogue.now.instruments number)) }
{
    let Some(own) = catalogue.instruments().get(number) else {
        return Some(Difference::NoInstrument);
    };
    match head_difference(meter_name(catalogue, number), own, expected) {
        Some(difference) => Some(difference),
        None => keys_difference(own.keys.as_slice(), expected.keys, expected.optional),
    }
}

// The same in all but the keys.
fn head_difference<'d, 'a>(
    meter: Option<&'d str>,
    own: &'d Instrument,
    expected: &Expected<'a>,
) -> Option<Difference<'d, 'a>>
    ensures head { let name = option_map (λ name. name.now) meter.entry in
        let has = HasHead name own.now (shape_by expected.now) in
        MatchOption result has (λ difference. has → ⊥) }
    ensures there { IfSome result (λ difference. is_missing difference ≡ false) }
{
    match meter {
        Some(name) if name == expected.meter => own_difference(own, expected),
        other => Some(Difference::Meter(other)),
    }
}

fn own_difference<'d, 'a>(
    own: &'d Instrument,
    expected: &Expected<'a>,
) -> Option<Difference<'d, 'a>>
    ensures own { let has = HasOwn own.now (shape_by expected.now) in
        MatchOption result has (λ difference. has → ⊥) }
    ensures there { IfSome result (λ difference. is_missing difference ≡ false) }
{
    let name = own.name.get().as_str();
    let unit = own.unit.get().as_str();
    if name != expected.name {
        return Some(Difference::Name(name));
    }
    if own.kind != expected.kind {
        return Some(Difference::Kind(own.kind));
    }
    if unit != expected.unit {
        return Some(Difference::Unit(unit));
    }
    None
}

// The same in the keys, of which an instrument has at most eight.
fn keys_difference<'d, 'a>(
    keys: &'d [Key],
    attrs: &'a [Attr<'a>],
    optional: u32,
) -> Option<Difference<'d, 'a>>
    ensures keys { is_some result ≡ not (keys_agree optional keys.now (map given_by attrs.now)) }
    ensures there { IfSome result (λ difference. is_missing difference ≡ false) }
{
    let Some((key, others)) = keys.split_first() else {
        let (attr, _) = attrs.split_first()?;
        return Some(Difference::NoKey(attr.key));
    };
    match after_key(key, attrs, optional % 2 == 1) {
        Err(difference) => Some(difference),
        Ok(rest) => keys_difference(others, rest, optional / 2),
    }
}

// What is left after the values of a key.
fn after_key<'d, 'a>(
    key: &'d Key,
    attrs: &'a [Attr<'a>],
    is_optional: bool,
) -> Result<&'a [Attr<'a>], Difference<'d, 'a>>
    ensures rest { option_map (λ rest. map given_by rest.now) (result_ok result)
        ≡ after_key is_optional key.now (map given_by attrs.now) }
    ensures there { IfErr result (λ difference. is_missing difference ≡ false) }
{
    let name = key.name.as_str();
    let Some((attr, _)) = attrs.split_first() else {
        return if key.optional {
            Ok(attrs)
        } else {
            Err(Difference::Further(name))
        };
    };
    if attr.key != name {
        return Err(Difference::OtherKey(name, attr.key));
    }
    if key.optional == is_optional {
        return after_values(name, key.values.as_slice(), attrs);
    }
    if is_optional {
        Err(Difference::Required(name))
    } else {
        Err(Difference::Optional(name))
    }
}

fn after_values<'d, 'a>(
    name: &'d str,
    values: &[AttrValue],
    attrs: &'a [Attr<'a>],
) -> Result<&'a [Attr<'a>], Difference<'d, 'a>>
    ensures rest { option_map (λ rest. map given_by rest.now) (result_ok result)
        ≡ after_values name.now values.now (map given_by attrs.now) }
    ensures there { IfErr result (λ difference. is_missing difference ≡ false) }
{
    let mut left = values;
    let mut rest = attrs;
    while let [attr, others @ ..] = rest {
        if attr.key != name {
            return Ok(rest);
        }
        match left {
            [value, after @ ..] if is_value(attr, value) => left = after,
            _ => return Err(Difference::Value(name, attr.value, values.len() - left.len() + 1)),
        }
        rest = others;
    }
    Ok(rest)
}

fn is_value(attr: &Attr<'_>, value: &AttrValue) -> bool
    ensures { result ≡ same_value value.now (given_by attr.now).1 }
{
    attr.value.is(value)
}
