//! The numbers of a certificate: short ones are numbers of TOML, long ones decimal texts.
ghost use Rattle.std.specs.Prelude.{◌≡◌, pos, string_bytes};
ghost use Rattle.toml.specs.Data.{integer, string};
ghost use Rattle.toml.specs.View.{view};

use crate::decimals::i128_of;
use crate::entry::EntryKind;
use crate::fault::{CertFault, MISSHAPEN, shape_faults};
use metric_table::{integer_of, text_of};
use metric_text::u64_of;
use std::alloc::{AllocError, Global};
use toml::Value;

/// A number of 16 bits.
pub(crate) struct ShortNumber;

impl EntryKind for ShortNumber {
    ghost use Rattle.std.specs.Prelude.{◌^◌};
    ghost use Rattle.metric_cert.specs.Reading.{whole_of};

    type Read = u16;

    ghost step = { whole_of (2 ^ 16) };

    ghost levels = { 0 };

    #[tactic(auto, unfolding(crate::specs::Reading::whole_of))]
    fn read(_alloc: Global, value: &Value) -> Result<u16, CertFault> {
        let number = integer_of(value, &shape_faults())?;
        u16::try_from(number).map_err(|_| MISSHAPEN)
    }

    #[tactic(auto, using(crate::proofs::Written::number_laws))]
    fn write(_alloc: Global, entry: &u16) -> Result<Value, AllocError> {
        Ok(short(*entry))
    }
}

/// A number of 32 bits.
pub(crate) struct Number;

impl EntryKind for Number {
    ghost use Rattle.std.specs.Prelude.{◌^◌};
    ghost use Rattle.metric_cert.specs.Reading.{whole_of};

    type Read = u32;

    ghost step = { whole_of (2 ^ 32) };

    ghost levels = { 0 };

    #[tactic(auto, unfolding(crate::specs::Reading::whole_of))]
    fn read(_alloc: Global, value: &Value) -> Result<u32, CertFault> {
        let number = integer_of(value, &shape_faults())?;
        u32::try_from(number).map_err(|_| MISSHAPEN)
    }

    #[tactic(auto, using(crate::proofs::Written::number_laws))]
    fn write(_alloc: Global, entry: &u32) -> Result<Value, AllocError> {
        Ok(whole(*entry))
    }
}

/// A number of 64 bits, as a decimal text.
pub(crate) struct Decimal;

impl EntryKind for Decimal {
    ghost use Rattle.metric_cert.specs.Reading.{decimal_of};

    type Read = u64;

    ghost step = { decimal_of };

    ghost levels = { 0 };

    #[tactic(auto, unfolding(crate::specs::Reading::decimal_of))]
    fn read(_alloc: Global, value: &Value) -> Result<u64, CertFault> {
        let text = text_of(value, &shape_faults())?;
        u64_of(text.as_bytes()).ok_or(MISSHAPEN)
    }

    #[tactic(auto, using(crate::proofs::Written::number_laws))]
    fn write(alloc: Global, entry: &u64) -> Result<Value, AllocError> {
        let number = *entry;
        let text = format!(in alloc; "{number}")?;
        Ok(worded(text))
    }
}

/// A number of 128 bits with a sign, as a decimal text.
pub(crate) struct SignedDecimal;

impl EntryKind for SignedDecimal {
    ghost use Rattle.metric_cert.specs.Reading.{signed_decimal_of};

    type Read = i128;

    ghost step = { signed_decimal_of };

    ghost levels = { 0 };

    #[tactic(auto, unfolding(crate::specs::Reading::signed_decimal_of))]
    fn read(alloc: Global, value: &Value) -> Result<i128, CertFault> {
        let text = text_of(value, &shape_faults())?;
        let number = i128_of(alloc, text)?;
        number.ok_or(MISSHAPEN)
    }

    #[tactic(auto, using(crate::proofs::Written::number_laws))]
    fn write(alloc: Global, entry: &i128) -> Result<Value, AllocError> {
        let number = *entry;
        let text = format!(in alloc; "{number}")?;
        Ok(worded(text))
    }
}

/// The value that is a number of 16 bits.
pub(crate) fn short(number: u16) -> Value
    ensures { view result ≡ integer (pos number) }
{
    whole(u32::from(number))
}

fn whole(number: u32) -> Value
    ensures { view result ≡ integer (pos number) }
{
    Value::Integer(i64::from(number))
}

fn worded(text: String) -> Value
    ensures { view result ≡ string (string_bytes text) }
{
    Value::String(text)
}
