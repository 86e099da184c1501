//! Numbers of 128 bits in decimal: without leading zeros and without `+`, and a negative one with `-`.
ghost use Rattle.std.specs.Prelude.{◌≡◌, ◌<◌, ◌+◌, ◌*◌, ◌^◌, ◌∷◌, ℕ, ℤ, pos, negsuc, suc, Some, IfOk, FitsSigned};
ghost use Rattle.std.specs.Char.{digit_value};
ghost use Rattle.std.specs.Int.{w128};
ghost use Rattle.std.specs.Fmt.{decimal, signed_decimal};
ghost use Rattle.std.specs.Option.{SomeIff};
ghost use Rattle.std.specs.Str.Parse.{AllDigits, digits_value};
ghost use Rattle.metric_cert.specs.Decimals.{wide_of};

use std::alloc::{AllocError, Global};

/// The number that a text spells, if it spells one.
pub(crate) fn i128_of(alloc: Global, text: &str) -> Result<Option<i128>, AllocError>
    ensures { IfOk result (λ found. found ≡ wide_of text.now) }
{
    let Some(number) = signed_value(text.as_bytes()) else {
        return Ok(None);
    };
    let printed = format!(in alloc; "{number}")?;
    if printed.as_str() == text {
        Ok(Some(number))
    } else {
        Ok(None)
    }
}

// The only number that the text can spell.
fn signed_value(text: &[u8]) -> Option<i128>
    ensures { (z : ℤ) → FitsSigned w128 z → text.now ≡ signed_decimal z → result ≡ Some z }
{
    let (first, digits) = text.split_first()?;
    if *first == b'-' {
        negative_value(digits)
    } else {
        positive_value(text)
    }
}

fn positive_value(digits: &[u8]) -> Option<i128>
    ensures { (n : ℕ) → n < 2 ^ 127 → digits.now ≡ decimal n → result ≡ Some (pos n) }
{
    let number = digits_value(digits)?;
    if number < 1 << 127 {
        Some(number as i128)
    } else {
        None
    }
}

fn negative_value(digits: &[u8]) -> Option<i128>
    ensures { (n : ℕ) → n < 2 ^ 127 → digits.now ≡ decimal (suc n) → result ≡ Some (negsuc n) }
{
    let less = digits_value(digits)?.checked_sub(1)?;
    if less < 1 << 127 {
        Some(-1 - less as i128)
    } else {
        None
    }
}

fn digits_value(digits: &[u8]) -> Option<u128>
    ensures { AllDigits 10 digits.now → digits_value 10 digits.now < 2 ^ 128
        → result ≡ Some (digits_value 10 digits.now) }
{
    let mut number = 0;
    for digit in digits {
        number = with_digit(number, *digit)?;
    }
    Some(number)
}

// The number with one more digit.
fn with_digit(number: u128, digit: u8) -> Option<u128>
    ensures { digit_value digit < 10 → number * 10 + digit_value digit < 2 ^ 128
        → result ≡ Some (number * 10 + digit_value digit) }
{
    let value = char::from(digit).to_digit(10)?;
    number.checked_mul(10)?.checked_add(u128::from(value))
}
