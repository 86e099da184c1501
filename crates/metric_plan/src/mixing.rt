//! How values are mixed into a fingerprint.
ghost use Rattle.std.specs.Prelude.{◌≡◌, fold};
ghost use Rattle.metric_plan.specs.Mixing.{mixed, mixed_flag, mixed_list, mixed_option, mixed_signed, mixed_text};

use metric_base::{Shared, Text};
use metric_glob::Pattern;
use metric_names::{Name, Unit};

// The factor of FNV-1a of 64 bits.
const FACTOR: u64 = 0x0100_0000_01B3;

// A value that is mixed into a fingerprint.
pub(crate) trait Mixed {
    ghost use Rattle.std.specs.Prelude.{ℕ};

    ghost mixed: { ℕ → Self → ℕ };

    // The fingerprint with the value mixed into it.
    fn mix(&self, print: u64) -> u64
        ensures { result ≡ mixed print self.now };
}

// A step of FNV-1a.
#[tactic(auto, unfolding(crate::specs::Mixing::mixed))]
pub(crate) fn mix_number(print: u64, number: u64) -> u64
    ensures { result ≡ mixed print number }
{
    (print ^ number).wrapping_mul(FACTOR)
}

pub(crate) fn mix_flag(print: u64, flag: bool) -> u64
    ensures { result ≡ mixed_flag print flag }
{
    mix_number(print, if flag { 1 } else { 0 })
}

pub(crate) fn mix_signed(print: u64, number: &i64) -> u64
    ensures { result ≡ mixed_signed print number.now }
{
    mix_number(mix_flag(print, *number < 0), number.unsigned_abs())
}

fn mix_bytes(print: u64, bytes: &[u8]) -> u64
    ensures { result ≡ fold mixed print bytes.now }
{
    let mut print = print;
    for byte in bytes {
        print = mix_number(print, u64::from(*byte));
    }
    print
}

pub(crate) fn mix_text(print: u64, text: &str) -> u64
    ensures { result ≡ mixed_text print text.now }
{
    mix_bytes(mix_number(print, text.len() as u64), text.as_bytes())
}

fn mix_each<T: Mixed>(print: u64, values: &[T]) -> u64
    ensures { result ≡ fold T.mixed print values.now }
{
    let mut print = print;
    for value in values {
        print = value.mix(print);
    }
    print
}

// How many values there are, and each.
pub(crate) fn mix_list<T: Mixed>(print: u64, values: &[T]) -> u64
    ensures { result ≡ mixed_list T.mixed print values.now }
{
    mix_each(mix_number(print, values.len() as u64), values)
}

// Whether there is a value, and the value.
pub(crate) fn mix_option<T: Mixed>(print: u64, value: &Option<T>) -> u64
    ensures { result ≡ mixed_option T.mixed print value.now }
{
    match value {
        None => mix_number(print, 0),
        Some(value) => value.mix(mix_number(print, 1)),
    }
}

impl Mixed for u16 {
    ghost use Rattle.metric_plan.specs.Mixing.{mixed};

    ghost mixed = { mixed };

    fn mix(&self, print: u64) -> u64 {
        mix_number(print, u64::from(*self))
    }
}

impl Mixed for u32 {
    ghost use Rattle.metric_plan.specs.Mixing.{mixed};

    ghost mixed = { mixed };

    fn mix(&self, print: u64) -> u64 {
        mix_number(print, u64::from(*self))
    }
}

impl Mixed for i64 {
    ghost use Rattle.metric_plan.specs.Mixing.{mixed_signed};

    ghost mixed = { mixed_signed };

    fn mix(&self, print: u64) -> u64 {
        mix_signed(print, self)
    }
}

impl Mixed for [u16; 8] {
    ghost use Rattle.metric_plan.specs.Mixing.{mixed, mixed_list};

    ghost mixed = { mixed_list mixed };

    fn mix(&self, print: u64) -> u64 {
        mix_list(print, self)
    }
}

impl Mixed for Text {
    ghost use Rattle.metric_plan.specs.Mixing.{mixed_text};

    ghost mixed = { mixed_text };

    fn mix(&self, print: u64) -> u64 {
        mix_text(print, self.as_str())
    }
}

impl Mixed for Name {
    ghost use Rattle.metric_plan.specs.Mixing.{mixed_text};

    ghost mixed = { mixed_text };

    fn mix(&self, print: u64) -> u64 {
        mix_text(print, self.as_str())
    }
}

impl Mixed for Unit {
    ghost use Rattle.metric_plan.specs.Mixing.{mixed_text};

    ghost mixed = { mixed_text };

    fn mix(&self, print: u64) -> u64 {
        mix_text(print, self.as_str())
    }
}

impl Mixed for Pattern {
    ghost use Rattle.metric_plan.specs.Mixing.{mixed_text};

    ghost mixed = { mixed_text };

    fn mix(&self, print: u64) -> u64 {
        mix_text(print, self.as_str())
    }
}

impl<T: Mixed> Mixed for Shared<T> {
    ghost mixed = { T.mixed };

    fn mix(&self, print: u64) -> u64 {
        self.get().mix(print)
    }
}
