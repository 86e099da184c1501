//! The numbers by which readers and meters of two files are known.
ghost use Rattle.std.specs.Prelude.{◌≡◌, ◌≤◌, ◌<◌, IfOk, length};
ghost use Rattle.std.specs.List.{position_from};
ghost use Rattle.metric_diff.specs.Known.{is_left, new_number, number_by, numbers_by};

use metric_base::Items;
use metric_contents::Meter;
use metric_views::Reader;
use std::alloc::{AllocError, Global};

/// What has a number in each of two files, and may be the same in both.
pub(crate) trait Numbered {
    ghost use Rattle.std.specs.Prelude.{◌≡◌, Bool};

    // Whether another is the same.
    ghost is: { Self → Self → Bool };

    fn is(&self, other: &Self) -> bool
        ensures { result ≡ is self.now other.now };
}

impl Numbered for Reader {
    ghost use Rattle.metric_diff.specs.Known.{is_reader};

    ghost is = { is_reader };

    fn is(&self, other: &Reader) -> bool {
        other.name.as_str() == self.name.as_str()
    }
}

impl Numbered for Meter {
    ghost use Rattle.metric_diff.specs.Known.{is_meter};

    ghost is = { is_meter };

    fn is(&self, other: &Meter) -> bool {
        other.name.as_str() == self.name.as_str()
            && other.version.as_str() == self.version.as_str()
            && other.schema_url.as_str() == self.schema_url.as_str()
    }
}

/// Whether what has another name may be the same.
#[derive(Clone, Copy, Drop)]
pub(crate) enum Renaming {
    Allowed,
    Refused,
}

/// Of each new one the number of the old one that is the same, else one that no old one has. Where it may be renamed,
/// the one at the old one's place is the same, if the old one is none of the new ones. At most 64 are there of each.
pub(crate) fn numbers<T: Numbered>(
    alloc: Global,
    olds: &[T],
    news: &[T],
    renaming: Renaming,
) -> Result<Items<usize>, AllocError>
    requires few_old { length olds.now ≤ 64 }
    requires few { length news.now ≤ 64 }
    ensures { IfOk result (λ numbers. numbers
        ≡ numbers_by T.is renaming olds.now news.now) }
{
    let mut numbers = Items::new(alloc);
    for (number, own) in news.iter().enumerate() {
        numbers.push(number_in(olds, news, number, own, renaming))?;
    }
    Ok(numbers)
}

fn number_in<T: Numbered>(
    olds: &[T],
    news: &[T],
    number: usize,
    own: &T,
    renaming: Renaming,
) -> usize
    requires few_old { length olds.now ≤ 64 }
    requires few { number < 64 }
    ensures { result ≡ number_by T.is renaming olds.now news.now (number, own.now) }
{
    match place_in(olds, own) {
        Some(place) => place,
        None => new_number(olds, news, number, renaming),
    }
}

// The number of a new one that has the name of no old one.
fn new_number<T: Numbered>(olds: &[T], news: &[T], number: usize, renaming: Renaming) -> usize
    requires few_old { length olds.now ≤ 64 }
    requires few { number < 64 }
    ensures { result ≡ new_number T.is renaming olds.now news.now number }
{
    match renaming {
        Renaming::Allowed => {
            if is_left(olds, news, number) {
                number
            } else {
                olds.len() + number
            }
        }
        Renaming::Refused => olds.len() + number,
    }
}

// Whether the old one of a number is none of the new ones.
fn is_left<T: Numbered>(olds: &[T], news: &[T], number: usize) -> bool
    ensures { result ≡ is_left T.is olds.now news.now number }
{
    match olds.get(number) {
        Some(old) => place_in(news, old).is_none(),
        None => false,
    }
}

fn place_in<T: Numbered>(olds: &[T], own: &T) -> Option<usize>
    ensures { result ≡ position_from (T.is own.now) 0 olds.now }
{
    olds.iter().position(|old| own.is(old))
}
