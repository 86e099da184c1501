//! How many distinct sets of attributes a stream may see.
ghost use Rattle.std.specs.Prelude.{◌≡◌, ◌≤◌, ◌^◌, ◌<◌, length, IfOk};
ghost use Rattle.std.specs.Option.{option_map};
ghost use Rattle.metric_combinations.specs.Restrictions.{restrictions};
ghost use Rattle.metric_bounds.specs.Sets.{FlagsKeys, factor_of, listed_of, product_of, product_over, sets_of};

use metric_base::Items;
use metric_catalogue::Catalogue;
use metric_contents::{Instrument, Key, SetKey};
use metric_views::Stream;
use std::alloc::{AllocError, Global};

/// How many distinct sets of the kept keys there are, whichever combinations the instrument allows: the product over
/// the keys that a stream keeps of the number of declared values, one more where the key may be left out. At most
/// 1001^8.
///
/// A stream that says of each key whether it is kept, as those of a config do, sees no more sets than that, whichever
/// combinations its instrument lists.
pub fn product(catalogue: &Catalogue, stream: &Stream) -> u128
    ensures product { result ≡ product_of catalogue.now stream.now }
    ensures most { FlagsKeys catalogue.now stream.now
        → sets_of catalogue.now stream.now ≤ result }
{
    // That lists of combinations only take away rests on what each catalogue keeps.
    let _ = catalogue.instruments();
    product_of(catalogue, stream)
}

#[tactic(auto, unfolding(crate::specs::Sets::product_of))]
fn product_of(catalogue: &Catalogue, stream: &Stream) -> u128
    ensures { result ≡ product_of catalogue.now stream.now }
{
    match catalogue.instruments().get(stream.instrument as usize) {
        Some(instrument) => product_over(stream.kept.get().as_slice(), instrument.keys.as_slice()),
        None => 1,
    }
}

fn product_over(kept: &[bool], keys: &[Key]) -> u128
    requires { length keys.now ≤ 8 }
    ensures exact { result ≡ product_over kept.now keys.now }
    ensures bounded { result ≤ 1001 ^ length keys.now }
{
    let Some((flag, kept)) = kept.split_first() else {
        return 1;
    };
    let Some((key, keys)) = keys.split_first() else {
        return 1;
    };
    factor_of(*flag, key) * product_over(kept, keys)
}

fn factor_of(kept: bool, key: &Key) -> u128
    ensures exact { result ≡ factor_of kept key.now }
    ensures bounded { result ≤ 1001 }
{
    if !kept {
        return 1;
    }
    let values = key.values.len() as u128;
    if key.optional { values + 1 } else { values }
}

/// The distinct sets of the kept keys that the allowed combinations of a stream's instrument leave, in strictly rising
/// order, where the instrument lists its combinations: recordings of the stream have no other series. Fails only when
/// out of memory.
#[tactic(auto, unfolding(crate::specs::Sets::listed_of))]
pub fn listed(
    alloc: Global,
    catalogue: &Catalogue,
    stream: &Stream,
) -> Result<Option<Items<SetKey>>, AllocError>
    ensures { IfOk result (λ list. list ≡ listed_of catalogue.now stream.now) }
{
    match catalogue.instruments().get(stream.instrument as usize) {
        Some(instrument) => list_of(alloc, instrument, stream.kept.get().as_slice()),
        None => Ok(None),
    }
}

// The same of an instrument and the flags of the kept keys.
fn list_of(
    alloc: Global,
    instrument: &Instrument,
    kept: &[bool],
) -> Result<Option<Items<SetKey>>, AllocError>
    ensures { IfOk result (λ list. list
        ≡ option_map (restrictions kept.now) instrument.now.allowed) }
{
    match &instrument.allowed {
        Some(allowed) => {
            let list = allowed.restrictions(alloc, kept)?;
            Ok(Some(list))
        }
        None => Ok(None),
    }
}
