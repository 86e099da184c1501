//! The first place of each name, found in an ordered map.
ghost use Rattle.std.specs.Prelude.{◌≡◌, ℕ, List, Some, None, IfOk, OnOk, string_bytes, if◌then◌else◌};
ghost use Rattle.std.specs.BTreeMap.{get_by_text};
ghost use Rattle.std.specs.Str.{bytes_eq};
ghost use Rattle.metric_contents.specs.PlaceLaws.{or_else};
ghost use Rattle.metric_diff.specs.Known.{place_of};

use metric_base::Text;
use std::alloc::{AllocError, Global};
use std::collections::BTreeMap;

/// The first place of each name.
pub(crate) type Places = BTreeMap<String, usize>;

/// The first place of each of these names.
pub(crate) fn places_of(alloc: Global, names: &[Text]) -> Result<Places, AllocError>
    ensures { IfOk result (λ places. (name : List ℕ)
        → get_by_text places name ≡ place_of names.now name) }
{
    let mut places: Places = BTreeMap::new(alloc);
    for (place, name) in names.iter().enumerate() {
        let own = String::from_str(alloc, name.as_str())?;
        add_place(&mut places, own, place)?;
    }
    Ok(places)
}

// Keeps the place of a name, unless it has one.
fn add_place(places: &mut Places, name: String, place: usize) -> Result<(), AllocError>
    ensures { OnOk result ((other : List ℕ) → get_by_text places.new other
        ≡ or_else (get_by_text places.old other)
        (if bytes_eq other (string_bytes name) then Some place else None)) }
{
    if places.contains_key(name.as_str()) {
        return Ok(());
    }
    places.insert(name, place)?;
    Ok(())
}

/// The first place of a name.
pub(crate) fn place_in(places: &Places, name: &str) -> Option<usize>
    ensures { result ≡ get_by_text places.now name.now }
{
    places.get(name).copied()
}
