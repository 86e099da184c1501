//! What the instruments are that a view selects, and what they declare.
ghost use Rattle.std.specs.Prelude.{◌≡◌, ◌<◌, IfOk, Some, length};
ghost use Rattle.std.specs.List.{list_any};
ghost use Rattle.metric_contents.specs.KeyNames.{is_key};
ghost use Rattle.metric_resolve.specs.Applying.{is_selected, meter_at};
ghost use Rattle.metric_lint.specs.Remarks.{declares_at, is_declared_by, selection_of};

use metric_base::Items;
use metric_catalogue::Catalogue;
use metric_contents::{Key, Meter};
use metric_views::Config;
use std::alloc::{AllocError, Global};

// Of each instrument, in order, whether the view of this number selects it.
pub(crate) fn selected_by(
    alloc: Global,
    catalogue: &Catalogue,
    config: &Config,
    view: u32,
) -> Result<Items<bool>, AllocError>
    requires { view < length config.now.views }
    ensures { IfOk result (λ flags. flags ≡ selection_of catalogue.now config.now view) }
{
    let mut flags = Items::new(alloc);
    for instrument in 0..catalogue.instruments().len() as u32 {
        flags.push(is_selected(catalogue, config, instrument, view))?;
    }
    Ok(flags)
}

// Whether the view of one number selects the instrument of another.
fn is_selected(catalogue: &Catalogue, config: &Config, instrument: u32, view: u32) -> bool
    requires view { view < length config.now.views }
    requires instrument { instrument < length catalogue.now.instruments }
    ensures { result ≡ is_selected catalogue.now config.now instrument view }
{
    let meter = meter_of(catalogue, instrument);
    config.views()[view as usize].selects(meter, &catalogue.instruments()[instrument as usize])
}

// The meter of the instrument of a number.
fn meter_of(catalogue: &Catalogue, instrument: u32) -> &Meter
    requires { instrument < length catalogue.now.instruments }
    ensures { meter_at catalogue.now instrument ≡ Some result.now }
{
    let number = catalogue.instruments()[instrument as usize].meter;
    &catalogue.meters()[number as usize]
}

// Whether some instrument that a view selects declares a key of this name.
pub(crate) fn is_declared_by(catalogue: &Catalogue, selected: &[bool], name: &str) -> bool
    ensures { result ≡ is_declared_by catalogue.now selected.now name.now }
{
    selected.iter().enumerate().any(|(instrument, is_selected)| *is_selected
        && declares_at(catalogue, instrument, name))
}

// Whether the instrument of this number declares a key of this name.
fn declares_at(catalogue: &Catalogue, instrument: usize, name: &str) -> bool
    ensures { result ≡ declares_at catalogue.now instrument name.now }
{
    match catalogue.instruments().get(instrument) {
        Some(instrument) => has_key(instrument.keys.as_slice(), name),
        None => false,
    }
}

fn has_key(keys: &[Key], name: &str) -> bool
    ensures { result ≡ list_any (is_key name.now) keys.now }
{
    keys.iter().any(|key| key.name.as_str() == name)
}
