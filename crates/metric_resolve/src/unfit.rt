//! Warnings of views that themselves name an aggregation that does not fit what they select.
ghost use Rattle.std.specs.Prelude.{◌≡◌, ◌<◌, ◌++◌, OnOk, Some, length};
ghost use Rattle.std.specs.List.{filter_map};
ghost use Rattle.metric_resolve.specs.Applying.{all_instruments};
ghost use Rattle.metric_resolve.specs.Unfit.{is_unfit_at, names_unfit, unfit_of, unfit_with};

use crate::offers::meter_of;
use crate::warning::Warning;
use metric_base::Items;
use metric_catalogue::Catalogue;
use metric_contents::{Instrument, Kind};
use metric_views::{Aggregation, Config, View};
use std::alloc::AllocError;

// Puts the warnings of all views last.
pub(crate) fn add_unfit(
    catalogue: &Catalogue,
    config: &Config,
    warnings: &mut Items<Warning>,
) -> Result<(), AllocError>
    ensures { OnOk result (warnings.new ≡ warnings.old ++ unfit_of catalogue.now config.now) }
{
    for (number, view) in config.views().iter().enumerate() {
        add_view(catalogue, number as u32, view, warnings)?;
    }
    Ok(())
}

// Puts the warnings of a view last.
fn add_view(
    catalogue: &Catalogue,
    number: u32,
    view: &View,
    warnings: &mut Items<Warning>,
) -> Result<(), AllocError>
    ensures { OnOk result (warnings.new ≡ warnings.old
        ++ filter_map (unfit_with catalogue.now number (Some view.now))
        (all_instruments catalogue.now)) }
{
    for instrument in 0..catalogue.instruments().len() as u32 {
        if is_unfit_at(catalogue, view, instrument) {
            warnings.push(Warning::Unfit {
                view: number,
                instrument,
            })?;
        }
    }
    Ok(())
}

// Whether a view is to be warned of at the instrument of a number.
fn is_unfit_at(catalogue: &Catalogue, view: &View, number: u32) -> bool
    requires { number < length catalogue.now.instruments }
    ensures { result ≡ is_unfit_at catalogue.now view.now number }
{
    let instrument = &catalogue.instruments()[number as usize];
    names_unfit(view, instrument) && view.selects(meter_of(catalogue, number), instrument)
}

// Whether a view itself names a sum, and the instrument is a gauge.
fn names_unfit(view: &View, instrument: &Instrument) -> bool
    ensures { result ≡ names_unfit view.now instrument.now }
{
    matches!(instrument.kind, Kind::Gauge)
        && matches!(view.settings.aggregation, Some(Aggregation::Sum))
}
