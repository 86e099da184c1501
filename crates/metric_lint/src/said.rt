//! Remarks on what a view says, whatever it selects.
ghost use Rattle.std.specs.Prelude.{◌≡◌, ◌≤◌, ◌++◌, OnOk, Some, length};
ghost use Rattle.metric_views.specs.Streams.{is_listed};
ghost use Rattle.metric_lint.specs.Said.{both_remarks, changes_nothing, said_remarks, says_nothing, selects_all, twice_remarks};

use crate::linting::add_when;
use crate::remark::Remark;
use metric_base::{Few, Items, Text};
use metric_views::{Criteria, Settings, View};
use std::alloc::AllocError;

/// Puts the remarks on what a view says last: that it says nothing, and each key that it keeps and excludes.
pub(crate) fn add_said(
    remarks: &mut Items<Remark>,
    view: &View,
    number: u32,
) -> Result<(), AllocError>
    ensures { OnOk result (remarks.new ≡ remarks.old ++ said_remarks view.now number) }
{
    let is_empty = says_nothing(view);
    add_when(remarks, is_empty, Remark::SaysNothing { view: number })?;
    add_both(remarks, &view.settings, number)
}

// Whether a view has no criterion and no setting.
fn says_nothing(view: &View) -> bool
    ensures { result ≡ says_nothing view.now }
{
    selects_all(&view.criteria) && changes_nothing(&view.settings)
}

// Each criterion is named, so that a new one is not left out unnoticed.
fn selects_all(criteria: &Criteria) -> bool
    ensures { result ≡ selects_all criteria.now }
{
    let Criteria {
        instrument_name,
        instrument_type,
        instrument_unit,
        meter_name,
        meter_version,
        meter_schema_url,
    } = criteria;
    instrument_name.is_none()
        && instrument_type.is_none()
        && instrument_unit.is_none()
        && meter_name.is_none()
        && meter_version.is_none()
        && meter_schema_url.is_none()
}

// The same of each setting.
fn changes_nothing(settings: &Settings) -> bool
    ensures { result ≡ changes_nothing settings.now }
{
    let Settings {
        stream_name,
        description,
        aggregation,
        boundaries,
        keep,
        exclude,
        limit,
    } = settings;
    stream_name.is_none()
        && description.is_none()
        && aggregation.is_none()
        && boundaries.is_none()
        && keep.is_none()
        && exclude.is_none()
        && limit.is_none()
}

// Puts a remark last for each key that a view keeps and excludes.
fn add_both(remarks: &mut Items<Remark>, settings: &Settings, number: u32) -> Result<(), AllocError>
    ensures { OnOk result (remarks.new ≡ remarks.old ++ both_remarks settings.now number) }
{
    match (&settings.keep, &settings.exclude) {
        (Some(keep), Some(exclude)) => { add_twice(remarks, keep.as_slice(), exclude, number) }
        _ => Ok(()),
    }
}

// Puts a remark last for each key of a list that stands in another too.
fn add_twice(
    remarks: &mut Items<Remark>,
    keep: &[Text],
    exclude: &Few<Text, 64>,
    view: u32,
) -> Result<(), AllocError>
    requires { length keep.now ≤ 64 }
    ensures { OnOk result (remarks.new ≡ remarks.old
        ++ twice_remarks keep.now exclude.now view) }
{
    for (place, key) in keep.iter().enumerate() {
        let remark = Remark::KeptAndExcluded {
            view,
            place: place as u32,
        };
        let is_twice = is_listed(key.as_str(), exclude.as_slice());
        add_when(remarks, is_twice, remark)?;
    }
    Ok(())
}

fn is_listed(name: &str, keys: &[Text]) -> bool
    ensures { result ≡ is_listed name.now keys.now }
{
    keys.iter().any(|key| key.as_str() == name)
}
