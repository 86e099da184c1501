//! Remarks on a catalogue and a config.
ghost use Rattle.std.specs.Prelude.{◌≡◌, ◌==◌, ◌<◌, ◌≤◌, ◌++◌, ◌&&◌, ◌||◌, IfOk, OnOk, Some, is_some, length, map, not};
ghost use Rattle.std.specs.List.{flat_map, list_all, list_any};
ghost use Rattle.metric_contents.specs.Budgets.{amount_of};
ghost use Rattle.metric_resolve.specs.Applying.{all_instruments, all_views};
ghost use Rattle.metric_lint.specs.Remarks.{AreRemarks, all_recorder_remarks, are_shared, idle_remarks, instrument_remarks, is_idle, is_unrecorded, key_remarks, list_remarks, lists_remarks, recorder_remarks, remark_of, room_remarks};
ghost use Rattle.metric_lint.specs.Remarks.{own_remarks, settings_remarks, view_remarks};
ghost use Rattle.metric_lint.specs.Values.{stream_remarks};
ghost use Rattle.metric_lint.specs.When.{when};

use crate::collected::add_collected;
use crate::headroom::{Headroom, headrooms_of};
use crate::histograms::histogram_views;
use crate::remark::{KeyList, Remark};
use crate::said::add_said;
use crate::selected::{is_declared_by, selected_by};
use crate::unused::add_unused;
use crate::values::{add_streams, add_values};
use metric_base::{Few, Items, Text};
use metric_catalogue::Catalogue;
use metric_contents::{Instrument, Recorder};
use metric_resolve::{Warning, resolve};
use metric_views::{Config, Settings};
use std::alloc::{AllocError, Global};

/// Everything that looks like a mistake in a catalogue and a config, in this order: unfit views and collisions, as
/// `resolve` tells them; then of each view whether it selects nothing, else each key of `keep` and of `exclude` that
/// no selected instrument declares, boundaries without effect, whether it says nothing, and each key that it keeps and
/// excludes; then of each instrument whether nobody can record on it, whether it allows nothing or one value alone,
/// each value that no allowed combination has, and budgets and spare together above its headroom; then each stream of
/// which one bucket takes all, or whose boundaries are far from its values; then of each recorder whether it has no
/// budget, unless each instrument has something to spare, and that there is no recorder; then of
/// each reader whether it has no stream, and delta streams of up-down counters and of gauges, and that there is no
/// reader. Fails only when out of memory.
pub fn lint(
    alloc: Global,
    catalogue: &Catalogue,
    config: &Config,
) -> Result<Items<Remark>, AllocError>
    ensures { IfOk result (AreRemarks catalogue.now config.now) }
{
    let streams = resolve(alloc, catalogue, config)?;
    let rooms = headrooms_of(alloc, catalogue, streams.list())?;
    let histograms = histogram_views(alloc, streams.list(), config.views().len())?;
    let mut remarks = warning_remarks(alloc, streams.warnings())?;
    add_views(
        alloc,
        &mut remarks,
        catalogue,
        config,
        histograms.as_slice(),
    )?;
    add_instruments(alloc, &mut remarks, catalogue, rooms.as_slice())?;
    add_streams(&mut remarks, catalogue, streams.list())?;
    add_recorders(&mut remarks, catalogue)?;
    add_collected(&mut remarks, catalogue, config, streams.list())?;
    Ok(remarks)
}

// The remarks of warnings.
fn warning_remarks(alloc: Global, warnings: &[Warning]) -> Result<Items<Remark>, AllocError>
    ensures { IfOk result (λ remarks. remarks ≡ map remark_of warnings.now) }
{
    let mut remarks = Items::new(alloc);
    for warning in warnings {
        remarks.push(remark_of(*warning))?;
    }
    Ok(remarks)
}

/// The remark that a warning is.
pub fn remark_of(warning: Warning) -> Remark
    ensures { result ≡ remark_of warning }
{
    match warning {
        Warning::Unfit { view, instrument } => Remark::Unfit { view, instrument },
        Warning::Collision { a, b } => Remark::Collision { first: a, later: b },
    }
}

// Puts the remarks on all views last.
fn add_views(
    alloc: Global,
    remarks: &mut Items<Remark>,
    catalogue: &Catalogue,
    config: &Config,
    histograms: &[bool],
) -> Result<(), AllocError>
    requires { length histograms.now ≡ length config.now.views }
    ensures { OnOk result (remarks.new ≡ remarks.old
        ++ flat_map (view_remarks catalogue.now config.now histograms.now) (all_views config.now)) }
{
    for view in 0..config.views().len() as u32 {
        add_view(alloc, remarks, catalogue, config, histograms, view)?;
    }
    Ok(())
}

// Puts the remarks on the view of this number last.
fn add_view(
    alloc: Global,
    remarks: &mut Items<Remark>,
    catalogue: &Catalogue,
    config: &Config,
    histograms: &[bool],
    view: u32,
) -> Result<(), AllocError>
    requires view { view < length config.now.views }
    requires histograms { length histograms.now ≡ length config.now.views }
    ensures { OnOk result (remarks.new ≡ remarks.old
        ++ view_remarks catalogue.now config.now histograms.now view) }
{
    let selected = selected_by(alloc, catalogue, config, view)?;
    let own = &config.views()[view as usize];
    let settings = &own.settings;
    add_settings(remarks, catalogue, selected.as_slice(), settings, view)?;
    let is_unused = has_unused_boundaries(config, settings, histograms[view as usize]);
    add_when(remarks, is_unused, Remark::UnusedBoundaries { view })?;
    add_said(remarks, own, view)
}

// Whether a view gives boundaries that no histogram has for the readers that there are.
fn has_unused_boundaries(config: &Config, settings: &Settings, makes_histogram: bool) -> bool
    ensures { result ≡ (is_some settings.now.boundaries
        && not (makes_histogram || length config.now.readers == 0)) }
{
    settings.boundaries.is_some() && !(makes_histogram || config.readers().is_empty())
}

// Puts it last that a view selects nothing, or else the remarks on what it keeps and excludes.
#[tactic(auto, unfolding(crate::specs::Remarks::settings_remarks))]
fn add_settings(
    remarks: &mut Items<Remark>,
    catalogue: &Catalogue,
    selected: &[bool],
    settings: &Settings,
    view: u32,
) -> Result<(), AllocError>
    ensures { OnOk result (remarks.new ≡ remarks.old
        ++ settings_remarks catalogue.now selected.now settings.now view) }
{
    if has_selected(selected) {
        add_lists(remarks, catalogue, selected, settings, view)
    } else {
        remarks.push(Remark::SelectsNothing { view })
    }
}

// Puts the remarks on what a view keeps and excludes last.
fn add_lists(
    remarks: &mut Items<Remark>,
    catalogue: &Catalogue,
    selected: &[bool],
    settings: &Settings,
    view: u32,
) -> Result<(), AllocError>
    ensures { OnOk result (remarks.new ≡ remarks.old
        ++ lists_remarks catalogue.now selected.now settings.now view) }
{
    let list = KeyList::Keep;
    add_list(
        remarks,
        catalogue,
        selected,
        &settings.keep,
        ListOf { view, list },
    )?;
    let list = KeyList::Exclude;
    add_list(
        remarks,
        catalogue,
        selected,
        &settings.exclude,
        ListOf { view, list },
    )
}

/// Puts a remark last, where it holds.
pub(crate) fn add_when(
    remarks: &mut Items<Remark>,
    holds: bool,
    remark: Remark,
) -> Result<(), AllocError>
    ensures { OnOk result (remarks.new ≡ remarks.old ++ when holds remark) }
{
    if holds {
        remarks.push(remark)?;
    }
    Ok(())
}

fn has_selected(selected: &[bool]) -> bool
    ensures { result ≡ list_any (λ is_selected. is_selected) selected.now }
{
    selected.iter().any(|is_selected| *is_selected)
}

// Puts the remarks on the keys of a list of a view last, where it has the list.
fn add_list(
    remarks: &mut Items<Remark>,
    catalogue: &Catalogue,
    selected: &[bool],
    keys: &Option<Few<Text, 64>>,
    of: ListOf,
) -> Result<(), AllocError>
    ensures { OnOk result (remarks.new ≡ remarks.old
        ++ list_remarks catalogue.now selected.now of.view of.list keys.now) }
{
    match keys {
        Some(keys) => add_keys(remarks, catalogue, selected, keys.as_slice(), of),
        None => Ok(()),
    }
}

// A list of the view of a number.
#[derive(Clone, Copy)]
struct ListOf {
    view: u32,
    list: KeyList,
}

// Puts a remark last for each key that no selected instrument declares.
fn add_keys(
    remarks: &mut Items<Remark>,
    catalogue: &Catalogue,
    selected: &[bool],
    keys: &[Text],
    of: ListOf,
) -> Result<(), AllocError>
    requires { length keys.now ≤ 64 }
    ensures { OnOk result (remarks.new ≡ remarks.old
        ++ key_remarks catalogue.now selected.now of.view of.list keys.now) }
{
    for (place, key) in keys.iter().enumerate() {
        let remark = Remark::UnknownKey {
            view: of.view,
            list: of.list,
            place: place as u32,
        };
        let is_declared = is_declared_by(catalogue, selected, key.as_str());
        add_when(remarks, !is_declared, remark)?;
    }
    Ok(())
}

// Puts the remarks on all instruments last.
fn add_instruments(
    alloc: Global,
    remarks: &mut Items<Remark>,
    catalogue: &Catalogue,
    rooms: &[Headroom],
) -> Result<(), AllocError>
    requires { length rooms.now ≡ length catalogue.now.instruments }
    ensures { OnOk result (remarks.new ≡ remarks.old
        ++ flat_map (instrument_remarks catalogue.now rooms.now) (all_instruments catalogue.now)) }
{
    let (recorders, instruments) = (catalogue.recorders(), catalogue.instruments());
    for number in 0..instruments.len() as u32 {
        add_own(
            alloc,
            remarks,
            recorders,
            &instruments[number as usize],
            number,
        )?;
        add_room(remarks, &rooms[number as usize], number)?;
    }
    Ok(())
}

// Puts the remarks on an instrument alone last: that nobody can record on it, and those on its values and combinations.
fn add_own(
    alloc: Global,
    remarks: &mut Items<Remark>,
    recorders: &[Recorder],
    instrument: &Instrument,
    number: u32,
) -> Result<(), AllocError>
    ensures { OnOk result (remarks.new ≡ remarks.old
        ++ own_remarks recorders.now (Some instrument.now) number) }
{
    let is_unrecorded = is_unrecorded(recorders, instrument.spare, number);
    let remark = Remark::Unrecorded { instrument: number };
    add_when(remarks, is_unrecorded, remark)?;
    add_values(remarks, instrument, number)?;
    add_unused(alloc, remarks, instrument, number)
}

// Whether there are recorders, and none may record on an instrument that has so much to spare.
fn is_unrecorded(recorders: &[Recorder], spare: u64, instrument: u32) -> bool
    ensures { result ≡ is_unrecorded recorders.now spare instrument }
{
    spare == 0 && !recorders.is_empty() && has_no_budget(recorders, instrument)
}

// Whether no recorder has a budget for an instrument.
fn has_no_budget(recorders: &[Recorder], instrument: u32) -> bool
    ensures { result ≡ list_all (λ recorder. amount_of recorder instrument == 0) recorders.now }
{
    recorders
        .iter()
        .all(|recorder| recorder.budget(instrument) == 0)
}

// Puts it last that the budgets and the spare of an instrument are above its headroom, where they are.
fn add_room(remarks: &mut Items<Remark>, room: &Headroom, instrument: u32) -> Result<(), AllocError>
    ensures { OnOk result (remarks.new ≡ remarks.old ++ room_remarks (Some room.now) instrument) }
{
    let limit = room.limit;
    let is_over = u128::from(room.most) < room.total;
    add_when(remarks, is_over, Remark::OverBudget { instrument, limit })
}

// Puts the remarks on recorders last: each that has no budget, and that there is none.
fn add_recorders(remarks: &mut Items<Remark>, catalogue: &Catalogue) -> Result<(), AllocError>
    ensures { OnOk result (remarks.new ≡ remarks.old ++ all_recorder_remarks catalogue.now) }
{
    let recorders = catalogue.recorders();
    add_idle_beside(remarks, catalogue.instruments(), recorders)?;
    add_when(remarks, recorders.is_empty(), Remark::NoRecorder)
}

// Puts a remark last for each recorder that has no budget, unless each instrument has something to spare.
fn add_idle_beside(
    remarks: &mut Items<Remark>,
    instruments: &[Instrument],
    recorders: &[Recorder],
) -> Result<(), AllocError>
    requires { length recorders.now ≤ 64 }
    ensures { OnOk result (remarks.new ≡ remarks.old
        ++ idle_remarks instruments.now recorders.now) }
{
    if are_shared(instruments) {
        Ok(())
    } else {
        add_idle(remarks, recorders)
    }
}

fn are_shared(instruments: &[Instrument]) -> bool
    ensures { result ≡ are_shared instruments.now }
{
    !instruments.is_empty() && have_spares(instruments)
}

fn have_spares(instruments: &[Instrument]) -> bool
    ensures { result ≡ list_all (λ instrument. not (instrument.spare == 0)) instruments.now }
{
    instruments.iter().all(|instrument| instrument.spare != 0)
}

// Puts a remark last for each recorder that has no budget.
fn add_idle(remarks: &mut Items<Remark>, recorders: &[Recorder]) -> Result<(), AllocError>
    requires { length recorders.now ≤ 64 }
    ensures { OnOk result (remarks.new ≡ remarks.old ++ recorder_remarks recorders.now) }
{
    for (number, recorder) in recorders.iter().enumerate() {
        let remark = Remark::NoBudget {
            recorder: number as u32,
        };
        add_when(remarks, is_idle(recorder), remark)?;
    }
    Ok(())
}

// Whether a recorder has no budget.
fn is_idle(recorder: &Recorder) -> bool
    ensures { result ≡ is_idle recorder.now }
{
    recorder
        .budgets
        .as_slice()
        .iter()
        .all(|budget| budget.amount == 0)
}
