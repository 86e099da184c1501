//! An old catalogue and config, and new ones, compared.
ghost use Rattle.std.specs.Prelude.{◌≡◌, IfErr, IfOk};
ghost use Rattle.metric_kit_commands.specs.Claims.{IsClaimFault};
ghost use Rattle.metric_kit_commands.specs.Declarations.{IsDeclaredFault};
ghost use Rattle.metric_diff.specs.Changes.{plan, plan_of};
ghost use Rattle.wormweekly_commands.specs.Answers.{AreRooms};
ghost use Rattle.wormweekly_commands.specs.Comparing.{IsClaim, IsCompared, IsComparison, IsOldFault, RefusesDiff, RefusesPair, diff_status};
ghost use Rattle.wormweekly_commands.specs.Concerns.{denies_change};
ghost use Rattle.wormweekly_commands.specs.Faults.{IsDeviceFault};
ghost use Rattle.std.specs.List.{list_any};

use crate::concerns::denies_change;
use crate::fault::{ConsoleFault, Role};
use crate::folder::Unread;
use crate::parts::Texts;
use crate::rooms::{Rooms, rooms_of};
use crate::series::all_series;
use metric_base::{Items, Text};
use metric_diff::{Change, Programs, Side, changes, programs_of};
use metric_kit_commands::{KitFault, certified_plan};
use metric_parts::Parts;
use metric_resolve::{StreamList, resolve_streams};
use std::alloc::Global;

/// Whether a certificate holds for the new catalogue and config.
#[derive(Drop)]
pub(crate) enum Claim {
    /// None is named.
    Absent,
    /// It does.
    Holds,
    /// It does not.
    Fails(KitFault),
}

/// What differs, with both sides.
pub(crate) struct Comparison {
    pub old: Rooms,
    pub old_streams: StreamList,
    pub old_series: Items<u128>,
    pub new: Rooms,
    pub new_streams: StreamList,
    pub new_series: Items<u128>,
    pub claim: Claim,
    pub programs: Programs,
    pub changes: Items<Change>,
}

impl Drop for Comparison {
    fn drop(self) {
        let Comparison {
            old: _old,
            old_streams: _old_streams,
            old_series: _old_series,
            new: _new,
            new_streams: _new_streams,
            new_series: _new_series,
            claim: _claim,
            programs: _programs,
            changes: _changes,
        } = self;
    }
}

/// What differs between the old files and the others, and whether the certificate holds for these.
///
/// # Errors
///
/// The first fault of the old files, as [`ConsoleFault::Old`], or of the new ones; [`ConsoleFault::Unread`] where the
/// request names no old files; and [`KitFault::Memory`].
#[tactic(auto, using(crate::proofs::Sides::pair_refused))]
pub(crate) fn comparison_of(alloc: Global, texts: &Texts) -> Result<Comparison, ConsoleFault>
    ensures ok { IfOk result (IsCompared texts.now) }
    ensures first { IfErr result (RefusesDiff texts.now) }
{
    match &texts.old {
        Some(old) => compared(alloc, old, &texts.parts),
        None => Err(ConsoleFault::Unread {
            role: Role::OldCatalogue,
            cause: Unread::Missing,
        }),
    }
}

/// What differs between old parts and new ones.
///
/// # Errors
///
/// The first fault of the old parts, as [`ConsoleFault::Old`], or of the new ones; and [`KitFault::Memory`].
pub(crate) fn compared(
    alloc: Global,
    old_parts: &Parts<'_>,
    parts: &Parts<'_>,
) -> Result<Comparison, ConsoleFault>
    ensures ok { IfOk result (IsComparison old_parts.now parts.now) }
    ensures first { IfErr result (RefusesPair old_parts.now parts.now) }
{
    let old = old_rooms(alloc, old_parts)?;
    let new = rooms_of(alloc, parts)?;
    let claim = claim_of(alloc, parts)?;
    let programs = programs_of(alloc, &old.declared.catalogue, &new.declared.catalogue)?;
    let old_streams = resolve_streams(alloc, &old.declared.catalogue, &old.declared.config)?;
    let new_streams = resolve_streams(alloc, &new.declared.catalogue, &new.declared.config)?;
    let old_series = all_series(alloc, &old.declared.catalogue, old_streams.as_slice())?;
    let new_series = all_series(alloc, &new.declared.catalogue, new_streams.as_slice())?;
    let old_side = side_of(&old, &old_streams, &old_series);
    let new_side = side_of(&new, &new_streams, &new_series);
    let changes = changes(alloc, old_side, new_side)?;
    Ok(Comparison {
        old,
        old_streams,
        old_series,
        new,
        new_streams,
        new_series,
        claim,
        programs,
        changes,
    })
}

// The headrooms of the old files.
fn old_rooms(alloc: Global, parts: &Parts<'_>) -> Result<Rooms, ConsoleFault>
    ensures ok { IfOk result (AreRooms parts.now) }
    ensures first { IfErr result (IsOldFault parts.now) }
{
    match rooms_of(alloc, parts) {
        Ok(rooms) => Ok(rooms),
        Err(fault) => Err(ConsoleFault::Old(fault)),
    }
}

// Whether the certificate of the parts holds for them.
fn claim_of(alloc: Global, parts: &Parts<'_>) -> Result<Claim, KitFault>
    ensures ok { IfOk result (IsClaim parts.now) }
    ensures device { IfErr result IsDeviceFault }
{
    if parts.certificate.is_none() {
        return Ok(Claim::Absent);
    }
    match certified_plan(alloc, parts) {
        Ok(_plan) => Ok(Claim::Holds),
        Err(KitFault::Memory) => Err(KitFault::Memory),
        Err(fault) => Ok(Claim::Fails(fault)),
    }
}

/// What is compared, with its streams.
fn side_of<'s>(rooms: &'s Rooms, streams: &'s StreamList, series: &'s Items<u128>) -> Side<'s>
    ensures { plan_of result ≡ plan rooms.now.declared.catalogue rooms.now.declared.config
        streams.now series.now rooms.now.rooms }
{
    Side {
        catalogue: &rooms.declared.catalogue,
        config: &rooms.declared.config,
        streams: streams.as_slice(),
        series: series.as_slice(),
        rooms: rooms.rooms.as_slice(),
    }
}

/// The exit status: 1 where some change is denied, else 0.
pub(crate) fn diff_status(denied: &[Text], changes: &[Change]) -> u8
    ensures { result ≡ diff_status denied.now changes.now }
{
    if has_denied(denied, changes) { 1 } else { 0 }
}

fn has_denied(denied: &[Text], changes: &[Change]) -> bool
    ensures { result ≡ list_any (denies_change denied.now) changes.now }
{
    changes.iter().any(|change| denies_change(denied, change))
}
