//! Remarks on a catalogue and a config.
ghost use Rattle.std.specs.Prelude.{◌≡◌, IfErr, IfOk};
ghost use Rattle.metric_kit_commands.specs.Declarations.{IsDeclaredFault};
ghost use Rattle.wormweekly_commands.specs.Answers.{AreNotes, told_outlets};

use crate::concerns::{denies, kept, names};
use crate::exposures::{Exposure, exposures_of};
use metric_base::{Items, Text};
use metric_command_lines::Request;
use metric_kit_commands::{Declared, KitFault, declared_of};
use metric_lint::{Remark, lint};
use metric_parts::Parts;
use metric_resolve::{StreamList, resolve_streams};
use std::alloc::{AllocError, Global};

/// The remarks on a catalogue and a config, with what ways out would lose of the streams.
pub(crate) struct Notes {
    pub declared: Declared,
    pub remarks: Items<Remark>,
    pub streams: StreamList,
    pub exposures: Vec<Exposure>,
    // In which order they are told: those that are denied, and then the others.
    order: Vec<usize>,
}

impl Drop for Notes {
    fn drop(self) {
        let Notes {
            declared: _declared,
            remarks: _remarks,
            streams: _streams,
            exposures: _exposures,
            order: _order,
        } = self;
    }
}

impl Notes {
    /// How many remarks there are.
    pub(crate) fn count(&self) -> usize {
        self.remarks.len().saturating_add(self.exposures.len())
    }

    /// The number of the one that is told at a place; the exposures have the numbers after those of the remarks.
    pub(crate) fn told_at(&self, place: usize) -> usize {
        self.order.get(place).copied().unwrap_or(place)
    }
}

fn order_of(
    alloc: Global,
    denied: &[Text],
    remarks: &[Remark],
    exposures: usize,
) -> Result<Vec<usize>, AllocError> {
    let mut order = Vec::new(alloc);
    let count = remarks.len().saturating_add(exposures);
    add_those(&mut order, denied, remarks, count, true)?;
    add_those(&mut order, denied, remarks, count, false)?;
    Ok(order)
}

// Puts the numbers of those last that are denied, or of the others.
fn add_those(
    order: &mut Vec<usize>,
    denied: &[Text],
    remarks: &[Remark],
    count: usize,
    are_denied: bool,
) -> Result<(), AllocError> {
    for number in 0..count {
        let kind = remarks
            .get(number)
            .map_or("exposure", |remark| remark.kind());
        if denies(denied, kind) == are_denied {
            order.push(number)?;
        }
    }
    Ok(())
}

/// The remarks on what the parts declare that are not allowed, also what the ways out would lose that are asked for.
pub(crate) fn notes_of(
    alloc: Global,
    request: &Request,
    parts: &Parts<'_>,
) -> Result<Notes, KitFault>
    ensures ok { IfOk result (AreNotes request.now parts.now) }
    ensures first { IfErr result (λ fault. IsDeclaredFault fault parts.now) }
{
    let declared = declared_of(alloc, parts)?;
    let allowed = request.concerns.allowed.as_slice();
    let all = lint(alloc, &declared.catalogue, &declared.config)?;
    let remarks = kept(alloc, all.as_slice(), allowed)?;
    let streams = resolve_streams(alloc, &declared.catalogue, &declared.config)?;
    let exposures = exposures_of(
        alloc,
        &declared.catalogue,
        &declared.config,
        streams.as_slice(),
        told_outlets(request.concerns.outlets.as_slice(), allowed),
    )?;
    let denied = request.concerns.denied.as_slice();
    let order = order_of(alloc, denied, remarks.as_slice(), exposures.len())?;
    Ok(Notes {
        declared,
        remarks,
        streams,
        exposures,
        order,
    })
}

// The words for ways out that are told of: none where that is allowed.
fn told_outlets<'a>(words: &'a [Text], allowed: &[Text]) -> &'a [Text]
    ensures { result.now ≡ told_outlets words.now allowed.now }
{
    if names(allowed, "exposure") {
        &[]
    } else {
        words
    }
}
