//! Lanes on which links pass the boxes of views.
use crate::diagram::{Node, Tone};
use crate::links::raise;
use crate::slots::Slots;
use metric_views::Stream;
use std::alloc::{AllocError, Global};

/// The boxes of views, and below them a lane for each box of instruments with default streams: of each such box, its
/// lane.
pub(crate) fn with_lanes(
    alloc: Global,
    views: Vec<Node>,
    streams: &[Stream],
    instruments: &Slots,
) -> Result<Slots, AllocError> {
    let flags = default_flags(alloc, streams, instruments)?;
    let mut slots = Slots::new(alloc);
    slots.nodes = views;
    for has_default in flags.iter() {
        if *has_default {
            slots.add(Node::new(alloc, String::new(alloc), Tone::Lane))?;
        } else {
            slots.of.push(usize::MAX)?;
        }
    }
    Ok(slots)
}

// Of each box of instruments, whether one of them has a default stream.
fn default_flags(
    alloc: Global,
    streams: &[Stream],
    instruments: &Slots,
) -> Result<Vec<bool>, AllocError> {
    let mut flags = vec![in alloc; false; instruments.nodes.len()]?;
    for stream in streams {
        if stream.view.is_none() {
            raise(
                flags.as_mut_slice(),
                instruments.at(stream.instrument as usize),
            );
        }
    }
    Ok(flags)
}
