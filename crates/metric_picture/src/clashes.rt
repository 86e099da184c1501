//! Which streams collide with others.
use metric_catalogue::Catalogue;
use metric_exposure::{ExposureFault, Outlet, exposure_faults};
use metric_resolve::{Streams, Warning};
use metric_views::{Config, Stream, Temporality};
use std::alloc::{AllocError, Global};

/// In what a stream collides with another one.
#[derive(Clone, Copy, PartialEq)]
pub(crate) enum Clash {
    /// They have one identity.
    Identity,
    /// In a page of Prometheus the names of one are the other's, or those that each page has.
    Family,
}

impl Clash {
    /// What a box says of it.
    pub(crate) fn line(self) -> &'static str {
        match self {
            Clash::Identity => "collides: another stream has its identity",
            Clash::Family => "its names collide in Prometheus",
        }
    }
}

/// In what each stream collides.
pub(crate) fn clashes_of(
    alloc: Global,
    catalogue: &Catalogue,
    config: &Config,
    streams: &Streams,
) -> Result<Vec<Option<Clash>>, AllocError> {
    let list = streams.list();
    let mut clashes = vec![in alloc; None; list.len()]?;
    for warning in streams.warnings() {
        if let Warning::Collision { a, b } = *warning {
            mark(clashes.as_mut_slice(), a as usize, Clash::Identity);
            mark(clashes.as_mut_slice(), b as usize, Clash::Identity);
        }
    }
    for reader in 0..config.readers().len() as u32 {
        if has_page(list, reader) {
            mark_families(alloc, clashes.as_mut_slice(), catalogue, list, reader)?;
        }
    }
    Ok(clashes)
}

// Whether a reader has a stream that a page can have.
fn has_page(streams: &[Stream], reader: u32) -> bool {
    streams.iter().any(|stream| stream.reader == reader
        && stream.temporality == Temporality::Cumulative)
}

// Marks the streams of a reader of which the families collide.
fn mark_families(
    alloc: Global,
    clashes: &mut [Option<Clash>],
    catalogue: &Catalogue,
    streams: &[Stream],
    reader: u32,
) -> Result<(), AllocError> {
    let faults = exposure_faults(alloc, catalogue, streams, reader, Outlet::Prometheus)?;
    for fault in &faults {
        if let ExposureFault::NameCollision { stream, with } = *fault {
            mark(clashes, stream, Clash::Family);
            if let Some(other) = with {
                mark(clashes, other, Clash::Family);
            }
        }
    }
    Ok(())
}

// Marks a stream, where it has no mark yet.
fn mark(clashes: &mut [Option<Clash>], stream: usize, clash: Clash) {
    if let Some(place) = clashes.get_mut(stream)
        && place.is_none()
    {
        *place = Some(clash);
    }
}
