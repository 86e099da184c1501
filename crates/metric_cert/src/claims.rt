//! What a certificate says.
ghost use Rattle.std.specs.Prelude.{◌≡◌};
ghost use Rattle.std.specs.List.{list_any};
ghost use Rattle.metric_cert.specs.Formats.{has_list, is_formatted};

use crate::bound::InstrumentBound;
use crate::order::ReaderOrder;
use crate::reason::SelectionReason;
use crate::stream::{By, StreamSets};
use metric_base::Items;

/// What a certificate says.
pub struct Claims {
    /// The format: 1, or 2, in which streams may be bounded by lists.
    pub format: u16,
    /// For each view and each instrument, why the view selects it or not.
    pub reasons: Items<SelectionReason>,
    /// The streams, each with how many series it can have.
    pub streams: Items<StreamSets>,
    /// The bounds of each instrument.
    pub bounds: Items<InstrumentBound>,
    /// For each reader, in which order the identities of its streams rise.
    pub orders: Items<ReaderOrder>,
}

impl Drop for Claims {
    // A call of its own, so that what owns a certificate does not carry the steps of dropping each part.
    fn drop(self) {
        let Claims {
            format: _,
            reasons: _reasons,
            streams: _streams,
            bounds: _bounds,
            orders: _orders,
        } = self;
    }
}

impl Claims {
    /// Whether the format is one that there is, and streams are bounded by lists in format 2 alone.
    pub fn is_formatted(&self) -> bool
        ensures { result ≡ is_formatted self.now }
    {
        match self.format {
            1 => !self.has_lists(),
            2 => true,
            _ => false,
        }
    }

    // Whether a stream is bounded by a list.
    fn has_lists(&self) -> bool
        ensures { result ≡ list_any has_list self.now.streams }
    {
        self.streams
            .as_slice()
            .iter()
            .any(|stream| matches!(stream.by, By::List(_)))
    }
}
