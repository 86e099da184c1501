//! The streams of a config, as rows.
ghost use Rattle.std.specs.Prelude.{IfErr, IfOk};
ghost use Rattle.metric_kit_commands.specs.Declarations.{IsDeclaredFault};
ghost use Rattle.wormweekly_commands.specs.Answers.{IsListing};

use crate::change_cells::aggregation_cell;
use crate::marks::{Marks, mark_cell, marks_of};
use crate::rows::{family_cell, put_stream};
use metric_base::Items;
use metric_bounds::totals;
use metric_kit_commands::{Declared, KitFault, declared_of};
use metric_parts::Parts;
use metric_resolve::{Streams, resolve};
use metric_sheet::{Cell, Row, Sheet};
use metric_views::Stream;
use std::alloc::{AllocError, Global};

static TITLES: [&str; 18] = [
    "number",
    "reader",
    "meter",
    "instrument",
    "stream",
    "unit",
    "kind",
    "temporality",
    "keys",
    "sets",
    "limit",
    "within",
    "bytes",
    "clash",
    "unfit",
    "family",
    "description",
    "boundaries",
];

// So many of them stand in a table: the others would be too wide.
const MOST_TITLES: usize = 16;

/// The streams of a config, with what is to be warned of, and how often each instrument may be recorded.
pub(crate) struct Listing {
    pub declared: Declared,
    pub streams: Streams,
    pub totals: Items<u128>,
    pub marks: Marks,
}

impl Drop for Listing {
    fn drop(self) {
        let Listing {
            declared: _declared,
            streams: _streams,
            totals: _totals,
            marks: _marks,
        } = self;
    }
}

/// The streams that the parts give.
pub(crate) fn listing_of(alloc: Global, parts: &Parts<'_>) -> Result<Listing, KitFault>
    ensures ok { IfOk result (IsListing parts.now) }
    ensures first { IfErr result (λ fault. IsDeclaredFault fault parts.now) }
{
    let declared = declared_of(alloc, parts)?;
    let streams = resolve(alloc, &declared.catalogue, &declared.config)?;
    let totals = totals(alloc, &declared.catalogue)?;
    let marks = marks_of(
        alloc,
        streams.list().len(),
        totals.len(),
        streams.warnings(),
    )?;
    Ok(Listing {
        declared,
        streams,
        totals,
        marks,
    })
}

/// The streams of a listing, with all that there is of each, or as much as a table has.
#[derive(Clone, Copy)]
pub(crate) struct StreamSheet<'a> {
    pub listing: &'a Listing,
    pub is_whole: bool,
}

impl Sheet for StreamSheet<'_> {
    fn titles(&self) -> &'static [&'static str] {
        let titles = TITLES.as_slice();
        if self.is_whole {
            titles
        } else {
            titles.get(..MOST_TITLES).unwrap_or(titles)
        }
    }

    fn rows(&self) -> usize {
        self.listing.streams.list().len()
    }

    fn row(&self, alloc: Global, number: usize) -> Result<Vec<Cell>, AllocError> {
        let mut row = Row::new(alloc);
        if let Some(stream) = self.listing.streams.list().get(number) {
            self.put_cells(&mut row, number, stream)?;
        }
        row.cells()
    }
}

impl StreamSheet<'_> {
    // The cells of the stream of a number.
    fn put_cells(&self, row: &mut Row, number: usize, stream: &Stream) -> Result<(), AllocError> {
        let Listing {
            declared,
            totals,
            marks,
            ..
        } = self.listing;
        put_stream(row, declared, totals.as_slice(), number, stream)?;
        row.put(Ok(mark_cell(marks.clash_of(number))));
        row.put(Ok(mark_cell(marks.unfit_of(stream.instrument))));
        row.put(family_cell(row.alloc(), stream));
        if self.is_whole {
            row.text(stream.description.get().as_str());
            row.put(aggregation_cell(row.alloc(), &stream.aggregation));
        }
        Ok(())
    }
}
