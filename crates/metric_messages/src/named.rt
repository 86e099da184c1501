//! Instruments, recorders, views and streams, as a person knows them.
use crate::cause::Named;
use crate::places::{Place, position_of};
use crate::sentence::{write_one, write_part, write_three};
use crate::shown::FileName;
use crate::sources::{NamedText, Pair};
use metric_catalogue::Catalogue;
use metric_lint::Position;
use metric_views::{Config, ConfigPlace, Stream};
use std::alloc::{AllocError, Global};
use std::fmt;

// The instrument of a number, with its name.
pub(crate) fn instrument_of(catalogue: &Catalogue, number: u32) -> Named<'_> {
    let name = match catalogue.instruments().get(number as usize) {
        Some(instrument) => Some(instrument.name.get().as_str()),
        None => None,
    };
    Named::new("instrument", number, name)
}

// The recorder of a number, with its name.
pub(crate) fn recorder_of(catalogue: &Catalogue, number: u32) -> Named<'_> {
    let name = match catalogue.recorders().get(number as usize) {
        Some(recorder) => Some(recorder.name.as_str()),
        None => None,
    };
    Named::new("recorder", number, name)
}

// The reader of a number, with its name.
pub(crate) fn reader_of(config: &Config, number: u32) -> Named<'_> {
    let name = match config.readers().get(number as usize) {
        Some(reader) => Some(reader.name.as_str()),
        None => None,
    };
    Named::new("reader", number, name)
}

/// A stream with what it comes from.
#[derive(Clone, Copy)]
pub struct NamedStream<'t> {
    stream: Named<'t>,
    reader: Named<'t>,
    instrument: Named<'t>,
    view: Option<SourcedView<'t>>,
}

// A view with its place.
#[derive(Clone, Copy)]
struct SourcedView<'t> {
    number: u32,
    source: NamedText<'t>,
    position: Option<Position>,
}

/// The stream of a number, with what it comes from, in words. Fails only when out of memory.
pub fn stream_of<'t>(
    alloc: Global,
    pair: Pair<'t>,
    number: u32,
    stream: &'t Stream,
) -> Result<NamedStream<'t>, AllocError> {
    let view = sourced_view(alloc, pair, stream.view)?;
    let name = stream.name.get().as_str();
    Ok(NamedStream {
        stream: Named::new("stream", number, Some(name)),
        reader: reader_of(pair.config, stream.reader),
        instrument: instrument_of(pair.catalogue, stream.instrument),
        view,
    })
}

fn sourced_view<'t>(
    alloc: Global,
    pair: Pair<'t>,
    view: Option<u32>,
) -> Result<Option<SourcedView<'t>>, AllocError> {
    let Some(number) = view else {
        return Ok(None);
    };
    let position = position_of(alloc, pair, Place::Config(ConfigPlace::View(number)))?;
    let source = pair.config_source;
    Ok(Some(SourcedView {
        number,
        source,
        position,
    }))
}

impl fmt::Display for NamedStream<'_> {
    fn fmt<W: fmt::Write>(&self, f: &mut fmt::Formatter<W>) -> fmt::Result {
        let instrument = (" (", &self.instrument);
        write_three(
            f,
            ("", &self.stream),
            (" of ", &self.reader),
            instrument,
            ", ",
        )?;
        match self.view {
            Some(view) => write_one(f, ("", &view), ")"),
            None => f.write_str("no view)"),
        }
    }
}

impl fmt::Display for SourcedView<'_> {
    fn fmt<W: fmt::Write>(&self, f: &mut fmt::Formatter<W>) -> fmt::Result {
        write_part(f, ("view ", &self.number))?;
        match self.position {
            Some(Position { line, column }) => {
                write_three(
                    f,
                    (" at ", &FileName(self.source.name)),
                    (":", &line),
                    (":", &column),
                    "",
                )
            }
            None => Ok(()),
        }
    }
}
