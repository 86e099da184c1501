//! The table of a stream.
use crate::stream_series::StreamSeries;

/// The table of a stream, with what a collection has to know of the stream.
#[derive(Drop)]
pub struct StreamTable {
    /// The stream's number.
    pub(crate) number: u32,
    /// The number of its reader.
    pub(crate) reader: u32,
    /// Its series, with the numbers of the reader's window.
    pub(crate) table: StreamSeries,
}
