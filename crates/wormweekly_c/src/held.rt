//! What a handle may hold.
use metric_hosted::{Hosted, HostedReader, HostedRecorder};

/// What a handle holds on the heap: an instrument, or the seat of a recorder or of a reader with its plan.
#[derive(Drop)]
pub enum Held {
    Instrument(Hosted),
    Recorder(HostedRecorder),
    Reader(HostedReader),
}
