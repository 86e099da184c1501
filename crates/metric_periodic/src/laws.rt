//! What outlets keep to over a run.
ghost use Rattle.metric_periodic.specs.Windows.{OutletsTellOnce};

/// Over a run each recording of a delta reader is told once: whatever its turns were refused, each recording that the
/// reader has seen of an instrument is, by its number, in exactly one of the batches that its outlet collected, and all
/// of these that have points are among those to be handed on, in order (Metrics SDK, temporality). A turn hands on each
/// of them; the end of a run does so up to the first that is refused, and hands the others back. The function does
/// nothing.
pub fn outlets_tell_once()
    ensures { OutletsTellOnce }
{}
