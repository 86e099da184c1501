//! What requests promise, as laws of their definitions.
ghost use Rattle.metric_otlp.specs.Requests.{RequestsJoin};

/// Requests one after the other are the request of all their batches. Does nothing.
pub fn requests_join()
    ensures { RequestsJoin }
{}
