//! What is done inside a lock.
use std::sync::Wait;

/// What a provider does inside an instrument's lock once a step on it is made, where a program may hold a thread
/// or let another one go.
pub trait Gate: Drop {
    /// Called under the lock of the instrument of this number, after each step on it.
    fn inside<R: Wait>(&self, rt: &R, instrument: u32);
}

/// Does nothing.
#[derive(Clone, Copy, Debug, Drop)]
pub struct NoGate;

impl Gate for NoGate {
    fn inside<R: Wait>(&self, _rt: &R, _instrument: u32) {}
}
