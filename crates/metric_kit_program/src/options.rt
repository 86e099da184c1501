//! What the threads are asked for.
/// How much is recorded by threads.
#[derive(Clone, Copy, Debug, PartialEq, Eq)]
pub struct ThreadsOptions {
    /// How often each recorder records on each instrument.
    pub each: u32,
}
