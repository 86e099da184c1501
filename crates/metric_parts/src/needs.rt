//! What a command reads.

/// Which of the parts that may be missing a command needs. Every command needs the catalogue and
/// the config. A part that is not needed is not read where it is there.
#[derive(Clone, Copy)]
pub struct Needs {
    /// Whether the certificate is needed.
    pub certificate: bool,
    /// Whether the script is needed.
    pub script: bool,
}
