//! Why no code is made of a catalogue.
use metric_base::Text;
use std::alloc::AllocError;
use std::fmt;

/// Why no code is made of a catalogue.
#[derive(Debug, Drop)]
pub enum BindFault {
    /// Two things come to one name of the file.
    Clash {
        /// The name.
        name: Text,
        /// What has it first, and where.
        first: Text,
        /// What has it, too.
        second: Text,
    },
    /// Out of memory.
    Memory,
}

impl From<AllocError> for BindFault {
    ghost use Rattle.std.specs.Prelude.{◌≡◌};
    ghost use Rattle.metric_bind.specs.declared.fault.BindFault.TheVariants.{Memory};

    ghost from_gives = { λ _ fault. fault ≡ Memory };

    fn from(_refused: AllocError) -> BindFault {
        BindFault::Memory
    }
}

impl fmt::Display for BindFault {
    fn fmt<W: fmt::Write>(&self, f: &mut fmt::Formatter<W>) -> fmt::Result {
        match self {
            BindFault::Clash {
                name,
                first,
                second,
            } => write!(f, "{first} and {second} come to one name, {name}"),
            BindFault::Memory => f.write_str("out of memory"),
        }
    }
}
