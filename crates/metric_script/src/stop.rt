//! Where the reading of lines stops.
use metric_text::SpellingFault;
use std::alloc::AllocError;

// Lines of a script.
pub(crate) type Lines<'a> = &'a [&'a [u8]];

// Why the reading of lines stops.
#[derive(Clone, Copy)]
pub(crate) enum Stop<'a> {
    // The first of these lines is faulty, or they are none and a line is missing.
    At(Lines<'a>),
    // Out of memory.
    Memory,
}

impl<'a> Stop<'a> {
    ghost use Rattle.std.specs.Prelude.{◌≡◌};
    ghost use Rattle.metric_script.specs.Stops.{stop_of};

    // The reading stops at the first of these lines for this reason.
    pub(crate) fn at(lines: Lines<'a>, fault: SpellingFault) -> Stop<'a>
        ensures { result ≡ stop_of lines.entry fault }
    {
        match fault {
            SpellingFault::Bad => Stop::At(lines),
            SpellingFault::Memory => Stop::Memory,
        }
    }
}

impl From<AllocError> for Stop<'_> {
    ghost use Rattle.std.specs.Prelude.{◌≡◌};
    ghost use Rattle.metric_script.specs.declared.stop.Stop.TheVariants.{Memory};

    ghost from_gives = { λ _ stop. stop ≡ Memory };

    fn from(_refused: AllocError) -> Self {
        Stop::Memory
    }
}
