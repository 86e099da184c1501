//! Why an event is refused.
ghost use Rattle.std.specs.Prelude.{◌≡◌};
ghost use Rattle.metric_contents.specs.Refusals.{name_of, number_of};

use std::fmt;

/// Why an event is refused, in the order in which the refusals are tried.
#[derive(Clone, Copy, Debug, PartialEq, Eq, Drop)]
pub enum Refusal {
    /// The seat's run is of another number, the seat was made for another number of instruments, or the plan has no
    /// recorder or reader of its number; or the facts and numbers that it brings are not those of the instrument's
    /// state.
    Stranger,
    /// The catalogue has no instrument of this number.
    UnknownInstrument,
    /// The catalogue has no recorder of this number.
    UnknownRecorder,
    /// The config has no reader of this number.
    UnknownReader,
    /// A key stands twice among the attributes.
    DuplicateKey,
    /// The instrument does not declare a key.
    UnknownKey,
    /// A key does not declare its value.
    UnknownValue,
    /// A required key is missing.
    MissingKey,
    /// The instrument does not allow the combination of values.
    Combination,
    /// The value is outside the instrument's range.
    ValueRange,
    /// The instrument is closed.
    Closed,
    /// The recorder's budget for the instrument is spent, with what it was granted.
    Budget,
    /// Less is left of the instrument's spare budget than a grant asks for.
    NoSpare,
    /// A sum would leave the range of i64, or a count that of u64.
    SumRange,
    /// Out of memory.
    Memory,
}

impl Refusal {
    /// Each refusal once, in the order in which they are tried.
    pub const ALL: [Refusal; 15] = [
        Refusal::Stranger,
        Refusal::UnknownInstrument,
        Refusal::UnknownRecorder,
        Refusal::UnknownReader,
        Refusal::DuplicateKey,
        Refusal::UnknownKey,
        Refusal::UnknownValue,
        Refusal::MissingKey,
        Refusal::Combination,
        Refusal::ValueRange,
        Refusal::Closed,
        Refusal::Budget,
        Refusal::NoSpare,
        Refusal::SumRange,
        Refusal::Memory,
    ];

    /// The refusal's number in printed texts.
    pub fn number(&self) -> u8
        ensures { result ≡ number_of self.now }
    {
        match self {
            Refusal::Stranger => 12,
            Refusal::UnknownInstrument => 1,
            Refusal::UnknownRecorder | Refusal::UnknownReader => 2,
            Refusal::DuplicateKey => 3,
            Refusal::UnknownKey => 4,
            Refusal::UnknownValue => 5,
            Refusal::MissingKey => 6,
            Refusal::Combination => 13,
            Refusal::ValueRange => 7,
            Refusal::Closed => 8,
            Refusal::Budget => 9,
            Refusal::NoSpare => 14,
            Refusal::SumRange => 10,
            Refusal::Memory => 11,
        }
    }

    /// The refusal's name in printed texts.
    pub fn name(&self) -> &'static str
        ensures { result.now ≡ name_of self.now }
    {
        match self {
            Refusal::Stranger => "Stranger",
            Refusal::UnknownInstrument => "UnknownInstrument",
            Refusal::UnknownRecorder => "UnknownRecorder",
            Refusal::UnknownReader => "UnknownReader",
            Refusal::DuplicateKey => "DuplicateKey",
            Refusal::UnknownKey => "UnknownKey",
            Refusal::UnknownValue => "UnknownValue",
            Refusal::MissingKey => "MissingKey",
            Refusal::Combination => "Combination",
            Refusal::ValueRange => "ValueRange",
            Refusal::Closed => "Closed",
            Refusal::Budget => "Budget",
            Refusal::NoSpare => "NoSpare",
            Refusal::SumRange => "SumRange",
            Refusal::Memory => "Memory",
        }
    }
}

impl fmt::Display for Refusal {
    ghost use Rattle.std.specs.Prelude.{Some};
    ghost use Rattle.metric_contents.specs.Refusals.{refusal_text};

    ghost output = { λ refusal. Some (refusal_text refusal) };

    fn fmt<W: fmt::Write>(&self, f: &mut fmt::Formatter<W>) -> fmt::Result {
        write!(f, "{} {}", self.number(), self.name())
    }
}

impl std::error::Error for Refusal {}
