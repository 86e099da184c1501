//! The file for Rust.
use crate::language::{Language, Names, Readers};
use crate::naming::{Shape, Style};
use crate::quoting::Quotes;

/// Rust.
pub static RUST: Language = Language {
    own: &[],
    types: Names {
        style: Style {
            shape: Shape::Camel,
            taken: &[&TYPES],
        },
        whole: &["$type$"],
    },
    values: Names {
        style: Style {
            shape: Shape::Camel,
            taken: &[&["ALL", "Self"]],
        },
        whole: &["$type$::$value$"],
    },
    meters: Names {
        style: FIELD,
        whole: &["Meter_$meter$"],
    },
    instruments: Names {
        style: FIELD,
        whole: &["On_$meter$__$on$"],
    },
    keys: Names {
        style: Style {
            shape: Shape::Snake,
            taken: &[&WORDS, &KEPT, &OWN],
        },
        whole: &["On_$meter$__$on$($key$)"],
    },
    seats: Names {
        style: FIELD,
        whole: &["Recorders.$seat$"],
    },
    readers: Readers {
        names: Names {
            style: FIELD,
            whole: &["Readers.$reader$"],
        },
        own: &[],
        types: Style {
            shape: Shape::Camel,
            taken: &[&TYPES, &["Readers"]],
        },
        meters: FIELD,
    },
    has_lists: true,
    quotes: Quotes::Braces,
    code: &[
        HEAD, TYPE, SPAN, INSTRUMENT, METERS, OPENED, FAULT, OPEN, EXPECTED, READERS, BOUND, SHARED,
    ],
};

const FIELD: Style = Style {
    shape: Shape::Snake,
    taken: &[&WORDS, &KEPT],
};

const TYPES: [&str; 15] = [
    "BindFault",
    "Err",
    "From",
    "Metrics",
    "None",
    "Ok",
    "Opened",
    "Option",
    "Recorders",
    "Result",
    "Self",
    "Shared",
    "Some",
    "String",
    "Vec",
];

const WORDS: [&str; 37] = [
    "as", "async", "await", "break", "const", "continue", "crate", "dyn", "else", "enum", "extern",
    "false", "fn", "for", "if", "impl", "in", "let", "loop", "match", "mod", "move", "mut", "pub",
    "ref", "return", "self", "static", "struct", "super", "trait", "true", "type", "unsafe", "use",
    "where", "while",
];

// Words that are kept for later.
const KEPT: [&str; 15] = [
    "abstract", "become", "box", "do", "final", "gen", "macro", "override", "priv", "try",
    "typeof", "union", "unsized", "virtual", "yield",
];

// The parameters of a call.
const OWN: [&str; 4] = ["own", "seat", "set", "value"];

const HEAD: &str =
    r#"// Made by `wormweekly bind --for rust`, not to be edited: `wormweekly bind --check` compares it.
//! What the service may record.
#![allow(dead_code, non_camel_case_types, non_snake_case, unused_mut, unused_variables, clippy::all)]
use wormweekly::{
    Bound as Bound_, ExpectedKey as ExpectedKey_, Instrument as Instrument_, Kind as Kind_, MeaningFault as MeaningFault_,
    OpenFault as OpenFault_, Opened as Opened_, Reader as Reader_, Recorder as Recorder_, Refusal as Refusal_,
    Shared as Shared_, SharedInstrument as SharedInstrument_, Value as Value_,
};
"#;

const TYPE: &str = r#"$#type$
$?names$

/// The values of the key `$said_key$`.
#[derive(Clone, Copy, Debug, PartialEq, Eq, Hash)]
#[repr(u16)]
pub enum $type$ {
$#value$
    /// `$said_value$`
    $value$ = $rank$,
$/$
}

impl $type$ {
    /// All of them, in the order of the catalogue.
    pub const ALL: [$type$; $count$] = [
$#value$
        $type$::$value$,
$/$
    ];

    const fn rank(self) -> u16 {
        self as u16
    }
$?texts$

    /// The value of this text, where it is declared.
    pub fn of(text: &str) -> Option<Self> {
        match text {
$#value$
            $text$ => Some($type$::$value$),
$/$
            _ => None,
        }
    }
$/$
}
$/$
$/$
"#;

const SPAN: &str = r#"$#type$
$?least$

/// The values of the key `$said_key$`: $least$ to $most$.
#[derive(Clone, Copy, Debug, PartialEq, Eq, Hash)]
pub struct $type$(u16);

impl $type$ {
    /// The value of this number, from $least$ to $most$.
    pub const fn of(value: i64) -> Option<Self> {
        if value >= $least$ && value <= $most$ {
            Some($type$((value.wrapping_sub($least$) + 1) as u16))
        } else {
            None
        }
    }

    const fn rank(self) -> u16 {
        self.0
    }
}
$/$
$/$
"#;

const INSTRUMENT: &str = r#"$#meter$
$#instrument$

/// `$said_meter$` `$said$`: $spoken$$?unit$ in `$unit$`$/$, $lo$ to $hi$.$?description$ $description$$/$$?allowed$ Not all values combine: the catalogue lists which do.$/$

#[derive(Clone)]
pub struct On_$meter$__$on$<I = Instrument_> {
    on: I,
}

impl<I> On_$meter$__$on$<I> {
    /// The instrument itself.
    pub fn on(&self) -> &I {
        &self.on
    }

    fn set_($#key$$!first$, $/$$key$: $?may$Option<$/$$?yes$bool$/$$!yes$$of$$/$$?may$>$/$$/$) -> [u16; 8] {
        [$#key$$!first$, $/$$?may$$key$.map_or(0, |own| $?yes$flag_(own, $yes$, $no$)$/$$!yes$own.rank()$/$)$/$$!may$$?yes$flag_($key$, $yes$, $no$)$/$$!yes$$key$.rank()$/$$/$$/$$rest$]
    }
}

impl On_$meter$__$on$ {
    /// $?adds$Adds$/$$!adds$Records$/$ a value. Where it is refused, nothing is counted.
    #[inline]
    pub fn $?adds$add$/$$!adds$record$/$(
        &self,
        seat: &mut Recorder_,
$#key$
        $key$: $?may$Option<$/$$?yes$bool$/$$!yes$$of$$/$$?may$>$/$,
$/$
        value: i64,
    ) -> Result<(), Refusal_> {
        seat.record_set(&self.on, Self::set_($#key$$!first$, $/$$key$$/$), value)
    }
}

impl On_$meter$__$on$<SharedInstrument_> {
    /// $?adds$Adds$/$$!adds$Records$/$ a value by any recorder. What is refused is counted, and told once.
    #[inline]
    pub fn $?adds$add$/$$!adds$record$/$(
        &self,
$#key$
        $key$: $?may$Option<$/$$?yes$bool$/$$!yes$$of$$/$$?may$>$/$,
$/$
        value: i64,
    ) {
        self.on.add_set(Self::set_($#key$$!first$, $/$$key$$/$), value);
    }

    /// These attributes, for recordings and durations by any recorder.
    pub fn bind(&self$#key$, $key$: $?may$Option<$/$$?yes$bool$/$$!yes$$of$$/$$?may$>$/$$/$) -> Bound_ {
        self.on.bind_set(Self::set_($#key$$!first$, $/$$key$$/$))
    }
}
$/$
$/$
"#;

const METERS: &str = r#"
$#meter$
/// The instruments of the meter `$said_meter$`.
#[derive(Clone)]
pub struct Meter_$meter$<I = Instrument_> {
$#instrument$
    /// `$said$`
    pub $on$: On_$meter$__$on$<I>,
$/$
}

$/$
/// All instruments, each under its meter.
#[derive(Clone)]
pub struct Metrics$?has_instruments$<I = Instrument_>$/$ {
$#meter$
    /// `$said_meter$`
    pub $meter$: Meter_$meter$<I>,
$/$
}

/// The recorders.
pub struct Recorders {
$#seat$
$?list$
    /// `$seat$`, by its numbers
    pub $seat$: Vec<Recorder_>,
$/$
$!list$
    /// `$seat$`
    pub $seat$: Recorder_,
$/$
$/$
}
"#;

const OPENED: &str = r#"$?readers$

/// The readers.
pub struct Readers {
$#reader$
    /// `$said_reader$`
    pub $reader$: Reader_,
$/$
}
$/$

/// What is opened.
pub struct Opened {
    pub metrics: Metrics,
    pub recorders: Recorders,
    pub readers: $?readers$Readers$/$$!readers$Vec<Reader_>$/$,
    pub warnings: String,
    /// The host's own calls.
    pub own: wormweekly::Metrics,
}

/// What is opened, and shared by threads: any of them records by any recorder.
pub struct Shared {
    pub metrics: Metrics$?has_instruments$<SharedInstrument_>$/$,
    pub readers: $?readers$Readers$/$$!readers$Vec<Reader_>$/$,
    pub warnings: String,
    /// The host's own calls.
    pub own: Shared_,
}
"#;

const FAULT: &str = r#"
/// Why a run is not opened, or is not of what this file was made of.
#[derive(Debug)]
pub enum BindFault {
    Open(OpenFault_),
    /// An instrument means something else: run `wormweekly bind` again.
    Other(MeaningFault_),
    /// There is no recorder of this name: run `wormweekly bind` again.
    Seat(&'static str),
$?readers$
    /// There is no reader of this name: run `wormweekly bind` again.
    Reader(&'static str),
$/$
}

impl std::fmt::Display for BindFault {
    fn fmt(&self, f: &mut std::fmt::Formatter<'_>) -> std::fmt::Result {
        match self {
            BindFault::Open(own) => write!(f, "{own}"),
            BindFault::Other(own) => write!(f, "{own}: run `wormweekly bind` again"),
            BindFault::Seat(name) => write!(f, "there is no recorder {name}: run `wormweekly bind` again"),
$?readers$
            BindFault::Reader(name) => write!(f, "there is no reader {name}: run `wormweekly bind` again"),
$/$
        }
    }
}

impl std::error::Error for BindFault {}
"#;

const OPEN: &str = r#"
/// Opens a run, and compares it with what this file was made of.
pub fn open(catalogue: &str, config: &str, start: u64) -> Result<Opened, BindFault> {
    bound(wormweekly::open(catalogue, config, start).map_err(BindFault::Open)?)
}

fn flag_(flag: bool, yes: u16, no: u16) -> u16 {
    if flag { yes } else { no }
}

fn taken_(seats: &mut Vec<Recorder_>, name: &'static str) -> Result<Recorder_, BindFault> {
    let at = seats.iter().position(|own| own.name() == name).ok_or(BindFault::Seat(name))?;
    Ok(seats.remove(at))
}
"#;

const EXPECTED: &str = r#"
fn metrics_(own: &wormweekly::Metrics, seats: &mut [Recorder_]) -> Result<Metrics, BindFault> {
    let seat = seats.first_mut().ok_or(BindFault::Seat("of any name"))?;
    Ok(Metrics {
$#meter$
        $meter$: Meter_$meter$ {
$#instrument$
            $on$: On_$meter$__$on$ {
                on: own.expect(seat, $quoted_meter$, $quoted$, Kind_::$Kind$, $quoted_unit$, &[
$#key$
                    ExpectedKey_ {
                        name: $quoted_key$,
                        values: &[
$#link$
$#value$
                            Value_::$?text$Text($text$)$/$$?whole$Whole($whole$)$/$$?is_true$Flag(true)$/$$?is_false$Flag(false)$/$,
$/$
$/$
                        ],
                        optional: $?may$true$/$$!may$false$/$,
                    },
$/$
                ]).map_err(BindFault::Other)?.clone(),
            },
$/$
        },
$/$
    })
}
"#;

const READERS: &str = r#"$?readers$

fn reader_(readers: &mut Vec<Reader_>, name: &'static str) -> Result<Reader_, BindFault> {
    let at = readers.iter().position(|own| own.name() == name).ok_or(BindFault::Reader(name))?;
    Ok(readers.remove(at))
}

fn readers_(mut readers: Vec<Reader_>) -> Result<Readers, BindFault> {
    Ok(Readers {
$#reader$
        $reader$: reader_(&mut readers, $quoted_reader$)?,
$/$
    })
}
$/$
"#;

const BOUND: &str = r#"
/// Compares a run that is opened with what this file was made of.
pub fn bound(opened: Opened_) -> Result<Opened, BindFault> {
    let Opened_ { metrics: own, mut recorders, readers, warnings } = opened;
    let metrics = metrics_(&own, &mut recorders)?;
    let recorders = Recorders {
$#seat$
$?list$
        $seat$: vec![
$#one$
            taken_(&mut recorders, $quoted_seat$)?,
$/$
        ],
$/$
$!list$
$#one$
        $seat$: taken_(&mut recorders, $quoted_seat$)?,
$/$
$/$
$/$
    };
$?readers$
    let readers = readers_(readers)?;
$/$
    Ok(Opened { metrics, recorders, readers, warnings, own })
}
"#;

const SHARED: &str = r#"
/// Compares a run that is opened with what this file was made of, and gives its recorders to the instruments.
pub fn shared(mut opened: Opened_) -> Result<Shared, BindFault> {
    let own = metrics_(&opened.metrics, &mut opened.recorders)?;
    let warnings = std::mem::take(&mut opened.warnings);
    let (all, readers) = opened.share();
    let each = all.instruments();
    let metrics = Metrics {
$#meter$
        $meter$: Meter_$meter$ {
$#instrument$
            $on$: On_$meter$__$on$ { on: each[own.$meter$.$on$.on.number() as usize].clone() },
$/$
        },
$/$
    };
$?readers$
    let readers = readers_(readers)?;
$/$
    Ok(Shared { metrics, readers, warnings, own: all })
}
"#;
