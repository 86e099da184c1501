//! The file for Rattle.
use crate::language::{Language, Names, Readers};
use crate::naming::{Shape, Style};
use crate::quoting::Quotes;

/// Rattle.
pub static RATTLE: Language = Language {
    own: &[],
    types: Names {
        style: Style {
            shape: Shape::Camel,
            taken: &[&TYPES],
        },
        whole: &["$type$"],
    },
    values: Names {
        style: Style {
            shape: Shape::Camel,
            taken: &[&["ALL", "Self", "TheVariants"]],
        },
        whole: &["$type$::$value$"],
    },
    meters: Names {
        style: Style {
            shape: Shape::Camel,
            taken: &[&TYPES],
        },
        whole: &["$meter$"],
    },
    instruments: Names {
        style: FIELD,
        whole: &["On_$meter$__$on$"],
    },
    keys: Names {
        style: Style {
            shape: Shape::Snake,
            taken: &[&WORDS, &KEPT, &OWN],
        },
        whole: &["On_$meter$__$on$($key$)"],
    },
    seats: Names {
        style: FIELD,
        whole: &[],
    },
    readers: Readers {
        names: Names {
            style: FIELD,
            whole: &["Readers.$reader$"],
        },
        own: &[],
        types: TYPE_BESIDE_READERS,
        meters: TYPE_BESIDE_READERS,
    },
    has_lists: false,
    quotes: Quotes::Braces,
    code: &[HEAD, LONG, TYPE, TABLE, SPAN, INSTRUMENT, METERS, READERS],
};

const FIELD: Style = Style {
    shape: Shape::Snake,
    taken: &[&WORDS, &KEPT],
};

const TYPE_BESIDE_READERS: Style = Style {
    shape: Shape::Camel,
    taken: &[&TYPES, &["Readers"]],
};

// Types that the file or its language has, and names that Rattle keeps.
const TYPES: [&str; 16] = [
    "Drop",
    "Err",
    "HostRuntime",
    "Lib",
    "None",
    "Ok",
    "Option",
    "Prim",
    "Result",
    "Self",
    "Some",
    "String",
    "TheLaws",
    "TheLinks",
    "TheVariants",
    "Vec",
];

// Those of Rust, and those of contracts.
const WORDS: [&str; 40] = [
    "as", "async", "await", "break", "const", "continue", "crate", "dyn", "else", "ensures",
    "enum", "extern", "false", "fn", "for", "ghost", "if", "impl", "in", "let", "loop", "match",
    "mod", "move", "mut", "pub", "ref", "requires", "return", "self", "static", "struct", "super",
    "trait", "true", "type", "unsafe", "use", "where", "while",
];

// Words that are kept for later, or that proofs have.
const KEPT: [&str; 19] = [
    "abstract", "become", "box", "data", "deriving", "do", "final", "gen", "macro", "open",
    "override", "priv", "record", "ruleset", "try", "typeof", "unsized", "virtual", "yield",
];

// The parameters of a call, and what no parameter may be called.
const OWN: [&str; 5] = ["at", "own", "result", "set", "value"];

const HEAD: &str =
    r#"// Made by `wormweekly bind --for rattle`, not to be edited: `wormweekly bind --check` compares it.
//! What the service may record. The formatter is to leave it as it is.
#[rattlefmt::skip]
use metric_sdk::{
    At as At_, Attr as Attr_, Book as Book_, Expected as Expected_, Gate as Gate_, Kind as Kind_,
    NoHandle as NoHandle_, Plan as Plan_, Refusal as Refusal_, Seat as Seat_, ValueRef as ValueRef_,
    expected as expected_,
};
#[rattlefmt::skip]
use std::sync::Wait as Wait_;
"#;

// What a compiler refuses in one constant, where a key has many values, stands in tables.
const LONG: &str = r#"$?has_long$

#[rattlefmt::skip]
fn put_(keys: &mut [Attr_<'static>], from: usize, key: &'static str, values: &[ValueRef_<'static>]) -> usize {
    let mut at = from;
    for value in values {
        if let Some(slot) = keys.get_mut(at) {
            *slot = Attr_ { key, value: *value };
        }
        at = at.saturating_add(1);
    }
    at
}

#[rattlefmt::skip]
fn put_span_(keys: &mut [Attr_<'static>], from: usize, key: &'static str, least: i64, most: i64) -> usize {
    let mut at = from;
    for number in least..=most {
        if let Some(slot) = keys.get_mut(at) {
            *slot = Attr_ { key, value: ValueRef_::Whole(number) };
        }
        at = at.saturating_add(1);
    }
    at
}
$/$
"#;

const TYPE: &str = r#"$#type$
$?names$
$!many$

/// The values of the key `$said_key$`.
#[derive(Clone, Copy, Debug, PartialEq, Eq)]
#[rattlefmt::skip]
pub enum $type$ {
$#value$
    /// `$said_value$`
    $value$ = $rank$,
$/$
}

#[rattlefmt::skip]
impl $type$ {
    /// All of them, in the order of the catalogue.
    pub const ALL: [$type$; $count$] = [
$#value$
        $type$::$value$,
$/$
    ];

    fn rank(self) -> u16 {
        self as u16
    }
$?texts$

    /// The value of this text, where it is declared.
    pub fn of(text: &str) -> Option<$type$> {
        match text {
$#value$
            $text$ => Some($type$::$value$),
$/$
            _ => None,
        }
    }
$/$
}
$/$
$/$
$/$
"#;

const TABLE: &str = r#"$#type$
$?names$
$?many$

$#value$
$?piece$
$!first$
];

$/$
#[rattlefmt::skip]
static $TYPE$_$piece$: [ValueRef_<'static>; $size$] = [
$/$
    ValueRef_::$?text$Text($text$)$/$$?whole$Whole($whole$)$/$$?is_true$Flag(true)$/$$?is_false$Flag(false)$/$,
$/$
];

/// The values of the key `$said_key$`, of which there are $count$.
#[derive(Clone, Copy, Debug, PartialEq, Eq)]
#[rattlefmt::skip]
pub struct $type$(u16);

#[rattlefmt::skip]
impl $type$ {
$#value$
    /// `$said_value$`
    pub const $value$: $type$ = $type$($rank$);
$/$

    /// The value at a place, from 0, in the order of the catalogue.
    pub fn at(place: usize) -> Option<$type$> {
        match u16::try_from(place) {
            Ok(place) if place < $count$ => Some($type$(place + 1)),
            _ => None,
        }
    }

    fn rank(self) -> u16 {
        self.0
    }
$?texts$

    /// The value of this text, where it is declared.
    pub fn of(text: &str) -> Option<$type$> {
        let mut place = 0usize;
        for values in [$#value$$?piece$$!first$, $/$&$TYPE$_$piece$[..]$/$$/$] {
            for value in values {
                if matches!(value, ValueRef_::Text(own) if *own == text) {
                    return $type$::at(place);
                }
                place = place.saturating_add(1);
            }
        }
        None
    }
$/$
}
$/$
$/$
$/$
"#;

const SPAN: &str = r#"$#type$
$?least$

/// The values of the key `$said_key$`: $least$ to $most$.
#[derive(Clone, Copy, Debug, PartialEq, Eq)]
#[rattlefmt::skip]
pub struct $type$(u16);

#[rattlefmt::skip]
impl $type$ {
    /// The value of this number, from $least$ to $most$.
    pub fn of(value: i64) -> Option<$type$> {
        let place = value.checked_sub($least$)?;
        match u16::try_from(place) {
            Ok(place) if place < $count$ => Some($type$(place + 1)),
            _ => None,
        }
    }

    fn rank(self) -> u16 {
        self.0
    }
}
$/$
$/$
"#;

const INSTRUMENT: &str = r#"$#meter$
$#instrument$

/// `$said_meter$` `$said$`: $spoken$$?unit$ in `$unit$`$/$, $lo$ to $hi$.$?description$ $description$$/$$?allowed$ Not all values combine: the catalogue lists which do.$/$

#[derive(Clone, Copy)]
#[rattlefmt::skip]
pub struct On_$meter$__$on$ {
    on: metric_sdk::$Kind$,
}

#[rattlefmt::skip]
impl On_$meter$__$on$ {
    fn of(plan: &Plan_) -> Result<On_$meter$__$on$, NoHandle_> {
$?is_long$
        let mut keys = [Attr_ { key: "", value: ValueRef_::Whole(0) }; $total$];
        let at = 0;
$#key$
$#link$
$?many$
$?least$
        let at = put_span_(&mut keys, at, $quoted_key$, $least$, $most$);
$/$
$!least$
$#value$
$?piece$
        let at = put_(&mut keys, at, $quoted_key$, &$TYPE$_$piece$);
$/$
$/$
$/$
$/$
$!many$
        let at = put_(&mut keys, at, $quoted_key$, &[
$#value$
            ValueRef_::$?text$Text($text$)$/$$?whole$Whole($whole$)$/$$?is_true$Flag(true)$/$$?is_false$Flag(false)$/$,
$/$
        ]);
$/$
$/$
$/$
        let _ = at;
$/$
        let own = Expected_ {
            meter: $quoted_meter$,
            name: $quoted$,
            kind: Kind_::$Kind$,
            unit: $quoted_unit$,
$?is_long$
            keys: &keys,
$/$
$!is_long$
            keys: &[
$#key$
$#link$
$#value$
                Attr_ { key: $quoted_key$, value: ValueRef_::$?text$Text($text$)$/$$?whole$Whole($whole$)$/$$?is_true$Flag(true)$/$$?is_false$Flag(false)$/$ },
$/$
$/$
$/$
            ],
$/$
            optional: $bits$,
        };
        let on = expected_(plan, &own)?;
        Ok(On_$meter$__$on$ { on })
    }

    /// The handle of the instrument.
    pub fn on(&self) -> metric_sdk::$Kind$ {
        self.on
    }

    /// These attributes, bound to the instrument.
    pub fn bind(&self$#key$, $key$: $?may$Option<$/$$?yes$bool$/$$!yes$$of$$/$$?may$>$/$$/$) -> metric_sdk::Bound$Kind$ {
        self.on.bind_set([$#key$$!first$, $/$$?may$match $key$ { None => 0, Some(own) => $?yes$if own { $yes$ } else { $no$ }$/$$!yes$own.rank()$/$ }$/$$!may$$?yes$if $key$ { $yes$ } else { $no$ }$/$$!yes$$key$.rank()$/$$/$$/$$rest$])
    }

    /// $?adds$Adds$/$$!adds$Records$/$ a value. Where it is refused, nothing is counted.
    pub fn $?adds$add$/$$!adds$record$/$<R_: Wait_, S_: Seat_, B_: Book_, G_: Gate_>(
        &self,
        at: &mut At_<'_, R_, S_, B_, G_>,
$#key$
        $key$: $?may$Option<$/$$?yes$bool$/$$!yes$$of$$/$$?may$>$/$,
$/$
        value: i64,
    ) -> Result<(), Refusal_> {
        at.$?adds$add$/$$!adds$record$/$_bound(&self.bind($#key$$!first$, $/$$key$$/$), value)
    }
}
$/$
$/$
"#;

const METERS: &str = r#"$#meter$

/// The instruments of the meter `$said_meter$`.
#[derive(Clone, Copy)]
#[rattlefmt::skip]
pub struct $meter$ {
$#instrument$
    /// `$said$`
    pub $on$: On_$meter$__$on$,
$/$
}

#[rattlefmt::skip]
impl $meter$ {
    /// The instruments of a plan, each compared with what this file was made of.
    pub fn of(plan: &Plan_) -> Result<$meter$, NoHandle_> {
        Ok($meter$ {
$#instrument$
            $on$: On_$meter$__$on$::of(plan)?,
$/$
        })
    }
}
$/$
"#;

const READERS: &str = r#"$?readers$

#[rattlefmt::skip]
use metric_sdk::{Collector as Collector_, take_reader as take_reader_};

/// The readers.
#[derive(Drop)]
#[rattlefmt::skip]
pub struct Readers {
$#reader$
    /// `$said_reader$`
    pub $reader$: Collector_,
$/$
}

#[rattlefmt::skip]
impl Readers {
    /// The readers of a plan, each taken out of a list; none where one of them is not there.
    pub fn of(plan: &Plan_, seats: &mut Vec<Collector_>) -> Option<Readers> {
        Some(Readers {
$#reader$
            $reader$: take_reader_(plan, seats, $quoted_reader$)?,
$/$
        })
    }
}
$/$
"#;
