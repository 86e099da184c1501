//! The file for Python.
use crate::language::{Language, Names, Readers};
use crate::naming::{Shape, Style};
use crate::quoting::Quotes;

/// Python.
pub static PYTHON: Language = Language {
    own: &[],
    types: Names {
        style: Style {
            shape: Shape::Camel,
            taken: &[&TYPES],
        },
        whole: &["$type$", "_$type$", "$type$_of"],
    },
    values: Names {
        style: Style {
            shape: Shape::Snake,
            taken: &[],
        },
        whole: &[],
    },
    meters: Names {
        style: FIELD,
        whole: &["_Meter_$meter$"],
    },
    instruments: Names {
        style: Style {
            shape: Shape::Snake,
            taken: &[&WORDS],
        },
        whole: &["_On_$meter$__$on$"],
    },
    keys: Names {
        style: Style {
            shape: Shape::Snake,
            taken: &[&WORDS, &OWN],
        },
        whole: &["_On_$meter$__$on$($key$)"],
    },
    seats: Names {
        style: Style {
            shape: Shape::Snake,
            taken: &[&WORDS],
        },
        whole: &["Recorders.$seat$"],
    },
    readers: Readers {
        names: Names {
            style: Style {
                shape: Shape::Snake,
                taken: &[&WORDS, &["own"]],
            },
            whole: &["Readers.$reader$"],
        },
        own: &[],
        types: Style {
            shape: Shape::Camel,
            taken: &[&TYPES, &["Readers"]],
        },
        meters: FIELD,
    },
    has_lists: true,
    quotes: Quotes::Eight,
    code: &[HEAD, INSTRUMENT, METERS, METRICS],
};

// A meter, as a field.
const FIELD: Style = Style {
    shape: Shape::Snake,
    taken: &[&WORDS, &FIELDS],
};

const TYPES: [&str; 15] = [
    "ArithmeticError",
    "BaseException",
    "Ellipsis",
    "Exception",
    "False",
    "Literal",
    "LookupError",
    "Metrics",
    "None",
    "NotImplemented",
    "OSError",
    "Recorders",
    "True",
    "TypeError",
    "ValueError",
];

// What stands beside the meters.
const FIELDS: [&str; 4] = ["open", "own", "readers", "recorders"];

const WORDS: [&str; 38] = [
    "False", "None", "True", "and", "as", "assert", "async", "await", "break", "case", "class",
    "continue", "def", "del", "elif", "else", "except", "finally", "for", "from", "global", "if",
    "import", "in", "is", "lambda", "match", "nonlocal", "not", "or", "pass", "raise", "return",
    "try", "type", "while", "with", "yield",
];

// What a call or the language knows by another meaning.
const OWN: [&str; 13] = [
    "at", "bool", "dict", "int", "list", "object", "own", "said", "seat", "self", "str", "tuple",
    "value",
];

const HEAD: &str =
    r#"# Made by `wormweekly bind --for python`, not to be edited: `wormweekly bind --check` compares it.
"""What the service may record."""

from __future__ import annotations

from typing import Literal

import wormweekly as _w
$#type$

# The values of the key $said_key$.
$type$ = $?yes$bool$/$$!yes$Literal[
$#value$
    $text$$whole$$?is_true$True$/$$?is_false$False$/$,
$/$
]$/$

$?texts$
_$type$: dict[str, $type$] = {
$#value$
    $text$: $text$,
$/$
}


def $type$_of(text: str) -> $type$ | None:
    """The value of this text, where it is declared."""
    return _$type$.get(text)

$/$
$/$
"#;

const INSTRUMENT: &str = r#"$#meter$
$#instrument$


class _On_$meter$__$on$:
    # $said_meter$ $said$: $spoken$$?unit$ in $unit$$/$, $lo$ to $hi$.$?description$ $description$$/$$?allowed$ Not all values combine: the catalogue lists which do.$/$

    __slots__ = ("_bound", "on")

    def __init__(self, on: _w.Instrument) -> None:
        self.on = on
        self._bound: dict[object, _w.Bound] = {}

    def bind(self$?has_keys$, *$/$$#key$, $key$: $of$$?may$ | None = None$/$$/$) -> _w.Bound:
        """These attributes, for recordings by any recorder, or by one of your own; or raises a `Refusal`."""
        at = ($#key$$key$, $!texts$$key$.__class__, $/$$/$)
        if at in self._bound:
            return self._bound[at]
        said: dict[str, _w.Value] = {}
$#key$
$?may$
        if $key$ is not None:
            said[$quoted_key$] = $key$
$/$
$!may$
        said[$quoted_key$] = $key$
$/$
$/$
        return self._bound.setdefault(at, self.on.bind(said))

    def $?adds$add$/$$!adds$record$/$(self, seat: _w.Recorder, value: int$?has_keys$, *$/$$#key$, $key$: $of$$?may$ | None = None$/$$/$) -> None:
        """$?adds$Adds$/$$!adds$Records$/$ a value, or raises a `Refusal`: nothing is counted then."""
        own = self._bound.get(($#key$$key$, $!texts$$key$.__class__, $/$$/$))
        seat.add(self.bind($#key$$!first$, $/$$key$=$key$$/$) if own is None else own, value)
$/$
$/$
"#;

const METERS: &str = r#"$#meter$


class _Meter_$meter$:
    def __init__(self, own: _w.Metrics) -> None:
$#instrument$
        self.$on$ = _On_$meter$__$on$(
            own.expect($quoted_meter$, $quoted$, _w.Kind.$KIND$, $quoted_unit$, [
$#key$
                _w.ExpectedKey(
                    $quoted_key$,
                    (
$#link$
$#value$
                        $text$$whole$$?is_true$True$/$$?is_false$False$/$,
$/$
$/$
                    ),
                    $?may$True$/$$!may$False$/$,
                ),
$/$
            ])
        )
$/$
$/$
"#;

const METRICS: &str = r#"

class Metrics:
    """All instruments, each under its meter, and the recorders."""

    def __init__(self, own: _w.Metrics) -> None:
        """Compares a run that is opened with what this file was made of."""
        self.own = own
        self.readers = $?readers$Readers(own)$/$$!readers$own.readers$/$

        self.recorders = Recorders(own)
$#meter$
        self.$meter$ = _Meter_$meter$(own)
$/$

    @classmethod
    def open(cls, catalogue: str, config: str, *, certificate: str | None = None, start: int | None = None) -> Metrics:
        """Opens a run, and compares it with what this file was made of."""
        return cls(_w.Metrics.open(catalogue, config, certificate=certificate, start=start))


class Recorders:
    """The recorders by their names; those that are numbered from 0 are a list."""

    def __init__(self, own: _w.Metrics) -> None:
        self.own = own.recorders
$#seat$
        self.$seat$ = $?list$[$/$$#one$own.recorder($quoted_seat$)$?list$, $/$$/$$?list$]$/$

$/$
$?readers$


class Readers:
    """The readers by their names."""

    def __init__(self, own: _w.Metrics) -> None:
        self.own = own.readers
$#reader$
        self.$reader$ = own.reader($quoted_reader$)
$/$
$/$
"#;
