//! The file for C.
use crate::language::{Language, Names, Readers};
use crate::naming::{Shape, Style};
use crate::quoting::Quotes;

/// C.
pub static C: Language = Language {
    own: &[
        "BOUND_H",
        "BOUND_INSTRUMENTS",
        "BOUND_RECORDERS",
        "bound_check",
        "bound_instrument",
        "bound_recorder",
    ],
    types: Names {
        style: Style {
            shape: Shape::Snake,
            taken: &[],
        },
        whole: &["bound_$type$", "bound_$type$_of"],
    },
    values: Names {
        style: Style {
            shape: Shape::Upper,
            taken: &[],
        },
        whole: &["BOUND_$TYPE$_$value$"],
    },
    meters: Names {
        style: Style {
            shape: Shape::Snake,
            taken: &[],
        },
        whole: &[],
    },
    instruments: Names {
        style: Style {
            shape: Shape::Snake,
            taken: &[],
        },
        whole: &[
            "bound_$meter$_$on$",
            "bound_$meter$_$on$_$?adds$add$/$$!adds$record$/$",
        ],
    },
    keys: Names {
        style: Style {
            shape: Shape::Snake,
            taken: &[&WORDS, &MORE, &OWN],
        },
        whole: &["bound_$meter$_$on$($key$)"],
    },
    seats: Names {
        style: Style {
            shape: Shape::Upper,
            taken: &[],
        },
        whole: &["BOUND_RECORDER_$seat$"],
    },
    readers: Readers {
        names: Names {
            style: Style {
                shape: Shape::Upper,
                taken: &[],
            },
            whole: &["BOUND_READER_$reader$"],
        },
        own: &["BOUND_READERS", "bound_reader"],
        types: Style {
            shape: Shape::Snake,
            taken: &[&["reader"]],
        },
        meters: Style {
            shape: Shape::Snake,
            taken: &[],
        },
    },
    has_lists: false,
    quotes: Quotes::Octal,
    code: &[HEAD, TYPE, INSTRUMENT, CHECK],
};

const WORDS: [&str; 43] = [
    "alignas",
    "alignof",
    "auto",
    "bool",
    "break",
    "case",
    "char",
    "const",
    "constexpr",
    "continue",
    "default",
    "do",
    "double",
    "else",
    "enum",
    "extern",
    "false",
    "float",
    "for",
    "goto",
    "if",
    "inline",
    "int",
    "long",
    "nullptr",
    "register",
    "restrict",
    "return",
    "short",
    "signed",
    "sizeof",
    "static",
    "struct",
    "switch",
    "thread_local",
    "true",
    "typedef",
    "typeof",
    "union",
    "unsigned",
    "void",
    "volatile",
    "while",
];

// Those of C++.
const MORE: [&str; 42] = [
    "and",
    "asm",
    "bitand",
    "bitor",
    "catch",
    "class",
    "co_await",
    "co_return",
    "co_yield",
    "compl",
    "concept",
    "const_cast",
    "decltype",
    "delete",
    "dynamic_cast",
    "explicit",
    "export",
    "friend",
    "mutable",
    "namespace",
    "new",
    "noexcept",
    "not",
    "operator",
    "or",
    "private",
    "protected",
    "public",
    "reinterpret_cast",
    "requires",
    "static_assert",
    "static_cast",
    "template",
    "this",
    "throw",
    "try",
    "typeid",
    "typename",
    "using",
    "virtual",
    "wchar_t",
    "xor",
];

// What a call has.
const OWN: [&str; 4] = ["all", "prepared", "seat", "value"];

const HEAD: &str =
    r#"/* Made by `wormweekly bind --for c`, not to be edited: `wormweekly bind --check` compares it. */
#ifndef BOUND_H
#define BOUND_H

#include "wormweekly.h"

#include <string.h>

#ifdef __cplusplus
extern "C" {
#endif

enum { BOUND_INSTRUMENTS = $instruments$, BOUND_RECORDERS = $recorders$$?readers$, BOUND_READERS = $readers$$/$ };
$?has_seats$

/* The recorders by their places in the list that wormweekly_open fills. */
enum bound_recorder {
$#seat$
$#one$
    BOUND_RECORDER_$seat$ = $place$,
$/$
$/$
};
$/$
$?has_readers$

/* The readers by their places in the list that wormweekly_open fills. */
enum bound_reader {
$#reader$
    BOUND_READER_$reader$ = $place$,
$/$
};
$/$
"#;

const TYPE: &str = r#"$#type$

/* A value of the key $said_key$. All zero is none. */
typedef struct {
    uint16_t rank;
} bound_$type$;
$?least$

/* The value of this number, $least$ to $most$, else none. */
static inline bound_$type$ bound_$type$_of(int64_t value) {
    bound_$type$ own = { 0 };
    if (value >= $least_c$ && value <= $most_c$) own.rank = (uint16_t)(value - $least_c$ + 1);
    return own;
}
$/$
$!least$
$#value$
/* $said_value$ */
static const bound_$type$ BOUND_$TYPE$_$value$ = { $rank$ };
$/$
$?texts$

/* The value of this text, else none. */
static inline bound_$type$ bound_$type$_of(const char *text, size_t length) {
    bound_$type$ own = { 0 };
$#value$
    if (length == $bytes$ && memcmp(text, $text$, $bytes$) == 0) own.rank = $rank$;
$/$
    return own;
}
$/$
$/$
$/$
"#;

const INSTRUMENT: &str = r#"
/* The instruments by their places, for the mutexes that the host keeps. */
enum bound_instrument {
$#meter$
$#instrument$
    bound_$meter$_$on$ = $number$,
$/$
$/$
    bound_instruments_ = BOUND_INSTRUMENTS
};
$#meter$
$#instrument$

/* $said_meter$ $said$: $spoken$$?unit$ in $unit$$/$, $lo$ to $hi$.$?description$ $description$$/$$?allowed$ Not all values combine: the catalogue lists which do.$/$$#key$$?may$ $key$ may be none.$/$$/$ Under the mutex of
 * the instrument. */
static inline uint32_t bound_$meter$_$on$_$?adds$add$/$$!adds$record$/$(wormweekly_instrument *all, wormweekly_recorder *seat$#key$, bound_$of$ $key$$/$, int64_t value) {
    const wormweekly_prepared prepared = { { $#key$$!first$, $/$$key$.rank$/$$rest$ }, value };
    return wormweekly_record_prepared(&all[$number$], seat, &prepared);
}
$/$
$/$
"#;

const CHECK: &str = r#"
/* The texts below may be longer than each compiler has to take. */
#ifdef __GNUC__
#pragma GCC diagnostic push
#pragma GCC diagnostic ignored "-Woverlength-strings"
#endif

/* Whether a run is of a catalogue that means what this file was made of: WORMWEEKLY_DONE, else WORMWEEKLY_FAULT with a
 * line in `fault` as far as there is room, and its whole length. Call it once, after wormweekly_open. */
static inline uint32_t bound_check(wormweekly_recorder *seat, uint8_t *fault, size_t room, size_t *length) {
    uint32_t answer = WORMWEEKLY_DONE;
    (void)seat, (void)fault, (void)room, (void)length;
$#meter$
$#instrument$
    if (answer == WORMWEEKLY_DONE) {
        static const char texts[] = $quoted_meter$ $quoted$ $quoted_unit$
$#key$
$#link$
$#value$
            $quoted_key$$?text$ $text$$/$

$/$
$/$
$/$
            "";
        static const wormweekly_attribute declared[] = {
            { 0, WORMWEEKLY_TEXT, $meter_bytes$, 0 },
            { 0, WORMWEEKLY_TEXT, $on_bytes$, 0 },
            { 0, WORMWEEKLY_TEXT, $unit_bytes$, 0 },
$#key$
$#link$
$#value$
            { $key_bytes$, $?text$WORMWEEKLY_TEXT, $bytes$, 0$/$$?whole$WORMWEEKLY_WHOLE, 0, $whole_c$$/$$?is_true$WORMWEEKLY_YES, 0, 0$/$$?is_false$WORMWEEKLY_NO, 0, 0$/$ },
$/$
$/$
$/$
        };
        answer = wormweekly_expect(seat, $number$, $kind_number$, (const uint8_t *)texts, sizeof texts - 1, declared,
                                   sizeof declared / sizeof *declared, $bits$, fault, room, length);
    }
$/$
$/$
    return answer;
}

#ifdef __GNUC__
#pragma GCC diagnostic pop
#endif

#ifdef __cplusplus
}
#endif
#endif
"#;
