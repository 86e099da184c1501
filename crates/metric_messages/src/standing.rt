//! What stands at a place of a text.
ghost use Rattle.std.specs.Prelude.{◌≡◌, ◌≤◌, ◌+◌, length, map, true, IfSome, ◌<◌};
ghost use Rattle.std.specs.List.{list_any, position_from};
ghost use Rattle.std.specs.Str.{bytes_eq};
ghost use Rattle.metric_messages.specs.Standing.{commas, counted, end_of, ends_name, has_odd, has_word, headers, is_among, is_bare, is_header, is_listed, is_named, is_nth, is_odd, is_other, is_plain, is_quote, is_space, is_table, last_of, opens};

use metric_lint::begins;

// Whether a name, which is not empty, stands first.
pub(crate) fn has_word(word: &str, rest: &[u8]) -> bool
    ensures { result ≡ has_word word.now rest.now }
{
    0 < word.len() && rest.starts_with(word.as_bytes())
}

fn is_quote(byte: u8) -> bool
    ensures { result ≡ is_quote byte }
{
    byte == b'"' || byte == b'\''
}

fn is_space(byte: u8) -> bool
    ensures { result ≡ is_space byte }
{
    byte == b' ' || byte == b'\t' || byte == b'\r'
}

fn opens(byte: u8) -> bool
    ensures { result ≡ opens byte }
{
    byte == b'\n' || byte == b'['
}

fn is_odd(before: u8, last: u8, byte: u8) -> bool
    ensures { result ≡ is_odd before last byte }
{
    ((opens(last) || last == b',') && byte == b'{')
        || (is_quote(byte)
            && (last == b'\n'
                || (opens(before) && last == b'[')
                || (before == byte && last == byte)))
}

// Whether each line of a text that looks like a header is one, and no meter has groups by headers.
pub(crate) fn is_plain(text: &[u8]) -> bool
    ensures { result ≡ is_plain text.now }
{
    !has_odd(text) && headers("", "[[meter.group]]", text) == 0
}

fn has_odd(text: &[u8]) -> bool
    ensures { result ≡ has_odd 10 10 text.now }
{
    let mut before = b'\n';
    let mut last = b'\n';
    for byte in text {
        if is_space(*byte) {
            continue;
        }
        if is_odd(before, last, *byte) {
            return true;
        }
        before = last;
        last = *byte;
    }
    false
}

fn counted(outer: &str, header: &str, count: usize, line: &[u8]) -> usize
    requires { count ≤ 18446744073709551614 }
    ensures exact { result ≡ counted outer.now header.now count line.now }
    ensures bound { result ≤ count + 1 }
{
    if 0 < outer.len() && begins(outer.as_bytes(), line) {
        0
    } else if begins(header.as_bytes(), line) {
        count + 1
    } else {
        count
    }
}

// How many lines begin with a header, since the last that begins with the outer one, if there is one.
pub(crate) fn headers(outer: &str, header: &str, bytes: &[u8]) -> usize
    ensures { result ≡ headers outer.now header.now 0 true bytes.now }
{
    let mut count = 0;
    let mut fresh = true;
    for (place, byte) in bytes.iter().enumerate() {
        if fresh {
            count = counted(outer, header, count, bytes.split_at(place).1);
        }
        fresh = *byte == b'\n';
    }
    count
}

// Whether a header stands first.
pub(crate) fn is_header(header: &str, rest: &[u8]) -> bool
    ensures { result ≡ is_header header.now rest.now }
{
    has_word("[", rest) && begins(header.as_bytes(), rest)
}

// Whether a place is in the table of a header and a number, or where that begins.
pub(crate) fn is_nth(outer: &str, header: &str, number: usize, before: &[u8], rest: &[u8]) -> bool
    ensures { result ≡ is_nth outer.now header.now number before.now rest.now }
{
    let count = headers(outer, header, before);
    if is_header(header, rest) {
        count == number
    } else {
        number < count && count - number == 1
    }
}

pub(crate) fn is_table(header: &str, plain: bool, rest: &[u8]) -> bool
    ensures { result ≡ is_table header.now plain rest.now }
{
    is_header(header, rest) || (!plain && has_word("{", rest))
}

fn commas(bytes: &[u8]) -> usize
    ensures { result ≡ commas bytes.now }
{
    let mut count = 0;
    for byte in bytes {
        if *byte == b',' {
            count += 1;
        }
    }
    count
}

pub(crate) fn is_listed(name: &str, number: usize, before: &[u8]) -> bool
    ensures { result ≡ is_listed name.now number before.now }
{
    for (place, _byte) in before.iter().enumerate() {
        let (_, left) = before.split_at(place);
        if has_word(name, left) {
            return number <= commas(left);
        }
    }
    false
}

fn last_of(before: &[u8]) -> u8
    ensures { result ≡ last_of before.now }
{
    before.last().copied().unwrap_or(b'\n')
}

fn is_bare(byte: u8) -> bool
    ensures { result ≡ is_bare byte }
{
    byte.is_ascii_alphanumeric() || byte == b'-' || byte == b'_'
}

fn ends_name(last: u8, byte: u8) -> bool
    ensures { result ≡ ends_name last byte }
{
    if is_quote(last) {
        byte == last
    } else {
        !is_bare(byte)
    }
}

fn is_among(names: &[&str], name: &[u8]) -> bool
    ensures { result ≡ is_among (map (λ known. known.now) names.now) name.now }
{
    has_same(names, name)
}

fn has_same(names: &[&str], name: &[u8]) -> bool
    ensures { result ≡ list_any (λ known. bytes_eq known.now name.now) names.now }
{
    names.iter().any(|known| is_same(known, name))
}

fn is_same(known: &str, name: &[u8]) -> bool
    ensures { result ≡ bytes_eq known.now name.now }
{
    known.as_bytes() == name
}

fn is_named(bytes: &[u8]) -> bool
    ensures { result ≡ is_named bytes.now }
{
    begins(b"=", bytes) || begins(b".", bytes) || begins(b"]", bytes)
}

// Where the name ends that stands first.
fn end_of(last: u8, rest: &[u8]) -> usize
    ensures place { result ≡ end_of last rest.now }
    ensures bound { result ≤ length rest.now }
{
    first_end(last, rest).unwrap_or(rest.len())
}

fn first_end(last: u8, rest: &[u8]) -> Option<usize>
    ensures place { result ≡ position_from (ends_name last) 0 rest.now }
    ensures bound { IfSome result (λ place. place < length rest.now) }
{
    rest.iter().position(|byte| ends_name(last, *byte))
}

// Whether a name stands first that is none of these.
pub(crate) fn is_other(names: &[&str], before: &[u8], rest: &[u8]) -> bool
    ensures { result ≡ is_other (map (λ known. known.now) names.now) before.now rest.now }
{
    let last = last_of(before);
    let (name, after) = rest.split_at(end_of(last, rest));
    !is_bare(last) && !is_among(names, name) && is_named(after)
}
