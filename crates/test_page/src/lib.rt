//! What the programs of table tests share. A test is a row: `CALL TAB argument TAB argument` in, and one line out.
//!
//! Here stand how rows are read and their page of answers is made (`rows`, `argument`), what is asked of any type
//! that is parsed (`answering`, `steps`), and how answers are said. In an argument `\xFF` stands for the byte, and a short
//! form between braces for what repeats (`argument`); all else is as it looks. No call that says something fails. The
//! page has its room before the first row, and what finds no room is left out, so that the row is wrong. Only generic
//! functions own what was parsed, so that dropping it is proved only once. It stands on the refusals of subtags and
//! on printing.
#![tactic(auto)]

pub mod answering;
pub mod argument;
pub mod rows;
pub mod steps;

pub use answering::{Answering, Ask};
use iloc_subtags::ParseError;
use iloc_writeable::Writeable;
pub use rows::{Asking, Call, Judged, Program, page};
use std::cmp::Ordering;
use std::hash::{DefaultHasher, Hash, Hasher};

/// Says the text.
pub fn say(out: &mut String, text: &str) {
    let _ = out.push_str(text);
}

/// Says the text after a blank.
pub fn field(out: &mut String, text: &str) {
    say(out, " ");
    say(out, text)
}

/// Says why something was refused.
pub fn refuse(out: &mut String, error: ParseError) {
    say(out, "! ");
    say(out, error.words());
}

/// Says that an allocation failed.
pub fn refused(out: &mut String) {
    refuse(out, ParseError::OutOfMemory)
}

/// Says the text of the value.
pub fn put<W: Writeable>(out: &mut String, value: &W) {
    let _ = value.write_to(out);
}

/// Says the text of the value, or nothing.
pub fn put_some<W: Writeable>(out: &mut String, value: &Option<W>) {
    if let Some(value) = value {
        put(out, value);
    }
}

/// Says the text of the value that is lent, or `none`.
pub fn put_or_none<W: Writeable>(out: &mut String, value: Option<&W>) {
    match value {
        Some(value) => put(out, value),
        None => say(out, "none"),
    }
}

/// Says the text of what was parsed, or why it was refused.
pub fn printed<W: Writeable + Drop>(out: &mut String, read: Result<W, ParseError>) {
    match read {
        Ok(value) => put(out, &value),
        Err(error) => refuse(out, error),
    }
}

/// Says the word for the order.
pub fn order(out: &mut String, order: Ordering) {
    say(
        out,
        match order {
            Ordering::Less => "Less",
            Ordering::Equal => "Equal",
            Ordering::Greater => "Greater",
        },
    )
}

/// Says the word for the truth.
pub fn truth(out: &mut String, is_so: bool) {
    say(out, if is_so { "true" } else { "false" })
}

/// What the value feeds a hasher.
pub fn hash_of<T: Hash>(value: &T) -> u64 {
    let mut hasher = DefaultHasher::new();
    value.hash(&mut hasher);
    hasher.finish()
}

/// Says whether the two are equal, and whether their hashes are.
pub fn equal<T: PartialEq + Hash>(out: &mut String, one: &T, other: &T) {
    truth(out, *one == *other);
    say(out, " ");
    truth(out, hash_of(one) == hash_of(other))
}

/// Says the order of the two, by `cmp` and by `partial_cmp`, whether they are equal, and whether their hashes are.
pub fn ordered<T: Ord + Hash>(out: &mut String, one: &T, other: &T) {
    order(out, one.cmp(other));
    say(out, " ");
    match one.partial_cmp(other) {
        Some(partial) => order(out, partial),
        None => say(out, "none"),
    }
    say(out, " ");
    equal(out, one, other)
}

const DIGITS: [char; 16] = [
    '0', '1', '2', '3', '4', '5', '6', '7', '8', '9', 'A', 'B', 'C', 'D', 'E', 'F',
];

/// Says the number from 0 to 15 as a digit.
fn digit(out: &mut String, number: u8) {
    if let Some(digit) = DIGITS.get(usize::from(number)) {
        let _ = out.push(*digit);
    }
}

/// Says the bytes, those that are no plain characters as `\xFF`.
pub fn bytes(out: &mut String, bytes: &[u8]) {
    for byte in bytes {
        if byte.is_ascii_graphic() {
            let _ = out.push(char::from(*byte));
        } else {
            say(out, "\\x");
            digit(out, *byte / 16);
            digit(out, *byte % 16);
        }
    }
}

/// Says the number.
pub fn number(out: &mut String, number: usize) {
    let mut digits = [0u8; 20];
    let mut rest = number;
    let mut count = 0usize;
    for place in digits.iter_mut().rev() {
        *place = b'0' + (rest % 10) as u8;
        rest /= 10;
        count = count.saturating_add(1);
        if rest == 0 {
            break;
        }
    }
    for place in digits.iter().skip(20usize.saturating_sub(count)) {
        let _ = out.push(char::from(*place));
    }
}

/// The value of a digit to base sixteen.
fn value_of(digit: u8) -> Option<u8> {
    match digit {
        b'0'..=b'9' => Some(digit - b'0'),
        b'A'..=b'F' => Some(digit - b'A' + 10),
        _ => None,
    }
}

/// Puts into the room the bytes that the text stands for.
pub fn unescape(text: &str, room: &mut Vec<u8>) {
    room.clear();
    let mut pieces = text.split("\\x");
    if let Some(first) = pieces.next() {
        let _ = room.extend_from_slice(first.as_bytes());
    }
    for piece in pieces {
        if let [high, low, rest @ ..] = piece.as_bytes() {
            let high = value_of(*high).unwrap_or(0);
            let low = value_of(*low).unwrap_or(0);
            let _ = room.push(high.wrapping_mul(16).wrapping_add(low));
            let _ = room.extend_from_slice(rest);
        }
    }
}
