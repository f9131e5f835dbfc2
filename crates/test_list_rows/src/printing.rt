//! Printing, of sets of variants and of texts.
use crate::maps::{Long, map_of};
use crate::sets::set_of;
use crate::steps::spell;
use iloc_writeable::{LengthHint, Writeable, cmp_utf8, to_string_or_borrow};
use std::alloc::{AllocError, Global};
use std::borrow::CowStr;
use std::str;
use test_page::{Call, number, order, refused, say, truth};

/// Says the bounds.
fn hint(hint: LengthHint, out: &mut String) {
    number(out, hint.0);
    say(out, "..");
    if let Some(most) = hint.1 {
        number(out, most);
    }
}

/// The bounds of a text `LEAST..MOST`, where the end may be left out, or of a length that is known.
fn hint_of(text: &[u8]) -> LengthHint {
    let text = str::from_utf8(text).unwrap_or("");
    match text.split_once("..") {
        Some((least, most)) => LengthHint(
            least.parse::<usize>().unwrap_or(0),
            most.parse::<usize>().ok(),
        ),
        None => LengthHint::exact(text.parse::<usize>().unwrap_or(0)),
    }
}

/// Says the sum of bounds, and that of bounds and a length, each made in two ways.
fn sums(a: &[u8], b: &[u8], out: &mut String) {
    let (one, other) = (hint_of(a), hint_of(b));
    hint(one + other, out);
    let mut both = one;
    both += other;
    say(out, " ");
    hint(both, out);
    say(out, " ");
    hint(one + other.0, out);
    let mut more = one;
    more += other.0;
    say(out, " ");
    hint(more, out);
}

/// Says that a printed text is lent, or its length and the room that it has.
fn lent_or_room(text: &CowStr<'_, Global>, out: &mut String) {
    match text {
        CowStr::Borrowed(_) => say(out, "lent"),
        CowStr::Owned(text) => {
            number(out, text.len());
            say(out, " of ");
            number(out, text.capacity());
        }
    }
}

/// Says what room a printed text has.
pub fn say_room(printed: Result<CowStr<'_, Global>, AllocError>, out: &mut String) {
    match printed {
        Ok(text) => lent_or_room(&text, out),
        Err(_) => refused(out),
    }
}

/// Says a printed text and what room it has.
fn text(printed: Result<CowStr<'_, Global>, AllocError>, out: &mut String) {
    match printed {
        Ok(text) => {
            say(out, text.as_str());
            say(out, " ");
            lent_or_room(&text, out);
        }
        Err(_) => refused(out),
    }
}

/// The bytes of a value's text, by a list of bytes that grows.
fn grown<W: Writeable>(alloc: Global, value: &W, out: &mut String) {
    let mut bytes = Vec::new(alloc);
    match value.write_to(&mut bytes) {
        Ok(()) => test_page::bytes(out, bytes.as_slice()),
        Err(_) => refused(out),
    }
}

/// Says what a call answers of a value.
fn answer_of<W: Writeable>(alloc: Global, what: &str, value: &W, bytes: &[u8], out: &mut String) {
    match what {
        "string" => text(value.write_to_string(alloc), out),
        "borrow" => text(to_string_or_borrow(alloc, value, bytes), out),
        "cmp" => order(out, cmp_utf8(value, bytes)),
        "hint" => hint(value.writeable_length_hint(), out),
        "lent" => say(out, value.writeable_borrow().unwrap_or("none")),
        "grown" => grown(alloc, value, out),
        _ => say(out, "no call"),
    }
}

/// Says what a call answers of a value that was made.
fn made<W: Writeable + Drop>(
    alloc: Global,
    what: &str,
    value: Result<W, AllocError>,
    bytes: &[u8],
    out: &mut String,
) {
    match value {
        Ok(value) => answer_of(alloc, what, &value, bytes, out),
        Err(_) => refused(out),
    }
}

/// Whether the debug text of a map has the other text in it.
fn shows(alloc: Global, letters: &[u16], text: &[u8]) -> Result<bool, AllocError> {
    let map: Long = map_of(alloc, letters)?;
    let shown = format!(in alloc; "{map:?}")?;
    Ok(shown.as_str().contains(str::from_utf8(text).unwrap_or("")))
}

/// The answer to a call that prints: `TEXT_CALL` of a text, else of a set.
pub fn answer(what: &str, call: &Call<'_>, room: &mut Vec<u16>, out: &mut String) {
    let (alloc, a, b) = (call.alloc, call.first, call.second);
    match what.split_once('_') {
        Some(("text", what)) => answer_of(alloc, what, &str::from_utf8(a).unwrap_or(""), b, out),
        Some((_, what)) => made(alloc, what, set_of(alloc, a), b, out),
        _ if what == "sums" => sums(a, b, out),
        _ => {
            spell(a, room);
            match shows(alloc, room.as_slice(), b) {
                Ok(is_shown) => truth(out, is_shown),
                Err(_) => refused(out),
            }
        }
    }
}
