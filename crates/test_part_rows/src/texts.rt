//! Calls of a text: its pieces, and the parsers that take a `str` or pieces.
use iloc_other::{Other, Private};
use iloc_subtags::{ParseError, RegionKind, SubtagIterator, take_word};
use iloc_transform::{Transform, Value as FieldValue};
use iloc_unicode::{Attributes, Keywords, Unicode};
use iloc_word_list::Value;
use iloc_writeable::Writeable;
use std::alloc::Global;
use std::str;
use test_page::{Call, bytes, printed, put, put_some, refuse, say};

// Says a piece in brackets, or `none`.
fn piece(out: &mut String, piece: Option<&[u8]>) {
    match piece {
        Some(piece) => {
            say(out, "[");
            bytes(out, piece);
            say(out, "]")
        }
        None => say(out, "none"),
    }
}

// Says the pieces.
fn pieces(out: &mut String, text: &[u8]) {
    for next in SubtagIterator::new(text) {
        piece(out, Some(next));
    }
}

// Says the piece that is next, the one that comes out, the one that is next then, and the one that still is next
// in what was not moved on.
fn looks(out: &mut String, text: &[u8]) {
    let iter = SubtagIterator::new(text);
    piece(out, iter.peek());
    let (later, first) = iter.next_const();
    piece(out, first);
    piece(out, later.peek());
    piece(out, iter.peek())
}

// Takes two regions in turn, if they fit, and says them and what is next.
fn takes(out: &mut String, text: &[u8]) {
    let mut iter = SubtagIterator::new(text);
    put_some(out, &take_word::<RegionKind, 3>(&mut iter));
    say(out, "|");
    put_some(out, &take_word::<RegionKind, 3>(&mut iter));
    say(out, "|");
    piece(out, iter.peek())
}

// Says what was parsed from the pieces, and the piece that is next then; or why it was refused.
fn parsed<W: Writeable + Drop>(
    out: &mut String,
    read: Result<W, ParseError>,
    iter: &SubtagIterator<'_>,
) {
    match read {
        Ok(value) => {
            put(out, &value);
            say(out, "|");
            piece(out, iter.peek())
        }
        Err(error) => refuse(out, error),
    }
}

// The parsers of pieces, as a locale calls them behind a singleton.
fn of_pieces(alloc: Global, what: &str, text: &[u8], out: &mut String) {
    let mut iter = SubtagIterator::new(text);
    match what {
        "keywords" => parsed(out, Keywords::try_from_iter(alloc, &mut iter), &iter),
        "unicode" => parsed(out, Unicode::try_from_iter(alloc, &mut iter), &iter),
        "transform" => parsed(out, Transform::try_from_iter(alloc, &mut iter), &iter),
        "other" => parsed(out, Other::try_from_iter(alloc, b'o', &mut iter), &iter),
        "private" => parsed(out, Private::try_from_iter(alloc, &mut iter), &iter),
        _ => {
            let read = Attributes::try_from_iter(alloc, &mut iter);
            parsed(out, read.map_err(|_| ParseError::OutOfMemory), &iter)
        }
    }
}

// The parsers of a `str`.
fn of_str(alloc: Global, what: &str, text: &str, out: &mut String) {
    match what {
        "attributes" => printed(out, Attributes::try_from_str(alloc, text)),
        "keywords" => printed(out, Keywords::try_from_str(alloc, text)),
        "unicode" => printed(out, Unicode::try_from_str(alloc, text)),
        "uvalue" => printed(out, Value::try_from_str(alloc, text)),
        "transform" => printed(out, Transform::try_from_str(alloc, text)),
        "tvalue" => printed(out, FieldValue::try_from_str(alloc, text)),
        "other" => printed(out, Other::try_from_str(alloc, text)),
        "private" => printed(out, Private::try_from_str(alloc, text)),
        _ => say(out, "no reader"),
    }
}

/// The answer to a call of a text. A call that none of the first is reads the text as a `str`, or its pieces (`iter`).
pub fn answer(what: &str, call: &Call<'_>, out: &mut String) {
    match what {
        "pieces" => pieces(out, call.first),
        "looks" => looks(out, call.first),
        "takes" => takes(out, call.first),
        _ => match (what.split_once('-'), str::from_utf8(call.first)) {
            (Some(("iter", what)), Ok(text)) => {
                of_pieces(call.alloc, what, text.as_bytes(), out)
            }
            (Some(("str", what)), Ok(text)) => of_str(call.alloc, what, text, out),
            _ => say(out, "no call"),
        },
    }
}
