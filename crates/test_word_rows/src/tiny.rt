//! Short texts: `tiny-N` parses bytes, `text-N` a text, `tinyraw-N` a raw form, each in a size of `N` bytes.
ghost use Rattle.std.specs.Prelude.{◌≤◌};

use iloc_tinystr::TinyAsciiStr;
use std::str;
use test_page::{bytes, field, number, ordered, say};

/// Says the word if the text is of the class.
fn class(is_of: bool, word: &str, out: &mut String) {
    if is_of {
        field(out, word);
    }
}

/// Says the text's classes.
fn classes<const N: usize>(text: &TinyAsciiStr<N>, out: &mut String) {
    class(text.is_ascii_alphabetic(), "alphabetic", out);
    class(text.is_ascii_alphanumeric(), "alphanumeric", out);
    class(text.is_ascii_numeric(), "numeric", out);
    class(text.is_ascii_lowercase(), "lowercase", out);
    class(
        text.is_ascii_alphabetic_lowercase(),
        "alphabetic_lowercase",
        out,
    );
    class(
        text.is_ascii_alphabetic_uppercase(),
        "alphabetic_uppercase",
        out,
    );
    class(
        text.is_ascii_alphabetic_titlecase(),
        "alphabetic_titlecase",
        out,
    );
}

/// Says the text in lower, upper and title case, and quoted.
fn cases<const N: usize>(text: &TinyAsciiStr<N>, out: &mut String) {
    field(out, text.to_ascii_lowercase().as_str());
    field(out, text.to_ascii_uppercase().as_str());
    field(out, text.to_ascii_titlecase().as_str());
    let _ = write!(out, " {text:?}");
}

/// Says the text, its length, its raw form, and the text in other cases and quoted, then its classes; or that there is
/// none.
fn describe<const N: usize>(read: Option<TinyAsciiStr<N>>, out: &mut String) {
    match read {
        Some(text) => {
            say(out, text.as_str());
            say(out, " ");
            number(out, text.len());
            say(out, " ");
            bytes(out, text.all_bytes().as_slice());
            cases(&text, out);
            classes(&text, out);
        }
        None => say(out, "none"),
    }
}

/// The bytes, followed by zeros, or as many as have room.
pub fn padded<const N: usize>(given: &[u8]) -> [u8; N] {
    let mut raw = [0u8; N];
    for (place, byte) in raw.iter_mut().zip(given) {
        *place = *byte;
    }
    raw
}

/// The short text that the bytes spell.
fn of_text<const N: usize>(given: &[u8]) -> Option<TinyAsciiStr<N>>
    requires { N ≤ 8 }
{
    match str::from_utf8(given) {
        Ok(text) => TinyAsciiStr::try_from_str(text),
        Err(_) => None,
    }
}

/// Says what the bytes are as a short text of a size.
fn read<const N: usize>(call: &str, given: &[u8], out: &mut String)
    requires { N ≤ 8 }
{
    match call {
        "tinyraw" => describe::<N>(TinyAsciiStr::try_from_raw(padded(given)), out),
        "tiny" => describe::<N>(TinyAsciiStr::try_from_utf8(given), out),
        _ => describe::<N>(of_text(given), out),
    }
}

/// The answer to a parser of short texts.
pub fn answer(call: &str, size: &str, a: &[u8], out: &mut String) {
    match size {
        "0" => read::<0>(call, a, out),
        "1" => read::<1>(call, a, out),
        "3" => read::<3>(call, a, out),
        "4" => read::<4>(call, a, out),
        "8" => read::<8>(call, a, out),
        _ => say(out, "no size"),
    }
}

/// Says the raw form of the text in a size of four bytes, from one of eight.
pub fn resized(a: &[u8], out: &mut String) {
    match TinyAsciiStr::<8>::try_from_utf8(a) {
        Some(text) if text.len() <= 4 => {
            bytes(out, text.resize::<4>().all_bytes().as_slice());
        }
        _ => say(out, "none"),
    }
}

/// Says the raw form of the piece that a text of at most eight bytes is, and of the text that this piece is again.
pub fn by_piece(a: &[u8], out: &mut String) {
    match TinyAsciiStr::<8>::try_from_utf8(a) {
        Some(text) => {
            let piece = text.to_piece();
            bytes(out, piece.to_bytes().as_slice());
            say(out, " ");
            bytes(
                out,
                TinyAsciiStr::<8>::from_piece(piece).all_bytes().as_slice(),
            );
        }
        None => say(out, "none"),
    }
}

/// Says the raw form of the two texts, of at most three and four bytes, as one of seven.
pub fn joined(a: &[u8], b: &[u8], out: &mut String) {
    let (Some(front), Some(end)) = (
        TinyAsciiStr::<3>::try_from_utf8(a),
        TinyAsciiStr::<4>::try_from_utf8(b),
    ) else {
        return say(out, "none");
    };
    if front.len() + end.len() <= 7 {
        let both: TinyAsciiStr<7> = front.concat(end);
        bytes(out, both.all_bytes().as_slice());
    }
}

/// Says how two short texts compare.
pub fn compared(a: &[u8], b: &[u8], out: &mut String) {
    match TinyAsciiStr::<8>::try_from_utf8(a) {
        Some(one) => match TinyAsciiStr::<8>::try_from_utf8(b) {
            Some(other) => ordered(out, &one, &other),
            None => say(out, "none"),
        },
        None => say(out, "none"),
    }
}
