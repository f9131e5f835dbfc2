//! What may stand at a place of a text, and hints about refused texts.
//!
//! `expected-MODE TEXT PLACE` says the bits of the kinds, and their words. `kind-number N` says the number of the kind with
//! this number, and its words; `hint-MODE TEXT` the words of the hint. Both say `none` if there is none.
use iloc_expected::{PieceKind, expected};
use iloc_hints::{Hint, hint};
use iloc_normalize::Mode;
use test_page::argument::number_of;
use test_page::{number, put, say};

/// The answer to `expected-MODE`.
pub fn answer_expected(mode: &str, text: &[u8], place: &[u8], out: &mut String) {
    let Some(mode) = Mode::from_word(mode) else {
        return say(out, "no call");
    };
    let kinds = expected(mode, text, number_of(place));
    number(out, kinds.bits as usize);
    say(out, " ");
    put(out, &kinds);
}

/// The answer to `hint-MODE`.
pub fn answer_hint(mode: &str, text: &[u8], out: &mut String) {
    let Some(mode) = Mode::from_word(mode) else {
        return say(out, "no call");
    };
    match hint(mode, text) {
        Some(hint) => put_hint(hint, out),
        None => say(out, "none"),
    }
}

fn put_hint(hint: Hint, out: &mut String) {
    say(out, hint.words());
}

/// The answer to `kind-number`.
pub fn answer_kind(text: &[u8], out: &mut String) {
    match PieceKind::from_number(number_of(text)) {
        Some(kind) => put_kind(kind, out),
        None => say(out, "none"),
    }
}

fn put_kind(kind: PieceKind, out: &mut String) {
    number(out, kind.number());
    say(out, " ");
    say(out, kind.words());
}
