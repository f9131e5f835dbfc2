//! Words of any kind: `word-KIND` reads a text, `raw-KIND` a raw form, and the others make the calls of a word.
use crate::tiny::padded;
use iloc_subtags::{
    AttributeKind, CurrencyTypeKind, LanguageKind, PrivateSubtagKind, RegionKind, ScriptKind,
    SubdivisionSuffixKind, SubtagKind, TransformKeyKind, UnicodeKeyKind, VariantKind, Word,
    WordKind, WordOf,
};
use iloc_tinystr::{ShortPiece, TinyAsciiStr};
use iloc_writeable::Writeable;
use iloc_writeable::pieces::Pieces;
use std::str;
use test_page::{bytes, field, number, order, ordered, printed, refuse, say, truth};

/// The text and the raw form of what the text is parsed as.
fn word<K: WordKind<N>, const N: usize>(text: &[u8], out: &mut String) {
    match WordOf::<K, N>::try_from_utf8(text) {
        Ok(word) => {
            say(out, word.as_str());
            say(out, " ");
            bytes(out, word.into_raw().as_slice());
        }
        Err(error) => refuse(out, error),
    }
}

/// The text of what the raw form is parsed as.
fn raw<K: WordKind<N>, const N: usize>(given: &[u8], out: &mut String) {
    printed(out, WordOf::<K, N>::try_from_raw(padded(given)));
}

/// Says the word as it is lent, how long it says it is, whether it has pieces, and itself joined to itself.
fn lent<K: WordKind<N>, const N: usize>(word: &WordOf<K, N>, out: &mut String) {
    field(out, word.writeable_borrow().unwrap_or("none"));
    say(out, " ");
    number(out, word.writeable_length_hint().0);
    say(out, " ");
    truth(out, word.has_pieces());
    say(out, " ");
    let _ = (word, word).write_joined(out);
}

/// Says the word in each way of printing, lending and converting it.
fn describe<K: WordKind<N>, const N: usize>(word: WordOf<K, N>, out: &mut String) {
    let _ = word.as_str();
    let _ = write!(out, " {word} {word:?}");
    lent(&word, out);
    field(out, word.to_tinystr().as_str());
    field(out, TinyAsciiStr::from(word).as_str());
}

/// Says what a text parses as, by each parser of texts.
fn calls<K: WordKind<N>, const N: usize>(text: &str, out: &mut String) {
    printed(out, text.parse::<WordOf<K, N>>());
    match WordOf::<K, N>::try_from_str(text) {
        Ok(word) => describe(word, out),
        Err(error) => {
            say(out, " ");
            refuse(out, error)
        }
    }
}

/// Says what the kind says of a piece: whether it is a word, whether one may have its length, its text in the case of the
/// kind, and the refusal; and what the piece is as a word and as a piece again.
fn of_piece<K: WordKind<N>, const N: usize>(text: &[u8], out: &mut String) {
    let Some(piece) = ShortPiece::of(text) else {
        return say(out, "no piece");
    };
    truth(out, K::accepts(piece));
    say(out, " ");
    truth(out, K::has_length(piece.len()));
    say(out, " ");
    bytes(out, K::normal(piece).to_bytes().as_slice());
    field(out, K::refusal().words());
    say(out, " ");
    match WordOf::<K, N>::from_piece(piece) {
        Ok(word) => bytes(out, word.to_piece().to_bytes().as_slice()),
        Err(error) => refuse(out, error),
    }
}

/// The order of a word's text against bytes.
fn against<K: WordKind<N>, const N: usize>(text: &[u8], other: &[u8], out: &mut String) {
    match WordOf::<K, N>::try_from_utf8(text) {
        Ok(word) => order(out, word.strict_cmp(other)),
        Err(error) => refuse(out, error),
    }
}

/// Whether the other text equals the word without case.
fn equals<K: WordKind<N>, const N: usize>(text: &[u8], other: &str, out: &mut String) {
    match WordOf::<K, N>::try_from_utf8(text) {
        Ok(word) => truth(out, word.normalizing_eq(other)),
        Err(error) => refuse(out, error),
    }
}

/// The lesser of two words of any kind.
fn lesser<W: Word>(one: &[u8], other: &[u8], out: &mut String) {
    match W::try_from_utf8(one) {
        Ok(one) => match W::try_from_utf8(other) {
            Ok(other) => say(out, W::as_str(if other < one { &other } else { &one })),
            Err(error) => refuse(out, error),
        },
        Err(error) => refuse(out, error),
    }
}

/// Says how two words compare.
fn both<K: WordKind<N>, const N: usize>(one: &[u8], other: &[u8], out: &mut String) {
    match WordOf::<K, N>::try_from_utf8(one) {
        Ok(one) => match WordOf::<K, N>::try_from_utf8(other) {
            Ok(other) => ordered(out, &one, &other),
            Err(error) => refuse(out, error),
        },
        Err(error) => refuse(out, error),
    }
}

/// The text of the bytes, or none.
fn text_of(bytes: &[u8]) -> &str {
    str::from_utf8(bytes).unwrap_or("")
}

/// The answer to a call of words of a kind.
fn of_kind<K: WordKind<N>, const N: usize>(what: &str, a: &[u8], b: &[u8], out: &mut String) {
    match what {
        "word" => word::<K, N>(a, out),
        "raw" => raw::<K, N>(a, out),
        "piece" => of_piece::<K, N>(a, out),
        "calls" => calls::<K, N>(text_of(a), out),
        "equals" => equals::<K, N>(a, text_of(b), out),
        "against" => against::<K, N>(a, b, out),
        "lesser" => lesser::<WordOf<K, N>>(a, b, out),
        "both" => both::<K, N>(a, b, out),
        _ => say(out, "no call"),
    }
}

/// The answer to a call of words.
pub fn answer(what: &str, kind: &str, a: &[u8], b: &[u8], out: &mut String) {
    match kind {
        "language" => of_kind::<LanguageKind, 8>(what, a, b, out),
        "script" => of_kind::<ScriptKind, 4>(what, a, b, out),
        "region" => of_kind::<RegionKind, 3>(what, a, b, out),
        "variant" => of_kind::<VariantKind, 8>(what, a, b, out),
        "subtag" => of_kind::<SubtagKind, 8>(what, a, b, out),
        "ukey" => of_kind::<UnicodeKeyKind, 2>(what, a, b, out),
        "tkey" => of_kind::<TransformKeyKind, 2>(what, a, b, out),
        "attribute" => of_kind::<AttributeKind, 8>(what, a, b, out),
        "private" => of_kind::<PrivateSubtagKind, 8>(what, a, b, out),
        "suffix" => of_kind::<SubdivisionSuffixKind, 4>(what, a, b, out),
        "currency" => of_kind::<CurrencyTypeKind, 3>(what, a, b, out),
        _ => say(out, "no kind"),
    }
}
