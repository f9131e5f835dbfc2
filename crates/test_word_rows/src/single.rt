//! Calls of one kind of word, of short texts of two sizes, of refusals, and of ranges.
use crate::tiny::{by_piece, joined, padded, resized};
use iloc_matching::matches;
use iloc_subtags::{CurrencyType, Language, ParseError, Region, Script, Subtag};
use iloc_tinystr::TinyAsciiStr;
use std::alloc::AllocError;
use std::str;
use test_page::{field, number, printed, put, refuse, say, truth};

/// The language of a raw form of three bytes.
fn old_raw(given: &[u8], out: &mut String) {
    printed(out, Language::try_from_raw_v1(padded(given)));
}

/// Whether the language is the unknown one, and that one's text.
fn unknown(text: &[u8], out: &mut String) {
    match Language::try_from_utf8(text) {
        Ok(language) => {
            truth(out, language.is_unknown());
            say(out, " ");
            put(out, &Language::unknown());
        }
        Err(error) => refuse(out, error),
    }
}

/// Whether the region is one of letters.
fn alphabetic(text: &[u8], out: &mut String) {
    match Region::try_from_utf8(text) {
        Ok(region) => truth(out, region.is_alphabetic()),
        Err(error) => refuse(out, error),
    }
}

/// The script as a subtag.
fn script(text: &[u8], out: &mut String) {
    match Script::try_from_utf8(text) {
        Ok(script) => put(out, &Subtag::from(script)),
        Err(error) => refuse(out, error),
    }
}

/// The code of ISO 4217 of a currency.
fn code(text: &[u8], out: &mut String) {
    match CurrencyType::try_from_utf8(text) {
        Ok(currency) => say(out, currency.iso_code().as_str()),
        Err(error) => refuse(out, error),
    }
}

/// The length of a subtag, its text, itself from its text, and whether it is just the other text.
fn subtag(text: &[u8], other: &[u8], out: &mut String) {
    match Subtag::try_from_utf8(text) {
        Ok(subtag) => {
            number(out, subtag.len());
            field(out, subtag.as_tinystr().as_str());
            say(out, " ");
            put(out, &Subtag::from_tinystr_unvalidated(subtag.to_tinystr()));
            say(out, " ");
            match str::from_utf8(other) {
                Ok(other) => truth(out, subtag.eq_str(other)),
                Err(_) => say(out, "no text"),
            }
        }
        Err(error) => refuse(out, error),
    }
}

/// The subtag of a short text of at most four bytes.
fn of_tiny(text: &[u8], out: &mut String) {
    match TinyAsciiStr::<4>::try_from_utf8(text) {
        Some(tiny) => printed(out, Subtag::try_from(tiny)),
        None => say(out, "none"),
    }
}

/// Says the words of the refusal, by both calls.
fn refusal(error: ParseError, out: &mut String) {
    say(out, error.words());
    let _ = write!(out, " | {error}");
}

/// Says the words of the refusal of that number.
fn refusals(number: &[u8], out: &mut String) {
    match number {
        b"1" => refusal(ParseError::InvalidLanguage, out),
        b"2" => refusal(ParseError::InvalidSubtag, out),
        b"3" => refusal(ParseError::InvalidExtension, out),
        b"4" => refusal(ParseError::DuplicatedExtension, out),
        _ => refusal(ParseError::from(AllocError), out),
    }
}

/// The answer to a call.
pub fn answer(call: &str, a: &[u8], b: &[u8], out: &mut String) {
    match call {
        "resized" => resized(a, out),
        "joined" => joined(a, b, out),
        "by_piece" => by_piece(a, out),
        "old_raw" => old_raw(a, out),
        "unknown" => unknown(a, out),
        "alphabetic" => alphabetic(a, out),
        "script" => script(a, out),
        "code" => code(a, out),
        "subtag" => subtag(a, b, out),
        "of_tiny" => of_tiny(a, out),
        "refusal" => refusals(a, out),
        "matches" => truth(out, matches(a, b)),
        _ => say(out, "no call"),
    }
}
