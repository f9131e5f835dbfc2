//! Calls of a text: parsers that allocate nothing, normal texts, and the parsers that take a `str`.
use iloc_data::DataLocale;
use iloc_keyword_types::SubdivisionId;
use iloc_langid::{LanguageIdentifier, SmallLocaleParts, read_small_locale};
use iloc_locale::Locale;
use iloc_normalize::answered::ROOM;
use iloc_normalize::window::{WINDOW, answer_text};
use iloc_normalize::{Answered, Mode, normalize_short};
use iloc_subtags::{Language, ParseError, Region, Script, Variant};
use std::alloc::Global;
use std::borrow::CowStr;
use std::str;
use test_page::answering::lent;
use test_page::{Call, bytes, printed, put, put_some, refuse, say};

// Says a normal text, or why it was refused.
fn normal(out: &mut String, text: Result<CowStr<'_, Global>, ParseError>) {
    match text {
        Ok(text) => lent(out, text),
        Err(error) => refuse(out, error),
    }
}

// Says a normal text that is answered without building a value. No contract says that a plain text is: a shape that
// silently went the old way would show nowhere else.
fn without_value(out: &mut String, answered: Option<Result<CowStr<'_, Global>, ParseError>>) {
    match answered {
        Some(text) => normal(out, text),
        None => say(out, "not told"),
    }
}

// Says the normal text in the mode as it is written from the bytes of the text.
fn from_bytes(out: &mut String, mode: Mode, text: &[u8]) {
    let (mut window, mut room) = ([0u8; WINDOW], [0u8; ROOM]);
    match answer_text(mode, text, &mut window, &mut room) {
        Answered::Normal(normal) => bytes(out, normal),
        Answered::Refused(error) => refuse(out, error),
        Answered::Nothing => say(out, "not told"),
    }
}

// Says language, script, region and variant, each with a bar after it.
fn front(
    out: &mut String,
    language: &Language,
    script: &Option<Script>,
    region: &Option<Region>,
    variant: &Option<Variant>,
) {
    put(out, language);
    say(out, "|");
    put_some(out, script);
    say(out, "|");
    put_some(out, region);
    say(out, "|");
    put_some(out, variant);
    say(out, "|");
}

// Says the parts of what was parsed without allocating.
fn small(out: &mut String, read: Result<SmallLocaleParts, ParseError>) {
    match read {
        Ok((language, script, region, variant, keyword)) => {
            front(out, &language, &script, &region, &variant);
            if let Some((key, value)) = keyword {
                put(out, &key);
                say(out, "|");
                put_some(out, &value)
            } else {
                say(out, "|")
            }
        }
        Err(error) => refuse(out, error),
    }
}

// Says the parts of an identifier that was parsed without allocating.
fn single(out: &mut String, text: &[u8]) {
    match LanguageIdentifier::try_from_utf8_with_single_variant(text) {
        Ok((language, script, region, variant)) => {
            front(out, &language, &script, &region, &variant)
        }
        Err(error) => refuse(out, error),
    }
}

// The parsers of a `str`.
fn of_str(alloc: Global, what: &str, text: &str, out: &mut String) {
    match what {
        "langid" => printed(out, LanguageIdentifier::try_from_str(alloc, text)),
        "locale" => printed(out, Locale::try_from_str(alloc, text)),
        "data" => printed(out, DataLocale::try_from_str(text)),
        "data-parse" => printed(out, text.parse::<DataLocale>()),
        "subdivision" => printed(out, SubdivisionId::try_from_str(text)),
        "subdivision-parse" => printed(out, text.parse::<SubdivisionId>()),
        "normal" => normal(out, Locale::normalize(alloc, text)),
        "normalid" => normal(out, LanguageIdentifier::normalize(alloc, text)),
        _ => say(out, "no reader"),
    }
}

/// The answer to a call of a text. A call that none of the first is reads the text as a `str`.
pub fn answer(what: &str, call: &Call<'_>, out: &mut String) {
    let (alloc, text) = (call.alloc, call.first);
    match what {
        "normal" => normal(out, Locale::normalize_utf8(alloc, text)),
        "normalid" => normal(out, LanguageIdentifier::normalize_utf8(alloc, text)),
        "toldshort" => without_value(out, normalize_short(alloc, text)),
        "toldid" => from_bytes(out, Mode::Langid, text),
        "told" => from_bytes(out, Mode::Locale, text),
        "tolddata" => from_bytes(out, Mode::Data, text),
        "small" => small(
            out,
            Locale::try_from_utf8_with_single_variant_single_keyword_unicode_extension(text),
        ),
        "heapfree" => small(out, read_small_locale(text)),
        "single" => single(out, text),
        _ => match (what.split_once('-'), str::from_utf8(text)) {
            (Some(("str", what)), Ok(text)) => of_str(alloc, what, text, out),
            _ => say(out, "no call"),
        },
    }
}
