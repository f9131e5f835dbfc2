//! Rows of the types of keywords: `keyword-KEY TAB value TAB other key` in, a line out.
//!
//! The value is parsed as the keyword. The line is its text, the value that it is turned into, and what is parsed from the
//! value under the other key (of no third argument, the keyword's own), joined by `|`. `keyword-read-KEY`,
//! `keyword-value-KEY` and `keyword-keyed-KEY` say one of the three, `keyword-own-KEY` the key that the type has,
//! `keyword-copy-KEY` a copy, and whether it is the same, `keyword-given-KEY` the value by the type's own call. A refusal is `! `, its words, and what it prints.
//! `keyword-default TAB KEY` answers the text of the default, `keyword-key TAB KEY` the key that the function of its
//! name makes, `keyword-memory` the refusal `OutOfMemory`.
use crate::keyword::{Asked, answer_parsed, default_of, refuse_keyword};
use crate::variants;
use iloc_enum_keywords::{
    CollationCaseFirst, CollationNumericOrdering, CollationType, CommonVariantType,
    CurrencyFormatStyle, EmojiPresentationStyle, FirstDay, HourCycle, LineBreakStyle,
    LineBreakWordHandling, MeasurementSystem, MeasurementUnitOverride, SentenceBreakSupressions,
};
use iloc_keyword_types::{
    CalendarAlgorithm, DictionaryBreakScriptExclusions, NumberingSystem, PreferencesParseError,
    RegionOverride, RegionalSubdivision, TimeZoneShortId, known_keys,
};
use iloc_subtags::{CurrencyType, UnicodeKey};
use iloc_word_list::Value;
use std::alloc::AllocError;
use std::str;
use test_page::{Call, put, refuse, say};

// What the keyword is, read of the value.
fn keyword(word: &str, asked: &Asked<'_>, out: &mut String) {
    let value = asked.value;
    match word {
        "ca" => answer_parsed(CalendarAlgorithm::try_from(value), asked, out),
        "co" => answer_parsed(CollationType::try_from(value), asked, out),
        "kf" => answer_parsed(CollationCaseFirst::try_from(value), asked, out),
        "kn" => answer_parsed(CollationNumericOrdering::try_from(value), asked, out),
        "cf" => answer_parsed(CurrencyFormatStyle::try_from(value), asked, out),
        "em" => answer_parsed(EmojiPresentationStyle::try_from(value), asked, out),
        "fw" => answer_parsed(FirstDay::try_from(value), asked, out),
        "hc" => answer_parsed(HourCycle::try_from(value), asked, out),
        "lb" => answer_parsed(LineBreakStyle::try_from(value), asked, out),
        "lw" => answer_parsed(LineBreakWordHandling::try_from(value), asked, out),
        "ms" => answer_parsed(MeasurementSystem::try_from(value), asked, out),
        "mu" => answer_parsed(MeasurementUnitOverride::try_from(value), asked, out),
        "ss" => answer_parsed(SentenceBreakSupressions::try_from(value), asked, out),
        "va" => answer_parsed(CommonVariantType::try_from(value), asked, out),
        "cu" => answer_parsed(CurrencyType::try_from(value), asked, out),
        "nu" => answer_parsed(NumberingSystem::try_from(value), asked, out),
        "tz" => answer_parsed(TimeZoneShortId::try_from(value), asked, out),
        "rg" => answer_parsed(RegionOverride::try_from(value), asked, out),
        "sd" => answer_parsed(RegionalSubdivision::try_from(value), asked, out),
        "dx" => answer_parsed(
            DictionaryBreakScriptExclusions::try_from_value(asked.alloc, value),
            asked,
            out,
        ),
        _ => say(out, "no such call"),
    }
}

// The default of a keyword.
fn default(word: &str, out: &mut String) {
    match word {
        "kf" => default_of::<CollationCaseFirst>(out),
        "kn" => default_of::<CollationNumericOrdering>(out),
        "cf" => default_of::<CurrencyFormatStyle>(out),
        "em" => default_of::<EmojiPresentationStyle>(out),
        "ss" => default_of::<SentenceBreakSupressions>(out),
        _ => say(out, "no such call"),
    }
}

// The key of this name.
fn key_named(name: &str, out: &mut String) {
    match name {
        "ca" => put(out, &known_keys::ca()),
        "cf" => put(out, &known_keys::cf()),
        "co" => put(out, &known_keys::co()),
        "cu" => put(out, &known_keys::cu()),
        "dx" => put(out, &known_keys::dx()),
        "em" => put(out, &known_keys::em()),
        "fw" => put(out, &known_keys::fw()),
        "hc" => put(out, &known_keys::hc()),
        "kf" => put(out, &known_keys::kf()),
        "kn" => put(out, &known_keys::kn()),
        "lb" => put(out, &known_keys::lb()),
        "lw" => put(out, &known_keys::lw()),
        "ms" => put(out, &known_keys::ms()),
        "mu" => put(out, &known_keys::mu()),
        "nu" => put(out, &known_keys::nu()),
        "rg" => put(out, &known_keys::rg()),
        "sd" => put(out, &known_keys::sd()),
        "ss" => put(out, &known_keys::ss()),
        "tz" => put(out, &known_keys::tz()),
        "va" => put(out, &known_keys::va()),
        _ => say(out, "no such call"),
    }
}

// The answer to a row of a keyword, or of one call of it. Without another key it is the keyword's own.
fn read(word: &str, call: &str, row: &Call<'_>, out: &mut String) {
    let key = if row.second.is_empty() {
        word.as_bytes()
    } else {
        row.second
    };
    match (
        Value::try_from_utf8(row.alloc, row.first),
        UnicodeKey::try_from_utf8(key),
    ) {
        (Ok(value), Ok(key)) => keyword(
            word,
            &Asked {
                alloc: row.alloc,
                call,
                value: &value,
                key,
            },
            out,
        ),
        (Err(error), _) => refuse(out, error),
        (_, Err(error)) => refuse(out, error),
    }
}

/// The answer to a row whose name after `keyword-` is this.
pub fn answer(name: &str, row: &Call<'_>, out: &mut String) {
    let (call, word) = name.split_once('-').unwrap_or(("", name));
    let named = str::from_utf8(row.first).unwrap_or("");
    match word {
        _ if matches!(call, "is" | "owned" | "copy" | "given") => variants::answer(
            call, word, row, out,
        ),
        "default" => default(named, out),
        "key" => key_named(named, out),
        "memory" => refuse_keyword(out, &PreferencesParseError::from(AllocError)),
        _ => read(word, call, row, out),
    }
}
