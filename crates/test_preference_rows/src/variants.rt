//! Keywords by `==` with a value that is written out here, one of each type, and struct keywords of a value that is
//! handed over.
use crate::answering::made;
use crate::keyword::{Shown, refuse_keyword};
use iloc_enum_keywords::{
    CollationCaseFirst, CollationNumericOrdering, CollationType, CommonVariantType,
    CurrencyFormatStyle, EmojiPresentationStyle, FirstDay, HourCycle, LineBreakStyle,
    LineBreakWordHandling, MeasurementSystem, MeasurementUnitOverride, SentenceBreakSupressions,
};
use iloc_keyword_types::{
    CalendarAlgorithm, DictionaryBreakScriptExclusions, HijriCalendarAlgorithm, KeywordKind,
    NumberingSystem, PreferencesParseError, RegionOverride, RegionalSubdivision, SingleKeyword,
    SubdivisionId, SubtagContent, TimeZoneShortId,
};
use iloc_subtags::{CurrencyType, ParseError, Script, Subtag};
use iloc_word_list::Value;
use std::alloc::Global;
use test_page::{Call, refuse, refused, say, truth};

// Says whether what was parsed is that very keyword.
fn is<T: PartialEq + Drop>(read: Result<T, PreferencesParseError>, wanted: T, out: &mut String) {
    match read {
        Ok(keyword) => truth(out, keyword == wanted),
        Err(error) => refuse_keyword(out, &error),
    }
}

// Says whether the enum is the variant that stands here for its key.
fn named_enum(word: &str, value: &Value, out: &mut String) {
    match word {
        "ca" => {
            let civil = CalendarAlgorithm::Hijri(Some(HijriCalendarAlgorithm::Civil));
            is(CalendarAlgorithm::try_from(value), civil, out)
        }
        "co" => is(CollationType::try_from(value), CollationType::Phonebk, out),
        "kf" => is(
            CollationCaseFirst::try_from(value),
            CollationCaseFirst::Upper,
            out,
        ),
        "kn" => is(
            CollationNumericOrdering::try_from(value),
            CollationNumericOrdering::True,
            out,
        ),
        "cf" => is(
            CurrencyFormatStyle::try_from(value),
            CurrencyFormatStyle::Account,
            out,
        ),
        "em" => is(
            EmojiPresentationStyle::try_from(value),
            EmojiPresentationStyle::Text,
            out,
        ),
        _ => named_later(word, value, out),
    }
}

// And of the keys after these.
fn named_later(word: &str, value: &Value, out: &mut String) {
    match word {
        "fw" => is(FirstDay::try_from(value), FirstDay::Wed, out),
        "hc" => is(HourCycle::try_from(value), HourCycle::Clock12, out),
        "lb" => is(LineBreakStyle::try_from(value), LineBreakStyle::Loose, out),
        "lw" => is(
            LineBreakWordHandling::try_from(value),
            LineBreakWordHandling::KeepAll,
            out,
        ),
        "ms" => is(
            MeasurementSystem::try_from(value),
            MeasurementSystem::USSystem,
            out,
        ),
        "mu" => is(
            MeasurementUnitOverride::try_from(value),
            MeasurementUnitOverride::Fahrenheit,
            out,
        ),
        "ss" => is(
            SentenceBreakSupressions::try_from(value),
            SentenceBreakSupressions::Standard,
            out,
        ),
        "va" => is(
            CommonVariantType::try_from(value),
            CommonVariantType::Posix,
            out,
        ),
        _ => say(out, "no such call"),
    }
}

// Says whether the keyword stands for just that.
fn stands_for<K: KeywordKind, T: SubtagContent + PartialEq>(
    read: Result<SingleKeyword<K, T>, PreferencesParseError>,
    wanted: Result<T, ParseError>,
    out: &mut String,
) {
    match (read, wanted) {
        (Ok(keyword), Ok(wanted)) => truth(out, *keyword.as_inner() == wanted),
        (Err(error), _) => refuse_keyword(out, &error),
        (_, Err(error)) => refuse(out, error),
    }
}

// Says whether the excluded scripts are these two, in this order.
fn excludes(
    read: Result<DictionaryBreakScriptExclusions, PreferencesParseError>,
    one: Result<Script, ParseError>,
    other: Result<Script, ParseError>,
    out: &mut String,
) {
    match (read, one, other) {
        (Ok(keyword), Ok(one), Ok(other)) => {
            truth(out, keyword.as_inner() == [one, other].as_slice())
        }
        (Err(error), _, _) => refuse_keyword(out, &error),
        _ => say(out, "no script"),
    }
}

// Says whether the keyword is the one that stands here for its key.
fn named(alloc: Global, word: &str, value: &Value, out: &mut String) {
    match word {
        "cu" => match CurrencyType::try_from_str("usd") {
            Ok(dollar) => is(CurrencyType::try_from(value), dollar, out),
            Err(error) => refuse(out, error),
        },
        "nu" => stands_for(
            NumberingSystem::try_from(value),
            Subtag::try_from_str("thai"),
            out,
        ),
        "tz" => stands_for(
            TimeZoneShortId::try_from(value),
            Subtag::try_from_str("uslax"),
            out,
        ),
        "rg" => stands_for(
            RegionOverride::try_from(value),
            SubdivisionId::try_from_str("gbzzzz"),
            out,
        ),
        "sd" => stands_for(
            RegionalSubdivision::try_from(value),
            SubdivisionId::try_from_str("ustx"),
            out,
        ),
        "dx" => excludes(
            DictionaryBreakScriptExclusions::try_from_value(alloc, value),
            Script::try_from_str("Latn"),
            Script::try_from_str("Hani"),
            out,
        ),
        _ => named_enum(word, value, out),
    }
}

// Says the text of what was parsed.
fn shown<T: Shown + Drop>(read: Result<T, PreferencesParseError>, out: &mut String) {
    match read {
        Ok(keyword) => keyword.show(out),
        Err(error) => refuse_keyword(out, &error),
    }
}

// Says the text of the struct keyword of the value, which ends here.
fn owned(word: &str, value: Value, out: &mut String) {
    match word {
        "cu" => shown(CurrencyType::try_from(value), out),
        "nu" => shown(NumberingSystem::try_from(value), out),
        "tz" => shown(TimeZoneShortId::try_from(value), out),
        "rg" => shown(RegionOverride::try_from(value), out),
        "sd" => shown(RegionalSubdivision::try_from(value), out),
        _ => say(out, "no such call"),
    }
}

// Says why it was refused: out of memory in the words that every parser has.
fn refuse_read(out: &mut String, error: &PreferencesParseError) {
    if matches!(error, PreferencesParseError::OutOfMemory) {
        refused(out)
    } else {
        refuse_keyword(out, error)
    }
}

// Says the copy, and whether it is the same.
fn copied<T: Shown + Clone + PartialEq + Drop>(
    read: Result<T, PreferencesParseError>,
    out: &mut String,
) {
    match read {
        Ok(keyword) => match keyword.clone() {
            Ok(copy) => {
                copy.show(out);
                truth(out, copy == keyword)
            }
            Err(_) => refused(out),
        },
        Err(error) => refuse_read(out, &error),
    }
}

// Says the value that the keyword gives by a call of its own.
fn given(alloc: Global, word: &str, value: &Value, out: &mut String) {
    match word {
        "ca" => match CalendarAlgorithm::try_from(value) {
            Ok(calendar) => made(out, calendar.to_value(alloc)),
            Err(error) => refuse_read(out, &error),
        },
        _ => match DictionaryBreakScriptExclusions::try_from_value(alloc, value) {
            Ok(excluded) => made(out, excluded.to_value(alloc)),
            Err(error) => refuse_read(out, &error),
        },
    }
}

// Says what is asked of the value, which ends here.
fn asked(alloc: Global, call: &str, word: &str, value: Value, out: &mut String) {
    match call {
        "is" => named(alloc, word, &value, out),
        "copy" => copied(
            DictionaryBreakScriptExclusions::try_from_value(alloc, &value),
            out,
        ),
        "given" => given(alloc, word, &value, out),
        _ => owned(word, value, out),
    }
}

/// Says of the value that is read whether its keyword `is` the one that stands here, or the keyword of the value itself.
pub fn answer(call: &str, word: &str, row: &Call<'_>, out: &mut String) {
    match Value::try_from_utf8(row.alloc, row.first) {
        Ok(value) => asked(row.alloc, call, word, value, out),
        Err(error) => refuse(out, error),
    }
}
