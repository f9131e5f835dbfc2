//! The room of texts, parts that print after one another, and a sink that fails.
use crate::FailingSink;
use iloc_langid::LanguageIdentifier;
use iloc_langid::reader::read_into as read_identifier;
use iloc_locale::Locale;
use iloc_other::{Other, Private};
use iloc_subtags::ParseError;
use iloc_transform::Transform;
use iloc_writeable::{Pieces, Writeable, to_string_or_borrow};
use std::alloc::{AllocError, Global};
use std::borrow::CowStr;
use std::test::Fail;

// Whether the text is owned, and takes no more room than it needs.
fn is_tight(text: &CowStr<'_, Global>) -> bool {
    match text {
        CowStr::Borrowed(_) => false,
        CowStr::Owned(text) => text.capacity() == text.len(),
    }
}

// Whether the value's texts are.
fn prints_tightly<W: Writeable>(alloc: Global, value: &W) -> Result<bool, AllocError> {
    let whole = value.write_to_string(alloc)?;
    let other = to_string_or_borrow(alloc, value, b"en")?;
    Ok(is_tight(&whole) && is_tight(&other))
}

// Whether the texts of what was parsed are.
fn reads_tightly<W: Writeable + Drop>(
    alloc: Global,
    read: Result<W, ParseError>,
) -> Result<bool, ParseError> {
    let value = read?;
    prints_tightly(alloc, &value).map_err(|_| ParseError::OutOfMemory)
}

#[test]
fn a_text_takes_one_request_of_its_length(rt: HostRuntime) -> Result<(), Fail> {
    let alloc = rt.alloc();
    let text = "en-US-a-foo-t-fr-u-ca-roc-x-y";
    assert!(rt; reads_tightly(alloc, Locale::try_from_str(alloc, text))?);
    Ok(())
}

// The text of the parts after a word, if all of them were parsed.
fn joined<T: Pieces + Drop, O: Pieces + Drop, P: Pieces + Drop>(
    alloc: Global,
    transform: Result<T, ParseError>,
    other: Result<O, ParseError>,
    private: Result<P, ParseError>,
) -> Result<String, ParseError> {
    let (transform, other, private) = (transform?, other?, private?);
    let mut text = String::new(alloc);
    match ("en", &transform, &other, &private).write_joined(&mut text) {
        Ok(()) => Ok(text),
        Err(_) => Err(ParseError::OutOfMemory),
    }
}

#[test]
fn parts_print_after_a_word(rt: HostRuntime) -> Result<(), Fail> {
    let alloc = rt.alloc();
    let text = joined(
        alloc,
        Transform::try_from_str(alloc, "t-de-m0-true"),
        Other::try_from_str(alloc, "o-bar"),
        Private::try_from_str(alloc, "x-baz"),
    )?;
    assert_eq!(rt; text.as_str(), "en-t-de-m0-true-o-bar-x-baz");
    Ok(())
}

#[test]
fn nothing_stands_before_the_first_part(rt: HostRuntime) -> Result<(), Fail> {
    let other = Other::try_from_str(rt.alloc(), "o-bar")?;
    let none = Private::new();
    let mut text = String::new(rt.alloc());
    (&none, &other).write_joined(&mut text)?;
    assert_eq!(rt; text.as_str(), "o-bar");
    Ok(())
}

// Whether a locale without its extensions is its identifier, and `und` once it is cleared.
fn locale_is_cleared(locale: &mut Locale) -> bool {
    locale.extensions.clear();
    let is_identifier = locale.strict_cmp(b"sl-nedis").is_eq();
    locale.clear();
    is_identifier && locale.strict_cmp(b"und").is_eq()
}

#[test]
fn a_cleared_locale_is_und(rt: HostRuntime) -> Result<(), Fail> {
    let text = "sl-NEDIS-u-nu-latn-ca-roc-t-fr-m0-true-x-y";
    let mut locale = Locale::try_from_str(rt.alloc(), text)?;
    assert!(rt; locale_is_cleared(&mut locale));
    Ok(())
}

// Whether an identifier that is read in place of another is the new one, and `und` after a refusal.
fn identifier_is_replaced(
    alloc: Global,
    identifier: &mut LanguageIdentifier,
) -> Result<bool, ParseError> {
    read_identifier(alloc, b"SL-latn-nedis", identifier)?;
    let whole = identifier.strict_cmp(b"sl-Latn-nedis");
    read_identifier(alloc, b"de", identifier)?;
    let short = identifier.strict_cmp(b"de");
    let answer = read_identifier(alloc, b"fr-u", identifier);
    let is_refused = answer == Err(ParseError::InvalidSubtag);
    Ok(is_refused && whole.is_eq() && short.is_eq() && identifier.strict_cmp(b"und").is_eq())
}

#[test]
fn an_identifier_is_read_in_place_of_another(rt: HostRuntime) {
    let mut identifier = LanguageIdentifier::unknown();
    let is_replaced = identifier_is_replaced(rt.alloc(), &mut identifier);
    assert_eq!(rt; is_replaced, Ok(true));
}

// Whether the error of a sink that refuses a write is answered, if it refused one, with a beginning of the text before it
// and no write after it; else the sink holds the whole text.
fn reports_failure<W: Writeable>(alloc: Global, value: &W, whole: &str, writes: u64) -> bool {
    let mut sink = FailingSink::new(alloc, writes);
    let is_written = value.write_to(&mut sink).is_ok();
    let (text, failures) = (sink.text.as_str(), sink.failures);
    match failures {
        0 => is_written && text == whole,
        1 => !is_written && whole.starts_with(text),
        _ => false,
    }
}

// Whether each sink does that has room for fewer writes than the text has bytes, and whether the first refuses a write
// and the last none.
fn reports_each_failure<W: Writeable>(alloc: Global, value: &W, whole: &str) -> bool {
    let most = whole.len() as u64;
    let is_reported = (0..most).all(|writes: u64| reports_failure(alloc, value, whole, writes));
    let mut none = FailingSink::new(alloc, 0);
    let mut all = FailingSink::new(alloc, most);
    is_reported && value.write_to(&mut none).is_err() && value.write_to(&mut all).is_ok()
}

// Whether the locale, its extensions and its unicode extension do, which print these texts.
fn reports_failures(alloc: Global, locale: &Locale) -> bool {
    let extensions = &locale.extensions;
    reports_each_failure(alloc, locale, "en-US-a-foo-t-fr-m0-true-u-abc-ca-roc-x-y")
        && reports_each_failure(alloc, extensions, "a-foo-t-fr-m0-true-u-abc-ca-roc-x-y")
        && reports_each_failure(alloc, &extensions.unicode, "u-abc-ca-roc")
}

#[test]
fn a_sink_fails_at_each_write(rt: HostRuntime) -> Result<(), Fail> {
    let alloc = rt.alloc();
    let locale = Locale::try_from_str(alloc, "EN-us-u-ABC-ca-roc-t-fr-m0-true-a-foo-x-y")?;
    assert!(rt; reports_failures(alloc, &locale));
    Ok(())
}
