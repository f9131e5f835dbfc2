//! Values that are made from parts, and not read. The second argument says what is asked of each.
use crate::Rows;
use iloc_data::DataLocale;
use iloc_extensions::Extensions;
use iloc_keyword_types::SubdivisionId;
use iloc_langid::LanguageIdentifier;
use iloc_locale::Locale;
use iloc_subtags::{Language, ParseError, Region, Script, SubdivisionSuffix};
use iloc_unicode::Unicode;
use std::alloc::Global;
use test_page::answering::made;
use test_page::{Answering, Call, refuse, say};

// A language, a script and a region.
type Parts = (Language, Option<Script>, Option<Region>);

// The parts of the text.
fn front(text: &[u8]) -> Result<Parts, ParseError> {
    let (language, script, region, _) = LanguageIdentifier::try_from_utf8_with_single_variant(
        text,
    )?;
    Ok((language, script, region))
}

// What is made of another value, which ends here.
trait MadeOf<O>: Answering<Rows> {
    fn made_of(alloc: Global, other: O) -> Self;
}

impl MadeOf<Unicode> for Extensions {
    fn made_of(alloc: Global, other: Unicode) -> Self {
        Extensions::from_unicode(alloc, other)
    }
}

impl MadeOf<LanguageIdentifier> for Locale {
    fn made_of(alloc: Global, other: LanguageIdentifier) -> Self {
        Locale::from_langid(alloc, other)
    }
}

impl MadeOf<Locale> for LanguageIdentifier {
    fn made_of(_alloc: Global, other: Locale) -> Self {
        LanguageIdentifier::from(other)
    }
}

impl MadeOf<Locale> for DataLocale {
    fn made_of(_alloc: Global, other: Locale) -> Self {
        DataLocale::from(other)
    }
}

impl MadeOf<Parts> for DataLocale {
    fn made_of(_alloc: Global, other: Parts) -> Self {
        DataLocale::from(other)
    }
}

impl MadeOf<LanguageIdentifier> for DataLocale {
    fn made_of(_alloc: Global, other: LanguageIdentifier) -> Self {
        DataLocale::from(other)
    }
}

// Says what is asked of what is made of what was parsed.
fn made_of<O, W: MadeOf<O>>(call: &Call<'_>, read: Result<O, ParseError>, out: &mut String) {
    match read {
        Ok(value) => made::<Rows, W>(call, Ok(W::made_of(call.alloc, value)), out),
        Err(error) => refuse(out, error),
    }
}

// Identifiers of a language, a script or a region.
fn identifier(what: &str, call: &Call<'_>, out: &mut String) {
    match (what, front(call.first)) {
        ("langid", Ok(parts)) => of(call, LanguageIdentifier::from(parts), out),
        ("langid-language", Ok((language, _, _))) => {
            of(call, LanguageIdentifier::from(language), out)
        }
        ("langid-script", Ok((_, script, _))) => of(call, LanguageIdentifier::from(script), out),
        ("langid-region", Ok((_, _, region))) => of(call, LanguageIdentifier::from(region), out),
        (_, Err(error)) => refuse(out, error),
        _ => say(out, "no call"),
    }
}

// Locales of a language, a script and a region.
fn locale(what: &str, call: &Call<'_>, out: &mut String) {
    let alloc = call.alloc;
    match (what, front(call.first)) {
        ("locale", Ok(parts)) => of(call, Locale::from_parts(alloc, parts), out),
        ("locale-language", Ok((language, _, _))) => {
            of(call, Locale::from_language(alloc, language), out)
        }
        ("locale-script", Ok((_, script, _))) => of(call, Locale::from_script(alloc, script), out),
        ("locale-region", Ok((_, _, region))) => of(call, Locale::from_region(alloc, region), out),
        (_, Err(error)) => refuse(out, error),
        _ => say(out, "no call"),
    }
}

// Says what is asked of what was made.
fn of<W: Answering<Rows>>(call: &Call<'_>, value: W, out: &mut String) {
    made::<Rows, W>(call, Ok(value), out)
}

// The subdivision of a text `region.suffix`.
fn subdivision(text: &[u8]) -> Result<SubdivisionId, ParseError> {
    let mut parts = text.split(|byte: &u8| *byte == b'.');
    let region = Region::try_from_utf8(parts.next().unwrap_or(b""))?;
    let suffix = SubdivisionSuffix::try_from_utf8(parts.next().unwrap_or(b""))?;
    Ok(SubdivisionId::new(region, suffix))
}

// Values that are made of nothing, or of one of another type.
fn moved(what: &str, call: &Call<'_>, out: &mut String) {
    let (alloc, text) = (call.alloc, call.first);
    match what {
        "langid-none" => of(call, LanguageIdentifier::unknown(), out),
        "data-default" => of(call, DataLocale::default(), out),
        "locale-none" => of(call, Locale::unknown(alloc), out),
        "extensions-none" => of(call, Extensions::new(alloc), out),
        "langid-locale" => {
            let read = Locale::try_from_utf8(alloc, text);
            made_of::<Locale, LanguageIdentifier>(call, read, out)
        }
        "locale-langid" => {
            let read = LanguageIdentifier::try_from_utf8(alloc, text);
            made_of::<LanguageIdentifier, Locale>(call, read, out)
        }
        "data-locale" => {
            let read = Locale::try_from_utf8(alloc, text);
            made_of::<Locale, DataLocale>(call, read, out)
        }
        "data-langid" => {
            let read = LanguageIdentifier::try_from_utf8(alloc, text);
            made_of::<LanguageIdentifier, DataLocale>(call, read, out)
        }
        "extensions-unicode" => {
            let read = Unicode::try_from_utf8(alloc, text);
            made_of::<Unicode, Extensions>(call, read, out)
        }
        _ => say(out, "no call"),
    }
}

/// Makes the value, and says what is asked of it.
pub fn answer(what: &str, call: &Call<'_>, out: &mut String) {
    match what {
        "locale" | "locale-language" | "locale-script" | "locale-region" => {
            locale(what, call, out)
        }
        "langid" | "langid-language" | "langid-script" | "langid-region" => {
            identifier(what, call, out)
        }
        "data" => made_of::<Parts, DataLocale>(call, front(call.first), out),
        "subdivision" => made::<Rows, SubdivisionId>(call, subdivision(call.first), out),
        _ => moved(what, call, out),
    }
}
