//! Texts of a locale and of its parts, its lists, and parts made empty.
use icu_locale_core::json::TextValue;
use icu_locale_core::writeable::{Sink, Writeable};
use icu_locale_core::{Locale, ParseError};
use std::alloc::{AllocError, Global};
use std::borrow::CowStr;
use std::fmt::{self, Write};

/// Says the text of the locale, that of its identifier, and that of its language.
pub fn say(alloc: Global, locale: &Locale, out: &mut String) -> Result<(), ParseError> {
    let id = &locale.id;
    put(locale.write_to_string(alloc), out)?;
    put(id.write_to_string(alloc), out)?;
    let language = id.language.write_text(alloc)?;
    write!(out, "{language}")?;
    Ok(())
}

/// Says a printed text, and a comma after it. Only here it is owned.
fn put(
    printed: Result<CowStr<'_, Global>, AllocError>,
    out: &mut String,
) -> Result<(), AllocError> {
    match printed {
        Ok(text) => Ok(write!(out, "{text}, ")?),
        Err(error) => Err(error),
    }
}

/// Writes the locale between brackets, to a sink of any kind.
pub fn bracketed<S: Sink>(locale: &Locale, sink: &mut S) -> fmt::Result {
    sink.write_char('[')?;
    locale.write_to(sink)?;
    sink.write_str("]")
}

/// Says the variants and the keywords, which are lent as slices.
pub fn lists(locale: &Locale, out: &mut String) -> Result<(), ParseError> {
    let variants = &locale.id.variants;
    for variant in variants.as_slice() {
        write!(out, "{variant} ")?;
    }
    let keywords = &locale.extensions.unicode.keywords;
    for (key, value) in keywords.as_slice() {
        write!(out, "{key}={value} ")?;
    }
    Ok(())
}

/// Makes a part of the locale empty, or all of it. It keeps its memory.
pub fn clear(locale: &mut Locale, part: &str, out: &mut String) -> Result<(), ParseError> {
    match part {
        "id" => locale.id.clear(),
        "extensions" => locale.extensions.clear(),
        _ => locale.clear(),
    }
    write!(out, "{locale}")?;
    Ok(())
}
