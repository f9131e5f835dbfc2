//! Parses and changes keywords of the unicode extension.
use icu_locale_core::extensions::unicode::{Key, Value, key};
use icu_locale_core::preferences::PreferenceKey;
use icu_locale_core::preferences::extensions::unicode::keywords::{
    CalendarAlgorithm, DictionaryBreakScriptExclusions, HourCycle,
};
use icu_locale_core::{Locale, ParseError};
use std::alloc::Global;
use std::fmt::Write;

/// Gives the keyword this value, and says which it had.
pub fn set(
    alloc: Global,
    locale: &mut Locale,
    key: &str,
    value: &str,
    out: &mut String,
) -> Result<(), ParseError> {
    let key = Key::try_from_str(key)?;
    let value = Value::try_from_str(alloc, value)?;
    let keywords = &mut locale.extensions.unicode.keywords;
    let before = keywords.set(alloc, key, value)?;
    say(locale, before.as_ref(), out)
}

/// Says the locale, and the value that its keyword had.
fn say(locale: &Locale, before: Option<&Value>, out: &mut String) -> Result<(), ParseError> {
    match before {
        Some(before) => write!(out, "{locale}, before: {before}")?,
        None => write!(out, "{locale}, before: none")?,
    }
    Ok(())
}

/// Says the calendar that the locale asks for, and makes it the Buddhist one.
pub fn calendar(alloc: Global, locale: &mut Locale, out: &mut String) -> Result<(), ParseError> {
    let key = key::ca();
    let keywords = &mut locale.extensions.unicode.keywords;
    let asked = match keywords.get(&key) {
        Some(value) => CalendarAlgorithm::try_from(value).ok(),
        None => None,
    };
    let asked = asked.unwrap_or(CalendarAlgorithm::Gregory).as_str();
    keywords.set(alloc, key, CalendarAlgorithm::Buddhist.to_value(alloc)?)?;
    write!(out, "{asked}, then {locale}")?;
    Ok(())
}

/// Says what the locale has under the key of the type.
fn asked<P: PreferenceKey>(locale: &Locale, out: &mut String) -> Result<(), ParseError> {
    let keywords = &locale.extensions.unicode.keywords;
    if let Some(key) = P::unicode_extension_key() {
        match keywords.get(&key) {
            Some(value) => write!(out, "{key}={value} ")?,
            None => write!(out, "no {key} ")?,
        }
    }
    Ok(())
}

/// Says what the locale has under the keys of two types, and the scripts as the value that they are turned into.
pub fn asks(alloc: Global, locale: &Locale, out: &mut String) -> Result<(), ParseError> {
    asked::<HourCycle>(locale, out)?;
    asked::<DictionaryBreakScriptExclusions>(locale, out)?;
    match locale.extensions.unicode.keywords.get(&key::dx()) {
        Some(value) => scripts(alloc, value, out),
        None => Ok(()),
    }
}

/// Says the value of the scripts.
fn scripts(alloc: Global, value: &Value, out: &mut String) -> Result<(), ParseError> {
    match DictionaryBreakScriptExclusions::try_from_value(alloc, value) {
        Ok(scripts) => Ok(write!(out, "scripts: {}", scripts.to_value(alloc)?)?),
        Err(_) => Ok(out.push_str("no scripts")?),
    }
}
