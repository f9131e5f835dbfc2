//! Payloads keyed by data locales, and loaded along a chain of fallbacks.
//!
//! What has no payload is looked for without what matters least (UTS #35, "Locale Inheritance and Matching"): by language
//! without the parts from the last one on, by region without variant, and then without language and script.
ghost use Rattle.std.specs.Prelude.{◌≡◌, ◌↔◌, IfSome, IsNone, Some};
ghost use Rattle.std.specs.HashMap.{ContainsKey, get};
ghost use Rattle.icu_locale_core.specs.DataEquality.{same_key};
ghost use Rattle.icu_locale_core.specs.DataValue.{unknown_data, value_of};

use icu_locale_core::preferences::LocalePreferences;
use icu_locale_core::subtags::Language;
use icu_locale_core::{DataLocale, Locale, ParseError};
use std::collections::HashMap;
use std::fmt::Write;

/// Payloads by data locales.
pub type Payloads<'a> = HashMap<DataLocale, &'a str>;

/// A data locale, and the payload that it has.
type Found<'a> = (DataLocale, &'a str);

/// The next data locale of the chain; `None` after `und`.
fn parent(locale: DataLocale, by_region: bool) -> Option<DataLocale>
    ensures { IsNone result ↔ (value_of locale ≡ unknown_data) }
{
    let mut next = locale;
    let is_region_alone = locale.language.is_unknown() && locale.script.is_none();
    match by_region {
        true if locale.variant.is_some() => next.variant = None,
        true if locale.region.is_some() && !is_region_alone => {
            next.script = None;
            next.language = Language::unknown();
        }
        _ if locale.subdivision.is_some() => next.subdivision = None,
        _ if locale.variant.is_some() => next.variant = None,
        _ if locale.region.is_some() => next.region = None,
        _ if locale.script.is_some() => next.script = None,
        _ if !locale.language.is_unknown() => next.language = Language::unknown(),
        _ => return None,
    }
    Some(next)
}

/// The first data locale of the chain that has a payload, and this payload.
fn load<'a>(payloads: &Payloads<'a>, locale: DataLocale, by_region: bool) -> Option<Found<'a>>
    ensures found { IfSome result (λ r. get same_key payloads.now r.0 ≡ Some r.1) }
    ensures itself { ContainsKey same_key payloads.now locale → IfSome result (λ r. r.0 ≡ locale) }
{
    let mut asked = locale;
    for _ in 0..8u8 {
        if let Some(payload) = payloads.get(&asked) {
            return Some((asked, *payload));
        }
        asked = parent(asked, by_region)?;
    }
    None
}

/// Gives the data locale of the text this payload.
pub fn put<'a>(
    payloads: &mut Payloads<'a>,
    text: &str,
    payload: &'a str,
    out: &mut String,
) -> Result<(), ParseError> {
    let locale = DataLocale::try_from_str(text)?;
    match payloads.insert(locale, payload) {
        Ok(_) => Ok(write!(out, "{payload} at {locale}")?),
        Err(_) => Err(ParseError::OutOfMemory),
    }
}

/// Says what is loaded for the locale, by language and by region, where `rg` stands in the place of its region; what has
/// no payload is not said.
pub fn say(locale: &Locale, from: &Payloads<'_>, out: &mut String) -> Result<(), ParseError> {
    let asked = LocalePreferences::from(locale);
    if let Some(found) = load(from, asked.to_data_locale_language_priority(), false) {
        write!(out, "by language: {} at {}; ", found.1, found.0)?;
    }
    if let Some(found) = load(from, asked.to_data_locale_region_priority(), true) {
        write!(out, "by region: {} at {}", found.1, found.0)?;
    }
    Ok(())
}
