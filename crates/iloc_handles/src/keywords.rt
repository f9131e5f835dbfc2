//! The keywords of a locale.
ghost use Rattle.std.specs.Prelude.{◌≡◌, not};
ghost use Rattle.iloc_spec_grammar.specs.Syntax.{is_same};
ghost use Rattle.iloc_handles.specs.Keywords.{keywords};
ghost use Rattle.iloc_locale.specs.LocaleReading.{value_of};
ghost use Rattle.iloc_handles.specs.Pairs.{HasSet};

use crate::pairs::Pairs;
use iloc_locale::Locale;
use iloc_subtags::{ParseError, UnicodeKey, UnicodeKeyKind};
use iloc_word_list::Value;
use std::alloc::{AllocError, Global};

/// The keywords.
#[derive(Drop)]
pub struct OfKeywords;

impl Pairs for OfKeywords {
    type Kind = UnicodeKeyKind;

    type Value = Value;

    ghost map = { keywords };

    fn pairs(locale: &Locale) -> &[(UnicodeKey, Value)] {
        locale.extensions.unicode.keywords.as_slice()
    }

    fn get<'a>(locale: &'a Locale, key: &UnicodeKey) -> Option<&'a Value> {
        locale.extensions.unicode.keywords.get(key)
    }

    fn parse(alloc: Global, text: &[u8]) -> Result<Value, ParseError> {
        Value::try_from_utf8(alloc, text)
    }

    fn set(
        locale: &mut Locale,
        alloc: Global,
        key: &UnicodeKey,
        value: Value,
    ) -> Result<(), AllocError>
        ensures { HasSet keywords key.now value (value_of locale.old) (value_of locale.new) result }
    {
        locale.extensions.unicode.keywords.set(alloc, *key, value)?;
        Ok(())
    }

    fn remove(locale: &mut Locale, key: &UnicodeKey) {
        locale.extensions.unicode.keywords.retain_by_key(
            move |other: &UnicodeKey| -> bool
                ensures { result ≡ not (is_same key.entry.now other.now) }
            { !key.cmp(other).is_eq() },
        );
    }
}
