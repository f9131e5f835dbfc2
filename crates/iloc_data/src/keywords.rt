//! The keywords of formatters: each as it reads, and whether it is absent or readable.
ghost use Rattle.std.specs.Prelude.{◌≡◌, ℕ, List, Option, None, option_map, codes};
ghost use Rattle.iloc_locale.specs.LocaleReading.{value_of as locale_value};
ghost use Rattle.iloc_spec_parts.specs.Keywords.{CalendarAlgorithm as the_calendars, HourCycle as the_hours, key as key_of_keyword, enum_reads, single, EnumValue};
ghost use Rattle.iloc_spec_parts.specs.Preferences.{is_readable, read_keyword};
ghost use Rattle.iloc_keyword_types.specs.Calendars.{value_of as calendar_value};
ghost use Rattle.iloc_data.specs.FormatterValues.{hours_value};

use iloc_enum_keywords::HourCycle;
use iloc_keyword_types::{CalendarAlgorithm, NumberingSystem, key_of};
use iloc_locale::Locale;
use iloc_subtags::UnicodeKey;
use iloc_word_list::Value;

/// A type of keywords that formatters know.
pub(crate) trait FormatterKeyword: Copy {
    /// What a keyword stands for.
    ghost Meaning: { Type 0 };

    /// What this keyword stands for.
    ghost meaning: { Self → Meaning };

    /// The key.
    ghost key_text: { List ℕ };

    /// What a value is parsed as.
    ghost reads: { List (List ℕ) → Option Meaning };

    /// The key.
    fn key() -> UnicodeKey
        ensures { result ≡ key_text };

    /// What the value is parsed as.
    fn read(value: &Value) -> Option<Self>
        ensures { option_map meaning result ≡ reads value.now };
}

/// The keyword of a locale, if it is there and readable, and whether it is absent or readable.
#[tactic(auto, using(crate::proofs::KeywordLemmas::absent, crate::proofs::KeywordLemmas::nothing, crate::proofs::KeywordLemmas::there))]
pub(crate) fn keyword<K: FormatterKeyword>(locale: &Locale) -> (Option<K>, bool)
    ensures value { option_map K.meaning result.0
        ≡ read_keyword K.reads K.key_text (locale_value locale.now) }
    ensures readable { result.1 ≡ is_readable K.reads K.key_text (locale_value locale.now) }
{
    let keywords = &locale.extensions.unicode.keywords;
    if keywords.is_empty() {
        return (None, true);
    }
    let Some(value) = keywords.get(&K::key()) else {
        return (None, true);
    };
    match K::read(value) {
        Some(keyword) => (Some(keyword), true),
        None => (None, false),
    }
}

impl FormatterKeyword for NumberingSystem {
    ghost Meaning = { List ℕ };

    ghost meaning = { λ w. w };

    ghost key_text = { codes "nu" };

    ghost reads = { single };

    #[tactic(auto, unfolding(iloc_spec_grammar::specs::Syntax::is_word, iloc_spec_grammar::specs::Syntax::lower))]
    fn key() -> UnicodeKey {
        key_of("nu")
    }

    #[tactic(auto, using(crate::proofs::FormatterLemmas::what_is_read))]
    fn read(value: &Value) -> Option<Self> {
        NumberingSystem::try_from(value).ok()
    }
}

impl FormatterKeyword for HourCycle {
    ghost Meaning = { EnumValue };

    ghost meaning = { hours_value };

    ghost key_text = { key_of_keyword the_hours };

    ghost reads = { enum_reads the_hours };

    #[tactic(auto, unfolding(iloc_spec_grammar::specs::Syntax::is_word, iloc_spec_grammar::specs::Syntax::lower))]
    fn key() -> UnicodeKey {
        key_of("hc")
    }

    #[tactic(auto, using(crate::proofs::FormatterLemmas::what_is_read))]
    fn read(value: &Value) -> Option<Self> {
        HourCycle::try_from(value).ok()
    }
}

impl FormatterKeyword for CalendarAlgorithm {
    ghost Meaning = { EnumValue };

    ghost meaning = { calendar_value };

    ghost key_text = { key_of_keyword the_calendars };

    ghost reads = { enum_reads the_calendars };

    #[tactic(auto, unfolding(iloc_spec_grammar::specs::Syntax::is_word, iloc_spec_grammar::specs::Syntax::lower))]
    fn key() -> UnicodeKey {
        key_of("ca")
    }

    #[tactic(auto, using(crate::proofs::FormatterLemmas::what_is_read))]
    fn read(value: &Value) -> Option<Self> {
        CalendarAlgorithm::try_from(value).ok()
    }
}
