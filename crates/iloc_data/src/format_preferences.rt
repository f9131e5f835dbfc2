//! Preferences of a formatter of dates and times.
ghost use Rattle.std.specs.Prelude.{◌≡◌, true, false, MatchResult};
ghost use Rattle.iloc_locale.specs.LocaleReading.{value_of as locale_value};
ghost use Rattle.iloc_spec_parts.specs.Formatters.{format_preferences, is_strict_format, merge_format, plain_format, plain_time};
ghost use Rattle.iloc_data.specs.FormatterValues.{format_value, time_value};
ghost use Rattle.iloc_spec_parts.specs.Preferences.{default_preferences, identifier_preferences};
ghost use Rattle.iloc_langid.specs.Reads.{value_of as identifier_of};

use crate::LocalePreferences;
use crate::keywords::keyword;
use crate::time_preferences::TimePreferences;
use iloc_enum_keywords::HourCycle;
use iloc_keyword_types::{CalendarAlgorithm, NumberingSystem};
use iloc_langid::LanguageIdentifier;
use iloc_locale::Locale;

/// Preferences of a formatter: those of a locale, its numbering system, its hours and its calendar.
#[derive(Clone, Copy, Debug, PartialEq, Eq, Hash)]
pub struct FormatPreferences {
    /// Those of the locale.
    pub locale_preferences: LocalePreferences,
    /// The numbering system (`nu`).
    pub numbering_system: Option<NumberingSystem>,
    /// How the hours of a day are counted (`hc`).
    pub hour_cycle: Option<HourCycle>,
    /// The calendar (`ca`).
    pub calendar_algorithm: Option<CalendarAlgorithm>,
}

impl FormatPreferences {
    /// The preferences of a locale. `Err` holds the same preferences if one of the keywords is there and can't be
    /// parsed, or if those of the locale are not strict.
    pub fn from_locale_strict(loc: &Locale) -> Result<Self, Self>
        ensures value { MatchResult result
            (λ p. format_value p ≡ format_preferences (locale_value loc.now))
            (λ p. format_value p ≡ format_preferences (locale_value loc.now)) }
        ensures strict { MatchResult result (λ _. is_strict_format (locale_value loc.now) ≡ true)
            (λ _. is_strict_format (locale_value loc.now) ≡ false) }
    {
        let (time, is_strict) = match TimePreferences::from_locale_strict(loc) {
            Ok(preferences) => (preferences, true),
            Err(preferences) => (preferences, false),
        };
        let (calendar_algorithm, is_readable) = keyword(loc);
        let preferences = FormatPreferences {
            calendar_algorithm,
            ..FormatPreferences::of_time(&time)
        };
        if is_strict && is_readable {
            Ok(preferences)
        } else {
            Err(preferences)
        }
    }

    /// Takes over what the other knows.
    pub fn extend(&mut self, other: FormatPreferences)
        ensures { format_value self.new
            ≡ merge_format (format_value self.old) (format_value other) }
    {
        self.locale_preferences.extend(other.locale_preferences);
        self.numbering_system = other.numbering_system.or(self.numbering_system);
        self.hour_cycle = other.hour_cycle.or(self.hour_cycle);
        self.calendar_algorithm = other.calendar_algorithm.or(self.calendar_algorithm);
    }

    // Those of a time formatter, and no calendar.
    fn of_time(time: &TimePreferences) -> Self
        ensures { format_value result ≡ plain_format (time_value time.now) }
    {
        FormatPreferences {
            locale_preferences: time.locale_preferences,
            numbering_system: time.numbering_system,
            hour_cycle: time.hour_cycle,
            calendar_algorithm: None,
        }
    }
}

/// `und`, and nothing else.
impl Default for FormatPreferences {
    ghost is_default = { λ p. format_value p ≡ plain_format (plain_time default_preferences) };

    fn default() -> Self {
        FormatPreferences::of_time(&TimePreferences::default())
    }
}

/// The preferences of a locale, strict or not.
impl From<&Locale> for FormatPreferences {
    ghost from_gives = { λ locale p. format_value p
        ≡ format_preferences (locale_value locale.now) };

    fn from(loc: &Locale) -> Self {
        FormatPreferences {
            locale_preferences: LocalePreferences::from(loc),
            numbering_system: keyword(loc).0,
            hour_cycle: keyword(loc).0,
            calendar_algorithm: keyword(loc).0,
        }
    }
}

/// As from a reference to the locale.
impl From<Locale> for FormatPreferences {
    ghost from_gives = { λ locale p. format_value p ≡ format_preferences (locale_value locale) };

    fn from(loc: Locale) -> Self {
        FormatPreferences::from(&loc)
    }
}

/// Those of the identifier, and no keyword.
impl From<&LanguageIdentifier> for FormatPreferences {
    ghost from_gives = { λ langid p. format_value p
        ≡ plain_format (plain_time (identifier_preferences (identifier_of langid.now))) };

    fn from(lid: &LanguageIdentifier) -> Self {
        FormatPreferences::of_time(&TimePreferences::from(lid))
    }
}

/// As from a reference to the identifier.
impl From<LanguageIdentifier> for FormatPreferences {
    ghost from_gives = { λ langid p. format_value p
        ≡ plain_format (plain_time (identifier_preferences (identifier_of langid))) };

    fn from(lid: LanguageIdentifier) -> Self {
        FormatPreferences::from(&lid)
    }
}
