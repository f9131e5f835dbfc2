//! Preferences of a time formatter.
ghost use Rattle.std.specs.Prelude.{◌≡◌, true, false, MatchResult};
ghost use Rattle.iloc_locale.specs.LocaleReading.{value_of as locale_value};
ghost use Rattle.iloc_spec_parts.specs.Formatters.{is_strict_time, merge_time, time_preferences, plain_time};
ghost use Rattle.iloc_data.specs.FormatterValues.{time_value, format_value};
ghost use Rattle.iloc_spec_parts.specs.Preferences.{default_preferences, identifier_preferences};
ghost use Rattle.iloc_langid.specs.Reads.{value_of as identifier_of};

use crate::LocalePreferences;
use crate::format_preferences::FormatPreferences;
use crate::keywords::keyword;
use iloc_enum_keywords::HourCycle;
use iloc_keyword_types::NumberingSystem;
use iloc_langid::LanguageIdentifier;
use iloc_locale::Locale;

/// Preferences of a time formatter: those of a locale, its numbering system and its hours.
#[derive(Clone, Copy, Debug, PartialEq, Eq, Hash)]
pub struct TimePreferences {
    /// Those of the locale.
    pub locale_preferences: LocalePreferences,
    /// The numbering system (`nu`).
    pub numbering_system: Option<NumberingSystem>,
    /// How the hours of a day are counted (`hc`).
    pub hour_cycle: Option<HourCycle>,
}

impl TimePreferences {
    /// The preferences of a locale. `Err` holds the same preferences if one of the keywords is there and can't be
    /// parsed, or if those of the locale are not strict.
    pub fn from_locale_strict(loc: &Locale) -> Result<Self, Self>
        ensures value { MatchResult result
            (λ p. time_value p ≡ time_preferences (locale_value loc.now))
            (λ p. time_value p ≡ time_preferences (locale_value loc.now)) }
        ensures strict { MatchResult result (λ _. is_strict_time (locale_value loc.now) ≡ true)
            (λ _. is_strict_time (locale_value loc.now) ≡ false) }
    {
        let (locale_preferences, is_strict) = match LocalePreferences::from_locale_strict(loc) {
            Ok(preferences) => (preferences, true),
            Err(preferences) => (preferences, false),
        };
        let (numbering_system, is_system_readable) = keyword(loc);
        let (hour_cycle, is_cycle_readable) = keyword(loc);
        let preferences = TimePreferences {
            locale_preferences,
            numbering_system,
            hour_cycle,
        };
        if is_strict && is_system_readable && is_cycle_readable {
            Ok(preferences)
        } else {
            Err(preferences)
        }
    }

    /// Takes over what the other knows.
    pub fn extend(&mut self, other: TimePreferences)
        ensures { time_value self.new ≡ merge_time (time_value self.old) (time_value other) }
    {
        self.locale_preferences.extend(other.locale_preferences);
        self.numbering_system = other.numbering_system.or(self.numbering_system);
        self.hour_cycle = other.hour_cycle.or(self.hour_cycle);
    }
}

/// `und`, and nothing else.
impl Default for TimePreferences {
    ghost is_default = { λ p. time_value p ≡ plain_time default_preferences };

    fn default() -> Self {
        TimePreferences {
            locale_preferences: LocalePreferences::default(),
            numbering_system: None,
            hour_cycle: None,
        }
    }
}

/// The preferences of a locale, strict or not.
impl From<&Locale> for TimePreferences {
    ghost from_gives = { λ locale p. time_value p ≡ time_preferences (locale_value locale.now) };

    fn from(loc: &Locale) -> Self {
        TimePreferences {
            locale_preferences: LocalePreferences::from(loc),
            numbering_system: keyword(loc).0,
            hour_cycle: keyword(loc).0,
        }
    }
}

/// As from a reference to the locale.
impl From<Locale> for TimePreferences {
    ghost from_gives = { λ locale p. time_value p ≡ time_preferences (locale_value locale) };

    fn from(loc: Locale) -> Self {
        TimePreferences::from(&loc)
    }
}

/// Those of the identifier, and no keyword.
impl From<&LanguageIdentifier> for TimePreferences {
    ghost from_gives = { λ langid p. time_value p
        ≡ plain_time (identifier_preferences (identifier_of langid.now)) };

    fn from(lid: &LanguageIdentifier) -> Self {
        TimePreferences {
            locale_preferences: LocalePreferences::from(lid),
            numbering_system: None,
            hour_cycle: None,
        }
    }
}

/// As from a reference to the identifier.
impl From<LanguageIdentifier> for TimePreferences {
    ghost from_gives = { λ langid p. time_value p
        ≡ plain_time (identifier_preferences (identifier_of langid)) };

    fn from(lid: LanguageIdentifier) -> Self {
        TimePreferences::from(&lid)
    }
}

/// What the two have in common.
impl From<&FormatPreferences> for TimePreferences {
    ghost from_gives = { λ other p. time_value p ≡ (format_value other.now).time };

    fn from(other: &FormatPreferences) -> Self {
        TimePreferences {
            locale_preferences: other.locale_preferences,
            numbering_system: other.numbering_system,
            hour_cycle: other.hour_cycle,
        }
    }
}
