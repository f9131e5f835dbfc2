//! Preferences of formatters.
use crate::answering::Making;
use iloc_data::{FormatPreferences, TimePreferences};
use iloc_langid::LanguageIdentifier;
use iloc_locale::Locale;
use test_page::{put, say};

impl Making for TimePreferences {
    fn said(&self, out: &mut String) {
        time(self, out)
    }
}

impl Making for FormatPreferences {
    fn said(&self, out: &mut String) {
        format(self, out)
    }
}

// Says preferences of a time formatter.
fn time(preferences: &TimePreferences, out: &mut String) {
    put(
        out,
        &preferences
            .locale_preferences
            .to_data_locale_language_priority(),
    );
    say(out, "|");
    if let Some(system) = &preferences.numbering_system {
        put(out, system.as_inner());
    }
    say(out, "|");
    if let Some(hours) = &preferences.hour_cycle {
        say(out, hours.as_str());
    }
}

// Says preferences of a formatter.
fn format(preferences: &FormatPreferences, out: &mut String) {
    time(&TimePreferences::from(preferences), out);
    say(out, "|");
    if let Some(calendar) = &preferences.calendar_algorithm {
        say(out, calendar.as_str());
    }
}

/// Says those of a locale.
pub fn of_locale(locale: &Locale, call: &str, out: &mut String) {
    match call {
        "format" => strict_format(locale, out),
        "format-lenient" => format(&FormatPreferences::from(locale), out),
        "time" => strict_time(locale, out),
        "time-lenient" => time(&TimePreferences::from(locale), out),
        _ => say(out, "no call"),
    }
}

fn strict_format(locale: &Locale, out: &mut String) {
    match FormatPreferences::from_locale_strict(locale) {
        Ok(preferences) => {
            say(out, "Ok|");
            format(&preferences, out)
        }
        Err(preferences) => {
            say(out, "Err|");
            format(&preferences, out)
        }
    }
}

fn strict_time(locale: &Locale, out: &mut String) {
    match TimePreferences::from_locale_strict(locale) {
        Ok(preferences) => {
            say(out, "Ok|");
            time(&preferences, out)
        }
        Err(preferences) => {
            say(out, "Err|");
            time(&preferences, out)
        }
    }
}

/// Says those of an identifier.
pub fn of_identifier(langid: &LanguageIdentifier, call: &str, out: &mut String) {
    match call {
        "langid-format" => format(&FormatPreferences::from(langid), out),
        _ => time(&TimePreferences::from(langid), out),
    }
}

/// Says those of a locale, extended by those of the two others in turn.
pub fn extended(one: &Locale, by: &Locale, then: &Locale, call: &str, out: &mut String) {
    if call == "format-extend" {
        let mut merged = FormatPreferences::from(one);
        merged.extend(FormatPreferences::from(by));
        merged.extend(FormatPreferences::from(then));
        format(&merged, out)
    } else {
        let mut merged = TimePreferences::from(one);
        merged.extend(TimePreferences::from(by));
        merged.extend(TimePreferences::from(then));
        time(&merged, out)
    }
}

/// Says those that are there by default.
pub fn default(out: &mut String) {
    format(&FormatPreferences::default(), out);
    say(out, "|");
    time(&TimePreferences::default(), out)
}
