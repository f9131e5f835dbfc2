//! Preferences of locales.
use crate::answering::{Answering, Making, made};
use crate::formatters;
use iloc_data::{DataLocale, LocalePreferences};
use iloc_langid::LanguageIdentifier;
use iloc_locale::Locale;
use iloc_subtags::{Language, Region, Script, Subtag, UnicodeKey};
use std::alloc::Global;
use test_page::{order, put, put_some, refused, say, truth};

impl Answering for Locale {
    fn answer(&mut self, alloc: Global, call: &str, out: &mut String) {
        match call {
            "prefs" => strict(alloc, self, out),
            "lenient" => preferences(alloc, LocalePreferences::from(&*self), out),
            "parts" => parts(LocalePreferences::from(&*self), out),
            "data" => put(out, &DataLocale::from(&*self)),
            "to-locale" => made(out, LocalePreferences::from(&*self).to_locale(alloc)),
            "true-sd" => of_true(alloc, self, out),
            _ => formatters::of_locale(self, call, out),
        }
    }

    fn answer_extended(&self, alloc: Global, by: &Self, then: &Self, call: &str, out: &mut String) {
        if call != "extend" {
            return formatters::extended(self, by, then, call, out);
        }
        let mut merged = LocalePreferences::from(self);
        merged.extend(LocalePreferences::from(by));
        merged.extend(LocalePreferences::from(then));
        preferences(alloc, merged, out)
    }
}

impl Making for DataLocale {
    fn said(&self, out: &mut String) {
        put(out, self)
    }
}

impl Answering for LanguageIdentifier {
    fn answer(&mut self, alloc: Global, call: &str, out: &mut String) {
        match call {
            "langid-prefs" => preferences(alloc, LocalePreferences::from(&*self), out),
            "langid-data" => put(out, &DataLocale::from(&*self)),
            "langid-into" => into_others(self, out),
            _ => formatters::of_identifier(self, call, out),
        }
    }

    fn answer_extended(&self, alloc: Global, by: &Self, then: &Self, call: &str, out: &mut String) {
        say(out, "no call")
    }
}

// Says whether what an identifier is turned into has its parts: language, script and region, alone and in a data
// locale; and how what is made of these three again compares with it.
fn into_others(identifier: &LanguageIdentifier, out: &mut String) {
    let parts = <(Language, Option<Script>, Option<Region>)>::from(identifier);
    let own = (identifier.language, identifier.script, identifier.region);
    truth(out, parts == own);
    let data = DataLocale::from(identifier);
    say(out, " ");
    truth(out, (data.language, data.script, data.region) == own);
    say(out, " ");
    truth(out, data.variant.as_ref() == identifier.variants.first());
    let again = LanguageIdentifier::from(parts);
    say(out, " ");
    order(out, again.total_cmp(identifier));
    say(out, " ");
    truth(out, again == *identifier)
}

// Says the data locales of preferences, and the locale that they become.
fn preferences(alloc: Global, preferences: LocalePreferences, out: &mut String) {
    put(out, &preferences.to_data_locale_language_priority());
    say(out, "|");
    put(out, &preferences.to_data_locale_region_priority());
    say(out, "|");
    made(out, preferences.to_locale(alloc))
}

// Says whether the preferences are strict, and them.
fn strict(alloc: Global, locale: &Locale, out: &mut String) {
    match LocalePreferences::from_locale_strict(locale) {
        Ok(read) => {
            say(out, "Ok|");
            preferences(alloc, read, out)
        }
        Err(read) => {
            say(out, "Err|");
            preferences(alloc, read, out)
        }
    }
}

// Says the language and the region.
fn parts(preferences: LocalePreferences, out: &mut String) {
    put(out, &preferences.language());
    say(out, "|");
    put_some(out, &preferences.region())
}

/// Says those that are there by default, of a locale and of formatters.
pub fn default(alloc: Global, out: &mut String) {
    preferences(alloc, LocalePreferences::default(), out);
    say(out, "|");
    formatters::default(out)
}

// Puts `true` into the value of `sd`, which no text means, and says the preferences.
fn of_true(alloc: Global, locale: &mut Locale, out: &mut String) {
    let (Ok(key), Ok(word)) = (UnicodeKey::try_from_str("sd"), Subtag::try_from_str("true")) else {
        return say(out, "no words");
    };
    let Some(value) = locale.extensions.unicode.keywords.get_mut(&key) else {
        return say(out, "no keyword");
    };
    match value.extend(alloc, [word]) {
        Ok(()) => strict(alloc, locale, out),
        Err(_) => refused(out),
    }
}
