//! What calls answer of a keyword. Only the generic functions here own one.
use iloc_keyword_types::{
    CalendarAlgorithm, DictionaryBreakScriptExclusions, KeywordKind, PreferenceKey,
    PreferencesParseError, SingleKeyword, SubtagContent,
};
use iloc_subtags::{CurrencyType, UnicodeKey};
use iloc_word_list::Value;
use iloc_writeable::Writeable;
use std::alloc::Global;
use std::fmt::Write;
use test_page::{put, put_some, refused, say};

/// What a row asks of a keyword: `read`, `value`, `keyed` or `own`, or nothing for the first three.
#[derive(Drop)]
pub struct Asked<'a> {
    pub alloc: Global,
    pub call: &'a str,
    pub value: &'a Value,
    pub key: UnicodeKey,
}

/// A keyword that has a text.
pub trait Shown: PreferenceKey {
    /// Says its text.
    fn show(&self, out: &mut String);
}

impl Shown for CalendarAlgorithm {
    fn show(&self, out: &mut String) {
        say(out, self.as_str())
    }
}

impl Shown for CurrencyType {
    fn show(&self, out: &mut String) {
        say(out, self.iso_code().as_str())
    }
}

impl<K: KeywordKind, T: SubtagContent + Writeable> Shown for SingleKeyword<K, T> {
    fn show(&self, out: &mut String) {
        put(out, self.as_inner())
    }
}

impl Shown for DictionaryBreakScriptExclusions {
    fn show(&self, out: &mut String) {
        for script in self.as_inner() {
            put(out, script);
            say(out, " ");
        }
    }
}

/// Says the words of the refusal, and what it prints.
pub fn refuse_keyword(out: &mut String, error: &PreferencesParseError) {
    say(out, "! ");
    say(out, error.words());
    say(out, " | ");
    let _ = write!(out, "{error}");
}

/// Says the text of the default.
pub fn default_of<T: Shown + Default + Drop>(out: &mut String) {
    let keyword = T::default();
    keyword.show(out)
}

/// Says what is asked of the keyword, or why it was refused.
pub fn answer_parsed<T: Shown + Drop>(
    read: Result<T, PreferencesParseError>,
    asked: &Asked<'_>,
    out: &mut String,
) {
    match read {
        Ok(keyword) => answer(&keyword, asked, out),
        Err(error) => refuse_call(asked, &error, out),
    }
}

// Says what one call answers of the keyword; of no call its text, its value, and what is parsed under the other key.
fn answer<T: Shown + Drop>(keyword: &T, asked: &Asked<'_>, out: &mut String) {
    match asked.call {
        "read" => keyword.show(out),
        "value" => turned(keyword, asked.alloc, out),
        "keyed" => keyed::<T>(asked, out),
        "own" => put_some(out, &T::unicode_extension_key()),
        _ => {
            keyword.show(out);
            say(out, " | ");
            turned(keyword, asked.alloc, out);
            say(out, " | ");
            keyed::<T>(asked, out)
        }
    }
}

// Says why one call was refused: out of memory in the words that every parser has.
fn refuse_call(asked: &Asked<'_>, error: &PreferencesParseError, out: &mut String) {
    if !asked.call.is_empty() && matches!(error, PreferencesParseError::OutOfMemory) {
        refused(out)
    } else {
        refuse_keyword(out, error)
    }
}

// Says the value that the keyword is turned into.
fn turned<T: Shown>(keyword: &T, alloc: Global, out: &mut String) {
    match keyword.unicode_extension_value(alloc) {
        Ok(Some(value)) => put(out, &value),
        Ok(None) => say(out, "none"),
        Err(_) => refused(out),
    }
}

// Says what is parsed from the value under the other key.
fn keyed<T: Shown + Drop>(asked: &Asked<'_>, out: &mut String) {
    match T::try_from_key_value(asked.alloc, &asked.key, asked.value) {
        Ok(Some(keyword)) => keyword.show(out),
        Ok(None) => say(out, "none"),
        Err(error) => refuse_call(asked, &error, out),
    }
}
