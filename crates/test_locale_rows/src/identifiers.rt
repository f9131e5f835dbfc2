//! What identifiers, data locales and subdivisions are asked, and their steps.
use crate::Rows;
use crate::changes::{says_same, variants};
use iloc_data::DataLocale;
use iloc_keyword_types::SubdivisionId;
use iloc_langid::{LanguageIdentifier, Lowercase};
use iloc_locale::Locale;
use iloc_subtags::{Language, ParseError, Region, Script, Subtag};
use iloc_writeable::{Pieces, Writeable};
use std::alloc::Global;
use std::cmp::Ordering;
use std::{fmt, str};
use test_page::answering::{answer_parsed, whole};
use test_page::steps::{Step, fills, replaces};
use test_page::{Answering, order, put, put_some, refuse, say, truth};

/// Says what the value shows where it is looked into.
pub fn debug<W: fmt::Debug>(out: &mut String, value: &W) {
    let _ = write!(out, "{value:?}");
}

// Says language, script and region, with bars between them.
fn front(out: &mut String, parts: &(Language, Option<Script>, Option<Region>)) {
    let (language, script, region) = parts;
    put(out, language);
    say(out, "|");
    put_some(out, script);
    say(out, "|");
    put_some(out, region);
}

// Says whether it is so, which ends here.
pub fn says_truth(out: &mut String, is_so: bool) -> bool {
    truth(out, is_so);
    say(out, " ");
    true
}

// Says how the data locale compares with the one of the text.
fn beside_text(data: &DataLocale, text: &[u8], out: &mut String) {
    match DataLocale::try_from_utf8(text) {
        Ok(other) => {
            order(out, data.total_cmp(&other));
            say(out, " ");
            truth(out, *data == other)
        }
        Err(error) => refuse(out, error),
    }
}

impl Answering<Rows> for LanguageIdentifier {
    fn read(alloc: Global, text: &[u8]) -> Result<Self, ParseError> {
        LanguageIdentifier::try_from_utf8(alloc, text)
    }

    fn compare(&self, other: &Self) -> Ordering {
        self.total_cmp(other)
    }

    fn answer_own(&self, alloc: Global, call: &str, text: &[u8], out: &mut String) {
        match call {
            "written" => whole(out, self.write_to_string(alloc)),
            "cmp" => order(out, self.strict_cmp(text)),
            "means" => match str::from_utf8(text) {
                Ok(text) => truth(out, self.normalizing_eq(text)),
                Err(_) => say(out, "no text"),
            },
            "debug" => debug(out, self),
            "front" => front(
                out,
                &<(Language, Option<Script>, Option<Region>)>::from(self),
            ),
            "lower" => {
                let _ = Lowercase(self).write_joined(out);
            }
            "data" => put(out, &DataLocale::from(self)),
            "same" => beside_text(&DataLocale::from(self), text, out),
            "unknown" => truth(out, self.is_unknown()),
            _ => say(out, "no call"),
        }
    }

    fn step(&mut self, step: &Step<'_>, out: &mut String) -> bool {
        match step.call {
            b"language" => replaces(&mut self.language, Language::try_from_utf8(step.first)),
            b"script" => fills(&mut self.script, Script::try_from_utf8(step.first)),
            b"region" => fills(&mut self.region, Region::try_from_utf8(step.first)),
            b"parent" => says_truth(out, self.truncate_to_parent()),
            b"clear" => {
                self.clear();
                true
            }
            _ => replaces(&mut self.variants, variants(step.alloc, step.first)),
        }
    }
}

// Says the text of the value, which ends here.
fn put_last<W: Writeable + Drop>(out: &mut String, value: W) {
    put(out, &value)
}

// Says the locale of the data locale, and whether it is well-formed.
fn locale_of(alloc: Global, data: &DataLocale, out: &mut String) {
    answer_parsed::<Rows, Locale>(alloc, Ok(data.into_locale(alloc)), "", b"", out);
    say(out, " ");
    answer_parsed::<Rows, Locale>(alloc, Ok(data.into_locale(alloc)), "well", b"", out);
    say(out, " ")
}

impl Answering<Rows> for DataLocale {
    fn read(_alloc: Global, text: &[u8]) -> Result<Self, ParseError> {
        DataLocale::try_from_utf8(text)
    }

    fn compare(&self, other: &Self) -> Ordering {
        self.total_cmp(other)
    }

    fn answer_own(&self, alloc: Global, call: &str, text: &[u8], out: &mut String) {
        match call {
            "cmp" => order(out, self.strict_cmp(text)),
            "debug" => debug(out, self),
            "parts" => {
                put_some(out, &self.region);
                say(out, "|");
                put_some(out, &self.subdivision)
            }
            "locale" => put_last(out, self.into_locale(alloc)),
            "unknown" => truth(out, self.is_unknown()),
            _ => say(out, "no call"),
        }
    }

    fn step(&mut self, step: &Step<'_>, out: &mut String) -> bool {
        match step.call {
            b"region" => fills(&mut self.region, Region::try_from_utf8(step.first)),
            b"subdivision" => fills(&mut self.subdivision, Subtag::try_from_utf8(step.first)),
            b"parent" => says_truth(out, self.truncate_to_parent()),
            b"nosubdivision" => {
                self.subdivision = None;
                true
            }
            b"locale" => {
                locale_of(step.alloc, self, out);
                true
            }
            _ => {
                says_same(self, DataLocale::try_from_utf8(step.first), out);
                true
            }
        }
    }
}

impl Answering<Rows> for SubdivisionId {
    fn read(_alloc: Global, text: &[u8]) -> Result<Self, ParseError> {
        SubdivisionId::try_from_utf8(text)
    }

    fn compare(&self, other: &Self) -> Ordering {
        self.cmp(other)
    }

    fn answer_own(&self, _alloc: Global, call: &str, _text: &[u8], out: &mut String) {
        match call {
            "parts" => {
                put(out, &self.region);
                say(out, "|");
                put(out, &self.suffix)
            }
            "subtag" => put(out, &self.into_subtag()),
            _ => say(out, "no call"),
        }
    }
}
