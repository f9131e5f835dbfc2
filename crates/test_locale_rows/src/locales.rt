//! What locales and their extensions are asked, and their steps.
use crate::Rows;
use crate::changes::{keyword, others, retains, says_same};
use crate::identifiers::{debug, says_truth};
use iloc_data::DataLocale;
use iloc_extensions::{Extensions, is_well_formed};
use iloc_locale::{Locale, OrderedLocale, every_locale_is_a_value};
use iloc_subtags::ParseError;
use iloc_writeable::Writeable;
use std::alloc::Global;
use std::cmp::Ordering;
use std::str;
use test_page::answering::whole;
use test_page::steps::Step;
use test_page::{Answering, Ask, Call, order, put, refuse, refused, say, truth};

// Says whether the text means the locale, or that an allocation failed.
fn means(alloc: Global, locale: &Locale, text: &[u8], out: &mut String) {
    let Ok(text) = str::from_utf8(text) else {
        return say(out, "no text");
    };
    match locale.normalizing_eq(alloc, text) {
        Ok(is_meant) => truth(out, is_meant),
        Err(_) => refused(out),
    }
}

// Says what is asked of the locale between steps.
fn says(locale: &Locale, step: &Step<'_>, out: &mut String) {
    match step.call {
        b"cmp" => order(out, locale.strict_cmp(step.first)),
        b"empty" => truth(out, locale.extensions.is_empty()),
        b"lent" => say(out, locale.writeable_borrow().unwrap_or("none")),
        _ => {
            every_locale_is_a_value(locale);
            truth(out, locale.is_well_formed())
        }
    }
    say(out, " ")
}

impl Answering<Rows> for Locale {
    fn read(alloc: Global, text: &[u8]) -> Result<Self, ParseError> {
        Locale::try_from_utf8(alloc, text)
    }

    fn compare(&self, other: &Self) -> Ordering {
        self.total_cmp(other)
    }

    fn answer_own(&self, alloc: Global, call: &str, text: &[u8], out: &mut String) {
        match call {
            "cmp" => order(out, self.strict_cmp(text)),
            "means" => means(alloc, self, text, out),
            "versus" => {
                order(out, self.strict_cmp(text));
                say(out, " ");
                means(alloc, self, text, out)
            }
            "debug" => debug(out, self),
            "written" => whole(out, self.write_to_string(alloc)),
            "id" => put(out, self.as_langid()),
            "extensions" => put(out, &self.extensions),
            "data" => put(out, &DataLocale::from(self)),
            "well" => truth(out, self.is_well_formed()),
            _ => say(out, "no call"),
        }
    }

    fn step(&mut self, step: &Step<'_>, out: &mut String) -> bool {
        match step.call {
            b"other" => others(&mut self.extensions, step),
            b"keyword" => keyword(&mut self.extensions.unicode.keywords, step, out),
            b"retain" => retains(&mut self.extensions, step.first, out),
            b"parent" => says_truth(out, self.truncate_to_parent()),
            b"noprivate" => {
                self.extensions.private.clear();
                true
            }
            b"same" => {
                says_same(self, Locale::try_from_utf8(step.alloc, step.first), out);
                true
            }
            b"cmp" | b"empty" | b"lent" | b"well" => {
                says(self, step, out);
                true
            }
            _ => self.id.step(step, out),
        }
    }
}

/// Extensions are parsed from a locale.
impl Answering<Rows> for Extensions {
    fn read(alloc: Global, text: &[u8]) -> Result<Self, ParseError> {
        match Locale::try_from_utf8(alloc, text) {
            Ok(locale) => Ok(locale.extensions),
            Err(error) => Err(error),
        }
    }

    fn compare(&self, other: &Self) -> Ordering {
        self.total_cmp(other)
    }

    fn answer_own(&self, _alloc: Global, call: &str, _text: &[u8], out: &mut String) {
        match call {
            "empty" => truth(out, self.is_empty()),
            "well" => truth(out, is_well_formed(self)),
            _ => say(out, "no call"),
        }
    }
}

// The key of a sorted map that is parsed from the text.
fn key(alloc: Global, text: &[u8]) -> Result<OrderedLocale, ParseError> {
    match Locale::try_from_utf8(alloc, text) {
        Ok(locale) => Ok(OrderedLocale { locale }),
        Err(error) => Err(error),
    }
}

fn both_keys<K: Ord + Drop>(
    one: Result<K, ParseError>,
    other: Result<K, ParseError>,
    out: &mut String,
) {
    match (&one, &other) {
        (Ok(one), Ok(other)) => {
            order(out, one.cmp(other));
            say(out, " ");
            truth(out, one == other)
        }
        _ => say(out, "no locale"),
    }
}

// Says how the key compares with a copy of it.
fn copied_key<K: Ord + Clone + Drop>(read: Result<K, ParseError>, out: &mut String) {
    match read {
        Ok(key) => match key.clone() {
            Ok(copy) => both_keys(Ok(key), Ok(copy), out),
            Err(_) => refused(out),
        },
        Err(error) => refuse(out, error),
    }
}

/// Says how two locales compare as keys of a sorted map, or how the first compares with a copy of it.
pub fn keys(ask: Ask<'_>, call: &Call<'_>, out: &mut String) {
    let one = key(call.alloc, call.first);
    match ask {
        Ask::One("copy") => copied_key(one, out),
        _ => both_keys(one, key(call.alloc, call.second), out),
    }
}
