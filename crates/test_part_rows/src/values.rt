//! What values, attributes, private words and other extensions are asked, and their steps.
use crate::Rows;
use iloc_other::{Other, Private};
use iloc_subtags::{ParseError, Subtag, SubtagKind, WordKind, WordOf};
use iloc_transform::Value as FieldValue;
use iloc_unicode::Attributes;
use iloc_word_list::Value;
use std::alloc::Global;
use std::cmp::Ordering;
use std::str;
use test_page::argument::number_of;
use test_page::steps::{Growing, Step, is_done, says_old, takes_in, words as words_of};
use test_page::{Answering, number, put, put_or_none, say, truth};

/// Says the words, each in brackets.
pub fn words<K: WordKind<N>, const N: usize>(out: &mut String, words: &[WordOf<K, N>]) {
    for word in words {
        say(out, "[");
        put(out, word);
        say(out, "]");
    }
}

// Says how many there are, whether there is none, and the first.
fn counted<K: WordKind<N>, const N: usize>(
    out: &mut String,
    count: usize,
    is_empty: bool,
    first: Option<&WordOf<K, N>>,
) {
    number(out, count);
    say(out, " ");
    truth(out, is_empty);
    say(out, " ");
    put_or_none(out, first);
    say(out, " ");
}

// What attributes and private words are asked: these have no trait in common.
macro_rules! answer_words {
    ($list:expr, $call:expr, $text:expr, $out:expr) => {
        match $call {
            "list" => {
                counted($out, $list.len(), $list.is_empty(), $list.first());
                words($out, $list.as_slice())
            }
            "at" => put_or_none($out, $list.get(number_of($text))),
            "each" => words($out, $list.iter().as_slice()),
            _ => say($out, "no call"),
        }
    };
}

impl Growing<Rows, Attributes> for Attributes {
    fn grow(&mut self, alloc: Global, other: Attributes) -> bool {
        is_done(self.extend_from_attributes(alloc, other))
    }
}

impl Answering<Rows> for Attributes {
    fn read(alloc: Global, text: &[u8]) -> Result<Self, ParseError> {
        Attributes::try_from_utf8(alloc, text)
    }

    fn compare(&self, other: &Self) -> Ordering {
        self.cmp(other)
    }

    fn answer_own(&self, _alloc: Global, call: &str, text: &[u8], out: &mut String) {
        answer_words!(self, call, text, out)
    }

    fn step(&mut self, step: &Step<'_>, out: &mut String) -> bool {
        match step.call {
            b"extend" => {
                let other = Attributes::try_from_utf8(step.alloc, step.first);
                takes_in::<Rows, Attributes, Attributes>(step.alloc, self, other)
            }
            _ => says_old(out, Ok(Some(self.clear()))),
        }
    }
}

impl Answering<Rows> for Private {
    fn read(alloc: Global, text: &[u8]) -> Result<Self, ParseError> {
        Private::try_from_utf8(alloc, text)
    }

    fn compare(&self, other: &Self) -> Ordering {
        self.cmp(other)
    }

    fn answer_own(&self, _alloc: Global, call: &str, text: &[u8], out: &mut String) {
        answer_words!(self, call, text, out)
    }

    fn step(&mut self, _step: &Step<'_>, _out: &mut String) -> bool {
        self.clear();
        true
    }
}

// Whether the value prints exactly the text.
fn is_text(value: &Value, text: &[u8]) -> bool {
    match str::from_utf8(text) {
        Ok(text) => value.eq_str(text),
        Err(_) => false,
    }
}

/// Adds the subtag of the text; false if something was refused.
pub fn pushes(alloc: Global, value: &mut Value, text: &[u8]) -> bool {
    match Subtag::try_from_utf8(text) {
        Ok(subtag) => is_done(value.push_subtag(alloc, subtag)),
        Err(_) => false,
    }
}

impl Growing<Rows, Vec<Subtag>> for Value {
    fn grow(&mut self, alloc: Global, other: Vec<Subtag>) -> bool {
        is_done(self.extend(alloc, other))
    }
}

impl Answering<Rows> for Value {
    fn read(alloc: Global, text: &[u8]) -> Result<Self, ParseError> {
        Value::try_from_utf8(alloc, text)
    }

    fn compare(&self, other: &Self) -> Ordering {
        self.cmp(other)
    }

    fn answer_own(&self, _alloc: Global, call: &str, text: &[u8], out: &mut String) {
        match call {
            "list" => {
                let only = self.as_single_subtag();
                counted(out, self.subtag_count(), self.is_empty(), only);
                words(out, self.as_subtags_slice())
            }
            "at" => put_or_none(out, self.get_subtag(number_of(text))),
            "eq" => truth(out, is_text(self, text)),
            _ => say(out, "no call"),
        }
    }

    fn step(&mut self, step: &Step<'_>, out: &mut String) -> bool {
        match step.call {
            b"push" => pushes(step.alloc, self, step.first),
            b"extend" => {
                let other = words_of::<SubtagKind, 8>(step.alloc, step.first);
                takes_in::<Rows, Value, Vec<Subtag>>(step.alloc, self, other)
            }
            _ => says_old(out, Ok(self.remove_subtag(number_of(step.first)))),
        }
    }
}

impl Answering<Rows> for FieldValue {
    fn read(alloc: Global, text: &[u8]) -> Result<Self, ParseError> {
        FieldValue::try_from_utf8(alloc, text)
    }

    fn compare(&self, other: &Self) -> Ordering {
        self.cmp(other)
    }

    fn answer_own(&self, _alloc: Global, call: &str, _text: &[u8], out: &mut String) {
        match call {
            "list" => words(out, self.as_slice()),
            _ => say(out, "no call"),
        }
    }
}

impl Answering<Rows> for Other {
    fn read(alloc: Global, text: &[u8]) -> Result<Self, ParseError> {
        Other::try_from_utf8(alloc, text)
    }

    fn compare(&self, other: &Self) -> Ordering {
        self.cmp(other)
    }

    fn answer_own(&self, _alloc: Global, call: &str, _text: &[u8], out: &mut String) {
        match call {
            "list" => {
                say(out, self.get_ext_str());
                let _ = out.push(self.get_ext());
                number(out, usize::from(self.get_ext_byte()));
                say(out, " ");
                words(out, self.as_slice())
            }
            _ => say(out, "no call"),
        }
    }
}
