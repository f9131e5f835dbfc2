//! What keywords, fields and their extensions are asked, and their steps.
use crate::Rows;
use crate::values::pushes;
use iloc_langid::LanguageIdentifier;
use iloc_subtags::{ParseError, TransformKey, UnicodeKey};
use iloc_transform::{Fields, Transform, Value as FieldValue};
use iloc_unicode::{Keywords, Unicode};
use iloc_word_list::Value;
use iloc_writeable::Writeable;
use std::alloc::{AllocError, Global};
use std::cmp::Ordering;
use test_page::steps::{
    Growing, Setting, Step, fills, has_turn, is_done, says_old, sets, takes_in,
};
use test_page::{Answering, order, put, put_or_none, put_some, say, truth};

// Says whether a value is there, and the value.
fn found<V: Writeable>(out: &mut String, is_there: bool, value: Option<&V>) {
    truth(out, is_there);
    say(out, " ");
    put_or_none(out, value)
}

// Says the pair in brackets.
fn pair<K: Writeable, V: Writeable>(out: &mut String, key: &K, value: &V) {
    say(out, "[");
    put(out, key);
    say(out, "=");
    put(out, value);
    say(out, "]");
}

fn keywords_get(keywords: &Keywords, key: &[u8], out: &mut String) {
    match UnicodeKey::try_from_utf8(key) {
        Ok(key) => found::<Value>(out, keywords.contains_key(&key), keywords.get(&key)),
        Err(_) => say(out, "no key"),
    }
}

// Adds the subtag to the value of the key, if it is there.
fn pushes_at(alloc: Global, keywords: &mut Keywords, key: &[u8], text: &[u8]) -> bool {
    match UnicodeKey::try_from_utf8(key) {
        Ok(key) => match keywords.get_mut(&key) {
            Some(value) => pushes(alloc, value, text),
            None => true,
        },
        Err(_) => false,
    }
}

// Takes the key out, and says its value.
fn removes(keywords: &mut Keywords, key: &[u8], out: &mut String) -> bool {
    match UnicodeKey::try_from_utf8(key) {
        Ok(key) => says_old(out, Ok(keywords.remove(&key))),
        Err(_) => false,
    }
}

// Keeps the keys whose turn has a `1`, and says each that is asked for.
fn retains(keywords: &mut Keywords, turns: &[u8], out: &mut String) -> bool {
    let mut turn = 0usize;
    keywords.retain_by_key(|key: &UnicodeKey| {
        put(out, key);
        has_turn(turns, &mut turn)
    });
    let _ = out.push(' ');
    true
}

impl Growing<Rows, Keywords> for Keywords {
    fn grow(&mut self, alloc: Global, other: Keywords) -> bool {
        is_done(self.extend_from_keywords(alloc, other))
    }
}

impl Setting<Rows, UnicodeKey, Value> for Keywords {
    fn set_at(
        &mut self,
        alloc: Global,
        key: UnicodeKey,
        value: Value,
    ) -> Result<Option<Value>, AllocError> {
        self.set(alloc, key, value)
    }
}

impl Answering<Rows> for Keywords {
    fn read(alloc: Global, text: &[u8]) -> Result<Self, ParseError> {
        Keywords::try_from_utf8(alloc, text)
    }

    fn compare(&self, other: &Self) -> Ordering {
        self.cmp(other)
    }

    fn answer_own(&self, _alloc: Global, call: &str, text: &[u8], out: &mut String) {
        match call {
            "cmp" => order(out, self.strict_cmp(text)),
            "get" => keywords_get(self, text, out),
            "empty" => truth(out, self.is_empty()),
            "each" => {
                for (key, value) in self.iter() {
                    pair(out, key, value);
                }
            }
            "slice" => {
                for (key, value) in self.as_slice() {
                    pair(out, key, value);
                }
            }
            _ => say(out, "no call"),
        }
    }

    fn step(&mut self, step: &Step<'_>, out: &mut String) -> bool {
        let (alloc, first) = (step.alloc, step.first);
        match step.call {
            b"set" => {
                let key = UnicodeKey::try_from_utf8(first);
                let value = Value::try_from_utf8(alloc, step.second);
                sets::<Rows, Keywords, UnicodeKey, Value>(alloc, self, key, value, out)
            }
            b"push" => pushes_at(alloc, self, first, step.second),
            b"extend" => {
                let other = Keywords::try_from_utf8(alloc, first);
                takes_in::<Rows, Keywords, Keywords>(alloc, self, other)
            }
            b"remove" => removes(self, first, out),
            b"retain" => retains(self, first, out),
            _ => says_old(out, Ok(Some(self.clear()))),
        }
    }
}

impl Growing<Rows, Unicode> for Unicode {
    fn grow(&mut self, alloc: Global, other: Unicode) -> bool {
        is_done(self.extend(alloc, other))
    }
}

impl Answering<Rows> for Unicode {
    fn read(alloc: Global, text: &[u8]) -> Result<Self, ParseError> {
        Unicode::try_from_utf8(alloc, text)
    }

    fn compare(&self, other: &Self) -> Ordering {
        self.total_cmp(other)
    }

    fn answer_own(&self, _alloc: Global, call: &str, _text: &[u8], out: &mut String) {
        match call {
            "empty" => truth(out, self.is_empty()),
            "keywords" => put(out, &self.keywords),
            "attributes" => put(out, &self.attributes),
            _ => say(out, "no call"),
        }
    }

    fn step(&mut self, step: &Step<'_>, _out: &mut String) -> bool {
        match step.call {
            b"extend" => {
                let other = Unicode::try_from_utf8(step.alloc, step.first);
                takes_in::<Rows, Unicode, Unicode>(step.alloc, self, other)
            }
            _ => {
                self.clear();
                true
            }
        }
    }
}

fn fields_get(fields: &Fields, key: &[u8], out: &mut String) {
    match TransformKey::try_from_utf8(key) {
        Ok(key) => found::<FieldValue>(out, fields.contains_key(&key), fields.get(&key)),
        Err(_) => say(out, "no key"),
    }
}

// Keeps the fields whose turn has a `1`, and says each key that is asked for.
fn retains_fields(fields: &mut Fields, turns: &[u8], out: &mut String) -> bool {
    let mut turn = 0usize;
    fields.retain_by_key(|key: &TransformKey| {
        put(out, key);
        has_turn(turns, &mut turn)
    });
    let _ = out.push(' ');
    true
}

impl Setting<Rows, TransformKey, FieldValue> for Fields {
    fn set_at(
        &mut self,
        alloc: Global,
        key: TransformKey,
        value: FieldValue,
    ) -> Result<Option<FieldValue>, AllocError> {
        self.set(alloc, key, value)
    }
}

/// Fields are parsed from a transform.
impl Answering<Rows> for Fields {
    fn read(alloc: Global, text: &[u8]) -> Result<Self, ParseError> {
        match Transform::try_from_utf8(alloc, text) {
            Ok(transform) => Ok(transform.fields),
            Err(error) => Err(error),
        }
    }

    fn compare(&self, other: &Self) -> Ordering {
        self.cmp(other)
    }

    fn answer_own(&self, _alloc: Global, call: &str, text: &[u8], out: &mut String) {
        match call {
            "get" => fields_get(self, text, out),
            "empty" => truth(out, self.is_empty()),
            "each" => {
                for (key, value) in self.as_slice() {
                    pair(out, key, value);
                }
            }
            _ => say(out, "no call"),
        }
    }
}

impl Answering<Rows> for Transform {
    fn read(alloc: Global, text: &[u8]) -> Result<Self, ParseError> {
        Transform::try_from_utf8(alloc, text)
    }

    fn compare(&self, other: &Self) -> Ordering {
        self.total_cmp(other)
    }

    fn answer_own(&self, alloc: Global, call: &str, text: &[u8], out: &mut String) {
        match call {
            "none" => truth(out, self.is_empty()),
            "lang" => put_some(out, &self.lang),
            "fields" => put(out, &self.fields),
            _ => self.fields.answer_own(alloc, call, text, out),
        }
    }

    fn step(&mut self, step: &Step<'_>, out: &mut String) -> bool {
        let (alloc, first) = (step.alloc, step.first);
        match step.call {
            b"set" => {
                let fields = &mut self.fields;
                let key = TransformKey::try_from_utf8(first);
                let value = FieldValue::try_from_utf8(alloc, step.second);
                sets::<Rows, Fields, TransformKey, FieldValue>(alloc, fields, key, value, out)
            }
            b"lang" => {
                let read = LanguageIdentifier::try_from_utf8(alloc, first);
                fills(&mut self.lang, read)
            }
            b"retain" => retains_fields(&mut self.fields, first, out),
            b"empty" => {
                self.fields.empty();
                true
            }
            b"nofields" => says_old(out, Ok(Some(self.fields.clear(alloc)))),
            _ => {
                self.clear();
                true
            }
        }
    }
}
