//! Steps on a set of variants. Several words in one step have slashes between.
use crate::steps::{Step, Stepping, Verb, answered, compared, is_done, replaced};
use iloc_subtags::Variant;
use iloc_word_list::{Variants, WordSet, is_strictly_ascending};
use iloc_writeable::Writeable;
use std::alloc::{AllocError, Global};
use test_page::{number, put, put_or_none, say};

/// The variants of the text, in its order; pieces that are none are left out.
fn variants_of(alloc: Global, text: &[u8]) -> Result<Vec<Variant>, AllocError> {
    let mut words = Vec::new(alloc);
    for piece in text.split(|byte: &u8| *byte == b'/') {
        if let Ok(word) = Variant::try_from_utf8(piece) {
            words.push(word)?;
        }
    }
    Ok(words)
}

/// Adds the variants of the text one by one.
fn push_all(alloc: Global, set: &mut Variants, text: &[u8]) -> Result<(), AllocError> {
    for piece in text.split(|byte: &u8| *byte == b'/') {
        if let Ok(word) = Variant::try_from_utf8(piece) {
            set.push(alloc, word)?;
        }
    }
    Ok(())
}

/// The set of the variants of the text, pushed one by one.
pub fn set_of(alloc: Global, text: &[u8]) -> Result<Variants, AllocError> {
    let mut set = Variants::new();
    match push_all(alloc, &mut set, text) {
        Ok(()) => Ok(set),
        Err(error) => Err(error),
    }
}

/// The set of the variants of the text, which ascend; else the empty one.
fn ascending(alloc: Global, text: &[u8]) -> Result<Variants, AllocError> {
    let words = variants_of(alloc, text)?;
    if is_strictly_ascending(words.as_slice()) {
        Ok(WordSet::from_vec_unchecked(words))
    } else {
        Ok(Variants::default())
    }
}

/// Adds the variants of the text at once.
fn extend(alloc: Global, set: &mut Variants, text: &[u8]) -> Result<(), AllocError> {
    let other = set_of(alloc, text)?;
    set.extend(alloc, &other)
}

/// The set that the call makes: with the variants of the text, of just them, or a copy, by `clone` or by a union.
fn made(alloc: Global, set: &Variants, call: Verb, text: &[u8]) -> Result<Variants, AllocError> {
    match call {
        Verb::Union => set.union(alloc, &set_of(alloc, text)?),
        Verb::Vec => ascending(alloc, text),
        Verb::Clone => set.clone(),
        _ => Variants::new().union(alloc, set),
    }
}

/// Says what the set lends: whether it is empty, its first word, each of seven places, all in turn, and its text.
fn describe(set: &Variants, out: &mut String) {
    if set.is_empty() {
        say(out, "empty ");
    }
    say(out, "first ");
    put_or_none(out, set.first());
    for index in 0..7 {
        say(out, " ");
        put_or_none(out, set.get(index));
    }
    say(out, " lent ");
    for word in set.iter() {
        put(out, word);
    }
    say(out, " text ");
    say(out, set.writeable_borrow().unwrap_or("none"));
    let _ = write!(out, " {set:?}");
}

/// The answer to a step with a word.
fn with_word(
    alloc: Global,
    set: &mut Variants,
    step: &Step<'_>,
    word: Variant,
    out: &mut String,
) -> bool {
    match step.call {
        Verb::Word => replaced(set, Ok(WordSet::from_word(word)), out),
        Verb::Variant => replaced(set, Ok(Variants::from_variant(word)), out),
        Verb::Push => match set.push(alloc, word) {
            Ok(is_new) => answered(if is_new { "new" } else { "known" }, out),
            Err(_) => false,
        },
        _ => answered(if set.remove(&word) { "gone" } else { "absent" }, out),
    }
}

impl Stepping for Variants {
    fn state(&self, out: &mut String) {
        number(out, self.len());
        say(out, ":");
        put(out, self);
    }

    fn ends(&self, out: &mut String) {
        let count = self.len();
        number(out, count);
        for place in [0, count.saturating_sub(1)] {
            say(out, " ");
            if let Some(word) = self.get(place) {
                put(out, word);
            }
        }
    }

    fn step(&mut self, alloc: Global, step: &Step<'_>, out: &mut String) -> bool {
        match step.call {
            Verb::Push | Verb::Remove | Verb::Word | Verb::Variant => {
                match Variant::try_from_utf8(step.text) {
                    Ok(word) => with_word(alloc, self, step, word, out),
                    Err(_) => answered("no word", out),
                }
            }
            Verb::Extend => is_done(extend(alloc, self, step.text), out),
            Verb::Union | Verb::Vec | Verb::Clone => {
                let made = made(alloc, self, step.call, step.text);
                replaced(self, made, out)
            }
            Verb::Fresh => compared(self, made(alloc, self, Verb::Fresh, b""), out),
            Verb::Clear => {
                let old = self.clear();
                old.state(out);
                true
            }
            Verb::Slice => {
                for word in self.as_slice() {
                    put(out, word);
                    say(out, " ");
                }
                true
            }
            _ => {
                describe(self, out);
                true
            }
        }
    }
}
