//! What steps put into identifiers, locales and extensions. Some build what no text means.
use crate::Rows;
use iloc_data::DataLocale;
use iloc_extensions::{ExtensionType, Extensions};
use iloc_locale::Locale;
use iloc_other::Other;
use iloc_subtags::{ParseError, SubtagKind, UnicodeKey, VariantKind};
use iloc_unicode::Keywords;
use iloc_word_list::{Value, Variants, is_strictly_ascending};
use std::alloc::Global;
use std::cmp::Ordering;
use std::hash::Hash;
use test_page::steps::{Growing, Step, has_turn, says_old, takes_in, words};
use test_page::{hash_of, order, refuse, say, truth};

/// The variants of the text, which have to ascend.
pub fn variants(alloc: Global, text: &[u8]) -> Result<Variants, ParseError> {
    let words = words::<VariantKind, 8>(alloc, text)?;
    if is_strictly_ascending(words.as_slice()) {
        Ok(Variants::from_vec_unchecked(words))
    } else {
        Err(ParseError::InvalidSubtag)
    }
}

// Another extension of the singleton, which holds the words of the text as they stand.
fn other(alloc: Global, singleton: &[u8], text: &[u8]) -> Result<Other, ParseError> {
    match singleton {
        [byte] if byte.is_ascii_alphanumeric() => {
            let words = words::<SubtagKind, 8>(alloc, text)?;
            Ok(Other::from_vec_unchecked(*byte, words))
        }
        _ => Err(ParseError::InvalidExtension),
    }
}

// The value that holds the words of the text as they stand.
fn value(alloc: Global, text: &[u8]) -> Result<Value, ParseError> {
    let words = words::<SubtagKind, 8>(alloc, text)?;
    Ok(Value::from_vec_unchecked(words))
}

impl Growing<Rows, Other> for Extensions {
    fn grow(&mut self, _alloc: Global, other: Other) -> bool {
        self.other.push(other).is_ok()
    }
}

/// Puts another extension in.
pub fn others(extensions: &mut Extensions, step: &Step<'_>) -> bool {
    let other = other(step.alloc, step.first, step.second);
    takes_in::<Rows, Extensions, Other>(step.alloc, extensions, other)
}

/// Sets a keyword, and says its old value.
pub fn keyword(keywords: &mut Keywords, step: &Step<'_>, out: &mut String) -> bool {
    match (
        UnicodeKey::try_from_utf8(step.first),
        value(step.alloc, step.second),
    ) {
        (Ok(key), Ok(value)) => says_old(out, keywords.set(step.alloc, key, value)),
        _ => false,
    }
}

// Says the kind.
fn kind(out: &mut String, kind: ExtensionType) {
    let _ = write!(out, "{kind:?} ");
}

/// Keeps the extensions whose turn has a `1`, and says each kind that is asked for.
pub fn retains(extensions: &mut Extensions, turns: &[u8], out: &mut String) -> bool {
    let mut turn = 0usize;
    extensions.retain_by_type(|asked: ExtensionType| {
        kind(out, asked);
        has_turn(turns, &mut turn)
    });
    true
}

/// What is compared between steps. It is no part of `Answering`, whose steps ask for it.
pub trait Compared: PartialEq + Hash + Drop + Sized {
    /// The order of the two.
    fn order_with(&self, other: &Self) -> Ordering;
}

impl Compared for Locale {
    fn order_with(&self, other: &Self) -> Ordering {
        self.total_cmp(other)
    }
}

impl Compared for DataLocale {
    fn order_with(&self, other: &Self) -> Ordering {
        self.total_cmp(other)
    }
}

/// Says the order of the value and of what was parsed, whether they are equal, and if they are whether their hashes
/// are; a blank stands after it.
pub fn says_same<W: Compared>(one: &W, other: Result<W, ParseError>, out: &mut String) {
    match other {
        Ok(other) => {
            let are_equal = *one == other;
            order(out, one.order_with(&other));
            say(out, if are_equal { " true " } else { " false " });
            if are_equal {
                truth(out, hash_of(one) == hash_of(&other));
                say(out, " ")
            }
        }
        Err(error) => {
            refuse(out, error);
            say(out, " ")
        }
    }
}
