//! Lists that ask other memory than the heap for room.
ghost use Rattle.std.specs.Prelude.{⊤};

use iloc_langid::LanguageIdentifier;
use iloc_locale::Locale;
use iloc_memory::{Memory, Trees};
use iloc_shortvec::{ShortBoxSlice, ShortWords};
use iloc_subtags::{ParseError, Subtag, Variant};
use iloc_word_list::{Value, Variants};
use std::alloc::{AllocError, Global};
use std::collections::BTreeMap;
use std::test::Fail;

/// Memory that grants room for at most so many items.
#[derive(Clone, Copy)]
pub(crate) struct UpTo {
    pub(crate) most: usize,
    pub(crate) heap: Global,
}

impl Memory for UpTo {
    ghost refused = { λ _. ⊤ };

    fn empty<T>(self) -> Vec<T> {
        Vec::new(self.heap)
    }

    fn with_capacity<T>(self, capacity: usize) -> Result<Vec<T>, AllocError> {
        if capacity > self.most {
            return Err(AllocError);
        }
        self.heap.with_capacity(capacity)
    }

    fn reserve<T>(self, list: &mut Vec<T>, additional: usize) -> Result<(), AllocError> {
        if list.len().saturating_add(additional) > self.most {
            return Err(AllocError);
        }
        self.heap.reserve(list, additional)
    }
}

impl Trees for UpTo {
    fn empty_tree<K: Ord, V>(self) -> BTreeMap<K, V> {
        BTreeMap::new(self.heap)
    }

    fn insert_in_tree<K: Ord + Drop, V: Drop>(
        self,
        map: &mut BTreeMap<K, V>,
        key: K,
        value: V,
    ) -> Result<Option<V>, AllocError> {
        if self.most == 0 {
            return Err(AllocError);
        }
        self.heap.insert_in_tree(map, key, value)
    }
}

pub(crate) fn up_to(most: usize, heap: Global) -> UpTo {
    UpTo { most, heap }
}

// The length of the list of 1, 2 and 3: of boxes, and of words with two more.
fn boxes(memory: UpTo) -> Result<usize, AllocError> {
    let mut list = ShortBoxSlice::new_single(2u8);
    list.push_in(memory, 3)?;
    list.insert_in(memory, 0, 1)?;
    Ok(list.len())
}

fn words(memory: UpTo) -> Result<usize, AllocError> {
    let mut list = ShortWords::new();
    list.push_in(memory, 3u8)?;
    list.insert_in(memory, 0, 1)?;
    list.insert_in(memory, 1, 2)?;
    list.push_in(memory, 4)?;
    list.push_in(memory, 5)?;
    Ok(list.len())
}

// How many variants a set of these five has.
fn variants(memory: UpTo) -> Result<usize, AllocError> {
    let mut set = Variants::new();
    for text in ["ccccc", "aaaaa", "eeeee", "bbbbb", "ddddd"] {
        if let Ok(variant) = Variant::try_from_str(text) {
            set.push_in(memory, variant)?;
        }
    }
    Ok(set.len())
}

// How many subtags a value has, of five that are added in three ways.
fn subtags(memory: UpTo) -> Result<usize, AllocError> {
    let Ok(subtag) = Subtag::try_from_str("foo") else {
        return Ok(0);
    };
    let mut value = Value::from_subtags_in(memory, [subtag, subtag])?;
    value.extend_in(memory, [subtag, subtag])?;
    value.push_subtag_in(memory, subtag)?;
    Ok(value.subtag_count())
}

// How many subtags are read, as bytes and as a `str`.
fn read(memory: UpTo, text: &str) -> Result<usize, ParseError> {
    let bytes = Value::try_from_utf8_in(memory, text.as_bytes())?;
    let string = Value::try_from_str_in(memory, text)?;
    Ok(bytes.subtag_count() + string.subtag_count())
}

#[test]
fn lists_ask_for_room_for_their_items(rt: HostRuntime) -> Result<(), Fail> {
    let heap = rt.alloc();
    assert_eq!(rt; boxes(UpTo { most: 1, heap }), Err(AllocError));
    assert_eq!(rt; boxes(UpTo { most: 2, heap }), Err(AllocError));
    assert_eq!(rt; boxes(UpTo { most: 3, heap }), Ok(3));
    assert_eq!(rt; words(UpTo { most: 4, heap }), Err(AllocError));
    assert_eq!(rt; words(UpTo { most: 5, heap }), Ok(5));
    Ok(())
}

#[test]
fn sets_and_values_ask_for_room_for_their_subtags(rt: HostRuntime) -> Result<(), Fail> {
    let four = UpTo {
        most: 4,
        heap: rt.alloc(),
    };
    let five = UpTo {
        most: 5,
        heap: rt.alloc(),
    };
    assert_eq!(rt; variants(four), Err(AllocError));
    assert_eq!(rt; variants(five), Ok(5));
    assert_eq!(rt; subtags(four), Err(AllocError));
    assert_eq!(rt; subtags(five), Ok(5));
    assert_eq!(rt; read(four, "aaa-bbb-ccc-ddd-true"), Ok(8));
    assert_eq!(rt;
        read(four, "aaa-bbb-ccc-ddd-eee"),
        Err(ParseError::OutOfMemory)
    );
    assert_eq!(rt; read(five, "aaa-bbb-ccc-ddd-eee"), Ok(10));
    Ok(())
}

#[test]
fn trees_ask_for_room_for_a_pair(rt: HostRuntime) -> Result<(), Fail> {
    let heap = rt.alloc();
    let mut tree = up_to(0, heap).empty_tree();
    assert_eq!(rt;
        up_to(0, heap).insert_in_tree(&mut tree, 2u8, 3u8),
        Err(AllocError)
    );
    assert_eq!(rt; up_to(1, heap).insert_in_tree(&mut tree, 2, 3), Ok(None));
    assert_eq!(rt; up_to(1, heap).insert_in_tree(&mut tree, 2, 4), Ok(Some(3)));
    Ok(())
}

// How many variants the identifier of a text has, in three ways to read it.
fn identifier(memory: UpTo, text: &str) -> Result<usize, ParseError> {
    let bytes = LanguageIdentifier::try_from_utf8_in(memory, text.as_bytes())?
        .variants
        .len();
    let string = LanguageIdentifier::try_from_str_in(memory, text)?
        .variants
        .len();
    let head = LanguageIdentifier::try_from_locale_bytes_in(memory, text.as_bytes())?;
    Ok(bytes + string + head.variants.len())
}

// How many variants, keywords, fields and other extensions a locale has.
fn parts(locale: &Locale) -> usize {
    let extensions = &locale.extensions;
    let all = locale.id.variants.len();
    let all = all.saturating_add(extensions.unicode.keywords.as_slice().len());
    let all = all.saturating_add(extensions.transform.fields.as_slice().len());
    all.saturating_add(extensions.other.len())
}

fn locale_of_bytes(memory: UpTo, text: &str) -> Result<usize, ParseError> {
    let locale = Locale::try_from_utf8_in(memory, text.as_bytes())?;
    Ok(parts(&locale))
}

fn locale_of_str(memory: UpTo, text: &str) -> Result<usize, ParseError> {
    let locale = Locale::try_from_str_in(memory, text)?;
    Ok(parts(&locale))
}

// The sum of both.
fn locale(memory: UpTo, text: &str) -> Result<usize, ParseError> {
    let bytes = locale_of_bytes(memory, text)?;
    Ok(bytes.saturating_add(locale_of_str(memory, text)?))
}

#[test]
fn identifiers_ask_for_room_for_their_variants(rt: HostRuntime) -> Result<(), Fail> {
    let heap = rt.alloc();
    let five = "en-aaaaa-bbbbb-ccccc-ddddd-eeeee";
    assert_eq!(rt; identifier(up_to(0, heap), "en-Latn-US-aaaaa"), Ok(3));
    assert_eq!(rt;
        identifier(up_to(4, heap), five),
        Err(ParseError::OutOfMemory)
    );
    assert_eq!(rt; identifier(up_to(5, heap), five), Ok(15));
    Ok(())
}

#[test]
fn locales_ask_for_room_for_their_parts(rt: HostRuntime) -> Result<(), Fail> {
    let heap = rt.alloc();
    assert_eq!(rt; locale(up_to(0, heap), "en-u-ca-buddhist"), Ok(2));
    for (text, most, parts) in [
        ("en-aaaaa-bbbbb-ccccc-ddddd-eeeee", 5, 5),
        ("en-u-ca-buddhist-nu-latn", 2, 2),
        ("en-t-a0-foo", 1, 1),
        ("en-a-foo", 1, 1),
        ("en-a-foo-b-bar-x-foo", 2, 2),
    ] {
        assert_eq!(rt;
            locale(up_to(most - 1, heap), text),
            Err(ParseError::OutOfMemory)
        );
        assert_eq!(rt; locale(up_to(most, heap), text), Ok(2 * parts));
    }
    Ok(())
}
