//! Parts and texts that ask other memory than the heap for room, and locales and texts that are never refused any.

use crate::memory::{UpTo, up_to};
use iloc_data::LocalePreferences;
use iloc_extensions::Extensions;
use iloc_json::{JsonError, JsonText};
use iloc_langid::LanguageIdentifier;
use iloc_litemap::{GrowingStore, LiteMap};
use iloc_locale::{Locale, ample_memory, ample_normalizing, ample_printing};
use iloc_memory::{Ample, Memory};
use iloc_other::{Other, Private};
use iloc_shortvec::ShortBoxSlice;
use iloc_subtags::{ParseError, UnicodeKey};
use iloc_transform::{Fields, Key, Transform, Value};
use iloc_unicode::{Attributes, Keywords, Unicode};
use iloc_word_list::Value as Subtags;
use iloc_writeable::{Writeable, to_string_or_borrow_in};
use std::alloc::{AllocError, Global};
use std::process::Abort;
use std::test::Fail;

// Each counts what a text is parsed as, from bytes and from a `str`.

fn attributes(memory: UpTo, text: &str) -> Result<usize, ParseError> {
    let bytes = Attributes::try_from_utf8_in(memory, text.as_bytes())?
        .as_slice()
        .len();
    let string = Attributes::try_from_str_in(memory, text)?.as_slice().len();
    Ok(bytes + string)
}

fn keywords(memory: UpTo, text: &str) -> Result<usize, ParseError> {
    let bytes = Keywords::try_from_utf8_in(memory, text.as_bytes())?
        .as_slice()
        .len();
    let string = Keywords::try_from_str_in(memory, text)?.as_slice().len();
    Ok(bytes + string)
}

fn unicode(memory: UpTo, text: &str) -> Result<usize, ParseError> {
    let bytes = Unicode::try_from_utf8_in(memory, text.as_bytes())?
        .keywords
        .as_slice()
        .len();
    let string = Unicode::try_from_str_in(memory, text)?
        .attributes
        .as_slice()
        .len();
    Ok(bytes + string)
}

fn transform(memory: UpTo, text: &str) -> Result<usize, ParseError> {
    let bytes = Transform::try_from_utf8_in(memory, text.as_bytes())?
        .fields
        .as_slice()
        .len();
    let string = Transform::try_from_str_in(memory, text)?
        .fields
        .as_slice()
        .len();
    Ok(bytes + string)
}

fn value(memory: UpTo, text: &str) -> Result<usize, ParseError> {
    let bytes = Value::try_from_utf8_in(memory, text.as_bytes())?
        .as_slice()
        .len();
    let string = Value::try_from_str_in(memory, text)?.as_slice().len();
    Ok(bytes + string)
}

fn other(memory: UpTo, text: &str) -> Result<usize, ParseError> {
    let bytes = Other::try_from_utf8_in(memory, text.as_bytes())?
        .as_slice()
        .len();
    let string = Other::try_from_str_in(memory, text)?.as_slice().len();
    Ok(bytes + string)
}

fn private(memory: UpTo, text: &str) -> Result<usize, ParseError> {
    let bytes = Private::try_from_utf8_in(memory, text.as_bytes())?.len();
    let string = Private::try_from_str_in(memory, text)?.len();
    Ok(bytes + string)
}

// How many of three fields with two keys are set, in a part that begins empty.
fn fields(memory: UpTo) -> Result<usize, ParseError> {
    let mut fields = Fields::new_in(memory);
    for key in ["a0", "b1", "a0"] {
        let value = Value::try_from_str_in(memory, "foo")?;
        fields.set_in(memory, Key::try_from_str(key)?, value)?;
    }
    let mut transform = Transform::new_in(memory);
    transform.fields = fields;
    Ok(transform.fields.as_slice().len())
}

// How many of three keywords with two keys are set, in an extension that begins empty.
fn set_keywords(memory: UpTo) -> Result<usize, ParseError> {
    let mut unicode = Unicode::new();
    for key in ["ca", "nu", "ca"] {
        let value = Subtags::try_from_str_in(memory, "foo")?;
        let key = UnicodeKey::try_from_str(key)?;
        unicode.keywords.set_in(memory, key, value)?;
    }
    let extensions = Extensions::from_unicode_in(memory, unicode);
    Ok(extensions.unicode.keywords.as_slice().len())
}

// Whether the locale of the preferences is that which the text means.
fn preferred(memory: UpTo, text: &str) -> Result<bool, ParseError> {
    let locale = Locale::try_from_str(memory.heap, text)?;
    let preferred = LocalePreferences::from(&locale).to_locale_in(memory)?;
    Ok(preferred == locale)
}

// Whether the JSON string of what the text means is read as that.
fn stored(written: UpTo, read: UpTo, text: &str) -> Result<bool, JsonError> {
    let locale = Locale::try_from_str(written.heap, text)?;
    let json = locale.to_json_in(written)?;
    let again = Locale::from_json_in(read, &json)?;
    Ok(again == locale)
}

// How many pairs a map of two keys has, and a list of two pairs.
fn pairs(memory: UpTo) -> Result<usize, AllocError> {
    let mut map: LiteMap<u8, u8, ShortBoxSlice<(u8, u8)>> = LiteMap::new(memory.heap);
    map.insert_in(memory, 2, 0)?;
    map.insert_in(memory, 1, 0)?;
    map.try_insert_in(memory, 1, 1)?;
    let mut list: Vec<(u8, u8)> = memory.empty();
    list.lm_insert_in(memory, 0, 2, 0)?;
    list.lm_insert_in(memory, 0, 1, 0)?;
    Ok(map.len() + list.len())
}

#[test]
fn parts_ask_for_room_for_what_they_keep(rt: HostRuntime) -> Result<(), Fail> {
    let (heap, refused) = (rt.alloc(), Err(ParseError::OutOfMemory));
    assert_eq!(rt; attributes(up_to(4, heap), "aaa-bbb-ccc-ddd-eee"), refused);
    assert_eq!(rt; attributes(up_to(5, heap), "aaa-bbb-ccc-ddd-eee"), Ok(10));
    assert_eq!(rt; keywords(up_to(1, heap), "ca-buddhist-nu-latn"), refused);
    assert_eq!(rt; keywords(up_to(2, heap), "ca-buddhist-nu-latn"), Ok(4));
    assert_eq!(rt;
        unicode(up_to(1, heap), "u-aaa-ca-buddhist-nu-latn"),
        refused
    );
    assert_eq!(rt; unicode(up_to(2, heap), "u-aaa-ca-buddhist-nu-latn"), Ok(3));
    assert_eq!(rt; transform(up_to(0, heap), "t-en-a0-foo"), refused);
    assert_eq!(rt; transform(up_to(1, heap), "t-en-a0-foo"), Ok(2));
    Ok(())
}

#[test]
fn words_ask_for_room_past_the_fourth(rt: HostRuntime) -> Result<(), Fail> {
    let (heap, refused) = (rt.alloc(), Err(ParseError::OutOfMemory));
    assert_eq!(rt; value(up_to(4, heap), "aaa-bbb-ccc-ddd-eee"), refused);
    assert_eq!(rt; value(up_to(5, heap), "aaa-bbb-ccc-ddd-eee"), Ok(10));
    assert_eq!(rt; other(up_to(4, heap), "a-aa-bb-cc-dd-ee"), refused);
    assert_eq!(rt; other(up_to(5, heap), "a-aa-bb-cc-dd-ee"), Ok(10));
    assert_eq!(rt; private(up_to(4, heap), "x-a-b-c-d-e"), refused);
    assert_eq!(rt; private(up_to(5, heap), "x-a-b-c-d-e"), Ok(10));
    Ok(())
}

#[test]
fn maps_ask_for_room_for_their_pairs(rt: HostRuntime) -> Result<(), Fail> {
    let heap = rt.alloc();
    assert_eq!(rt; fields(up_to(1, heap)), Err(ParseError::OutOfMemory));
    assert_eq!(rt; fields(up_to(2, heap)), Ok(2));
    assert_eq!(rt; set_keywords(up_to(1, heap)), Err(ParseError::OutOfMemory));
    assert_eq!(rt; set_keywords(up_to(2, heap)), Ok(2));
    let text = "en-US-u-rg-gbzzzz-sd-ustx";
    assert_eq!(rt;
        preferred(up_to(1, heap), text),
        Err(ParseError::OutOfMemory)
    );
    assert_eq!(rt; preferred(up_to(2, heap), text), Ok(true));
    assert_eq!(rt; pairs(up_to(1, heap)), Err(AllocError));
    assert_eq!(rt; pairs(up_to(2, heap)), Ok(4));
    Ok(())
}

#[test]
fn empty_values_ask_for_no_room(rt: HostRuntime) -> Result<(), Fail> {
    let none = up_to(0, rt.alloc());
    assert!(rt; Extensions::new_in(none).is_empty());
    assert_eq!(rt; Locale::unknown_in(none), Locale::unknown(rt.alloc()));
    Ok(())
}

// How many bytes the normal text has, as an identifier and as a locale, from bytes and from a `str`.
fn normalized(memory: UpTo, text: &str) -> Result<usize, ParseError> {
    let bytes = text.as_bytes();
    let id = LanguageIdentifier::normalize_utf8_in(memory, bytes)?
        .len()
        .saturating_add(LanguageIdentifier::normalize_in(memory, text)?.len());
    let locale = Locale::normalize_utf8_in(memory, bytes)?
        .len()
        .saturating_add(Locale::normalize_in(memory, text)?.len());
    Ok(id.saturating_add(locale))
}

// How many bytes printed texts have: of the language, the identifier and the locale, and that beside the text itself.
fn printed(memory: UpTo, text: &str) -> Result<usize, ParseError> {
    let locale = Locale::try_from_str(memory.heap, text)?;
    let language = Writeable::write_to_string_in(&locale.id.language, memory)?.len();
    let id = locale.id.write_to_string_in(memory)?.len();
    let whole = locale.write_to_string_in(memory)?.len();
    let beside = to_string_or_borrow_in(memory, &locale, text.as_bytes())?.len();
    let parts = language.saturating_add(id);
    Ok(parts.saturating_add(whole).saturating_add(beside))
}

#[test]
fn normal_texts_ask_for_room_for_their_bytes(rt: HostRuntime) -> Result<(), Fail> {
    let (heap, refused) = (rt.alloc(), Err(ParseError::OutOfMemory));
    assert_eq!(rt; normalized(up_to(0, heap), "en-US"), Ok(20));
    assert_eq!(rt; normalized(up_to(4, heap), "EN-us"), refused);
    assert_eq!(rt; normalized(up_to(5, heap), "EN-us"), Ok(20));
    assert_eq!(rt; normalized(up_to(16, heap), "en-US-POSIX-aaaaa"), refused);
    assert_eq!(rt; normalized(up_to(17, heap), "en-US-POSIX-aaaaa"), Ok(68));
    let long = "EN-aaaaa-bbbbb-ccccc-ddddd-eeeee-fffff-ggggg-hhhhh-iiiii";
    assert_eq!(rt; normalized(up_to(55, heap), long), refused);
    assert_eq!(rt; normalized(up_to(56, heap), long), Ok(224));
    Ok(())
}

#[test]
fn printed_texts_ask_for_room_for_their_bytes(rt: HostRuntime) -> Result<(), Fail> {
    let (heap, refused) = (rt.alloc(), Err(ParseError::OutOfMemory));
    assert_eq!(rt; printed(up_to(0, heap), "en"), Ok(8));
    assert_eq!(rt; printed(up_to(4, heap), "EN-us"), refused);
    assert_eq!(rt; printed(up_to(5, heap), "EN-us"), Ok(17));
    let long = "en-aaaaa-bbbbb-ccccc-ddddd-eeeee-fffff-ggggg-hhhhh-iiiii-jjjjj-kkkkk";
    assert_eq!(rt; printed(up_to(67, heap), long), refused);
    assert_eq!(rt; printed(up_to(68, heap), long), Ok(206));
    Ok(())
}

#[test]
fn json_asks_for_room_for_its_text_and_its_parts(rt: HostRuntime) -> Result<(), Fail> {
    let (heap, text) = (rt.alloc(), "en-US-x-a-b-c-d-e");
    let (all, refused) = (up_to(17, heap), Err(JsonError::OutOfMemory));
    assert_eq!(rt; stored(up_to(16, heap), all, text), refused);
    assert_eq!(rt; stored(all, up_to(4, heap), text), refused);
    assert_eq!(rt; stored(all, up_to(5, heap), text), Ok(true));
    Ok(())
}

/// Memory that refuses nothing: where the heap does, the program ends.
struct Endless<'a, R: Abort> {
    rt: &'a R,
    heap: Global,
}

impl<'a, R: Abort> Clone for Endless<'a, R> {
    fn clone(&self) -> Result<Self, AllocError> {
        Ok(*self)
    }
}

impl<'a, R: Abort> Copy for Endless<'a, R> {}

impl<'a, R: Abort> Memory for Endless<'a, R> {
    ghost refused = { λ _. ⊥ };

    fn empty<T>(self) -> Vec<T> {
        Vec::new(self.heap)
    }

    fn with_capacity<T>(self, capacity: usize) -> Result<Vec<T>, AllocError> {
        match self.heap.with_capacity(capacity) {
            Ok(list) => Ok(list),
            Err(_) => panic!(self.rt; "memory was refused"),
        }
    }

    fn reserve<T>(self, list: &mut Vec<T>, additional: usize) -> Result<(), AllocError> {
        match self.heap.reserve(list, additional) {
            Ok(()) => Ok(()),
            Err(_) => panic!(self.rt; "memory was refused"),
        }
    }
}

impl<'a, R: Abort> Ample for Endless<'a, R> {
    ghost never = { λ n never. never };
}

#[test]
fn with_ample_memory_each_text_is_answered(rt: HostRuntime) -> Result<(), Fail> {
    let memory = Endless {
        rt: &rt,
        heap: rt.alloc(),
    };
    let locale = ample_memory(memory, b"en-b-foo-a-bar-u-nu-latn-ca-buddhist")?;
    assert_eq!(rt; locale.extensions.other.len(), 2);
    assert_eq!(rt;
        ample_memory(memory, b"en-foo").err(),
        Some(ParseError::InvalidSubtag)
    );
    assert_eq!(rt; ample_printing(memory, &locale)?.len(), 36);
    assert_eq!(rt; ample_normalizing(memory, b"EN-us")?.len(), 5);
    Ok(())
}
