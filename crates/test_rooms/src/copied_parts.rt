//! The parts of a locale.

use crate::memory::{UpTo, up_to};
use iloc_langid::LanguageIdentifier;
use iloc_locale::Locale;
use iloc_other::{Other, Private};
use iloc_subtags::{ParseError, UnicodeKey};
use iloc_transform::{Fields, Key, Transform, Value};
use iloc_unicode::{Attributes, Keywords, Unicode};
use iloc_word_list::Value as Subtags;
use std::test::Fail;

// Each says whether the copy of what a text means equals it.

fn attributes(memory: UpTo, text: &str) -> Result<bool, ParseError> {
    let from = Attributes::try_from_str(memory.heap, text)?;
    Ok(from.clone_in(memory)? == from)
}

fn keywords(memory: UpTo, text: &str) -> Result<bool, ParseError> {
    let from = Keywords::try_from_str(memory.heap, text)?;
    Ok(from.clone_in(memory)? == from)
}

fn unicode(memory: UpTo, text: &str) -> Result<bool, ParseError> {
    let from = Unicode::try_from_str(memory.heap, text)?;
    Ok(from.clone_in(memory)? == from)
}

fn value(memory: UpTo, text: &str) -> Result<bool, ParseError> {
    let from = Value::try_from_str(memory.heap, text)?;
    Ok(from.clone_in(memory)? == from)
}

fn transform(memory: UpTo, text: &str) -> Result<bool, ParseError> {
    let from = Transform::try_from_str(memory.heap, text)?;
    let fields = from.fields.clone_in(memory)?;
    Ok(from.clone_in(memory)? == from && fields == from.fields)
}

fn other(memory: UpTo, text: &str) -> Result<bool, ParseError> {
    let from = Other::try_from_str(memory.heap, text)?;
    Ok(from.clone_in(memory)? == from)
}

fn private(memory: UpTo, text: &str) -> Result<bool, ParseError> {
    let from = Private::try_from_str(memory.heap, text)?;
    Ok(from.clone_in(memory)? == from)
}

fn identifier(memory: UpTo, text: &str) -> Result<bool, ParseError> {
    let from = LanguageIdentifier::try_from_str(memory.heap, text)?;
    Ok(from.clone_in(memory)? == from)
}

fn locale(memory: UpTo, text: &str) -> Result<bool, ParseError> {
    let from = Locale::try_from_str(memory.heap, text)?;
    let extensions = from.extensions.clone_in(memory)?;
    Ok(from.clone_in(memory)? == from && extensions == from.extensions)
}

// Whether one extension that is extended by the other equals that of the third text.
fn extended(memory: UpTo, one: &str, other: &str, both: &str) -> Result<bool, ParseError> {
    let mut unicode = Unicode::try_from_str(memory.heap, one)?;
    let more = Unicode::try_from_str(memory.heap, other)?;
    let mut keywords = unicode.keywords.clone()?;
    keywords.extend_from_keywords_in(memory, more.keywords.clone()?)?;
    let mut attributes = unicode.attributes.clone()?;
    attributes.extend_from_attributes_in(memory, more.attributes.clone()?)?;
    unicode.extend_in(memory, more)?;
    let is_both = unicode == Unicode::try_from_str(memory.heap, both)?;
    Ok(is_both && keywords == unicode.keywords && attributes == unicode.attributes)
}

// How many keywords and fields there are of three pairs with two keys.
fn of_pairs(memory: UpTo) -> Result<usize, ParseError> {
    let (ca, nu) = (
        UnicodeKey::try_from_str("ca")?,
        UnicodeKey::try_from_str("nu")?,
    );
    let pairs = [ca, nu, ca].map(|key| (key, Subtags::new_empty()));
    let keywords = Keywords::from_pairs_in(memory, pairs)?;
    let (a0, b1) = (Key::try_from_str("a0")?, Key::try_from_str("b1")?);
    let pairs = [a0, b1, a0].map(|key| (key, Value::default()));
    let fields = Fields::from_pairs_in(memory, pairs)?;
    Ok(
        keywords
            .as_slice()
            .len()
            .saturating_add(fields.as_slice().len()),
    )
}

#[test]
fn parts_are_copied_in_their_room(rt: HostRuntime) -> Result<(), Fail> {
    let (heap, refused) = (rt.alloc(), Err(ParseError::OutOfMemory));
    let five = "aaa-bbb-ccc-ddd-eee";
    assert_eq!(rt; attributes(up_to(4, heap), five), refused);
    assert_eq!(rt; attributes(up_to(5, heap), five), Ok(true));
    assert_eq!(rt; value(up_to(4, heap), five), refused);
    assert_eq!(rt; value(up_to(5, heap), five), Ok(true));
    assert_eq!(rt; keywords(up_to(1, heap), "ca-buddhist-nu-latn"), refused);
    assert_eq!(rt; keywords(up_to(2, heap), "ca-buddhist-nu-latn"), Ok(true));
    assert_eq!(rt; unicode(up_to(1, heap), "u-ca-buddhist-nu-latn"), refused);
    assert_eq!(rt; unicode(up_to(2, heap), "u-ca-buddhist-nu-latn"), Ok(true));
    assert_eq!(rt; transform(up_to(1, heap), "t-en-a0-foo-b1-bar"), refused);
    assert_eq!(rt; transform(up_to(2, heap), "t-en-a0-foo-b1-bar"), Ok(true));
    assert_eq!(rt; other(up_to(4, heap), "a-aa-bb-cc-dd-ee"), refused);
    assert_eq!(rt; other(up_to(5, heap), "a-aa-bb-cc-dd-ee"), Ok(true));
    assert_eq!(rt; private(up_to(4, heap), "x-a-b-c-d-e"), refused);
    assert_eq!(rt; private(up_to(5, heap), "x-a-b-c-d-e"), Ok(true));
    Ok(())
}

#[test]
fn locales_are_copied_in_their_room(rt: HostRuntime) -> Result<(), Fail> {
    let (heap, refused) = (rt.alloc(), Err(ParseError::OutOfMemory));
    let five = "en-aaaaa-bbbbb-ccccc-ddddd-eeeee";
    assert_eq!(rt; identifier(up_to(4, heap), five), refused);
    assert_eq!(rt; identifier(up_to(5, heap), five), Ok(true));
    assert_eq!(rt; locale(up_to(0, heap), "en-u-ca-buddhist"), Ok(true));
    for (text, most) in [
        ("en-u-ca-buddhist-nu-latn", 2),
        ("en-t-a0-foo", 1),
        ("en-a-foo-b-bar-x-foo", 2),
        ("en-x-a-b-c-d-e", 5),
    ] {
        assert_eq!(rt; locale(up_to(most - 1, heap), text), refused);
        assert_eq!(rt; locale(up_to(most, heap), text), Ok(true));
    }
    Ok(())
}

#[test]
fn extensions_are_extended_in_their_room(rt: HostRuntime) -> Result<(), Fail> {
    let (heap, refused) = (rt.alloc(), Err(ParseError::OutOfMemory));
    let (one, other) = ("u-ca-roc-nu-latn", "u-ca-buddhist-hc-h12");
    let both = "u-ca-buddhist-hc-h12-nu-latn";
    assert_eq!(rt; extended(up_to(3, heap), one, other, both), refused);
    assert_eq!(rt; extended(up_to(4, heap), one, other, both), Ok(true));
    let (one, other) = ("u-aaa-bbb-ccc", "u-ccc-ddd-eee");
    let both = "u-aaa-bbb-ccc-ddd-eee";
    assert_eq!(rt; extended(up_to(4, heap), one, other, both), refused);
    assert_eq!(rt; extended(up_to(5, heap), one, other, both), Ok(true));
    assert_eq!(rt; of_pairs(up_to(1, heap)), Err(ParseError::OutOfMemory));
    assert_eq!(rt; of_pairs(up_to(2, heap)), Ok(4));
    Ok(())
}
