//! Parts that are made of others, and not read. The second argument says what is asked of each.
use crate::Rows;
use iloc_litemap::LiteMap;
use iloc_other::{Other, Private};
use iloc_subtags::{
    AttributeKind, ParseError, PrivateSubtag, PrivateSubtagKind, Subtag, SubtagKind,
    TransformKeyKind, UnicodeKeyKind, WordKind, WordOf,
};
use iloc_transform::{Fields, Transform, Value as FieldValue};
use iloc_unicode::{Attributes, Keywords, Unicode};
use iloc_word_list::{Value, is_strictly_ascending};
use std::alloc::{AllocError, Global};
use test_page::answering::made;
use test_page::steps::words;
use test_page::{Answering, Call, put, put_or_none, refuse, say};

// A key and a value.
type Entry<K, const N: usize, V> = (WordOf<K, N>, V);

// The pair of a text `key.value`.
fn pair<K: WordKind<N>, const N: usize, V: Answering<Rows>>(
    alloc: Global,
    text: &[u8],
) -> Result<Entry<K, N, V>, ParseError> {
    let mut parts = text.split(|byte: &u8| *byte == b'.');
    let key = WordOf::<K, N>::try_from_utf8(parts.next().unwrap_or(b""))?;
    let value = V::read(alloc, parts.next().unwrap_or(b""))?;
    Ok((key, value))
}

// The pairs of a text, which stand between blanks.
fn pairs<K: WordKind<N>, const N: usize, V: Answering<Rows>>(
    alloc: Global,
    text: &[u8],
) -> Result<Vec<Entry<K, N, V>>, ParseError> {
    let mut all = Vec::new(alloc);
    for piece in text
        .split(|byte: &u8| *byte == b' ')
        .filter(|piece: &&[u8]| !piece.is_empty())
    {
        let pair = pair::<K, N, V>(alloc, piece)?;
        all.push(pair).map_err(|_| ParseError::OutOfMemory)?;
    }
    Ok(all)
}

// What there was memory for.
fn held<W>(made: Result<W, AllocError>) -> Result<W, ParseError> {
    match made {
        Ok(value) => Ok(value),
        Err(_) => Err(ParseError::OutOfMemory),
    }
}

fn keywords(alloc: Global, text: &[u8]) -> Result<Keywords, ParseError> {
    let pairs = pairs::<UnicodeKeyKind, 2, Value>(alloc, text)?;
    held(Keywords::from_pairs(alloc, pairs))
}

fn single(alloc: Global, text: &[u8]) -> Result<Keywords, ParseError> {
    let (key, value) = pair::<UnicodeKeyKind, 2, Value>(alloc, text)?;
    Ok(Keywords::new_single(key, value))
}

fn fields(alloc: Global, text: &[u8]) -> Result<Fields, ParseError> {
    let pairs = pairs::<TransformKeyKind, 2, FieldValue>(alloc, text)?;
    held(Fields::from_pairs(alloc, pairs))
}

fn subtags(alloc: Global, text: &[u8]) -> Result<Value, ParseError> {
    let words = words::<SubtagKind, 8>(alloc, text)?;
    held(Value::from_subtags(alloc, words))
}

fn subtags_vec(alloc: Global, text: &[u8]) -> Result<Value, ParseError> {
    let words = words::<SubtagKind, 8>(alloc, text)?;
    Ok(Value::from_vec_unchecked(words))
}

fn two_subtags(alloc: Global, text: &[u8]) -> Result<Value, ParseError> {
    let words = words::<SubtagKind, 8>(alloc, text)?;
    match words.as_slice() {
        [one, other] => held(Value::from_two_subtags(alloc, *one, *other)),
        _ => Err(ParseError::InvalidSubtag),
    }
}

fn attributes(alloc: Global, text: &[u8]) -> Result<Attributes, ParseError> {
    let words = words::<AttributeKind, 8>(alloc, text)?;
    if is_strictly_ascending(words.as_slice()) {
        Ok(Attributes::from_vec_unchecked(words))
    } else {
        Err(ParseError::InvalidSubtag)
    }
}

fn private(alloc: Global, text: &[u8]) -> Result<Private, ParseError> {
    let words = words::<PrivateSubtagKind, 8>(alloc, text)?;
    Ok(Private::from_vec_unchecked(words))
}

fn private_one(text: &[u8]) -> Result<Private, ParseError> {
    Ok(Private::new_single(PrivateSubtag::try_from_utf8(text)?))
}

// Another extension of the byte, if that is a letter or a digit.
fn other(alloc: Global, byte: u8, text: &[u8]) -> Result<Other, ParseError> {
    let words = words::<SubtagKind, 8>(alloc, text)?;
    if byte.is_ascii_alphanumeric() {
        Ok(Other::from_vec_unchecked(byte, words))
    } else {
        Err(ParseError::InvalidExtension)
    }
}

// Says what a value gives up when it is used up.
fn spend(value: Value, what: &[u8], out: &mut String) {
    match what {
        b"single" => put_or_none(out, value.into_single_subtag().as_ref()),
        _ => {
            for subtag in value {
                say(out, "[");
                put(out, &subtag);
                say(out, "]");
            }
        }
    }
}

fn spent(read: Result<Value, ParseError>, what: &[u8], out: &mut String) {
    match read {
        Ok(value) => spend(value, what, out),
        Err(error) => refuse(out, error),
    }
}

// Values of the unicode extension.
fn value(what: &str, call: &Call<'_>, out: &mut String) {
    let (alloc, text) = (call.alloc, call.first);
    match what {
        "value" => made::<Rows, Value>(call, subtags(alloc, text), out),
        "value-vec" => made::<Rows, Value>(call, subtags_vec(alloc, text), out),
        "value-two" => made::<Rows, Value>(call, two_subtags(alloc, text), out),
        "value-one" => {
            let subtag = Subtag::try_from_utf8(text).ok();
            made::<Rows, Value>(call, Ok(Value::from_subtag(subtag)), out)
        }
        "value-none" => made::<Rows, Value>(call, Ok(Value::new_empty()), out),
        "value-default" => made::<Rows, Value>(call, Ok(Value::default()), out),
        "spent-uvalue" => spent(Value::try_from_utf8(alloc, text), call.second, out),
        _ => say(out, "no call"),
    }
}

// Attributes, keywords and fields.
fn part(what: &str, call: &Call<'_>, out: &mut String) {
    let (alloc, text) = (call.alloc, call.first);
    match what {
        "attributes" => made::<Rows, Attributes>(call, attributes(alloc, text), out),
        "attributes-none" => made::<Rows, Attributes>(call, Ok(Attributes::new()), out),
        "attributes-default" => made::<Rows, Attributes>(call, Ok(Attributes::default()), out),
        "keywords" => made::<Rows, Keywords>(call, keywords(alloc, text), out),
        "keywords-one" => made::<Rows, Keywords>(call, single(alloc, text), out),
        "keywords-none" => made::<Rows, Keywords>(call, Ok(Keywords::new()), out),
        "keywords-default" => made::<Rows, Keywords>(call, Ok(Keywords::default()), out),
        "keywords-map" => {
            let map = LiteMap::new(alloc);
            made::<Rows, Keywords>(call, Ok(Keywords::from(map)), out)
        }
        "fields" => made::<Rows, Fields>(call, fields(alloc, text), out),
        "fields-none" => made::<Rows, Fields>(call, Ok(Fields::new(alloc)), out),
        "fields-map" => {
            let map = LiteMap::new(alloc);
            made::<Rows, Fields>(call, Ok(Fields::from(map)), out)
        }
        "tvalue-default" => made::<Rows, FieldValue>(call, Ok(FieldValue::default()), out),
        _ => value(what, call, out),
    }
}

/// Makes the value, and says what is asked of it.
pub fn answer(what: &str, call: &Call<'_>, out: &mut String) {
    let (alloc, text) = (call.alloc, call.first);
    match what {
        "unicode-none" => made::<Rows, Unicode>(call, Ok(Unicode::new()), out),
        "unicode-default" => made::<Rows, Unicode>(call, Ok(Unicode::default()), out),
        "transform-none" => made::<Rows, Transform>(call, Ok(Transform::new(alloc)), out),
        "private" => made::<Rows, Private>(call, private(alloc, text), out),
        "private-one" => made::<Rows, Private>(call, private_one(text), out),
        "private-none" => made::<Rows, Private>(call, Ok(Private::new()), out),
        "private-default" => made::<Rows, Private>(call, Ok(Private::default()), out),
        "other-A" => made::<Rows, Other>(call, other(alloc, b'A', text), out),
        "other-O" => made::<Rows, Other>(call, other(alloc, b'O', text), out),
        "other-o" => made::<Rows, Other>(call, other(alloc, b'o', text), out),
        _ => part(what, call, out),
    }
}
