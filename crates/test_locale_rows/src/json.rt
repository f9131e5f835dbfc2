//! Values as JSON strings, carried raw forms and refusals: in these rows an allocation that fails leaves `! Out of memory`
//! alone.
//!
//! - `to KIND TEXT`: the compact text of the JSON string of what the text is parsed as, and whether it is parsed back the
//!   same.
//! - `write KIND TEXT`: the text of that, by the call that `to` stands on.
//! - `from KIND DOCUMENT`: what is parsed from the one value of the document.
//! - `each KIND DOCUMENT`: what is parsed from each item of the document, an array; and then the document, as it is
//!   written with the JSON string of what was parsed in the place of each.
//! - `io KIND TEXT`: what two writers hold of what the text is parsed as, one lent and the own one of a sink.
//! - `carry BYTES`: the row of new raw forms.
//! - `error TYPE CASE`: what the refusal prints, and its words.
//!
//! Each function but `answer` gives whether memory was there.
use crate::refusals;
use iloc_json::{JsonError, JsonText};
use iloc_langid::LanguageIdentifier;
use iloc_locale::Locale;
use iloc_subtags::{
    Attribute, CurrencyType, Language, PrivateSubtag, Region, Script, SubdivisionSuffix, Subtag,
    TransformKey, UnicodeKey, Variant,
};
use iloc_writeable::{IoSink, Writeable, write_to_io};
use serde_json::Value;
use std::alloc::{AllocError, Global};
use std::str;
use test_page::{Call, bytes, put, refused, say, truth};

/// The answer to a call.
pub fn answer(what: &str, call: &Call<'_>, out: &mut String) {
    let before = out.len();
    if !answered(what, call, out) {
        let before = out.as_str().floor_char_boundary(before);
        out.truncate(before);
        refused(out);
    }
}

// Says the answer to a call.
fn answered(what: &str, call: &Call<'_>, out: &mut String) -> bool {
    let kind = str::from_utf8(call.first).unwrap_or("");
    match (what, str::from_utf8(call.second)) {
        ("carry", _) => refusals::carried(call.alloc, call.first, out),
        ("error", Ok(case)) => refusals::refusal_of(kind, case, out),
        (_, Ok(text)) => of_kind(call.alloc, what, kind, text, out),
        (_, Err(_)) => {
            say(out, "no text");
            true
        }
    }
}

// Says what a call answers of a value of the kind.
fn of_kind(alloc: Global, call: &str, kind: &str, text: &str, out: &mut String) -> bool {
    match kind {
        "language" => of_type::<Language>(alloc, call, text, out),
        "script" => of_type::<Script>(alloc, call, text, out),
        "region" => of_type::<Region>(alloc, call, text, out),
        "variant" => of_type::<Variant>(alloc, call, text, out),
        "subtag" => of_type::<Subtag>(alloc, call, text, out),
        "attribute" => of_type::<Attribute>(alloc, call, text, out),
        "unicode-key" => of_type::<UnicodeKey>(alloc, call, text, out),
        "transform-key" => of_type::<TransformKey>(alloc, call, text, out),
        "subdivision-suffix" => of_type::<SubdivisionSuffix>(alloc, call, text, out),
        "currency" => of_type::<CurrencyType>(alloc, call, text, out),
        "private" => of_type::<PrivateSubtag>(alloc, call, text, out),
        "langid" => of_type::<LanguageIdentifier>(alloc, call, text, out),
        _ => of_type::<Locale>(alloc, call, text, out),
    }
}

// Says what a call answers of a value of the type.
fn of_type<T: JsonText + PartialEq + Drop>(
    alloc: Global,
    call: &str,
    text: &str,
    out: &mut String,
) -> bool {
    match call {
        "to" => match T::read_text(alloc, text) {
            Ok(value) => written(alloc, &value, out),
            Err(error) => refuse(out, &JsonError::from(error)),
        },
        "write" => match T::read_text(alloc, text) {
            Ok(value) => says(value.write_text(alloc), out),
            Err(error) => refuse(out, &JsonError::from(error)),
        },
        "io" => match T::read_text(alloc, text) {
            Ok(value) => to_writers(alloc, &value, out),
            Err(error) => refuse(out, &JsonError::from(error)),
        },
        _ => of_document::<T>(alloc, call, text, out),
    }
}

// What writers hold that the value was printed to: one that was lent, and the own one of a sink.
fn to_writers<T: Writeable>(alloc: Global, value: &T, out: &mut String) -> bool {
    let mut lent = Vec::new(alloc);
    let mut sink = IoSink::new(Vec::new(alloc));
    if write_to_io(value, &mut lent).is_err() || value.write_to(&mut sink).is_err() {
        return false;
    }
    bytes(out, lent.as_slice());
    say(out, " | ");
    bytes(out, sink.into_inner().as_slice());
    true
}

// Says why there is no value.
fn refuse(out: &mut String, error: &JsonError) -> bool {
    say(out, "! ");
    say(out, error.words());
    *error != JsonError::OutOfMemory
}

// The text of the value's JSON string, and whether it is parsed back as the value.
fn written<T: JsonText + PartialEq + Drop>(alloc: Global, value: &T, out: &mut String) -> bool {
    match value.to_json(alloc) {
        Ok(json) => says(json.to_string(alloc), out) && read_back(alloc, value, &json, out),
        Err(error) => refuse(out, &error),
    }
}

// Says the text that was written.
fn says(text: Result<String, AllocError>, out: &mut String) -> bool {
    match text {
        Ok(text) => {
            say(out, text.as_str());
            true
        }
        Err(_) => false,
    }
}

// Whether the JSON value is parsed as the value.
fn read_back<T: JsonText + PartialEq + Drop>(
    alloc: Global,
    value: &T,
    json: &Value,
    out: &mut String,
) -> bool {
    say(out, " | ");
    match T::from_json(alloc, json) {
        Ok(other) => {
            truth(out, other == *value);
            true
        }
        Err(error) => refuse(out, &error),
    }
}

// What is parsed from a document.
fn of_document<T: JsonText + Drop>(
    alloc: Global,
    call: &str,
    text: &str,
    out: &mut String,
) -> bool {
    match Value::from_str(alloc, text) {
        Ok(mut document) => match call {
            "from" => renewed::<T>(alloc, &mut document, out),
            _ => each::<T>(alloc, &mut document, out),
        },
        Err(error) => {
            say(out, "no JSON");
            !error.is_memory()
        }
    }
}

// What is parsed from each item, and the document with each as it is written.
fn each<T: JsonText + Drop>(alloc: Global, document: &mut Value, out: &mut String) -> bool {
    let mut has_memory = true;
    if let Some(items) = document.as_array_mut() {
        for item in items.iter_mut() {
            has_memory = renewed::<T>(alloc, item, out) && has_memory;
            say(out, " | ");
        }
    }
    has_memory && says(document.to_string(alloc), out)
}

// What is parsed from the item, whose place its JSON string takes.
fn renewed<T: JsonText + Drop>(alloc: Global, item: &mut Value, out: &mut String) -> bool {
    match T::from_json(alloc, item) {
        Ok(value) => {
            put(out, &value);
            match value.to_json(alloc) {
                Ok(json) => {
                    *item = json;
                    true
                }
                Err(error) => refuse(out, &error),
            }
        }
        Err(error) => refuse(out, &error),
    }
}
