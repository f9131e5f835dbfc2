//! Outlines of texts, and the kinds of their first pieces.
//!
//! `outline-langid TEXT` and `outline-locale TEXT` say the normal text of an identifier and of a locale as its outline gives
//! it, or the words of the refusal. `full` is a text of which there is no room for an outline. A second argument says how
//! many bytes of the first are the text, and others follow it; without it the text ends where the bytes end.
//! `outline-kinds TEXT` says which words the first piece may be.
ghost use Rattle.std.specs.Prelude.{◌+◌, ◌<◌, ◌≤◌, ◌^◌, length, take};
ghost use Rattle.iloc_outline.specs.Outlines.{BeginsWithLanguage};
ghost use Rattle.iloc_outline.specs.Printing.{GivesShort};

use iloc_outline::growth::InPlace;
use iloc_outline::outline::{
    Outline, Outlined, begins_with_language, outline_identifier, outline_locale,
};
use iloc_outline::printing::copy_outline;
use iloc_pieces::cursor::{
    cursor_in, is_attribute, is_field_key, is_key, is_language, is_private, is_region, is_script,
    is_subtag, is_variant,
};
use iloc_spans::spans::Spans;
use iloc_subtags::ParseError;
use test_page::argument::number_of;
use test_page::{bytes, field, refuse, say};

// The longest text that is outlined here.
const MOST: usize = 1024;

// The room for a normal text, and for sixteen bytes behind it.
const ROOM: usize = MOST + 16;

// Says the normal text that the outline and the spans of the first bytes give.
fn normal(window: &[u8], len: usize, outline: &Outline, spans: &Spans, out: &mut String)
    requires inside { len ≤ length window.now }
    requires few { len ≤ MOST }
    requires gives { GivesShort (take len window.now) outline.now spans.now }
{
    let mut room = [0u8; ROOM];
    let n = copy_outline(window, len, outline, spans, &mut room);
    bytes(out, room.get(..n).unwrap_or(b""))
}

// Says the normal text of the first bytes as an identifier, or why they are refused.
fn langid(window: &[u8], len: usize, out: &mut String)
    requires inside { len ≤ length window.now }
    requires few { len ≤ MOST }
    requires begins { BeginsWithLanguage (take len window.now) }
{
    let mut spans = Spans::new();
    match outline_identifier(InPlace, window, len, &mut spans) {
        Outlined::Normal(outline) => normal(window, len, &outline, &spans, out),
        Outlined::Refused(error) => refuse(out, error),
        Outlined::Full => say(out, "full"),
    }
}

// Says the normal text of the first bytes as a locale, or why they are refused.
fn locale(window: &[u8], len: usize, out: &mut String)
    requires inside { len ≤ length window.now }
    requires few { len ≤ MOST }
    requires begins { BeginsWithLanguage (take len window.now) }
{
    let mut spans = Spans::new();
    match outline_locale(InPlace, window, len, &mut spans) {
        Outlined::Normal(outline) => normal(window, len, &outline, &spans, out),
        Outlined::Refused(error) => refuse(out, error),
        Outlined::Full => say(out, "full"),
    }
}

// Says the normal text of the first bytes, or why they are refused.
fn outlined(is_locale: bool, window: &[u8], len: usize, out: &mut String) {
    if len > window.len() || len > MOST {
        return say(out, "too long");
    }
    if !begins_with_language(window, len) {
        return refuse(out, ParseError::InvalidLanguage);
    }
    if is_locale {
        locale(window, len, out)
    } else {
        langid(window, len, out)
    }
}

// Says the word, if that is so.
fn said_if(is_so: bool, word: &str, out: &mut String) {
    if is_so {
        field(out, word);
    }
}

// Says which words the first piece may be.
fn kinds(text: &[u8], out: &mut String) {
    let first = cursor_in(text, text.len());
    said_if(is_language(first), "language", out);
    said_if(is_script(first), "script", out);
    said_if(is_region(first), "region", out);
    said_if(is_variant(first), "variant", out);
    said_if(is_key(first), "key", out);
    said_if(is_field_key(first), "field-key", out);
    said_if(is_attribute(first), "attribute", out);
    said_if(is_subtag(first), "subtag", out);
    said_if(is_private(first), "private", out)
}

// How many bytes of the first argument are the text: as many as the second one says, or all.
fn length_of(text: &[u8], len: &[u8]) -> usize {
    if len.is_empty() {
        text.len()
    } else {
        number_of(len)
    }
}

/// The answer to a call.
pub fn answer(what: &str, text: &[u8], len: &[u8], out: &mut String) {
    match what {
        "langid" => outlined(false, text, length_of(text, len), out),
        "locale" => outlined(true, text, length_of(text, len), out),
        "kinds" => kinds(text, out),
        _ => say(out, "no call"),
    }
}
