//! Small uses of the library, which docs/GUIDE.md shows.
//!
//! A line of the input is a call, a locale, and what else the call takes, joined by spaces; each is answered by a line:
//!
//! - `compare LOCALE TEXT`: whether the locale prints the text, and whether the text means it.
//! - `keyword LOCALE KEY VALUE`: the locale with this value of the keyword, and the value before.
//! - `calendar LOCALE`: the calendar that the locale asks for, and the locale with the Buddhist one.
//! - `json LOCALE`: the JSON string of the locale, and what is parsed from it.
//! - `texts LOCALE`: its text, that of its identifier, and that of its language.
//! - `bracketed LOCALE`: its text between brackets.
//! - `lists LOCALE`: its variants and its keywords.
//! - `clear LOCALE PART`: the locale without its identifier (`id`), its extensions, or all.
//! - `asks LOCALE`: the keywords of the hour cycle and of the scripts that a dictionary leaves out.
//! - `load LOCALE`: the payloads of what the locale prefers, by its language and by its region.
//! - `merge LOCALE TEXT`: the locale of what it and that of the text prefer.
//!
//! Other calls take a text in place of a locale:
//!
//! - `extension TEXT`, `attributes TEXT`, `fields TEXT`: the part that the text begins with, and what is left.
//! - `kinds TEXT`: a subtag as a language, a script and a region.
//! - `payload TEXT PAYLOAD`: the data locale of the text has this payload from now on.
//! - `shorten TEXT`: the normal text, and how many bytes fewer it has.
//! - `judge TEXT`: whether the text has one meaning or one fault.
//! - `line TEXT`: what the program `locale_normal` writes for the line.
//!
//! At the end come three more answers: what the program `locale_normal` gives for some lines, which of them it refuses,
//! and what `carry_v1` makes of languages that version 1 stored.
#![tactic(auto)]

mod comparing;
mod keywords;
mod kinds;
mod laws;
mod others;
mod parts;
mod providing;
mod texts;

use icu_locale_core::{Locale, ParseError};
use providing::Payloads;
use std::alloc::Global;
use std::collections::HashMap;
use std::io;

/// The answer to a call on a locale.
fn called(
    alloc: Global,
    call: &str,
    locale: &mut Locale,
    words: &[&str],
    payloads: &Payloads<'_>,
    out: &mut String,
) -> Result<(), ParseError> {
    match (call, words) {
        ("compare", [text]) => comparing::compare(alloc, locale, text, out),
        ("keyword", [key, value]) => keywords::set(alloc, locale, key, value, out),
        ("calendar", []) => keywords::calendar(alloc, locale, out),
        ("json", []) => others::json(alloc, locale, out),
        ("texts", []) => texts::say(alloc, locale, out),
        ("bracketed", []) => match texts::bracketed(locale, out) {
            Ok(()) => Ok(()),
            Err(_) => Err(ParseError::OutOfMemory),
        },
        ("lists", []) => texts::lists(locale, out),
        ("clear", [part]) => texts::clear(locale, part, out),
        ("asks", []) => keywords::asks(alloc, locale, out),
        ("load", []) => providing::say(locale, payloads, out),
        ("merge", [text]) => laws::prefer(alloc, locale, text, out),
        _ => Ok(out.push_str("no such call")?),
    }
}

/// The answer to the words of a line, or why its text is no locale.
fn answer_words<'a>(
    alloc: Global,
    words: &[&'a str],
    payloads: &mut Payloads<'a>,
    out: &mut String,
) -> Result<(), ParseError> {
    match words {
        ["extension", text] => parts::extension(alloc, text, out),
        ["attributes", text] => parts::attributes(alloc, text, out),
        ["fields", text] => parts::fields(alloc, text, out),
        ["kinds", text] => kinds::say(text, out),
        ["shorten", text] => laws::shorten(alloc, text, out),
        ["judge", text] => laws::judge(text, out),
        ["line", text] => laws::write_line(alloc, text, out),
        ["payload", text, payload] => providing::put(payloads, text, payload, out),
        [call, text, others @ ..] => {
            let mut locale = Locale::try_from_str(alloc, text)?;
            called(alloc, call, &mut locale, others, payloads, out)
        }
        _ => Ok(out.push_str("no such call")?),
    }
}

/// The answer to a line.
fn answer<'a>(
    alloc: Global,
    line: &'a str,
    payloads: &mut Payloads<'a>,
    out: &mut String,
) -> Result<(), ParseError> {
    let words = line.split(' ').collect::<Vec<&str>>(alloc)?;
    answer_words(alloc, words.as_slice(), payloads, out)
}

/// Answers each of the lines.
fn answer_all<'a>(
    rt: HostRuntime,
    lines: &'a str,
    payloads: &mut Payloads<'a>,
    out: &mut String,
) -> anyhow::Result<()> {
    for line in lines.lines() {
        out.clear();
        match answer(rt.alloc(), line, payloads, out) {
            Ok(()) => println!(rt; "{out}")?,
            Err(ParseError::OutOfMemory) => return Err(ParseError::OutOfMemory.into()),
            Err(refusal) => println!(rt; "refused: {refusal}")?,
        }
    }
    Ok(())
}

/// Says what the program `locale_normal` answers and refuses, and what rows of old raw forms are carried to.
fn end(rt: HostRuntime, out: &mut String) -> anyhow::Result<()> {
    others::normalize(rt.alloc(), "EN-us\nen-\n", out)?;
    print!(rt; "{out}")?;
    others::refusals(rt.alloc(), "EN-us\nen-foo\n", out)?;
    print!(rt; "{out}")?;
    for row in ["en\0und", "en\0EN\0", "en"] {
        others::carry(rt.alloc(), row, out)?;
        println!(rt; "{out}")?;
    }
    Ok(())
}

fn main(rt: HostRuntime) -> anyhow::Result<()> {
    let alloc = rt.alloc();
    let input = io::read_to_string(alloc, rt.reader())?;
    let mut payloads = HashMap::new(alloc);
    let mut out = String::new(alloc);
    answer_all(rt, input.as_str(), &mut payloads, &mut out)?;
    end(rt, &mut out)
}
