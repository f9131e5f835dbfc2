//! Messages keyed by locales, and looked up by texts.
//!
//! A line `LOCALE TAB MESSAGE` of the input gives a locale its message; of equal locales the first one wins. A line
//! `LOCALE` is answered by the message, by `-` if there is none, or by why it is no locale (UTS #35, section 3).
//! A text that is normal is found by its bytes alone, and no locale is made of it.
#![tactic(auto)]

ghost use Rattle.std.specs.Prelude.{◌≡◌, ◌↔◌, All, Any, IfSome, IsNone, IsTrue};
ghost use Rattle.icu_locale_core.specs.Values.{text as text_of};
ghost use Rattle.icu_locale_core.specs.LocaleReading.{value_of};

use icu_locale_core::{Locale, ParseError};
use std::alloc::Global;
use std::io;

/// Whether the locale prints this text. It allocates nothing.
fn prints(locale: &Locale, text: &[u8]) -> bool
    ensures { IsTrue result ↔ (text_of (value_of locale.now) ≡ text.now) }
{
    locale.strict_cmp(text).is_eq()
}

/// The first message of a locale that prints this text.
fn message<'a>(entries: &[(Locale, &'a str)], text: &[u8]) -> Option<&'a str>
    ensures found { IfSome result (λ m. Any
        (λ e. (text_of (value_of e.0) ≡ text.now) × (e.1 ≡ m)) entries.now) }
    ensures absent { IsNone result
        → All (λ e. ¬ (text_of (value_of e.0) ≡ text.now)) entries.now }
{
    for entry in entries {
        if prints(&entry.0, text) {
            return Some(entry.1);
        }
    }
    None
}

/// The first message of a locale that the text means, however it is spelled.
fn find<'a>(
    alloc: Global,
    entries: &[(Locale, &'a str)],
    text: &str,
) -> Result<Option<&'a str>, ParseError> {
    if let Some(found) = message(entries, text.as_bytes()) {
        return Ok(Some(found));
    }
    let normal = Locale::normalize(alloc, text)?;
    Ok(message(entries, normal.as_str().as_bytes()))
}

/// Gives the locale that the text means this message.
fn put<'a>(
    alloc: Global,
    entries: &mut Vec<(Locale, &'a str)>,
    text: &str,
    message: &'a str,
) -> Result<(), ParseError> {
    let locale = Locale::try_from_str(alloc, text)?;
    match entries.push((locale, message)) {
        Ok(()) => Ok(()),
        Err(_) => Err(ParseError::OutOfMemory),
    }
}

/// Says the message of the text, or why it is no locale.
fn answer(rt: HostRuntime, entries: &[(Locale, &str)], text: &str) -> anyhow::Result<()> {
    match find(rt.alloc(), entries, text) {
        Ok(found) => println!(rt; "{text}: {}", found.unwrap_or("-"))?,
        Err(ParseError::OutOfMemory) => return Err(ParseError::OutOfMemory.into()),
        Err(refusal) => println!(rt; "{text}: {refusal}")?,
    }
    Ok(())
}

/// Takes in the messages and answers the other lines, in order.
fn answer_all<'a>(
    rt: HostRuntime,
    entries: &mut Vec<(Locale, &'a str)>,
    lines: &'a str,
) -> anyhow::Result<()> {
    for line in lines.lines() {
        match line.split_once('\t') {
            Some((text, message)) => put(rt.alloc(), entries, text, message)?,
            None => answer(rt, entries.as_slice(), line)?,
        }
    }
    Ok(())
}

fn main(rt: HostRuntime) -> anyhow::Result<()> {
    let alloc = rt.alloc();
    let input = io::read_to_string(alloc, rt.reader())?;
    let mut entries = Vec::new(alloc);
    answer_all(rt, &mut entries, input.as_str())
}
