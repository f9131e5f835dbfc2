//! Picks, of the languages that a program has, the best for what a user asks for.
//!
//! The first line of the input names the locales that the program has. Each further line names those that a user asks
//! for, the most wanted first, and is answered by the first of them that is there, with its extensions, or by `none`.
//! One that is not there is looked up without its last part, and so on: its variants from the last on, its region, its
//! script and its language go in this order (UTS #35, "Locale Inheritance and Matching"). A text that is no locale is
//! passed over.
#![tactic(auto)]

ghost use Rattle.std.specs.Prelude.{◌≡◌, Any, IsTrue};
ghost use Rattle.icu_locale_core.specs.Reads.{value_of};
ghost use Rattle.example_negotiate.specs.Fallback.{IsLeftOf};

use icu_locale_core::langid::equality;
use icu_locale_core::{LanguageIdentifier, Locale, ParseError};
use std::alloc::{AllocError, Global};
use std::io;

/// The locales of a line.
fn read_all(alloc: Global, line: &str) -> Result<Vec<Locale>, AllocError> {
    let mut locales = Vec::new(alloc);
    for text in line.split_ascii_whitespace() {
        match Locale::try_from_str(alloc, text) {
            Ok(locale) => locales.push(locale)?,
            Err(ParseError::OutOfMemory) => return Err(AllocError),
            Err(_) => (),
        }
    }
    Ok(locales)
}

/// Whether one of the locales has this identifier.
fn is_there(wanted: &LanguageIdentifier, available: &[Locale]) -> bool
    ensures { IsTrue result → Any (λ one. value_of one.id ≡ value_of wanted.now) available.now }
{
    equality();
    for one in available {
        if one.id == *wanted {
            return true;
        }
    }
    false
}

/// Drops the last part of the identifier, until it is there or nothing is left; whether it is there.
fn fall_back(wanted: &mut LanguageIdentifier, available: &[Locale]) -> bool
    ensures there { IsTrue result
        → Any (λ one. value_of one.id ≡ value_of wanted.new) available.now }
    ensures left { IsLeftOf (value_of wanted.old) (value_of wanted.new) }
{
    'parents: while !is_there(wanted, available) {
        if !wanted.truncate_to_parent() {
            return false;
        }
    }
    true
}

/// The first of the wanted locales that is there, or what is left of it.
fn negotiate<'a>(wanted: &'a mut [Locale], available: &[Locale]) -> Option<&'a Locale> {
    for locale in wanted {
        if fall_back(&mut locale.id, available) {
            return Some(locale);
        }
    }
    None
}

/// Says which locale is picked.
fn say(rt: HostRuntime, picked: Option<&Locale>) -> io::Result<()> {
    match picked {
        Some(locale) => println!(rt; "{locale}"),
        None => println!(rt; "none"),
    }
}

/// Answers a line.
fn answer(rt: HostRuntime, line: &str, available: &[Locale]) -> anyhow::Result<()> {
    let mut wanted = read_all(rt.alloc(), line)?;
    Ok(say(rt, negotiate(wanted.as_mut_slice(), available))?)
}

/// Answers each of the lines.
fn answer_all(rt: HostRuntime, lines: &str, available: &[Locale]) -> anyhow::Result<()> {
    for line in lines.lines() {
        answer(rt, line, available)?;
    }
    Ok(())
}

/// Answers all lines but the first, which names what there is.
fn run(rt: HostRuntime, input: &str) -> anyhow::Result<()> {
    let (first, others) = input.split_once('\n').unwrap_or(("", ""));
    let available = read_all(rt.alloc(), first)?;
    answer_all(rt, others, available.as_slice())
}

fn main(rt: HostRuntime) -> anyhow::Result<()> {
    let input = io::read_to_string(rt.alloc(), rt.reader())?;
    run(rt, input.as_str())
}
