//! Table tests of keywords and preferences. A test is a line `CALL TAB argument TAB argument TAB argument` of `stdin`
//! and the same line of `stdout`. For example, `keyword-hc TAB c12` gives `c12 | c12 | c12`.
//!
//! Calls that begin with `keyword-` are of the types of keywords, and stand in `keywords`. All others are of
//! preferences. An argument is parsed as a locale, in `langid-..` as an identifier. Preferences of a locale answer
//! `Ok` or `Err` if they are parsed strictly, then their data locales, language first and region first, and then the
//! locale that they become, all joined by `|`. Those of a formatter answer their data locale, `nu`, `hc` and `ca`,
//! those of a time formatter the first three. A refusal is `! ` and its words.
//!
//! The tests of keywords come from their table, and those of preferences from worked examples and vectors:
//! vectors/README.md says where these came from. `grow.in` has calls that may allocate, `still.in` calls that
//! allocate nothing. The program asks for all the memory that it needs before the first test, so that every later
//! request is one of the library's. Only generic functions own what was parsed, so that dropping it is proved only
//! once.
#![tactic(auto)]

mod answering;
mod enums;
mod formatters;
mod keyword;
mod keywords;
mod locales;
mod variants;

use answering::{answer_parsed, extended, handed_over};
use iloc_data::{DataLocale, FormatPreferences, TimePreferences};
use iloc_langid::LanguageIdentifier;
use iloc_locale::Locale;
use std::alloc::Global;
use std::io;
use test_page::{Call, Program, page};

#[derive(Drop)]
struct Rows;

// What a call answers of the first argument, extended by the second and the third; that is `und` if it is not there.
fn merged(call: &Call<'_>, out: &mut String) {
    let alloc = call.alloc;
    let third = if call.third.is_empty() {
        b"und"
    } else {
        call.third
    };
    extended(
        alloc,
        Locale::try_from_utf8(alloc, call.first),
        Locale::try_from_utf8(alloc, call.second),
        Locale::try_from_utf8(alloc, third),
        call.name,
        out,
    )
}

// What a call answers of an identifier, or made of one that is handed over.
fn identifier(alloc: Global, name: &str, text: &[u8], out: &mut String) {
    let read = LanguageIdentifier::try_from_utf8(alloc, text);
    match name {
        "langid-data-owned" => handed_over::<LanguageIdentifier, DataLocale>(out, read),
        "langid-format-owned" => handed_over::<LanguageIdentifier, FormatPreferences>(out, read),
        "langid-time-owned" => handed_over::<LanguageIdentifier, TimePreferences>(out, read),
        _ => answer_parsed(alloc, read, name, out),
    }
}

// What a call answers of a locale, or made of one that is handed over.
fn locale(alloc: Global, name: &str, text: &[u8], out: &mut String) {
    let read = Locale::try_from_utf8(alloc, text);
    match name {
        "data-owned" => handed_over::<Locale, DataLocale>(out, read),
        "format-owned" => handed_over::<Locale, FormatPreferences>(out, read),
        "time-owned" => handed_over::<Locale, TimePreferences>(out, read),
        _ => answer_parsed(alloc, read, name, out),
    }
}

impl Program for Rows {
    fn answer(&mut self, call: &Call<'_>, out: &mut String) {
        if let Some(name) = call.name.strip_prefix("keyword-") {
            return keywords::answer(name, call, out);
        }
        match call.name {
            "default" => locales::default(call.alloc, out),
            "extend" | "format-extend" | "time-extend" => merged(call, out),
            name if name.starts_with("langid-") => identifier(call.alloc, name, call.first, out),
            name => locale(call.alloc, name, call.first, out),
        }
    }
}

fn main(rt: HostRuntime) -> io::Result<()> {
    let alloc = rt.alloc();
    let input = io::read_to_string(alloc, rt.reader())?;
    let page = page(alloc, input.as_str(), &mut Rows)?;
    print!(rt; "{page}")
}
