//! Table tests of identifiers, locales, data locales, subdivisions and extensions. A test is a line
//! `CALL TAB argument TAB argument` of `stdin` and the same line of `stdout`. For example,
//! `locale-cmp TAB en-US TAB en` gives `Greater`.
//!
//! The first word of a call is the type that the first argument is parsed as, the second what is asked of it:
//! `locale-cmp`. `two-TYPE` parses both arguments and compares them. `change-TYPE` takes the steps of the second
//! argument on the first. `made-TYPE` makes a value of parts and asks the second of it. `text-CALL` is a call of a
//! text. The calls of JSON, of old raw forms and of refusals stand in `json`. Calls of parts of extensions are tested in
//! `test_part_rows`.
//!
//! An answer is the printed text, or what each call says. A refusal is `! ` and its words. Calls that change a value,
//! and those that may allocate, say what it was, the answer, and what it is, joined by ` | `. Of several steps the
//! one that is refused ends the test. A test with a third argument names the answer that is wanted. It says only how
//! long the answer is, or the answer itself if it is another.
//!
//! The program asks for all the memory that it needs before the first test, so that every later request is one of the
//! libraries'. The tests come from the vectors of vectors/README.md and from the tables of the Rust crate's tests.
//! `grow.in` has calls that may allocate, `still.in` calls that allocate nothing.
#![tactic(auto)]

mod built;
mod changes;
mod identifiers;
mod json;
mod locales;
mod refusals;
mod texts;

use iloc_data::DataLocale;
use iloc_extensions::Extensions;
use iloc_keyword_types::SubdivisionId;
use iloc_langid::LanguageIdentifier;
use iloc_locale::Locale;
use std::io;
use test_page::answering::{answer, answer_parsed};
use test_page::{Ask, Asking, Call, Judged, page, say};

/// The program: what it asks of a type stands at the type's `impl` of `Answering`.
#[derive(Drop)]
pub struct Rows;

impl Asking for Rows {
    fn ask(&self, what: &str, ask: Ask<'_>, call: &Call<'_>, out: &mut String) {
        match what {
            "langid" => answer::<Rows, LanguageIdentifier>(ask, call, out),
            "head" => {
                let read = LanguageIdentifier::try_from_locale_bytes(call.alloc, call.first);
                answer_parsed::<Rows, LanguageIdentifier>(call.alloc, read, "", call.second, out)
            }
            "locale" => answer::<Rows, Locale>(ask, call, out),
            "ordered" => locales::keys(ask, call, out),
            "data" => answer::<Rows, DataLocale>(ask, call, out),
            "subdivision" => answer::<Rows, SubdivisionId>(ask, call, out),
            "extensions" => answer::<Rows, Extensions>(ask, call, out),
            "to" | "write" | "from" | "each" | "io" | "carry" | "error" => json::answer(
                what, call, out,
            ),
            _ => say(out, "no call"),
        }
    }

    fn make(&self, what: &str, call: &Call<'_>, out: &mut String) {
        built::answer(what, call, out)
    }

    fn text(&self, what: &str, call: &Call<'_>, out: &mut String) {
        texts::answer(what, call, out)
    }
}

fn main(rt: HostRuntime) -> io::Result<()> {
    let alloc = rt.alloc();
    let input = io::read_to_string(alloc, rt.reader())?;
    let mut rows = Judged::new(alloc, Rows)?;
    let page = page(alloc, input.as_str(), &mut rows)?;
    print!(rt; "{page}")
}
