//! Table tests of short texts, subtags and lines that are answered without building a value. A test is a line `CALL TAB argument TAB argument` of
//! `stdin` and the same line of `stdout`. For example, `word-language TAB German` gives `german german\x00\x00`. The
//! tests make every public call of short texts, of subtags of each kind, of refusals, of `iloc_pieces`, and of outline
//! texts.
//!
//! A call that parses answers what it parsed, or `! ` and the words of the refusal. `tiny-N`, `text-N` and
//! `tinyraw-N` parse a short text of a size. `CALL-KIND` makes a call of a subtag of the kind, and `two-tiny`
//! compares two short texts. A call of one word stands in `single`. `line-CALL` says what a line is (`lines`), and
//! `outline-MODE` gives the normal text of a text by its outline (`outlines`). `expected-MODE` says what may stand at a
//! place, `kind-number` what a kind of piece is called, and `hint-MODE` what is usually meant by a refused text (`places`).
//!
//! No test allocates: the program asks for all the memory that it needs before the first one. It stands on
//! `test_page` and the crates whose calls it makes.
#![tactic(auto)]

mod lines;
mod outlines;
mod places;
mod single;
mod tiny;
mod words;

use std::io;
use test_page::{Call, Program, page};

#[derive(Drop)]
struct Rows;

impl Program for Rows {
    fn answer(&mut self, call: &Call<'_>, out: &mut String) {
        let (a, b) = (call.first, call.second);
        match call.name.split_once('-') {
            Some((reader @ ("text" | "tiny" | "tinyraw"), size)) => {
                tiny::answer(reader, size, a, out)
            }
            Some(("two", _)) => tiny::compared(a, b, out),
            Some(("line", what)) => lines::answer(what, a, b, out),
            Some(("expected", mode)) => places::answer_expected(mode, a, b, out),
            Some(("kind", _)) => places::answer_kind(a, out),
            Some(("hint", mode)) => places::answer_hint(mode, a, out),
            Some(("outline", what)) => outlines::answer(what, a, b, out),
            Some((what, kind)) => words::answer(what, kind, a, b, out),
            None => single::answer(call.name, a, b, out),
        }
    }
}

fn main(rt: HostRuntime) -> io::Result<()> {
    let alloc = rt.alloc();
    let input = io::read_to_string(alloc, rt.reader())?;
    let page = page(alloc, input.as_str(), &mut Rows)?;
    print!(rt; "{page}")
}
