//! Table tests of lists, maps, sets of subtags and printing. A test is a line `CALL TAB argument TAB argument` of
//! `stdin` and the same line of `stdout`. For example, `ascending TAB abb` gives `false`. The tests make every public
//! call of short lists, maps, sets of subtags, and printing.
//!
//! `steps-KIND` makes calls that change a value, one after the other: `steps-set TAB push.POSIX push.Macos`. Its
//! answer is the value before, the answer of the first step, the value after it, and so on, joined by ` | `. A step
//! that runs out of memory ends the test: `! Out of memory`, and the value as it is then. `two-KIND` compares two
//! values, `sizes-KIND` builds one of many numbers, and `print-..` prints a text or a set. `bytes-KIND` says how many
//! bytes a list has in place: a tag, a length and four subtags of eight bytes have 40.
//!
//! The program asks for all the memory that it needs before the first test, so that every later request is one that a
//! test makes. It stands on `test_page` and the crates whose calls it makes.
#![tactic(auto)]

mod lists;
mod maps;
mod pairs;
mod printing;
mod sets;
mod sizes;
mod steps;

use iloc_litemap::LiteMap;
use iloc_shortvec::{ShortBoxSlice, ShortWords};
use iloc_subtags::Subtag;
use iloc_word_list::{Variants, is_strictly_ascending};
use lists::Listed;
use sizes::Room;
use std::io;
use std::mem::size_of;
use test_page::{Call, Program, number, page, truth};

/// The answer to steps on a value of the kind, which begins without items.
fn step_by_step(kind: &str, call: &Call<'_>, room: &mut Vec<u16>, out: &mut String) {
    let (alloc, script) = (call.alloc, call.first);
    match kind {
        "words" => steps::take(alloc, room, Listed(ShortWords::<u16>::new()), script, out),
        "boxes" => steps::take(
            alloc,
            room,
            Listed(ShortBoxSlice::<u16>::new()),
            script,
            out,
        ),
        "set" => steps::take(alloc, room, Variants::new(), script, out),
        "map" => {
            let map = LiteMap::<u16, u16, ShortBoxSlice<(u16, u16)>>::new(alloc);
            steps::take(alloc, room, map, script, out)
        }
        _ => steps::take(alloc, room, maps::Long::new(alloc), script, out),
    }
}

/// How many bytes a list of the kind has in place.
fn bytes_of(kind: &str) -> usize {
    match kind {
        "variants" => size_of::<Variants>(),
        "words" => size_of::<ShortWords<Subtag>>(),
        _ => size_of::<ShortBoxSlice<Subtag>>(),
    }
}

impl Program for Room {
    fn answer(&mut self, call: &Call<'_>, out: &mut String) {
        match call.name.split_once('-') {
            Some(("steps", kind)) => step_by_step(kind, call, &mut self.numbers, out),
            Some(("two", kind)) => pairs::answer(kind, call, &mut self.numbers, out),
            Some(("print", what)) => printing::answer(what, call, &mut self.numbers, out),
            Some(("bytes", kind)) => number(out, bytes_of(kind)),
            Some(("sizes", kind)) => sizes::answer(kind, call, self, out),
            _ => truth(out, is_strictly_ascending(call.first)),
        }
    }
}

fn main(rt: HostRuntime) -> io::Result<()> {
    let alloc = rt.alloc();
    let input = io::read_to_string(alloc, rt.reader())?;
    let mut room = Room::new(alloc)?;
    let page = page(alloc, input.as_str(), &mut room)?;
    print!(rt; "{page}")
}
