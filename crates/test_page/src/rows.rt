//! The rows of a program: each is parsed, answered, and put on a page.
use crate::answering::Ask;
use crate::{argument, number, say, unescape};
use std::alloc::{AllocError, Global};

/// Room for an argument, and for an answer that is not said.
const ROOM: usize = 1_048_576;

/// Room for all answers.
const PAGE: usize = 8_388_608;

/// A call: its name, and the arguments of its row.
#[derive(Clone, Copy)]
pub struct Call<'a> {
    pub alloc: Global,
    pub name: &'a str,
    pub first: &'a [u8],
    pub second: &'a [u8],
    pub third: &'a [u8],
}

/// A program of rows.
pub trait Program {
    /// Says the answer to the call.
    fn answer(&mut self, call: &Call<'_>, out: &mut String);
}

/// Room for the arguments of a row.
#[derive(Drop)]
struct Room {
    text: String,
    first: Vec<u8>,
    second: Vec<u8>,
    third: Vec<u8>,
}

impl Room {
    fn new(alloc: Global) -> Result<Self, AllocError> {
        Ok(Room {
            text: String::with_capacity(alloc, ROOM)?,
            first: Vec::with_capacity(alloc, ROOM)?,
            second: Vec::with_capacity(alloc, ROOM)?,
            third: Vec::with_capacity(alloc, ROOM)?,
        })
    }
}

// Puts into the room the bytes that the argument stands for.
fn read(written: &str, text: &mut String, room: &mut Vec<u8>) {
    argument::expand(written, text);
    unescape(text.as_str(), room)
}

// The answer to a row.
fn row<P: Program>(alloc: Global, line: &str, program: &mut P, room: &mut Room, out: &mut String) {
    let (name, rest) = line.split_once('\t').unwrap_or((line, ""));
    let (first, rest) = rest.split_once('\t').unwrap_or((rest, ""));
    let (second, third) = rest.split_once('\t').unwrap_or((rest, ""));
    read(first, &mut room.text, &mut room.first);
    read(second, &mut room.text, &mut room.second);
    read(third, &mut room.text, &mut room.third);
    let call = Call {
        alloc,
        name,
        first: room.first.as_slice(),
        second: room.second.as_slice(),
        third: room.third.as_slice(),
    };
    program.answer(&call, out);
    say(out, "\n");
}

/// The answers of the program to all rows. All the room for them is asked for before the first.
pub fn page<P: Program>(alloc: Global, input: &str, program: &mut P) -> Result<String, AllocError> {
    let mut room = Room::new(alloc)?;
    let mut out = String::with_capacity(alloc, PAGE)?;
    for line in input.lines() {
        row(alloc, line, program, &mut room, &mut out);
    }
    Ok(out)
}

/// A program of rows that ask types: `two-TYPE`, `change-TYPE` and `TYPE-CALL` (`Ask`), `made-WHAT` and `text-WHAT`.
pub trait Asking {
    /// Says what is asked of the type.
    fn ask(&self, what: &str, ask: Ask<'_>, call: &Call<'_>, out: &mut String);

    /// Makes a value, and says what is asked of it.
    fn make(&self, what: &str, call: &Call<'_>, out: &mut String);

    /// Says the answer to a call of a text.
    fn text(&self, what: &str, call: &Call<'_>, out: &mut String);
}

/// Such a program, whose rows may name, as their third argument, the answer that is wanted.
#[derive(Drop)]
pub struct Judged<P> {
    program: P,
    answer: String,
}

impl<P: Asking + Drop> Judged<P> {
    /// That program, with room for an answer.
    pub fn new(alloc: Global, program: P) -> Result<Self, AllocError> {
        let answer = String::with_capacity(alloc, ROOM)?;
        Ok(Judged { program, answer })
    }
}

// Says the answer to the call.
fn called<P: Asking>(program: &P, call: &Call<'_>, out: &mut String) {
    match call.name.split_once('-') {
        Some(("made", what)) => program.make(what, call, out),
        Some(("text", what)) => program.text(what, call, out),
        Some(("two", what)) => program.ask(what, Ask::Two, call, out),
        Some(("change", what)) => program.ask(what, Ask::Steps, call, out),
        Some((what, asked)) => program.ask(what, Ask::One(asked), call, out),
        None => program.ask(call.name, Ask::One(""), call, out),
    }
}

// Says how long the answer is, if it is the one that is wanted.
fn judge(answer: &str, wanted: &[u8], out: &mut String) {
    if answer.as_bytes() == wanted {
        say(out, "as wanted, ");
        number(out, answer.len());
        say(out, " bytes");
    } else {
        say(out, answer);
    }
}

impl<P: Asking> Program for Judged<P> {
    fn answer(&mut self, call: &Call<'_>, out: &mut String) {
        if call.third.is_empty() {
            called(&self.program, call, out);
        } else {
            self.answer.clear();
            called(&self.program, call, &mut self.answer);
            judge(self.answer.as_str(), call.third, out);
        }
    }
}
