//! What is asked of a type: how its values are parsed, what their calls answer, how two compare, and how steps change
//! one. What each type answers by the same calls stands here once, for any type.
use crate::rows::Call;
use crate::steps::{Step, stepped};
use crate::{hash_of, number, order, put, refuse, refused, say, truth};
use iloc_subtags::ParseError;
use iloc_writeable::{Writeable, to_string_or_borrow};
use std::alloc::{AllocError, Global};
use std::borrow::CowStr;
use std::cmp::Ordering;
use std::hash::Hash;
use std::{fmt, str};

/// A type to which the rows of the program `P` make calls.
pub trait Answering<P>: Clone + PartialEq + Hash + Writeable + fmt::Display + Drop + Sized {
    /// Parses the text.
    fn read(alloc: Global, text: &[u8]) -> Result<Self, ParseError>;

    /// The order of the two.
    fn compare(&self, other: &Self) -> Ordering;

    /// Says what the type's own call answers, for the text.
    fn answer_own(&self, alloc: Global, call: &str, text: &[u8], out: &mut String);

    /// Takes the step and says its answer, with a blank after it; false if an allocation failed.
    fn step(&mut self, step: &Step<'_>, out: &mut String) -> bool {
        say(out, "no step ");
        true
    }
}

/// What a row asks of a type.
#[derive(Clone, Copy)]
pub enum Ask<'a> {
    /// How the two arguments compare.
    Two,
    /// The steps of the second argument on the first.
    Steps,
    /// What this call answers of the first argument, for the second.
    One(&'a str),
}

/// Says the text, and whether it is borrowed.
pub fn lent(out: &mut String, text: CowStr<'_, Global>) {
    match text {
        CowStr::Borrowed(text) => {
            say(out, "B ");
            say(out, text)
        }
        CowStr::Owned(text) => {
            say(out, "O ");
            say(out, text.as_str())
        }
    }
}

/// Says a printed text, and whether it is borrowed, or that an allocation failed.
pub fn whole(out: &mut String, text: Result<CowStr<'_, Global>, AllocError>) {
    match text {
        Ok(text) => lent(out, text),
        Err(_) => refused(out),
    }
}

// Says the hint of length, and the text that is lent.
fn hint<W: Writeable>(out: &mut String, value: &W) {
    let hint = value.writeable_length_hint();
    number(out, hint.0);
    say(out, " ");
    if let Some(most) = hint.1 {
        number(out, most);
    }
    say(out, " ");
    say(out, value.writeable_borrow().unwrap_or("-"))
}

// Says what the value shows.
fn shown<W: fmt::Display>(out: &mut String, value: &W) {
    let _ = write!(out, "{value}");
}

// Says the copy, and whether it is the same.
fn copied<W: Clone + PartialEq + Writeable + Drop>(out: &mut String, value: &W) {
    match value.clone() {
        Ok(copy) => {
            put(out, &copy);
            say(out, " ");
            truth(out, copy == *value)
        }
        Err(_) => refused(out),
    }
}

// Says what the call answers of the value, for the text.
fn asked<P, W: Answering<P>>(alloc: Global, value: &W, call: &str, text: &[u8], out: &mut String) {
    match call {
        "hint" => hint(out, value),
        "shown" => shown(out, value),
        "string" => whole(out, value.write_to_string(alloc)),
        "borrow" => whole(out, to_string_or_borrow(alloc, value, text)),
        "copy" => copied(out, value),
        _ => value.answer_own(alloc, call, text, out),
    }
}

// Whether the call may allocate.
fn may_want(call: &str) -> bool {
    matches!(call, "string" | "borrow" | "copy" | "means")
}

// Says the text of the value, or what the call answers of it. If that may allocate, its text stands on both sides.
fn answer_of<P, W: Answering<P>>(
    alloc: Global,
    value: &W,
    call: &str,
    text: &[u8],
    out: &mut String,
) {
    if call.is_empty() {
        put(out, value);
    } else if may_want(call) {
        put(out, value);
        say(out, " | ");
        asked::<P, W>(alloc, value, call, text, out);
        say(out, " | ");
        put(out, value);
    } else {
        asked::<P, W>(alloc, value, call, text, out);
    }
}

/// Says what the call answers of what was parsed, or why it was refused.
pub fn answer_parsed<P, W: Answering<P>>(
    alloc: Global,
    read: Result<W, ParseError>,
    call: &str,
    text: &[u8],
    out: &mut String,
) {
    match read {
        Ok(value) => answer_of::<P, W>(alloc, &value, call, text, out),
        Err(error) => refuse(out, error),
    }
}

/// Says what the second argument asks of what was made of the first.
pub fn made<P, W: Answering<P>>(call: &Call<'_>, made: Result<W, ParseError>, out: &mut String) {
    let asked = str::from_utf8(call.second).unwrap_or("");
    answer_parsed::<P, W>(call.alloc, made, asked, b"", out)
}

// Says how the two compare: their order, whether they are equal, and if they are whether their hashes are.
fn compared<P, W: Answering<P>>(one: &W, other: &W, out: &mut String) {
    let are_equal = *one == *other;
    order(out, one.compare(other));
    say(out, " ");
    truth(out, are_equal);
    if are_equal {
        say(out, " ");
        truth(out, hash_of(one) == hash_of(other))
    }
}

/// Says how the value compares with what was parsed.
pub fn beside<P, W: Answering<P>>(one: &W, other: Result<W, ParseError>, out: &mut String) {
    match other {
        Ok(other) => compared::<P, W>(one, &other, out),
        Err(error) => refuse(out, error),
    }
}

// Says how the two that were read compare.
fn both<P, W: Answering<P>>(
    one: Result<W, ParseError>,
    other: Result<W, ParseError>,
    out: &mut String,
) {
    match one {
        Ok(one) => beside::<P, W>(&one, other, out),
        Err(error) => refuse(out, error),
    }
}

/// Says what is asked of the type.
pub fn answer<P, W: Answering<P>>(asked: Ask<'_>, call: &Call<'_>, out: &mut String) {
    let alloc = call.alloc;
    match asked {
        Ask::Two => {
            let one = W::read(alloc, call.first);
            both::<P, W>(one, W::read(alloc, call.second), out)
        }
        Ask::Steps => stepped::<P, W>(alloc, W::read(alloc, call.first), call.second, out),
        Ask::One(name) => {
            answer_parsed::<P, W>(alloc, W::read(alloc, call.first), name, call.second, out)
        }
    }
}
