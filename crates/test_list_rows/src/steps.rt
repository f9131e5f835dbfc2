//! Steps on a value: `call.first.second` with blanks between. Each kind of value that steps change has a file of its own.
//! In lists and maps a letter stands as its number.
use std::alloc::{AllocError, Global};
use std::hash::Hash;
use std::str;
use test_page::argument::number_of;
use test_page::{bytes, hash_of, refused, say};

/// What a step calls: each name stands here once, so that a step is a number wherever it is told from others.
#[derive(Clone, Copy, PartialEq, Eq)]
pub enum Verb {
    Push,
    Insert,
    Extend,
    ExtendOnce,
    Vec,
    Iter,
    Single,
    Double,
    New,
    Clone,
    Give,
    Fresh,
    Tell,
    Remove,
    Write,
    Reverse,
    Clear,
    Retain,
    Pairs,
    Stored,
    Map,
    Get,
    Has,
    Set,
    Try,
    Union,
    Word,
    Variant,
    Slice,
    Unknown,
}

/// The verb of the name.
pub fn verb_of(name: &[u8]) -> Verb {
    match str::from_utf8(name).unwrap_or("") {
        "push" => Verb::Push,
        "insert" => Verb::Insert,
        "extend" => Verb::Extend,
        "extend_once" => Verb::ExtendOnce,
        "vec" => Verb::Vec,
        "iter" => Verb::Iter,
        "single" => Verb::Single,
        "double" => Verb::Double,
        "new" => Verb::New,
        "clone" => Verb::Clone,
        "give" => Verb::Give,
        "fresh" => Verb::Fresh,
        "tell" => Verb::Tell,
        "remove" => Verb::Remove,
        "write" => Verb::Write,
        "reverse" => Verb::Reverse,
        "clear" => Verb::Clear,
        "retain" => Verb::Retain,
        "pairs" => Verb::Pairs,
        "stored" => Verb::Stored,
        "map" => Verb::Map,
        "get" => Verb::Get,
        "has" => Verb::Has,
        "set" => Verb::Set,
        "try" => Verb::Try,
        "union" => Verb::Union,
        "word" => Verb::Word,
        "variant" => Verb::Variant,
        "slice" => Verb::Slice,
        _ => Verb::Unknown,
    }
}

/// A step: what is called, the text that stands first, its letters, its number, and the first letters of both texts.
#[derive(Clone, Copy)]
pub struct Step<'a> {
    pub call: Verb,
    pub text: &'a [u8],
    pub letters: &'a [u16],
    pub place: usize,
    pub key: u16,
    pub value: u16,
}

/// The number of the first letter.
fn letter(text: &[u8]) -> u16 {
    u16::from(text.first().copied().unwrap_or(b'-'))
}

/// Puts the numbers of the letters into the room.
pub fn spell(text: &[u8], room: &mut Vec<u16>) {
    room.clear();
    for byte in text {
        let _ = room.push(u16::from(*byte));
    }
}

/// A value that steps change.
pub trait Stepping {
    /// Says how many parts the value has, and they.
    fn state(&self, out: &mut String);

    /// Takes a step and says its answer; false if an allocation failed, and then it says nothing.
    fn step(&mut self, alloc: Global, step: &Step<'_>, out: &mut String) -> bool;

    /// Says how many parts the value has, the first and the last, where letters stand for numbers.
    fn ends(&self, out: &mut String);
}

/// Takes the step of the text, and says its answer or that it was refused.
fn take_one<V: Stepping>(
    alloc: Global,
    room: &mut Vec<u16>,
    value: &mut V,
    text: &[u8],
    out: &mut String,
) -> bool {
    let mut parts = text.split(|byte: &u8| *byte == b'.');
    let call = verb_of(parts.next().unwrap_or(b""));
    let text = parts.next().unwrap_or(b"");
    let second = parts.next().unwrap_or(b"");
    spell(text, room);
    let step = Step {
        call,
        text,
        letters: room.as_slice(),
        place: number_of(text),
        key: letter(text),
        value: letter(second),
    };
    let is_done = value.step(alloc, &step, out);
    if !is_done {
        refused(out);
    }
    is_done
}

/// Takes the steps one by one, up to one that is refused, and says the value before and after each.
pub fn take<V: Stepping + Drop>(
    alloc: Global,
    room: &mut Vec<u16>,
    mut value: V,
    script: &[u8],
    out: &mut String,
) {
    value.state(out);
    for text in script.split(|byte: &u8| *byte == b' ') {
        say(out, " | ");
        let is_done = take_one(alloc, room, &mut value, text, out);
        say(out, " | ");
        value.state(out);
        if !is_done {
            break;
        }
    }
}

/// Says that there was memory, if there was; what was made ends here.
pub fn is_done<T: Drop>(made: Result<T, AllocError>, out: &mut String) -> bool {
    match made {
        Ok(_) => answered("ok", out),
        Err(_) => false,
    }
}

/// Says the answer of a step that allocates nothing.
pub fn answered(answer: &str, out: &mut String) -> bool {
    say(out, answer);
    true
}

/// Puts the value where another was, which ends here; or leaves that if an allocation failed.
pub fn replaced<T: Drop>(place: &mut T, value: Result<T, AllocError>, out: &mut String) -> bool {
    match value {
        Ok(value) => {
            *place = value;
            answered("ok", out)
        }
        Err(_) => false,
    }
}

/// Says whether the value is the same as one that was made another way, in each way of asking.
pub fn compared<T: Ord + Hash + Drop>(
    value: &T,
    made: Result<T, AllocError>,
    out: &mut String,
) -> bool {
    match made {
        Ok(made) => {
            let is_equal = *value == made && value.cmp(&made).is_eq();
            let is_same = is_equal && hash_of(value) == hash_of(&made);
            answered(if is_same { "same" } else { "other" }, out)
        }
        Err(_) => false,
    }
}

/// Says the letter, or that there is none.
pub fn say_letter(item: Option<u16>, out: &mut String) {
    match item {
        Some(item) => bytes(out, &[u8::try_from(item).unwrap_or(b'?')]),
        None => say(out, "none"),
    }
}

/// Says the letters.
pub fn say_letters(items: &[u16], out: &mut String) {
    for item in items {
        say_letter(Some(*item), out);
    }
}
