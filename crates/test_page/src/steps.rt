//! Steps on a value: what it is before, the answer and `ok`, and what it is after each step. A step `call.first.second`
//! stands between blanks. After one that is refused, the row ends with what the value is then.
use crate::answering::Answering;
use crate::{put, refuse, refused, say};
use iloc_subtags::{ParseError, WordKind, WordOf};
use iloc_writeable::Writeable;
use std::alloc::{AllocError, Global};

/// A step: what is called, and two texts.
#[derive(Clone, Copy)]
pub struct Step<'a> {
    pub alloc: Global,
    pub call: &'a [u8],
    pub first: &'a [u8],
    pub second: &'a [u8],
}

/// What takes in another value, in rows of the program `P`.
pub trait Growing<P, O> {
    /// Takes it in; false if an allocation failed.
    fn grow(&mut self, alloc: Global, other: O) -> bool;
}

/// What holds values by keys, in rows of the program `P`.
pub trait Setting<P, K, V> {
    /// Sets the value of the key, and gives the old one.
    fn set_at(&mut self, alloc: Global, key: K, value: V) -> Result<Option<V>, AllocError>;
}

/// Takes in what was parsed; false if it was refused.
pub fn takes_in<P, W: Growing<P, O>, O: Drop>(
    alloc: Global,
    one: &mut W,
    other: Result<O, ParseError>,
) -> bool {
    match other {
        Ok(other) => one.grow(alloc, other),
        Err(_) => false,
    }
}

/// Sets what was parsed and says the old value; false if something was refused.
pub fn sets<P, W: Setting<P, K, V>, K: Copy, V: Writeable + Drop>(
    alloc: Global,
    one: &mut W,
    key: Result<K, ParseError>,
    value: Result<V, ParseError>,
    out: &mut String,
) -> bool {
    match (key, value) {
        (Ok(key), Ok(value)) => says_old(out, one.set_at(alloc, key, value)),
        _ => false,
    }
}

/// Whether a step was done; what it answered ends here.
pub fn is_done<T: Drop>(step: Result<T, AllocError>) -> bool {
    step.is_ok()
}

/// Says the old value, which ends here, or `none`; false if an allocation failed.
pub fn says_old<W: Writeable + Drop>(out: &mut String, old: Result<Option<W>, AllocError>) -> bool {
    match old {
        Ok(old) => {
            match &old {
                Some(old) => put(out, old),
                None => say(out, "none"),
            }
            say(out, " ");
            true
        }
        Err(_) => false,
    }
}

/// Puts what was parsed where another value was, which ends here.
pub fn replaces<T: Drop>(place: &mut T, value: Result<T, ParseError>) -> bool {
    match value {
        Ok(value) => {
            *place = value;
            true
        }
        Err(_) => false,
    }
}

/// Puts what was parsed in a place for one value.
pub fn fills<T: Drop>(place: &mut Option<T>, value: Result<T, ParseError>) -> bool {
    match value {
        Ok(value) => {
            *place = Some(value);
            true
        }
        Err(_) => false,
    }
}

/// The words of the text, which stand between hyphens.
pub fn words<K: WordKind<N>, const N: usize>(
    alloc: Global,
    text: &[u8],
) -> Result<Vec<WordOf<K, N>>, ParseError> {
    let mut all = Vec::new(alloc);
    for piece in text
        .split(|byte: &u8| *byte == b'-')
        .filter(|piece: &&[u8]| !piece.is_empty())
    {
        let word = WordOf::<K, N>::try_from_utf8(piece)?;
        all.push(word).map_err(|_| ParseError::OutOfMemory)?;
    }
    Ok(all)
}

/// Whether the turns have a `1` at this one, which is counted.
pub fn has_turn(turns: &[u8], turn: &mut usize) -> bool {
    let is_kept = turns.get(*turn) == Some(&b'1');
    *turn = turn.saturating_add(1);
    is_kept
}

// Takes the step of the text.
fn take<P, W: Answering<P>>(alloc: Global, value: &mut W, text: &[u8], out: &mut String) -> bool {
    let mut parts = text.split(|byte: &u8| *byte == b'.');
    let step = Step {
        alloc,
        call: parts.next().unwrap_or(b""),
        first: parts.next().unwrap_or(b""),
        second: parts.next().unwrap_or(b""),
    };
    value.step(&step, out)
}

// Takes the steps one by one, up to one that is refused.
fn takes<P, W: Answering<P>>(alloc: Global, value: &mut W, script: &[u8], out: &mut String) {
    put(out, value);
    for text in script.split(|byte: &u8| *byte == b' ') {
        say(out, " | ");
        let is_done = take::<P, W>(alloc, value, text, out);
        if is_done {
            say(out, "ok");
        } else {
            refused(out);
        }
        say(out, " | ");
        put(out, value);
        if !is_done {
            break;
        }
    }
}

/// Takes the steps on what was parsed.
pub fn stepped<P, W: Answering<P>>(
    alloc: Global,
    read: Result<W, ParseError>,
    script: &[u8],
    out: &mut String,
) {
    match read {
        Ok(mut value) => takes::<P, W>(alloc, &mut value, script, out),
        Err(error) => refuse(out, error),
    }
}
