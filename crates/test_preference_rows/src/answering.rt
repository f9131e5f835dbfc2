//! What calls answer of values that were parsed. Only the generic functions here own such a value.
use iloc_subtags::ParseError;
use iloc_writeable::Writeable;
use std::alloc::{AllocError, Global};
use test_page::{put, refuse, refused};

/// A type that answers calls.
pub trait Answering: Sized {
    /// What the call answers.
    fn answer(&mut self, alloc: Global, call: &str, out: &mut String);

    /// What the call answers of this, extended by the two others in turn.
    fn answer_extended(&self, alloc: Global, by: &Self, then: &Self, call: &str, out: &mut String);
}

/// Says what the call answers of what was parsed, or why it was refused.
pub fn answer_parsed<W: Answering + Drop>(
    alloc: Global,
    read: Result<W, ParseError>,
    call: &str,
    out: &mut String,
) {
    match read {
        Ok(mut value) => value.answer(alloc, call, out),
        Err(error) => refuse(out, error),
    }
}

/// Says what the call answers of three, or why one was refused.
pub fn extended<W: Answering + Drop>(
    alloc: Global,
    one: Result<W, ParseError>,
    by: Result<W, ParseError>,
    then: Result<W, ParseError>,
    call: &str,
    out: &mut String,
) {
    match (one, by, then) {
        (Ok(one), Ok(by), Ok(then)) => one.answer_extended(alloc, &by, &then, call, out),
        (Err(error), _, _) => refuse(out, error),
        (_, Err(error), _) => refuse(out, error),
        (_, _, Err(error)) => refuse(out, error),
    }
}

/// Says what was made, or that an allocation failed.
pub fn made<W: Writeable + Drop>(out: &mut String, value: Result<W, AllocError>) {
    match value {
        Ok(value) => put(out, &value),
        Err(_) => refused(out),
    }
}

/// What can be made of a value that is handed over.
pub trait Making: Sized {
    /// Says it.
    fn said(&self, out: &mut String);
}

/// Says what is made of a value that is handed over.
pub fn handed_over<W: Drop, P: From<W> + Making + Drop>(
    out: &mut String,
    read: Result<W, ParseError>,
) {
    match read {
        Ok(value) => P::from(value).said(out),
        Err(error) => refuse(out, error),
    }
}
