//! What each refusal prints, and its words, which are the same; and old raw forms, which are carried or refused.
use iloc_json::{CarryError, JsonError, carry_v1};
use iloc_program::{RunError, ending};
use iloc_subtags::ParseError;
use std::alloc::Global;
use std::error::Error;
use std::fmt::Write;
use test_page::{bytes, number, say};

/// Says the row of new raw forms; whether memory was there.
pub fn carried(alloc: Global, row: &[u8], out: &mut String) -> bool {
    match carry_v1(alloc, row) {
        Ok(carried) => {
            bytes(out, carried.as_slice());
            true
        }
        Err(error) => {
            say(out, "! ");
            say(out, error.words());
            if let CarryError::Word(place) = error {
                say(out, " | ");
                number(out, place);
            }
            error != CarryError::OutOfMemory
        }
    }
}

// What the refusal prints, and its words.
fn shown<E: Error>(out: &mut String, error: &E, words: &str) {
    let _ = write!(out, "{error}");
    say(out, " | ");
    say(out, words);
}

// Why a text is refused, by the name of the case.
fn parse_error(case: &str) -> ParseError {
    match case {
        "InvalidLanguage" => ParseError::InvalidLanguage,
        "InvalidSubtag" => ParseError::InvalidSubtag,
        "InvalidExtension" => ParseError::InvalidExtension,
        "DuplicatedExtension" => ParseError::DuplicatedExtension,
        _ => ParseError::OutOfMemory,
    }
}

// Why a JSON value is refused; a case that is not its own is one of what it passes on.
fn json_error(case: &str) -> JsonError {
    match case {
        "NotText" => JsonError::NotText,
        "OutOfMemory" => JsonError::OutOfMemory,
        _ => JsonError::Parse(parse_error(case)),
    }
}

// Why a row of raw forms is refused.
fn carry_error(case: &str) -> CarryError {
    match case {
        "Length" => CarryError::Length,
        "Word" => CarryError::Word(7),
        _ => CarryError::OutOfMemory,
    }
}

// Why the program stopped.
fn run_error(case: &str) -> RunError {
    match case {
        "Read" => RunError::Read,
        "Write" => RunError::Write,
        _ => RunError::OutOfMemory,
    }
}

// What the program's refusal prints, and what the program writes of it.
fn ended(out: &mut String, outcome: &Result<(), RunError>) {
    let (text, _) = ending(Some(outcome));
    if let Err(error) = outcome {
        shown(out, error, text.strip_suffix("\n").unwrap_or(text));
    }
}

/// Says what the refusal of the type prints, and its words. There is memory.
pub fn refusal_of(kind: &str, case: &str, out: &mut String) -> bool {
    match kind {
        "parse" => {
            let error = parse_error(case);
            shown(out, &error, error.words());
        }
        "json" => {
            let error = json_error(case);
            shown(out, &error, error.words());
        }
        "carry" => {
            let error = carry_error(case);
            shown(out, &error, error.words());
        }
        _ => ended(out, &Err(run_error(case))),
    }
    true
}
