//! What is said on standard error.

use crate::words::TROUBLE;
use std::alloc::{AllocError, Global};
use std::{fmt, io};

// A text as it is said: UTF-8 without control characters as it is, else each byte that is not printable ASCII as `\x` and
// two digits.
#[derive(Drop)]
struct Shown<'a>(&'a [u8]);

impl fmt::Display for Shown<'_> {
    fn fmt<W: fmt::Write>(&self, f: &mut fmt::Formatter<W>) -> fmt::Result {
        match std::str::from_utf8(self.0) {
            Ok(text) if !self.0.iter().any(|byte| byte.is_ascii_control()) => f.write_str(text),
            _ => self.write_bytes(f),
        }
    }
}

impl Shown<'_> {
    fn write_bytes<W: fmt::Write>(&self, f: &mut fmt::Formatter<W>) -> fmt::Result {
        for byte in self.0 {
            match *byte {
                b' '..=b'~' => f.write_char(*byte as char)?,
                other => write!(f, "\\x{other:02x}")?,
            }
        }
        Ok(())
    }
}

/// Says what happened.
pub fn say(rt: &impl Eprint, what: &str) {
    let _ = eprintln!(rt; "locid: {what}");
}

/// Says what is wrong with the arguments, and what is shown of them.
pub fn complain(rt: &impl Eprint, what: &str, shown: &[u8]) {
    let shown = Shown(shown);
    let _ = eprintln!(rt; "locid: {what}{shown}\nlocid --help says more");
}

/// Says why a stream failed, and returns the status.
pub fn complain_of_stream(
    rt: &(impl Eprint + AllocGlobal),
    what: &str,
    error: Option<io::Error>,
) -> u8 {
    let said = match error {
        Some(error) => reason_of(rt.alloc(), error),
        None => Err(AllocError),
    };
    let reason = match &said {
        Ok(text) => without_code(text.as_str()),
        Err(AllocError) => "failed",
    };
    let _ = eprintln!(rt; "locid: {what}: {reason}");
    TROUBLE
}

// The system's words for an error, with its number.
fn reason_of(alloc: Global, error: io::Error) -> Result<String, AllocError> {
    format!(in alloc; "{error}")
}

// The system's words for an error, without its number.
fn without_code(text: &str) -> &str {
    match text.split_once(" (os error ") {
        Some((words, _)) => words,
        None => text,
    }
}
