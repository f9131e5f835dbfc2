//! Why a JSON value is refused.
ghost use Rattle.std.specs.Prelude.{◌≡◌};
ghost use Rattle.iloc_json.specs.Errors.{words_of, json_error};
ghost use Rattle.iloc_json.specs.declared.errors.JsonError.TheVariants.{OutOfMemory};

use iloc_subtags::ParseError;
use std::alloc::{AllocError, AllocFailed};
use thiserror::Error;

/// Why a JSON value is refused, or that memory has run out. It prints its words.
#[derive(Clone, Debug, Drop, Error, PartialEq, Eq)]
#[error("{}", self.words())]
pub enum JsonError {
    /// The value is no string.
    NotText,
    /// The string is refused by the parser.
    Parse(ParseError),
    /// Memory was refused.
    OutOfMemory,
}

impl JsonError {
    /// The words of this refusal.
    pub fn words(&self) -> &'static str
        ensures { result.now ≡ words_of self.now }
    {
        match self {
            JsonError::NotText => "Expected a JSON string",
            JsonError::Parse(error) => error.words(),
            JsonError::OutOfMemory => "Out of memory",
        }
    }
}

/// The refusal of a parser. Its `OutOfMemory` is `OutOfMemory` here.
impl From<ParseError> for JsonError {
    ghost from_gives = { λ refusal error. error ≡ json_error refusal };

    fn from(refusal: ParseError) -> JsonError {
        match refusal {
            ParseError::OutOfMemory => JsonError::OutOfMemory,
            other => JsonError::Parse(other),
        }
    }
}

/// A failed allocation is `OutOfMemory`.
impl From<AllocError> for JsonError {
    ghost from_gives = { λ _ error. error ≡ OutOfMemory };

    fn from(_error: AllocError) -> JsonError {
        Self::OutOfMemory
    }
}

/// So is that of a collection, as of `Vec::push`; what could not be stored is dropped.
impl<T: Drop> From<AllocFailed<T>> for JsonError {
    ghost from_gives = { λ _ error. error ≡ OutOfMemory };

    fn from(_failed: AllocFailed<T>) -> JsonError {
        Self::OutOfMemory
    }
}
