//! Why the value of a keyword is refused by the type of the keyword.
ghost use Rattle.std.specs.Prelude.{◌≡◌};
ghost use Rattle.iloc_word_list.specs.Refusals.{words_of};
ghost use Rattle.iloc_word_list.specs.declared.errors.PreferencesParseError.TheVariants.{OutOfMemory};

use std::alloc::{AllocError, AllocFailed};
use thiserror::Error;

/// Why the value of a keyword is refused, or that memory has run out. It prints its words.
#[derive(Clone, Debug, Drop, Error, PartialEq, Eq)]
#[error("{}", self.words())]
pub enum PreferencesParseError {
    /// The value is none of those of the type.
    InvalidKeywordValue,
    /// Memory was refused.
    OutOfMemory,
}

impl PreferencesParseError {
    /// The words of this refusal.
    pub fn words(&self) -> &'static str
        ensures { result.now ≡ words_of self.now }
    {
        match self {
            PreferencesParseError::InvalidKeywordValue => {
                "The given keyword value is not a valid preference variant."
            }
            PreferencesParseError::OutOfMemory => "Out of memory",
        }
    }
}

/// A failed allocation is `OutOfMemory`.
impl From<AllocError> for PreferencesParseError {
    ghost from_gives = { λ _ error. error ≡ OutOfMemory };

    fn from(_error: AllocError) -> PreferencesParseError {
        Self::OutOfMemory
    }
}

/// So is that of a collection, as of `Vec::push`; what could not be stored is dropped.
impl<T: Drop> From<AllocFailed<T>> for PreferencesParseError {
    ghost from_gives = { λ _ error. error ≡ OutOfMemory };

    fn from(_failed: AllocFailed<T>) -> PreferencesParseError {
        Self::OutOfMemory
    }
}
