//! Why a text is refused.
ghost use Rattle.std.specs.Prelude.{◌≡◌};
ghost use Rattle.iloc_subtags.specs.ParseError.{words_of};
ghost use Rattle.iloc_subtags.specs.declared.parse_error.ParseError.TheVariants.{OutOfMemory};

use std::alloc::{AllocError, AllocFailed};
use thiserror::Error;

/// Why a text is refused, or that memory has run out. It prints its words.
#[derive(Clone, Debug, Drop, Error, PartialEq, Eq)]
#[error("{}", self.words())]
pub enum ParseError {
    /// The first piece is no language, or a text that is to be a language is none.
    InvalidLanguage,
    /// A piece does not fit where it stands, or a text is no script, region, variant or subtag.
    InvalidSubtag,
    /// An extension does not follow its rules, or a text is no subtag of an extension.
    InvalidExtension,
    /// An extension begins a second time.
    DuplicatedExtension,
    /// Memory was refused.
    OutOfMemory,
}

impl ParseError {
    /// The words of this refusal.
    pub fn words(&self) -> &'static str
        ensures { result.now ≡ words_of self.now }
    {
        match self {
            ParseError::InvalidLanguage => "The given language subtag is invalid",
            ParseError::InvalidSubtag => "Invalid subtag",
            ParseError::InvalidExtension => "Invalid extension",
            ParseError::DuplicatedExtension => "Duplicated extension",
            ParseError::OutOfMemory => "Out of memory",
        }
    }
}

/// A failed allocation is `OutOfMemory`.
impl From<AllocError> for ParseError {
    ghost from_gives = { λ _ error. error ≡ OutOfMemory };

    fn from(_error: AllocError) -> ParseError {
        Self::OutOfMemory
    }
}

/// So is that of a collection, as of `Vec::push`; what could not be stored is dropped.
impl<T: Drop> From<AllocFailed<T>> for ParseError {
    ghost from_gives = { λ _ error. error ≡ OutOfMemory };

    fn from(_failed: AllocFailed<T>) -> ParseError {
        Self::OutOfMemory
    }
}
