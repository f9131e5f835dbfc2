//! Why a row is refused.
ghost use Rattle.std.specs.Prelude.{◌≡◌};
ghost use Rattle.iloc_json.specs.CarryError.{words_of};
ghost use Rattle.iloc_json.specs.declared.carry_error.CarryError.TheVariants.{OutOfMemory};

use std::alloc::{AllocError, AllocFailed};
use thiserror::Error;

/// Why a row of old raw forms is refused, or that memory has run out. It prints its words.
#[derive(Clone, Debug, Drop, Error, PartialEq, Eq)]
#[error("{}", self.words())]
pub enum CarryError {
    /// The length is no multiple of three.
    Length,
    /// The word at that place, counted from 0, is no old raw form of a language.
    Word(usize),
    /// Memory was refused.
    OutOfMemory,
}

impl CarryError {
    /// The words of this refusal.
    pub fn words(&self) -> &'static str
        ensures { result.now ≡ words_of self.now }
    {
        match self {
            CarryError::Length => "Length is not a multiple of three",
            CarryError::Word(_) => "Invalid language word",
            CarryError::OutOfMemory => "Out of memory",
        }
    }
}

/// A failed allocation is `OutOfMemory`.
impl From<AllocError> for CarryError {
    ghost from_gives = { λ _ error. error ≡ OutOfMemory };

    fn from(_error: AllocError) -> CarryError {
        Self::OutOfMemory
    }
}

/// So is that of a collection, as of `Vec::push`; what could not be stored is dropped.
impl<T: Drop> From<AllocFailed<T>> for CarryError {
    ghost from_gives = { λ _ error. error ≡ OutOfMemory };

    fn from(_failed: AllocFailed<T>) -> CarryError {
        Self::OutOfMemory
    }
}
