//! How a call ends.
ghost use Rattle.std.specs.Prelude.{◌≡◌, ◌↔◌, Some, MatchResult};
ghost use Rattle.iloc_calls.specs.Numbers.{number_of, status_of, words_of};

use iloc_subtags::ParseError;
use std::alloc::AllocError;

/// How a call ends, by its number in the header.
#[derive(Clone, Copy, Debug, PartialEq, Eq)]
pub enum Status {
    /// It did what it is to do.
    Done = 0,
    /// The first piece of the text is no language.
    InvalidLanguage = 1,
    /// A piece does not fit where it stands.
    InvalidSubtag = 2,
    /// An extension does not follow its rules.
    InvalidExtension = 3,
    /// An extension begins a second time.
    DuplicatedExtension = 4,
    /// Memory was refused.
    OutOfMemory = 5,
    /// The bytes do not fit into the buffer.
    BufferTooSmall = 6,
    /// The number names no mode, or no status.
    UnknownNumber = 7,
    /// The locale has no such part.
    NotFound = 8,
}

impl Status {
    /// Done, or out of memory if an allocation was refused.
    pub fn of_allocation<T: Drop>(made: Result<T, AllocError>) -> Status
        ensures { MatchResult made (λ _. result ≡ Status.Done) (λ _. result ≡ Status.OutOfMemory) }
    {
        match made {
            Ok(_) => Status::Done,
            Err(_) => Status::OutOfMemory,
        }
    }

    /// The status of the refusal's name.
    pub(crate) fn of_refusal(refusal: &ParseError) -> Status
        ensures { result ≡ status_of refusal.now }
    {
        match refusal {
            ParseError::InvalidLanguage => Status::InvalidLanguage,
            ParseError::InvalidSubtag => Status::InvalidSubtag,
            ParseError::InvalidExtension => Status::InvalidExtension,
            ParseError::DuplicatedExtension => Status::DuplicatedExtension,
            ParseError::OutOfMemory => Status::OutOfMemory,
        }
    }

    /// The number that the header gives it.
    pub fn number(self) -> u32
        ensures { result ≡ number_of self }
    {
        self as u32
    }

    /// The status of that number.
    pub fn from_number(number: u32) -> Option<Status>
        ensures { (status : Status) → (result ≡ Some status) ↔ (number ≡ number_of status) }
    {
        match number {
            0 => Some(Status::Done),
            1 => Some(Status::InvalidLanguage),
            2 => Some(Status::InvalidSubtag),
            3 => Some(Status::InvalidExtension),
            4 => Some(Status::DuplicatedExtension),
            5 => Some(Status::OutOfMemory),
            6 => Some(Status::BufferTooSmall),
            7 => Some(Status::UnknownNumber),
            8 => Some(Status::NotFound),
            _ => None,
        }
    }

    /// Its words: those of the refusal, if it is one.
    pub fn words(self) -> &'static str
        ensures { result.now ≡ words_of self }
    {
        match self {
            Status::Done => "Done",
            Status::InvalidLanguage => ParseError::InvalidLanguage.words(),
            Status::InvalidSubtag => ParseError::InvalidSubtag.words(),
            Status::InvalidExtension => ParseError::InvalidExtension.words(),
            Status::DuplicatedExtension => ParseError::DuplicatedExtension.words(),
            Status::OutOfMemory => ParseError::OutOfMemory.words(),
            Status::BufferTooSmall => "Buffer too small",
            Status::UnknownNumber => "Unknown number",
            Status::NotFound => "Not found",
        }
    }
}

/// A refusal is the status of its name.
impl From<ParseError> for Status {
    ghost from_gives = { λ error status. status ≡ status_of error };

    fn from(error: ParseError) -> Status {
        Status::of_refusal(&error)
    }
}
