//! The normal text of a text, or why it is refused, without a value being built.
//!
//! The mode says what the text is: an identifier, a locale or a data locale. It takes two steps. `read_found` and
//! `read_lead` (`leads`) say what its beginning shows: why it is refused, or that it has to be read. `write_normal` writes
//! the normal text: of identifiers and locales as their outline gives it (`iloc_outline`), and of data locales as they are
//! read piece by piece (`data`, `subdivisions`, `data_writing`). Three kinds of callers stand on it: the lines of the program
//! (`iloc_program`), the calls for C and for the web (`iloc_calls`, `locale_web`), and `normalize` of identifiers and of
//! locales (`normalize_short`, `answer_text`, `text_of`). `iloc_faults` asks of data locales alone why one is refused
//! (`data_refusal`), what its key is (`is_sd`), and what names a subdivision (`names_subdivision`).
//!
//! It promises in the words of the grammar (`IsNormalWritten`, `IsAnswered`) that what is written is the normal text of what
//! the text means, or that the text has the fault. A normal text is at most four bytes longer than the text, and only
//! where a subdivision gives a data locale its region. `Nothing` says that the text is beyond the outline (`IsBeyond`):
//! more than 64 pieces, or more bytes than there is room for. `write_normal` says it only if memory was refused, for at most
//! as many spans as the text has pieces (`refused`).
#![tactic(auto)]

ghost use Rattle.std.specs.Prelude.{◌≡◌, ◌↔◌, Some};
ghost use Rattle.iloc_normalize.specs.Modes.{word_of};

pub mod answered;
pub mod copying;
mod data;
mod data_writing;
pub mod leads;
pub mod normal_text;
mod subdivisions;
pub mod window;
pub mod writing;

pub use answered::{Answered, answer};
pub use data::data_refusal;
pub use leads::{Lead, read_found, read_lead};
pub use normal_text::{normalize_short, text_of};
pub use subdivisions::{is_sd, names_subdivision};
pub use writing::{Written, write_normal};

/// What a text is read as.
#[derive(Clone, Copy, Debug, PartialEq, Eq)]
pub enum Mode {
    /// A language identifier.
    Langid,
    /// A locale.
    Locale,
    /// A data locale.
    Data,
}

impl Mode {
    /// The mode that the word names.
    pub fn from_word(word: &str) -> Option<Mode>
        ensures { (mode : Mode) → (result ≡ Some mode) ↔ (word.now ≡ word_of mode) }
    {
        match word {
            "langid" => Some(Mode::Langid),
            "locale" => Some(Mode::Locale),
            "data" => Some(Mode::Data),
            _ => None,
        }
    }
}
