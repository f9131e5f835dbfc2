//! What the calls of the C library do that take texts and give parts: a part, the parent, whether a range stands for a
//! locale, the name that is made of a line, and the answers to many lines; and those that say what may stand at the place of
//! a fault, and what is usually meant by a refused text. The crate `icu_locale_c` exports them.
//!
//! Each function gives the number of a status, and its contract says, status by status, what the caller finds (`TellsPart`,
//! `MatchesTo`, `CleansTo`, `AnswersLines`, `TellsKinds`, `TellsHint`). A part is that of the locale which the text means
//! (`MeansLocale`, `IsPart`).
//!
//! The normal text is written first, and the part is cut out of it (`iloc_text_parts`). So a call for a part allocates only for
//! a text of more than 48 bytes. `matches` allocates for a text or a range only if the parser may allocate for it, or if it is
//! not its normal text (`NormalizingWantsMemory`). `clean` and `normalize_lines` may allocate for any text: no clause bounds
//! it. What may stand at a place, and a hint, are told with memory for long runs of variants alone, and without it.
//!
//! It stands on `iloc_calls`, whose statuses and buffers it shares, and on `iloc_text_parts`, `iloc_matching`,
//! `iloc_cleaning`, `iloc_expected`, `iloc_hints` and `iloc_program`, which answers lines.
#![tactic(auto)]

ghost use Rattle.std.specs.Prelude.{◌≡◌, ℕ};
ghost use Rattle.iloc_calls.specs.Numbers.{ByMode, EndsAs};
ghost use Rattle.iloc_text_calls.specs.Advice.{TellsHint, TellsHintWords, TellsKindWords, TellsKinds};
ghost use Rattle.iloc_text_calls.specs.Answers.{CleansTo, MatchesTo, TellsPart};

mod advice;
mod cleaning;
mod lines;
mod normal;
mod parts;
mod ranges;

use iloc_calls::{InMemory, Status, hand_out, mode_of};
pub use iloc_text_parts::Part;
pub use lines::normalize_lines;
use std::alloc::Global;

/// Writes a part of what the text means into the buffer, and its length to `needed`.
///
/// The mode is 0 for identifiers, 1 for locales and 2 for data locales.
#[inline(always)]
pub fn tell_part(
    alloc: Global,
    mode: u32,
    text: &[u8],
    part: Part<'_>,
    buffer: &mut [u8],
    needed: &mut usize,
) -> u32
    ensures { ByMode mode
        (λ m. EndsAs (TellsPart m text.now part.entry buffer.old buffer.new needed.new))
        ((needed.new ≡ 0) × (buffer.new ≡ buffer.old)) result }
{
    match mode_of(mode) {
        Some(mode) => parts::tell(alloc, mode, text, part, buffer, needed).number(),
        None => {
            *needed = 0;
            Status::UnknownNumber.number()
        }
    }
}

/// Writes 1 if the locale that the text means is one of those that the range stands for, and else 0.
pub fn matches(alloc: Global, text: &[u8], range: &[u8], same: &mut u8) -> u32
    ensures { EndsAs (MatchesTo text.now range.now same.old same.new) result }
{
    ranges::tell_matches(alloc, text, range, same).number()
}

/// Writes what cleaning leaves of a line into the buffer, and its length to `needed`.
pub fn clean(alloc: Global, text: &[u8], buffer: &mut [u8], needed: &mut usize) -> u32
    ensures { EndsAs (CleansTo text.now buffer.old buffer.new needed.new) result }
{
    cleaning::clean(alloc, text, buffer, needed).number()
}

/// Writes which kinds of pieces may stand at the place of the text, each as the bit at its number (`PieceKind::number`).
///
/// The mode is 0 for identifiers, 1 for locales and 2 for data locales. It allocates only for more than 16,384 variants in a
/// row, and never fails.
pub fn expected(alloc: Global, mode: u32, text: &[u8], place: usize, kinds: &mut u32) -> u32
    ensures { ByMode mode (λ m. EndsAs (TellsKinds m text.now place kinds.new))
        (kinds.new ≡ kinds.old) result }
{
    match mode_of(mode) {
        Some(mode) => advice::tell_kinds(InMemory(alloc), mode, text, place, kinds).number(),
        None => Status::UnknownNumber.number(),
    }
}

/// Writes the words of a set of kinds into the buffer, and their length to `needed`.
pub fn expected_words(kinds: u32, buffer: &mut [u8], needed: &mut usize) -> u32
    ensures { TellsKindWords kinds buffer.old buffer.new needed.new result }
{
    match advice::kinds_of(kinds) {
        Some(set) => hand_out(&set, buffer, needed).number(),
        None => {
            *needed = 0;
            Status::UnknownNumber.number()
        }
    }
}

/// Writes the number of the hint that the text has, or 0 if it has none.
///
/// The mode is 0 for identifiers, 1 for locales and 2 for data locales. It allocates only for more than 16,384 variants in a
/// row, and never fails.
pub fn hint(alloc: Global, mode: u32, text: &[u8], number: &mut u32) -> u32
    ensures { ByMode mode (λ m. EndsAs (TellsHint m text.now number.new))
        (number.new ≡ number.old) result }
{
    match mode_of(mode) {
        Some(mode) => advice::tell_hint(InMemory(alloc), mode, text, number).number(),
        None => Status::UnknownNumber.number(),
    }
}

/// Writes the words of the hint of this number into the buffer, and their length to `needed`.
pub fn hint_words(number: u32, buffer: &mut [u8], needed: &mut usize) -> u32
    ensures { TellsHintWords number buffer.old buffer.new needed.new result }
{
    match advice::hint_of(number) {
        Some(hint) => hand_out(&hint.words(), buffer, needed).number(),
        None => {
            *needed = 0;
            Status::UnknownNumber.number()
        }
    }
}
