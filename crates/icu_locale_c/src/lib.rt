//! Locales for C: a static library. Its header is `include/icu_locale.h`.
//!
//! The calls on texts stand here, each that of `iloc_calls` with its name there. The calls on locales that a program holds
//! stand in the modules: most ask `iloc_handles` for a part (`tell`), a question (`ask`) or a change (`make_change`), and
//! are written by `tools/write_calls` from the table `tools/calls.txt`.
#![tactic(auto)]

ghost use Rattle.std.specs.Prelude.{◌≡◌, ◌+◌, ◌≤◌, ⊤, length};
ghost use Rattle.iloc_normalize.specs.declared.Mode.{Mode};
ghost use Rattle.iloc_calls.specs.Answers.{
  ComparesTo,
  HandsOut,
  JudgedAs,
  Normalizes,
  OrdersTo,
  SaysSame,
  growth,
};
ghost use Rattle.iloc_calls.specs.Faults.{FindsFault};
ghost use Rattle.iloc_calls.specs.Numbers.{ByMode, ByStatus, EndsAs, mode_number, words_of};

mod advice;
mod attributes;
mod by_hand;
mod column;
mod data;
mod identifier;
mod keywords;
mod others;
mod preferences;
mod texts;
mod transform;
mod variants;
mod whole;

use iloc_calls::InMemory;
use std::alloc::Global;

/// The version of the header that this library was made for.
pub const VERSION: u32 = 7;

/// Writes the normal text of what the text means into the buffer, and its length to `needed`.
///
/// The mode is 0 for identifiers, 1 for locales and 2 for data locales.
#[unsafe(no_mangle)]
pub extern "C" fn icu_locale_normalize(
    alloc: Global,
    mode: u32,
    text: &[u8],
    buffer: &mut [u8],
    needed: &mut usize,
) -> u32
    ensures answered { Normalizes mode text.now buffer.old buffer.new needed.new result }
    ensures bounded { (m : Mode) → mode ≡ mode_number m
        → needed.new ≤ length text.now + growth m }
{
    iloc_calls::normalize(alloc, mode, text, buffer, needed)
}

/// Whether the text means something in the mode, or why not.
#[unsafe(no_mangle)]
pub extern "C" fn icu_locale_check(alloc: Global, mode: u32, text: &[u8]) -> u32
    ensures { ByMode mode (λ m. EndsAs (JudgedAs m text.now)) ⊤ result }
{
    iloc_calls::check(alloc, mode, text)
}

/// Why the text is refused, and the place of its fault; of another text nothing is written.
#[unsafe(no_mangle)]
pub extern "C" fn icu_locale_find_fault(
    alloc: Global,
    mode: u32,
    text: &[u8],
    start: &mut usize,
    end: &mut usize,
) -> u32
    ensures { ByMode mode
        (λ m. EndsAs (FindsFault m text.now (start.old, end.old) (start.new, end.new)))
        ((start.new ≡ start.old) × (end.new ≡ end.old)) result }
{
    iloc_calls::find_fault(InMemory(alloc), mode, text, start, end)
}

/// Writes the byte order of the normal text against other bytes, as -1, 0 or 1.
#[unsafe(no_mangle)]
pub extern "C" fn icu_locale_strict_cmp(
    alloc: Global,
    mode: u32,
    text: &[u8],
    other: &[u8],
    order: &mut i8,
) -> u32
    ensures { ByMode mode
        (λ m. EndsAs (ComparesTo m text.now other.now order.old order.new))
        (order.new ≡ order.old) result }
{
    iloc_calls::strict_cmp(alloc, mode, text, other, order)
}

/// Writes 1 if both texts have the same meaning, and else 0.
#[unsafe(no_mangle)]
pub extern "C" fn icu_locale_normalizing_eq(
    alloc: Global,
    mode: u32,
    text: &[u8],
    other: &[u8],
    same: &mut u8,
) -> u32
    ensures { ByMode mode
        (λ m. EndsAs (SaysSame m text.now other.now same.old same.new))
        (same.new ≡ same.old) result }
{
    iloc_calls::normalizing_eq(alloc, mode, text, other, same)
}

/// Writes the byte order of the normal texts of both, as -1, 0 or 1.
#[unsafe(no_mangle)]
pub extern "C" fn icu_locale_compare(
    alloc: Global,
    mode: u32,
    text: &[u8],
    other: &[u8],
    order: &mut i8,
) -> u32
    ensures { ByMode mode
        (λ m. EndsAs (OrdersTo m text.now other.now order.old order.new))
        (order.new ≡ order.old) result }
{
    iloc_calls::compare(alloc, mode, text, other, order)
}

/// Writes the words of a status into the buffer, and their length to `needed`.
#[unsafe(no_mangle)]
pub extern "C" fn icu_locale_words(status: u32, buffer: &mut [u8], needed: &mut usize) -> u32
    ensures { ByStatus status
        (λ named. EndsAs (HandsOut (words_of named) buffer.old buffer.new needed.new))
        ((needed.new ≡ 0) × (buffer.new ≡ buffer.old)) result }
{
    iloc_calls::words(status, buffer, needed)
}

/// The version of the header that this library was made for.
#[unsafe(no_mangle)]
pub extern "C" fn icu_locale_version() -> u32
    ensures { result ≡ VERSION }
{
    VERSION
}
