//! What the calls of the C library do: the crate `icu_locale_c` exports them under their names in
//! `include/icu_locale.h`.
//!
//! A text is bytes of any encoding. Each function gives the number of a status, and its contract says, status by
//! status, what the caller finds (`NormalizesTo` and its like): the normal text, the fault that the grammar names, or
//! the room that is needed; what is not written stays as it was. Only parsing allocates,
//! and `compare`, and `find_fault` in memory.
#![tactic(auto)]

ghost use Rattle.std.specs.Prelude.{◌≡◌, ◌+◌, ◌≤◌, ⊤, length};
ghost use Rattle.iloc_normalize.specs.declared.Mode.{Mode};
ghost use Rattle.iloc_calls.specs.Answers.{
  ComparesTo,
  HandsOut,
  JudgedAs,
  Normalizes,
  OrdersTo,
  SaysSame,
  growth,
};
ghost use Rattle.iloc_calls.specs.Numbers.{ByMode, ByStatus, EndsAs, mode_number, words_of};

mod answers;
mod comparing;
mod data;
mod faults;
mod filling;
mod hashing;
mod same;
mod status;

use answers::judge;
pub use answers::mode_of;
pub use comparing::number;
pub use faults::find_fault;
pub use filling::{hand_out, hand_out_bytes, hand_out_found, hand_out_none};
pub use hashing::hash_of_text;
pub use iloc_faults::{InMemory, OnStack};
pub use same::tell_refused;
pub use status::Status;
use std::alloc::Global;

/// Writes the normal text of what the text means into the buffer, and its length to `needed`.
///
/// The mode is 0 for identifiers, 1 for locales and 2 for data locales.
pub fn normalize(
    alloc: Global,
    mode: u32,
    text: &[u8],
    buffer: &mut [u8],
    needed: &mut usize,
) -> u32
    ensures answered { Normalizes mode text.now buffer.old buffer.new needed.new result }
    ensures bounded { (m : Mode) → mode ≡ mode_number m
        → needed.new ≤ length text.now + growth m }
{
    answers::normalize(alloc, mode, text, buffer, needed)
}

/// Whether the text means something in the mode, or why not.
pub fn check(alloc: Global, mode: u32, text: &[u8]) -> u32
    ensures { ByMode mode (λ m. EndsAs (JudgedAs m text.now)) ⊤ result }
{
    match mode_of(mode) {
        Some(mode) => judge(alloc, mode, text).number(),
        None => Status::UnknownNumber.number(),
    }
}

/// Writes the byte order of the normal text against other bytes, as -1, 0 or 1.
pub fn strict_cmp(alloc: Global, mode: u32, text: &[u8], other: &[u8], order: &mut i8) -> u32
    ensures { ByMode mode
        (λ m. EndsAs (ComparesTo m text.now other.now order.old order.new))
        (order.new ≡ order.old) result }
{
    match mode_of(mode) {
        Some(mode) => comparing::strict_cmp(alloc, mode, text, other, order).number(),
        None => Status::UnknownNumber.number(),
    }
}

/// Writes 1 if both texts have the same meaning, and else 0.
pub fn normalizing_eq(alloc: Global, mode: u32, text: &[u8], other: &[u8], same: &mut u8) -> u32
    ensures { ByMode mode
        (λ m. EndsAs (SaysSame m text.now other.now same.old same.new))
        (same.new ≡ same.old) result }
{
    match mode_of(mode) {
        Some(mode) => same::tell_same(alloc, mode, text, other, same).number(),
        None => Status::UnknownNumber.number(),
    }
}

/// Writes the byte order of the normal texts of both, as -1, 0 or 1.
pub fn compare(alloc: Global, mode: u32, text: &[u8], other: &[u8], order: &mut i8) -> u32
    ensures { ByMode mode
        (λ m. EndsAs (OrdersTo m text.now other.now order.old order.new))
        (order.new ≡ order.old) result }
{
    match mode_of(mode) {
        Some(mode) => comparing::compare_both(alloc, mode, text, other, order).number(),
        None => Status::UnknownNumber.number(),
    }
}

/// Writes the words of a status into the buffer, and their length to `needed`.
pub fn words(status: u32, buffer: &mut [u8], needed: &mut usize) -> u32
    ensures { ByStatus status
        (λ named. EndsAs (HandsOut (words_of named) buffer.old buffer.new needed.new))
        ((needed.new ≡ 0) × (buffer.new ≡ buffer.old)) result }
{
    match Status::from_number(status) {
        Some(status) => hand_out(&status.words(), buffer, needed).number(),
        None => {
            *needed = 0;
            Status::UnknownNumber.number()
        }
    }
}
