//! Locales for a browser and for node: the calls of a WebAssembly module, whose memory is its caller's.
//!
//! A text is the first `len` bytes of a window, or all of a shorter one. Sixteen bytes of anything behind it make
//! reading faster. Each call gives a number, and its contract says, number by number, what the caller finds: that of a
//! status as the calls of the C library give it (`iloc_calls`), or `BEYOND` of a text beyond what is read at once.
//!
//! Identifiers and locales are read by their outline (`iloc_outline`): up to 64 pieces and 65,535 bytes. Data locales are
//! parsed, however long they are (`iloc_data_parts`).
//!
//! What each piece of a normal text is, a page can show: language, script, region, variant, singleton, attribute, key,
//! value, field, or a piece of another extension or of the private part. `parts_of` (`specs/Kinds.antt`) says it of a
//! locale, part by part, as its text has them. `write_rows` finds it in the text, piece by piece from the left: it keeps
//! which part it is in, a `State`, and names each piece by its shape. The rows that it writes are those of the parts, in
//! order, each with its place.
//!
//! Of a refused text a page can also show what may stand at the place of its fault (`iloc_expected`), and what is usually
//! meant by it (`iloc_hints`). From text to text go the parts of what a text means (`iloc_text_parts`), whether a range stands
//! for a locale (`iloc_matching`), and cleaning (`iloc_cleaning`): what the calls of `iloc_text_calls` do, which ask for memory.
//!
//! No call takes memory, so the module asks its page for nothing.
#![tactic(auto)]

ghost use Rattle.std.specs.Prelude.{◌≡◌, ◌<◌, ◌≤◌, ◌^◌, ⊤, length, take};
ghost use Rattle.iloc_calls.specs.Answers.{HandsOut};
ghost use Rattle.iloc_cleaning.specs.Cleaning.{clean};
ghost use Rattle.iloc_calls.specs.Faults.{FindsFault};
ghost use Rattle.iloc_calls.specs.Numbers.{ByMode, ByStatus, EndsAs, number_of, words_of};
ghost use Rattle.iloc_calls.specs.declared.status.Status.TheVariants as statuses;
ghost use Rattle.iloc_expected.specs.Words as kinds_words;
ghost use Rattle.iloc_normalize.specs.declared.Mode.TheVariants as modes;
ghost use Rattle.locale_web.specs.Answers.{
  EndsWithin,
  IsJudged,
  IsOneBeyond,
  NormalIsWritten,
  NothingIsWritten,
  OrderIsWritten,
  SameIsWritten,
  answer_number,
};
ghost use Rattle.locale_web.specs.Parts.{NoPartIsWritten, PartsAreWritten};
ghost use Rattle.locale_web.specs.Reading.{IsPastLimits};
ghost use Rattle.locale_web.specs.Refused.{AreBitsOfKinds, HintIsTold};
ghost use Rattle.locale_web.specs.Texts.{MatchIsWritten};

mod cleaning;
mod comparing;
pub mod kind;
pub mod laws;
mod matching;
mod normalizing;
mod parts;
mod reading;
mod refused;
pub mod rows;
mod state;
mod texts;

use cleaning::hand_out_clean;
use comparing::{compare, tell_same};
use iloc_calls::{OnStack, Status, find_fault, hand_out, hand_out_bytes, mode_of};
use iloc_expected::Expected;
use matching::tell_matches;
use normalizing::normalize;
use parts::find_parts;
use reading::{judge, text_end};
use refused::{kinds_at, tell_hint};

/// The version of these calls.
pub const VERSION: u32 = 1;

/// The number of a text beyond what is read at once.
pub const BEYOND: u32 = 9;

// The number of an answer.
fn number(answer: Option<Status>) -> u32
    ensures { result ≡ answer_number answer }
{
    match answer {
        Some(status) => status.number(),
        None => BEYOND,
    }
}

/// Writes the normal text of what the text means into the buffer, and its length to `needed`. It is put into the room
/// first, which is sixteen bytes larger than the text.
///
/// The mode is 0 for identifiers, 1 for locales and 2 for data locales.
#[unsafe(no_mangle)]
pub extern "C" fn web_normalize(
    mode: u32,
    window: &[u8],
    len: usize,
    room: &mut [u8],
    buffer: &mut [u8],
    needed: &mut usize,
) -> u32
    ensures { ByMode mode
        (λ m. EndsWithin (NormalIsWritten m (take len window.now) buffer.old buffer.new needed.new)
        (NothingIsWritten m (take len window.now) (length room.old) buffer.old buffer.new
        needed.new))
        ((needed.new ≡ 0) × (buffer.new ≡ buffer.old)) result }
{
    match mode_of(mode) {
        Some(mode) => number(normalize(mode, window, len, room, buffer, needed)),
        None => {
            *needed = 0;
            Status::UnknownNumber.number()
        }
    }
}

/// Whether the text means something in the mode, or why not.
#[unsafe(no_mangle)]
pub extern "C" fn web_check(mode: u32, window: &[u8], len: usize) -> u32
    ensures { ByMode mode
        (λ m. EndsWithin (IsJudged m (take len window.now)) (IsPastLimits m (take len window.now)))
        ⊤ result }
{
    match mode_of(mode) {
        Some(mode) => number(judge(mode, window, len)),
        None => Status::UnknownNumber.number(),
    }
}

/// Writes the byte order of the normal texts of both, as -1, 0 or 1. They are put into `one` and `two`.
#[unsafe(no_mangle)]
pub extern "C" fn web_compare(
    mode: u32,
    window: &[u8],
    len: usize,
    other: &[u8],
    other_len: usize,
    one: &mut [u8],
    two: &mut [u8],
    order: &mut i8,
) -> u32
    ensures { ByMode mode
        (λ m. EndsWithin (OrderIsWritten m (take len window.now) (take other_len other.now)
        order.old order.new)
        (IsOneBeyond m (take len window.now) (length one.old) (take other_len other.now)
        (length two.old) × (order.new ≡ order.old)))
        (order.new ≡ order.old) result }
{
    match mode_of(mode) {
        Some(mode) => number(compare(mode, window, len, other, other_len, one, two, order)),
        None => Status::UnknownNumber.number(),
    }
}

/// Writes 1 if both texts have the same meaning, and else 0. Their normal texts are put into `one` and `two`.
#[unsafe(no_mangle)]
pub extern "C" fn web_normalizing_eq(
    mode: u32,
    window: &[u8],
    len: usize,
    other: &[u8],
    other_len: usize,
    one: &mut [u8],
    two: &mut [u8],
    same: &mut u8,
) -> u32
    ensures { ByMode mode
        (λ m. EndsWithin (SameIsWritten m (take len window.now) (take other_len other.now)
        same.old same.new)
        (IsOneBeyond m (take len window.now) (length one.old) (take other_len other.now)
        (length two.old) × (same.new ≡ same.old)))
        (same.new ≡ same.old) result }
{
    match mode_of(mode) {
        Some(mode) => number(tell_same(mode, window, len, other, other_len, one, two, same)),
        None => Status::UnknownNumber.number(),
    }
}

/// Puts the normal text of what the text means into the room, and its length into `end`. Writes where each piece of it
/// stands, and what it is, into the table, and how many numbers these are to `needed`.
///
/// Three numbers stand for a piece: where it begins, where it ends, and that of its kind, from 0: language, script,
/// region, variant, singleton, attribute, key, value, field, other, private.
#[unsafe(no_mangle)]
pub extern "C" fn web_parts(
    mode: u32,
    window: &[u8],
    len: usize,
    room: &mut [u8],
    end: &mut usize,
    table: &mut [usize],
    needed: &mut usize,
) -> u32
    ensures { ByMode mode
        (λ m. EndsWithin (PartsAreWritten m (take len window.now) room.new end.new table.old
        table.new needed.new)
        (NoPartIsWritten m (take len window.now) (length room.old) end.new table.old table.new
        needed.new))
        ((end.new ≡ 0) × (needed.new ≡ 0) × (table.new ≡ table.old)) result }
{
    match mode_of(mode) {
        Some(mode) => number(find_parts(mode, window, len, room, end, table, needed)),
        None => {
            *end = 0;
            *needed = 0;
            Status::UnknownNumber.number()
        }
    }
}

/// Why the text is refused, and the place of its fault, from `start` to `end`; of another text nothing is written. It reads
/// a text of any length.
#[unsafe(no_mangle)]
pub extern "C" fn web_find_fault(
    mode: u32,
    window: &[u8],
    len: usize,
    start: &mut usize,
    end: &mut usize,
) -> u32
    ensures { ByMode mode
        (λ m. EndsAs
        (FindsFault m (take len window.now) (start.old, end.old) (start.new, end.new)))
        ((start.new ≡ start.old) × (end.new ≡ end.old)) result }
{
    find_fault(OnStack, mode, &window[..text_end(window, len)], start, end)
}

/// Writes which kinds of pieces may stand at a place of the text, such as that of its fault: of each kind the bit at its
/// number, from 0: language, script, region, variant, singleton, attribute, key, value, field, other, private, a value of a
/// field, the end of the text.
#[unsafe(no_mangle)]
pub extern "C" fn web_expected(
    mode: u32,
    window: &[u8],
    len: usize,
    place: usize,
    kinds: &mut u16,
) -> u32
    ensures { ByMode mode
        (λ m number. (number ≡ number_of statuses.Done)
        × AreBitsOfKinds m (take len window.now) place kinds.new)
        (kinds.new ≡ kinds.old) result }
{
    match mode_of(mode) {
        Some(mode) => {
            *kinds = kinds_at(mode, &window[..text_end(window, len)], place);
            Status::Done.number()
        }
        None => Status::UnknownNumber.number(),
    }
}

/// Writes the words of a set of kinds into the buffer, and their length to `needed`: `a script or a region`. The words of a
/// kind are those of the set that has it alone.
#[unsafe(no_mangle)]
pub extern "C" fn web_kinds(kinds: u32, buffer: &mut [u8], needed: &mut usize) -> u32
    ensures known { kinds < 2 ^ 16
        → EndsAs (HandsOut (kinds_words.words_of (record { bits = kinds })) buffer.old buffer.new
        needed.new) result }
    ensures unknown { 2 ^ 16 ≤ kinds → (result ≡ number_of statuses.UnknownNumber)
        × (needed.new ≡ 0) × (buffer.new ≡ buffer.old) }
{
    match u16::try_from(kinds) {
        Ok(bits) => hand_out(&Expected { bits }, buffer, needed).number(),
        Err(_) => {
            *needed = 0;
            Status::UnknownNumber.number()
        }
    }
}

/// Writes the words of what is usually meant by a refused text into the buffer, and their length to `needed`: of `en_US`
/// `use hyphens in place of underscores`.
#[unsafe(no_mangle)]
pub extern "C" fn web_hint(
    mode: u32,
    window: &[u8],
    len: usize,
    buffer: &mut [u8],
    needed: &mut usize,
) -> u32
    ensures { ByMode mode
        (λ m. EndsAs (HintIsTold m (take len window.now) buffer.old buffer.new needed.new))
        ((needed.new ≡ 0) × (buffer.new ≡ buffer.old)) result }
{
    match mode_of(mode) {
        Some(mode) => { tell_hint(mode, &window[..text_end(window, len)], buffer, needed).number() }
        None => {
            *needed = 0;
            Status::UnknownNumber.number()
        }
    }
}

/// Writes 1 if the locale that the text means is one of those that the range stands for, and else 0. Their normal texts are
/// put into `one` and `two`.
#[unsafe(no_mangle)]
pub extern "C" fn web_matches(
    window: &[u8],
    len: usize,
    range: &[u8],
    range_len: usize,
    one: &mut [u8],
    two: &mut [u8],
    same: &mut u8,
) -> u32
    ensures { EndsWithin (MatchIsWritten (take len window.now) (take range_len range.now)
        same.old same.new)
        (IsOneBeyond modes.Locale (take len window.now) (length one.old)
        (take range_len range.now) (length two.old) × (same.new ≡ same.old)) result }
{
    number(tell_matches(window, len, range, range_len, one, two, same))
}

/// Writes what cleaning leaves of a line into the buffer, and its length to `needed`. It is put into the room first.
#[unsafe(no_mangle)]
pub extern "C" fn web_clean(
    window: &[u8],
    len: usize,
    room: &mut [u8],
    buffer: &mut [u8],
    needed: &mut usize,
) -> u32
    ensures { EndsWithin
        (HandsOut (clean (take len window.now)) buffer.old buffer.new needed.new)
        ((length room.old < length (clean (take len window.now))) × (needed.new ≡ 0)
        × (buffer.new ≡ buffer.old)) result }
{
    number(hand_out_clean(&window[..text_end(window, len)], room, buffer, needed))
}

/// Writes the words of a status into the buffer, and their length to `needed`.
#[unsafe(no_mangle)]
pub extern "C" fn web_words(status: u32, buffer: &mut [u8], needed: &mut usize) -> u32
    ensures { ByStatus status
        (λ named. EndsAs (HandsOut (words_of named) buffer.old buffer.new needed.new))
        ((needed.new ≡ 0) × (buffer.new ≡ buffer.old)) result }
{
    match Status::from_number(status) {
        Some(status) => hand_out_bytes(status.words().as_bytes(), buffer, needed).number(),
        None => {
            *needed = 0;
            Status::UnknownNumber.number()
        }
    }
}

/// The version of these calls.
#[unsafe(no_mangle)]
pub extern "C" fn web_version() -> u32
    ensures { result ≡ VERSION }
{
    VERSION
}
