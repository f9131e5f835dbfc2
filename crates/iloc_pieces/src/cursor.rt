//! What is read and tested at a cursor.
ghost use Rattle.std.specs.Prelude.{◌≡◌, ◌≢◌, ◌↔◌, ◌+◌, ◌≤◌, ◌<◌, true, length, take, drop, slice_index};
ghost use Rattle.std.specs.Char.{is_ascii_alphanumeric, to_ascii_lowercase};
ghost use Rattle.std.specs.Int.{is_in_range};
ghost use Rattle.iloc_spec_grammar.specs.Syntax.{Attribute, Language, PrivateSubtag, Region, Script, Subtag, TransformKey, UnicodeKey, Variant, is_one_byte, is_true, is_word, languages, lower};
ghost use Rattle.iloc_pieces.specs.Cursor.{IsNextPiece, IsShortPiece, piece_left, bytes_left};
ghost use Rattle.iloc_pieces.specs.Marks.{AreMarksSeen};
ghost use Rattle.iloc_pieces.specs.Words.{IsUpToEight, word_number};

use crate::marks::{Marks, marks_at};
pub use crate::place::Cursor;
use crate::shape;
use iloc_tinystr::number_of;

/// The first `len` bytes of the window, at their first piece.
#[inline(always)]
pub fn cursor_in(window: &[u8], len: usize) -> Cursor<'_>
    requires { len ≤ length window.now }
    ensures rest { bytes_left result ≡ take len window.now }
    ensures at { result.at ≡ 0 }
    ensures remaining { result.remaining ≡ len }
    ensures window { result.window.now ≡ window.now }
{
    look(window, 0, len, marks_at(window, 0, len))
}

// The piece at `at`, whose end the marks show, if any end is marked.
#[inline(always)]
fn look(window: &[u8], at: usize, remaining: usize, marks: Marks) -> Cursor<'_>
    requires inside { at + remaining ≤ length window.now }
    requires seen { ∥ AreMarksSeen (take remaining (drop at window.now)) marks ∥₁ }
    ensures at { result.at ≡ at }
    ensures remaining { result.remaining ≡ remaining }
    ensures window { result.window.now ≡ window.now }
{
    if marks.ends == 0 {
        return Cursor {
            window,
            at,
            remaining,
            piece_length: 16,
            shape: 0,
            marks,
        };
    }
    let piece = marks.ends ^ (marks.ends - 1);
    let shape = if marks.odd & piece != 0 {
        0
    } else {
        marks.others & piece
    };
    Cursor {
        window,
        at,
        remaining,
        piece_length: marks.ends.trailing_zeros() as usize,
        shape: shape as usize,
        marks,
    }
}

/// Whether it is the last piece.
#[inline(always)]
pub fn is_last(cursor: Cursor<'_>) -> bool
    ensures { result ≡ true ↔ cursor.entry.piece_length ≡ cursor.entry.remaining }
{
    cursor.piece_length == cursor.remaining
}

/// The next piece.
#[inline(always)]
pub fn next(cursor: Cursor<'_>) -> Cursor<'_>
    requires short { IsShortPiece (piece_left cursor) }
    requires more { cursor.piece_length ≢ cursor.remaining }
    ensures { IsNextPiece cursor.entry result }
{
    let past = cursor.piece_length + 1;
    let at = cursor.at + past;
    let remaining = cursor.remaining - past;
    let known = cursor.marks.after(past);
    let marks = if known.ends == 0 {
        marks_at(cursor.window, at, remaining)
    } else {
        known
    };
    look(cursor.window, at, remaining, marks)
}

/// Goes on to the next piece.
#[inline(always)]
pub fn advance(cursor: &mut Cursor<'_>)
    requires short { IsShortPiece (piece_left cursor.old) }
    requires more { cursor.old.piece_length ≢ cursor.old.remaining }
    ensures { IsNextPiece cursor.old cursor.new }
{
    *cursor = next(*cursor);
}

/// Whether the piece is a language.
#[inline(always)]
pub fn is_language(cursor: Cursor<'_>) -> bool
    ensures { result ≡ is_word (Language languages) (piece_left cursor.entry) }
{
    shape::is_language(cursor.shape)
}

/// Whether the piece is a script.
#[inline(always)]
pub fn is_script(cursor: Cursor<'_>) -> bool
    ensures { result ≡ is_word Script (piece_left cursor.entry) }
{
    shape::is_script(cursor.shape)
}

/// Whether the piece is a region.
#[inline(always)]
pub fn is_region(cursor: Cursor<'_>) -> bool
    ensures { result ≡ is_word Region (piece_left cursor.entry) }
{
    shape::is_region(cursor.shape)
}

/// Whether the piece is a variant.
#[inline(always)]
pub fn is_variant(cursor: Cursor<'_>) -> bool
    ensures { result ≡ is_word Variant (piece_left cursor.entry) }
{
    shape::is_variant(cursor.shape)
}

/// Whether the piece is a key of `u`.
#[inline(always)]
pub fn is_key(cursor: Cursor<'_>) -> bool
    ensures { result ≡ is_word UnicodeKey (piece_left cursor.entry) }
{
    shape::is_key(cursor.shape)
}

/// Whether the piece is a key of `t`.
#[inline(always)]
pub fn is_field_key(cursor: Cursor<'_>) -> bool
    ensures { result ≡ is_word TransformKey (piece_left cursor.entry) }
{
    shape::is_field_key(cursor.shape)
}

/// Whether the piece is an attribute, or a subtag of a value.
#[inline(always)]
pub fn is_attribute(cursor: Cursor<'_>) -> bool
    ensures { result ≡ is_word Attribute (piece_left cursor.entry) }
{
    shape::is_attribute(cursor.shape)
}

/// Whether the piece is a subtag of another extension.
#[inline(always)]
pub fn is_subtag(cursor: Cursor<'_>) -> bool
    ensures { result ≡ is_word Subtag (piece_left cursor.entry) }
{
    shape::is_subtag(cursor.shape)
}

/// Whether the piece is a subtag after `x`.
#[inline(always)]
pub fn is_private(cursor: Cursor<'_>) -> bool
    ensures { result ≡ is_word PrivateSubtag (piece_left cursor.entry) }
{
    shape::is_private(cursor.shape)
}

/// Whether the piece has one byte, as a singleton has.
#[inline(always)]
pub fn is_single(cursor: Cursor<'_>) -> bool
    ensures { result ≡ is_one_byte (piece_left cursor.entry) }
{
    cursor.piece_length == 1
}

/// Whether the piece has two to eight bytes, as a subtag has.
#[inline(always)]
pub fn is_between(cursor: Cursor<'_>) -> bool
    ensures { result ≡ is_in_range 2 8 (length (piece_left cursor.entry)) }
{
    cursor.piece_length >= 2 && cursor.piece_length <= 8
}

/// Whether a piece of one byte is a letter or digit.
#[inline(always)]
pub fn is_alphanumeric(cursor: Cursor<'_>) -> bool
    requires { is_one_byte (piece_left cursor) ≡ true }
    ensures { result ≡ is_ascii_alphanumeric (slice_index (piece_left cursor.entry) 0) }
{
    cursor.shape != 0
}

/// The byte of a singleton, in lower case.
#[inline(always)]
pub fn singleton(cursor: Cursor<'_>) -> u8
    requires { is_one_byte (piece_left cursor) ≡ true }
    ensures { result ≡ to_ascii_lowercase (slice_index (piece_left cursor.entry) 0) }
{
    cursor.window[cursor.at].to_ascii_lowercase()
}

/// Whether the piece is `true`, in whatever case.
#[inline(always)]
pub fn is_true(cursor: Cursor<'_>) -> bool
    requires { IsShortPiece (piece_left cursor) }
    ensures { result ≡ is_true (lower (piece_left cursor.entry)) }
{
    if cursor.shape != 16 {
        return false;
    }
    let mut bytes = [0u8; 4];
    bytes.copy_from_slice(&cursor.window[cursor.at..cursor.at + 4]);
    u32::from_le_bytes(bytes) | 0x2020_2020 == 0x6575_7274
}

// The number of the `n` bytes from `at` on, in lower case: that of eight bytes, the first highest, with zeros behind
// fewer. Bit 5 makes a letter lower case, and digits have it.
#[inline(always)]
fn number_at(window: &[u8], at: usize, n: usize) -> u64
    requires inside { at + n ≤ length window.now }
    requires word { IsUpToEight (take n (drop at window.now)) }
    ensures { result ≡ word_number (take n (drop at window.now)) }
{
    match window[at..].first_chunk::<8>() {
        Some(bytes) => {
            let unused = 64 - 8 * n;
            ((u64::from_be_bytes(*bytes) | 0x2020_2020_2020_2020) >> unused) << unused
        }
        None => last_number(window, at, n),
    }
}

// The number of the last bytes, where fewer than eight are there. It is a call of its own, so that longer windows pay
// nothing.
#[inline(never)]
fn last_number(window: &[u8], at: usize, n: usize) -> u64
    requires inside { at + n ≤ length window.now }
    requires word { IsUpToEight (take n (drop at window.now)) }
    ensures { result ≡ word_number (take n (drop at window.now)) }
{
    let unused = 64 - 8 * n;
    let piece = number_of(&window[at..at + n]);
    ((piece.swap_bytes() | 0x2020_2020_2020_2020) >> unused) << unused
}

/// The number of a subtag, by which subtags are ordered: that of eight bytes in lower case, the first highest, with
/// zeros behind a shorter one.
#[inline(always)]
pub fn word_number(cursor: Cursor<'_>) -> u64
    requires { IsUpToEight (piece_left cursor) }
    ensures { result ≡ word_number (piece_left cursor.entry) }
{
    number_at(cursor.window, cursor.at, cursor.piece_length)
}
