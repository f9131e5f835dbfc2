//! Reads what follows the singleton `u` of a data locale: the keyword `sd`.
ghost use Rattle.std.specs.Prelude.{◌≡◌, ◌≤◌, true, false, is_some, length, codes};
ghost use Rattle.iloc_spec_grammar.specs.Syntax.{Attribute, IsWord, Text, UnicodeKey, is_same, is_true, letters_or_digits, lower};
ghost use Rattle.iloc_spec_grammar.specs.Reading.{rest_of};
ghost use Rattle.iloc_spec_parts.specs.DataLocales.{named_subdivision};
ghost use Rattle.iloc_pieces.specs.Cursor.{IsShortPiece, piece_left, pieces_left};
ghost use Rattle.iloc_pieces.specs.Shape.{shape_of};
ghost use Rattle.iloc_normalize.specs.Subdivisions.{AreSubtagsRead, EndsRegion, IsKeywordRead, IsNamedBy, are_trues};

use iloc_pieces::cursor::{Cursor, cursor_in, is_attribute, is_key, is_last, is_true, next};
use iloc_pieces::shape::{is_region, is_suffix};

/// A value of `sd` that names a subdivision.
#[derive(Clone, Copy)]
pub(crate) struct SubdivisionValue {
    /// Where it begins.
    pub(crate) at: usize,
    /// How many bytes it has.
    pub(crate) len: usize,
    /// How many of them are its region.
    pub(crate) region: usize,
}

/// What follows the singleton.
#[derive(Clone, Copy)]
pub(crate) enum Keyword {
    /// An attribute, or a key with more than one subtag besides `true`.
    Misfit,
    /// No key, or a keyword that names no subdivision.
    Unnamed,
    /// `sd` and a value that names a subdivision.
    Named(SubdivisionValue),
}

// The subtags of a value.
#[derive(Clone, Copy)]
enum Subtags<'a> {
    // They are not all, or more than one is not `true`.
    Misfit,
    // All are `true`.
    Trues,
    // One is not `true`.
    One(Cursor<'a>),
}

// Whether nothing but `true` follows the piece.
#[inline(always)]
fn ends_in_trues(word: Cursor<'_>) -> bool
    requires { IsShortPiece (piece_left word) }
    ensures { result ≡ are_trues (rest_of (pieces_left word.entry)) }
{
    let mut at = word;
    'trues: while !is_last(at) {
        at = next(at);
        if !is_attribute(at) {
            return false;
        }
        if !is_true(at) {
            return false;
        }
    }
    true
}

// Reads the subtags that follow the key, up to the end of the text.
#[inline(always)]
fn read_subtags<'a>(key: Cursor<'a>) -> Subtags<'a>
    requires { IsShortPiece (piece_left key) }
    ensures { AreSubtagsRead key.entry result }
{
    let mut at = key;
    'trues: loop {
        if is_last(at) {
            return Subtags::Trues;
        }
        at = next(at);
        if !is_attribute(at) {
            return Subtags::Misfit;
        }
        if !is_true(at) {
            break 'trues;
        }
    }
    if ends_in_trues(at) {
        return Subtags::One(at);
    }
    Subtags::Misfit
}

/// Whether the piece is `sd`, in whatever case.
#[inline(always)]
pub fn is_sd(at: Cursor<'_>) -> bool
    ensures { result ≡ is_same (lower (piece_left at.entry)) (codes "sd") }
{
    if at.piece_length != 2 {
        return false;
    }
    if at.window[at.at].to_ascii_lowercase() != b's' {
        return false;
    }
    at.window[at.at + 1].to_ascii_lowercase() == b'd'
}

// How many bytes of a subtag of this shape are the region of a subdivision: two letters or three digits. 0 if it names
// none.
#[inline(always)]
fn region_len(shape: usize) -> usize
    ensures { (p : Text) → letters_or_digits p ≡ true → 3 ≤ length p → shape_of p ≡ shape
        → EndsRegion p result }
{
    if shape % 2 == 0 {
        if is_region(shape % 4 + 4) && is_suffix(shape / 4) {
            return 2;
        }
        return 0;
    }
    if is_region(shape % 8 + 8) && is_suffix(shape / 8) {
        return 3;
    }
    0
}

/// Whether the word, of three to eight letters or digits, names a subdivision.
pub fn names_subdivision(word: &[u8]) -> bool
    requires { IsWord Attribute word.now }
    ensures { result ≡ is_some (named_subdivision (lower word.now)) }
{
    region_len(cursor_in(word, word.len()).shape) != 0
}

// What the subtag names as a value of the key.
#[inline(always)]
fn named(key: Cursor<'_>, word: Cursor<'_>) -> Keyword
    requires key { IsWord UnicodeKey (piece_left key) }
    requires word { IsWord Attribute (piece_left word) }
    requires other { is_true (lower (piece_left word)) ≡ false }
    ensures { IsNamedBy key.entry word.entry result }
{
    if !is_sd(key) {
        return Keyword::Unnamed;
    }
    let region = region_len(word.shape);
    if region == 0 {
        return Keyword::Unnamed;
    }
    Keyword::Named(SubdivisionValue {
        at: word.at,
        len: word.piece_length,
        region,
    })
}

/// Reads what follows the singleton, from the piece behind it up to the end of the text.
#[inline(always)]
pub(crate) fn read_keyword(key: Cursor<'_>) -> Keyword
    ensures { IsKeywordRead key.entry result }
{
    if is_attribute(key) {
        return Keyword::Misfit;
    }
    if !is_key(key) {
        return Keyword::Unnamed;
    }
    match read_subtags(key) {
        Subtags::Misfit => Keyword::Misfit,
        Subtags::Trues => Keyword::Unnamed,
        Subtags::One(word) => named(key, word),
    }
}
