//! The identifier at the front of a normal text.
ghost use Rattle.std.specs.Prelude.{◌≡◌, ◌≤◌, [], length, unwrap_or};
ghost use Rattle.iloc_spec_grammar.specs.Meaning.{Locale};
ghost use Rattle.iloc_spec_grammar.specs.Reading.{skip_first, take_first};
ghost use Rattle.iloc_spec_grammar.specs.Syntax.{Region, Script, is_word};
ghost use Rattle.iloc_spec_grammar.specs.Values.{IsWellFormed, text as text_of};
ghost use Rattle.iloc_text_parts.specs.Cuts.{IsCut};
ghost use Rattle.iloc_text_parts.specs.Tails.{IsTail, tail_pieces};

use crate::tails::{next_piece, split, take_longer};
use iloc_subtags::{Region as RegionWord, Script as ScriptWord};

// What stands where in a normal text. Variants and extensions are tails.
#[derive(Clone, Copy)]
pub(crate) struct Cut<'a> {
    pub(crate) language: &'a [u8],
    pub(crate) script: &'a [u8],
    pub(crate) region: &'a [u8],
    pub(crate) variants: &'a [u8],
    pub(crate) extensions: &'a [u8],
    pub(crate) base_name: &'a [u8],
}

// Where the parts of the locale stand in its normal text.
pub(crate) fn cut_apart(normal: &[u8]) -> Cut<'_>
    ensures parts { (M : Locale) → IsWellFormed M → normal.now ≡ text_of M → IsCut M result }
    ensures tail { IsTail result.extensions.now }
{
    let (language, after_language) = split(normal);
    let (script, after_script) = take_script(after_language);
    let (region, after_region) = take_region(after_script);
    let (variants, extensions) = take_longer(after_region, 1);
    let (base_name, _) = normal.split_at(normal.len() - extensions.len());
    Cut {
        language,
        script,
        region,
        variants,
        extensions,
        base_name,
    }
}

// Whether the piece is a script.
fn is_script(piece: &[u8]) -> bool
    ensures { result ≡ is_word Script piece.now }
{
    ScriptWord::try_from_utf8(piece).is_ok()
}

// Whether the piece is a region.
fn is_region(piece: &[u8]) -> bool
    ensures { result ≡ is_word Region piece.now }
{
    RegionWord::try_from_utf8(piece).is_ok()
}

// The script that the tail begins with, or an empty text, and what is left.
fn take_script(tail: &[u8]) -> (&[u8], &[u8])
    requires { IsTail tail.now }
    ensures word { result.0.now
        ≡ unwrap_or (take_first (is_word Script) (tail_pieces tail.now)) [] }
    ensures rest { tail_pieces result.1.now ≡ skip_first (is_word Script) (tail_pieces tail.now) }
    ensures tail { IsTail result.1.now }
    ensures within { length result.1.now ≤ length tail.now }
{
    if tail.is_empty() {
        return (tail, tail);
    }
    let (piece, later) = next_piece(tail);
    if is_script(piece) {
        return (piece, later);
    }
    (b"".as_slice(), tail)
}

// The region that the tail begins with, or an empty text, and what is left.
fn take_region(tail: &[u8]) -> (&[u8], &[u8])
    requires { IsTail tail.now }
    ensures word { result.0.now
        ≡ unwrap_or (take_first (is_word Region) (tail_pieces tail.now)) [] }
    ensures rest { tail_pieces result.1.now ≡ skip_first (is_word Region) (tail_pieces tail.now) }
    ensures tail { IsTail result.1.now }
    ensures within { length result.1.now ≤ length tail.now }
{
    if tail.is_empty() {
        return (tail, tail);
    }
    let (piece, later) = next_piece(tail);
    if is_region(piece) {
        return (piece, later);
    }
    (b"".as_slice(), tail)
}
