//! A place in a text, and what is known there. The type stands alone, since the definitions of `cursor` name it.
ghost use Rattle.std.specs.Prelude.{◌+◌, ◌≤◌, length, take, drop};
ghost use Rattle.iloc_pieces.specs.Piece.{IsPieceKnown};

use crate::marks::Marks;

/// A piece of a text, and what is left of the text from it on.
#[derive(Clone, Copy)]
pub struct Cursor<'a> {
    /// The text, and perhaps what follows it.
    pub window: &'a [u8],
    /// Where the piece begins.
    pub at: usize,
    /// How many bytes the text has from there on.
    pub remaining: usize,
    /// The length of the piece; sixteen if it is longer.
    pub piece_length: usize,
    /// The shape of the piece; 0 if it is longer than fifteen bytes.
    pub shape: usize,
    /// The marks from the piece on.
    pub marks: Marks,
    // The text lies within the window.
    pub ghost inside: { at + remaining ≤ length window.now },
    // The piece is the first of what is left, and `piece_length`, `shape` and `marks` are its.
    pub ghost piece: { ∥ IsPieceKnown (take remaining (drop at window.now)) piece_length shape marks
        ∥₁ },
}
