//! The bricks that parsers are made of.
ghost use Rattle.std.specs.Prelude.{◌≡◌, option_map};
ghost use Rattle.iloc_spec_grammar.specs.Syntax.{is_word, normal};
ghost use Rattle.iloc_spec_grammar.specs.Reading.{rest_of, skip_first, starts_block, take_first};
ghost use Rattle.iloc_subtags.specs.Left.{left};
ghost use Rattle.iloc_subtags.specs.NextPiece.{byte_at, next_has_length};

use crate::subtag_iterator::SubtagIterator;
use crate::{WordKind, WordOf};

/// Takes the next piece if it is a subtag of the kind; else nothing is taken.
#[inline(always)]
pub fn take_word<K: WordKind<N>, const N: usize>(
    iter: &mut SubtagIterator<'_>,
) -> Option<WordOf<K, N>>
    ensures word { result
        ≡ option_map (normal K.kind) (take_first (is_word K.kind) (left iter.old)) }
    ensures rest { left iter.new ≡ skip_first (is_word K.kind) (left iter.old) }
{
    let piece = iter.peek_short::<K, N>()?;
    let word = WordOf::<K, N>::from_piece(piece).ok()?;
    iter.next();
    Some(word)
}

/// Whether the next piece is as long as subtags of the kind may be. It is not if none is left.
#[inline(always)]
pub fn next_has_length<K: WordKind<N>, const N: usize>(iter: &SubtagIterator<'_>) -> bool
    ensures { result ≡ next_has_length K.kind (left iter.now) }
{
    iter.next_has_length::<K, N>()
}

/// Takes the next piece, and returns its byte if it has just one, as a singleton has.
#[inline(always)]
pub fn take_byte(iter: &mut SubtagIterator<'_>) -> Option<u8>
    ensures byte { result ≡ byte_at (left iter.old) }
    ensures rest { left iter.new ≡ rest_of (left iter.old) }
{
    let piece = iter.next()?;
    match piece {
        [byte] => Some(*byte),
        _ => None,
    }
}

/// Whether a part ends here: nothing is left, or a piece of one byte, which begins a block.
#[inline(always)]
pub fn is_at_block(iter: &SubtagIterator<'_>) -> bool
    ensures { result ≡ starts_block (left iter.now) }
{
    match iter.peek() {
        Some(piece) => piece.len() == 1,
        None => true,
    }
}
