//! Pieces of a text, one after the other: each with its *tail*, what stands behind it.
ghost use Rattle.std.specs.Prelude.{◌≡◌, ◌≢◌, ◌<◌, ◌≤◌, [], ◌∷◌, length, drop};
ghost use Rattle.iloc_spec_grammar.specs.Syntax.{dashes, first_piece, pieces};
ghost use Rattle.iloc_spec_grammar.specs.Reading.{passing, past, rest_of};
ghost use Rattle.iloc_text_parts.specs.Tails.{IsTail, is_longer, tail_pieces};

use iloc_subtags::SubtagIterator;

// How long the first piece of a text is.
#[inline(always)]
#[tactic(auto, using(crate::proofs::TailLemmas::first_within))]
fn first_len(text: &[u8]) -> usize
    ensures first { result ≡ length (first_piece (pieces text.now)) }
    ensures within { result ≤ length text.now }
{
    match SubtagIterator::new(text).peek() {
        Some(piece) => piece.len(),
        None => 0,
    }
}

// The first piece of a text, and its tail.
#[inline(always)]
#[tactic(auto, using(crate::proofs::TailLemmas::first_taken, crate::proofs::TailLemmas::rest_left, crate::proofs::TailLemmas::tail_left))]
pub(crate) fn split(text: &[u8]) -> (&[u8], &[u8])
    ensures piece { result.0.now ≡ first_piece (pieces text.now) }
    ensures rest { tail_pieces result.1.now ≡ rest_of (pieces text.now) }
    ensures tail { IsTail result.1.now }
    ensures within { length result.1.now ≤ length text.now }
{
    let end = first_len(text);
    text.split_at(end)
}

// The next piece of a tail, and the tail behind it. Both are empty if the tail is.
#[inline(always)]
#[tactic(auto, using(crate::proofs::TailLemmas::first_before_rest))]
pub(crate) fn next_piece(tail: &[u8]) -> (&[u8], &[u8])
    ensures some { tail.now ≢ [] → tail_pieces tail.now ≡ result.0.now ∷ tail_pieces result.1.now }
    ensures none { tail.now ≡ [] → (result.0.now ≡ []) × (result.1.now ≡ []) }
    ensures tail { IsTail result.1.now }
    ensures within { length result.1.now ≤ length tail.now }
    ensures shorter { tail.now ≢ [] → length result.1.now < length tail.now }
{
    match tail {
        [_, text @ ..] => split(text),
        [] => (tail, tail),
    }
}

// The tail behind the pieces that have more bytes than `least`.
fn past_longer(tail: &[u8], least: usize) -> &[u8]
    requires { IsTail tail.now }
    ensures rest { result.now ≡ dashes (past (is_longer least) (tail_pieces tail.now)) }
    ensures tail { IsTail result.now }
    ensures within { length result.now ≤ length tail.now }
{
    let mut rest = tail;
    'pieces: while !rest.is_empty() {
        let (piece, later) = next_piece(rest);
        if piece.len() <= least {
            return rest;
        }
        rest = later;
    }
    rest
}

// The pieces at the front of a tail that have more bytes than `least`, and the tail behind them.
#[tactic(auto, using(crate::proofs::TailLemmas::longer_taken))]
pub(crate) fn take_longer(tail: &[u8], least: usize) -> (&[u8], &[u8])
    requires { IsTail tail.now }
    ensures front { result.0.now ≡ dashes (passing (is_longer least) (tail_pieces tail.now)) }
    ensures rest { result.1.now ≡ dashes (past (is_longer least) (tail_pieces tail.now)) }
    ensures tail { IsTail result.1.now }
    ensures within { length result.1.now ≤ length tail.now }
{
    let rest = past_longer(tail, least);
    let (front, _) = tail.split_at(tail.len() - rest.len());
    (front, rest)
}

// A tail without its first hyphen.
pub(crate) fn without_hyphen(tail: &[u8]) -> &[u8]
    ensures { result.now ≡ drop 1 tail.now }
{
    match tail {
        [_, text @ ..] => text,
        [] => tail,
    }
}
