//! The iterator over the pieces of a text.
ghost use Rattle.std.specs.Prelude.{◌≡◌, ◌≢◌, ◌∷◌, ◌++◌, ◌≤◌, length, Some, None, MatchOption, All};
ghost use Rattle.std.specs.Option.{option_copied};
ghost use Rattle.iloc_spec_grammar.specs.Syntax.{pieces, is_word};
ghost use Rattle.iloc_spec_grammar.specs.Reading.{first_item, rest_of, take_first};
ghost use Rattle.iloc_subtags.specs.FirstLength.{IsFirstLength};

use crate::WordKind;
use iloc_tinystr::ShortPiece;

/// The pieces of a text that are left, from the left.
///
/// It holds the text from the next piece on, and the length of that piece, so that a look ahead costs
/// nothing. A length beyond the text says that none is left, and it is then more than a subtag has.
#[derive(Clone, Copy)]
pub struct SubtagIterator<'a> {
    text: &'a [u8],
    len: usize,
    ghost first: { len ≤ length text.now → IsFirstLength text.now len },
    ghost within: { len ≤ 8 → len ≤ length text.now },
}

impl<'a> SubtagIterator<'a> {
    ghost use Rattle.iloc_subtags.specs.Left.{left};
    ghost use Rattle.iloc_subtags.specs.NextPiece.{next_has_length};

    /// The pieces of this text.
    #[inline(always)]
    #[tactic(auto, unfolding(crate::specs::Left::left))]
    pub fn new(rest: &'a [u8]) -> Self
        ensures { left result ≡ pieces rest.now }
    {
        SubtagIterator {
            text: rest,
            len: first_len(rest),
        }
    }

    /// What is left after the next piece, and that piece; `None` if none is left.
    #[inline(always)]
    #[tactic(auto, unfolding(crate::specs::Left::left))]
    pub fn next_const(self) -> (Self, Option<&'a [u8]>)
        ensures piece { option_copied result.1 ≡ first_item (left self.entry) }
        ensures rest { left result.0 ≡ rest_of (left self.entry) }
    {
        let Some(piece) = self.peek() else {
            return (self, None);
        };
        if self.len == self.text.len() {
            let ended = SubtagIterator {
                text: self.text,
                len: self.len + 9,
            };
            return (ended, Some(piece));
        }
        (SubtagIterator::new(&self.text[self.len + 1..]), Some(piece))
    }

    /// The next piece, which stays; `None` if none is left.
    #[inline(always)]
    #[tactic(auto, unfolding(crate::specs::Left::left))]
    pub fn peek(&self) -> Option<&'a [u8]>
        ensures { option_copied result ≡ first_item (left self.now) }
    {
        if self.len > self.text.len() {
            return None;
        }
        Some(&self.text[..self.len])
    }

    // Whether the next piece is as long as subtags of the kind may be; not if none is left.
    #[inline(always)]
    pub(crate) fn next_has_length<K: WordKind<N>, const N: usize>(&self) -> bool
        ensures { result ≡ next_has_length K.kind (left self.now) }
    {
        K::has_length(self.len)
    }

    // The next piece, which stays, if it is as long as subtags of the kind are.
    #[inline(always)]
    pub(crate) fn peek_short<K: WordKind<N>, const N: usize>(&self) -> Option<ShortPiece>
        ensures { MatchOption result (take_first (is_word K.kind) (left self.now) ≡ None)
            (λ piece. first_item (left self.now) ≡ Some piece) }
    {
        if !K::has_length(self.len) {
            return None;
        }
        ShortPiece::of(&self.text[..self.len])
    }
}

impl<'a> Iterator for SubtagIterator<'a> {
    type Item = &'a [u8];

    ghost use Rattle.std.specs.Iterator.{YieldsFirstRef, item_count};
    ghost use Rattle.iloc_subtags.specs.Left.{left};

    ghost next_gives = { YieldsFirstRef left };

    ghost remaining = { item_count left };

    #[inline(always)]
    fn next(&mut self) -> Option<&'a [u8]> {
        let (rest, piece) = self.next_const();
        *self = rest;
        piece
    }
}

// The length of the first piece of a text.
#[inline(always)]
fn first_len(text: &[u8]) -> usize
    ensures within { result ≤ length text.now }
    ensures first { IsFirstLength text.now result }
{
    match cut(text) {
        Some((piece, _)) => piece.len(),
        None => text.len(),
    }
}

// The piece before the first hyphen and the text after that, if there is a hyphen.
#[inline(always)]
fn cut(text: &[u8]) -> Option<(&[u8], &[u8])>
    ensures { MatchOption result (All (λ c. c ≢ 45) text.now)
        (λ parts. All (λ c. c ≢ 45) parts.0.now × (text.now ≡ parts.0.now ++ 45 ∷ parts.1.now)) }
{
    let end = text.iter().position(|byte| *byte == b'-')?;
    let (piece, later) = text.split_at(end);
    Some((piece, &later[1..]))
}
