//! Prints keywords.
ghost use Rattle.std.specs.Prelude.{◌≡◌, ◌+◌, length, Some};
ghost use Rattle.std.specs.Ordering.{nat_cmp};
ghost use Rattle.std.specs.Cmp.Lexicographic.{slice_cmp};
ghost use Rattle.iloc_spec_grammar.specs.Syntax.{join, dashes, fields_pieces};
ghost use Rattle.iloc_writeable.specs.Hints.{fitting};

use crate::keywords::Keywords;
use iloc_subtags::{Subtag, UnicodeKey};
use iloc_word_list::Value;
use iloc_writeable::compare::cmp_utf8;
use iloc_writeable::pieces::Pieces;
use iloc_writeable::{LengthHint, Sink, Writeable};
use std::cmp::Ordering;
use std::fmt;

/// The pieces are each key, ascending, and the subtags of its value.
impl Pieces for Keywords {
    ghost pieces = { fields_pieces };

    fn has_pieces(&self) -> bool {
        !self.is_empty()
    }

    fn write_pieces<S: Sink>(&self, sink: &mut S, first: bool) -> fmt::Result {
        self.as_slice().write_pieces(sink, first)
    }
}

/// Prints each key, ascending, and the subtags of its value, with a hyphen between each two. An empty
/// value prints nothing after its key.
impl Writeable for Keywords {
    ghost text = { λ keywords. join (fields_pieces keywords) };

    #[tactic(auto, unfolding(iloc_spec_grammar::specs::Syntax::join))]
    fn write_to<S: Sink>(&self, sink: &mut S) -> fmt::Result {
        self.write_joined(sink)
    }

    fn writeable_length_hint(&self) -> LengthHint {
        let length = printed_length(self.as_slice());
        LengthHint(length.unwrap_or(usize::MAX), length)
    }

    fn writeable_borrow(&self) -> Option<&str> {
        None
    }
}

// The length of the printed pairs, if it fits.
#[inline(never)]
fn printed_length(pairs: &[(UnicodeKey, Value)]) -> Option<usize>
    ensures { result ≡ fitting (length (join (fields_pieces pairs.now))) }
{
    let mut sum: usize = 0;
    let mut hyphen: usize = 0;
    for pair in pairs {
        // (it states that a key has two bytes)
        let _ = pair.0.as_str();
        sum = sum_with(sum, hyphen + 2, pair.1.as_subtags_slice())?;
        hyphen = 1;
    }
    Some(sum)
}

// The sum of both, and of each word with a hyphen, if it fits.
#[inline(always)]
fn sum_with(before: usize, more: usize, words: &[Subtag]) -> Option<usize>
    ensures { result ≡ fitting (before + more + length (dashes words.now)) }
{
    let mut sum = before.checked_add(more)?;
    for word in words {
        sum = sum.checked_add(1 + word.len())?;
    }
    Some(sum)
}

impl fmt::Display for Keywords {
    ghost output = { λ keywords. Some (join (fields_pieces keywords)) };

    fn fmt<W: fmt::Write>(&self, f: &mut fmt::Formatter<W>) -> fmt::Result {
        self.write_to(f)
    }
}

impl Keywords {
    /// The byte order of the printed text against the bytes.
    pub fn strict_cmp(&self, other: &[u8]) -> Ordering
        ensures { result ≡ slice_cmp nat_cmp (join (fields_pieces self.now)) other.now }
    {
        cmp_utf8(self, other)
    }
}
