//! The traits of sets of subtags.
ghost use Rattle.std.specs.Prelude.{◌≡◌, [], Some, length};
ghost use Rattle.iloc_spec_grammar.specs.Syntax.{join};
ghost use Rattle.std.specs.Fmt.{debug_list, debug_str};

use crate::word_set::WordSet;
use iloc_copying::{Copied, FromOwn};
use iloc_subtags::WordKind;
use iloc_writeable::pieces::Pieces;
use iloc_writeable::{Sink, Writeable};
use std::alloc::AllocError;
use std::fmt;

/// The empty set.
impl<K: WordKind<N>, const N: usize> Default for WordSet<K, N> {
    ghost is_default = { λ s. s ≡ [] };

    fn default() -> Self {
        WordSet::new()
    }
}

/// The same set. It allocates only if there are more than four subtags.
impl<K: WordKind<N>, const N: usize> Clone for WordSet<K, N> {
    ghost is_clone = { λ s t. t ≡ s };

    fn clone(&self) -> Result<Self, AllocError> {
        self.copied(FromOwn)
    }
}

/// Prints the list of the subtags, each in quotes.
impl<K: WordKind<N>, const N: usize> fmt::Debug for WordSet<K, N> {
    ghost debug_output = { debug_list debug_str };

    fn fmt<W: fmt::Write>(&self, f: &mut fmt::Formatter<W>) -> fmt::Result {
        fmt::Debug::fmt(&self.as_slice(), f)
    }
}

/// The subtags are the pieces.
impl<K: WordKind<N>, const N: usize> Pieces for WordSet<K, N> {
    ghost pieces = { λ s. s };

    fn has_pieces(&self) -> bool {
        !self.is_empty()
    }

    #[tactic(auto, using(iloc_writeable::proofs::PiecesLemmas::flat_map_words))]
    fn write_pieces<S: Sink>(&self, sink: &mut S, first: bool) -> fmt::Result {
        self.as_slice().write_pieces(sink, first)
    }
}

/// Prints the subtags, ascending, with a hyphen between each two. The text of a set of one subtag can be lent.
impl<K: WordKind<N>, const N: usize> Writeable for WordSet<K, N> {
    ghost text = { λ s. join s };

    ghost lends = { λ s. length s ≡ 1 };

    #[tactic(auto, unfolding(iloc_spec_grammar::specs::Syntax::join))]
    fn write_to<S: Sink>(&self, sink: &mut S) -> fmt::Result {
        self.write_joined(sink)
    }

    fn writeable_borrow(&self) -> Option<&str> {
        match self.as_slice() {
            [word] => Some(word.as_str()),
            _ => None,
        }
    }
}

/// Prints the subtags, ascending, with a hyphen between each two.
impl<K: WordKind<N>, const N: usize> fmt::Display for WordSet<K, N> {
    ghost output = { λ s. Some (join s) };

    fn fmt<W: fmt::Write>(&self, f: &mut fmt::Formatter<W>) -> fmt::Result {
        self.write_to(f)
    }
}
