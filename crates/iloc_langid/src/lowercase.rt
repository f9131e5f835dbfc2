//! An identifier in lower case, as a transform prints it.
ghost use Rattle.std.specs.Prelude.{◌≡◌, [], ◌∷◌, option_map, option_to_list};
ghost use Rattle.std.specs.List.{flat_map};
ghost use Rattle.iloc_spec_grammar.specs.Syntax.{lower, identifier_pieces};
ghost use Rattle.iloc_spec_grammar.specs.Values.{lower_identifier};
ghost use Rattle.iloc_langid.specs.Reads.{value_of};

use crate::identifier::LanguageIdentifier;
use iloc_subtags::{WordKind, WordOf};
use iloc_tinystr::TinyAsciiStr;
use iloc_writeable::pieces::write_piece;
use iloc_writeable::{Pieces, Sink};
use std::fmt;

/// Prints an identifier in lower case.
#[derive(Clone, Copy)]
pub struct Lowercase<'a>(pub &'a LanguageIdentifier);

// A subtag in lower case.
#[derive(Clone, Copy)]
struct LowerWord<const N: usize>(TinyAsciiStr<N>);

impl<const N: usize> Pieces for LowerWord<N> {
    ghost pieces = { λ word. word.0 ∷ [] };

    fn has_pieces(&self) -> bool {
        true
    }

    fn write_pieces<S: Sink>(&self, sink: &mut S, first: bool) -> fmt::Result {
        write_piece(sink, self.0.as_str(), first)
    }
}

#[tactic(auto, unfolding(iloc_spec_grammar::specs::Syntax::lower))]
fn lower_word<K: WordKind<N>, const N: usize>(word: &Option<WordOf<K, N>>) -> Option<LowerWord<N>>
    ensures { flat_map (λ w. w.0 ∷ []) (option_to_list result)
        ≡ option_to_list (option_map lower word.now) }
{
    match word {
        Some(word) => Some(LowerWord(word.to_tinystr().to_ascii_lowercase())),
        None => None,
    }
}

impl<'a> Pieces for Lowercase<'a> {
    ghost pieces = { λ i. identifier_pieces (lower_identifier (value_of i.0.now)) };

    fn has_pieces(&self) -> bool {
        self.0.has_pieces()
    }

    fn write_pieces<S: Sink>(&self, sink: &mut S, first: bool) -> fmt::Result {
        let language = self.0.language.as_str();
        let script = lower_word(&self.0.script);
        let region = lower_word(&self.0.region);
        let variants = self.0.variants.as_slice();
        (language, script, region, variants).write_pieces(sink, first)
    }
}
