//! The sets of subtags of a locale: its variants, and its attributes.
ghost use Rattle.std.specs.Prelude.{◌≡◌, ◌↔◌, ℕ, List, IsTrue, length, slice_get};
ghost use Rattle.iloc_spec_grammar.specs.Meaning as meaning;
ghost use Rattle.iloc_spec_grammar.specs.Syntax.{word_cmp};
ghost use Rattle.iloc_spec_grammar.specs.Values.{StrictlyAscends};
ghost use Rattle.iloc_locale.specs.LocaleReading.{value_of};
ghost use Rattle.iloc_handles.specs.Subtags.{HasWord};

use crate::asking::{Part, Question};
use crate::subtags::has_word;
use iloc_calls::{Status, hand_out_found};
use iloc_locale::Locale;
use iloc_subtags::{WordKind, WordOf};

/// A set of subtags of a locale.
pub trait Words {
    /// The kind of the subtags.
    type Kind: WordKind<8>;

    /// The subtags.
    ghost words: { meaning.Locale → List (List ℕ) };

    /// The subtags, ascending.
    fn words(locale: &Locale) -> &[WordOf<Self::Kind, 8>]
        ensures value { result.now ≡ words (value_of locale.now) }
        ensures ascending { StrictlyAscends word_cmp (words (value_of locale.now)) };
}

/// How many subtags there are.
#[derive(Drop)]
pub struct WordCount<W>(pub W);

impl<W: Words> Question for WordCount<W> {
    type Answer = usize;

    ghost is_answer = { λ _ M count. count ≡ length (W.words M) };

    fn ask(&self, locale: &Locale) -> usize {
        W::words(locale).len()
    }
}

/// The subtag at the index.
#[derive(Drop)]
pub struct WordAt<W>(pub W, pub usize);

impl<W: Words> Part for WordAt<W> {
    ghost text = { λ a M. slice_get (W.words M) a.1 };

    fn hand_out(&self, locale: &Locale, buffer: &mut [u8], needed: &mut usize) -> Status {
        hand_out_found(W::words(locale).get(self.1), buffer, needed)
    }
}

/// Whether the text is one of the subtags.
#[derive(Drop)]
pub struct HasText<'a, W>(pub W, pub &'a [u8]);

impl<'a, W: Words> Question for HasText<'a, W> {
    type Answer = bool;

    ghost is_answer = { λ h M answer. IsTrue answer ↔ HasWord W.Kind.kind h.1.now (W.words M) };

    fn ask(&self, locale: &Locale) -> bool {
        has_word::<W::Kind, 8>(W::words(locale), self.1)
    }
}
