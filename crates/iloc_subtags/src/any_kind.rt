//! Subtags of any kind.
ghost use Rattle.std.specs.Prelude.{◌≡◌, ◌↔◌, ℕ, List, Option, Some, None, MatchResult, length, refl};
ghost use Rattle.std.specs.Cmp.Lexicographic.{slice_cmp};
ghost use Rattle.std.specs.Ordering.{nat_cmp};
ghost use Rattle.iloc_spec_grammar.specs.Syntax.{Text, lower, word};
ghost use Rattle.iloc_spec_grammar.proofs.ReadWords.{normal_again, length_kept, one_normal};
ghost use Rattle.iloc_subtags.specs.declared.parse_error.ParseError.{ParseError};

use crate::kind::WordKind;
use crate::parse_error::ParseError;
use crate::word_of::WordOf;
use std::hash::Hash;

/// A kind of subtag, for code that is generic over kinds: the texts that it accepts, each with its normal
/// text, and laws of these. All eleven kinds have it.
pub trait Word: Copy + Ord + Hash {
    /// The normal text of a text, if it is accepted.
    ghost normal_text: { List ℕ → Option (List ℕ) };

    /// The text of a subtag.
    ghost shown: { Self → Text };

    /// The refusal of every other text.
    ghost fault: { ParseError };

    /// Parses a subtag, in any case.
    fn try_from_utf8(code_units: &[u8]) -> Result<Self, ParseError>
        ensures { MatchResult result (λ w. normal_text code_units.now ≡ Some (shown w))
            (λ e. (e ≡ fault) × (normal_text code_units.now ≡ None)) };

    /// The text of the subtag, which is its own normal text.
    fn as_str(&self) -> &str
        ensures value { result.now ≡ shown self.now }
        ensures normal { normal_text (shown self.now) ≡ Some (shown self.now) };

    /// A normal text is accepted, and is its own normal text.
    ghost normal_again: { (t normal : Text) → normal_text t ≡ Some normal
        → normal_text normal ≡ Some normal };

    /// It is as long as the text.
    ghost length_kept: { (t normal : Text) → normal_text t ≡ Some normal
        → length normal ≡ length t };

    /// Two accepted texts have one normal text exactly if they are equal without case.
    ghost one_normal: { (a b v w : Text) → normal_text a ≡ Some v → normal_text b ≡ Some w
        → (v ≡ w) ↔ (lower a ≡ lower b) };

    /// Subtags stand in the byte order of their texts.
    ghost by_bytes: { (a b : Self) → Self.cmp a b ≡ slice_cmp nat_cmp (shown a) (shown b) };
}

impl<K: WordKind<N>, const N: usize> Word for WordOf<K, N> {
    ghost normal_text = { word K.kind };

    ghost shown = { λ text. text };

    ghost fault = { K.refusal };

    ghost normal_again = { normal_again K.kind };

    ghost length_kept = { length_kept K.kind };

    ghost one_normal = { one_normal K.kind };

    ghost by_bytes = { λ a b. refl };

    fn try_from_utf8(code_units: &[u8]) -> Result<Self, ParseError> {
        Self::try_from_utf8(code_units)
    }

    fn as_str(&self) -> &str {
        self.as_str()
    }
}
