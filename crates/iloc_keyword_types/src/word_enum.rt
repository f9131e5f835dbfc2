//! Enums of which each variant has a word, and how a variant is found by its word.
ghost use Rattle.std.specs.Prelude.{◌≡◌, ℕ, List, Some, map, option_map, find, nat_eq, slice_get};
ghost use Rattle.std.specs.Cmp.Lexicographic.{pointwise};
ghost use Rattle.iloc_spec_parts.specs.Keywords.{numbered};
ghost use Rattle.iloc_keyword_types.specs.WordTables.{table_place, word_at};

/// An enum of which each variant has a word of its own.
pub trait WordEnum: Copy + 'static {
    /// The words of the variants, in order.
    ghost words: { List (List ℕ) };

    /// The place of a variant among them.
    ghost place: { Self → ℕ };

    /// The variants, in order.
    fn all() -> &'static [Self]
        ensures { map (λ v. (word_at words (place v), place v)) result.now ≡ numbered 0 words };

    /// The word of the variant.
    fn word(&self) -> &'static str
        ensures { result.now ≡ word_at words (place self.now) };

    /// Each variant has its place.
    ghost placed: { (v : Self) → slice_get words (place v) ≡ Some (word_at words (place v)) };
}

/// The variant of which this is the word.
pub fn find_word<E: WordEnum>(word: &str) -> Option<E>
    ensures { option_map E.place result ≡ table_place word.now E.words }
{
    first_with_word(E::all(), word)
}

// The first of the variants that has this word.
fn first_with_word<E: WordEnum>(variants: &[E], word: &str) -> Option<E>
    ensures { result
        ≡ find (λ v. pointwise nat_eq word.now (word_at E.words (E.place v))) variants.now }
{
    variants
        .iter()
        .copied()
        .find(|variant| word == variant.word())
}
