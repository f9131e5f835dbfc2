//! Subtags of texts, and sets of subtags.
ghost use Rattle.std.specs.Prelude.{◌≡◌, ◌↔◌, false, IsTrue, MatchResult};
ghost use Rattle.std.specs.List.{list_any};
ghost use Rattle.iloc_spec_grammar.specs.Syntax.{IsWord, is_same, is_word, normal, word_cmp};
ghost use Rattle.iloc_spec_grammar.specs.Values.{StrictlyAscends};
ghost use Rattle.iloc_handles.specs.Subtags.{HasWord, IsNeither, IsOptional};

use iloc_subtags::{ParseError, WordKind, WordOf};

/// The subtag that is the text.
#[tactic(auto, using(crate::proofs::SubtagLemmas::read_word))]
pub(crate) fn word_of<K: WordKind<N>, const N: usize>(
    text: &[u8],
) -> Result<WordOf<K, N>, ParseError>
    ensures { MatchResult result
        (λ w. IsWord K.kind text.now × (w ≡ normal K.kind text.now))
        (λ e. (is_word K.kind text.now ≡ false) × (e ≡ K.refusal)) }
{
    WordOf::try_from_utf8(text)
}

/// The subtag that is the text, or none if the text is empty.
pub(crate) fn optional_word<K: WordKind<N>, const N: usize>(
    text: &[u8],
) -> Result<Option<WordOf<K, N>>, ParseError>
    ensures { MatchResult result (IsOptional K.kind text.now)
        (λ e. IsNeither K.kind text.now × (e ≡ K.refusal)) }
{
    if text.is_empty() {
        return Ok(None);
    }
    match word_of(text) {
        Ok(word) => Ok(Some(word)),
        Err(refusal) => Err(refusal),
    }
}

// Whether the subtag is one of these, which ascend.
fn is_among<K: WordKind<N>, const N: usize>(words: &[WordOf<K, N>], word: &WordOf<K, N>) -> bool
    requires { StrictlyAscends word_cmp words.now }
    ensures { result ≡ list_any (is_same word.now) words.now }
{
    match words.binary_search(word) {
        Ok(_) => true,
        Err(_) => false,
    }
}

/// Whether the text is one of the subtags, which ascend.
pub(crate) fn has_word<K: WordKind<N>, const N: usize>(words: &[WordOf<K, N>], text: &[u8]) -> bool
    requires { StrictlyAscends word_cmp words.now }
    ensures { IsTrue result ↔ HasWord K.kind text.now words.now }
{
    match word_of::<K, N>(text) {
        Ok(word) => is_among(words, &word),
        Err(_) => false,
    }
}
