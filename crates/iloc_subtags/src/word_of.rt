//! The subtag of a kind.
ghost use Rattle.std.specs.Prelude.{IsTrue, ◌≡◌, ◌↔◌, ℕ, List, [], ◌∷◌, Some, MatchResult, true};
ghost use Rattle.std.specs.List.{AllByRecursion};
ghost use Rattle.std.specs.Cmp.Lexicographic.{slice_cmp};
ghost use Rattle.std.specs.Ordering.{nat_cmp};
ghost use Rattle.iloc_spec_grammar.specs.Syntax.{Text, Subtag as the_kind, lower, word, read, raw};
ghost use Rattle.iloc_spec_grammar.specs.Values.{IsNormal};
ghost use Rattle.iloc_tinystr.specs.TinyText.{raw_of, is_tiny_text};
ghost use Rattle.iloc_subtags.specs.RawForms.{ReadsRaw};
ghost use Rattle.std.specs.Fmt.{debug_str};
ghost use Rattle.std.specs.Cmp.Rules.{hashing};
ghost use borrow.Author.Rules.{rules};
ghost use Rattle.iloc_spec_parts.specs.Hashes.{word_fed};

use crate::identifier_kinds::Subtag;
use crate::kind::WordKind;
use crate::parse_error::ParseError;
use iloc_tinystr::{ShortPiece, TinyAsciiStr, number_of_raw};
use iloc_writeable::pieces::Pieces;
use iloc_writeable::{LengthHint, Sink, Writeable};
use std::cmp::Ordering;
use std::fmt;
use std::hash::{Hash, Hasher};
use std::marker::{Model, PhantomData};
use std::str::FromStr;

/// A subtag of the kind `K`, in its normal case, of at most `N` bytes.
///
/// Contracts see it as its text. Subtags are equal if their texts are, and stand in the byte order of
/// their texts.
#[derive_where(Clone, Copy, PartialEq, Eq, PartialOrd, Ord)]
pub struct WordOf<K: WordKind<N>, const N: usize> {
    text: TinyAsciiStr<N>,
    #[derive_where(skip)]
    kind: PhantomData<K>,
}

impl<K: WordKind<N>, const N: usize> Model for WordOf<K, N> {
    ghost Value = { List ℕ };

    ghost view = { λ w. w.text };

    ghost invariant = { λ w. IsNormal K.kind w.text };

    ghost inverse = { λ text. record { text = text; kind = record {} } };
}

impl<K: WordKind<N>, const N: usize> WordOf<K, N> {
    /// The subtag of a text, in any case. It refuses every other text with the refusal of the kind.
    pub fn try_from_str(s: &str) -> Result<Self, ParseError>
        ensures { result ≡ read K.kind K.refusal s.now }
    {
        Self::try_from_utf8(s.as_bytes())
    }

    /// The subtag of some bytes, in any case. It refuses all other bytes with the refusal of the kind.
    pub fn try_from_utf8(code_units: &[u8]) -> Result<Self, ParseError>
        ensures { result ≡ read K.kind K.refusal code_units.now }
    {
        if !K::has_length(code_units.len()) {
            return Err(K::refusal());
        }
        match ShortPiece::of(code_units) {
            Some(piece) => Self::from_piece(piece),
            None => Err(K::refusal()),
        }
    }

    /// The subtag of a piece of at most eight bytes, in any case. It refuses every other piece with the refusal
    /// of the kind.
    #[inline(always)]
    pub fn from_piece(piece: ShortPiece) -> Result<Self, ParseError>
        ensures { result ≡ read K.kind K.refusal piece }
    {
        if !K::accepts(piece) {
            return Err(K::refusal());
        }
        // Subtags of these lengths are in lower case.
        if N == 2 || N == 8 {
            return Ok(subtag_of_normal(piece.word_to_ascii_lowercase()));
        }
        Ok(subtag_of_normal(K::normal(piece)))
    }

    /// The subtag of a raw form: its normal text, followed by zeros up to `N` bytes. Any other bytes, those
    /// of a text in another case too, are refused with the refusal of the kind.
    pub fn try_from_raw(raw: [u8; N]) -> Result<Self, ParseError>
        ensures { ReadsRaw 8 K.kind K.refusal raw.entry result }
    {
        let packed = number_of_raw(&raw);
        let piece = ShortPiece::of_number(packed);
        if piece.number() != packed {
            return Err(K::refusal());
        }
        Self::from_normal(piece)
    }

    // The subtag of its normal text.
    #[inline(always)]
    pub(crate) fn from_normal(piece: ShortPiece) -> Result<Self, ParseError>
        ensures { MatchResult result (λ word. (word ≡ piece) × IsNormal K.kind piece)
            (λ e. (e ≡ K.refusal) × ¬ (IsNormal K.kind piece)) }
    {
        if !K::accepts(piece) {
            return Err(K::refusal());
        }
        if K::normal(piece) != piece {
            return Err(K::refusal());
        }
        Ok(subtag_of_normal(piece))
    }

    /// The raw form: the text, followed by zeros up to `N` bytes.
    pub fn into_raw(self) -> [u8; N]
        ensures { result ≡ raw 8 K.kind self }
    {
        *self.text.all_bytes()
    }

    /// The text of the subtag, which is in the normal case of its kind.
    pub fn as_str(&self) -> &str
        ensures value { result.now ≡ self.now }
        ensures normal { IsNormal K.kind self.now }
    {
        self.text.as_str()
    }

    /// The text of the subtag as a short text.
    pub fn to_tinystr(&self) -> TinyAsciiStr<N>
        ensures value { result ≡ self.now }
        ensures normal { IsNormal K.kind self.now }
    {
        let text = &self.text;
        *text
    }

    /// The text of the subtag as a piece.
    #[inline(always)]
    pub fn to_piece(&self) -> ShortPiece
        ensures value { result ≡ self.now }
        ensures normal { IsNormal K.kind self.now }
    {
        self.text.to_piece()
    }

    /// The byte order of the subtag's text against the bytes.
    pub fn strict_cmp(self, other: &[u8]) -> Ordering
        ensures { result ≡ slice_cmp nat_cmp self other.now }
    {
        let text = self.as_str().as_bytes();
        // Most texts differ in their first byte.
        match (text, other) {
            ([first, ..], [byte, ..]) if first != byte => first.cmp(byte),
            _ => text.cmp(other),
        }
    }

    /// Whether the text equals the subtag's without case, that is, whether the text parses to this subtag.
    pub fn normalizing_eq(self, other: &str) -> bool
        ensures without_case { IsTrue result ↔ (lower self ≡ lower other.now) }
        ensures reads { IsTrue result ↔ (word K.kind other.now ≡ Some self) }
    {
        self.as_str().eq_ignore_ascii_case(other)
    }
}

/// The subtag of a piece that is known to be normal.
#[inline(always)]
pub fn subtag_of_normal<K: WordKind<N>, const N: usize>(piece: ShortPiece) -> WordOf<K, N>
    requires { IsNormal K.kind piece }
    ensures { result ≡ piece }
{
    WordOf {
        text: TinyAsciiStr::from_piece(piece),
        kind: PhantomData,
    }
}

/// The raw form of a subtag, lent: its text, followed by zeros up to `N` bytes.
#[inline(always)]
pub fn raw_of_word<K: WordKind<N>, const N: usize>(word: &WordOf<K, N>) -> &[u8; N]
    ensures value { result.now ≡ raw_of N word.now }
    ensures tiny { is_tiny_text N word.now ≡ true }
{
    let _ = word.text.as_str();
    word.text.all_bytes()
}

/// The subtag as one of any sort, for kinds whose subtags all are.
pub fn subtag_of<K: WordKind<N>, const N: usize>(word: &WordOf<K, N>) -> Subtag
    requires { (w : Text) → IsNormal K.kind w → IsNormal the_kind w }
    ensures { result ≡ word.now }
{
    subtag_of_normal(word.to_piece())
}

/// A subtag is in the normal case of its kind: for a proof that has only the subtag. It does nothing.
pub fn is_normal<K: WordKind<N>, const N: usize>(word: &WordOf<K, N>)
    ensures { IsNormal K.kind word.now }
{
    let _ = &word.text;
}

/// So is each subtag of a list. It does nothing.
pub fn are_normal<K: WordKind<N>, const N: usize>(words: &[WordOf<K, N>])
    ensures { AllByRecursion (IsNormal K.kind) words.now }
{
    for word in words {
        is_normal(word);
    }
}

/// A hasher is fed the text, followed by zeros, in eight bytes: that is one number.
impl<K: WordKind<N>, const N: usize> Hash for WordOf<K, N> {
    ghost hash_input = { word_fed };

    ghost respects_eq = { Prim.search (hashing, rules) };

    fn hash<H: Hasher>(&self, state: &mut H) {
        state.write(&self.to_piece().to_bytes());
    }
}

impl<K: WordKind<N>, const N: usize> FromStr for WordOf<K, N> {
    type Err = ParseError;

    ghost from_str_gives = { λ text r. r ≡ read K.kind K.refusal text };

    fn from_str(s: &str) -> Result<Self, ParseError> {
        Self::try_from_str(s)
    }
}

impl<K: WordKind<N>, const N: usize> From<WordOf<K, N>> for TinyAsciiStr<N> {
    ghost from_gives = { λ word text. text ≡ word };

    fn from(word: WordOf<K, N>) -> TinyAsciiStr<N> {
        word.to_tinystr()
    }
}

/// Prints as the text does, in quotes.
impl<K: WordKind<N>, const N: usize> fmt::Debug for WordOf<K, N> {
    ghost debug_output = { debug_str };

    fn fmt<W: fmt::Write>(&self, f: &mut fmt::Formatter<W>) -> fmt::Result {
        fmt::Debug::fmt(&self.as_str(), f)
    }
}

impl<K: WordKind<N>, const N: usize> fmt::Display for WordOf<K, N> {
    ghost output = { λ text. Some text };

    fn fmt<W: fmt::Write>(&self, f: &mut fmt::Formatter<W>) -> fmt::Result {
        f.write_str(self.as_str())
    }
}

/// A subtag is one piece.
impl<K: WordKind<N>, const N: usize> Pieces for WordOf<K, N> {
    ghost pieces = { λ text. text ∷ [] };

    fn has_pieces(&self) -> bool {
        true
    }

    fn write_pieces<S: Sink>(&self, sink: &mut S, first: bool) -> fmt::Result {
        let piece = self.text.to_piece();
        sink.write_short_piece(piece.to_bytes(), piece.len(), first)
    }
}

/// Prints the text, which can always be lent.
impl<K: WordKind<N>, const N: usize> Writeable for WordOf<K, N> {
    ghost text = { λ text. text };

    ghost lends = { λ _. Unit {0} };

    fn write_to<S: Sink>(&self, sink: &mut S) -> fmt::Result {
        sink.write_str(self.as_str())
    }

    fn writeable_length_hint(&self) -> LengthHint {
        LengthHint::exact(self.as_str().len())
    }

    fn writeable_borrow(&self) -> Option<&str> {
        Some(self.as_str())
    }
}
