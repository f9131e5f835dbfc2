//! The grammar in other words, and the laws that they agree with its definitions.
//!
//! A text spells a tree, and means what the tree means (`Tree`). Or it is read block by block, by a rule for each part
//! (`ByBlocks`). Or plain programs compute what it means (`Reading`, `Computing`). Proofs go by the one that fits best.

ghost use Rattle.std.specs.Prelude.{◌≡◌, ◌↔◌, List, ◌∷◌, ◌++◌, Ok, Err, MatchResult};
ghost use Rattle.iloc_spec_grammar.specs.Syntax.{Text, LanguageLengths, pieces, AreLengths, SpelledIdentifier, SpelledUnicode, SpelledTransform, Identifier, HasWords, IsUnicode, IsTransform, identifier_pieces, unicode_pieces, transform_pieces};
ghost use Rattle.iloc_spec_grammar.specs.Meaning.{Locale, Means, IdentifierMeans, Fault, HasFault, HasIdentifierFault};
ghost use Rattle.iloc_spec_grammar.specs.Values.{text};
ghost use Rattle.iloc_spec_grammar.specs.Tree.{TreeMeans, HasTreeFault, tree_text};
ghost use Rattle.iloc_spec_grammar.specs.ByBlocks.{MeansByBlocks};
ghost use Rattle.iloc_spec_grammar.specs.Reading.{front_of, after_front, identifier_of, unicode_of, transform_of};
ghost use Rattle.iloc_spec_grammar.specs.Computing.{identifier_result, locale_result};

/// A text means a value exactly if a tree that it spells does. From the tree, languages have the given lengths.
pub fn same_meaning()
    ensures tree { (T : LanguageLengths) (t : Text) (M : Locale) → Means T t M → TreeMeans T t M }
    ensures blocks { (T : LanguageLengths) → AreLengths T → (t : Text) (M : Locale)
        → TreeMeans T t M
        → Means T t M }
{}

/// A text has the fault that its tree has.
pub fn same_faults()
    ensures { (T : LanguageLengths) (t : Text) (f : Fault) → HasFault T t f ↔ HasTreeFault T t f }
{}

/// The text of a value is that of its tree.
pub fn same_text()
    ensures { (M : Locale) → text M ≡ tree_text M }
{}

/// A text means a value as a whole exactly if it means it block by block.
pub fn by_blocks()
    ensures { (T : LanguageLengths) → AreLengths T → (t : Text) (M : Locale)
        → Means T t M ↔ MeansByBlocks T t M }
{}

/// Readings of pieces from the left give back what is spelled and follows the rules, and lose no piece.
pub fn whole_readings()
    ensures front { (T : LanguageLengths) (i : SpelledIdentifier) → HasWords T i
        → front_of (identifier_pieces i) ≡ i }
    ensures front_pieces { (p : Text) (ps : List Text)
        → identifier_pieces (front_of (p ∷ ps)) ++ after_front (p ∷ ps) ≡ p ∷ ps }
    ensures identifier { (T : LanguageLengths) (i : SpelledIdentifier) → HasWords T i
        → identifier_of (identifier_pieces i) ≡ i }
    ensures identifier_whole { (p : Text) (ps : List Text)
        → identifier_pieces (identifier_of (p ∷ ps)) ≡ p ∷ ps }
    ensures unicode { (u : SpelledUnicode) → IsUnicode u → unicode_of (unicode_pieces u) ≡ u }
    ensures unicode_whole { (ps : List Text) → unicode_pieces (unicode_of ps) ≡ ps }
    ensures transform { (T : LanguageLengths) (m : SpelledTransform) → IsTransform T m
        → transform_of (transform_pieces m) ≡ m }
    ensures transform_whole { (ps : List Text) → transform_pieces (transform_of ps) ≡ ps }
{}

/// The plain programs answer the meaning and the fault of a text.
pub fn computed()
    ensures answer { (T : LanguageLengths) → AreLengths T → (t : Text)
        → MatchResult (locale_result T t) (Means T t) (HasFault T t) }
    ensures identifier_answer { (T : LanguageLengths) (t : Text)
        → MatchResult (identifier_result T (pieces t)) (IdentifierMeans T (pieces t))
        (HasIdentifierFault T (pieces t)) }
    ensures means { (T : LanguageLengths) → AreLengths T → (t : Text) (M : Locale)
        → (locale_result T t ≡ Ok M) ↔ Means T t M }
    ensures fault { (T : LanguageLengths) → AreLengths T → (t : Text) (f : Fault)
        → (locale_result T t ≡ Err f) ↔ HasFault T t f }
    ensures identifier { (T : LanguageLengths) (t : Text) (i : Identifier)
        → (identifier_result T (pieces t) ≡ Ok i) ↔ IdentifierMeans T (pieces t) i }
    ensures identifier_fault { (T : LanguageLengths) (t : Text) (f : Fault)
        → (identifier_result T (pieces t) ≡ Err f) ↔ HasIdentifierFault T (pieces t) f }
{}
