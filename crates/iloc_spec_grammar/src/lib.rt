//! The grammar of locale identifiers: pieces, words, what is written and what it means, faults, the normal text,
//! and the rewriting steps that lead to it (UTS #35, section 3).
//!
//! A text means at most one locale, or has exactly one fault. The normal text of what a text means is accepted, means
//! the same, and no accepted text of that meaning is shorter; at most eight steps lead there from each accepted text.
//! Each law is a function with an empty body, whose contract says it. `rewriting` has the laws of any number of steps,
//! and plain programs that tell whether a step leads from one text to another. `models` has the laws of other ways to
//! say the same: by trees, block by block, and by plain programs.
//!
//! It stands on std.
#![tactic(auto)]

pub mod models;
pub mod rewriting;

ghost use Rattle.std.specs.Prelude.{◌≡◌, ◌↔◌, ◌⊎◌, ℕ, ◌+◌, ◌≤◌, true, ◌||◌, List, [], ◌∷◌, ◌++◌, length, replicate, nat_lt, is_some, option_map, Some, if◌then◌else◌, Ok, Err, MatchResult, codes, map};
ghost use Rattle.std.specs.FinMap.{find, is_sorted};
ghost use Rattle.std.specs.List.{list_any};
ghost use Rattle.iloc_spec_grammar.specs.Syntax.{Text, LanguageLengths, Block, code_t, code_u, code_x, pieces, join, dashes, ArePieces, Kind, Language, AreLengths, two_or_three, languages, IsWord, is_word, normal, lower, word, word_cmp, is_same, EndsAt, greatest, Bounds, raw, wide_raw, narrow_raw, before_zero, Identifier, Fields, Unicode, Transform, AllDifferent, HasWords, identifier_pieces, fields_pieces, unicode_pieces, optional_pieces, head, IsUnicode, IsTransform};
ghost use Rattle.iloc_spec_grammar.specs.Meaning.{map_of, set_of, Locale, Means, IdentifierMeans, Fault, InvalidLanguage, InvalidSubtag, InvalidExtension, DuplicatedExtension, HasFault, HasIdentifierFault};
ghost use Rattle.iloc_spec_grammar.specs.Examples.{Normalises, IsRefused, NormalisesIdentifier, IsRefusedIdentifier};
ghost use Rattle.iloc_spec_grammar.specs.Values.{Reordered, AreWellFormed, TextStep, IdentifierTextStep, Leads, LeadToOne, IsNormal, StrictlyAscends, IsIdentifierValue, IsValue, IsWellFormed, lower_identifier, spelled_fields, text, unicode_spelling, transform_spelling, other_spelling, private_spelling, extensions_spelling, identifier_text};

/// Each text has exactly one list of pieces.
#[tactic(auto, using(crate::proofs::PiecesLaws::pieces_are, crate::proofs::PiecesLaws::pieces_unique))]
pub fn one_list_of_pieces()
    ensures are { (t : Text) → ArePieces t (pieces t) }
    ensures only { (t : Text) (ps : List Text) → ArePieces t ps → ps ≡ pieces t }
{}

/// The normal form of a word is a word, and normal; it is as long, and stands for the word without case.
#[tactic(auto, using(crate::proofs::WordsLaws::normal_words_laws))]
pub fn normal_words()
    ensures word { (k : Kind) (p : Text) → is_word k (normal k p) ≡ is_word k p }
    ensures twice { (k : Kind) (p : Text) → normal k (normal k p) ≡ normal k p }
    ensures long { (k : Kind) (p : Text) → length (normal k p) ≡ length p }
    ensures case { (k : Kind) (p q : Text) → (normal k p ≡ normal k q) ↔ (lower p ≡ lower q) }
{}

/// What is read of a piece is a normal word, is read as itself, and is as long; and pieces are read alike exactly if they are equal without case.
#[tactic(auto, using(crate::proofs::ReadWords::accepted_from_word, crate::proofs::ReadWords::normal_again, crate::proofs::ReadWords::length_kept, crate::proofs::ReadWords::one_normal, crate::proofs::ReadWords::normal_of_same))]
pub fn words_read()
    ensures accepted { (k : Kind) (p w : Text) → word k p ≡ Some w → IsWord k p × (normal k p ≡ w) }
    ensures again { (k : Kind) (p w : Text) → word k p ≡ Some w → word k w ≡ Some w }
    ensures long { (k : Kind) (p w : Text) → word k p ≡ Some w → length w ≡ length p }
    ensures one { (k : Kind) (p q v w : Text) → word k p ≡ Some v → word k q ≡ Some w
        → (v ≡ w) ↔ (lower p ≡ lower q) }
    ensures same { (k : Kind) (w p : Text) → IsNormal k w
        → (lower w ≡ lower p) ↔ (word k p ≡ Some w) }
{}

/// The raw form of a word has the greatest length of its kind, and the word is read back from it.
#[tactic(auto, using(crate::proofs::RawLaws::raw_laws))]
pub fn raw_forms()
    ensures long { (n : ℕ) (k : Kind) (w : Text) → Bounds n k → IsWord k w
        → length (raw n k w) ≡ greatest n k }
    ensures back { (n : ℕ) (k : Kind) (w : Text) → IsWord k w → before_zero (raw n k w) ≡ w }
    ensures injective { (n : ℕ) (k : Kind) (v w : Text) → IsWord k v → IsWord k w
        → raw n k v ≡ raw n k w → v ≡ w }
    ensures wider { (w : Text) → IsWord (Language two_or_three) w
        → wide_raw (Language languages) w ≡ narrow_raw (Language two_or_three) w ++ replicate 5 0 }
{}

/// The narrow and the wide lengths may be those of languages. The wide ones have each narrow one. They end at three and at eight.
#[tactic(auto, using(crate::proofs::RawLaws::narrow_table, crate::proofs::RawLaws::languages_table, crate::proofs::RawLaws::narrow_in_wide, crate::proofs::RawLaws::wide_ends, crate::proofs::RawLaws::narrow_ends))]
pub fn language_lengths()
    ensures narrow { AreLengths two_or_three }
    ensures wide { AreLengths languages }
    ensures wider { (n : ℕ) → two_or_three n ≡ true → languages n ≡ true }
    ensures wide_ends { EndsAt 8 languages }
    ensures narrow_ends { EndsAt 3 two_or_three }
{}

/// Pieces have one meaning as an identifier.
pub fn one_identifier()
    ensures { (T : LanguageLengths) (ps : List Text) (i j : Identifier) → IdentifierMeans T ps i
        → IdentifierMeans T ps j → i ≡ j }
{}

/// A map of fields ascends, and finds what the fields find, the first of equal keys; fields that find the same have one map.
pub fn maps()
    ensures ascends { (fs : Fields) → is_sorted word_cmp (map_of word_cmp fs) ≡ true }
    ensures finds { (key : Text) (fs : Fields)
        → find word_cmp key (map_of word_cmp fs) ≡ find word_cmp key fs }
    ensures one { (fs gs : Fields) → ((key : Text) → find word_cmp key fs ≡ find word_cmp key gs)
        → map_of word_cmp fs ≡ map_of word_cmp gs }
    ensures itself { (fs : Fields) → is_sorted word_cmp fs ≡ true → map_of word_cmp fs ≡ fs }
    ensures first { (fs gs : Fields)
        → map_of word_cmp (map_of word_cmp fs ++ gs) ≡ map_of word_cmp (fs ++ gs) }
    ensures last { (fs gs : Fields)
        → map_of word_cmp (fs ++ map_of word_cmp gs) ≡ map_of word_cmp (fs ++ gs) }
{}

/// A set of words ascends, and has each word of the list once.
pub fn sets()
    ensures ascends { (ws : List Text) → StrictlyAscends word_cmp (set_of ws) }
    ensures contains { (w : Text) (ws : List Text)
        → list_any (is_same w) (set_of ws) ≡ list_any (is_same w) ws }
    ensures itself { (ws : List Text) → StrictlyAscends word_cmp ws → set_of ws ≡ ws }
    ensures first { (vs ws : List Text) → set_of (set_of vs ++ ws) ≡ set_of (vs ++ ws) }
    ensures last { (vs ws : List Text) → set_of (vs ++ set_of ws) ≡ set_of (vs ++ ws) }
    ensures reordered { (vs ws : List Text) → Reordered vs ws → set_of vs ≡ set_of ws }
    ensures short { (ws : List Text) → length (set_of ws) ≤ length ws }
    ensures different { (ws : List Text) → AllDifferent word_cmp ws
        → length (set_of ws) ≡ length ws }
{}

/// A value is well-formed, by what its text means, exactly if its extensions pass the tests of `AreWellFormed`; so too with other lengths of languages.
pub fn well_formed()
    ensures tests { (M : Locale) → IsValue languages M
        → IsWellFormed M ↔ AreWellFormed M.extensions }
    ensures each_lengths { (T : LanguageLengths) → AreLengths T → (M : Locale) → IsValue T M
        → Means T (text M) M ↔ AreWellFormed M.extensions }
{}

/// The text of a well-formed value means the value, with whatever lengths of languages; so the normal text of what a text means has the same meaning.
pub fn reads_back()
    ensures again { (T : LanguageLengths) → AreLengths T → (t : Text) (M : Locale) → Means T t M
        → Means T (text M) M }
    ensures back { (T : LanguageLengths) → AreLengths T → (M : Locale) → IsValue T M
        → IsWellFormed M
        → Means T (text M) M }
{}

/// A text means one value at most.
pub fn one_meaning()
    ensures { (T : LanguageLengths) → AreLengths T → (t : Text) (L M : Locale) → Means T t L
        → Means T t M
        → L ≡ M }
{}

/// Each text is a locale or has a fault, never both, and one fault at most.
pub fn accepted_or_one_fault()
    ensures either { (T : LanguageLengths) (t : Text)
        → ((M : Locale) × Means T t M) ⊎ ((f : Fault) × HasFault T t f) }
    ensures apart { (T : LanguageLengths) → AreLengths T → (t : Text) (M : Locale) (f : Fault)
        → Means T t M
        → HasFault T t f → ⊥ }
    ensures one { (T : LanguageLengths) (t : Text) (f g : Fault) → HasFault T t f → HasFault T t g
        → f ≡ g }
{}

/// What is read is a well-formed value.
pub fn read_is_well_formed()
    ensures value { (T : LanguageLengths) (t : Text) (M : Locale) → Means T t M → IsValue T M }
    ensures well_formed { (T : LanguageLengths) → AreLengths T → (t : Text) (M : Locale)
        → Means T t M
        → IsWellFormed M }
    ensures tests { (T : LanguageLengths) (t : Text) (M : Locale) → Means T t M
        → AreWellFormed M.extensions }
{}

/// A step keeps the meaning and does not lengthen the text.
pub fn steps()
    ensures mean { (T : LanguageLengths) → AreLengths T → (t u : Text) (M : Locale) → TextStep T t u
        → Means T t M → Means T u M }
    ensures shorten { (T : LanguageLengths) (t u : Text) → TextStep T t u → length u ≤ length t }
{}

/// At most eight steps lead from each accepted text to the printed one, which no text of its meaning is shorter than; two accepted texts mean the same exactly if such steps lead both to one text.
pub fn chain()
    ensures steps { (T : LanguageLengths) (t : Text) (M : Locale) → Means T t M
        → Leads (TextStep T) 8 t (text M) }
    ensures shortest { (T : LanguageLengths) (t : Text) (M : Locale) → Means T t M
        → length (text M) ≤ length t }
    ensures same { (T : LanguageLengths) → AreLengths T → (t u : Text) (L M : Locale) → Means T t L
        → Means T u M
        → (L ≡ M) ↔ LeadToOne (TextStep T) 8 t u }
{}

/// With more lengths of languages each word, identifier and text keeps its meaning: what is accepted with the narrow lengths, this library accepts with the same locale, and so with the same normal text.
pub fn wider()
    ensures words { (T U : LanguageLengths) → ((n : ℕ) → T n ≡ true → U n ≡ true) → (p : Text)
        → IsWord (Language T) p → IsWord (Language U) p }
    ensures identifiers { (T U : LanguageLengths) → ((n : ℕ) → T n ≡ true → U n ≡ true)
        → (ps : List Text) (i : Identifier) → IdentifierMeans T ps i → IdentifierMeans U ps i }
    ensures texts { (T U : LanguageLengths) → ((n : ℕ) → T n ≡ true → U n ≡ true)
        → (t : Text) (M : Locale)
        → Means T t M → Means U t M }
    ensures ours { (t : Text) (M : Locale) → Means two_or_three t M → Means languages t M }
{}

/// Printing is injective on well-formed values, and equal printed texts are equal meanings.
pub fn printing()
    ensures injective { (L M : Locale) → IsWellFormed L → IsWellFormed M → text L ≡ text M
        → L ≡ M }
    ensures same { (T : LanguageLengths) → AreLengths T → (t u : Text) (L M : Locale) → Means T t L
        → Means T u M
        → (L ≡ M) ↔ (text L ≡ text M) }
{}

/// What is read as an identifier is a value, and the text of a value means it; so texts of identifiers mean the same exactly if the texts of their meanings are equal, and the text of a meaning is its own.
pub fn identifier_texts()
    ensures value { (T : LanguageLengths) (ps : List Text) (i : Identifier) → IdentifierMeans T ps i
        → IsIdentifierValue T i }
    ensures back { (T : LanguageLengths) (i : Identifier) → IsIdentifierValue T i
        → IdentifierMeans T (pieces (identifier_text i)) i }
    ensures again { (T : LanguageLengths) (t : Text) (i : Identifier)
        → IdentifierMeans T (pieces t) i
        → IdentifierMeans T (pieces (identifier_text i)) i }
    ensures injective { (T : LanguageLengths) (i j : Identifier) → IsIdentifierValue T i
        → IsIdentifierValue T j → identifier_text i ≡ identifier_text j → i ≡ j }
    ensures same { (T : LanguageLengths) (t u : Text) (i j : Identifier)
        → IdentifierMeans T (pieces t) i
        → IdentifierMeans T (pieces u) j → (i ≡ j) ↔ (identifier_text i ≡ identifier_text j) }
{}

/// A step in the case of letters or in the order of the variants keeps the meaning and the length of an identifier's text.
pub fn identifier_steps()
    ensures mean { (T : LanguageLengths) (t u : Text) (i : Identifier) → IdentifierTextStep T t u
        → IdentifierMeans T (pieces t) i → IdentifierMeans T (pieces u) i }
    ensures long { (T : LanguageLengths) (t u : Text) → IdentifierTextStep T t u
        → length u ≡ length t }
{}

/// At most two steps lead from each identifier's text to the text of its meaning, so all texts of a meaning are as long; two mean the same exactly if such steps lead both to one text.
pub fn identifier_chain()
    ensures steps { (T : LanguageLengths) (t : Text) (i : Identifier)
        → IdentifierMeans T (pieces t) i
        → Leads (IdentifierTextStep T) 2 t (identifier_text i) }
    ensures long { (T : LanguageLengths) (t : Text) (i : Identifier)
        → IdentifierMeans T (pieces t) i
        → length (identifier_text i) ≡ length t }
    ensures same { (T : LanguageLengths) (t u : Text) (i j : Identifier)
        → IdentifierMeans T (pieces t) i
        → IdentifierMeans T (pieces u) j → (i ≡ j) ↔ LeadToOne (IdentifierTextStep T) 2 t u }
{}

/// Each text is an identifier or has a fault as one, never both, and one fault at most; so too for the head of a text.
pub fn identifier_or_one_fault()
    ensures either { (T : LanguageLengths) (t : Text)
        → ((i : Identifier) × IdentifierMeans T (pieces t) i)
        ⊎ ((f : Fault) × HasIdentifierFault T (pieces t) f) }
    ensures head { (T : LanguageLengths) (t : Text)
        → ((i : Identifier) × IdentifierMeans T (head (pieces t)) i)
        ⊎ ((f : Fault) × HasIdentifierFault T (head (pieces t)) f) }
    ensures apart { (T : LanguageLengths) (ps : List Text) (i : Identifier) (f : Fault)
        → IdentifierMeans T ps i → HasIdentifierFault T ps f → ⊥ }
    ensures one { (T : LanguageLengths) (ps : List Text) (f g : Fault) → HasIdentifierFault T ps f
        → HasIdentifierFault T ps g → f ≡ g }
{}

/// A join is its first piece, and each other after a hyphen.
#[tactic(auto, using(crate::proofs::PartTexts::join_laws))]
pub fn joins()
    ensures none { join [] ≡ [] }
    ensures some { (p : Text) (ps : List Text) → join (p ∷ ps) ≡ p ++ dashes ps }
    ensures append { (ps qs : List Text) → dashes (ps ++ qs) ≡ dashes ps ++ dashes qs }
    ensures join_append { (p : Text) (ps qs : List Text)
        → join ((p ∷ ps) ++ qs) ≡ join (p ∷ ps) ++ dashes qs }
{}

/// The text of a locale is the join of its parts: its identifier, and each other part after a hyphen; an empty part gives nothing.
#[tactic(auto, using(crate::proofs::PartTexts::text_of_parts, crate::proofs::PartTexts::unicode_spelling_is, crate::proofs::PartTexts::transform_spelling_is, crate::proofs::PartTexts::other_spelling_is, crate::proofs::PartTexts::private_spelling_is, crate::proofs::PartTexts::private_spelling_none))]
pub fn texts_of_parts()
    ensures text { (M : Locale)
        → text M ≡ identifier_text M.id ++ dashes (extensions_spelling M.extensions) }
    ensures unicode { (u : Unicode)
        → unicode_spelling u ≡ if nat_lt 0 (length u.attributes + length u.keywords)
        then (code_u ∷ []) ∷ unicode_pieces u else [] }
    ensures transform { (m : Transform)
        → transform_spelling m ≡ if is_some m.id || nat_lt 0 (length m.fields)
        then (code_t ∷ [])
        ∷ (optional_pieces (option_map lower_identifier m.id)
        ++ fields_pieces (spelled_fields m.fields))
        else [] }
    ensures other { (o : Block)
        → other_spelling o ≡ if nat_lt 0 (length o.1) then (o.0 ∷ []) ∷ o.1 else [] }
    ensures private { (w : Text) (ws : List Text)
        → private_spelling (w ∷ ws) ≡ (code_x ∷ []) ∷ (w ∷ ws) }
    ensures no_private { private_spelling [] ≡ [] }
{}

/// Worked examples: texts with the normal texts of their meanings, and texts that are refused.
pub fn by_example()
    ensures everything { Normalises (codes "EN-latn-us-POSIX-macos-u-foo-ca-true-hc-H12")
        (codes "en-Latn-US-macos-posix-u-foo-ca-hc-h12") }
    ensures long_language { Normalises (codes "POSIX-us") (codes "posix-US") }
    ensures variant { Normalises (codes "en-ABCDEFGH") (codes "en-abcdefgh") }
    ensures first_field_stays { Normalises (codes "en-u-ca-foo-ca-bar") (codes "en-u-ca-foo") }
    ensures first_field_stays_empty { Normalises (codes "en-u-ca-true-ca-foo") (codes "en-u-ca") }
    ensures attribute_set { Normalises (codes "en-u-foo-bar-FOO") (codes "en-u-bar-foo") }
    ensures empty_field { Normalises (codes "und-t-m0-true-true") (codes "und-t-m0-true") }
    ensures true_is_dropped { Normalises (codes "und-t-m0-foo-true") (codes "und-t-m0-foo") }
    ensures transform_in_lower_case { Normalises (codes "en-t-en-Latn-us-1994-m0-FOO-m0-bar")
        (codes "en-t-en-latn-us-1994-m0-foo") }
    ensures blocks_in_order { Normalises (codes "en-u-ca-foo-a-bar-t-fr")
        (codes "en-a-bar-t-fr-u-ca-foo") }
    ensures digits_before_letters { Normalises (codes "und-a-foo-1-bar") (codes "und-1-bar-a-foo") }
    ensures pieces_dropped { Normalises (codes "en-a-foo-!!-bar") (codes "en-a-foo-bar") }
    ensures private_takes_the_rest { Normalises (codes "und-z-foo-X-U-ca-w")
        (codes "und-z-foo-x-u-ca-w") }
    ensures nothing { IsRefused [] InvalidLanguage }
    ensures private_alone { IsRefused (codes "x-foo") InvalidLanguage }
    ensures underscore { IsRefused (codes "en_US") InvalidLanguage }
    ensures empty_piece { IsRefused (codes "en-") InvalidSubtag }
    ensures no_word { IsRefused (codes "en-foo") InvalidSubtag }
    ensures variant_twice { IsRefused (codes "en-posix-POSIX") InvalidSubtag }
    ensures transform_variant_twice { IsRefused
        (codes "en-t-en-posix-posix-toolonggg") InvalidSubtag }
    ensures no_singleton { IsRefused (codes "en-!") InvalidExtension }
    ensures empty_extension { IsRefused (codes "en-u-") InvalidExtension }
    ensures no_key { IsRefused (codes "en-u-a8") InvalidExtension }
    ensures field_without_value { IsRefused (codes "und-t-m0") InvalidExtension }
    ensures nothing_kept { IsRefused (codes "en-a-!!") InvalidExtension }
    ensures no_private_word { IsRefused (codes "en-x") InvalidExtension }
    ensures twice { IsRefused (codes "en-a-foo-A-!") DuplicatedExtension }
    ensures language_and_variant { Normalises (codes "posix-posix") (codes "posix-posix") }
    ensures transform_of_language_and_variant { Normalises (codes "en-t-posix-posix")
        (codes "en-t-posix-posix") }
    ensures others_on_both_sides { Normalises (codes "und-a-foo-t-foo-u-foo-w-foo-z-foo-x-foo")
        (codes "und-a-foo-t-foo-u-foo-w-foo-z-foo-x-foo") }
    ensures true_as_attribute { Normalises (codes "en-u-true") (codes "en-u-true") }
    ensures twice_whatever_it_holds { IsRefused (codes "en-a-foo-A-toolonggg") DuplicatedExtension }
    ensures four_letters { IsRefused (codes "latn-US") InvalidLanguage }
    ensures empty_in_the_head { IsRefused (codes "en--us") InvalidSubtag }
    ensures long_in_another { IsRefused (codes "en-a-foo-toolonggg") InvalidExtension }
    ensures nine_bytes_first { IsRefused (codes "abcdefghi") InvalidLanguage }
    ensures nine_bytes_as_a_variant { IsRefused (codes "en-abcdefghi") InvalidSubtag }
    ensures nine_bytes_as_an_attribute { IsRefused (codes "en-u-abcdefghi") InvalidExtension }
    ensures nine_private_bytes { IsRefused (codes "en-x-abcdefghi") InvalidExtension }
    ensures two_bytes_are_a_key { Normalises (codes "en-u-ca-ab") (codes "en-u-ab-ca") }
    ensures identifier_everything { NormalisesIdentifier (codes "EN-latn-us-POSIX-macos")
        (codes "en-Latn-US-macos-posix") }
    ensures identifier_of_digits { NormalisesIdentifier (codes "de-419-1996")
        (codes "de-419-1996") }
    ensures identifier_of_nothing { IsRefusedIdentifier [] InvalidLanguage }
    ensures identifier_with_extension { IsRefusedIdentifier (codes "en-u-ca") InvalidSubtag }
    ensures identifier_variant_twice { IsRefusedIdentifier
        (codes "en-macos-posix-MACOS") InvalidSubtag }
    ensures same_key_in_two_cases { AllDifferent word_cmp
        (map (λ k. lower k) (codes "ca" ∷ codes "CA" ∷ [])) → ⊥ }
    ensures one_true_stays { TextStep languages (codes "und-t-m0-true-true")
        (codes "und-t-m0-true") }
{}
