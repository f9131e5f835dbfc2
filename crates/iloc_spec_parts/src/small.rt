//! Small texts, which are parsed without an allocation, and inline texts, of few words in each list.
//!
//! A text is small, or has exactly one small fault. A small text is a locale of the same parts, and inline. Plain
//! programs say which texts are small and which are inline. A text that is inline as a whole has few words in each of
//! its blocks, so no parser of a part allocates.

ghost use Rattle.std.specs.Prelude.{◌≡◌, ◌↔◌, ◌⊎◌, ℕ, true, false, List, [], Ok, Err, MatchResult, codes};
ghost use Rattle.iloc_spec_grammar.specs.Syntax.{Text, LanguageLengths, Block, code_t, code_u, pieces, TransformKey, Attribute, is_word, IsWord, AreLengths, languages, kept, lower_singleton, is_other_singleton, first_piece};
ghost use Rattle.iloc_spec_grammar.specs.Reading.{rest_of};
ghost use Rattle.iloc_spec_parts.specs.Fronts.{is_bad_key, other_front};
ghost use Rattle.iloc_spec_grammar.specs.Meaning.{Locale, Means, IdentifierMeans, Fault, InvalidLanguage, InvalidSubtag, InvalidExtension};
ghost use Rattle.iloc_spec_grammar.specs.Values.{text};
ghost use Rattle.iloc_spec_parts.specs.Small.{SmallIdentifier, SmallLocale, IsSmallIdentifier, IsSmall, HasSmallIdentifierFault, HasSmallFault, IsSmallValue, identifier_of_small, locale_of_small};
ghost use Rattle.iloc_spec_parts.specs.SmallComputing.{small_identifier_result, small_result, small_text, is_inline};
ghost use Rattle.iloc_spec_parts.specs.Inline.{IsInline, IsInlineByBlocks, IsShortBlock, ReachesLongBlock};
ghost use Rattle.std.specs.List.{AllByRecursion};

/// A small text is read in one way, as a value of normal words, and is a locale of the same parts and nothing else.
pub fn small_texts()
    ensures one { (T : LanguageLengths) → AreLengths T → (t : Text) (r s : SmallLocale)
        → IsSmall T t r
        → IsSmall T t s → r ≡ s }
    ensures locale { (T : LanguageLengths) (t : Text) (r : SmallLocale) → IsSmall T t r
        → Means T t (locale_of_small r) }
    ensures value { (T : LanguageLengths) (t : Text) (r : SmallLocale) → IsSmall T t r
        → IsSmallValue T r }
    ensures back { (T : LanguageLengths) (r : SmallLocale) → IsSmallValue T r
        → IsSmall T (text (locale_of_small r)) r }
{}

/// Each text is small or has a fault, never both, and one fault at most; and a plain program says which.
pub fn small_or_one_fault()
    ensures either { (T : LanguageLengths) → AreLengths T → (t : Text)
        → ((r : SmallLocale) × IsSmall T t r) ⊎ ((f : Fault) × HasSmallFault T t f) }
    ensures apart { (T : LanguageLengths) (t : Text) (r : SmallLocale) (f : Fault) → IsSmall T t r
        → HasSmallFault T t f → ⊥ }
    ensures one { (T : LanguageLengths) (t : Text) (f g : Fault) → HasSmallFault T t f
        → HasSmallFault T t g
        → f ≡ g }
    ensures answer { (T : LanguageLengths) → AreLengths T → (t : Text)
        → MatchResult (small_result T t) (IsSmall T t) (HasSmallFault T t) }
{}

/// Pieces are an identifier with at most one variant or have a fault, never both; and a plain program says which.
pub fn small_identifiers()
    ensures one { (T : LanguageLengths) (ps : List Text) (r s : SmallIdentifier)
        → IsSmallIdentifier T ps r
        → IsSmallIdentifier T ps s → r ≡ s }
    ensures means { (T : LanguageLengths) (ps : List Text) (r : SmallIdentifier)
        → IsSmallIdentifier T ps r
        → IdentifierMeans T ps (identifier_of_small r) }
    ensures either { (T : LanguageLengths) (t : Text)
        → ((r : SmallIdentifier) × IsSmallIdentifier T (pieces t) r)
        ⊎ ((f : Fault) × HasSmallIdentifierFault T (pieces t) f) }
    ensures apart { (T : LanguageLengths) (ps : List Text) (r : SmallIdentifier) (f : Fault)
        → IsSmallIdentifier T ps r → HasSmallIdentifierFault T ps f → ⊥ }
    ensures one_fault { (T : LanguageLengths) (ps : List Text) (f g : Fault)
        → HasSmallIdentifierFault T ps f
        → HasSmallIdentifierFault T ps g → f ≡ g }
    ensures answer { (T : LanguageLengths) (t : Text)
        → MatchResult (small_identifier_result T (pieces t)) (IsSmallIdentifier T (pieces t))
        (HasSmallIdentifierFault T (pieces t)) }
{}

/// A small text is one of few words.
pub fn small_is_inline()
    ensures { (T : LanguageLengths) (t : Text) (r : SmallLocale) → IsSmall T t r → IsInline T t }
{}

/// An inline text is a locale; and a plain program says whether a text is inline.
#[tactic(auto, using(crate::proofs::InlineLaws::inline_means, crate::proofs::InlineLaws::inline_answer))]
pub fn inline_texts()
    ensures locale { (T : LanguageLengths) (t : Text) → IsInline T t → (M : Locale) × Means T t M }
    ensures answer { (T : LanguageLengths) → AreLengths T → (t : Text) → (is_inline T t ≡ true)
        ↔ IsInline T t }
{}

/// Over a wider table of languages a small text stays what it is.
#[tactic(auto, using(crate::proofs::WiderSmall::small_wider))]
pub fn wider_small()
    ensures { (T U : LanguageLengths) → ((n : ℕ) → T n ≡ true → U n ≡ true)
        → (t : Text) (r : SmallLocale)
        → IsSmall T t r → IsSmall U t r }
{}

/// Worked texts.
pub fn by_example()
    ensures identifier { small_text (small_result languages (codes "EN-us-Posix"))
        ≡ Ok (codes "en-US-posix") }
    ensures keyword { small_text (small_result languages (codes "EN-U-CA-true-Buddhist"))
        ≡ Ok (codes "en-u-ca-buddhist") }
    ensures two_trues { small_text (small_result languages (codes "en-u-ca-true-true"))
        ≡ Ok (codes "en-u-ca") }
    ensures no_language { small_result languages (codes "e") ≡ Err InvalidLanguage }
    ensures two_variants { small_result languages (codes "en-macos-posix") ≡ Err InvalidSubtag }
    ensures no_singleton { small_result languages (codes "en-!") ≡ Err InvalidExtension }
    ensures another_singleton { small_result languages (codes "en-t-en") ≡ Err InvalidSubtag }
    ensures attribute { small_result languages (codes "en-u-foo") ≡ Err InvalidSubtag }
    ensures nothing_after_u { small_result languages (codes "en-u") ≡ Err InvalidExtension }
    ensures no_key { small_result languages (codes "en-u-a8") ≡ Err InvalidExtension }
    ensures two_keys { small_result languages (codes "en-u-ca-foo-ca-foo") ≡ Err InvalidSubtag }
    ensures two_values { small_result languages (codes "en-u-ca-foo-bar") ≡ Err InvalidSubtag }
    ensures another_block { small_result languages (codes "en-u-ca-foo-x-bar") ≡ Err InvalidSubtag }
    ensures two_bytes_after_the_key { small_result languages (codes "en-u-ca-a8")
        ≡ Err InvalidSubtag }
    ensures inline { is_inline languages
        (codes "en-1994-1995-t-fr-Latn-u-foo-bar-ca-islamic-civil-x-a-b-c-d") ≡ true }
    ensures repeated_key { is_inline languages (codes "en-u-ca-foo-ca-bar") ≡ true }
    ensures five_variants { is_inline languages (codes "en-1994-1995-1996-1997-1998") ≡ false }
    ensures inline_two_keys { is_inline languages (codes "en-u-ca-hc") ≡ false }
    ensures five_values_of_a_repeat { is_inline languages
        (codes "en-u-ca-ca-foo1-foo2-foo3-foo4-foo5") ≡ false }
    ensures field { is_inline languages (codes "en-t-m0-foo") ≡ false }
    ensures other { is_inline languages (codes "en-a-foo") ≡ false }
    ensures five_private_words { is_inline languages (codes "en-x-a-b-c-d-e") ≡ false }
{}

/// Each block of an inline text has few words.
pub fn by_blocks()
    ensures { (T : LanguageLengths) → AreLengths T → (t : Text) → IsInline T t
        → IsInlineByBlocks T t }
{}

/// If all blocks are short, none that is long is reached.
#[tactic(auto, using(crate::proofs::InlineBlockLaws::none_long))]
pub fn short_blocks()
    ensures { (T : LanguageLengths) (bs : List Block) → ReachesLongBlock T bs
        → ¬ (AllByRecursion (IsShortBlock T) bs) }
{}

/// A block that breaks its rule before anything is kept of it is short: so `en-u-a8`, `en-t-m0` and `en-a-!!` are refused without allocating.
pub fn broken_blocks()
    ensures unicode { (T : LanguageLengths) (b : Block) → lower_singleton b ≡ code_u
        → is_bad_key (first_piece b.1) ≡ true → IsShortBlock T b }
    ensures transform { (T : LanguageLengths) (b : Block) → lower_singleton b ≡ code_t
        → IsWord TransformKey (first_piece b.1)
        → is_word Attribute (first_piece (rest_of b.1)) ≡ false → IsShortBlock T b }
    ensures other { (T : LanguageLengths) (b : Block)
        → is_other_singleton (lower_singleton b) ≡ true
        → kept (other_front b.1) ≡ [] → IsShortBlock T b }
{}
