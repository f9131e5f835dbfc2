//! What the parsers of single parts take from the front of a text, and meaning by these parsers.
//!
//! For the parts of `u`, `t`, other singletons and `x` one relation says what is parsed and what is left, and another
//! says when nothing is. Each has one answer. Those of `u`, `t` and other singletons agree with the rules of blocks if
//! nothing is left. So a text means a locale exactly if the parser of each part takes the whole of its block as that
//! part of the locale. Plain programs compute parts, also with their singletons.

ghost use Rattle.std.specs.Prelude.{◌≡◌, ◌↔◌, true, false, ◌||◌, List, [], ◌∷◌, Some, None, Ok, Err, MatchResult, codes};
ghost use Rattle.std.specs.FinMap.{find};
ghost use Rattle.std.specs.List.{AllByRecursion, list_any};
ghost use Rattle.std.specs.Option.{option_or};
ghost use Rattle.iloc_spec_grammar.specs.Syntax.{Text, LanguageLengths, Block, code_t, code_u, code_x, pieces, join, AreLengths, Subtag, Attribute, is_true, is_same, word_cmp, languages, Unicode, Transform, IsOther, is_other_singleton, lower_singleton, IsPrivate};
ghost use Rattle.iloc_spec_grammar.specs.Values.{IsNormal, IsUnicodeValue, spelled_value};
ghost use Rattle.iloc_spec_grammar.specs.Meaning.{InvalidSubtag, InvalidExtension, RepeatsVariant, AreBlocks, front, Locale, Means};
ghost use Rattle.iloc_spec_grammar.specs.ByBlocks.{UnicodeMeans, TransformMeans, OtherMeans};
ghost use Rattle.iloc_spec_parts.specs.Readers.{IsReader, AgreesWithBlocks};
ghost use Rattle.iloc_spec_parts.specs.Fronts.{attributes_read, KeywordsRead, KeywordsFault, UnicodeRead, UnicodeFault, TransformRead, TransformFault, OtherRead, OtherFault, PrivateRead, PrivateFault, keywords_result, unicode_result, transform_result, other_result, private_result};
ghost use Rattle.iloc_spec_parts.specs.Parts.{PartRead, PartFault, is_letter};
ghost use Rattle.iloc_spec_parts.specs.PartValues.{unicode_value, transform_value};
ghost use Rattle.iloc_spec_parts.specs.Extending.{extend};
ghost use Rattle.iloc_spec_parts.specs.PartComputing.{part_result};
ghost use Rattle.iloc_spec_parts.specs.ByReaders.{MeansByReaders};

/// Keywords are read from the front, or a piece of two bytes there is no key; and a plain program says which.
#[tactic(auto, using(crate::proofs::FrontLaws::keywords_reader, crate::proofs::FrontLaws::keywords_answer))]
pub fn keywords_front()
    ensures reader { IsReader KeywordsRead KeywordsFault }
    ensures answer { (ps : List Text)
        → MatchResult (keywords_result ps) (λ (m, rest). KeywordsRead ps m rest) (KeywordsFault ps) }
{}

/// What comes after `u` is read from the front, or has a fault; if nothing of the block is left it is what the block means.
#[tactic(auto, using(crate::proofs::FrontLaws::unicode_reader, crate::proofs::FrontLaws::unicode_answer, crate::proofs::FrontLaws::unicode_agrees))]
pub fn unicode_front()
    ensures reader { IsReader UnicodeRead UnicodeFault }
    ensures answer { (ps : List Text)
        → MatchResult (unicode_result ps) (λ (u, rest). UnicodeRead ps u rest) (UnicodeFault ps) }
    ensures blocks { AgreesWithBlocks UnicodeRead UnicodeFault UnicodeMeans }
{}

/// What comes after `t` is read from the front, or has a fault. A variant is repeated in the block exactly if it is at
/// the front.
pub fn transform_front()
    ensures reader { (T : LanguageLengths) → AreLengths T
        → IsReader (TransformRead T) (TransformFault T) }
    ensures answer { (T : LanguageLengths) → AreLengths T → (ps : List Text)
        → MatchResult (transform_result T ps) (λ (m, rest). TransformRead T ps m rest)
        (TransformFault T ps) }
    ensures blocks { (T : LanguageLengths) → AreLengths T
        → AgreesWithBlocks (TransformRead T) (TransformFault T) (TransformMeans T) }
    ensures repeats { (T : LanguageLengths) → AreLengths T → (ps : List Text)
        → RepeatsVariant T (front ps) ↔ RepeatsVariant T ps }
{}

/// What comes after another singleton is read from the front, or has a fault.
#[tactic(auto, using(crate::proofs::FrontLaws::other_reader, crate::proofs::FrontLaws::other_answer, crate::proofs::FrontLaws::other_agrees))]
pub fn other_front()
    ensures reader { IsReader OtherRead OtherFault }
    ensures answer { (ps : List Text)
        → MatchResult (other_result ps) (λ (ws, rest). OtherRead ps ws rest) (OtherFault ps) }
    ensures blocks { AgreesWithBlocks OtherRead OtherFault OtherMeans }
{}

/// After `x` all is read, or nothing.
#[tactic(auto, using(crate::proofs::FrontLaws::private_reader, crate::proofs::FrontLaws::private_answer))]
pub fn private_front()
    ensures reader { IsReader PrivateRead PrivateFault }
    ensures answer { (ps : List Text)
        → MatchResult (private_result ps) (λ r. PrivateRead ps r.0 r.1) (PrivateFault ps) }
{}

/// A part with its singleton is read in one way, or has one fault.
pub fn parts()
    ensures unicode { IsReader (PartRead (is_letter code_u) UnicodeRead)
        (PartFault (is_letter code_u) UnicodeFault) }
    ensures transform { (T : LanguageLengths) → AreLengths T
        → IsReader (PartRead (is_letter code_t) (TransformRead T))
        (PartFault (is_letter code_t) (TransformFault T)) }
    ensures other { IsReader (PartRead is_other_singleton OtherRead)
        (PartFault is_other_singleton OtherFault) }
    ensures private { IsReader (PartRead (is_letter code_x) PrivateRead)
        (PartFault (is_letter code_x) PrivateFault) }
{}

/// A block follows its rule exactly if it means a part.
pub fn block_rules()
    ensures unicode { (T : LanguageLengths) (b : Block) → lower_singleton b ≡ code_u
        → AreBlocks T (b ∷ []) ↔ ((u : Unicode) × UnicodeMeans b.1 u) }
    ensures transform { (T : LanguageLengths) (b : Block) → lower_singleton b ≡ code_t
        → AreBlocks T (b ∷ []) ↔ ((m : Transform) × TransformMeans T b.1 m) }
    ensures private { (T : LanguageLengths) (b : Block) → lower_singleton b ≡ code_x
        → AreBlocks T (b ∷ []) ↔ IsPrivate b.1 }
    ensures other { (T : LanguageLengths) (b : Block)
        → is_other_singleton (lower_singleton b) ≡ true
        → AreBlocks T (b ∷ []) ↔ IsOther b.1 }
{}

/// The text of a value is read as it.
#[tactic(auto, using(crate::proofs::ValueLaws::transform_value_back, crate::proofs::ValueLaws::unicode_value_back))]
pub fn values()
    ensures unicode { (ws : List Text)
        → AllByRecursion (λ w. IsNormal Subtag w × (is_true w ≡ false)) ws
        → unicode_value (join ws) ≡ Ok ws }
    ensures transform { (ws : List Text)
        → AllByRecursion (λ w. IsNormal Attribute w × (is_true w ≡ false)) ws
        → transform_value (join (spelled_value ws)) ≡ Ok ws }
{}

/// Extending is override of maps and union of sets: it is associative, and the empty part changes nothing.
pub fn extending()
    ensures associative { (u v w : Unicode) → extend (extend u v) w ≡ extend u (extend v w) }
    ensures keywords { (u v : Unicode) (k : Text)
        → find word_cmp k (extend u v).keywords
        ≡ option_or (find word_cmp k v.keywords) (find word_cmp k u.keywords) }
    ensures attributes { (u v : Unicode) (w : Text)
        → list_any (is_same w) (extend u v).attributes
        ≡ (list_any (is_same w) u.attributes || list_any (is_same w) v.attributes) }
    ensures value { (u v : Unicode) → IsUnicodeValue u → IsUnicodeValue v
        → IsUnicodeValue (extend u v) }
    ensures by_nothing { (u : Unicode) → IsUnicodeValue u
        → extend u (record { attributes = []; keywords = [] }) ≡ u }
    ensures nothing { (u : Unicode) → IsUnicodeValue u
        → extend (record { attributes = []; keywords = [] }) u ≡ u }
{}

/// Worked fronts.
pub fn by_example()
    ensures attributes { attributes_read (pieces (codes "foo-bar-FOO-ca-baz"))
        ≡ codes "bar" ∷ codes "foo" ∷ [] }
    ensures keywords { keywords_result (pieces (codes "hc-H12-ca-true-ca-foo-x-bar"))
        ≡ Ok ((codes "ca", []) ∷ (codes "hc", codes "h12" ∷ []) ∷ [], pieces (codes "x-bar")) }
    ensures no_keywords { keywords_result (pieces (codes "foo-ca"))
        ≡ Ok ([], pieces (codes "foo-ca")) }
    ensures bad_key { keywords_result (pieces (codes "ca-foo-a8")) ≡ Err InvalidExtension }
    ensures unicode { unicode_result (pieces (codes "foo-ca-!-bar"))
        ≡ Ok (
          record { attributes = codes "foo" ∷ []; keywords = (codes "ca", []) ∷ [] },
          pieces
              (codes "!-bar"),
        ) }
    ensures no_unicode { unicode_result (pieces (codes "x-foo")) ≡ Err InvalidExtension }
    ensures transform { transform_result languages (pieces (codes "EN-latn-m0-true-FOO-u-ca"))
        ≡ Ok (
          record {
            id = Some
                (record {
                  language = codes "en";
                  script = Some (codes "Latn");
                  region = None;
                  variants = [];
                });
            fields = (codes "m0", codes "foo" ∷ []) ∷ [];
          },
          pieces (codes "u-ca"),
        ) }
    ensures variant_twice { transform_result languages (pieces (codes "en-posix-POSIX"))
        ≡ Err InvalidSubtag }
    ensures no_value { transform_result languages (pieces (codes "en-m0")) ≡ Err InvalidExtension }
    ensures identifier_first { transform_result languages (pieces (codes "foo-m0-bar"))
        ≡ Ok (
          record {
            id = Some
                (record { language = codes "foo"; script = None; region = None; variants = [] });
            fields = (codes "m0", codes "bar" ∷ []) ∷ [];
          },
          [],
        ) }
    ensures other { other_result (pieces (codes "foo-!!-BAR-b-ca"))
        ≡ Ok (codes "foo" ∷ codes "bar" ∷ [], pieces (codes "b-ca")) }
    ensures no_word { other_result (pieces (codes "!!")) ≡ Err InvalidExtension }
    ensures private { private_result (pieces (codes "A-foo-x"))
        ≡ Ok (codes "a" ∷ codes "foo" ∷ codes "x" ∷ [], []) }
    ensures empty_value { unicode_value [] ≡ Ok [] }
    ensures value { unicode_value (codes "Islamic-true-civil")
        ≡ Ok (codes "islamic" ∷ codes "civil" ∷ []) }
    ensures bad_value { unicode_value (codes "a") ≡ Err InvalidSubtag }
    ensures short_value { transform_value (codes "no") ≡ Err InvalidExtension }
{}

/// A text means a value exactly if the readers of its parts read that value from its blocks and leave nothing.
pub fn by_readers()
    ensures { (T : LanguageLengths) → AreLengths T → (t : Text) (M : Locale)
        → Means T t M ↔ MeansByReaders T t M }
{}

/// The plain program answers what a part with its singleton is read as, or its fault.
pub fn part_answers()
    ensures unicode { (ps : List Text)
        → MatchResult (part_result (is_letter code_u) unicode_result ps)
        (λ r. PartRead (is_letter code_u) UnicodeRead ps r.0 r.1)
        (PartFault (is_letter code_u) UnicodeFault ps) }
    ensures transform { (T : LanguageLengths) → AreLengths T → (ps : List Text)
        → MatchResult (part_result (is_letter code_t) (transform_result T) ps)
        (λ r. PartRead (is_letter code_t) (TransformRead T) ps r.0 r.1)
        (PartFault (is_letter code_t) (TransformFault T) ps) }
    ensures other { (ps : List Text)
        → MatchResult (part_result is_other_singleton other_result ps)
        (λ r. PartRead is_other_singleton OtherRead ps r.0 r.1)
        (PartFault is_other_singleton OtherFault ps) }
    ensures private { (ps : List Text)
        → MatchResult (part_result (is_letter code_x) private_result ps)
        (λ r. PartRead (is_letter code_x) PrivateRead ps r.0 r.1)
        (PartFault (is_letter code_x) PrivateFault ps) }
{}

/// Worked parts with their singletons.
pub fn parts_by_example()
    ensures unicode { part_result (is_letter code_u) unicode_result
        (pieces (codes "U-foo-ca-Buddhist-x-bar"))
        ≡ Ok (
          (
            code_u,
            record {
              attributes = codes "foo" ∷ [];
              keywords = (codes "ca", codes "buddhist" ∷ []) ∷ [];
            },
          ),
          pieces (codes "x-bar"),
        ) }
    ensures nothing_after_u { part_result (is_letter code_u) unicode_result (pieces (codes "u"))
        ≡ Err InvalidExtension }
    ensures another_letter { part_result (is_letter code_u) unicode_result (pieces (codes "t-en"))
        ≡ Err InvalidExtension }
    ensures transform { part_result (is_letter code_t) (transform_result languages)
        (pieces (codes "t-en-us-h0-hybrid"))
        ≡ Ok (
          (
            code_t,
            record {
              id = Some
                  (record {
                    language = codes "en";
                    script = None;
                    region = Some (codes "US");
                    variants = [];
                  });
              fields = (codes "h0", codes "hybrid" ∷ []) ∷ [];
            },
          ),
          [],
        ) }
    ensures variant_twice { part_result (is_letter code_t) (transform_result languages)
        (pieces (codes "t-en-posix-posix")) ≡ Err InvalidSubtag }
    ensures other { part_result is_other_singleton other_result (pieces (codes "A-foo-!!-BAR-u-ca"))
        ≡ Ok ((97, codes "foo" ∷ codes "bar" ∷ []), pieces (codes "u-ca")) }
    ensures no_other { part_result is_other_singleton other_result (pieces (codes "x-foo"))
        ≡ Err InvalidExtension }
    ensures private { part_result (is_letter code_x) private_result (pieces (codes "X-foo-a-B"))
        ≡ Ok ((code_x, codes "foo" ∷ codes "a" ∷ codes "b" ∷ []), []) }
{}
