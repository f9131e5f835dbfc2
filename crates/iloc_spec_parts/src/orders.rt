//! The orders of values, and what values feed a hasher.
//!
//! Each order is total, and ties exactly equal values; and what is fed tells values apart as the order does (of
//! fewer than 2^64 writes).
ghost use Rattle.iloc_spec_parts.specs.Orders.{IsExactOrder, words_cmp, identifier_cmp, keywords_cmp, fields_cmp, unicode_cmp, transform_cmp, other_cmp, extensions_cmp, locale_cmp, kind_cmp};
ghost use Rattle.iloc_spec_parts.specs.Hashes.{HashesByOrder, word_fed, words_fed, identifier_fed, fields_fed, unicode_fed, transform_fed, other_fed, extensions_fed, locale_fed};
ghost use Rattle.std.specs.Prelude.{◌≡◌, [], ◌∷◌, ◌++◌, codes, replicate};
ghost use Rattle.std.specs.declared.cmp.Ordering.TheVariants.{Less, Equal, Greater};
ghost use Rattle.iloc_spec_grammar.specs.Syntax.{word_cmp};
ghost use Rattle.iloc_spec_parts.specs.Examples.{meaning_of};

/// Total orders, by which only equal values tie.
#[tactic(auto, using(crate::proofs::OrderLaws::exact_orders))]
pub fn orders()
    ensures word { IsExactOrder word_cmp }
    ensures words { IsExactOrder words_cmp }
    ensures identifiers { IsExactOrder identifier_cmp }
    ensures keywords { IsExactOrder keywords_cmp }
    ensures fields { IsExactOrder fields_cmp }
    ensures unicode { IsExactOrder unicode_cmp }
    ensures transforms { IsExactOrder transform_cmp }
    ensures others { IsExactOrder other_cmp }
    ensures locales { IsExactOrder locale_cmp }
    ensures extensions { IsExactOrder extensions_cmp }
    ensures kinds { IsExactOrder kind_cmp }
{}

/// Values that tie feed a hasher alike, and those that feed it alike tie: nothing of a value is left out.
#[tactic(auto, using(crate::proofs::OrderLaws::exact_orders, crate::proofs::HashLaws::hashes_by, crate::proofs::HashLaws::told_parts))]
pub fn hashes()
    ensures word { HashesByOrder word_cmp word_fed }
    ensures words { HashesByOrder words_cmp words_fed }
    ensures identifiers { HashesByOrder identifier_cmp identifier_fed }
    ensures keywords { HashesByOrder keywords_cmp fields_fed }
    ensures fields { HashesByOrder fields_cmp fields_fed }
    ensures unicode { HashesByOrder unicode_cmp unicode_fed }
    ensures transforms { HashesByOrder transform_cmp transform_fed }
    ensures others { HashesByOrder other_cmp other_fed }
    ensures extensions { HashesByOrder extensions_cmp extensions_fed }
    ensures locales { HashesByOrder locale_cmp locale_fed }
{}

/// Worked comparisons and hashes.
pub fn by_example()
    ensures fewer_variants { locale_cmp (meaning_of (codes "en-posix"))
        (meaning_of (codes "en-macos-posix")) ≡ Less }
    ensures fewer_items { words_cmp (codes "b" ∷ []) (codes "a" ∷ codes "b" ∷ []) ≡ Less }
    ensures bytes { word_cmp (codes "en-posix") (codes "en-macos-posix") ≡ Greater }
    ensures no_script_first { locale_cmp (meaning_of (codes "en-US")) (meaning_of (codes "en-Latn"))
        ≡ Less }
    ensures unicode_first { locale_cmp (meaning_of (codes "und-t-m0-foo"))
        (meaning_of (codes "und-u-ca")) ≡ Less }
    ensures singletons { locale_cmp (meaning_of (codes "und-1-bar"))
        (meaning_of (codes "und-a-foo")) ≡ Less }
    ensures one_value_first { keywords_cmp ((codes "ca", codes "b" ∷ []) ∷ [])
        ((codes "ca", codes "a" ∷ codes "a" ∷ []) ∷ []) ≡ Less }
    ensures itself { locale_cmp (meaning_of (codes "und-t-fr-u-ca"))
        (meaning_of (codes "und-u-ca-true-t-FR")) ≡ Equal }
    ensures fed { identifier_fed (meaning_of (codes "EN-us")).id
        ≡ (codes "en" ++ replicate 6 0) ∷ (0 ∷ replicate 7 0) ∷ (1 ∷ replicate 7 0)
        ∷ (codes "US" ++ replicate 6 0) ∷ (0 ∷ replicate 7 0) ∷ [] }
    ensures fed_alike { locale_fed (meaning_of (codes "und-t-fr-u-ca"))
        ≡ locale_fed (meaning_of (codes "und-u-ca-true-t-FR")) }
{}
