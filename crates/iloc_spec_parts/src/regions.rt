//! Subdivisions of regions, and data locales.
//!
//! A text names one data locale, or has one fault. A data locale that was parsed prints a text that parses back as it.
//! Data locales tie if they stand for the same.

ghost use Rattle.std.specs.Prelude.{◌≡◌, ◌↔◌, ◌⊎◌, ℕ, true, Some, None, Ok, Err, MatchResult, codes};
ghost use Rattle.std.specs.Cmp.{IsTotalOrder};
ghost use Rattle.std.specs.declared.cmp.Ordering.TheVariants.{Equal};
ghost use Rattle.iloc_spec_grammar.specs.Syntax.{Text, LanguageLengths, AreLengths, lower, languages};
ghost use Rattle.iloc_spec_grammar.specs.Meaning.{Locale, Fault, InvalidLanguage, InvalidSubtag, InvalidExtension};
ghost use Rattle.iloc_spec_grammar.specs.Values.{IsValue, IsWellFormed, text};
ghost use Rattle.iloc_spec_parts.specs.Subdivisions.{Subdivision, IsSubdivision, subdivision, subdivision_text};
ghost use Rattle.iloc_spec_parts.specs.DataComputing.{data_result};
ghost use Rattle.iloc_spec_parts.specs.DataLocales.{DataLocale, DataMeans, HasDataFault, IsDataLocale, data_key, data_text, locale_of_data};
ghost use Rattle.iloc_spec_parts.specs.Orders.{IsExactOrder};
ghost use Rattle.iloc_spec_parts.specs.Hashes.{HashesByOrder};
ghost use Rattle.iloc_spec_parts.specs.DataOrders.{subdivision_cmp, data_locale_cmp};
ghost use Rattle.iloc_spec_parts.specs.DataHashes.{subdivision_fed, data_locale_fed};
ghost use Rattle.iloc_spec_parts.specs.DataExamples.{english, data_text_of};

/// A subdivision's text is read as it, and what is read has the text in lower case.
pub fn subdivisions()
    ensures back { (s : Subdivision) → IsSubdivision s → subdivision (subdivision_text s) ≡ Ok s }
    ensures valid { (w : Text) (s : Subdivision) → subdivision w ≡ Ok s → IsSubdivision s }
    ensures same { (w : Text) (s : Subdivision) → subdivision w ≡ Ok s
        → subdivision_text s ≡ lower w }
{}

/// Each text means one data locale or has one fault; and a plain program says which.
pub fn data_locale_or_one_fault()
    ensures one { (T : LanguageLengths) → AreLengths T → (t : Text) (d e : DataLocale)
        → DataMeans T t d
        → DataMeans T t e → d ≡ e }
    ensures either { (T : LanguageLengths) → AreLengths T → (t : Text)
        → ((d : DataLocale) × DataMeans T t d) ⊎ ((f : Fault) × HasDataFault T t f) }
    ensures apart { (T : LanguageLengths) → AreLengths T → (t : Text) (d : DataLocale) (f : Fault)
        → DataMeans T t d → HasDataFault T t f → ⊥ }
    ensures one_fault { (T : LanguageLengths) (t : Text) (f g : Fault) → HasDataFault T t f
        → HasDataFault T t g → f ≡ g }
    ensures answer { (T : LanguageLengths) → AreLengths T → (t : Text)
        → MatchResult (data_result T t) (DataMeans T t) (HasDataFault T t) }
{}

/// A data locale that was read is of normal words, and prints a text that means it; its locale prints the same text, and no other does.
pub fn data_locales()
    ensures read { (T : LanguageLengths) (t : Text) (d : DataLocale) → DataMeans T t d
        → IsDataLocale T d }
    ensures back { (T : LanguageLengths) (t : Text) (d : DataLocale) → DataMeans T t d
        → DataMeans T (data_text d) d }
    ensures text { (d : DataLocale) → text (locale_of_data d) ≡ data_text d }
    ensures value { (T : LanguageLengths) (d : DataLocale) → IsDataLocale T d
        → IsValue T (locale_of_data d) }
    ensures well_formed { (T : LanguageLengths) → AreLengths T → (d : DataLocale) → IsDataLocale T d
        → IsWellFormed (locale_of_data d) }
    ensures only { (T : LanguageLengths) → AreLengths T → (d : DataLocale) → IsDataLocale T d
        → (M : Locale)
        → IsValue T M → IsWellFormed M → text M ≡ data_text d → M ≡ locale_of_data d }
{}

/// A total order of subdivisions, by which only equal ones tie; data locales tie if they stand for the same.
#[tactic(auto, using(crate::proofs::DataOrderLaws::subdivision_exact, crate::proofs::DataOrderLaws::data_locale_total, crate::proofs::DataOrderLaws::data_locale_ties))]
pub fn data_orders()
    ensures subdivisions { IsExactOrder subdivision_cmp }
    ensures data_locales { IsTotalOrder data_locale_cmp }
    ensures ties { (d e : DataLocale) → (data_locale_cmp d e ≡ Equal) ↔ (data_key d ≡ data_key e) }
{}

/// Subdivisions are told apart by what they feed a hasher; data locales feed it alike exactly if they stand for the same.
#[tactic(auto, using(crate::proofs::HashLaws::subdivision_hashes, crate::proofs::HashLaws::data_locale_hashes))]
pub fn data_hashes()
    ensures subdivisions { HashesByOrder subdivision_cmp subdivision_fed }
    ensures data_locales { (d e : DataLocale)
        → (data_locale_fed d ≡ data_locale_fed e) ↔ (data_key d ≡ data_key e) }
{}

/// Over a wider table of languages a text means the data locale that it meant.
#[tactic(auto, using(crate::proofs::WiderData::data_wider))]
pub fn wider_data_locales()
    ensures { (T U : LanguageLengths) → ((n : ℕ) → T n ≡ true → U n ≡ true)
        → (t : Text) (d : DataLocale)
        → DataMeans T t d → DataMeans U t d }
{}

/// Worked texts.
pub fn by_example()
    ensures by_subdivision { data_text_of (data_result languages (codes "und-u-sd-sdd"))
        ≡ Ok (codes "und-SD-u-sd-sdd") }
    ensures another_region { data_text_of (data_result languages (codes "en-ZA-u-sd-sdd"))
        ≡ Ok (codes "en-ZA") }
    ensures whole_region { data_text_of (data_result languages (codes "und-u-sd-gbzzzz"))
        ≡ Ok (codes "und-GB") }
    ensures same_region { data_text_of (data_result languages (codes "en-US-u-sd-USTX"))
        ≡ Ok (codes "en-US-u-sd-ustx") }
    ensures no_sd { data_result languages (codes "und-u-cu-gbp") ≡ Err InvalidExtension }
    ensures unreadable { data_result languages (codes "en-TR-u-sd-true") ≡ Err InvalidExtension }
    ensures no_value { data_result languages (codes "en-u-sd") ≡ Err InvalidExtension }
    ensures short_region { data_result languages (codes "en-001-u-sd-001") ≡ Err InvalidExtension }
    ensures no_language { data_result languages (codes "en...") ≡ Err InvalidLanguage }
    ensures transform { data_result languages (codes "en-t-en") ≡ Err InvalidSubtag }
    ensures subdivision { subdivision (codes "GBeng")
        ≡ Ok (record { region = codes "GB"; suffix = codes "eng" }) }
    ensures by_number { subdivision (codes "001a")
        ≡ Ok (record { region = codes "001"; suffix = codes "a" }) }
    ensures no_suffix { subdivision (codes "gb") ≡ Err InvalidExtension }
    ensures no_subtag { subdivision (codes "g") ≡ Err InvalidSubtag }
    ensures same_key { data_key (english (Some (codes "US")) (Some (codes "uszzzz")))
        ≡ data_key (english (Some (codes "US")) None) }
    ensures region_ignored { data_key (english (Some (codes "GB")) (Some (codes "ustx")))
        ≡ data_key (english (Some (codes "US")) (Some (codes "ustx"))) }
    ensures stored_region { data_text (english (Some (codes "GB")) (Some (codes "uszzzz")))
        ≡ codes "en-GB" }
{}
