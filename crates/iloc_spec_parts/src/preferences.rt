//! The types of keywords, and preferences.
//!
//! What a keyword is turned into parses as that keyword. Preferences come back from their locale if nothing spells
//! `true`. Preferences merge by three laws.

ghost use Rattle.std.specs.Prelude.{◌≡◌, true, false, List, [], ◌∷◌, Some, None, Ok, IfSome, codes};
ghost use Rattle.std.specs.List.{AllByRecursion};
ghost use Rattle.iloc_spec_grammar.specs.Syntax.{Text, LanguageLengths, AreLengths, CurrencyType, Script, Region, is_true, languages, Identifier};
ghost use Rattle.iloc_spec_grammar.specs.Meaning.{Locale, Means};
ghost use Rattle.iloc_spec_grammar.specs.Values.{IsNormal, IsValue, IsWellFormed};
ghost use Rattle.iloc_spec_parts.specs.SingleValues.{single, currency_reads, currency_gives};
ghost use Rattle.iloc_spec_parts.specs.Subdivisions.{Subdivision, IsSubdivision, subdivision_text};
ghost use Rattle.iloc_spec_parts.specs.DataLocales.{DataLocale, DataMeans, data_key, data_of_identifier};
ghost use Rattle.iloc_spec_parts.specs.Keywords.{EnumKeyword, CalendarAlgorithm, CollationNumericOrdering, HourCycle, enum_reads, enum_gives, ReadsWhatItGives, subtag_gives, scripts_read, scripts_give, subdivision_reads, subdivision_gives};
ghost use Rattle.iloc_spec_parts.specs.Preferences.{Preferences, is_strict, IsPreferences, SpellsNoTrue, default_preferences, preferences, identifier_preferences, language_priority, merge, locale_of_preferences};
ghost use Rattle.iloc_spec_parts.specs.Formatters.{FormatPreferences, TimePreferences, plain_time, plain_format, merge_time, merge_format, is_strict_format, format_preferences};
ghost use Rattle.iloc_spec_parts.specs.Examples.{meaning_of};
ghost use Rattle.iloc_spec_parts.specs.PreferenceExamples.{preferences_of, conversions, text_of_preferences};

/// Each keyword turned into a list and read is itself; a list that would spell `true` is empty, and lost for keywords that hold subtags.
#[tactic(auto, using(crate::proofs::PreferenceLaws::read_given, crate::proofs::KeywordLaws::reads_what_it_gives, crate::proofs::KeywordLaws::currency_read_back, crate::proofs::KeywordLaws::subtag_read_back, crate::proofs::KeywordLaws::scripts_read_back))]
pub fn keywords()
    ensures enums { (k : EnumKeyword) → ReadsWhatItGives k }
    ensures currency { (w : Text) → IsNormal CurrencyType w
        → currency_reads (currency_gives w) ≡ Some w }
    ensures subtag { (w : Text) → is_true w ≡ false → single (subtag_gives w) ≡ Some w }
    ensures scripts { (ws : List Text) → AllByRecursion (IsNormal Script) ws
        → scripts_read (scripts_give ws) ≡ Some ws }
    ensures subdivision { (s : Subdivision) → IsSubdivision s → is_true (subdivision_text s) ≡ false
        → subdivision_reads (subdivision_gives s) ≡ Some s }
{}

/// Preferences extended by the default ones, and by themselves, stay; and the default ones extended by others are those.
#[tactic(auto, using(crate::proofs::PreferenceLaws::merge_itself, crate::proofs::PreferenceLaws::default_merge))]
pub fn merging()
    ensures default { (a : Preferences) → merge a default_preferences ≡ a }
    ensures itself { (a : Preferences) → merge a a ≡ a }
    ensures onto_default { (a : Preferences) → merge default_preferences a ≡ a }
{}

/// Preferences of formatters extended by the default ones, and by themselves, stay.
#[tactic(auto, using(crate::proofs::PreferenceLaws::default_time_merge, crate::proofs::PreferenceLaws::format_itself, crate::proofs::PreferenceLaws::default_format_merge, crate::proofs::PreferenceLaws::time_itself))]
pub fn merging_formatters()
    ensures default { (a : FormatPreferences)
        → merge_format a (plain_format (plain_time default_preferences)) ≡ a }
    ensures itself { (a : FormatPreferences) → merge_format a a ≡ a }
    ensures onto_default { (a : FormatPreferences)
        → merge_format (plain_format (plain_time default_preferences)) a ≡ a }
    ensures time_default { (a : TimePreferences)
        → merge_time a (plain_time default_preferences) ≡ a }
    ensures time_itself { (a : TimePreferences) → merge_time a a ≡ a }
    ensures time_onto_default { (a : TimePreferences)
        → merge_time (plain_time default_preferences) a ≡ a }
{}

/// The locale of preferences is well-formed, and has these preferences exactly if no subdivision spells `true`.
#[tactic(auto, using(crate::proofs::PreferenceLaws::strict_locale, crate::proofs::PreferenceLaws::preferences_are, crate::proofs::PreferenceLaws::locale_is_value, crate::proofs::PreferenceLaws::locale_is_well_formed, crate::proofs::PreferenceLaws::preferences_back, crate::proofs::PreferenceLaws::back_only))]
pub fn preferences_of_locales()
    ensures valid { (T : LanguageLengths) (M : Locale) → IsValue T M
        → IsPreferences T (preferences M) }
    ensures value { (T : LanguageLengths) (p : Preferences) → IsPreferences T p
        → IsValue T (locale_of_preferences p) }
    ensures well_formed { (T : LanguageLengths) → AreLengths T → (p : Preferences)
        → IsPreferences T p
        → IsWellFormed (locale_of_preferences p) }
    ensures back { (T : LanguageLengths) (p : Preferences) → IsPreferences T p → SpellsNoTrue p
        → preferences (locale_of_preferences p) ≡ p }
    ensures only { (T : LanguageLengths) (p : Preferences) → IsPreferences T p
        → preferences (locale_of_preferences p) ≡ p → SpellsNoTrue p }
    ensures strict { (T : LanguageLengths) (p : Preferences) → IsPreferences T p → SpellsNoTrue p
        → is_strict (locale_of_preferences p) ≡ true }
{}

/// A text that means a data locale means a locale, of which that data locale is the conversion; the data locale of an
/// identifier stands for the conversion of its preferences.
pub fn data_locales_of_locales()
    ensures accepted { (T : LanguageLengths) (t : Text) (d : DataLocale) → DataMeans T t d
        → (M : Locale) × Means T t M }
    ensures read { (T : LanguageLengths) → AreLengths T → (t : Text) (d : DataLocale) (M : Locale)
        → DataMeans T t d → Means T t M → d ≡ language_priority (preferences M) }
    ensures identifier { (i : Identifier) → IfSome i.region (IsNormal Region)
        → data_key (data_of_identifier i)
        ≡ data_key (language_priority (identifier_preferences i)) }
{}

/// Worked texts.
pub fn by_example()
    ensures both { conversions languages (codes "en-US-u-rg-gbeng-sd-ustx")
        ≡ Ok (true, codes "en-US-u-sd-ustx", codes "en-GB-u-sd-gbeng") }
    ensures subdivision { conversions languages (codes "en-u-sd-ustx")
        ≡ Ok (true, codes "en-US-u-sd-ustx", codes "en-US-u-sd-ustx") }
    ensures override_whole { conversions languages (codes "en-u-rg-gbzzzz")
        ≡ Ok (true, codes "en", codes "en-GB") }
    ensures another_region { conversions languages (codes "en-US-u-sd-gbzzzz")
        ≡ Ok (false, codes "en-US", codes "en-US") }
    ensures override_first { conversions languages (codes "en-u-rg-gbzzzz-sd-ustx")
        ≡ Ok (true, codes "en-US-u-sd-ustx", codes "en-GB") }
    ensures second_key { conversions languages (codes "en-US-u-sd-tx")
        ≡ Ok (false, codes "en-US", codes "en-US") }
    ensures second_key_override { conversions languages (codes "en-GB-u-rg-tx")
        ≡ Ok (false, codes "en-GB", codes "en-GB") }
    ensures true_override { conversions languages (codes "en-TR-u-rg-true")
        ≡ Ok (false, codes "en-TR", codes "en-TR") }
    ensures number { conversions languages (codes "en-001-u-sd-001")
        ≡ Ok (false, codes "en-001", codes "en-001") }
    ensures other_region_override { conversions languages (codes "en-US-u-rg-eng")
        ≡ Ok (true, codes "en-US", codes "en-EN-u-sd-eng") }
    ensures whole_keeps { text_of_preferences
        (merge (preferences_of (codes "en-US-u-sd-ustx")) (preferences_of (codes "en-US")))
        ≡ codes "en-US-u-sd-ustx" }
    ensures one_by_one { text_of_preferences
        (merge (merge (preferences_of (codes "en-US-u-sd-ustx")) (preferences_of (codes "en-GB")))
        (preferences_of (codes "en-US"))) ≡ codes "en-US" }
    ensures grouped { text_of_preferences
        (merge (preferences_of (codes "en-US-u-sd-ustx"))
        (merge (preferences_of (codes "en-GB")) (preferences_of (codes "en-US"))))
        ≡ codes "en-US-u-sd-ustx" }
    ensures spells_true { text_of_preferences
        (record {
          language = codes "en";
          script = None;
          region = Some (record { region = codes "TR"; suffix = codes "ue" });
          variant = None;
          region_override = None;
        }) ≡ codes "en-TR-u-sd" }
    ensures back { text_of_preferences (preferences_of (codes "en-US-u-sd-ustx-rg-gbeng"))
        ≡ codes "en-US-u-rg-gbeng-sd-ustx" }
    ensures formatter { format_preferences (meaning_of (codes "en-US-u-ca-buddhist-nu-thai"))
        ≡ record {
          time = record {
            locale_preferences = preferences_of (codes "en-US");
            numbering_system = Some (codes "thai");
            hour_cycle = None;
          };
          calendar_algorithm = Some (0, None);
        } }
    ensures formatter_strict { is_strict_format (meaning_of (codes "en-US-u-ca-buddhist-nu-thai"))
        ≡ true }
    ensures two_systems { format_preferences (meaning_of (codes "en-u-hc-h12-nu-arab-latn"))
        ≡ record {
          time = record {
            locale_preferences = preferences_of (codes "en");
            numbering_system = None;
            hour_cycle = Some (0, None);
          };
          calendar_algorithm = None;
        } }
    ensures two_systems_strict { is_strict_format (meaning_of (codes "en-u-hc-h12-nu-arab-latn"))
        ≡ false }
    ensures no_calendar { is_strict_format (meaning_of (codes "en-u-ca")) ≡ false }
    ensures merged_formatters { merge_format
        (format_preferences (meaning_of (codes "en-u-hc-h12")))
        (format_preferences (meaning_of (codes "de-u-ca-roc")))
        ≡ record {
          time = record {
            locale_preferences = preferences_of (codes "de");
            numbering_system = None;
            hour_cycle = Some (0, None);
          };
          calendar_algorithm = Some (13, None);
        } }
{}

/// Worked keywords.
pub fn keywords_by_example()
    ensures calendar { enum_reads CalendarAlgorithm (codes "islamic" ∷ []) ≡ Some (9, None) }
    ensures with_kind { enum_reads CalendarAlgorithm (codes "islamic" ∷ codes "civil" ∷ [])
        ≡ Some (9, Some 2) }
    ensures too_many { enum_reads CalendarAlgorithm
        (codes "islamic" ∷ codes "civil" ∷ codes "foo" ∷ []) ≡ None }
    ensures old_form { enum_reads CalendarAlgorithm (codes "islamicc" ∷ []) ≡ Some (9, Some 2) }
    ensures old_form_alone { enum_reads CalendarAlgorithm (codes "islamicc" ∷ codes "foo" ∷ [])
        ≡ None }
    ensures long_form { enum_reads CalendarAlgorithm
        (codes "ethiopic" ∷ codes "amete" ∷ codes "alem" ∷ []) ≡ Some (4, None) }
    ensures half_a_form { enum_reads CalendarAlgorithm (codes "ethiopic" ∷ codes "amete" ∷ [])
        ≡ None }
    ensures given { enum_gives CalendarAlgorithm (9, Some 2)
        ≡ Some (codes "islamic" ∷ codes "civil" ∷ []) }
    ensures empty_calendar { enum_reads CalendarAlgorithm [] ≡ None }
    ensures empty_is_true { enum_reads CollationNumericOrdering [] ≡ Some (0, None) }
    ensures true_is_empty { enum_gives CollationNumericOrdering (0, None) ≡ Some [] }
    ensures hour_cycle { enum_reads HourCycle (codes "c12" ∷ []) ≡ Some (3, None) }
    ensures no_hour_cycle { enum_reads HourCycle (codes "h24" ∷ []) ≡ None }
    ensures currency { currency_reads (codes "usd" ∷ []) ≡ Some (codes "usd") }
    ensures no_currency { currency_reads (codes "us1" ∷ []) ≡ None }
    ensures scripts { scripts_read (codes "latn" ∷ codes "hani" ∷ [])
        ≡ Some (codes "Latn" ∷ codes "Hani" ∷ []) }
    ensures given_scripts { scripts_give (codes "Latn" ∷ codes "Hani" ∷ [])
        ≡ codes "latn" ∷ codes "hani" ∷ [] }
    ensures region { subdivision_reads (codes "gbeng" ∷ [])
        ≡ Some (record { region = codes "GB"; suffix = codes "eng" }) }
    ensures lost_region { subdivision_gives (record { region = codes "TR"; suffix = codes "ue" })
        ≡ [] }
{}
