//! The types of keywords, and what they stand on.
//!
//! `PreferenceKey` is the trait of a preference that a keyword carries: its key, its parser and the value that it
//! is turned into. Enums of which each variant has a word (`WordEnum`) are found by it, and those that are keywords
//! (`EnumKeyword`) have one parser and one writer, proved here once for any table: what is
//! parsed is exactly what the definitions say, and each variant is parsed from the value that it gives. Such enums stand
//! in `iloc_enum_keywords`. Currencies have their key here; `known_keys` has each key by its name.
//!
//! The types here are those whose values are more than a word of a table: calendars (`ca`), numbering systems and
//! time zones (one subtag), regions and subdivisions (one `SubdivisionId`, as `ustx`: a region and a suffix in one
//! word, UTS #35 section 3.6.5), and scripts (a list). Each is parsed from the value of its keyword as the
//! definitions say, and turned into the value that they say. Only the list of scripts may allocate: to be parsed
//! from more than four, and to be turned into a value.
//!
//! It stands on the definitions of keywords and of regions (`iloc_spec_parts`), on subtags and on values
//! (`iloc_subtags`, `iloc_word_list`).
#![tactic(auto)]

ghost use Rattle.std.specs.Prelude.{◌≡◌, ◌↔◌, true};
ghost use Rattle.std.specs.Ordering.{on, then_cmp};
ghost use Rattle.iloc_spec_grammar.specs.Syntax.{word_cmp};
ghost use Rattle.iloc_spec_parts.specs.DataHashes.{subdivision_fed};

use std::hash::Hash;

pub mod calendar_algorithm;
pub mod calendar_conversions;
pub mod currency_key;
pub mod enum_keyword;
pub mod hijri;
pub mod known_keys;
pub mod preference_key;
pub mod script_exclusions;
pub mod single_keyword;
pub mod subdivision_id;
pub mod subdivision_keyword;
pub mod subtag_keyword;
pub mod word_enum;

pub use calendar_algorithm::CalendarAlgorithm;
pub use enum_keyword::{EnumKeyword, give_keyword, read_keyword};
pub use hijri::HijriCalendarAlgorithm;
pub use iloc_word_list::PreferencesParseError;
pub use preference_key::{PreferenceKey, key_of};
pub use script_exclusions::DictionaryBreakScriptExclusions;
pub use single_keyword::{KeywordKind, SingleKeyword, SubtagContent, keyword_of};
pub use subdivision_id::SubdivisionId;
pub use subdivision_keyword::{RegionOverride, RegionalSubdivision, SubdivisionKeyword};
pub use subtag_keyword::{NumberingSystem, TimeZoneShortId};
pub use word_enum::{WordEnum, find_word};

/// Subdivisions are ordered by region and then by suffix, what is equal has the same value, and that is what a
/// hasher is fed.
pub fn subdivisions_compare()
    ensures order { (s t : SubdivisionId)
        → ⟦<SubdivisionId as Ord>⟧.cmp s t
        ≡ then_cmp (on (λ s. s.region) word_cmp) (on (λ s. s.suffix) word_cmp) s t }
    ensures equality { (s t : SubdivisionId)
        → (⟦<SubdivisionId as PartialEq>⟧.eq s t ≡ true) ↔ (s ≡ t) }
    ensures fed { (s : SubdivisionId)
        → ⟦<SubdivisionId as Hash>⟧.hash_input s ≡ subdivision_fed s }
{}
