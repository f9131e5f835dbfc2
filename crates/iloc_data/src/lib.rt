//! Data locales, the few parts of a locale by which data is looked up, and preferences.
//!
//! A data locale has a language, and perhaps a script, a region, a variant and a subdivision of the region. A text
//! means one if it is small and its keyword, if there is one, is `sd` with a readable subdivision (UTS #35, section
//! 3.6.5). Such a text is parsed without an allocation, as the definitions of `iloc_spec_parts` say. Every
//! other text is refused with the fault that they name. What was parsed prints a text that parses back as it. Two
//! data locales are equal, tie and hash alike if they stand for the same: a subdivision that can be parsed counts
//! before the region, and a region alone stands for the whole region.
//!
//! Preferences are what a locale says of the same parts, with the region that `rg` puts in the place of its own. They
//! are parsed from a locale, extended by others, and turned into a locale and into data locales. The data locale of a
//! locale is that of its preferences, language first.
//!
//! `FormatPreferences` and `TimePreferences` are preferences of formatters, of the kind that users of the library
//! define: those of a locale, and keywords. They stand in the place of what the Rust crate's macros
//! `define_preferences!` and `prefs_convert!` write. None of it allocates.
//!
//! It stands on identifiers and locales (`iloc_langid`, `iloc_locale`), on subdivisions and their keywords
//! (`iloc_keyword_types`), and on types of keywords with fixed texts (`iloc_enum_keywords`).
#![tactic(auto)]

ghost use Rattle.std.specs.Prelude.{◌≡◌, ◌≤◌, Some, None, option_map};
ghost use Rattle.iloc_spec_grammar.specs.Syntax.{languages};
ghost use Rattle.iloc_spec_parts.specs.DataLocales as parts;
ghost use Rattle.iloc_spec_parts.specs.DataLocales.{data_key, IsDataLocale};
ghost use Rattle.iloc_data.specs.DataValue.{unknown_data};
ghost use Rattle.iloc_data.specs.DataParents.{
  region_of,
  data_parent,
  data_part_count,
  IsUnknownAfter,
  LacksLastDataPart,
};

pub mod comparing;
pub mod conversions;
pub mod data_locale;
pub mod format_preferences;
mod keywords;
pub mod locale_preferences;
pub mod parent;
pub mod printing;
mod region_keywords;
mod region_part;
pub mod time_preferences;
pub mod to_locale;
mod values;

pub use data_locale::{DataLocale, made_of};
pub use format_preferences::FormatPreferences;
pub use locale_preferences::LocalePreferences;
pub use time_preferences::TimePreferences;

/// The chain of parents of a data locale ends in `und`, after as many steps as it has parts; `und` has no
/// parent. If its region is the one that it stands for, as in all that were parsed or converted, a parent is
/// printed without the last part, or is `und`. A parent is a data locale if its child is, and data locales
/// that stand for the same have parents that stand for the same.
pub fn fallback_chain()
    ensures ends { (d : parts.DataLocale) → IsUnknownAfter (data_part_count d) d }
    ensures few { (d : parts.DataLocale) → data_part_count d ≤ 5 }
    ensures last { data_parent unknown_data ≡ None }
    ensures shorter { (d p : parts.DataLocale) → d.region ≡ region_of d → data_parent d ≡ Some p
        → LacksLastDataPart d p }
    ensures values { (d p : parts.DataLocale) → IsDataLocale languages d → data_parent d ≡ Some p
        → IsDataLocale languages p }
    ensures alike { (d e : parts.DataLocale) → data_key d ≡ data_key e
        → option_map data_key (data_parent d) ≡ option_map data_key (data_parent e) }
{}
