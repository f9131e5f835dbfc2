//! The locale that preferences are turned into.
ghost use Rattle.std.specs.Prelude.{◌≡◌, ◌≤◌, ◌++◌, true, length, IfOk, IsOk, OnErr, codes};
ghost use Rattle.iloc_memory.specs.Refusals.{RefusedWithin};
ghost use Rattle.iloc_spec_grammar.specs.Values.{IsWellFormed};
ghost use Rattle.iloc_locale.specs.LocaleReading.{value_of as locale_value};
ghost use Rattle.iloc_spec_parts.specs.Preferences.{
  SpellsNoTrue,
  preferences,
  is_strict,
  sd_entry,
  rg_entry,
  locale_of_preferences,
};
ghost use Rattle.iloc_data.specs.WithKeywords.{entry};

use crate::locale_preferences::LocalePreferences;
use crate::values::look_at_preferences;
use iloc_data_parts::region::is_whole;
use iloc_keyword_types::subdivision_keyword::{RegionOverrideKind, RegionalSubdivisionKind};
use iloc_keyword_types::{KeywordKind, RegionOverride, RegionalSubdivision};
use iloc_locale::Locale;
use iloc_memory::Memory;
use iloc_unicode::Keywords;
use iloc_word_list::Value;
use std::alloc::{AllocError, Global};

impl LocalePreferences {
    /// The locale of these parts, with `sd` if the region is not whole, and `rg` if there is an override. It
    /// allocates nothing if at most one of the two is written.
    ///
    /// The locale is well-formed. It has these preferences again, and strictly, exactly if neither of the two
    /// spells `true`, which is no value of a keyword.
    pub fn to_locale(self, alloc: Global) -> Result<Locale, AllocError>
        ensures value { IfOk result (λ locale. locale_value locale ≡ locale_of_preferences self) }
        ensures succeeds { length (rg_entry self.region_override ++ sd_entry self.region) ≤ 1
            → IsOk result }
        ensures well_formed { IfOk result (λ locale. IsWellFormed (locale_value locale)) }
        ensures back { SpellsNoTrue self
            → IfOk result (λ locale. preferences (locale_value locale) ≡ self) }
        ensures strict { SpellsNoTrue self
            → IfOk result (λ locale. is_strict (locale_value locale) ≡ true) }
        ensures only { IfOk result
            (λ locale. preferences (locale_value locale) ≡ self → SpellsNoTrue self) }
    {
        // (a call of `to_locale_in` would copy the locale once more)
        look_at_preferences(&self);
        let keywords = self.written_keywords(alloc)?;
        Ok(
            self.to_data_locale_language_priority()
                .with_keywords(alloc, keywords),
        )
    }

    /// As `to_locale`, from any memory. Refusal: `AllocError`, only if room for at most two keywords was refused.
    pub fn to_locale_in<M: Memory>(self, memory: M) -> Result<Locale, AllocError>
        ensures value { IfOk result (λ locale. locale_value locale ≡ locale_of_preferences self) }
        ensures succeeds { length (rg_entry self.region_override ++ sd_entry self.region) ≤ 1
            → IsOk result }
        ensures well_formed { IfOk result (λ locale. IsWellFormed (locale_value locale)) }
        ensures back { SpellsNoTrue self
            → IfOk result (λ locale. preferences (locale_value locale) ≡ self) }
        ensures strict { SpellsNoTrue self
            → IfOk result (λ locale. is_strict (locale_value locale) ≡ true) }
        ensures only { IfOk result
            (λ locale. preferences (locale_value locale) ≡ self → SpellsNoTrue self) }
        ensures out_of_memory { OnErr result (RefusedWithin M.refused 2) }
    {
        look_at_preferences(&self);
        let keywords = self.written_keywords(memory)?;
        Ok(
            self.to_data_locale_language_priority()
                .with_keywords(memory, keywords),
        )
    }

    // The keywords `rg` and `sd`, as far as they are written.
    #[inline(always)]
    fn written_keywords<M: Memory>(&self, memory: M) -> Result<Keywords, AllocError>
        ensures value { IfOk result
            (λ keywords. keywords ≡ rg_entry self.now.region_override ++ sd_entry self.now.region) }
        ensures succeeds { length
            (rg_entry self.now.region_override ++ sd_entry self.now.region) ≤ 1 → IsOk result }
        ensures out_of_memory { OnErr result (RefusedWithin M.refused 2) }
    {
        keywords_of(
            memory,
            override_value(self.region_override),
            subdivision_value(self.region),
        )
    }
}

// The keywords of an override and of a subdivision, if they are there.
fn keywords_of<M: Memory>(
    memory: M,
    region_override: Option<Value>,
    subdivision: Option<Value>,
) -> Result<Keywords, AllocError>
    ensures value { IfOk result
        (λ keywords. keywords
        ≡ entry (codes "rg") region_override ++ entry (codes "sd") subdivision) }
    ensures succeeds { length
        (entry (codes "rg") region_override ++ entry (codes "sd") subdivision) ≤ 1
        → IsOk result }
    ensures out_of_memory { OnErr result (RefusedWithin M.refused 2) }
{
    let mut keywords = Keywords::new();
    if let Some(value) = region_override {
        keywords.set_in(memory, RegionOverrideKind::key(), value)?;
    }
    if let Some(value) = subdivision {
        keywords.set_in(memory, RegionalSubdivisionKind::key(), value)?;
    }
    Ok(keywords)
}

// The value of `rg`.
fn override_value(region_override: Option<RegionOverride>) -> Option<Value>
    ensures { entry (codes "rg") result ≡ rg_entry region_override }
{
    Some(Value::from(region_override?))
}

// The value of `sd`: none of a whole region.
fn subdivision_value(region: Option<RegionalSubdivision>) -> Option<Value>
    ensures { entry (codes "sd") result ≡ sd_entry region }
{
    let region = region?;
    if is_whole(region.as_inner()) {
        None
    } else {
        Some(Value::from(region))
    }
}
