//! What locales say of language, script, region and variant: how it is parsed, extended, and made a data locale.
ghost use Rattle.std.specs.Prelude.{◌≡◌, true, false, MatchResult};
ghost use Rattle.iloc_locale.specs.LocaleReading.{value_of as locale_value};
ghost use Rattle.iloc_spec_parts.specs.Preferences.{Preferences, preferences, default_preferences, is_strict, merge, merge_language, merge_region, language_priority, region_priority, identifier_preferences};
ghost use Rattle.iloc_spec_parts.specs.DataLocales as parts;
ghost use Rattle.iloc_data.specs.DataValue.{value_of as data_of};
ghost use Rattle.iloc_langid.specs.Reads.{value_of as identifier_of};

use crate::data_locale::{DataLocale, made_of};
use crate::region_keywords::{id_of, keyword};
use iloc_data_parts::DataParts;
use iloc_data_parts::region::{is_whole, preferred, whole_region};
use iloc_keyword_types::subdivision_keyword::RegionalSubdivisionKind;
use iloc_keyword_types::{RegionOverride, RegionalSubdivision, SubdivisionId, keyword_of};
use iloc_langid::LanguageIdentifier;
use iloc_locale::Locale;
use iloc_subtags::{Language, Region, Script, Variant};
use std::marker::Model;

/// What a locale says of language, script, region and variant, with the region that stands in the place of its own.
///
/// ```text
/// let locale = Locale::try_from_str(alloc, "en-u-rg-gbzzzz")?;
/// let preferences = LocalePreferences::from(&locale);
/// preferences.to_data_locale_language_priority(); // en
/// preferences.to_data_locale_region_priority(); // en-GB
/// ```
#[derive(Clone, Copy, Debug, PartialEq, Eq, Hash)]
pub struct LocalePreferences {
    pub(crate) language: Language,
    pub(crate) script: Option<Script>,
    pub(crate) region: Option<RegionalSubdivision>,
    pub(crate) variant: Option<Variant>,
    pub(crate) region_override: Option<RegionOverride>,
}

impl Model for LocalePreferences {
    ghost Value = { Preferences };

    ghost view = { λ p. record {
      language = p.language;
      script = p.script;
      region = p.region;
      variant = p.variant;
      region_override = p.region_override;
    } };

    ghost inverse = { λ p. record {
      language = p.language;
      script = p.script;
      region = p.region;
      variant = p.variant;
      region_override = p.region_override;
    } };
}

impl LocalePreferences {
    /// `und`, and nothing else.
    pub fn default() -> Self
        ensures { result ≡ default_preferences }
    {
        LocalePreferences {
            language: Language::unknown(),
            script: None,
            region: None,
            variant: None,
            region_override: None,
        }
    }

    /// The preferences of a locale. `Err` holds the same preferences if `sd` or `rg` is there and can't be read,
    /// or if `sd` is of another region than the locale's.
    pub fn from_locale_strict(loc: &Locale) -> Result<Self, Self>
        ensures value { MatchResult result (λ p. p ≡ preferences (locale_value loc.now))
            (λ p. p ≡ preferences (locale_value loc.now)) }
        ensures strict { MatchResult result (λ _. is_strict (locale_value loc.now) ≡ true)
            (λ _. is_strict (locale_value loc.now) ≡ false) }
    {
        let (subdivision, is_subdivision_readable) = keyword::<RegionalSubdivisionKind>(loc);
        let (region_override, is_override_readable) = keyword(loc);
        let (region, agrees) = preferred(loc.id.region, id_of(subdivision));
        let preferences = LocalePreferences {
            language: loc.id.language,
            script: loc.id.script,
            region: region.map(keyword_of),
            variant: loc.id.variants.first().copied(),
            region_override,
        };
        if is_subdivision_readable && is_override_readable && agrees {
            Ok(preferences)
        } else {
            Err(preferences)
        }
    }

    /// The data locale made of the region.
    pub fn to_data_locale_language_priority(self) -> DataLocale
        ensures { data_of result ≡ language_priority self }
    {
        self.with_part(id_of(self.region))
    }

    /// The data locale made of the override if there is one, and else of the region.
    pub fn to_data_locale_region_priority(self) -> DataLocale
        ensures { data_of result ≡ region_priority self }
    {
        let part = match id_of(self.region_override) {
            Some(id) => Some(id),
            None => id_of(self.region),
        };
        self.with_part(part)
    }

    // The data locale made of that region part.
    fn with_part(&self, part: Option<SubdivisionId>) -> DataLocale
        ensures { data_of result
            ≡ parts.made_of self.now.language self.now.script part self.now.variant }
    {
        made_of(DataParts {
            language: self.language,
            script: self.script,
            part,
            variant: self.variant,
        })
    }

    /// The language.
    pub fn language(&self) -> Language
        ensures { result ≡ self.now.language }
    {
        self.language
    }

    /// The region of the data locale, region first.
    pub fn region(&self) -> Option<Region>
        ensures { result ≡ (region_priority self.now).region }
    {
        self.to_data_locale_region_priority().region
    }

    /// Takes over what the other knows. A language `und` is unknown; the whole of a region wins only over none or
    /// another region. Extended by the default ones, or by themselves, preferences stay; the default ones become
    /// the other.
    pub fn extend(&mut self, other: LocalePreferences)
        ensures value { self.new ≡ merge self.old other }
        ensures by_default { other ≡ default_preferences → self.new ≡ self.old }
        ensures by_itself { other ≡ self.old → self.new ≡ self.old }
        ensures of_default { self.old ≡ default_preferences → self.new ≡ other }
    {
        self.language = merged_language(self.language, other.language);
        self.script = other.script.or(self.script);
        self.region = merged_region(self.region, other.region);
        self.variant = other.variant.or(self.variant);
        self.region_override = other.region_override.or(self.region_override);
    }
}

// The other language, if it is known.
#[tactic(auto, using(iloc_data_parts::proofs::RegionLemmas::words_tie))]
fn merged_language(language: Language, other: Language) -> Language
    ensures { result ≡ merge_language language other }
{
    if other.as_str() == "und" {
        language
    } else {
        other
    }
}

// The other region, if it wins.
#[tactic(auto, using(iloc_data_parts::proofs::RegionLemmas::words_tie))]
fn merged_region(
    region: Option<RegionalSubdivision>,
    other: Option<RegionalSubdivision>,
) -> Option<RegionalSubdivision>
    ensures { result ≡ merge_region region other }
{
    match (&region, &other) {
        (_, None) => region,
        (None, _) => other,
        (Some(old), Some(new)) => {
            let (old, new) = (old.as_inner(), new.as_inner());
            if is_whole(new) && old.region == new.region {
                region
            } else {
                other
            }
        }
    }
}

/// The preferences of a locale, strict or not.
impl From<&Locale> for LocalePreferences {
    ghost from_gives = { λ locale p. p ≡ preferences (locale_value locale.now) };

    fn from(loc: &Locale) -> Self {
        match LocalePreferences::from_locale_strict(loc) {
            Ok(preferences) => preferences,
            Err(preferences) => preferences,
        }
    }
}

/// Its parts with the first variant, the whole of its region, and no override.
impl From<&LanguageIdentifier> for LocalePreferences {
    ghost from_gives = { λ langid p. p ≡ identifier_preferences (identifier_of langid.now) };

    fn from(lid: &LanguageIdentifier) -> Self {
        LocalePreferences {
            language: lid.language,
            script: lid.script,
            region: lid.region.map(whole_region).map(keyword_of),
            variant: lid.variants.first().copied(),
            region_override: None,
        }
    }
}

/// `und`, and nothing else.
impl Default for LocalePreferences {
    ghost is_default = { λ p. p ≡ default_preferences };

    fn default() -> Self {
        LocalePreferences::default()
    }
}
