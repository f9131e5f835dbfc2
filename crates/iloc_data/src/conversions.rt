//! Data locales from identifiers and parts, and locales from data locales.
ghost use Rattle.std.specs.Prelude.{◌≡◌};
ghost use Rattle.iloc_spec_grammar.specs.Syntax.{languages};
ghost use Rattle.iloc_spec_grammar.specs.Values.{IsValue, IsWellFormed, text};
ghost use Rattle.iloc_locale.specs.LocaleReading.{value_of as locale_value};
ghost use Rattle.iloc_spec_parts.specs.DataLocales.{data_text, locale_of_data, locale_with_keywords, data_of_identifier, data_of_parts};
ghost use Rattle.iloc_data.specs.DataValue.{value_of};
ghost use Rattle.iloc_spec_parts.specs.Preferences.{language_priority, preferences};
ghost use Rattle.iloc_langid.specs.Reads.{value_of as identifier_of};
ghost use Rattle.iloc_spec_grammar.specs.Meaning as meaning;

use crate::data_locale::{DataLocale, made_of};
use crate::locale_preferences::LocalePreferences;
use crate::values::look_at_data_locale;
use iloc_data_parts::DataParts;
use iloc_data_parts::region::whole_region;
use iloc_extensions::Extensions;
use iloc_keyword_types::KeywordKind;
use iloc_keyword_types::subdivision_keyword::RegionalSubdivisionKind;
use iloc_langid::LanguageIdentifier;
use iloc_locale::Locale;
use iloc_memory::Memory;
use iloc_subtags::{Language, Region, Script};
use iloc_unicode::{Attributes, Keywords, Unicode};
use iloc_word_list::{Value, Variants};
use std::alloc::Global;

impl DataLocale {
    /// The locale of the same parts: the one well-formed locale that prints the same text. It allocates nothing.
    pub fn into_locale(self, alloc: Global) -> Locale
        ensures parts { locale_value result ≡ locale_of_data (value_of self) }
        ensures text { text (locale_value result) ≡ data_text (value_of self) }
        ensures well_formed { IsWellFormed (locale_value result) }
        ensures only { (M : meaning.Locale) → IsValue languages M → IsWellFormed M
            → text M ≡ data_text (value_of self) → M ≡ locale_value result }
    {
        look_at_data_locale(&self);
        self.as_locale(alloc)
    }

    // The locale of the same parts.
    #[tactic(auto, using(iloc_data_parts::proofs::RegionLemmas::printed_value))]
    fn as_locale(&self, alloc: Global) -> Locale
        ensures { locale_value result ≡ locale_of_data (value_of self.now) }
    {
        let keywords = match self.printed_subdivision() {
            Some(word) => {
                let _ = word.as_str();
                let value = Value::from_subtag(Some(word));
                Keywords::new_single(RegionalSubdivisionKind::key(), value)
            }
            None => Keywords::new(),
        };
        self.with_keywords(alloc, keywords)
    }

    /// The locale of the identifier's parts and these keywords.
    pub(crate) fn with_keywords<M: Memory>(&self, memory: M, keywords: Keywords) -> Locale
        ensures { locale_value result ≡ locale_with_keywords (value_of self.now) keywords }
    {
        let variants = match self.variant {
            Some(variant) => Variants::from_variant(variant),
            None => Variants::new(),
        };
        let unicode = Unicode {
            keywords,
            attributes: Attributes::new(),
        };
        Locale {
            id: LanguageIdentifier {
                language: self.language,
                script: self.script,
                region: self.region,
                variants,
            },
            extensions: Extensions::from_unicode_in(memory, unicode),
        }
    }
}

/// That of its preferences, language first: its parts with the first variant, and of its region the subdivision
/// that `sd` names, if that is readable and of this region. Without a region, `sd` names both.
impl From<&Locale> for DataLocale {
    ghost from_gives = { λ locale d. value_of d
        ≡ language_priority (preferences (locale_value locale.now)) };

    fn from(locale: &Locale) -> Self {
        LocalePreferences::from(locale).to_data_locale_language_priority()
    }
}

/// As from a reference to the locale.
impl From<Locale> for DataLocale {
    ghost from_gives = { λ locale d. value_of d
        ≡ language_priority (preferences (locale_value locale)) };

    fn from(locale: Locale) -> Self {
        DataLocale::from(&locale)
    }
}

/// Its parts with the first variant, and no subdivision.
impl From<&LanguageIdentifier> for DataLocale {
    ghost from_gives = { λ langid d. value_of d ≡ data_of_identifier (identifier_of langid.now) };

    fn from(langid: &LanguageIdentifier) -> Self {
        DataLocale {
            language: langid.language,
            script: langid.script,
            region: langid.region,
            variant: langid.variants.first().copied(),
            subdivision: None,
        }
    }
}

/// As from a reference to the identifier.
impl From<LanguageIdentifier> for DataLocale {
    ghost from_gives = { λ langid d. value_of d ≡ data_of_identifier (identifier_of langid) };

    fn from(langid: LanguageIdentifier) -> Self {
        DataLocale::from(&langid)
    }
}

/// Made of the whole of the region.
impl From<(Language, Option<Script>, Option<Region>)> for DataLocale {
    ghost from_gives = { λ lsr d. value_of d ≡ data_of_parts lsr.0 lsr.1 lsr.2 };

    fn from(lsr: (Language, Option<Script>, Option<Region>)) -> Self {
        let (language, script, region) = lsr;
        made_of(DataParts {
            language,
            script,
            part: region.map(whole_region),
            variant: None,
        })
    }
}
