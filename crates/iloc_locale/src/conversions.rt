//! Locales from their parts, and back.
ghost use Rattle.std.specs.Prelude.{◌≡◌, None, [], codes};
ghost use Rattle.iloc_spec_grammar.specs.Meaning.{without_extensions};
ghost use Rattle.iloc_langid.specs.Reads.{value_of as identifier_of};
ghost use Rattle.iloc_locale.specs.LocaleReading.{value_of};

use crate::locale::Locale;
use iloc_extensions::Extensions;
use iloc_langid::LanguageIdentifier;
use iloc_subtags::{Language, Region, Script};
use std::alloc::Global;

impl Locale {
    /// The identifier.
    pub fn as_langid(&self) -> &LanguageIdentifier
        ensures { result.now ≡ self.now.id }
    {
        &self.id
    }

    /// This identifier, and no extension.
    pub fn from_langid(alloc: Global, id: LanguageIdentifier) -> Self
        ensures { value_of result ≡ without_extensions (identifier_of id) }
    {
        Locale {
            id,
            extensions: Extensions::new(alloc),
        }
    }

    /// The language alone.
    pub fn from_language(alloc: Global, language: Language) -> Self
        ensures { value_of result
            ≡ without_extensions (record {
              language = language;
              script = None;
              region = None;
              variants = [];
            }) }
    {
        Self::from_langid(alloc, LanguageIdentifier::from(language))
    }

    /// `und` with that script.
    pub fn from_script(alloc: Global, script: Option<Script>) -> Self
        ensures { value_of result
            ≡ without_extensions (record {
              language = codes "und";
              script = script;
              region = None;
              variants = [];
            }) }
    {
        Self::from_langid(alloc, LanguageIdentifier::from(script))
    }

    /// `und` with that region.
    pub fn from_region(alloc: Global, region: Option<Region>) -> Self
        ensures { value_of result
            ≡ without_extensions (record {
              language = codes "und";
              script = None;
              region = region;
              variants = [];
            }) }
    {
        Self::from_langid(alloc, LanguageIdentifier::from(region))
    }

    /// These three parts, and nothing else.
    pub fn from_parts(alloc: Global, lsr: (Language, Option<Script>, Option<Region>)) -> Self
        ensures { value_of result
            ≡ without_extensions (record {
              language = lsr.0;
              script = lsr.1;
              region = lsr.2;
              variants = [];
            }) }
    {
        Self::from_langid(alloc, LanguageIdentifier::from(lsr))
    }
}

/// The identifier; the extensions are left behind.
impl From<Locale> for LanguageIdentifier {
    ghost from_gives = { λ locale id. id ≡ locale.id };

    fn from(locale: Locale) -> Self {
        locale.id
    }
}
