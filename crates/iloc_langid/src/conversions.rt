//! Identifiers from their parts, and back.
ghost use Rattle.std.specs.Prelude.{◌≡◌, None, [], codes};
ghost use Rattle.iloc_langid.specs.Reads.{value_of};

use crate::identifier::LanguageIdentifier;
use iloc_subtags::{Language, Region, Script};
use iloc_word_list::Variants;

/// The language alone.
impl From<Language> for LanguageIdentifier {
    ghost from_gives = { λ language i. value_of i
        ≡ record { language = language; script = None; region = None; variants = [] } };

    fn from(language: Language) -> Self {
        LanguageIdentifier {
            language,
            script: None,
            region: None,
            variants: Variants::new(),
        }
    }
}

/// `und` with that script.
impl From<Option<Script>> for LanguageIdentifier {
    ghost from_gives = { λ script i. value_of i
        ≡ record { language = codes "und"; script = script; region = None; variants = [] } };

    fn from(script: Option<Script>) -> Self {
        LanguageIdentifier {
            language: Language::unknown(),
            script,
            region: None,
            variants: Variants::new(),
        }
    }
}

/// `und` with that region.
impl From<Option<Region>> for LanguageIdentifier {
    ghost from_gives = { λ region i. value_of i
        ≡ record { language = codes "und"; script = None; region = region; variants = [] } };

    fn from(region: Option<Region>) -> Self {
        LanguageIdentifier {
            language: Language::unknown(),
            script: None,
            region,
            variants: Variants::new(),
        }
    }
}

/// These three parts, and no variants.
impl From<(Language, Option<Script>, Option<Region>)> for LanguageIdentifier {
    ghost from_gives = { λ lsr i. value_of i
        ≡ record { language = lsr.0; script = lsr.1; region = lsr.2; variants = [] } };

    fn from(lsr: (Language, Option<Script>, Option<Region>)) -> Self {
        LanguageIdentifier {
            language: lsr.0,
            script: lsr.1,
            region: lsr.2,
            variants: Variants::new(),
        }
    }
}

/// Language, script and region of the identifier; its variants are left behind.
impl From<&LanguageIdentifier> for (Language, Option<Script>, Option<Region>) {
    ghost from_gives = { λ langid parts. parts
        ≡ (langid.now.language, langid.now.script, langid.now.region) };

    fn from(langid: &LanguageIdentifier) -> Self {
        (langid.language, langid.script, langid.region)
    }
}
