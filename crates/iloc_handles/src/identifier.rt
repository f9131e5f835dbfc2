//! The subtags of the identifier of a locale that are set.
ghost use Rattle.iloc_handles.specs.Identifier.{SetsLanguage, SetsRegion, SetsScript};

use crate::asking::{Change, put_parsed};
use crate::subtags::optional_word;
use iloc_calls::Status;
use iloc_locale::Locale;
use iloc_subtags::{Language, LanguageKind, RegionKind, ScriptKind};
use std::alloc::Global;

/// Sets the language to the subtag of the text; an empty text makes it `und`.
#[derive(Drop)]
pub struct SetLanguage<'a>(pub &'a [u8]);

impl<'a> Change for SetLanguage<'a> {
    ghost changes = { λ s. SetsLanguage s.0.now };

    fn apply(&self, _alloc: Global, locale: &mut Locale) -> Status {
        let language = optional_word::<LanguageKind, 8>(self.0);
        let known = language.map(|it| it.unwrap_or(Language::unknown()));
        put_parsed(known, &mut locale.id.language)
    }
}

/// Sets the script to the subtag of the text; an empty text removes it.
#[derive(Drop)]
pub struct SetScript<'a>(pub &'a [u8]);

impl<'a> Change for SetScript<'a> {
    ghost changes = { λ s. SetsScript s.0.now };

    fn apply(&self, _alloc: Global, locale: &mut Locale) -> Status {
        let script = optional_word::<ScriptKind, 4>(self.0);
        put_parsed(script, &mut locale.id.script)
    }
}

/// Sets the region to the subtag of the text; an empty text removes it.
#[derive(Drop)]
pub struct SetRegion<'a>(pub &'a [u8]);

impl<'a> Change for SetRegion<'a> {
    ghost changes = { λ s. SetsRegion s.0.now };

    fn apply(&self, _alloc: Global, locale: &mut Locale) -> Status {
        let region = optional_word::<RegionKind, 3>(self.0);
        put_parsed(region, &mut locale.id.region)
    }
}
