//! What the types keep of each data locale and of each preferences.
ghost use Rattle.std.specs.Prelude.{IfSome};
ghost use Rattle.iloc_spec_grammar.specs.Syntax.{languages};
ghost use Rattle.iloc_spec_grammar.specs.Values.{IsNormal};
ghost use Rattle.iloc_spec_parts.specs.DataLocales.{IsDataLocale};
ghost use Rattle.iloc_spec_parts.specs.Subdivisions.{IsSubdivision};
ghost use Rattle.iloc_spec_parts.specs.Preferences.{IsPreferences};
ghost use Rattle.iloc_data.specs.DataValue.{value_of};

use crate::data_locale::DataLocale;
use crate::locale_preferences::LocalePreferences;
use iloc_keyword_types::{KeywordKind, SubdivisionKeyword};
use iloc_subtags::{WordKind, WordOf};

// Looks at each subtag, so that all are known to be normal.
pub(crate) fn look_at_data_locale(locale: &DataLocale)
    ensures { IsDataLocale languages (value_of locale.now) }
{
    let _ = locale.language.as_str();
    look_at(&locale.script);
    look_at(&locale.region);
    look_at(&locale.variant);
    look_at(&locale.subdivision);
}

// Looks at each subtag of preferences, so that all are known to be normal.
pub(crate) fn look_at_preferences(preferences: &LocalePreferences)
    ensures { IsPreferences languages preferences.now }
{
    let _ = preferences.language.as_str();
    look_at(&preferences.script);
    look_at_subdivision(&preferences.region);
    look_at(&preferences.variant);
    look_at_subdivision(&preferences.region_override);
}

fn look_at<K: WordKind<N>, const N: usize>(word: &Option<WordOf<K, N>>)
    ensures { IfSome word.now (IsNormal K.kind) }
{
    if let Some(word) = word {
        let _ = word.as_str();
    }
}

fn look_at_subdivision<K: KeywordKind>(keyword: &Option<SubdivisionKeyword<K>>)
    ensures { IfSome keyword.now IsSubdivision }
{
    if let Some(keyword) = keyword {
        let id = keyword.as_inner();
        let _ = id.region.as_str();
        let _ = id.suffix.as_str();
    }
}
