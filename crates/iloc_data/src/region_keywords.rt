//! What the keywords `sd` and `rg` of a locale say.
ghost use Rattle.std.specs.Prelude.{◌≡◌};
ghost use Rattle.iloc_locale.specs.LocaleReading.{value_of as locale_value};
ghost use Rattle.iloc_spec_parts.specs.Keywords.{subdivision_reads};
ghost use Rattle.iloc_spec_parts.specs.Preferences.{is_readable, read_keyword};

use iloc_keyword_types::{KeywordKind, SubdivisionId, SubdivisionKeyword};
use iloc_locale::Locale;

/// The keyword of a locale, if it is there and readable, and whether it is absent or readable.
#[tactic(auto, using(crate::proofs::KeywordLemmas::absent, crate::proofs::KeywordLemmas::there))]
pub(crate) fn keyword<K: KeywordKind>(locale: &Locale) -> (Option<SubdivisionKeyword<K>>, bool)
    ensures value { result.0 ≡ read_keyword subdivision_reads K.key_text (locale_value locale.now) }
    ensures readable { result.1
        ≡ is_readable subdivision_reads K.key_text (locale_value locale.now) }
{
    match locale.extensions.unicode.keywords.get(&K::key()) {
        Some(value) => match SubdivisionKeyword::<K>::try_from(value) {
            Ok(keyword) => (Some(keyword), true),
            Err(_) => (None, false),
        },
        None => (None, true),
    }
}

/// The subdivision of the keyword.
pub(crate) fn id_of<K: KeywordKind>(keyword: Option<SubdivisionKeyword<K>>) -> Option<SubdivisionId>
    ensures { result ≡ keyword }
{
    Some(*keyword?.as_inner())
}
