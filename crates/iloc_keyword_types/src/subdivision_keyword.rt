//! Keywords that stand for a subdivision: of the region, and of the region in its place.
ghost use Rattle.std.specs.Prelude.{codes};
ghost use Rattle.iloc_spec_parts.specs.Keywords.{subdivision_reads, subdivision_gives};

use crate::single_keyword::{KeywordKind, SingleKeyword, SubtagContent};
use crate::{SubdivisionId, known_keys};
use iloc_subtags::UnicodeKey;
use iloc_word_list::Value;

/// The subdivision that the only subtag of the value names.
impl SubtagContent for SubdivisionId {
    ghost reads = { subdivision_reads };

    ghost gives = { subdivision_gives };

    #[tactic(auto, using(iloc_word_list::proofs::CurrencyLemmas::only_is_single))]
    fn of_value(value: &Value) -> Option<SubdivisionId> {
        let subtag = value.as_single_subtag()?;
        SubdivisionId::try_from_str(subtag.as_str()).ok()
    }

    #[tactic(auto, using(crate::proofs::EnumLemmas::same_without))]
    fn to_value(self) -> Value {
        Value::from_subtag(Some(self.into_subtag()))
    }
}

/// A keyword of the kind `K` that stands for a subdivision.
pub type SubdivisionKeyword<K> = SingleKeyword<K, SubdivisionId>;

/// The kind of region overrides.
pub struct RegionOverrideKind;

impl KeywordKind for RegionOverrideKind {
    ghost key_text = { codes "rg" };

    fn key() -> UnicodeKey {
        known_keys::rg()
    }
}

/// The region, or the subdivision of one, that stands in the place of the locale's (`rg`).
pub type RegionOverride = SingleKeyword<RegionOverrideKind, SubdivisionId>;

/// The kind of regional subdivisions.
pub struct RegionalSubdivisionKind;

impl KeywordKind for RegionalSubdivisionKind {
    ghost key_text = { codes "sd" };

    fn key() -> UnicodeKey {
        known_keys::sd()
    }
}

/// A subdivision of the region (`sd`).
pub type RegionalSubdivision = SingleKeyword<RegionalSubdivisionKind, SubdivisionId>;
