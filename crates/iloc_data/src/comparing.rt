//! Compares data locales with texts and with one another, by what they stand for.
ghost use Rattle.std.specs.Prelude.{◌≡◌, ◌↔◌, IsTrue};
ghost use Rattle.std.specs.Ordering.{nat_cmp};
ghost use Rattle.std.specs.Cmp.Lexicographic.{slice_cmp};
ghost use Rattle.iloc_spec_parts.specs.DataLocales.{data_key, data_text};
ghost use Rattle.iloc_spec_parts.specs.DataOrders.{data_locale_cmp};
ghost use Rattle.iloc_data.specs.DataValue.{value_of};
ghost use Rattle.std.specs.Cmp.{partial_equiv_from_equiv};
ghost use Rattle.iloc_data.specs.DataEquality.{same_key};
ghost use Rattle.iloc_data.specs.DataEqualityLaws.{same_key_equiv, fed_alike};
ghost use Rattle.iloc_spec_parts.specs.DataHashes.{data_locale_fed};

use crate::data_locale::DataLocale;
use iloc_keyword_types::subdivisions_compare;
use iloc_writeable::cmp_utf8;
use std::cmp::Ordering;
use std::hash::{Hash, Hasher};

impl DataLocale {
    /// The byte order of the printed text against the bytes. It makes no text.
    pub fn strict_cmp(&self, other: &[u8]) -> Ordering
        ensures { result ≡ slice_cmp nat_cmp (data_text (value_of self.now)) other.now }
    {
        cmp_utf8(self, other)
    }

    /// The order by language, script, region part and variant; `Equal` exactly if the two are equal.
    pub fn total_cmp(&self, other: &Self) -> Ordering
        ensures { result ≡ data_locale_cmp (value_of self.now) (value_of other.now) }
    {
        subdivisions_compare();
        self.language
            .cmp(&other.language)
            .then_with(|| self.script.cmp(&other.script))
            .then_with(|| self.region_part().cmp(&other.region_part()))
            .then_with(|| self.variant.cmp(&other.variant))
    }
}

/// Equal are data locales that stand for the same: of the same language, script, region part and variant.
impl PartialEq for DataLocale {
    ghost eq = { same_key };

    ghost laws = { partial_equiv_from_equiv same_key_equiv };

    #[tactic(auto, using(crate::proofs::EqualityLemmas::same_key_decides))]
    fn eq(&self, other: &Self) -> bool
        ensures value { result ≡ same_key self.now other.now }
        ensures equality { IsTrue result
            ↔ (data_key (value_of self.now) ≡ data_key (value_of other.now)) }
    {
        self.total_cmp(other).is_eq()
    }
}

impl Eq for DataLocale {
    ghost laws = { same_key_equiv };
}

/// What is equal feeds a hasher alike.
impl Hash for DataLocale {
    ghost hash_input = { λ d. data_locale_fed (value_of d) };

    ghost respects_eq = { fed_alike };

    fn hash<H: Hasher>(&self, state: &mut H) {
        self.language.hash(state);
        self.script.hash(state);
        self.region_part().hash(state);
        self.variant.hash(state);
    }
}
