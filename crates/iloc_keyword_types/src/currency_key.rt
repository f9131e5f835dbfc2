//! Currencies as the preference of their keyword (`cu`).
ghost use Rattle.std.specs.Prelude.{◌≡◌, Some, codes};
ghost use Rattle.iloc_spec_parts.specs.SingleValues.{currency_reads, currency_gives};
ghost use Rattle.iloc_keyword_types.specs.Reads.{Reads, ReadsUnder, GivesKeyed};

use crate::known_keys;
use crate::preference_key::PreferenceKey;
use iloc_memory::Memory;
use iloc_subtags::{CurrencyType, UnicodeKey};
use iloc_word_list::{PreferencesParseError, Value};
use std::alloc::{AllocError, Global};

/// Its key, what its value is parsed as, and the value that it is turned into.
impl PreferenceKey for CurrencyType {
    ghost own_key = { Some (codes "cu") };

    ghost reads = { λ q ws result. ReadsUnder (codes "cu")
        (Reads (λ code. code) (currency_reads ws)) q result };

    ghost gives = { λ code result. GivesKeyed (Some (currency_gives code)) result };

    fn try_from_key_value(
        alloc: Global,
        key: &UnicodeKey,
        value: &Value,
    ) -> Result<Option<Self>, PreferencesParseError>
        ensures { ReadsUnder (codes "cu")
            (Reads (λ code. code) (currency_reads value.now)) key.now result }
    {
        Self::try_from_key_value_in(alloc, key, value)
    }

    fn try_from_key_value_in<M: Memory>(
        memory: M,
        key: &UnicodeKey,
        value: &Value,
    ) -> Result<Option<Self>, PreferencesParseError>
        ensures { ReadsUnder (codes "cu")
            (Reads (λ code. code) (currency_reads value.now)) key.now result }
    {
        if *key != known_keys::cu() {
            return Ok(None);
        }
        Ok(Some(CurrencyType::try_from(value)?))
    }

    fn unicode_extension_key() -> Option<UnicodeKey>
        ensures { result ≡ Some (codes "cu") }
    {
        Some(known_keys::cu())
    }

    fn unicode_extension_value(&self, alloc: Global) -> Result<Option<Value>, AllocError>
        ensures { GivesKeyed (Some (currency_gives self.now)) result }
    {
        self.unicode_extension_value_in(alloc)
    }

    fn unicode_extension_value_in<M: Memory>(&self, memory: M) -> Result<Option<Value>, AllocError>
        ensures { GivesKeyed (Some (currency_gives self.now)) result }
    {
        Ok(Some(Value::from(self)))
    }
}
