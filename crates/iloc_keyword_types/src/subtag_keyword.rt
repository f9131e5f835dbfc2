//! Keywords that stand for the subtag of their value: numbering systems and time zones.
ghost use Rattle.std.specs.Prelude.{codes};
ghost use Rattle.iloc_spec_parts.specs.SingleValues.{single};
ghost use Rattle.iloc_spec_parts.specs.Keywords.{subtag_gives};

use crate::known_keys;
use crate::single_keyword::{KeywordKind, SingleKeyword, SubtagContent};
use iloc_subtags::{Subtag, UnicodeKey};
use iloc_word_list::Value;

/// The only subtag of the value itself.
impl SubtagContent for Subtag {
    ghost reads = { single };

    ghost gives = { subtag_gives };

    #[tactic(auto, using(iloc_word_list::proofs::CurrencyLemmas::only_is_single))]
    fn of_value(value: &Value) -> Option<Subtag> {
        Some(*value.as_single_subtag()?)
    }

    #[tactic(auto, using(crate::proofs::EnumLemmas::same_without))]
    fn to_value(self) -> Value {
        Value::from_subtag(Some(self))
    }
}

/// The kind of numbering systems.
pub struct NumberingSystemKind;

impl KeywordKind for NumberingSystemKind {
    ghost key_text = { codes "nu" };

    fn key() -> UnicodeKey {
        known_keys::nu()
    }
}

/// A numbering system, as `thai` (`nu`).
pub type NumberingSystem = SingleKeyword<NumberingSystemKind, Subtag>;

/// The kind of time zones.
pub struct TimeZoneShortIdKind;

impl KeywordKind for TimeZoneShortIdKind {
    ghost key_text = { codes "tz" };

    fn key() -> UnicodeKey {
        known_keys::tz()
    }
}

/// The short name of a time zone, as `uslax` (`tz`).
pub type TimeZoneShortId = SingleKeyword<TimeZoneShortIdKind, Subtag>;
