//! Calendars as values of their keyword.
ghost use Rattle.std.specs.Prelude.{◌≡◌, [], ◌∷◌, Some, IfOk, option_map};
ghost use Rattle.iloc_spec_parts.specs.Keywords.{
  CalendarAlgorithm as the_keyword,
  key as key_of_keyword,
  enum_reads,
  enum_gives,
};
ghost use Rattle.iloc_keyword_types.specs.Reads.{Reads, ReadsUnder, GivesKeyed, GivesValue};
ghost use Rattle.iloc_keyword_types.specs.Calendars.{value_of};
ghost use Rattle.iloc_keyword_types.specs.CalendarReading.{calendar_reads};

use crate::calendar_algorithm::CalendarAlgorithm;
use crate::enum_keyword::known_subtag;
use crate::hijri::HijriCalendarAlgorithm;
use crate::{PreferenceKey, find_word, known_keys};
use iloc_memory::Memory;
use iloc_subtags::UnicodeKey;
use iloc_word_list::{PreferencesParseError, Value};
use std::alloc::{AllocError, Global};

// The calendar of one word: that of a variant, or an old form.
fn of_one(word: &str) -> Option<CalendarAlgorithm>
    ensures { option_map value_of result ≡ calendar_reads (word.now ∷ []) }
{
    if word == "islamicc" {
        return Some(CalendarAlgorithm::Hijri(Some(HijriCalendarAlgorithm::Civil)));
    }
    match find_word::<CalendarAlgorithm>(word) {
        Some(calendar) => Some(calendar.of_any_kind()),
        None => None,
    }
}

// The calendar of two words: a Hijri calendar of a kind.
fn of_two(first: &str, kind: &str) -> Option<CalendarAlgorithm>
    ensures { option_map value_of result ≡ calendar_reads (first.now ∷ kind.now ∷ []) }
{
    if first == "islamic" {
        match find_word::<HijriCalendarAlgorithm>(kind) {
            Some(kind) => Some(CalendarAlgorithm::Hijri(Some(kind))),
            None => None,
        }
    } else {
        None
    }
}

// The calendar of three words: an old form.
fn of_three(first: &str, second: &str, third: &str) -> Option<CalendarAlgorithm>
    ensures { option_map value_of result
        ≡ calendar_reads (first.now ∷ second.now ∷ third.now ∷ []) }
{
    if first == "ethiopic" && second == "amete" && third == "alem" {
        Some(CalendarAlgorithm::Ethioaa)
    } else {
        None
    }
}

// What the value is parsed as.
fn calendar_of(value: &Value) -> Option<CalendarAlgorithm>
    ensures { option_map value_of result ≡ calendar_reads value.now }
{
    match value.as_subtags_slice() {
        [word] => of_one(word.as_str()),
        [first, kind] => of_two(first.as_str(), kind.as_str()),
        [first, second, third] => of_three(first.as_str(), second.as_str(), third.as_str()),
        [] => None,
        [_, _, _, _, ..] => None,
    }
}

/// What the value is parsed as.
impl TryFrom<&Value> for CalendarAlgorithm {
    type Error = PreferencesParseError;

    ghost try_from_gives = { λ value result. Reads value_of
        (enum_reads the_keyword value.now) result };

    fn try_from(value: &Value) -> Result<Self, PreferencesParseError> {
        calendar_of(value).ok_or(PreferencesParseError::InvalidKeywordValue)
    }
}

impl CalendarAlgorithm {
    /// The value of the keyword: the one or two words of the text, which parses as the calendar. It allocates nothing.
    pub fn to_value(&self, alloc: Global) -> Result<Value, AllocError>
        ensures value { GivesValue (enum_gives the_keyword (value_of self.now)) result }
        ensures back { IfOk result
            (λ value. enum_reads the_keyword value ≡ Some (value_of self.now)) }
    {
        self.value_in(alloc)
    }

    // As `to_value`, from any memory, which is not asked for room.
    fn value_in<M: Memory>(&self, memory: M) -> Result<Value, AllocError>
        ensures value { GivesValue (enum_gives the_keyword (value_of self.now)) result }
        ensures back { IfOk result
            (λ value. enum_reads the_keyword value ≡ Some (value_of self.now)) }
    {
        let word = known_subtag(self.word_number());
        match self.kind() {
            Some(kind) => Value::from_two_subtags_in(
                memory,
                word,
                known_subtag(kind.word_number()),
            ),
            None => Ok(Value::from_subtag(Some(word))),
        }
    }
}

/// Its key, what its value is parsed as, and the value that it is turned into.
impl PreferenceKey for CalendarAlgorithm {
    ghost own_key = { Some (key_of_keyword the_keyword) };

    ghost reads = { λ q ws result. ReadsUnder (key_of_keyword the_keyword)
        (Reads value_of (enum_reads the_keyword ws)) q result };

    ghost gives = { λ c result. GivesKeyed (enum_gives the_keyword (value_of c)) result };

    fn try_from_key_value(
        alloc: Global,
        key: &UnicodeKey,
        value: &Value,
    ) -> Result<Option<Self>, PreferencesParseError>
        ensures { ReadsUnder (key_of_keyword the_keyword)
            (Reads value_of (enum_reads the_keyword value.now)) key.now result }
    {
        Self::try_from_key_value_in(alloc, key, value)
    }

    fn try_from_key_value_in<M: Memory>(
        memory: M,
        key: &UnicodeKey,
        value: &Value,
    ) -> Result<Option<Self>, PreferencesParseError>
        ensures { ReadsUnder (key_of_keyword the_keyword)
            (Reads value_of (enum_reads the_keyword value.now)) key.now result }
    {
        if *key != known_keys::ca() {
            return Ok(None);
        }
        Ok(Some(CalendarAlgorithm::try_from(value)?))
    }

    fn unicode_extension_key() -> Option<UnicodeKey>
        ensures { result ≡ Some (key_of_keyword the_keyword) }
    {
        Some(known_keys::ca())
    }

    fn unicode_extension_value(&self, alloc: Global) -> Result<Option<Value>, AllocError>
        ensures { GivesKeyed (enum_gives the_keyword (value_of self.now)) result }
    {
        self.unicode_extension_value_in(alloc)
    }

    fn unicode_extension_value_in<M: Memory>(&self, memory: M) -> Result<Option<Value>, AllocError>
        ensures { GivesKeyed (enum_gives the_keyword (value_of self.now)) result }
    {
        Ok(Some(self.value_in(memory)?))
    }
}
