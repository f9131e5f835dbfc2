//! Keywords with a fixed set of values, but calendars: how they are read and written.
ghost use Rattle.std.specs.Prelude.{◌≡◌, [], Some, None, IfSome, find, nat_eq};
ghost use Rattle.iloc_spec_parts.specs.Keywords.{EnumKeyword as Keyword, key as key_of_keyword, variants, further_readings, enum_gives};
ghost use Rattle.iloc_spec_parts.specs.SingleValues.{single};
ghost use Rattle.iloc_keyword_types.specs.Reads.{
  ReadsUnder,
  GivesKeyed,
  ReadsVariant,
  GivesVariant,
};
ghost use Rattle.iloc_spec_grammar.specs.Syntax.{Text, Subtag as subtag};
ghost use Rattle.iloc_spec_grammar.specs.Values.{IsNormal, spelled_value};
ghost use Rattle.iloc_tinystr.specs.Number.{number};
ghost use Rattle.iloc_keyword_types.specs.WordTables.{word_at};

use crate::preference_key::PreferenceKey;
use crate::word_enum::WordEnum;
use iloc_memory::Memory;
use iloc_subtags::{Subtag, UnicodeKey, subtag_of_normal};
use iloc_tinystr::ShortPiece;
use iloc_word_list::{PreferencesParseError, Value};
use std::alloc::{AllocError, Global};

/// A keyword whose values are the words of its variants, one each.
pub trait EnumKeyword: WordEnum {
    /// Which of the keywords it is.
    ghost keyword: { Keyword };

    /// Its key.
    fn key() -> UnicodeKey
        ensures { result ≡ key_of_keyword keyword };

    /// The word of the variant as one number, its first byte lowest.
    fn word_number(&self) -> u64
        ensures { result ≡ number (word_at Self.words (Self.place self.now)) };

    /// Its words are those of the keyword.
    ghost same_words: { Self.words ≡ variants keyword };

    /// Nothing else is read.
    ghost plain: { further_readings keyword ≡ [] };
}

/// What the value is parsed as: the variant of its only subtag. The empty value counts as `true`.
pub fn read_keyword<E: EnumKeyword>(value: &Value) -> Result<E, PreferencesParseError>
    ensures { ReadsVariant E.keyword E.place value.now result }
{
    let Some(word) = only_word(value) else {
        return Err(PreferencesParseError::InvalidKeywordValue);
    };
    first_with_number(E::all(), word.number()).ok_or(PreferencesParseError::InvalidKeywordValue)
}

// The word of the only subtag of the value; of the empty value it is `true`.
fn only_word(value: &Value) -> Option<ShortPiece>
    ensures value { result ≡ single (spelled_value value.now) }
    ensures normal { IfSome result (IsNormal subtag) }
{
    if let Some(word) = value.as_single_subtag() {
        return Some(word.to_piece());
    }
    if value.is_empty() {
        return Some(ShortPiece::of_number(0x6575_7274));
    }
    None
}

// The first of the variants whose word has this number.
fn first_with_number<E: EnumKeyword>(variants: &[E], packed: u64) -> Option<E>
    ensures { result
        ≡ find (λ v. nat_eq packed (number (word_at E.words (E.place v)))) variants.now }
{
    variants
        .iter()
        .copied()
        .find(|variant| packed == variant.word_number())
}

/// The value of the variant's word; of `true` it is empty. Reading it gives the variant back.
#[inline(always)]
pub fn give_keyword<E: EnumKeyword>(keyword: E) -> Value
    ensures { GivesVariant E.keyword (E.place keyword) result }
{
    Value::from_subtag(Some(known_subtag(keyword.word_number())))
}

/// The subtag of a number that is that of one in its normal case.
#[inline(always)]
pub(crate) fn known_subtag(packed: u64) -> Subtag
    requires { (w : Text) × IsNormal subtag w × (packed ≡ number w) }
    ensures { (w : Text) → IsNormal subtag w → packed ≡ number w → result ≡ w }
{
    subtag_of_normal(ShortPiece::of_number(packed))
}

/// Its key, what its value is parsed as, and the value that it is turned into, are those of the keyword.
impl<E: EnumKeyword> PreferenceKey for E {
    ghost own_key = { Some (key_of_keyword E.keyword) };

    ghost reads = { λ q ws result. ReadsUnder (key_of_keyword E.keyword)
        (ReadsVariant E.keyword E.place ws) q result };

    ghost gives = { λ e result. GivesKeyed (enum_gives E.keyword (E.place e, None)) result };

    fn try_from_key_value(
        alloc: Global,
        key: &UnicodeKey,
        value: &Value,
    ) -> Result<Option<Self>, PreferencesParseError>
        ensures { ReadsUnder (key_of_keyword E.keyword)
            (ReadsVariant E.keyword E.place value.now) key.now result }
    {
        Self::try_from_key_value_in(alloc, key, value)
    }

    fn try_from_key_value_in<M: Memory>(
        memory: M,
        key: &UnicodeKey,
        value: &Value,
    ) -> Result<Option<Self>, PreferencesParseError>
        ensures { ReadsUnder (key_of_keyword E.keyword)
            (ReadsVariant E.keyword E.place value.now) key.now result }
    {
        if *key != E::key() {
            return Ok(None);
        }
        Ok(Some(read_keyword(value)?))
    }

    fn unicode_extension_key() -> Option<UnicodeKey>
        ensures { result ≡ Some (key_of_keyword E.keyword) }
    {
        Some(E::key())
    }

    fn unicode_extension_value(&self, alloc: Global) -> Result<Option<Value>, AllocError>
        ensures { GivesKeyed (enum_gives E.keyword (E.place self.now, None)) result }
    {
        self.unicode_extension_value_in(alloc)
    }

    fn unicode_extension_value_in<M: Memory>(&self, memory: M) -> Result<Option<Value>, AllocError>
        ensures { GivesKeyed (enum_gives E.keyword (E.place self.now, None)) result }
    {
        Ok(Some(give_keyword(*self)))
    }
}
