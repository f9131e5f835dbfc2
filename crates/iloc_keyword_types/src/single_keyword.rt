//! Keywords whose value is one subtag, and which stand for that subtag or for what it spells.
ghost use Rattle.std.specs.Prelude.{◌≡◌, ℕ, List, Option, Some};
ghost use Rattle.iloc_spec_grammar.specs.Syntax.{Text};
ghost use Rattle.iloc_keyword_types.specs.Reads.{Reads, ReadsUnder, GivesKeyed};

use crate::{PreferenceKey, PreferencesParseError};
use iloc_memory::Memory;
use iloc_subtags::UnicodeKey;
use iloc_word_list::Value;
use std::alloc::{AllocError, Global};
use std::fmt;
use std::marker::{Model, PhantomData};

/// Which keyword it is.
pub trait KeywordKind {
    /// Its key.
    ghost key_text: { List ℕ };

    /// Its key.
    fn key() -> UnicodeKey
        ensures { result ≡ key_text };
}

/// What the only subtag of a value stands for.
pub trait SubtagContent: Copy {
    /// What a value is parsed as.
    ghost reads: { List (List ℕ) → Option Self };

    /// The value that it is turned into.
    ghost gives: { Self → List Text };

    /// What the value is parsed as.
    fn of_value(value: &Value) -> Option<Self>
        ensures { result ≡ reads value.now };

    /// The value that it is turned into.
    fn to_value(self) -> Value
        ensures { result ≡ gives self };
}

/// The keyword of the kind `K` whose value stands for a `T`. Contracts see it as that.
#[derive_where(Clone, Copy, PartialEq, Eq, Hash; T)]
pub struct SingleKeyword<K: KeywordKind, T: SubtagContent> {
    inner: T,
    #[derive_where(skip)]
    kind: PhantomData<K>,
}

impl<K: KeywordKind, T: SubtagContent> Model for SingleKeyword<K, T> {
    ghost Value = { T };

    ghost view = { λ k. k.inner };

    ghost inverse = { λ content. record { inner = content; kind = record {} } };
}

impl<K: KeywordKind, T: SubtagContent> SingleKeyword<K, T> {
    /// What the value stands for.
    pub fn as_inner(&self) -> &T
        ensures { result.now ≡ self.now }
    {
        &self.inner
    }
}

/// The keyword that stands for this.
pub fn keyword_of<K: KeywordKind, T: SubtagContent>(inner: T) -> SingleKeyword<K, T>
    ensures { result ≡ inner }
{
    SingleKeyword {
        inner,
        kind: PhantomData,
    }
}

/// Prints as what it stands for.
impl<K: KeywordKind, T: SubtagContent + fmt::Debug> fmt::Debug for SingleKeyword<K, T> {
    fn fmt<W: fmt::Write>(&self, f: &mut fmt::Formatter<W>) -> fmt::Result {
        fmt::Debug::fmt(&self.inner, f)
    }
}

/// What the only subtag of the value stands for.
impl<K: KeywordKind, T: SubtagContent> TryFrom<&Value> for SingleKeyword<K, T> {
    type Error = PreferencesParseError;

    ghost try_from_gives = { λ value result. Reads (λ w. w) (T.reads value.now) result };

    fn try_from(input: &Value) -> Result<Self, PreferencesParseError> {
        match T::of_value(input) {
            Some(inner) => Ok(keyword_of(inner)),
            None => Err(PreferencesParseError::InvalidKeywordValue),
        }
    }
}

/// As from a reference to the value.
impl<K: KeywordKind, T: SubtagContent> TryFrom<Value> for SingleKeyword<K, T> {
    type Error = PreferencesParseError;

    ghost try_from_gives = { λ value result. Reads (λ w. w) (T.reads value) result };

    fn try_from(input: Value) -> Result<Self, PreferencesParseError> {
        Self::try_from(&input)
    }
}

/// The value of one subtag; of one that spells `true` it is empty.
impl<K: KeywordKind, T: SubtagContent> From<&SingleKeyword<K, T>> for Value {
    ghost from_gives = { λ keyword value. value ≡ T.gives keyword.now };

    fn from(input: &SingleKeyword<K, T>) -> Value {
        input.inner.to_value()
    }
}

/// As from a reference to the keyword.
impl<K: KeywordKind, T: SubtagContent> From<SingleKeyword<K, T>> for Value {
    ghost from_gives = { λ keyword value. value ≡ T.gives keyword };

    fn from(input: SingleKeyword<K, T>) -> Value {
        Value::from(&input)
    }
}

/// Its key, what its value is parsed as, and the value that it is turned into.
impl<K: KeywordKind, T: SubtagContent> PreferenceKey for SingleKeyword<K, T> {
    ghost own_key = { Some K.key_text };

    ghost reads = { λ q ws result. ReadsUnder K.key_text
        (Reads (λ w. w) (T.reads ws)) q result };

    ghost gives = { λ w result. GivesKeyed (Some (T.gives w)) result };

    fn try_from_key_value(
        alloc: Global,
        key: &UnicodeKey,
        value: &Value,
    ) -> Result<Option<Self>, PreferencesParseError>
        ensures { ReadsUnder K.key_text (Reads (λ w. w) (T.reads value.now)) key.now result }
    {
        Self::try_from_key_value_in(alloc, key, value)
    }

    fn try_from_key_value_in<M: Memory>(
        memory: M,
        key: &UnicodeKey,
        value: &Value,
    ) -> Result<Option<Self>, PreferencesParseError>
        ensures { ReadsUnder K.key_text (Reads (λ w. w) (T.reads value.now)) key.now result }
    {
        if *key != K::key() {
            return Ok(None);
        }
        Ok(Some(Self::try_from(value)?))
    }

    fn unicode_extension_key() -> Option<UnicodeKey>
        ensures { result ≡ Some K.key_text }
    {
        Some(K::key())
    }

    fn unicode_extension_value(&self, alloc: Global) -> Result<Option<Value>, AllocError>
        ensures { GivesKeyed (Some (T.gives self.now)) result }
    {
        self.unicode_extension_value_in(alloc)
    }

    fn unicode_extension_value_in<M: Memory>(&self, memory: M) -> Result<Option<Value>, AllocError>
        ensures { GivesKeyed (Some (T.gives self.now)) result }
    {
        Ok(Some(Value::from(self)))
    }
}
