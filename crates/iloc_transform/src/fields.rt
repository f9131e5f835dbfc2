//! The fields of a transform.
ghost use Rattle.std.specs.Prelude.{
  ◌≡◌,
  ◌==◌,
  ◌+◌,
  ℕ,
  List,
  [],
  ◌∷◌,
  true,
  length,
  reverse,
  OnOk,
  OnErr,
  IfOk,
  IsOk,
  Ok,
  Some,
  if◌then◌else◌,
};
ghost use Rattle.std.specs.Fn.{CalledAt};
ghost use Rattle.std.specs.FinMap.{find, put};
ghost use Rattle.std.specs.Iterator.{IsFiniteIterable, Drains};
ghost use Rattle.std.specs.List.{AllByRecursion};
ghost use Rattle.std.specs.List.Retain.{IsFiltered};
ghost use Rattle.std.specs.Option.{option_copied, is_some};
ghost use Rattle.std.specs.Result.{result_and};
ghost use Rattle.iloc_spec_grammar.specs.Syntax.{word_cmp, fields_pieces};
ghost use Rattle.iloc_spec_grammar.specs.Meaning.{map_of};
ghost use Rattle.iloc_spec_grammar.specs.Values.{spelled_fields, fields_text};
ghost use Rattle.std.specs.Ordering.{as_partial_cmp};
ghost use Rattle.std.specs.Cmp.{partial_order_from_agreeing_total};
ghost use Rattle.std.proofs.Common.{refl};
ghost use Rattle.iloc_spec_parts.specs.Orders.{fields_cmp};
ghost use Rattle.iloc_transform.specs.FieldsOrder.{fields_ties, fields_total};
ghost use Rattle.iloc_memory.specs.Refusals.{RefusedWithin};
ghost use Rattle.iloc_copying.specs.Room.{RefusedAmong};
ghost use Rattle.iloc_litemap.specs.Pairs.{HasAscendingKeys, pairs_items};
ghost use Rattle.iloc_subtags.specs.Judging.{RunsOutOnlyIf};
ghost use Rattle.iloc_subtags.specs.Left.{left};
ghost use Rattle.iloc_transform.specs.FieldsReading.{IsFieldPair, FieldsFills};

use crate::value::Value;
use iloc_copying::{Copied, Copying, FromMemory, FromOwn};
use iloc_litemap::LiteMap;
use iloc_memory::Memory;
use iloc_subtags::{ParseError, SubtagIterator, TransformKey, TransformKeyKind, take_word};
use iloc_writeable::{Pieces, Sink, Writeable};
use std::alloc::{AllocError, Global};
use std::cmp::Ordering;
use std::marker::Model;
use std::{fmt, mem};

/// The key of a field, as `m0`.
pub type Key = TransformKey;

/// A map from keys to values, kept by ascending key.
#[derive(Debug, PartialEq, Eq, Hash)]
pub struct Fields {
    map: LiteMap<Key, Value>,
}

// Written rather than derived: who lets one go then proves a call, and not what it holds.
impl Drop for Fields {
    fn drop(self) {
        let Fields { map: _map } = self;
    }
}

impl Model for Fields {
    ghost use Rattle.std.specs.List.{AllByRecursion};
    ghost use Rattle.iloc_spec_grammar.specs.Syntax as written;
    ghost use Rattle.iloc_transform.specs.FieldsReading.{IsFieldPair};

    ghost Value = { written.Fields };

    ghost view = { λ f. f.map };

    ghost invariant = { λ f. AllByRecursion IsFieldPair f.map };

    ghost inverse = { λ es. record { map = es } };
}

impl Fields {
    /// The empty map.
    pub fn new(alloc: Global) -> Self
        ensures { result ≡ [] }
    {
        Fields::new_in(alloc)
    }

    /// As `new`, from any memory. It asks for no room.
    pub fn new_in<M: Memory>(memory: M) -> Self
        ensures { result ≡ [] }
    {
        Fields {
            map: LiteMap::from_sorted_store_unchecked(memory.empty()),
        }
    }

    /// The pairs by ascending key.
    pub fn as_slice(&self) -> &[(Key, Value)]
        ensures pairs { result.now ≡ self.now }
        ensures ascending { HasAscendingKeys word_cmp self.now }
        ensures normal { AllByRecursion IsFieldPair self.now }
    {
        self.map.as_slice()
    }

    /// Whether there is no key.
    pub fn is_empty(&self) -> bool
        ensures { result ≡ (length self.now == 0) }
    {
        self.map.is_empty()
    }

    /// Leaves the empty map, and returns the old one.
    pub fn clear(&mut self, alloc: Global) -> Self
        ensures old { result ≡ self.old }
        ensures empty { self.new ≡ [] }
    {
        mem::replace(self, Fields::new(alloc))
    }

    /// Leaves the empty map.
    pub fn empty(&mut self)
        ensures { self.new ≡ [] }
    {
        self.map.clear();
    }

    /// Whether the key is there.
    pub fn contains_key(&self, key: &Key) -> bool
        ensures { result ≡ is_some (find word_cmp key.now self.now) }
    {
        self.map.contains_key(key)
    }

    /// The value of the key.
    pub fn get(&self, key: &Key) -> Option<&Value>
        ensures { option_copied result ≡ find word_cmp key.now self.now }
    {
        self.map.get(key)
    }

    /// Sets the value of the key, and returns the old one. A key that is there allocates nothing.
    ///
    /// If an allocation fails, nothing changes.
    #[inline(always)]
    pub fn set(
        &mut self,
        alloc: Global,
        key: Key,
        value: Value,
    ) -> Result<Option<Value>, AllocError>
        ensures before { IfOk result (λ before. before ≡ find word_cmp key self.old) }
        ensures ok { OnOk result (self.new ≡ put word_cmp key value self.old) }
        ensures err { OnErr result (self.new ≡ self.old) }
        ensures known { is_some (find word_cmp key self.old) ≡ true → IsOk result }
    {
        self.set_in(alloc, key, value)
    }

    /// As `set`, from any memory. Refusal: `AllocError`, only if room for at most all the fields was refused.
    #[inline(always)]
    pub fn set_in<M: Memory>(
        &mut self,
        memory: M,
        key: Key,
        value: Value,
    ) -> Result<Option<Value>, AllocError>
        ensures before { IfOk result (λ before. before ≡ find word_cmp key self.old) }
        ensures ok { OnOk result (self.new ≡ put word_cmp key value self.old) }
        ensures err { OnErr result (self.new ≡ self.old) }
        ensures known { is_some (find word_cmp key self.old) ≡ true → IsOk result }
        ensures out_of_memory { OnErr result (RefusedWithin M.refused (length self.old + 1)) }
    {
        let _ = key.as_str();
        let _ = value.as_slice();
        if let Some(old) = self.map.get_mut(&key) {
            return Ok(Some(mem::replace(old, value)));
        }
        self.insert(memory, key, value)?;
        Ok(None)
    }

    // Leaves this one field, with room for no more.
    fn put_first<M: Memory>(&mut self, memory: M, key: Key, value: Value) -> Result<(), AllocError>
        ensures ok { OnOk result (self.new ≡ (key, value) ∷ []) }
        ensures err { OnErr result (self.new ≡ self.old) }
        ensures out_of_memory { OnErr result (RefusedWithin M.refused (length self.old + 1)) }
    {
        let _ = key.as_str();
        let _ = value.as_slice();
        let mut only = memory.with_capacity(1)?;
        only.push_reserved((key, value));
        self.map = LiteMap::from_sorted_store_unchecked(only);
        Ok(())
    }

    // Sets the value of a key. It stands apart, so that `set` pays nothing for it where the key is there.
    #[inline(never)]
    fn insert<M: Memory>(&mut self, memory: M, key: Key, value: Value) -> Result<(), AllocError>
        ensures ok { OnOk result (self.new ≡ put word_cmp key value self.old) }
        ensures err { OnErr result (self.new ≡ self.old) }
        ensures out_of_memory { OnErr result (RefusedWithin M.refused (length self.old + 1)) }
    {
        let _ = key.as_str();
        let _ = value.as_slice();
        // A first field needs no place.
        if self.is_empty() {
            self.put_first(memory, key, value)?;
            return Ok(());
        }
        self.map.insert_in(memory, key, value)?;
        Ok(())
    }

    // Sets the value of a key that isn't there; else nothing changes.
    fn add<M: Memory>(&mut self, memory: M, key: Key, value: Value) -> Result<(), AllocError>
        ensures ok { OnOk result (self.new
            ≡ (if is_some (find word_cmp key self.old) then self.old
            else put word_cmp key value self.old)) }
        ensures out_of_memory { OnErr result (RefusedWithin M.refused (length self.old + 1)) }
    {
        let _ = key.as_str();
        let _ = value.as_slice();
        self.map.try_insert_in(memory, key, value)?;
        Ok(())
    }

    /// Keeps the keys for which `predicate` returns `true`. Each is asked once, ascending.
    pub fn retain_by_key<F: FnMut(&Key) -> bool + Drop>(&mut self, mut predicate: F)
        requires { F.IsAlwaysCallable predicate }
        ensures { IsFiltered (λ f e b g. CalledAt F.FnMut f e.0 b g) predicate self.old self.new }
    {
        self.map.retain(
            move |key: &Key, _value: &Value| -> bool
                requires { F.IsAlwaysCallable predicate }
                ensures asked { CalledAt F.FnMut predicate.entry key.now result predicate.exit }
                ensures callable { F.IsAlwaysCallable predicate.exit }
            { predicate(key) },
        );
    }

    /// The map of these pairs, in which the last of equal keys stays.
    pub fn from_pairs<I: IntoIterator<Item = (Key, Value)>>(
        alloc: Global,
        pairs: I,
    ) -> Result<Self, AllocError>
        requires { IsFiniteIterable I.into_iter_gives I.IntoIter.can_next
            I.IntoIter.remaining pairs }
        ensures { IfOk result
            (λ m. (it : I.IntoIter) × (xs : List (List ℕ × List (List ℕ)))
            × I.into_iter_gives pairs it × Drains I.IntoIter.next_gives it xs
            × (m ≡ map_of word_cmp (reverse xs))) }
    {
        Self::from_pairs_in(alloc, pairs)
    }

    /// As `from_pairs`, from any memory. Refusal: `AllocError`, only if room for at most the pairs so far was refused.
    pub fn from_pairs_in<M: Memory, I: IntoIterator<Item = (Key, Value)>>(
        memory: M,
        pairs: I,
    ) -> Result<Self, AllocError>
        requires { IsFiniteIterable I.into_iter_gives I.IntoIter.can_next
            I.IntoIter.remaining pairs }
        ensures value { IfOk result
            (λ m. (it : I.IntoIter) × (xs : List (List ℕ × List (List ℕ)))
            × I.into_iter_gives pairs it × Drains I.IntoIter.next_gives it xs
            × (m ≡ map_of word_cmp (reverse xs))) }
        ensures out_of_memory { OnErr result
            (RefusedAmong I.into_iter_gives I.IntoIter.next_gives M.refused pairs 0) }
    {
        let map = LiteMap::from_pairs_in(memory, pairs)?;
        Ok(Fields::from(map))
    }

    /// A copy, from any memory. Refusal: `AllocError`, only if room for at most as many items as there are in all was
    /// refused.
    pub fn clone_in<M: Memory>(&self, memory: M) -> Result<Self, AllocError>
        ensures value { IfOk result (λ copy. copy ≡ self.now) }
        ensures out_of_memory { OnErr result
            (RefusedWithin M.refused (pairs_items length self.now)) }
    {
        self.copied(FromMemory(memory))
    }
}

/// Parses keys with their values, as many as there are, into the empty map; of equal keys the first stays.
/// After a refusal it holds the fields before the fault.
pub fn fill_fields<M: Memory>(
    memory: M,
    iter: &mut SubtagIterator<'_>,
    fields: &mut Fields,
) -> Result<(), ParseError>
    requires { fields.old ≡ [] }
    ensures reads { FieldsFills (left iter.old) (left iter.new)
        (result_and result (Ok fields.new)) }
    ensures out_of_memory { RunsOutOnlyIf
        (RefusedWithin M.refused (length (left iter.old))) result }
{
    'keys: while let Some(key) = take_word::<TransformKeyKind, 2>(iter) {
        let value = Value::read_front(memory, iter)?;
        fields.add(memory, key, value)?;
    }
    Ok(())
}

impl From<LiteMap<Key, Value>> for Fields {
    ghost from_gives = { λ map fields. fields ≡ map };

    fn from(map: LiteMap<Key, Value>) -> Self {
        are_pairs(map.as_slice());
        Fields { map }
    }
}

impl Clone for Fields {
    ghost is_clone = { λ f g. g ≡ f };

    fn clone(&self) -> Result<Self, AllocError> {
        self.copied(FromOwn)
    }
}

impl Copied for Fields {
    ghost size = { pairs_items length };

    fn copied<C: Copying>(&self, copying: C) -> Result<Self, AllocError> {
        Ok(Fields {
            map: self.map.copied(copying)?,
        })
    }
}

/// Pair by pair, the key first.
impl Ord for Fields {
    ghost cmp = { fields_cmp };

    ghost total = { fields_total };

    ghost matches_partial_cmp = { λ _ _. refl };

    ghost matches_eq = { fields_ties };

    fn cmp(&self, other: &Self) -> Ordering {
        self.as_slice().cmp(&other.as_slice())
    }
}

impl PartialOrd for Fields {
    ghost partial_cmp = { as_partial_cmp fields_cmp };

    ghost laws = { partial_order_from_agreeing_total fields_cmp fields_total
        (λ _ _. refl) fields_ties };

    fn partial_cmp(&self, other: &Self) -> Option<Ordering> {
        Some(self.cmp(other))
    }
}

/// The keys, each with its value.
impl Pieces for Fields {
    ghost pieces = { λ fs. fields_pieces (spelled_fields fs) };

    fn has_pieces(&self) -> bool {
        !self.is_empty()
    }

    fn write_pieces<S: Sink>(&self, sink: &mut S, first: bool) -> fmt::Result {
        let pairs = self.as_slice();
        pairs.write_pieces(sink, first)
    }
}

/// Each key and its value with hyphens between them, an empty value as `true`.
impl Writeable for Fields {
    ghost text = { fields_text };

    #[tactic(auto, unfolding(iloc_spec_grammar::specs::Values::fields_text, iloc_spec_grammar::specs::Syntax::join))]
    fn write_to<S: Sink>(&self, sink: &mut S) -> fmt::Result {
        self.write_joined(sink)
    }

    fn writeable_borrow(&self) -> Option<&str> {
        None
    }
}

impl fmt::Display for Fields {
    ghost output = { λ fs. Some (fields_text fs) };

    fn fmt<W: fmt::Write>(&self, f: &mut fmt::Formatter<W>) -> fmt::Result {
        self.write_to(f)
    }
}

// Looks at each pair, so that keys and values are known to be normal.
fn are_pairs(pairs: &[(Key, Value)])
    ensures { AllByRecursion IsFieldPair pairs.now }
{
    for pair in pairs {
        let _ = pair.0.as_str();
        let _ = pair.1.as_slice();
    }
}
