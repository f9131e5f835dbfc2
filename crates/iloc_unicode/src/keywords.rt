//! The keywords of a unicode extension.
ghost use Rattle.std.specs.Prelude.{◌≡◌, ⊤, ◌<◌, ◌+◌, ◌==◌, ◌↔◌, ℕ, List, [], ◌∷◌, ◌++◌, true, false, length, reverse, IsTrue, OnOk, OnErr, IfOk, IsOk, if◌then◌else◌};
ghost use Rattle.std.specs.Borrow.{sem};
ghost use Rattle.std.specs.Fn.{CalledAt};
ghost use Rattle.std.specs.FinMap.{find, put};
ghost use Rattle.std.specs.Iterator.{IsFiniteIterable, Drains, YieldsFirstBy, item_count};
ghost use Rattle.std.specs.List.Retain.{IsFiltered};
ghost use Rattle.std.specs.Map.{remove_entry};
ghost use Rattle.std.specs.BTreeMap.{is_at};
ghost use Rattle.std.specs.Option.{option_copied, option_copied_mut, is_some};
ghost use Rattle.std.specs.Ordering.{as_partial_cmp};
ghost use Rattle.std.specs.Cmp.{
  decided,
  partial_equiv_from_equiv,
  partial_order_from_agreeing_total,
};
ghost use Rattle.std.specs.Hash.{same_Alike};
ghost use Rattle.std.proofs.Common.{refl};
ghost use Rattle.iloc_memory.specs.Refusals.{RefusedWithin};
ghost use Rattle.iloc_copying.specs.Room.{RefusedAmong};
ghost use Rattle.iloc_spec_grammar.specs.Syntax.{word_cmp, pieces, Fields};
ghost use Rattle.iloc_spec_grammar.specs.Meaning.{map_of, Fault};
ghost use Rattle.iloc_unicode.specs.Equality.{fields_eq};
ghost use Rattle.iloc_unicode.specs.EqualityLaws.{fields_exact};
ghost use Rattle.iloc_spec_parts.specs.Parts.{KeywordsText, KeywordsTextFault};
ghost use Rattle.iloc_subtags.specs.Judging.{Accepts, Refuses, RunsOutOnlyIf};
ghost use Rattle.iloc_unicode.specs.Reads.{KeywordsTextReads, KeywordsWantMemory};
ghost use Rattle.iloc_litemap.specs.Pairs.{HasAscendingKeys, pairs_items};

use iloc_copying::{Copied, Copying, FromMemory, FromOwn};
use iloc_litemap::LiteMap;
use iloc_memory::Memory;
use iloc_shortvec::ShortBoxSlice;
use iloc_subtags::{ParseError, SubtagIterator, UnicodeKey as Key};
use iloc_word_list::{Value, copy_of_single};
use std::alloc::{AllocError, Global};
use std::cmp::Ordering;
use std::marker::Model;
use std::mem;

/// A map from keys to values, kept by ascending key. One pair allocates nothing.
///
/// ```text
/// let mut keywords = Keywords::try_from_str(alloc, "hc-h12-ca-roc")?; // ca-roc-hc-h12
/// keywords.set(alloc, key::ca(), Value::try_from_str(alloc, "buddhist")?)?; // the old value, roc
/// keywords.get(&key::nu()); // None
/// ```
#[derive(Debug, Eq, Hash)]
pub struct Keywords {
    map: LiteMap<Key, Value, ShortBoxSlice<(Key, Value)>>,
}

// Written rather than derived: who lets one go then proves a call, and not what it holds.
impl Drop for Keywords {
    fn drop(self) {
        let Keywords { map: _map } = self;
    }
}

impl Model for Keywords {
    ghost use Rattle.iloc_spec_grammar.specs.Syntax.{Fields};

    ghost Value = { Fields };

    ghost view = { λ k. k.map };

    ghost inverse = { λ fs. record { map = fs } };
}

impl Keywords {
    ghost use Rattle.iloc_unicode.specs.Lends.{lends_value};

    /// The empty map.
    pub fn new() -> Self
        ensures { result ≡ [] }
    {
        Keywords {
            map: LiteMap::from_sorted_store_unchecked(ShortBoxSlice::new()),
        }
    }

    /// The map of this one pair.
    pub fn new_single(key: Key, value: Value) -> Self
        ensures { result ≡ (key, value) ∷ [] }
    {
        Keywords {
            map: LiteMap::from_sorted_store_unchecked(ShortBoxSlice::new_single((key, value))),
        }
    }

    /// Parses keys, each with the pieces after it, up to the first piece that is neither a key nor 3 to
    /// 8 letters or digits, and ignores the rest of the text. Of equal keys the first stays; `true` is
    /// dropped. A piece of two bytes that is met and is no key is refused by `InvalidExtension`. One key
    /// with at most four subtags allocates nothing.
    pub fn try_from_utf8(alloc: Global, code_units: &[u8]) -> Result<Self, ParseError>
        ensures reads { KeywordsTextReads code_units.now result }
        ensures accepted { (m : Fields) → KeywordsText code_units.now m
            → Accepts (λ k. k) ⊤ m result }
        ensures refused { (f : Fault) → KeywordsTextFault code_units.now f
            → Refuses ⊤ f result }
        ensures memory { RunsOutOnlyIf (KeywordsWantMemory (pieces code_units.now)) result }
    {
        Self::try_from_utf8_in(alloc, code_units)
    }

    /// As `try_from_utf8`, from any memory. `OutOfMemory` comes only if room for at most as many items as the text has
    /// bytes was refused.
    pub fn try_from_utf8_in<M: Memory>(memory: M, code_units: &[u8]) -> Result<Self, ParseError>
        ensures reads { KeywordsTextReads code_units.now result }
        ensures accepted { (m : Fields) → KeywordsText code_units.now m
            → Accepts (λ k. k) ⊤ m result }
        ensures refused { (f : Fault) → KeywordsTextFault code_units.now f
            → Refuses ⊤ f result }
        ensures memory { RunsOutOnlyIf (KeywordsWantMemory (pieces code_units.now)) result }
        ensures out_of_memory { RunsOutOnlyIf
            (RefusedWithin M.refused (length code_units.now)) result }
    {
        Self::read_text(memory, code_units)
    }

    // Parses the map. Its clauses say what is read and when memory runs out; the others follow from them.
    fn read_text<M: Memory>(memory: M, code_units: &[u8]) -> Result<Self, ParseError>
        ensures reads { KeywordsTextReads code_units.now result }
        ensures memory { RunsOutOnlyIf (KeywordsWantMemory (pieces code_units.now)) result }
        ensures out_of_memory { RunsOutOnlyIf
            (RefusedWithin M.refused (length code_units.now)) result }
    {
        Self::try_from_iter(memory, &mut SubtagIterator::new(code_units))
    }

    /// Parses a `str`, as `try_from_utf8` parses bytes.
    pub fn try_from_str(alloc: Global, s: &str) -> Result<Self, ParseError>
        ensures reads { KeywordsTextReads s.now result }
        ensures accepted { (m : Fields) → KeywordsText s.now m
            → Accepts (λ k. k) ⊤ m result }
        ensures refused { (f : Fault) → KeywordsTextFault s.now f
            → Refuses ⊤ f result }
        ensures memory { RunsOutOnlyIf (KeywordsWantMemory (pieces s.now)) result }
    {
        Keywords::try_from_utf8_in(alloc, s.as_bytes())
    }

    /// Parses a `str`, as `try_from_utf8_in` parses bytes.
    pub fn try_from_str_in<M: Memory>(memory: M, s: &str) -> Result<Self, ParseError>
        ensures reads { KeywordsTextReads s.now result }
        ensures accepted { (m : Fields) → KeywordsText s.now m
            → Accepts (λ k. k) ⊤ m result }
        ensures refused { (f : Fault) → KeywordsTextFault s.now f
            → Refuses ⊤ f result }
        ensures memory { RunsOutOnlyIf (KeywordsWantMemory (pieces s.now)) result }
        ensures out_of_memory { RunsOutOnlyIf (RefusedWithin M.refused (length s.now)) result }
    {
        Keywords::try_from_utf8_in(memory, s.as_bytes())
    }

    /// Whether there is no key.
    pub fn is_empty(&self) -> bool
        ensures { result ≡ (length self.now == 0) }
    {
        self.map.is_empty()
    }

    /// The pairs by ascending key.
    pub fn as_slice(&self) -> &[(Key, Value)]
        ensures pairs { result.now ≡ self.now }
        ensures ascending { HasAscendingKeys word_cmp self.now }
    {
        self.map.as_slice()
    }

    /// The value of the key.
    #[inline(always)]
    pub fn get(&self, key: &Key) -> Option<&Value>
        ensures { option_copied result ≡ find word_cmp key.now self.now }
    {
        match self.as_slice() {
            [(only, value)] => if *key == *only { Some(value) } else { None },
            pairs if pairs.len() <= 8 => value_among(pairs, key),
            _ => self.value_of_many(key),
        }
    }

    // The value of the key among more pairs. It stands apart, so that few pairs pay nothing for it.
    #[inline(never)]
    fn value_of_many(&self, key: &Key) -> Option<&Value>
        requires { 0 < length self.now }
        ensures { option_copied result ≡ find word_cmp key.now self.now }
    {
        match self.as_slice() {
            pairs if pairs.len() <= 16 => value_in_half(pairs, key),
            _ => self.map.get(key),
        }
    }

    /// The value of the key, for writing.
    #[inline(never)]
    pub fn get_mut(&mut self, key: &Key) -> Option<&mut Value>
        ensures* writes_back { sem 𝓛 (lends_value self.entry key.now result) }
        ensures value { option_copied_mut result ≡ find word_cmp key.now self.old }
    {
        self.map.get_mut(key)
    }

    /// Whether the key is there.
    pub fn contains_key(&self, key: &Key) -> bool
        ensures { result ≡ is_some (find word_cmp key.now self.now) }
    {
        self.get(key).is_some()
    }

    /// Sets the value of the key, and returns the old one. If an allocation fails, nothing changes.
    #[inline(always)]
    pub fn set(
        &mut self,
        alloc: Global,
        key: Key,
        value: Value,
    ) -> Result<Option<Value>, AllocError>
        ensures before { IfOk result (λ before. before ≡ find word_cmp key self.old) }
        ensures ok { OnOk result (self.new ≡ put word_cmp key value self.old) }
        ensures err { OnErr result (self.new ≡ self.old) }
        ensures succeeds { length self.old < 1 → IsOk result }
        ensures known { is_some (find word_cmp key self.old) ≡ true → IsOk result }
    {
        self.set_in(alloc, key, value)
    }

    /// As `set`, from any memory. Refusal: `AllocError`, only if room for at most all the keywords was refused.
    #[inline(always)]
    pub fn set_in<M: Memory>(
        &mut self,
        memory: M,
        key: Key,
        value: Value,
    ) -> Result<Option<Value>, AllocError>
        ensures before { IfOk result (λ before. before ≡ find word_cmp key self.old) }
        ensures ok { OnOk result (self.new ≡ put word_cmp key value self.old) }
        ensures err { OnErr result (self.new ≡ self.old) }
        ensures succeeds { length self.old < 1 → IsOk result }
        ensures known { is_some (find word_cmp key self.old) ≡ true → IsOk result }
        ensures out_of_memory { OnErr result (RefusedWithin M.refused (length self.old + 1)) }
    {
        // A first pair needs no place.
        if self.is_empty() {
            self.put_first(key, value);
            return Ok(None);
        }
        if self.is_new(&key) {
            self.put_new(memory, key, value)?;
            return Ok(None);
        }
        if let Some(old) = self.get_mut(&key) {
            return Ok(Some(mem::replace(old, value)));
        }
        self.put_new(memory, key, value)?;
        Ok(None)
    }

    // Whether there are one or two keys, and the key is another.
    #[inline(always)]
    fn is_new(&self, key: &Key) -> bool
        ensures { IsTrue result → find word_cmp key.now self.now ≡ None }
    {
        match self.as_slice() {
            [(only, _)] => *key != *only,
            [(first, _), (second, _)] => *key != *first && *key != *second,
            _ => false,
        }
    }

    // Sets the value of a key. It stands apart, so that a key that is there pays nothing for a new one.
    #[inline(never)]
    fn put_new<M: Memory>(&mut self, memory: M, key: Key, value: Value) -> Result<(), AllocError>
        ensures ok { OnOk result (self.new ≡ put word_cmp key value self.old) }
        ensures err { OnErr result (self.new ≡ self.old) }
        ensures out_of_memory { OnErr result (RefusedWithin M.refused (length self.old + 1)) }
    {
        self.map.insert_in(memory, key, value)?;
        Ok(())
    }

    // Leaves this one pair. As a call apart it takes fewer instructions, also where LLVM inlines it.
    fn put_first(&mut self, key: Key, value: Value)
        ensures { self.new ≡ (key, value) ∷ [] }
    {
        *self = Keywords::new_single(key, value);
    }

    // Copies the only pair over another map, if its value is one subtag. Else it returns `false`, and nothing changes.
    #[inline(always)]
    fn copy_single(&self, to: &mut Keywords) -> bool
        ensures copied { IsTrue result → to.new ≡ self.now }
        ensures kept { result ≡ false → to.new ≡ to.old }
    {
        if let [(key, value)] = self.as_slice() {
            if let Some(value) = copy_of_single(value) {
                to.put_first(*key, value);
                return true;
            }
        }
        false
    }

    // Copies the only pair over another map, if its value has at most one subtag. Else it returns `false`, and nothing
    // changes. At one subtag it takes two instructions more than `copy_single`.
    #[inline(always)]
    pub(crate) fn copy_short(&self, to: &mut Keywords) -> bool
        ensures copied { IsTrue result → to.new ≡ self.now }
        ensures kept { result ≡ false → to.new ≡ to.old }
    {
        if let [(key, value)] = self.as_slice() {
            if let Some(single) = copy_of_single(value) {
                to.put_first(*key, single);
                return true;
            }
            if value.is_empty() {
                to.put_first(*key, Value::new_empty());
                return true;
            }
        }
        false
    }

    // Copies the pairs over an empty map. It stands apart, so that a key with one subtag pays nothing for it. Each case
    // writes the copy itself: joined first it would be moved once more.
    #[inline(never)]
    pub(crate) fn copy_onto<C: Copying>(
        &self,
        copying: C,
        to: &mut Keywords,
    ) -> Result<(), AllocError>
        requires { to.old ≡ [] }
        ensures value { OnOk result (to.new ≡ self.now) }
        ensures out_of_memory { OnErr result
            (RefusedWithin C.Room.refused (pairs_items length self.now)) }
    {
        match self.as_slice() {
            [] => {}
            [(key, value)] => {
                to.write(Keywords::new_single(*key, value.copied(copying)?));
            }
            _ => {
                let map = self.map.copied(copying)?;
                to.write(Keywords { map });
            }
        }
        Ok(())
    }

    // Writes a map over an empty one, of which nothing is dropped.
    #[inline(always)]
    fn write(&mut self, map: Keywords)
        requires { self.old ≡ [] }
        ensures { self.new ≡ map }
    {
        if !self.is_empty() {
            unreachable!();
        }
        *self = map;
    }

    // Sets the value of a key that isn't there; else nothing changes.
    pub(crate) fn add<M: Memory>(
        &mut self,
        memory: M,
        key: Key,
        value: Value,
    ) -> Result<(), AllocError>
        ensures ok { OnOk result (self.new
            ≡ (if is_some (find word_cmp key self.old) then self.old
            else put word_cmp key value self.old)) }
        ensures err { OnErr result (self.new ≡ self.old) }
        ensures succeeds { length self.old < 1 → IsOk result }
        ensures known { is_some (find word_cmp key self.old) ≡ true → IsOk result }
        ensures out_of_memory { OnErr result (RefusedWithin M.refused (length self.old + 1)) }
    {
        self.map.try_insert_in(memory, key, value)?;
        Ok(())
    }

    /// Takes the key out, and returns its value.
    pub fn remove(&mut self, key: &Key) -> Option<Value>
        ensures value { result ≡ find word_cmp key.now self.old }
        ensures removed { self.new ≡ remove_entry (is_at (word_cmp key.now)) self.old }
    {
        self.map.remove(key)
    }

    /// Leaves the empty map, and returns the old one.
    pub fn clear(&mut self) -> Self
        ensures old { result ≡ self.old }
        ensures empty { self.new ≡ [] }
    {
        mem::replace(self, Keywords::new())
    }

    /// Keeps the keys for which `predicate` returns `true`. Each is asked once, ascending.
    pub fn retain_by_key<F: FnMut(&Key) -> bool + Drop>(&mut self, mut predicate: F)
        requires { F.IsAlwaysCallable predicate }
        ensures { IsFiltered (λ f e b g. CalledAt F.FnMut f e.0 b g) predicate self.old self.new }
    {
        self.map.retain(
            move |key: &Key, _value: &Value| -> bool
                requires { F.IsAlwaysCallable predicate }
                ensures asked { CalledAt F.FnMut predicate.entry key.now result predicate.exit }
                ensures callable { F.IsAlwaysCallable predicate.exit }
            { predicate(key) },
        );
    }

    /// The pairs by ascending key.
    pub fn iter(&self) -> KeywordsIter<'_>
        ensures { result ≡ self.now }
    {
        KeywordsIter {
            rest: self.as_slice(),
        }
    }

    /// Sets each pair of the other, so that for equal keys the other's value wins. If an
    /// allocation fails, nothing changes.
    pub fn extend_from_keywords(&mut self, alloc: Global, other: Keywords) -> Result<(), AllocError>
        ensures ok { OnOk result (self.new ≡ map_of word_cmp (other ++ self.old)) }
        ensures err { OnErr result (self.new ≡ self.old) }
        ensures succeeds { length other ≡ 0 → IsOk result }
    {
        self.extend_from_keywords_in(alloc, other)
    }

    /// As `extend_from_keywords`, from any memory. Refusal: `AllocError`, only if room for at most the keywords of both was
    /// refused.
    pub fn extend_from_keywords_in<M: Memory>(
        &mut self,
        memory: M,
        other: Keywords,
    ) -> Result<(), AllocError>
        ensures ok { OnOk result (self.new ≡ map_of word_cmp (other ++ self.old)) }
        ensures err { OnErr result (self.new ≡ self.old) }
        ensures succeeds { length other ≡ 0 → IsOk result }
        ensures out_of_memory { OnErr result
            (RefusedWithin M.refused (length self.old + length other)) }
    {
        if let [_] = other.as_slice() {
            return self.set_only(memory, other);
        }
        self.set_all(memory, other)
    }

    // Sets each pair of the other.
    #[inline(never)]
    fn set_all<M: Memory>(&mut self, memory: M, other: Keywords) -> Result<(), AllocError>
        ensures ok { OnOk result (self.new ≡ map_of word_cmp (other ++ self.old)) }
        ensures err { OnErr result (self.new ≡ self.old) }
        ensures succeeds { length other ≡ 0 → IsOk result }
        ensures out_of_memory { OnErr result
            (RefusedWithin M.refused (length self.old + length other)) }
    {
        let _ = other.as_slice();
        if self.is_among(&other) {
            *self = other;
            return Ok(());
        }
        let Keywords { map } = other;
        self.map.extend_from_map_in(memory, map)
    }

    // Whether there is at most one key, and the other has it.
    #[inline(always)]
    fn is_among(&self, other: &Keywords) -> bool
        ensures { IsTrue result → map_of word_cmp (other.now ++ self.now) ≡ other.now }
    {
        let _ = other.as_slice();
        match self.as_slice() {
            [] => true,
            [(only, _)] => other.contains_key(only),
            _ => false,
        }
    }

    // Sets the pair of a map that has no other.
    #[inline(never)]
    fn set_only<M: Memory>(&mut self, memory: M, only: Keywords) -> Result<(), AllocError>
        requires { length only ≡ 1 }
        ensures ok { OnOk result (self.new ≡ map_of word_cmp (only ++ self.old)) }
        ensures err { OnErr result (self.new ≡ self.old) }
        ensures out_of_memory { OnErr result (RefusedWithin M.refused (length self.old + 1)) }
    {
        let _ = self.as_slice();
        let Keywords { map } = only;
        match map.into_iter().next() {
            Some((key, value)) => self.put_new(memory, key, value),
            None => unreachable!(),
        }
    }

    /// The map of these pairs, in which the last of equal keys stays.
    pub fn from_pairs<I: IntoIterator<Item = (Key, Value)>>(
        alloc: Global,
        pairs: I,
    ) -> Result<Self, AllocError>
        requires { IsFiniteIterable I.into_iter_gives I.IntoIter.can_next
            I.IntoIter.remaining pairs }
        ensures { IfOk result
            (λ m. (it : I.IntoIter) × (xs : List (List ℕ × List (List ℕ)))
            × I.into_iter_gives pairs it × Drains I.IntoIter.next_gives it xs
            × (m ≡ map_of word_cmp (reverse xs))) }
    {
        Self::from_pairs_in(alloc, pairs)
    }

    /// As `from_pairs`, from any memory. Refusal: `AllocError`, only if room for at most the pairs so far was refused.
    pub fn from_pairs_in<M: Memory, I: IntoIterator<Item = (Key, Value)>>(
        memory: M,
        pairs: I,
    ) -> Result<Self, AllocError>
        requires { IsFiniteIterable I.into_iter_gives I.IntoIter.can_next
            I.IntoIter.remaining pairs }
        ensures value { IfOk result
            (λ m. (it : I.IntoIter) × (xs : List (List ℕ × List (List ℕ)))
            × I.into_iter_gives pairs it × Drains I.IntoIter.next_gives it xs
            × (m ≡ map_of word_cmp (reverse xs))) }
        ensures out_of_memory { OnErr result
            (RefusedAmong I.into_iter_gives I.IntoIter.next_gives M.refused pairs 0) }
    {
        let map = LiteMap::from_pairs_in(memory, pairs)?;
        Ok(Keywords { map })
    }

    /// A copy, from any memory. Refusal: `AllocError`, only if room for at most as many items as there are in all was
    /// refused.
    pub fn clone_in<M: Memory>(&self, memory: M) -> Result<Self, AllocError>
        ensures value { IfOk result (λ copy. copy ≡ self.now) }
        ensures out_of_memory { OnErr result
            (RefusedWithin M.refused (pairs_items length self.now)) }
    {
        self.copied(FromMemory(memory))
    }
}

impl From<LiteMap<Key, Value, ShortBoxSlice<(Key, Value)>>> for Keywords {
    ghost from_gives = { λ map keywords. keywords ≡ map };

    fn from(map: LiteMap<Key, Value, ShortBoxSlice<(Key, Value)>>) -> Self {
        Keywords { map }
    }
}

/// Equal are maps of the same keys to the same values.
impl PartialEq for Keywords {
    ghost eq = { fields_eq };

    ghost laws = { partial_equiv_from_equiv (decided fields_eq fields_exact) };

    fn eq(&self, other: &Self) -> bool
        ensures value { result ≡ fields_eq self.now other.now }
        ensures equality { IsTrue result ↔ (self.now ≡ other.now) }
    {
        self.map == other.map
    }
}

#[derived]
impl Eq for Keywords {
    ghost laws = { decided fields_eq fields_exact };
}

#[derived]
impl Hash for Keywords {
    ghost respects_eq = { (same_Alike _ fields_exact).fed };
}

/// The pairs in order, as a short list, the key first.
impl Ord for Keywords {
    ghost use Rattle.iloc_spec_parts.specs.Orders.{keywords_cmp};
    ghost use Rattle.iloc_unicode.specs.KeywordsOrder.{keywords_total, keywords_ties};

    ghost cmp = { keywords_cmp };

    ghost total = { keywords_total };

    ghost matches_partial_cmp = { λ _ _. refl };

    ghost matches_eq = { keywords_ties };

    fn cmp(&self, other: &Self) -> Ordering {
        let (own, others) = (self.as_slice(), other.as_slice());
        match (own.len() > 1, others.len() > 1) {
            (false, true) => Ordering::Less,
            (true, false) => Ordering::Greater,
            _ => own.cmp(&others),
        }
    }
}

impl PartialOrd for Keywords {
    ghost use Rattle.iloc_spec_parts.specs.Orders.{keywords_cmp};
    ghost use Rattle.iloc_unicode.specs.KeywordsOrder.{keywords_total, keywords_ties};

    ghost partial_cmp = { as_partial_cmp keywords_cmp };

    ghost laws = { partial_order_from_agreeing_total keywords_cmp keywords_total
        (λ _ _. refl) keywords_ties };

    fn partial_cmp(&self, other: &Self) -> Option<Ordering> {
        Some(self.cmp(other))
    }
}

impl Default for Keywords {
    ghost is_default = { λ keywords. keywords ≡ [] };

    fn default() -> Self {
        Keywords::new()
    }
}

impl Clone for Keywords {
    ghost is_clone = { λ a b. b ≡ a };

    #[inline(always)]
    fn clone(&self) -> Result<Self, AllocError> {
        self.copied(FromOwn)
    }
}

/// Copies keywords over an empty map: returned by value they would be moved twice more. Refusal: `AllocError`, only if room
/// for at most as many items as there are in all was refused.
#[inline(always)]
pub fn copy_over<C: Copying>(
    from: &Keywords,
    copying: C,
    to: &mut Keywords,
) -> Result<(), AllocError>
    requires { to.old ≡ [] }
    ensures value { OnOk result (to.new ≡ from.now) }
    ensures out_of_memory { OnErr result
        (RefusedWithin C.Room.refused (pairs_items length from.now)) }
{
    if from.copy_single(to) {
        return Ok(());
    }
    from.copy_onto(copying, to)
}

impl Copied for Keywords {
    ghost size = { pairs_items length };

    #[inline(always)]
    fn copied<C: Copying>(&self, copying: C) -> Result<Self, AllocError> {
        let mut copy = Keywords::new();
        copy_over(self, copying, &mut copy)?;
        Ok(copy)
    }
}

/// The pairs of keywords by ascending key, seen as those that are left.
#[derive(Drop)]
pub struct KeywordsIter<'a> {
    rest: &'a [(Key, Value)],
}

impl<'a> Model for KeywordsIter<'a> {
    ghost use Rattle.iloc_spec_grammar.specs.Syntax.{Fields};

    ghost Value = { Fields };

    ghost view = { λ it. it.rest.now };
}

impl<'a> Iterator for KeywordsIter<'a> {
    type Item = (&'a Key, &'a Value);

    ghost next_gives = { YieldsFirstBy (λ x. (x.0.now, x.1.now)) (λ rest. rest) };

    ghost remaining = { item_count (λ rest. rest) };

    fn next(&mut self) -> Option<(&'a Key, &'a Value)> {
        let (first, rest) = self.rest.split_first()?;
        self.rest = rest;
        Some((&first.0, &first.1))
    }
}

// The value of the key among pairs, each of which is compared for equality alone.
#[inline(always)]
fn value_among<'a>(pairs: &'a [(Key, Value)], key: &Key) -> Option<&'a Value>
    ensures { option_copied result ≡ find word_cmp key.now pairs.now }
{
    for pair in pairs {
        if *key == pair.0 {
            return Some(&pair.1);
        }
    }
    None
}

// The value of the key among more ascending pairs, of which one half is left out.
fn value_in_half<'a>(pairs: &'a [(Key, Value)], key: &Key) -> Option<&'a Value>
    requires ascending { HasAscendingKeys word_cmp pairs.now }
    requires some { 0 < length pairs.now }
    ensures { option_copied result ≡ find word_cmp key.now pairs.now }
{
    let middle = pairs.len() / 2;
    if key.cmp(&pairs[middle].0).is_lt() {
        value_among(&pairs[..middle], key)
    } else {
        value_among(&pairs[middle..], key)
    }
}
