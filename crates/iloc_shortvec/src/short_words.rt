//! A list that keeps up to four items in place.
ghost use Rattle.std.specs.Prelude.{◌≡◌, ◌==◌, ◌<◌, ◌≤◌, ◌+◌, ◌^◌, List, [], ◌∷◌, ◌++◌, length, IsOk, IfOk, OnOk, OnErr, insert, remove, slice_get, Some, refl};
ghost use Rattle.std.specs.Borrow.{sem};
ghost use Rattle.std.specs.Option.{option_copied};
ghost use Rattle.std.specs.List.Retain.{IsFiltered};
ghost use Rattle.std.specs.Fn.{CalledAt};
ghost use Rattle.std.specs.Hash as fed;
ghost use Rattle.std.specs.Fmt.{debug_list};
ghost use Rattle.std.specs.Iterator.{IsFiniteIterable, Drains, YieldsFirst, item_count};
ghost use Rattle.std.specs.Iterator.Adapters.{IterYieldsInOrder};
ghost use Rattle.std.specs.Slice.Iter.{iter_rest};
ghost use Rattle.std.specs.Ordering.{as_partial_cmp};
ghost use Rattle.std.specs.Cmp.{partial_order_from_agreeing_total};
ghost use Rattle.std.specs.Cmp.Lexicographic.{pointwise, lists_per, lists_equiv};
ghost use Rattle.iloc_shortvec.specs.ShortList.{only_of};
ghost use Rattle.iloc_spec_grammar.specs.ShortLists.{short_cmp};
ghost use Rattle.iloc_shortvec.specs.ShortOrder.{short_total, short_ties};
ghost use Rattle.iloc_memory.specs.Refusals.{RefusedWithin};
ghost use Rattle.iloc_copying.specs.Room.{RefusedAmong};

use crate::few::{Count, Few};
use crate::items::{Nothing, compare};
use crate::kept::{Kept, Left, kept_of};
use iloc_copying::{Copied, Copying, FromMemory, FromOwn, copy_of};
use iloc_memory::Memory;
use std::alloc::{AllocError, Global};
use std::cmp::Ordering;
use std::hash::{Hash, Hasher};
use std::marker::Model;
use std::{fmt, slice};

/// A list of `Copy` items. Up to four are kept in the value, and five or more in a `Vec`.
///
/// Contracts see it as the list of its items: an unused place counts for nothing. It is made for words, of which texts
/// seldom have more than four in one list.
#[derive(Drop)]
pub struct ShortWords<T: Copy> {
    kept: Kept<T>,
}

impl<T: Copy> Model for ShortWords<T> {
    ghost use Rattle.std.specs.Prelude.{List};
    ghost use Rattle.iloc_shortvec.specs.Kept.{items_of, IsKept};

    ghost Value = { List T };

    ghost view = { λ s. items_of s.kept };

    ghost invariant = { λ s. IsKept s.kept };
}

impl<T: Copy> ShortWords<T> {
    ghost use Rattle.iloc_shortvec.specs.ShortWordsLends.{lends_slice};

    /// The empty list.
    pub fn new() -> Self
        ensures { result ≡ [] }
    {
        let kept = Kept::Empty(Nothing::new());
        ShortWords { kept }
    }

    /// The list of this one item.
    pub fn new_single(item: T) -> Self
        ensures { result ≡ item ∷ [] }
    {
        let kept = Kept::Inline(Count::of(1), Few::one(item));
        ShortWords { kept }
    }

    /// The list of these two items, which allocates nothing.
    pub fn new_double(alloc: Global, first: T, second: T) -> Result<Self, AllocError>
        ensures value { IfOk result (λ list. list ≡ first ∷ second ∷ []) }
        ensures succeeds { IsOk result }
    {
        Self::new_double_in(alloc, first, second)
    }

    /// As `new_double`, from any memory. It asks for no room.
    pub fn new_double_in<M: Memory>(_memory: M, first: T, second: T) -> Result<Self, AllocError>
        ensures value { IfOk result (λ list. list ≡ first ∷ second ∷ []) }
        ensures succeeds { IsOk result }
        ensures out_of_memory { OnErr result (RefusedWithin M.refused 2) }
    {
        let kept = Kept::Inline(Count::of(2), Few::two(first, second));
        Ok(ShortWords { kept })
    }

    /// The items.
    pub fn as_slice(&self) -> &[T]
        ensures { result.now ≡ self.now }
    {
        self.kept.as_slice()
    }

    /// The items for writing. Once the borrow ends, the list is what the slice shows last.
    pub fn as_mut_slice(&mut self) -> &mut [T]
        ensures* writes_back { sem 𝓛 (lends_slice T.row self.entry result) }
        ensures value { result.now ≡ self.old }
    {
        self.kept.as_mut_slice()
    }

    /// How many items there are.
    pub fn len(&self) -> usize
        ensures { result ≡ length self.now }
    {
        self.as_slice().len()
    }

    /// Whether there is no item.
    pub fn is_empty(&self) -> bool
        ensures { result ≡ (length self.now == 0) }
    {
        self.as_slice().is_empty()
    }

    /// The item of a list of exactly one.
    pub fn single(&self) -> Option<&T>
        ensures { option_copied result ≡ only_of self.now }
    {
        self.kept.single()
    }

    /// The item of a list of exactly one, by value.
    pub fn into_single(self) -> Option<T>
        ensures { result ≡ only_of self }
    {
        self.single().copied()
    }

    /// The item at a place, `None` from the length on.
    pub fn get(&self, index: usize) -> Option<&T>
        ensures { option_copied result ≡ slice_get self.now index }
    {
        self.kept.get(index)
    }

    /// The first item, if there is one.
    pub fn first(&self) -> Option<&T>
        ensures { option_copied result ≡ slice_get self.now 0 }
    {
        self.as_slice().first()
    }

    /// References to the items, in the list's order.
    pub fn iter(&self) -> slice::Iter<'_, T>
        ensures rest { iter_rest result ≡ self.now }
        ensures bound { length (iter_rest result) < 2 ^ 64 }
        ensures runs { IterYieldsInOrder T }
    {
        self.as_slice().iter()
    }

    /// Puts an item at a place. Up to four items allocate nothing. Refusal: `AllocError`, and the list is as before.
    pub fn insert(&mut self, alloc: Global, index: usize, item: T) -> Result<(), AllocError>
        requires { index ≤ length self.old }
        ensures ok { OnOk result (self.new ≡ insert self.old index item) }
        ensures err { OnErr result (self.new ≡ self.old) }
        ensures succeeds { length self.old < 4 → IsOk result }
    {
        self.insert_in(alloc, index, item)
    }

    /// As `insert`, from any memory. Refusal: `AllocError`, only if room for at most all the items was refused.
    pub fn insert_in<M: Memory>(
        &mut self,
        memory: M,
        index: usize,
        item: T,
    ) -> Result<(), AllocError>
        requires { index ≤ length self.old }
        ensures ok { OnOk result (self.new ≡ insert self.old index item) }
        ensures err { OnErr result (self.new ≡ self.old) }
        ensures succeeds { length self.old < 4 → IsOk result }
        ensures out_of_memory { OnErr result (RefusedWithin M.refused (length self.old + 1)) }
    {
        if self.len() < 4 {
            self.kept.insert_short(index, item);
            return Ok(());
        }
        self.kept.insert_long(memory, index, item)
    }

    /// Adds an item at the end. Up to four items allocate nothing. Refusal: `AllocError`, and the list is as before.
    pub fn push(&mut self, alloc: Global, item: T) -> Result<(), AllocError>
        ensures ok { OnOk result (self.new ≡ self.old ++ item ∷ []) }
        ensures err { OnErr result (self.new ≡ self.old) }
        ensures succeeds { length self.old < 4 → IsOk result }
    {
        self.push_in(alloc, item)
    }

    /// As `push`, from any memory. Refusal: `AllocError`, only if room for at most all the items was refused.
    pub fn push_in<M: Memory>(&mut self, memory: M, item: T) -> Result<(), AllocError>
        ensures ok { OnOk result (self.new ≡ self.old ++ item ∷ []) }
        ensures err { OnErr result (self.new ≡ self.old) }
        ensures succeeds { length self.old < 4 → IsOk result }
        ensures out_of_memory { OnErr result (RefusedWithin M.refused (length self.old + 1)) }
    {
        self.insert_in(memory, self.len(), item)
    }

    /// Adds copies of the items at the end, all of them or none. Up to four in all allocate nothing. Refusal: `AllocError`,
    /// and the list is as before.
    pub fn extend_from_slice(&mut self, alloc: Global, items: &[T]) -> Result<(), AllocError>
        ensures ok { OnOk result (self.new ≡ self.old ++ items.now) }
        ensures err { OnErr result (self.new ≡ self.old) }
        ensures succeeds { length self.old + length items.now ≤ 4 → IsOk result }
    {
        self.extend_from_slice_in(alloc, items)
    }

    /// As `extend_from_slice`, from any memory. Refusal: `AllocError`, only if room for at most all the items was refused.
    pub fn extend_from_slice_in<M: Memory>(
        &mut self,
        memory: M,
        items: &[T],
    ) -> Result<(), AllocError>
        ensures ok { OnOk result (self.new ≡ self.old ++ items.now) }
        ensures err { OnErr result (self.new ≡ self.old) }
        ensures succeeds { length self.old + length items.now ≤ 4 → IsOk result }
        ensures out_of_memory { OnErr result
            (RefusedWithin M.refused (length self.old + length items.now)) }
    {
        let len = self.len();
        if len <= 4 && items.len() <= 4 - len {
            self.kept.extend_short(items);
            return Ok(());
        }
        self.kept.extend_long(memory, items)
    }

    /// Takes the item at a place out. A list that falls to four items keeps them in the value.
    pub fn remove(&mut self, index: usize) -> T
        requires { index < length self.old }
        ensures value { slice_get self.old index ≡ Some result }
        ensures rest { self.new ≡ remove self.old index }
    {
        let item = self.as_slice()[index];
        self.kept.take_out(index);
        self.kept.settle();
        item
    }

    /// The list of these items, over the same `Vec` if they are five or more.
    pub fn from_vec(items: Vec<T>) -> Self
        ensures { result ≡ items.items }
    {
        let kept = if items.len() <= 4 {
            Kept::from_short(items.as_slice())
        } else {
            Kept::Heap(items)
        };
        ShortWords { kept }
    }

    /// Leaves the empty list.
    pub fn clear(&mut self)
        ensures { self.new ≡ [] }
    {
        self.kept = Kept::Empty(Nothing::new());
    }

    /// Keeps the items at which `keep` says so. Each is asked once, in order.
    pub fn retain<F: FnMut(&T) -> bool + Drop>(&mut self, mut keep: F)
        requires { F.IsAlwaysCallable keep }
        ensures { IsFiltered (CalledAt F.FnMut) keep self.old self.new }
    {
        match &mut self.kept {
            Kept::Empty(_) => {}
            Kept::Inline(count, few) => self.kept = kept_of(few.as_slice(*count), keep),
            Kept::Heap(items) => {
                items.retain(keep);
                self.kept.settle();
            }
        }
    }

    /// The list of what the iterator gives, in its order. Refusal: `AllocError`.
    pub fn from_iter<I: IntoIterator<Item = T>>(alloc: Global, iter: I) -> Result<Self, AllocError>
        requires ends { IsFiniteIterable I.into_iter_gives I.IntoIter.can_next
            I.IntoIter.remaining iter }
        ensures { IfOk result
            (λ list. (it : I.IntoIter) × I.into_iter_gives iter it
            × Drains I.IntoIter.next_gives it list) }
    {
        Self::from_iter_in(alloc, iter)
    }

    /// As `from_iter`, from any memory. Refusal: `AllocError`, only if room for at most the items so far was refused.
    pub fn from_iter_in<M: Memory, I: IntoIterator<Item = T>>(
        memory: M,
        iter: I,
    ) -> Result<Self, AllocError>
        requires ends { IsFiniteIterable I.into_iter_gives I.IntoIter.can_next
            I.IntoIter.remaining iter }
        ensures value { IfOk result
            (λ list. (it : I.IntoIter) × I.into_iter_gives iter it
            × Drains I.IntoIter.next_gives it list) }
        ensures out_of_memory { OnErr result
            (RefusedAmong I.into_iter_gives I.IntoIter.next_gives M.refused iter 0) }
    {
        let mut list = ShortWords::new();
        for item in iter {
            list.push_in(memory, item)?;
        }
        Ok(list)
    }

    /// A copy. Up to four items allocate nothing. Refusal: `AllocError`.
    pub fn clone(&self) -> Result<Self, AllocError>
        ensures value { IfOk result (λ copy. copy ≡ self.now) }
        ensures succeeds { length self.now ≤ 4 → IsOk result }
    {
        self.copied(FromOwn)
    }

    /// As `clone`, from any memory. Refusal: `AllocError`, only if room for at most all the items was refused.
    pub fn clone_in<M: Memory>(&self, memory: M) -> Result<Self, AllocError>
        ensures value { IfOk result (λ copy. copy ≡ self.now) }
        ensures succeeds { length self.now ≤ 4 → IsOk result }
        ensures out_of_memory { OnErr result (RefusedWithin M.refused (length self.now)) }
    {
        self.copied(FromMemory(memory))
    }
}

impl<T: Copy> Copied for ShortWords<T> {
    ghost size = { length };

    fn copied<C: Copying>(&self, copying: C) -> Result<Self, AllocError>
        ensures value { IfOk result (λ copy. copy ≡ self.now) }
        ensures succeeds { length self.now ≤ 4 → IsOk result }
        ensures out_of_memory { OnErr result (RefusedWithin C.Room.refused (length self.now)) }
    {
        let kept = match &self.kept {
            Kept::Heap(items) => {
                Kept::Heap(copy_of(copying.memory_for(items), items.as_slice())?)
            }
            Kept::Inline(count, few) => Kept::Inline(*count, few.copied()),
            Kept::Empty(_) => Kept::Empty(Nothing::new()),
        };
        Ok(ShortWords { kept })
    }
}

/// The empty list.
impl<T: Copy> Default for ShortWords<T> {
    ghost is_default = { λ list. list ≡ [] };

    fn default() -> Self {
        ShortWords::new()
    }
}

/// Prints as a slice of the items does.
impl<T: Copy + fmt::Debug> fmt::Debug for ShortWords<T> {
    ghost debug_output = { debug_list T.debug_output };

    fn fmt<W: fmt::Write>(&self, f: &mut fmt::Formatter<W>) -> fmt::Result {
        fmt::Debug::fmt(&self.as_slice(), f)
    }
}

/// Item by item.
impl<T: Copy + PartialEq> PartialEq for ShortWords<T> {
    ghost eq = { pointwise T.eq };

    ghost laws = { lists_per T.laws };

    fn eq(&self, other: &Self) -> bool {
        // Most lists that are compared are both empty.
        match (&self.kept, &other.kept) {
            (Kept::Empty(_), Kept::Empty(_)) => true,
            _ => self.as_slice() == other.as_slice(),
        }
    }
}

impl<T: Copy + Eq> Eq for ShortWords<T> {
    ghost laws = { lists_equiv T.Eq.laws };
}

impl<T: Copy + Hash> Hash for ShortWords<T> {
    ghost hash_input = { fed.slice T.hash_input };

    ghost respects_eq = { (fed.items_Alike (record { fed = T.respects_eq })).fed };

    fn hash<H: Hasher>(&self, state: &mut H) {
        self.as_slice().hash(state);
    }
}

/// Lists of at most one item before all longer ones, and item by item within each class.
impl<T: Copy + Ord> Ord for ShortWords<T> {
    ghost cmp = { short_cmp T.cmp };

    ghost total = { short_total T.total };

    ghost matches_partial_cmp = { λ _ _. refl };

    ghost matches_eq = { λ xs ys. short_ties T.cmp T.matches_eq xs ys };

    fn cmp(&self, other: &Self) -> Ordering {
        compare(self.as_slice(), other.as_slice())
    }
}

impl<T: Copy + Ord> PartialOrd for ShortWords<T> {
    ghost partial_cmp = { as_partial_cmp (short_cmp T.cmp) };

    ghost laws = { partial_order_from_agreeing_total (short_cmp T.cmp) (short_total T.total)
        (λ _ _. refl) (λ xs ys. short_ties T.cmp T.matches_eq xs ys) };

    fn partial_cmp(&self, other: &Self) -> Option<Ordering> {
        Some(self.cmp(other))
    }
}

/// The items of a list by value, seen as the list of those that are left.
#[derive(Drop)]
pub struct ShortWordsIntoIter<T: Copy> {
    left: Left<T>,
}

impl<T: Copy> Model for ShortWordsIntoIter<T> {
    ghost use Rattle.std.specs.Prelude.{List};
    ghost use Rattle.iloc_shortvec.specs.Left.{words_left};

    ghost Value = { List T };

    ghost view = { λ it. words_left it.left };
}

impl<T: Copy> Iterator for ShortWordsIntoIter<T> {
    type Item = T;

    ghost next_gives = { YieldsFirst (λ rest. rest) };

    ghost remaining = { item_count (λ rest. rest) };

    fn next(&mut self) -> Option<T> {
        match &mut self.left {
            Left::Done => None,
            Left::Inline(count, few) => few.take_first(count),
            Left::Heap(items) => items.next(),
        }
    }
}

impl<T: Copy> IntoIterator for ShortWords<T> {
    type Item = T;

    type IntoIter = ShortWordsIntoIter<T>;

    ghost into_iter_gives = { λ list it. it ≡ list };

    fn into_iter(self) -> ShortWordsIntoIter<T> {
        ShortWordsIntoIter {
            left: self.kept.into_left(),
        }
    }
}
