//! Where a `ShortWords` keeps its items.
ghost use Rattle.std.specs.Prelude.{◌≡◌, ◌≤◌, ◌<◌, ◌+◌, ◌++◌, length, slice_get, insert, remove, IfOk, OnOk, OnErr};
ghost use Rattle.std.specs.Borrow.{sem};
ghost use Rattle.std.specs.Option.{option_copied};
ghost use Rattle.std.specs.List.Retain.{IsFiltered};
ghost use Rattle.std.specs.Fn.{CalledAt};
ghost use Rattle.iloc_shortvec.specs.Kept.{items_of, count_of, HasItems, IsKept};
ghost use Rattle.iloc_shortvec.specs.Left.{words_left};
ghost use Rattle.iloc_shortvec.specs.ShortList.{only_of};
ghost use Rattle.iloc_memory.specs.Refusals.{RefusedWithin};

use crate::few::{Count, Few};
use crate::items::{Nothing, only};
use iloc_memory::{Memory, extend_from_slice, insert_at};
use std::alloc::{AllocError, Global};
use std::vec;

/// Copies of the items, in a `Vec` with room for so many more. Refusal: `AllocError`.
fn copies<M: Memory, T: Copy>(memory: M, items: &[T], more: usize) -> Result<Vec<T>, AllocError>
    ensures copies { IfOk result (λ copies. copies.items ≡ items.now) }
    ensures out_of_memory { OnErr result (RefusedWithin M.refused (length items.now + more)) }
{
    let mut copies = memory.with_capacity(items.len().saturating_add(more))?;
    extend_from_slice(memory, &mut copies, items)?;
    Ok(copies)
}

/// No items, one to four in place, or a `Vec`.
pub(crate) enum Kept<T: Copy> {
    Inline(Count, Few<T>),
    Heap(Vec<T>),
    Empty(Nothing<T>),
}

/// What an iterator over the items has left.
#[derive(Drop)]
pub(crate) enum Left<T: Copy> {
    Done,
    Inline(Count, Few<T>),
    Heap(vec::IntoIter<T, Global>),
}

// Written out, so that whoever lets a list go proves a call.
impl<T: Copy> Drop for Kept<T> {
    fn drop(self) {
        match self {
            Kept::Empty(_none) => {}
            Kept::Inline(_count, _items) => {}
            Kept::Heap(_items) => {}
        }
    }
}

impl<T: Copy> Kept<T> {
    ghost use Rattle.iloc_shortvec.specs.KeptLends.{kept_lends_slice};

    pub(crate) fn as_slice(&self) -> &[T]
        ensures { result.now ≡ items_of self.now }
    {
        match self {
            Kept::Empty(none) => none.as_slice(),
            Kept::Inline(count, items) => items.as_slice(*count),
            Kept::Heap(items) => items.as_slice(),
        }
    }

    /// The item of exactly one.
    pub(crate) fn single(&self) -> Option<&T>
        requires { IsKept self.now }
        ensures { option_copied result ≡ only_of (items_of self.now) }
    {
        match self {
            Kept::Inline(count, items) => only(items.as_slice(*count)),
            Kept::Empty(_) | Kept::Heap(_) => None,
        }
    }

    /// The item at a place, `None` from the length on.
    pub(crate) fn get(&self, index: usize) -> Option<&T>
        ensures { option_copied result ≡ slice_get (items_of self.now) index }
    {
        match self {
            Kept::Empty(_) => None,
            Kept::Inline(count, items) => items.as_slice(*count).get(index),
            Kept::Heap(items) => items.as_slice().get(index),
        }
    }

    // How many cells are used, if the items are in place.
    fn count(&self) -> Count
        ensures { result ≡ count_of self.now }
    {
        match self {
            Kept::Inline(count, _) => *count,
            Kept::Empty(_) | Kept::Heap(_) => Count::of(0),
        }
    }

    pub(crate) fn as_mut_slice(&mut self) -> &mut [T]
        ensures* writes_back { sem 𝓛 (kept_lends_slice T.row self.entry result) }
        ensures value { result.now ≡ items_of self.old }
    {
        let count = self.count();
        match self {
            Kept::Empty(none) => none.as_mut_slice(),
            Kept::Inline(_, items) => items.as_mut_slice(count),
            Kept::Heap(items) => items.as_mut_slice(),
        }
    }

    /// Puts an item at a place, if that allocates nothing.
    pub(crate) fn insert_short(&mut self, index: usize, item: T)
        requires kept { IsKept self.old }
        requires place { index ≤ length (items_of self.old) }
        requires short { length (items_of self.old) < 4 }
        ensures items { items_of self.new ≡ insert (items_of self.old) index item }
        ensures kept { IsKept self.new }
    {
        if let Kept::Inline(count, few) = self {
            let _ = few.as_slice(*count);
            few.insert(*count, index, item);
            *count = Count::of(count.get() + 1);
        } else {
            *self = Kept::Inline(Count::of(1), Few::one(item));
        }
    }

    /// Puts an item at a place of four items or more.
    pub(crate) fn insert_long<M: Memory>(
        &mut self,
        memory: M,
        index: usize,
        item: T,
    ) -> Result<(), AllocError>
        requires kept { IsKept self.old }
        requires place { index ≤ length (items_of self.old) }
        requires long { 4 ≤ length (items_of self.old) }
        ensures ok { OnOk result (items_of self.new ≡ insert (items_of self.old) index item) }
        ensures err { OnErr result (items_of self.new ≡ items_of self.old) }
        ensures kept { IsKept self.new }
        ensures out_of_memory { OnErr result
            (RefusedWithin M.refused (length (items_of self.old) + 1)) }
    {
        if let Kept::Heap(items) = self {
            return insert_at(memory, items, index, item);
        }
        let mut more = copies(memory, self.as_slice(), 1)?;
        insert_at(memory, &mut more, index, item)?;
        *self = Kept::Heap(more);
        Ok(())
    }

    /// Adds copies of the items at the end, if that allocates nothing.
    pub(crate) fn extend_short(&mut self, items: &[T])
        requires kept { IsKept self.old }
        requires short { length (items_of self.old) + length items.now ≤ 4 }
        ensures items { items_of self.new ≡ items_of self.old ++ items.now }
        ensures kept { IsKept self.new }
    {
        if let Kept::Inline(count, few) = self {
            let _ = few.as_slice(*count);
            few.extend_from_slice(*count, items);
            *count = Count::of(count.get() + items.len());
        } else {
            *self = Kept::from_short(items);
        }
    }

    /// Adds copies of the items at the end, to five or more in all.
    pub(crate) fn extend_long<M: Memory>(
        &mut self,
        memory: M,
        items: &[T],
    ) -> Result<(), AllocError>
        requires kept { IsKept self.old }
        requires long { 4 < length (items_of self.old) + length items.now }
        ensures ok { OnOk result (items_of self.new ≡ items_of self.old ++ items.now) }
        ensures err { OnErr result (items_of self.new ≡ items_of self.old) }
        ensures kept { IsKept self.new }
        ensures out_of_memory { OnErr result
            (RefusedWithin M.refused (length (items_of self.old) + length items.now)) }
    {
        if let Kept::Heap(all) = self {
            return extend_from_slice(memory, all, items);
        }
        let mut all = copies(memory, self.as_slice(), items.len())?;
        extend_from_slice(memory, &mut all, items)?;
        *self = Kept::Heap(all);
        Ok(())
    }

    /// Takes an item out. A `Vec` keeps the others, however few.
    pub(crate) fn take_out(&mut self, index: usize)
        requires { index < length (items_of self.old) }
        ensures items { items_of self.new ≡ remove (items_of self.old) index }
        ensures some { HasItems self.new }
    {
        match self {
            Kept::Empty(_) => {}
            Kept::Inline(count, few) => {
                if few.as_slice(*count).len() > 1 {
                    few.remove(*count, index);
                    *count = Count::of(count.get() - 1);
                } else {
                    *self = Kept::Empty(Nothing::new());
                }
            }
            Kept::Heap(items) => {
                items.remove(index);
            }
        }
    }

    /// The items by value.
    pub(crate) fn into_left(self) -> Left<T>
        ensures { words_left result ≡ items_of self }
    {
        match self {
            Kept::Empty(_none) => Left::Done,
            Kept::Inline(count, items) => Left::Inline(count, items),
            Kept::Heap(items) => Left::Heap(items.into_iter()),
        }
    }

    /// Keeps the items of a `Vec` in place, if they are four or fewer.
    pub(crate) fn settle(&mut self)
        requires { HasItems self.old }
        ensures items { items_of self.new ≡ items_of self.old }
        ensures kept { IsKept self.new }
    {
        match self {
            Kept::Empty(_) | Kept::Inline(_, _) => {}
            Kept::Heap(items) => {
                if items.len() <= 4 {
                    *self = Kept::from_short(items.as_slice());
                }
            }
        }
    }

    /// Copies of at most four items.
    pub(crate) fn from_short(items: &[T]) -> Self
        requires { length items.now ≤ 4 }
        ensures value { items_of result ≡ items.now }
        ensures kept { IsKept result }
    {
        if items.is_empty() {
            return Kept::Empty(Nothing::new());
        }
        Kept::Inline(Count::of(items.len()), Few::from_slice(items))
    }
}

/// The items at which `keep` says so, of at most four. Each is asked once, in order.
pub(crate) fn kept_of<T: Copy, F: FnMut(&T) -> bool + Drop>(items: &[T], mut keep: F) -> Kept<T>
    requires callable { F.IsAlwaysCallable keep }
    requires short { length items.now ≤ 4 }
    ensures items { IsFiltered (CalledAt F.FnMut) keep items.now (items_of result) }
    ensures kept { IsKept result }
{
    let mut kept = Kept::Empty(Nothing::new());
    for item in items {
        if keep(item) {
            let end = kept.as_slice().len();
            kept.insert_short(end, *item);
        }
    }
    kept
}
