//! Copies of lists, and lists of what an iterator gives, with the room from any memory.
//!
//! A call `clone` has no memory to ask: it asks the allocator of each list that it copies (`FromOwn`). A call `clone_in`
//! asks the memory that it is given (`FromMemory`). Both are one body, generic over how room is asked for (`Copying`).
//! What owns lists says how many items it has in all, and is copied by `copied` (`Copied`).
//!
//! It promises: a copy equals what was copied. A copy runs out of memory only if a request of its memory was refused, for
//! at most as many items as there are.
//!
//! It stands on `iloc_memory`.
#![tactic(auto)]

ghost use Rattle.std.specs.Prelude.{◌≡◌, ◌≤◌, ◌+◌, ℕ, [], length, IfOk, OnOk, OnErr, vec_capacity};
ghost use Rattle.std.specs.List.{AllZip};
ghost use Rattle.std.specs.Iterator.{IsFinite, Drains, size};
ghost use Rattle.iloc_memory.specs.Refusals.{RefusedWithin};
ghost use Rattle.iloc_copying.specs.Sizes.{items_in};

use iloc_memory::{Memory, push};
use std::alloc::{AllocError, Global};

/// How a copy asks for room.
pub trait Copying: Copy {
    /// The memory that is asked.
    type Room: Memory;

    /// The memory that a copy of this list asks.
    fn memory_for<T>(self, list: &Vec<T>) -> Self::Room;
}

/// Copies take their room from this memory.
#[derive(Clone, Copy)]
pub struct FromMemory<M: Memory>(pub M);

impl<M: Memory> Copying for FromMemory<M> {
    type Room = M;

    #[inline(always)]
    fn memory_for<T>(self, _list: &Vec<T>) -> M {
        self.0
    }
}

/// Each copy takes its room from the allocator of the list that is copied.
#[derive(Clone, Copy)]
pub struct FromOwn;

impl Copying for FromOwn {
    type Room = Global;

    #[inline(always)]
    fn memory_for<T>(self, list: &Vec<T>) -> Global {
        *list.allocator()
    }
}

/// What owns lists, or may own some.
pub trait Copied: Drop + Sized {
    /// How many items there are in all its lists.
    ghost size: { Self → ℕ };

    /// A copy. Refusal: `AllocError`, only if room for at most as many items as there are was refused.
    fn copied<C: Copying>(&self, copying: C) -> Result<Self, AllocError>
        ensures value { IfOk result (λ copy. copy ≡ self.now) }
        ensures out_of_memory { OnErr result (RefusedWithin C.Room.refused (size self.now)) };
}

/// A pair owns what its second part does.
impl<K: Copy, V: Copied> Copied for (K, V) {
    ghost size = { λ pair. V.size pair.1 };

    #[inline(always)]
    fn copied<C: Copying>(&self, copying: C) -> Result<Self, AllocError> {
        Ok((self.0, self.1.copied(copying)?))
    }
}

/// A list of these items. Refusal: `AllocError`, only if room for at most so many was refused.
#[inline(always)]
pub fn copy_of<M: Memory, T: Copy>(memory: M, items: &[T]) -> Result<Vec<T>, AllocError>
    ensures value { IfOk result (λ copy. copy.items ≡ items.now) }
    ensures out_of_memory { OnErr result (RefusedWithin M.refused (length items.now)) }
{
    let mut copy = memory.with_capacity(items.len())?;
    let Ok(()) = copy.extend_from_slice(items) else {
        unreachable!();
    };
    Ok(copy)
}

/// A list of copies. Refusal: `AllocError`, only if room for at most as many items as there are in all was refused.
#[inline(always)]
pub fn copies_of<C: Copying, T: Copied>(copying: C, list: &Vec<T>) -> Result<Vec<T>, AllocError>
    ensures value { IfOk result (λ copy. copy.items ≡ list.now.items) }
    ensures out_of_memory { OnErr result
        (RefusedWithin C.Room.refused (items_in T.size list.now.items)) }
{
    let items = list.as_slice();
    let mut copies = copying.memory_for(list).with_capacity(items.len())?;
    for item in items {
        copies.push_reserved(item.copied(copying)?);
    }
    Ok(copies)
}

/// A list of clones. It equals the list if an item's clone equals the item. Refusal: `AllocError`, also if an item cannot be
/// cloned.
#[inline(always)]
pub fn clones_of<T: Clone>(list: &Vec<T>) -> Result<Vec<T>, AllocError>
    ensures clones { IfOk result (λ copy. AllZip T.is_clone list.now.items copy.items) }
    ensures equal { IfOk result (λ copy. ((x y : T) → T.is_clone x y → y ≡ x)
        → copy.items ≡ list.now.items) }
{
    let items = list.as_slice();
    let mut clones = FromOwn.memory_for(list).with_capacity(items.len())?;
    for item in items {
        clones.push_reserved(item.clone()?);
    }
    Ok(clones)
}

/// The items in a list with room for so many more, which leaves none. Refusal: `AllocError`, only if room for so many was
/// refused, and the items stay.
#[inline(always)]
pub fn moved<M: Memory, T: Drop>(
    memory: M,
    list: &mut Vec<T>,
    more: usize,
) -> Result<Vec<T>, AllocError>
    ensures items { IfOk result (λ all. all.items ≡ list.old.items) }
    ensures room { IfOk result (λ all. length list.old.items + more ≤ vec_capacity all) }
    ensures ok { OnOk result (list.new.items ≡ []) }
    ensures err { OnErr result (list.new.items ≡ list.old.items) }
    ensures out_of_memory { OnErr result
        (RefusedWithin M.refused (length list.old.items + more)) }
{
    let mut all = memory.with_capacity(list.len().saturating_add(more))?;
    let Ok(()) = all.append(list) else {
        unreachable!();
    };
    // This asks for nothing: the room is there, unless the sum above was too great for a number.
    match memory.reserve(&mut all, more) {
        Ok(()) => Ok(all),
        Err(refused) => {
            *list = all;
            Err(refused)
        }
    }
}

/// A list of what the iterator gives, with room for so many from the first. Refusal: `AllocError`, only if room for at most
/// as many as the iterator may have left was refused.
#[inline(always)]
pub fn list_of<M: Memory, I: Iterator>(
    memory: M,
    least: usize,
    items: I,
) -> Result<Vec<I::Item>, AllocError>
where
    I::Item: Drop,
    requires can { I.can_next items }
    requires ends { IsFinite (I.remaining items) }
    requires few { least ≤ size (I.remaining items) }
    ensures value { IfOk result (λ list. Drains I.next_gives items list.items) }
    ensures few { IfOk result (λ list. length list.items ≤ size (I.remaining items)) }
    ensures out_of_memory { OnErr result
        (RefusedWithin M.refused (size (I.remaining items))) }
{
    let mut list = memory.with_capacity(least)?;
    for item in items {
        push(memory, &mut list, item)?;
    }
    Ok(list)
}
