//! What the library asks for memory, and what it knows if a request is refused.
//!
//! Code that needs room for items asks a `Memory` for it, and nothing else. `Global`, the heap, is one. A `Memory` has a
//! ghost member `refused`: any statement about a number of items that is true once room for so many was refused. A
//! function that is generic over its memory is proved once, for every `Memory` and every such statement. So its proof can
//! have `refused n` only from a request for room for `n` items that was refused while the function ran. A contract that
//! says so of each `OutOfMemory` (`RefusedWithin`) rules out a body that gives up unasked.
//!
//! It promises: a request that is granted does what the same call of `std` does, and one that is refused leaves the list
//! as it was and makes `refused` true. At an `Ample` memory nothing is refused.
//!
//! It stands on `std` alone, and on reading three lines: that the requests of `Global`, two for lists and one for trees, pass
//! on the answer of `std`, since `std` states nothing of a refusal. Whether `std` asked the heap is the word of `std`: a `Vec`
//! also refuses without asking if its block would be larger than `isize::MAX` bytes. Everything else is proved.
#![tactic(auto)]

ghost use Rattle.std.specs.Prelude.{◌≡◌, ◌+◌, ◌≤◌, ◌++◌, ◌∷◌, [], ℕ, ⊤, length, take, insert, OnOk, OnErr, IfOk};
ghost use Rattle.std.specs.Vec.{vec_len, vec_capacity};
ghost use Rattle.std.specs.String.{string_bytes, string_len, string_capacity};
ghost use Rattle.std.specs.BTreeMap.{insert_entry};
ghost use Rattle.iloc_memory.specs.Refusals.{RefusedWithin};

use std::alloc::{AllocError, Global};
use std::collections::BTreeMap;

/// What gives room for items, or refuses it. It is passed by value, as an allocator is.
pub trait Memory: Copy {
    /// Any statement of a number that is true once room for so many items was refused.
    ghost refused: { ℕ → Type 0 };

    /// An empty list. It asks for no room.
    fn empty<T>(self) -> Vec<T>
        ensures items { result.items ≡ [] }
        ensures len { vec_len result ≡ 0 };

    /// An empty list with room for so many items. Refusal: `AllocError`.
    fn with_capacity<T>(self, capacity: usize) -> Result<Vec<T>, AllocError>
        ensures items { IfOk result (λ list. list.items ≡ []) }
        ensures len { IfOk result (λ list. vec_len list ≡ 0) }
        ensures room { IfOk result (λ list. capacity ≤ vec_capacity list) }
        ensures refusal { OnErr result (refused capacity) };

    /// Makes room for so many more items. Refusal: `AllocError`, and the list is as before.
    fn reserve<T>(self, list: &mut Vec<T>, additional: usize) -> Result<(), AllocError>
        ensures items { list.new.items ≡ list.old.items }
        ensures len { vec_len list.new ≡ vec_len list.old }
        ensures room { OnOk result (vec_len list.new + additional ≤ vec_capacity list.new) }
        ensures refusal { OnErr result (refused (vec_len list.old + additional)) };
}

/// A `Memory` that gives room for the pairs of trees too.
pub trait Trees: Memory {
    /// An empty tree. It asks for no room.
    fn empty_tree<K: Ord, V>(self) -> BTreeMap<K, V>
        ensures { result.entries ≡ [] };

    /// Puts a pair into a tree, in place of one with its key. Refusal: `AllocError`, and the tree is as before.
    fn insert_in_tree<K: Ord + Drop, V: Drop>(
        self,
        map: &mut BTreeMap<K, V>,
        key: K,
        value: V,
    ) -> Result<Option<V>, AllocError>
        ensures ok { OnOk result (map.new.entries ≡ insert_entry K.cmp map.old.entries key value) }
        ensures err { OnErr result (map.new.entries ≡ map.old.entries) }
        ensures refusal { OnErr result (Self.refused 1) };
}

/// Memory that refuses nothing. Code that is proved for every memory is so for such a one, where it never runs out.
pub trait Ample: Memory {
    /// No request is refused.
    ghost never: { (n : ℕ) → ¬ (Self.refused n) };
}

/// The heap. Of its refusals `std` says nothing, so its statement is true of every number.
impl Memory for Global {
    ghost refused = { λ _. ⊤ };

    #[inline(always)]
    fn empty<T>(self) -> Vec<T> {
        Vec::new(self)
    }

    #[inline(always)]
    fn with_capacity<T>(self, capacity: usize) -> Result<Vec<T>, AllocError> {
        Vec::with_capacity(self, capacity)
    }

    #[inline(always)]
    fn reserve<T>(self, list: &mut Vec<T>, additional: usize) -> Result<(), AllocError> {
        list.reserve(additional)
    }
}

impl Trees for Global {
    #[inline(always)]
    fn empty_tree<K: Ord, V>(self) -> BTreeMap<K, V> {
        BTreeMap::new(self)
    }

    #[inline(always)]
    fn insert_in_tree<K: Ord + Drop, V: Drop>(
        self,
        map: &mut BTreeMap<K, V>,
        key: K,
        value: V,
    ) -> Result<Option<V>, AllocError> {
        Ok(map.insert(key, value)?)
    }
}

/// Adds an item at the end. Refusal: `AllocError`, and the list is as before.
#[inline(always)]
pub fn push<M: Memory, T: Drop>(memory: M, list: &mut Vec<T>, item: T) -> Result<(), AllocError>
    ensures ok { OnOk result (list.new.items ≡ list.old.items ++ item ∷ []) }
    ensures err { OnErr result (list.new.items ≡ list.old.items) }
    ensures out_of_memory { OnErr result
        (RefusedWithin M.refused (length list.old.items + 1)) }
{
    memory.reserve(list, 1)?;
    list.push_reserved(item);
    Ok(())
}

/// Makes the list so long, if it is shorter: what it had, and copies of an item behind. Refusal: `AllocError`, and the list
/// is as before.
#[inline(always)]
pub fn lengthen<M: Memory, T: Copy>(
    memory: M,
    list: &mut Vec<T>,
    len: usize,
    item: T,
) -> Result<(), AllocError>
    ensures front { OnOk result (take (length list.old.items) list.new.items ≡ list.old.items) }
    ensures len { OnOk result (len ≤ length list.new.items) }
    ensures err { OnErr result (list.new.items ≡ list.old.items) }
    ensures out_of_memory { OnErr result (RefusedWithin M.refused len) }
{
    let held = list.len();
    if held >= len {
        return Ok(());
    }
    memory.reserve(list, len - held)?;
    let Ok(()) = list.resize(len, item) else {
        unreachable!();
    };
    Ok(())
}

/// Puts an item at a place. Refusal: `AllocError`, and the list is as before.
#[inline(always)]
pub fn insert_at<M: Memory, T: Drop>(
    memory: M,
    list: &mut Vec<T>,
    index: usize,
    item: T,
) -> Result<(), AllocError>
    requires { index ≤ length list.old.items }
    ensures ok { OnOk result (list.new.items ≡ insert list.old.items index item) }
    ensures err { OnErr result (list.new.items ≡ list.old.items) }
    ensures out_of_memory { OnErr result
        (RefusedWithin M.refused (length list.old.items + 1)) }
{
    memory.reserve(list, 1)?;
    let Ok(()) = list.insert(index, item) else {
        unreachable!();
    };
    Ok(())
}

/// Adds copies of the items at the end, all of them or none. Refusal: `AllocError`, and the list is as before.
#[inline(always)]
pub fn extend_from_slice<M: Memory, T: Copy>(
    memory: M,
    list: &mut Vec<T>,
    items: &[T],
) -> Result<(), AllocError>
    ensures ok { OnOk result (list.new.items ≡ list.old.items ++ items.now) }
    ensures err { OnErr result (list.new.items ≡ list.old.items) }
    ensures out_of_memory { OnErr result
        (RefusedWithin M.refused (length list.old.items + length items.now)) }
{
    memory.reserve(list, items.len())?;
    let Ok(()) = list.extend_from_slice(items) else {
        unreachable!();
    };
    Ok(())
}

/// A copy of a text. Refusal: `AllocError`.
#[inline(always)]
pub fn string_of<M: Memory>(memory: M, text: &str) -> Result<String, AllocError>
    ensures text { IfOk result (λ string. string_bytes string ≡ text.now) }
    ensures out_of_memory { OnErr result (RefusedWithin M.refused (length text.now)) }
{
    let mut bytes = memory.with_capacity(text.len())?;
    let Ok(()) = bytes.extend_from_slice(text.as_bytes()) else {
        unreachable!();
    };
    Ok(unsafe { String::from_utf8_unchecked(bytes) })
}

/// An empty text with room for so many bytes. Refusal: `AllocError`.
#[inline(always)]
pub fn string_with_capacity<M: Memory>(memory: M, capacity: usize) -> Result<String, AllocError>
    ensures text { IfOk result (λ string. string_bytes string ≡ []) }
    ensures len { IfOk result (λ string. string_len string ≡ 0) }
    ensures room { IfOk result (λ string. capacity ≤ string_capacity string) }
    ensures out_of_memory { OnErr result (RefusedWithin M.refused capacity) }
{
    let bytes = memory.with_capacity(capacity)?;
    Ok(unsafe { String::from_utf8_unchecked(bytes) })
}
