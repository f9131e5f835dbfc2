//! A `Vec` of pairs.
ghost use Rattle.std.specs.Prelude.{◌≡◌, ◌≤◌, length, insert, OnOk, OnErr};
ghost use Rattle.std.specs.Vec.Iter.{into_iter_items};
ghost use Rattle.iloc_litemap.specs.Calls.{CalledAtKeyValue};

use crate::room::insert_within;
use crate::store::{CopyingStore, GrowingStore, Store};
use iloc_copying::{Copied, Copying, clones_of, copies_of, moved};
use iloc_memory::{Memory, push};
use std::alloc::{AllocError, Global};
use std::vec;

impl<K: Drop, V: Drop> Store<K, V> for Vec<(K, V)> {
    type KeyValueIntoIter = vec::IntoIter<(K, V), Global>;

    ghost use Rattle.iloc_litemap.specs.VecStore.{vec_with_value, vec_pairs_with_value, vec_takes_first};

    ghost pairs = { λ v. v.items };

    ghost with_value = { vec_with_value };

    ghost free = { 0 };

    ghost left = { into_iter_items };

    fn lm_empty(alloc: Global) -> Self {
        Vec::new(alloc)
    }

    fn lm_pairs(&self) -> &[(K, V)] {
        self.as_slice()
    }

    fn lm_value_mut(&mut self, index: usize) -> &mut V {
        let pair = &mut self[index];
        &mut pair.1
    }

    // It is a call, as `lm_remove` is, so that keys are looked for in registers.
    #[inline(never)]
    fn lm_insert(
        &mut self,
        alloc: Global,
        index: usize,
        key: K,
        value: V,
    ) -> Result<(), AllocError> {
        if self.len() < self.capacity() {
            insert_within(self, index, (key, value));
            return Ok(());
        }
        insert_growing(alloc, self, index, key, value)
    }

    #[inline(never)]
    fn lm_remove(&mut self, index: usize) -> (K, V) {
        if index + 1 == self.len() {
            return self.take_last();
        }
        self.remove(index)
    }

    fn lm_retain<F: FnMut(&K, &V) -> bool + Drop>(&mut self, mut predicate: F) {
        self.retain(
            move |pair: &(K, V)| -> bool
                requires { F.IsAlwaysCallable predicate }
                ensures asked { CalledAtKeyValue F.FnMut predicate.entry pair.now result
                    predicate.exit }
                ensures callable { F.IsAlwaysCallable predicate.exit }
            { predicate(&pair.0, &pair.1) },
        );
    }

    fn lm_clear(&mut self) {
        self.clear();
    }

    fn lm_into_iter(self) -> vec::IntoIter<(K, V), Global> {
        self.into_iter()
    }

    fn lm_from_vec(list: Vec<(K, V)>) -> Self
        ensures { result.items ≡ list.items }
    {
        list
    }

    fn lm_take_with_room<M: Memory>(
        &mut self,
        memory: M,
        more: usize,
    ) -> Result<Vec<(K, V)>, AllocError> {
        moved(memory, self, more)
    }

    fn lm_clone(&self) -> Result<Self, AllocError>
    where
        K: Clone,
        V: Clone,
    {
        clones_of(self)
    }

    ghost takes_first = { λ s r t h. vec_takes_first s r t h };

    ghost pairs_with_value = { λ s i w. vec_pairs_with_value s i w };
}

// Puts a pair into a list without room. It stands apart, so that an insertion within room keeps fewer registers.
#[inline(never)]
fn insert_growing<M: Memory, K: Drop, V: Drop>(
    memory: M,
    pairs: &mut Vec<(K, V)>,
    index: usize,
    key: K,
    value: V,
) -> Result<(), AllocError>
    requires { index ≤ length pairs.old.items }
    ensures ok { OnOk result (pairs.new.items ≡ insert pairs.old.items index (key, value)) }
    ensures err { OnErr result (pairs.new.items ≡ pairs.old.items) }
{
    pairs.lm_insert_in(memory, index, key, value)
}

impl<K: Drop, V: Drop> GrowingStore<K, V> for Vec<(K, V)> {
    // The tail is rotated, since LLVM turns that into `memmove`.
    #[inline]
    fn lm_insert_in<M: Memory>(
        &mut self,
        memory: M,
        index: usize,
        key: K,
        value: V,
    ) -> Result<(), AllocError> {
        push(memory, self, (key, value))?;
        self.slice_mut(index..).rotate_right(1);
        Ok(())
    }
}

impl<K: Copy, V: Copied> CopyingStore<K, V> for Vec<(K, V)> {
    fn lm_copied<C: Copying>(&self, copying: C) -> Result<Self, AllocError> {
        copies_of(copying, self)
    }
}
