//! A list that keeps one pair in the value.
ghost use Rattle.std.specs.Prelude.{◌≡◌};
ghost use Rattle.iloc_litemap.specs.Calls.{CalledAtKeyValue};
ghost use Rattle.iloc_litemap.specs.Pairs.{set_value_at};

use crate::store::{CopyingStore, GrowingStore, Store};
use iloc_copying::{Copied, Copying};
use iloc_memory::Memory;
use iloc_shortvec::{ShortBoxSlice, ShortBoxSliceIntoIter};
use std::alloc::{AllocError, Global};

impl<K: Drop, V: Drop> Store<K, V> for ShortBoxSlice<(K, V)> {
    type KeyValueIntoIter = ShortBoxSliceIntoIter<(K, V)>;

    ghost use Rattle.std.proofs.Common.{refl};

    ghost pairs = { λ s. s };

    ghost with_value = { set_value_at };

    ghost free = { 1 };

    ghost left = { λ it. it };

    fn lm_empty(_alloc: Global) -> Self {
        ShortBoxSlice::new()
    }

    fn lm_pairs(&self) -> &[(K, V)] {
        self.as_slice()
    }

    fn lm_is_empty(&self) -> bool {
        self.is_empty()
    }

    fn lm_value_mut(&mut self, index: usize) -> &mut V {
        let pair = self.item_mut(index);
        &mut pair.1
    }

    fn lm_insert(
        &mut self,
        alloc: Global,
        index: usize,
        key: K,
        value: V,
    ) -> Result<(), AllocError> {
        self.lm_insert_in(alloc, index, key, value)
    }

    #[inline(always)]
    fn lm_remove(&mut self, index: usize) -> (K, V) {
        self.remove(index)
    }

    fn lm_retain<F: FnMut(&K, &V) -> bool + Drop>(&mut self, mut predicate: F) {
        self.retain(
            move |pair: &(K, V)| -> bool
                requires { F.IsAlwaysCallable predicate }
                ensures asked { CalledAtKeyValue F.FnMut predicate.entry pair.now result
                    predicate.exit }
                ensures callable { F.IsAlwaysCallable predicate.exit }
            { predicate(&pair.0, &pair.1) },
        );
    }

    fn lm_clear(&mut self) {
        self.clear();
    }

    fn lm_into_iter(self) -> ShortBoxSliceIntoIter<(K, V)> {
        self.into_iter()
    }

    fn lm_from_vec(list: Vec<(K, V)>) -> Self
        ensures { result ≡ list.items }
    {
        ShortBoxSlice::from_vec(list)
    }

    fn lm_take_with_room<M: Memory>(
        &mut self,
        memory: M,
        more: usize,
    ) -> Result<Vec<(K, V)>, AllocError> {
        self.take_with_room(memory, more)
    }

    fn lm_clone(&self) -> Result<Self, AllocError>
    where
        K: Clone,
        V: Clone,
    {
        self.clone()
    }

    ghost takes_first = { λ s r t h. h };

    ghost pairs_with_value = { λ s i w. refl };
}

impl<K: Drop, V: Drop> GrowingStore<K, V> for ShortBoxSlice<(K, V)> {
    #[inline]
    fn lm_insert_in<M: Memory>(
        &mut self,
        memory: M,
        index: usize,
        key: K,
        value: V,
    ) -> Result<(), AllocError> {
        self.insert_in(memory, index, (key, value))
    }
}

impl<K: Copy, V: Copied> CopyingStore<K, V> for ShortBoxSlice<(K, V)> {
    fn lm_copied<C: Copying>(&self, copying: C) -> Result<Self, AllocError> {
        self.copied(copying)
    }
}
