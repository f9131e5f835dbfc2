//! The calls of a store of pairs, one by one, of both kinds that the library has.
use iloc_litemap::{Probe, Store};
use iloc_shortvec::ShortBoxSlice;
use std::alloc::{AllocError, Global};
use std::test::Fail;

/// Puts a pair of each number before those that are there.
fn fill<S: Store<u16, u16>>(
    alloc: Global,
    store: &mut S,
    numbers: &[u16],
) -> Result<(), AllocError> {
    for number in numbers {
        store.lm_insert(alloc, 0, *number, *number)?;
    }
    Ok(())
}

/// The store of the pairs of 1, 2 and 3.
fn three<S: Store<u16, u16>>(alloc: Global) -> Result<S, AllocError> {
    let mut store = S::lm_empty(alloc);
    match fill(alloc, &mut store, &[3, 2, 1]) {
        Ok(()) => Ok(store),
        Err(error) => Err(error),
    }
}

/// Takes the first pair out, if there is one.
fn take_first<S: Store<u16, u16>>(store: &mut S) -> Option<(u16, u16)> {
    if store.lm_is_empty() {
        return None;
    }
    Some(store.lm_remove(0))
}

/// Keeps the pairs above 1, sets the first value, and takes that pair out.
fn change<S: Store<u16, u16>>(store: &mut S) -> Option<(u16, u16)> {
    store.lm_retain(|key: &u16, _value: &u16| *key > 1);
    if !store.lm_is_empty() {
        *store.lm_value_mut(0) = 9;
    }
    take_first(store)
}

/// The sum of the values that a copy gives.
fn sum<S: Store<u16, u16>>(store: &S) -> Result<u16, AllocError> {
    let copy = store.lm_clone()?;
    let mut sum = 0u16;
    for (_key, value) in copy.lm_into_iter() {
        sum = sum.saturating_add(value);
    }
    Ok(sum)
}

/// The pair that `change` takes out, how many pairs a probe has then, their sum, and how many there are in the end.
fn taken_and_left<S: Store<u16, u16>>(
    store: &mut S,
) -> Result<(Option<(u16, u16)>, usize, u16, usize), AllocError> {
    let taken = change(store);
    let probe = Probe::new(store.lm_pairs());
    let left = probe.len();
    let sum = sum(store)?;
    store.lm_clear();
    Ok((taken, left, sum, store.lm_pairs().len()))
}

/// How many pairs are taken with room for two more, and how many are left.
fn taken_with_room<S: Store<u16, u16>>(
    alloc: Global,
    store: &mut S,
) -> Result<(usize, usize), AllocError> {
    let all = store.lm_take_with_room(alloc, 2)?;
    Ok((all.len(), store.lm_pairs().len()))
}

#[test]
fn a_short_list_taken_with_room(rt: HostRuntime) -> Result<(), Fail> {
    let mut list = ShortBoxSlice::new_single(7u16);
    let all = list.take_with_room(rt.alloc(), 2)?;
    assert_eq!(rt; all.len(), 1);
    assert!(rt; list.is_empty());
    Ok(())
}

#[test]
fn stores_taken_with_room(rt: HostRuntime) -> Result<(), Fail> {
    let mut short: ShortBoxSlice<(u16, u16)> = three(rt.alloc())?;
    assert_eq!(rt; taken_with_room(rt.alloc(), &mut short), Ok((3, 0)));
    let mut vec: Vec<(u16, u16)> = three(rt.alloc())?;
    assert_eq!(rt; taken_with_room(rt.alloc(), &mut vec), Ok((3, 0)));
    Ok(())
}

#[test]
fn a_store_of_one_pair_in_place(rt: HostRuntime) -> Result<(), Fail> {
    let mut store: ShortBoxSlice<(u16, u16)> = three(rt.alloc())?;
    assert_eq!(rt; taken_and_left(&mut store), Ok((Some((2, 9)), 1, 3, 0)));
    Ok(())
}

#[test]
fn a_store_that_is_a_vec(rt: HostRuntime) -> Result<(), Fail> {
    let mut store: Vec<(u16, u16)> = three(rt.alloc())?;
    assert_eq!(rt; taken_and_left(&mut store), Ok((Some((2, 9)), 1, 3, 0)));
    Ok(())
}
