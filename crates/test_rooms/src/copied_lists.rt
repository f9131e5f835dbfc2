//! Lists, maps, sets of subtags, and values.

use crate::memory::{UpTo, up_to};
use iloc_copying::{Copying, FromMemory, FromOwn};
use iloc_litemap::{CopyingStore, LiteMap};
use iloc_memory::Memory;
use iloc_shortvec::{ShortBoxSlice, ShortWords};
use iloc_subtags::{ParseError, Subtag, Variant};
use iloc_word_list::{Value, Variants};
use std::alloc::{AllocError, Global};
use std::test::Fail;

type Words = ShortWords<u8>;

type Pairs = [(u8, Words); 2];

// Two pairs, of which the second has five words.
fn pairs(heap: Global) -> Result<Pairs, AllocError> {
    let many = ShortWords::from_iter(heap, [1, 2, 3, 4, 5])?;
    Ok([(7, ShortWords::new_single(6)), (9, many)])
}

// The words of a copy.
fn copied_words(memory: UpTo) -> Result<usize, AllocError> {
    let list = ShortWords::from_iter(memory.heap, [1u8, 2, 3, 4, 5])?;
    let copy = list.clone_in(memory)?;
    Ok(if copy == list { copy.len() } else { 0 })
}

fn words_that_come(memory: UpTo) -> Result<usize, AllocError> {
    Ok(ShortWords::from_iter_in(memory, [1u8, 2, 3, 4, 5])?.len())
}

fn extended_words(memory: UpTo) -> Result<usize, AllocError> {
    let mut list = ShortWords::new_double_in(memory, 1u8, 2)?;
    list.extend_from_slice_in(memory, &[3, 4, 5])?;
    Ok(list.len())
}

// The items of a copy of a list of pairs: its second has most.
fn copied_boxes(memory: UpTo) -> Result<usize, AllocError> {
    let list = ShortBoxSlice::from_iter(memory.heap, pairs(memory.heap)?)?;
    let copy = list.clone_in(memory)?;
    Ok(if copy == list { copy.len() } else { 0 })
}

fn two_boxes(memory: UpTo) -> Result<usize, AllocError> {
    Ok(ShortBoxSlice::new_double_in(memory, 1u8, 2)?.len())
}

fn boxes_that_come(memory: UpTo) -> Result<usize, AllocError> {
    Ok(ShortBoxSlice::from_iter_in(memory, [1u8, 2, 3])?.len())
}

// The pairs of a copy of a map.
fn copied_map(memory: UpTo) -> Result<usize, AllocError> {
    let map: LiteMap<u8, ShortWords<u8>> = LiteMap::from_pairs(memory.heap, pairs(memory.heap)?)?;
    let copy = map.clone_in(memory)?;
    Ok(if copy == map { copy.len() } else { 0 })
}

// The pairs of copies of both stores, from memory, and of the list from its own allocator.
fn copied_stores(memory: UpTo) -> Result<usize, AllocError> {
    let list = Vec::from_iter(memory.heap, pairs(memory.heap)?)?;
    let short = ShortBoxSlice::from_iter(memory.heap, pairs(memory.heap)?)?;
    let of_memory = list.lm_copied(FromMemory(memory))?.len();
    let of_short = short.lm_copied(FromMemory(memory))?.len();
    let own: Vec<u8> = FromOwn.memory_for(&list).empty();
    let all = of_memory.saturating_add(of_short);
    Ok(all.saturating_add(own.len()))
}

fn map_of_pairs(memory: UpTo) -> Result<usize, AllocError> {
    let map: LiteMap<u8, u8> = LiteMap::from_pairs_in(memory, [(2, 0), (1, 0), (3, 0)])?;
    Ok(map.len())
}

fn extended_map(memory: UpTo) -> Result<usize, AllocError> {
    let mut map: LiteMap<u8, u8> = LiteMap::from_pairs(memory.heap, [(1, 0)])?;
    map.extend_in(memory, [(2, 0), (3, 0)])?;
    Ok(map.len())
}

fn map_with_another(memory: UpTo) -> Result<usize, AllocError> {
    let mut map: LiteMap<u8, u8> = LiteMap::from_pairs(memory.heap, [(1, 0)])?;
    let other = LiteMap::from_pairs(memory.heap, [(2, 0), (3, 0)])?;
    map.extend_from_map_in(memory, other)?;
    Ok(map.len())
}

// The set of these variants.
fn variants(heap: Global, texts: [&str; 3]) -> Result<Variants, ParseError> {
    let mut set = Variants::new();
    for text in texts {
        set.push(heap, Variant::try_from_str(text)?)?;
    }
    Ok(set)
}

// How many variants two sets have, in a copy of both, and in one that is extended by the other.
fn united(memory: UpTo) -> Result<usize, ParseError> {
    let mut set: Variants = variants(memory.heap, ["ccccc", "aaaaa", "eeeee"])?;
    let other: Variants = variants(memory.heap, ["bbbbb", "aaaaa", "ddddd"])?;
    let both: Variants = set.union_in(memory, &other)?;
    set.extend_in(memory, &other)?;
    Ok(if both.clone_in(memory)? == set {
        both.len()
    } else {
        0
    })
}

// How many subtags the copy of a value has.
fn copied_value(memory: UpTo) -> Result<usize, ParseError> {
    let value = Value::try_from_str(memory.heap, "aaa-bbb-ccc-ddd-eee")?;
    let copy = value.clone_in(memory)?;
    Ok(if copy == value {
        copy.subtag_count()
    } else {
        0
    })
}

// How many subtags a value of two has.
fn two_subtags(memory: UpTo) -> Result<usize, ParseError> {
    let (first, second) = (Subtag::try_from_str("foo")?, Subtag::try_from_str("bar")?);
    Ok(Value::from_two_subtags_in(memory, first, second)?.subtag_count())
}

#[test]
fn lists_are_copied_in_their_room(rt: HostRuntime) -> Result<(), Fail> {
    let (heap, refused) = (rt.alloc(), Err(AllocError));
    assert_eq!(rt; copied_words(up_to(4, heap)), refused);
    assert_eq!(rt; copied_words(up_to(5, heap)), Ok(5));
    assert_eq!(rt; words_that_come(up_to(4, heap)), refused);
    assert_eq!(rt; words_that_come(up_to(5, heap)), Ok(5));
    assert_eq!(rt; extended_words(up_to(4, heap)), refused);
    assert_eq!(rt; extended_words(up_to(5, heap)), Ok(5));
    assert_eq!(rt; copied_boxes(up_to(4, heap)), refused);
    assert_eq!(rt; copied_boxes(up_to(5, heap)), Ok(2));
    assert_eq!(rt; two_boxes(up_to(1, heap)), refused);
    assert_eq!(rt; two_boxes(up_to(2, heap)), Ok(2));
    assert_eq!(rt; boxes_that_come(up_to(2, heap)), refused);
    assert_eq!(rt; boxes_that_come(up_to(3, heap)), Ok(3));
    Ok(())
}

#[test]
fn maps_are_copied_and_extended_in_their_room(rt: HostRuntime) -> Result<(), Fail> {
    let (heap, refused) = (rt.alloc(), Err(AllocError));
    assert_eq!(rt; copied_map(up_to(4, heap)), refused);
    assert_eq!(rt; copied_map(up_to(5, heap)), Ok(2));
    assert_eq!(rt; copied_stores(up_to(4, heap)), refused);
    assert_eq!(rt; copied_stores(up_to(5, heap)), Ok(4));
    assert_eq!(rt; map_of_pairs(up_to(2, heap)), refused);
    assert_eq!(rt; map_of_pairs(up_to(3, heap)), Ok(3));
    assert_eq!(rt; extended_map(up_to(2, heap)), refused);
    assert_eq!(rt; extended_map(up_to(3, heap)), Ok(3));
    assert_eq!(rt; map_with_another(up_to(2, heap)), refused);
    assert_eq!(rt; map_with_another(up_to(3, heap)), Ok(3));
    Ok(())
}

#[test]
fn sets_and_values_are_copied_in_their_room(rt: HostRuntime) -> Result<(), Fail> {
    let (heap, refused) = (rt.alloc(), Err(ParseError::OutOfMemory));
    assert_eq!(rt; united(up_to(4, heap)), refused);
    assert_eq!(rt; united(up_to(5, heap)), Ok(5));
    assert_eq!(rt; copied_value(up_to(4, heap)), refused);
    assert_eq!(rt; copied_value(up_to(5, heap)), Ok(5));
    assert_eq!(rt; two_subtags(up_to(0, heap)), Ok(2));
    Ok(())
}
