//! Two values of one type: their order, whether they are equal, and whether their hashes are.
use crate::lists::{List, pushed};
use crate::maps::map_of;
use crate::sets::set_of;
use crate::steps::spell;
use iloc_litemap::{LiteMap, Store};
use iloc_shortvec::{ShortBoxSlice, ShortWords};
use std::alloc::AllocError;
use std::hash::Hash;
use test_page::{Call, equal, ordered, refused};

/// Says how two values that were made compare.
fn made<T: Ord + Hash + Drop>(
    one: Result<T, AllocError>,
    other: Result<T, AllocError>,
    out: &mut String,
) {
    match (one, other) {
        (Ok(one), Ok(other)) => ordered(out, &one, &other),
        _ => refused(out),
    }
}

/// Says how two lists compare.
fn lists<L: List>(call: &Call<'_>, room: &mut Vec<u16>, out: &mut String) {
    spell(call.first, room);
    let one: Result<L, AllocError> = pushed(call.alloc, room.as_slice());
    spell(call.second, room);
    made(one, pushed(call.alloc, room.as_slice()), out)
}

/// Says whether two maps, which have no order, are equal.
fn maps<S: Store<u16, u16>>(call: &Call<'_>, room: &mut Vec<u16>, out: &mut String) {
    spell(call.first, room);
    let one: Result<LiteMap<u16, u16, S>, AllocError> = map_of(call.alloc, room.as_slice());
    spell(call.second, room);
    let other: Result<LiteMap<u16, u16, S>, AllocError> = map_of(call.alloc, room.as_slice());
    match (one, other) {
        (Ok(one), Ok(other)) => equal(out, &one, &other),
        _ => refused(out),
    }
}

/// The answer to a comparison.
pub fn answer(kind: &str, call: &Call<'_>, room: &mut Vec<u16>, out: &mut String) {
    match kind {
        "words" => lists::<ShortWords<u16>>(call, room, out),
        "boxes" => lists::<ShortBoxSlice<u16>>(call, room, out),
        "set" => {
            let one = set_of(call.alloc, call.first);
            made(one, set_of(call.alloc, call.second), out)
        }
        "map" => maps::<ShortBoxSlice<(u16, u16)>>(call, room, out),
        _ => maps::<Vec<(u16, u16)>>(call, room, out),
    }
}
