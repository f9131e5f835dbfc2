//! Lists, sets and maps of many numbers, built by each step that grows: how many there are, the first and the last.
use crate::lists::{List, Listed};
use crate::maps::Long;
use crate::printing::say_room;
use crate::steps::{Step, Stepping, Verb, verb_of};
use iloc_litemap::{LiteMap, Probe, Store, place};
use iloc_shortvec::{ShortBoxSlice, ShortWords};
use iloc_word_list::Variants;
use iloc_writeable::{Writeable, to_string_or_borrow};
use std::alloc::{AllocError, Global};
use test_page::argument::number_of;
use test_page::{Call, number, refused, say, truth};

/// Room for the numbers of a row, for their words, and for the answers of steps, which no row says.
#[derive(Drop)]
pub struct Room {
    pub numbers: Vec<u16>,
    pub words: Vec<u8>,
    pub answer: String,
}

impl Room {
    /// Room for 65,536 numbers, for the words of 10,000, and for an answer.
    pub fn new(alloc: Global) -> Result<Self, AllocError> {
        Ok(Room {
            numbers: Vec::with_capacity(alloc, 65_536)?,
            words: Vec::with_capacity(alloc, 65_536)?,
            answer: String::with_capacity(alloc, 65_536)?,
        })
    }
}

/// The digit of a number below ten.
fn digit(number: u16) -> u8 {
    b'0' + (number % 10) as u8
}

/// The word of a number below 10,000, as `n0037`.
fn word_of(number: u16) -> [u8; 5] {
    [
        b'n',
        digit(number / 1000),
        digit(number / 100),
        digit(number / 10),
        digit(number),
    ]
}

/// Takes a step with one number.
fn take_one<V: Stepping>(
    alloc: Global,
    value: &mut V,
    call: Verb,
    number: u16,
    answer: &mut String,
) -> bool {
    let word = word_of(number);
    let step = Step {
        call,
        text: word.as_slice(),
        letters: &[number],
        place: 0,
        key: number,
        value: number,
    };
    answer.clear();
    value.step(alloc, &step, answer)
}

/// Takes a step with each number in turn.
fn take_each<V: Stepping>(alloc: Global, value: &mut V, call: Verb, room: &mut Room) -> bool {
    for number in room.numbers.as_slice() {
        if !take_one(alloc, value, call, *number, &mut room.answer) {
            return false;
        }
    }
    true
}

/// Takes a step with all numbers at once, and with their words.
fn take_all<V: Stepping>(alloc: Global, value: &mut V, call: Verb, room: &mut Room) -> bool {
    let step = Step {
        call,
        text: room.words.as_slice(),
        letters: room.numbers.as_slice(),
        place: 0,
        key: 0,
        value: 0,
    };
    room.answer.clear();
    value.step(alloc, &step, &mut room.answer)
}

/// Puts the numbers below one into the room, each as often as is said.
fn count_all(room: &mut Vec<u16>, below: u16, often: u16) {
    room.clear();
    for number in 0..below {
        for _ in 0..often {
            let _ = room.push(number);
        }
    }
}

/// Puts the numbers below one that leave the remainder, of two, into the room.
fn count_half(room: &mut Vec<u16>, below: u16, remainder: u16) {
    for number in 0..below {
        if number % 2 == remainder {
            let _ = room.push(number);
        }
    }
}

/// Puts the words of the numbers into the room, with slashes between.
fn spell_words(room: &mut Room) {
    room.words.clear();
    for number in room.numbers.as_slice() {
        let _ = room.words.extend_from_slice(word_of(*number).as_slice());
        let _ = room.words.push(b'/');
    }
}

/// Fills a list without items, by a call.
fn fill_list<V: Stepping>(
    alloc: Global,
    list: &mut V,
    call: Verb,
    below: u16,
    room: &mut Room,
) -> bool {
    count_all(&mut room.numbers, below, 1);
    match call {
        Verb::Push | Verb::Extend => take_each(alloc, list, call, room),
        Verb::Insert => {
            room.numbers.reverse();
            take_each(alloc, list, call, room)
        }
        Verb::ExtendOnce => take_all(alloc, list, Verb::Extend, room),
        Verb::Clone => take_each(alloc, list, Verb::Push, room)
            && take_all(alloc, list, call, room),
        _ => take_all(alloc, list, call, room),
    }
}

/// Fills a map without pairs, by a call.
fn fill_map<V: Stepping>(
    alloc: Global,
    map: &mut V,
    call: Verb,
    below: u16,
    room: &mut Room,
) -> bool {
    count_all(&mut room.numbers, below, 1);
    match call {
        Verb::Try => take_each(alloc, map, call, room),
        Verb::Insert => {
            room.numbers.reverse();
            take_each(alloc, map, Verb::Set, room)
        }
        Verb::Clone => take_each(alloc, map, Verb::Set, room) && take_all(alloc, map, call, room),
        _ => {
            count_all(&mut room.numbers, below, 2);
            take_all(alloc, map, call, room)
        }
    }
}

/// Fills a set without words, by a call.
fn fill_set<V: Stepping>(
    alloc: Global,
    set: &mut V,
    call: Verb,
    below: u16,
    room: &mut Room,
) -> bool {
    room.numbers.clear();
    match call {
        Verb::Union | Verb::Extend => {
            count_half(&mut room.numbers, below, 0);
            let is_done = take_each(alloc, set, Verb::Push, room);
            room.numbers.clear();
            count_half(&mut room.numbers, below, 1);
            spell_words(room);
            is_done && take_all(alloc, set, call, room)
        }
        Verb::Vec | Verb::Clone => {
            count_all(&mut room.numbers, below, 1);
            spell_words(room);
            let is_copied = call == Verb::Clone;
            take_all(alloc, set, Verb::Vec, room)
                && (!is_copied || take_all(alloc, set, call, room))
        }
        _ => {
            count_half(&mut room.numbers, below, 1);
            count_half(&mut room.numbers, below, 0);
            take_each(alloc, set, Verb::Push, room)
        }
    }
}

/// Says how many there are, the first and the last, or that an allocation failed.
fn say_ends<V: Stepping>(value: &V, is_done: bool, out: &mut String) {
    if is_done {
        value.ends(out);
    } else {
        refused(out);
    }
}

/// Says what a list has that the call fills.
fn list<L: List>(alloc: Global, call: Verb, below: u16, room: &mut Room, out: &mut String) {
    let mut list = Listed(L::default());
    let is_done = fill_list(alloc, &mut list, call, below, room);
    say_ends(&list, is_done, out)
}

/// Says what a map has that the call fills.
fn map<S: Store<u16, u16>>(
    alloc: Global,
    call: Verb,
    below: u16,
    room: &mut Room,
    out: &mut String,
) {
    let mut map: LiteMap<u16, u16, S> = LiteMap::new(alloc);
    let is_done = fill_map(alloc, &mut map, call, below, room);
    say_ends(&map, is_done, out)
}

/// Says what a set has that the call fills.
fn set(alloc: Global, call: Verb, below: u16, room: &mut Room, out: &mut String) {
    let mut set = Variants::new();
    let is_done = fill_set(alloc, &mut set, call, below, room);
    say_ends(&set, is_done, out)
}

/// Says how many of the numbers, and of as many beyond them, stand in the map, and the most comparisons that took.
fn search(map: &Long, below: u16, out: &mut String) {
    let mut there = 0usize;
    let mut most = 0u32;
    for key in 0..below.saturating_mul(2) {
        let mut probe = Probe::new(map.as_slice());
        if place(&mut probe, &key).is_ok() {
            there = there.saturating_add(1);
        }
        most = most.max(probe.count());
    }
    number(out, there);
    say(out, " within ");
    number(out, most as usize);
}

/// Says how the numbers are found in a map of them.
fn searched(alloc: Global, below: u16, room: &mut Room, out: &mut String) {
    let mut map = Long::new(alloc);
    if fill_map(alloc, &mut map, Verb::Insert, below, room) {
        search(&map, below, out);
    } else {
        refused(out);
    }
}

/// Says the number, or that there is none.
fn say_found(found: Option<u16>, out: &mut String) {
    match found {
        Some(found) => number(out, usize::from(found)),
        None => say(out, "none"),
    }
    say(out, " ");
}

/// Says what each look-up of the key answers, then what is taken out under it, and how many pairs are left.
fn look<S: Store<u16, u16>>(map: &mut LiteMap<u16, u16, S>, key: u16, out: &mut String) {
    say_found(map.get(&key).copied(), out);
    truth(out, map.contains_key(&key));
    say(out, " ");
    let lent = map.get_mut(&key).map(|value: &mut u16| *value);
    say_found(lent, out);
    say_found(map.remove(&key), out);
    number(out, map.len());
}

/// Looks a key up in a map of the odd numbers, as many as are said, each of which is its own value.
fn find<S: Store<u16, u16>>(
    alloc: Global,
    count: u16,
    key: u16,
    room: &mut Room,
    out: &mut String,
) {
    let mut map: LiteMap<u16, u16, S> = LiteMap::new(alloc);
    room.numbers.clear();
    count_half(&mut room.numbers, count.saturating_mul(2), 1);
    if take_each(alloc, &mut map, Verb::Set, room) {
        look(&mut map, key, out);
    } else {
        refused(out);
    }
}

/// Says the length and the room of the set's text, as one that is borrowed nowhere, or against other bytes.
fn printed(alloc: Global, below: u16, room: &mut Room, bytes: &[u8], out: &mut String) {
    let mut set = Variants::new();
    if fill_set(alloc, &mut set, Verb::Vec, below, room) {
        say_room(set.write_to_string(alloc), out);
        say(out, " ");
        say_room(to_string_or_borrow(alloc, &set, bytes), out);
    } else {
        refused(out);
    }
}

/// The number that the digits spell, or 0.
fn short_of(digits: &[u8]) -> u16 {
    u16::try_from(number_of(digits)).unwrap_or(0)
}

/// The answer to a row of many items.
pub fn answer(kind: &str, call: &Call<'_>, room: &mut Room, out: &mut String) {
    let alloc = call.alloc;
    let (below, fill) = (short_of(call.first), verb_of(call.second));
    match kind {
        "words" => list::<ShortWords<u16>>(alloc, fill, below, room, out),
        "boxes" => list::<ShortBoxSlice<u16>>(alloc, fill, below, room, out),
        "set" => set(alloc, fill, below, room, out),
        "map" => map::<ShortBoxSlice<(u16, u16)>>(alloc, fill, below, room, out),
        "vecmap" => map::<Vec<(u16, u16)>>(alloc, fill, below, room, out),
        "place" => searched(alloc, below, room, out),
        "find" => find::<ShortBoxSlice<(u16, u16)>>(alloc, below, short_of(call.second), room, out),
        "findvec" => find::<Vec<(u16, u16)>>(alloc, below, short_of(call.second), room, out),
        _ => printed(alloc, below, room, call.second, out),
    }
}
