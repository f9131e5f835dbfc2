//! Steps on a map of letters, over a `Vec` and over a list that keeps one pair in place.
use crate::steps::{Step, Stepping, Verb, answered, is_done, replaced, say_letter};
use iloc_litemap::{LiteMap, Store};
use std::alloc::{AllocError, Global};
use test_page::{hash_of, number, say, truth};

pub type Long = LiteMap<u16, u16>;

/// The pairs of a key and a value that the letters are.
fn pairs_of(alloc: Global, letters: &[u16]) -> Result<Vec<(u16, u16)>, AllocError> {
    let mut pairs = Vec::new(alloc);
    for pair in letters.chunks(2) {
        if let [key, value] = pair {
            pairs.push((*key, *value))?;
        }
    }
    Ok(pairs)
}

/// Sets each of the pairs, one by one.
fn set_all<S: Store<u16, u16>>(
    alloc: Global,
    map: &mut LiteMap<u16, u16, S>,
    pairs: &[(u16, u16)],
) -> Result<(), AllocError> {
    for (key, value) in pairs {
        map.insert(alloc, *key, *value)?;
    }
    Ok(())
}

/// The map of these pairs, set one by one.
pub fn map_of<S: Store<u16, u16>>(
    alloc: Global,
    letters: &[u16],
) -> Result<LiteMap<u16, u16, S>, AllocError> {
    let mut map = LiteMap::new(alloc);
    match pairs_of(alloc, letters) {
        Ok(pairs) => match set_all(alloc, &mut map, pairs.as_slice()) {
            Ok(()) => Ok(map),
            Err(error) => Err(error),
        },
        Err(error) => Err(error),
    }
}

/// The map that the call makes: of the letters' pairs at once, a copy, or one that takes the pairs of another.
fn made<S: Store<u16, u16>>(
    alloc: Global,
    map: &LiteMap<u16, u16, S>,
    step: &Step<'_>,
) -> Result<LiteMap<u16, u16, S>, AllocError> {
    match step.call {
        Verb::Pairs => LiteMap::from_pairs(alloc, pairs_of(alloc, step.letters)?),
        Verb::Clone | Verb::Give => map.clone(),
        _ => {
            let pairs = map.as_slice().to_vec(alloc)?;
            Ok(LiteMap::from_sorted_store_unchecked(S::lm_from_vec(pairs)))
        }
    }
}

/// Sets each of the pairs of the letters, at once or by their map.
fn extend<S: Store<u16, u16>>(
    alloc: Global,
    map: &mut LiteMap<u16, u16, S>,
    step: &Step<'_>,
) -> Result<(), AllocError> {
    match step.call {
        Verb::Map => map.extend_from_map(alloc, map_of(alloc, step.letters)?),
        _ => map.extend(alloc, pairs_of(alloc, step.letters)?),
    }
}

/// Says the pair.
fn say_pair(key: u16, value: u16, out: &mut String) {
    say_letter(Some(key), out);
    say_letter(Some(value), out);
}

/// Says whether the map is empty, and its pairs in turn.
fn describe<S: Store<u16, u16>>(map: &LiteMap<u16, u16, S>, out: &mut String) {
    if map.is_empty() {
        say(out, "empty ");
    }
    say(out, "lent ");
    for (key, value) in map.iter() {
        say_pair(*key, *value, out);
    }
}

/// Says the pairs that a map gives by value.
fn give<S: Store<u16, u16>>(
    made: Result<LiteMap<u16, u16, S>, AllocError>,
    out: &mut String,
) -> bool {
    match made {
        Ok(map) => {
            for (key, value) in map {
                say_pair(key, value, out);
            }
            true
        }
        Err(_) => false,
    }
}

/// Says whether a map that was made another way is the same.
fn compared<S: Store<u16, u16>>(
    map: &LiteMap<u16, u16, S>,
    made: Result<LiteMap<u16, u16, S>, AllocError>,
    out: &mut String,
) -> bool {
    match made {
        Ok(made) => {
            let is_same = *map == made && hash_of(map) == hash_of(&made);
            answered(if is_same { "same" } else { "other" }, out)
        }
        Err(_) => false,
    }
}

/// The answer to a step that allocates nothing.
fn shrink<S: Store<u16, u16>>(
    map: &mut LiteMap<u16, u16, S>,
    step: &Step<'_>,
    out: &mut String,
) -> bool {
    match step.call {
        Verb::Get => say_letter(map.get(&step.key).copied(), out),
        Verb::Has => truth(out, map.contains_key(&step.key)),
        Verb::Write => match map.get_mut(&step.key) {
            Some(place) => {
                *place = step.value;
                say(out, "written");
            }
            None => say(out, "none"),
        },
        Verb::Remove => say_letter(map.remove(&step.key), out),
        Verb::Clear => map.clear(),
        Verb::Tell => describe(map, out),
        Verb::Retain => map.retain(|key: &u16, value: &u16| {
            say_pair(*key, *value, out);
            *key > step.key
        }),
        _ => say(out, "no step"),
    }
    true
}

/// The answer to a step that sets a key.
fn set<S: Store<u16, u16>>(
    alloc: Global,
    map: &mut LiteMap<u16, u16, S>,
    step: &Step<'_>,
    out: &mut String,
) -> bool {
    match map.insert(alloc, step.key, step.value) {
        Ok(old) => {
            say_letter(old, out);
            true
        }
        Err(_) => false,
    }
}

/// The answer to a step that adds a key if it is new.
fn add<S: Store<u16, u16>>(
    alloc: Global,
    map: &mut LiteMap<u16, u16, S>,
    step: &Step<'_>,
    out: &mut String,
) -> bool {
    match map.try_insert(alloc, step.key, step.value) {
        Ok(Some((key, value))) => {
            say_pair(key, value, out);
            true
        }
        Ok(None) => answered("none", out),
        Err(_) => false,
    }
}

impl<S: Store<u16, u16>> Stepping for LiteMap<u16, u16, S> {
    fn state(&self, out: &mut String) {
        number(out, self.len());
        say(out, ":");
        for (key, value) in self.as_slice() {
            say_pair(*key, *value, out);
        }
    }

    fn ends(&self, out: &mut String) {
        let count = self.len();
        number(out, count);
        for place in [0, count.saturating_sub(1)] {
            say(out, " ");
            if let Some((key, value)) = self.as_slice().get(place) {
                number(out, usize::from(*key));
                say(out, "=");
                number(out, usize::from(*value));
            }
        }
    }

    fn step(&mut self, alloc: Global, step: &Step<'_>, out: &mut String) -> bool {
        match step.call {
            Verb::Set => set(alloc, self, step, out),
            Verb::Try => add(alloc, self, step, out),
            Verb::Extend | Verb::Map => is_done(extend(alloc, self, step), out),
            Verb::Pairs | Verb::Stored | Verb::Clone => {
                let made = made(alloc, self, step);
                replaced(self, made, out)
            }
            Verb::Give => give(made(alloc, self, step), out),
            Verb::Fresh => compared(self, made(alloc, self, step), out),
            _ => shrink(self, step, out),
        }
    }
}
