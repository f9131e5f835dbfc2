//! Lists of numbers that keep four in place, and lists that keep one. Steps say a number as the letter that it stands for.
use crate::steps::{
    Step, Stepping, Verb, answered, compared, is_done, replaced, say_letter, say_letters,
};
use iloc_shortvec::{ShortBoxSlice, ShortWords};
use std::alloc::{AllocError, Global};
use std::fmt;
use std::hash::Hash;
use test_page::{number, say};

/// What a list lends.
#[derive(Clone, Copy)]
pub struct Lent<'a> {
    /// How many items there are.
    pub count: usize,
    /// Whether there is none.
    pub is_empty: bool,
    /// The items as a slice.
    pub slice: &'a [u16],
    /// The items in turn.
    pub iter: &'a [u16],
    /// The only item.
    pub single: Option<&'a u16>,
    /// The first item.
    pub first: Option<&'a u16>,
    /// The item of the place that was asked for.
    pub item: Option<&'a u16>,
}

/// A list, however it is kept: the calls of its own. What rows say of them stands here once, for any list.
pub trait List: Default + Ord + Hash + fmt::Debug + Drop + Sized {
    /// A list that the call makes of the letters, or a copy.
    fn made(&self, alloc: Global, step: &Step<'_>) -> Result<Self, AllocError>;

    /// Puts one item in at a place or at the end, or all at the end.
    fn grow(
        &mut self,
        alloc: Global,
        call: Verb,
        place: usize,
        items: &[u16],
    ) -> Result<(), AllocError>;

    /// Takes a step that allocates nothing, and says its answer.
    fn shrink(&mut self, step: &Step<'_>, out: &mut String);

    /// What the list lends, with the item of the place.
    fn lend(&self, place: usize) -> Lent<'_>;

    /// Says what the list gives by value: the only item, or all in turn.
    fn give(self, call: &str, out: &mut String);
}

// The two kinds of lists have calls of the same names, and no trait in common.

macro_rules! made_list {
    ($list:ident, $old:expr, $alloc:expr, $step:expr) => {
        match $step.call {
            Verb::Vec => Ok($list::from_vec($step.letters.to_vec($alloc)?)),
            Verb::Iter => $list::from_iter($alloc, $step.letters.iter().copied()),
            Verb::Single => Ok($list::new_single($step.key)),
            Verb::Double => $list::new_double($alloc, $step.key, $step.value),
            Verb::New => Ok($list::new()),
            _ => $old.clone(),
        }
    };
}

macro_rules! shrunk_list {
    ($list:expr, $item:expr, $step:expr, $out:expr) => {{
        let place = $step.place;
        let is_there = place < $list.len();
        match $step.call {
            Verb::Remove if is_there => say_letter(Some($list.remove(place)), $out),
            Verb::Write if is_there => $item = $step.value,
            Verb::Reverse => $list.as_mut_slice().reverse(),
            Verb::Clear => $list.clear(),
            Verb::Retain => $list.retain(|item: &u16| {
                say_letter(Some(*item), $out);
                *item > $step.key
            }),
            _ => say($out, "no step"),
        }
    }};
}

macro_rules! lent_list {
    ($list:expr, $place:expr) => {
        Lent {
            count: $list.len(),
            is_empty: $list.is_empty(),
            slice: $list.as_slice(),
            iter: $list.iter().as_slice(),
            single: $list.single(),
            first: $list.first(),
            item: $list.get($place),
        }
    };
}

macro_rules! given_list {
    ($list:expr, $call:expr, $out:expr) => {
        match $call {
            "single" => say_letter($list.into_single(), $out),
            _ => {
                for item in $list {
                    say_letter(Some(item), $out);
                }
            }
        }
    };
}

impl List for ShortWords<u16> {
    fn made(&self, alloc: Global, step: &Step<'_>) -> Result<Self, AllocError> {
        made_list!(ShortWords, self, alloc, step)
    }

    fn grow(
        &mut self,
        alloc: Global,
        call: Verb,
        place: usize,
        items: &[u16],
    ) -> Result<(), AllocError> {
        match (call, items) {
            (Verb::Insert, [item]) if place <= self.len() => self.insert(alloc, place, *item),
            (Verb::Push, [item]) => self.push(alloc, *item),
            _ => self.extend_from_slice(alloc, items),
        }
    }

    fn shrink(&mut self, step: &Step<'_>, out: &mut String) {
        shrunk_list!(self, self.as_mut_slice()[step.place], step, out)
    }

    fn lend(&self, place: usize) -> Lent<'_> {
        lent_list!(self, place)
    }

    fn give(self, call: &str, out: &mut String) {
        given_list!(self, call, out)
    }
}

impl List for ShortBoxSlice<u16> {
    fn made(&self, alloc: Global, step: &Step<'_>) -> Result<Self, AllocError> {
        made_list!(ShortBoxSlice, self, alloc, step)
    }

    fn grow(
        &mut self,
        alloc: Global,
        call: Verb,
        place: usize,
        items: &[u16],
    ) -> Result<(), AllocError> {
        match (call, items) {
            (Verb::Insert, [item]) if place <= self.len() => self.insert(alloc, place, *item),
            (_, [item]) => self.push(alloc, *item),
            _ => Ok(()),
        }
    }

    fn shrink(&mut self, step: &Step<'_>, out: &mut String) {
        shrunk_list!(self, *self.item_mut(step.place), step, out)
    }

    fn lend(&self, place: usize) -> Lent<'_> {
        lent_list!(self, place)
    }

    fn give(self, call: &str, out: &mut String) {
        given_list!(self, call, out)
    }
}

/// Pushes the items one by one.
fn push_all<L: List>(alloc: Global, list: &mut L, items: &[u16]) -> Result<(), AllocError> {
    for item in items {
        list.grow(alloc, Verb::Push, 0, &[*item])?;
    }
    Ok(())
}

/// The list of these items, pushed one by one.
pub fn pushed<L: List>(alloc: Global, items: &[u16]) -> Result<L, AllocError> {
    let mut list = L::default();
    match push_all(alloc, &mut list, items) {
        Ok(()) => Ok(list),
        Err(error) => Err(error),
    }
}

/// Says what the list lends: whether it is empty, its only letter, the first, each of seven places, and all in turn.
fn describe<L: List>(list: &L, out: &mut String) {
    let lent = list.lend(0);
    if lent.is_empty {
        say(out, "empty ");
    }
    say(out, "only ");
    say_letter(lent.single.copied(), out);
    say(out, " first ");
    say_letter(lent.first.copied(), out);
    for place in 0..7 {
        say(out, " ");
        say_letter(list.lend(place).item.copied(), out);
    }
    say(out, " lent ");
    say_letters(lent.iter, out);
    let _ = write!(out, " {list:?}");
}

/// Says the only letter that a list gives by value, and all that another gives; false if one of the two is not there.
fn give<L: List>(
    one: Result<L, AllocError>,
    other: Result<L, AllocError>,
    out: &mut String,
) -> bool {
    match one {
        Ok(one) => match other {
            Ok(other) => {
                say(out, "only ");
                one.give("single", out);
                say(out, " given ");
                other.give("all", out);
                true
            }
            Err(_) => false,
        },
        Err(_) => false,
    }
}

/// Puts in what the step says, at a place that there is.
fn grow<L: List>(alloc: Global, list: &mut L, step: &Step<'_>, out: &mut String) -> bool {
    let place = step.place;
    match step.call {
        Verb::Push => is_done(list.grow(alloc, Verb::Push, 0, &[step.key]), out),
        Verb::Extend => is_done(list.grow(alloc, Verb::Extend, 0, step.letters), out),
        _ if place <= list.lend(0).count => {
            is_done(list.grow(alloc, Verb::Insert, place, &[step.value]), out)
        }
        _ => answered("no step", out),
    }
}

/// A list that steps change.
#[derive(Drop)]
pub struct Listed<L>(pub L);

impl<L: List> Stepping for Listed<L> {
    fn state(&self, out: &mut String) {
        let lent = self.0.lend(0);
        number(out, lent.count);
        say(out, ":");
        say_letters(lent.slice, out);
    }

    fn ends(&self, out: &mut String) {
        let count = self.0.lend(0).count;
        number(out, count);
        for place in [0, count.saturating_sub(1)] {
            say(out, " ");
            if let Some(item) = self.0.lend(place).item {
                number(out, usize::from(*item));
            }
        }
    }

    fn step(&mut self, alloc: Global, step: &Step<'_>, out: &mut String) -> bool {
        let list = &mut self.0;
        match step.call {
            Verb::Push | Verb::Insert | Verb::Extend => grow(alloc, list, step, out),
            Verb::Vec | Verb::Iter | Verb::Single | Verb::Double | Verb::New | Verb::Clone => {
                let made = list.made(alloc, step);
                replaced(list, made, out)
            }
            Verb::Give => {
                let copy = list.made(alloc, step);
                give(copy, list.made(alloc, step), out)
            }
            Verb::Fresh => {
                let fresh = pushed(alloc, list.lend(0).slice);
                compared(list, fresh, out)
            }
            Verb::Tell => {
                describe(list, out);
                true
            }
            _ => {
                list.shrink(step, out);
                true
            }
        }
    }
}
