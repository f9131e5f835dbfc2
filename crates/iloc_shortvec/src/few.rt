//! One to four items in place.
ghost use Rattle.std.specs.Prelude.{◌≡◌, ◌<◌, ◌≤◌, ◌+◌, ◌-◌, [], ◌∷◌, ◌++◌, length, insert, remove, take, drop};
ghost use Rattle.std.specs.Borrow.{sem};
ghost use Rattle.std.specs.Iterator.{YieldsFirst};

use crate::front::front_mut;
use std::marker::Model;

/// How many of four cells are used.
#[derive(Clone, Copy)]
pub struct Count {
    used: u8,
}

impl Model for Count {
    ghost use Rattle.std.specs.Prelude.{ℕ, ◌≤◌};

    ghost Value = { ℕ };

    ghost view = { λ c. c.used };

    ghost invariant = { λ c. c.used ≤ 4 };

    ghost inverse = { λ n. record { used = n } };
}

impl Count {
    /// This many.
    pub fn of(used: usize) -> Self
        requires { used ≤ 4 }
        ensures { result ≡ used }
    {
        Count { used: used as u8 }
    }

    /// The number.
    pub fn get(self) -> usize
        ensures value { result ≡ self }
        ensures few { result ≤ 4 }
    {
        usize::from(self.used)
    }
}

/// Four cells, of which the first ones are used. The others hold copies, and count for nothing.
///
/// They begin at a multiple of eight bytes. So a list is copied by whole words: the tag and the count stand before them.
#[derive(Drop)]
pub struct Few<T: Copy> {
    aligned: [u64; 0],
    cells: [T; 4],
}

impl<T: Copy> Model for Few<T> {
    ghost use Rattle.std.specs.Prelude.{◌≡◌, List, length};

    ghost Value = { List T };

    ghost view = { λ f. f.cells };

    ghost invariant = { λ f. length f.cells ≡ 4 };
}

impl<T: Copy> Few<T> {
    ghost use Rattle.iloc_shortvec.specs.FewLends.{few_lends_slice};

    // These cells.
    fn of(cells: [T; 4]) -> Self
        ensures { result ≡ cells }
    {
        Few { aligned: [], cells }
    }

    /// One item.
    pub fn one(item: T) -> Self
        ensures { take 1 result ≡ item ∷ [] }
    {
        Few::of([item; 4])
    }

    /// Two items.
    pub fn two(first: T, second: T) -> Self
        ensures { take 2 result ≡ first ∷ second ∷ [] }
    {
        Few::of([first, second, second, second])
    }

    /// Copies of one to four items.
    pub fn from_slice(items: &[T]) -> Self
        requires not_empty { 0 < length items.now }
        requires fits { length items.now ≤ 4 }
        ensures { take (length items.now) result ≡ items.now }
    {
        let mut all = [items[0]; 4];
        all[..items.len()].copy_from_slice(items);
        Few::of(all)
    }

    /// The same cells once more.
    #[inline(always)]
    pub fn copied(&self) -> Self
        ensures { result ≡ self.now }
    {
        Few::of(self.cells)
    }

    /// The first items.
    pub fn as_slice(&self, count: Count) -> &[T]
        ensures items { result.now ≡ take count self.now }
        ensures length { length result.now ≡ count }
        ensures fits { length result.now ≤ 4 }
    {
        &self.cells[..count.get()]
    }

    /// The first items for writing.
    pub fn as_mut_slice(&mut self, count: Count) -> &mut [T]
        ensures* writes_back { sem 𝓛 (few_lends_slice T.row self.entry result) }
        ensures value { result.now ≡ take count self.old }
    {
        front_mut(&mut self.cells, count.get())
    }

    /// Puts an item at a place, if there is room.
    pub fn insert(&mut self, count: Count, index: usize, item: T)
        requires place { index ≤ count }
        requires room { count < 4 }
        ensures { take (count + 1) self.new ≡ insert (take count self.old) index item }
    {
        self.cells.copy_within(index..count.get(), index + 1);
        self.cells[index] = item;
    }

    /// Adds copies of the items at the end.
    pub fn extend_from_slice(&mut self, count: Count, items: &[T])
        requires room { count + length items.now ≤ 4 }
        ensures { take (count + length items.now) self.new ≡ take count self.old ++ items.now }
    {
        let start = count.get();
        let all = &mut self.cells[..];
        all[start..start + items.len()].copy_from_slice(items);
    }

    /// Removes an item.
    pub fn remove(&mut self, count: Count, index: usize)
        requires { index < count }
        ensures { take (count - 1) self.new ≡ remove (take count self.old) index }
    {
        self.cells.copy_within(index + 1..count.get(), index);
    }

    /// The first cell.
    pub fn first(&self) -> T
        ensures { take 1 self.now ≡ result ∷ [] }
    {
        self.cells[0]
    }

    /// The cells after the first, and the last once more.
    pub fn after_first(&self) -> Self
        ensures { take 3 result ≡ drop 1 self.now }
    {
        let [_, second, third, last] = self.cells;
        Few::of([second, third, last, last])
    }

    /// Takes out the first of so many items, if there is one.
    #[inline(always)]
    pub fn take_first(&mut self, count: &mut Count) -> Option<T>
        ensures { YieldsFirst (λ items. items) (take count.old self.old) result
            (take count.new self.new) }
    {
        if count.get() == 0 {
            return None;
        }
        let item = self.first();
        *self = self.after_first();
        *count = Count::of(count.get() - 1);
        Some(item)
    }
}
