//! A span comes to stand among others in order.
ghost use Rattle.std.specs.Prelude.{◌≡◌, ◌≢◌, ◌+◌, ◌-◌, ◌<◌, ◌≤◌, ◌∷◌, ◌++◌, length, map, slice_index, take, drop};
ghost use Rattle.iloc_memory.specs.Refusals.{RefusedWithin};
ghost use Rattle.iloc_spans.specs.Spans.{held_spans};
ghost use Rattle.iloc_spans.specs.Inserting.{IsInserted, IsTried};

use crate::span::{Role, Span};
use crate::spans::Spans;
use iloc_memory::Memory;

/// What became of a span.
#[derive(Clone, Copy)]
pub enum Inserted {
    /// It was put.
    Put,
    /// One of its number is there.
    There,
    /// There is no room for it.
    Full,
}

/// Puts a span where it belongs among those from `from` on, which are in the order of their numbers and differ. There is room
/// for it in place.
#[inline(always)]
pub fn insert_in_place(spans: &mut Spans, from: usize, span: Span) -> Inserted
    requires from { from ≤ spans.old.count }
    requires few { spans.old.count < 64 }
    ensures inserted { IsInserted from span (held_spans spans.old) (held_spans spans.new) result }
    ensures room { result ≢ Inserted.Full }
{
    let Spans { list, count, .. } = spans;
    let at = place_of(list, from, *count, &span);
    if at < *count && list[at].word == span.word {
        return Inserted::There;
    }
    insert_at(list, at, *count, span);
    *count += 1;
    Inserted::Put
}

/// Puts it so where the room in place is full. There may be too many words to try each place: a group takes them.
#[inline(never)]
pub fn insert_more<M: Memory>(memory: M, spans: &mut Spans, from: usize, span: Span) -> Inserted
    requires from { from ≤ spans.old.count }
    requires many { 64 ≤ spans.old.count }
    ensures inserted { IsInserted from span (held_spans spans.old) (held_spans spans.new) result }
    ensures refused { result ≡ Inserted.Full → IsTried span.role
        → RefusedWithin M.refused (length (held_spans spans.old) + 1) }
{
    match span.role {
        Role::Variant | Role::Attribute => return Inserted::Full,
        Role::Singleton | Role::Keyword | Role::Field => (),
    }
    if !spans.move_out(memory) {
        return Inserted::Full;
    }
    let held = spans.as_slice();
    let at = place_of(held, from, held.len(), &span);
    if at < held.len() && held[at].word == span.word {
        return Inserted::There;
    }
    if spans.insert(memory, at, span) {
        Inserted::Put
    } else {
        Inserted::Full
    }
}

// Where the last span comes before this one, counted from `from`, and one further.
#[inline(always)]
fn place_of(list: &[Span], from: usize, made: usize, span: &Span) -> usize
    requires made { made ≤ length list.now }
    requires from { from ≤ made }
    ensures least { from ≤ result }
    ensures within { result ≤ made }
    ensures after { from < result
        → slice_index (map (λ s. s.word) list.now) (result - 1) < span.now.word }
    ensures before { result < made
        → span.now.word ≤ slice_index (map (λ s. s.word) list.now) result }
{
    let mut at = made;
    'places: while at > from && list[at - 1].word >= span.word {
        at -= 1;
    }
    at
}

// Puts a span at a place, and those behind it one further.
#[inline(always)]
fn insert_at(list: &mut [Span; 64], at: usize, made: usize, span: Span)
    requires made { made < 64 }
    requires within { at ≤ made }
    ensures front { take (made + 1) list.new
        ≡ take at list.old ++ (span ∷ take (made - at) (drop at list.old)) }
    ensures back { drop (made + 1) list.new ≡ drop (made + 1) list.old }
{
    let mut from = made;
    'moved: while from > at {
        list[from] = list[from - 1];
        from -= 1;
    }
    list[at] = span;
}

/// Moves the spans in place from `from` on before those from `at` on, one by one: mostly they are few.
pub(crate) fn turn_in_place(list: &mut [Span; 64], at: usize, from: usize, count: usize)
    requires low { at ≤ from }
    requires high { from ≤ count }
    requires room { count ≤ 64 }
    ensures turned { take count list.new ≡ take at list.old
        ++ (take (count - from) (drop from list.old) ++ drop at (take from list.old)) }
    ensures long { length list.new ≡ 64 }
{
    for i in from..count {
        let span = list[i];
        insert_at(list, at + (i - from), i, span);
    }
}
