//! The spans of a text, as they are read.
ghost use Rattle.std.specs.Prelude.{◌≡◌, ◌≢◌, ◌+◌, ◌-◌, ◌<◌, ◌≤◌, [], ◌∷◌, ◌++◌, IfSome, None, drop, length, take, true, false};
ghost use Rattle.iloc_memory.specs.Refusals.{RefusedWithin};
ghost use Rattle.iloc_spans.specs.More.{more_spans};

use crate::group::Group;
use crate::inserting::{Inserted, turn_in_place};
use crate::more::{self, More};
use crate::span::{NO_SPANS, Span};
use iloc_memory::{Memory, Trees};

/// How many spans there is room for in place.
pub const MOST: usize = 64;

/// Room for the spans of a text: 64 in place, and as many as memory holds if it may grow.
#[derive(Drop)]
pub struct Spans {
    /// Room in place. What stands behind the spans says nothing.
    pub list: [Span; 64],
    /// How many may stand in place: 64, or none once all of them stand in `more`.
    pub room: usize,
    /// How many spans there are.
    pub count: usize,
    /// Room that grows, if there is any.
    pub more: Option<More>,
    ghost long: { length list ≡ 64 },
    ghost within: { room ≢ 0 → (room ≡ 64) × (count ≤ 64) },
    ghost many: { room ≡ 0 → (count ≡ length (more_spans more)) × (64 ≤ count) },
}

impl Spans {
    ghost use Rattle.iloc_spans.specs.Spans.{held_spans};
    ghost use Rattle.iloc_spans.specs.Group.{group_spans};
    ghost use Rattle.iloc_spans.specs.Inserting.{spans_in_order};

    /// None, and room for 64. It allocates nothing. The room is copied as a whole: made span by span it would be copied twice.
    #[inline(always)]
    pub fn new() -> Spans
        ensures none { held_spans result ≡ [] }
        ensures place { result.room ≡ 64 }
    {
        Spans {
            list: *NO_SPANS,
            room: MOST,
            count: 0,
            more: None,
        }
    }

    /// The spans.
    #[inline(always)]
    pub fn as_slice(&self) -> &[Span]
        ensures { result.now ≡ held_spans self.now }
    {
        if self.count >= MOST {
            return self.many();
        }
        &self.list[..self.count]
    }

    // Them where the room in place is full.
    #[inline(never)]
    fn many(&self) -> &[Span]
        ensures { result.now ≡ held_spans self.now }
    {
        if self.room == 0 {
            return more::slice_of(&self.more);
        }
        &self.list[..self.count]
    }

    /// Forgets all of them.
    #[inline(always)]
    pub fn clear(&mut self)
        ensures { held_spans self.new ≡ [] }
    {
        if self.count >= MOST {
            self.room = MOST;
        }
        self.count = 0;
    }

    /// Puts a span behind the others, where there is room in place: field by field, since as a whole it would be stored twice.
    #[inline(always)]
    pub fn put_in_place(&mut self, span: Span)
        requires { self.old.count < 64 }
        ensures { held_spans self.new ≡ held_spans self.old ++ span ∷ [] }
    {
        let to = &mut self.list[self.count];
        to.word = span.word;
        to.start = span.start;
        to.end = span.end;
        to.role = span.role;
        to.edited = span.edited;
        self.count += 1;
    }

    /// Puts a span behind the others, wherever there is room. `false` if memory is refused.
    pub(crate) fn put_anywhere<M: Memory>(&mut self, memory: M, span: Span) -> bool
        ensures put { result ≡ true → held_spans self.new ≡ held_spans self.old ++ span ∷ [] }
        ensures refused { result ≡ false
            → RefusedWithin M.refused (length (held_spans self.old) + 1) }
    {
        if self.count >= MOST {
            return self.put_more(memory, span);
        }
        self.put_in_place(span);
        true
    }

    /// Moves the spans from `from` on before those from `at` on.
    #[inline(never)]
    pub fn turn(&mut self, at: usize, from: usize)
        requires low { at ≤ from }
        requires high { from ≤ self.old.count }
        ensures turned { held_spans self.new ≡ take at (held_spans self.old)
            ++ (drop (from - at) (drop at (held_spans self.old))
            ++ take (from - at) (drop at (held_spans self.old))) }
        ensures same { self.new.count ≡ self.old.count }
    {
        if self.room == 0 {
            more::turn(&mut self.more, at, from);
            return;
        }
        turn_in_place(&mut self.list, at, from, self.count);
    }

    /// Takes the spans from `from` on into a group. `None` if memory is refused.
    pub fn take_from<M: Trees>(&mut self, memory: M, from: usize) -> Option<Group>
        requires { from ≤ self.old.count }
        ensures taken { IfSome result (λ g.
            (group_spans g ≡ spans_in_order (drop from (held_spans self.old)))
            × (held_spans self.new ≡ take from (held_spans self.old))) }
        ensures refused { result ≡ None → RefusedWithin M.refused 1 }
    {
        let mut group = Group::new(memory);
        let held = self.as_slice();
        for i in from..held.len() {
            if let Inserted::Full = group.put(memory, held[i]) {
                return None;
            }
        }
        self.truncate(from);
        Some(group)
    }

    // Forgets the spans from a place on.
    fn truncate(&mut self, to: usize)
        requires { to ≤ self.old.count }
        ensures { held_spans self.new ≡ take to (held_spans self.old) }
    {
        if self.room == 0 && to >= MOST {
            more::cut(&mut self.more, to);
        }
        if self.room == 0 && to < MOST {
            self.list = first_in_place(more::slice_of(&self.more), to);
            self.room = MOST;
        }
        self.count = to;
    }

    /// Puts a span behind the others where the room in place is full. `false` if memory is refused.
    #[inline(never)]
    pub fn put_more<M: Memory>(&mut self, memory: M, span: Span) -> bool
        requires { 64 ≤ self.old.count }
        ensures put { result ≡ true → held_spans self.new ≡ held_spans self.old ++ span ∷ [] }
        ensures full { result ≡ false → held_spans self.new ≡ held_spans self.old }
        ensures refused { result ≡ false
            → RefusedWithin M.refused (length (held_spans self.old) + 1) }
    {
        self.move_out(memory) && self.insert(memory, self.count, span)
    }

    /// Moves the spans to the room that grows, once the room in place is full. `false` if memory is refused.
    pub(crate) fn move_out<M: Memory>(&mut self, memory: M) -> bool
        requires { 64 ≤ self.old.count }
        ensures held { held_spans self.new ≡ held_spans self.old }
        ensures count { self.new.count ≡ self.old.count }
        ensures moved { result ≡ true → self.new.room ≡ 0 }
        ensures refused { result ≡ false
            → RefusedWithin M.refused (length (held_spans self.old)) }
    {
        if self.room == 0 {
            return true;
        }
        if !more::fill(memory, &mut self.more, &self.list) {
            return false;
        }
        self.room = 0;
        true
    }

    /// Puts a span at a place in the room that grows. `false` if memory is refused.
    pub(crate) fn insert<M: Memory>(&mut self, memory: M, at: usize, span: Span) -> bool
        requires moved { self.old.room ≡ 0 }
        requires within { at ≤ self.old.count }
        ensures put { result ≡ true → held_spans self.new
            ≡ take at (held_spans self.old) ++ span ∷ drop at (held_spans self.old) }
        ensures full { result ≡ false → held_spans self.new ≡ held_spans self.old }
        ensures refused { result ≡ false
            → RefusedWithin M.refused (length (held_spans self.old) + 1) }
    {
        if !more::insert(memory, &mut self.more, at, span) {
            return false;
        }
        self.count += 1;
        true
    }
}

// The first spans of a list, with room in place behind them.
fn first_in_place(list: &[Span], count: usize) -> [Span; 64]
    requires few { count ≤ 64 }
    requires within { count ≤ length list.now }
    ensures first { take count result ≡ take count list.now }
    ensures long { length result ≡ 64 }
{
    let mut room = *NO_SPANS;
    room[..count].copy_from_slice(&list[..count]);
    room
}
