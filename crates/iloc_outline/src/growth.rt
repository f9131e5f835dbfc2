//! What becomes of spans for which there is no room in place.
ghost use Rattle.std.specs.Prelude.{◌≡◌, ◌≤◌, ◌∷◌, ◌++◌, ℕ, Bool, [], ⊤, length, true, false};
ghost use Rattle.iloc_pieces.specs.Cursor.{IsLater, pieces_left};
ghost use Rattle.iloc_pieces.specs.declared.place.Cursor.{Cursor};
ghost use Rattle.iloc_outline.specs.Gathering.{Walks};
ghost use Rattle.iloc_spans.specs.Inserting.{IsInserted};
ghost use Rattle.iloc_outline.specs.Reading.{AreWordsRead, IsOfWord, IsRefusedIfTried, IsRoomRefused};
ghost use Rattle.iloc_spans.specs.Spans.{held_spans};
ghost use Rattle.iloc_spans.specs.declared.spans.Spans.{Spans};

use crate::reading::Found;
use crate::words::read_more_words;
use iloc_memory::Trees;
use iloc_pieces::cursor::Cursor;
use iloc_spans::inserting::{Inserted, insert_more};
use iloc_spans::span::{Role, Span};
use iloc_spans::spans::{MOST, Spans};

/// What is done where the room in place is full.
pub trait Growth: Copy {
    /// Any statement of a number that is true once room for so many items was refused.
    ghost refused: { ℕ → Type 0 };

    /// Puts a span behind the others. `false` if there is no room for it.
    fn put(self, spans: &mut Spans, span: Span) -> bool
        requires { 64 ≤ spans.old.count }
        ensures put { result ≡ true → held_spans spans.new ≡ held_spans spans.old ++ span ∷ [] }
        ensures full { result ≡ false → held_spans spans.new ≡ held_spans spans.old }
        ensures refused { result ≡ false → IsRoomRefused refused spans.old 1 };

    /// Puts a span where it belongs among those from `from` on. `Full` says also that words may be too many to try each
    /// place.
    fn insert(self, spans: &mut Spans, from: usize, span: Span) -> Inserted
        requires from { from ≤ spans.old.count }
        requires many { 64 ≤ spans.old.count }
        ensures put { IsInserted from span (held_spans spans.old) (held_spans spans.new) result }
        ensures refused { result ≡ Inserted.Full → IsRefusedIfTried refused span.role spans.old };

    /// Reads the rest of the words of this role, of which those from `from` on were put in order.
    fn read_words(
        self,
        role: Role,
        cursor: &mut Cursor<'_>,
        spans: &mut Spans,
        from: usize,
        in_order: &mut bool,
    ) -> Found
        requires role { IsOfWord role }
        requires later { IsLater cursor.old }
        requires from { from ≤ spans.old.count }
        requires many { 64 ≤ length (held_spans spans.old) }
        ensures read { (first : Cursor) (old : Spans) (last : ℕ) (o n : Bool) → old.count ≡ from
            → Walks role first cursor.old (held_spans old) (held_spans spans.old) last o n
            → AreWordsRead role first cursor.new old spans.new o in_order.new result }
        ensures refused { result ≡ Found.Full
            → IsRoomRefused refused spans.old (length (pieces_left cursor.old)) };
}

/// Puts a span behind the others. `false` if there is no room for it: in place there is room for 64, and room that grows
/// ends where memory is refused.
#[inline(always)]
pub fn put<G: Growth>(growth: G, spans: &mut Spans, span: Span) -> bool
    ensures put { result ≡ true → held_spans spans.new ≡ held_spans spans.old ++ span ∷ [] }
    ensures full { result ≡ false → (64 ≤ length (held_spans spans.old))
        × (held_spans spans.new ≡ held_spans spans.old) }
    ensures refused { result ≡ false → IsRoomRefused G.refused spans.old 1 }
{
    if spans.count >= MOST {
        return growth.put(spans, span.apart());
    }
    spans.put_in_place(span);
    true
}

/// There is room in place alone, so nothing reaches an allocator.
#[derive(Clone, Copy)]
pub struct InPlace;

impl Growth for InPlace {
    ghost refused = { λ _. ⊤ };

    #[inline(always)]
    fn put(self, _spans: &mut Spans, _span: Span) -> bool {
        false
    }

    #[inline(always)]
    fn insert(self, _spans: &mut Spans, _from: usize, _span: Span) -> Inserted {
        Inserted::Full
    }

    #[inline(always)]
    fn read_words(
        self,
        _role: Role,
        _cursor: &mut Cursor<'_>,
        _spans: &mut Spans,
        _from: usize,
        _in_order: &mut bool,
    ) -> Found {
        Found::Full
    }
}

/// The room grows, until this memory is refused.
#[derive(Clone, Copy)]
pub struct Growing<M: Trees> {
    /// Where room is asked for.
    pub memory: M,
}

impl<M: Trees> Growth for Growing<M> {
    ghost refused = { M.refused };

    #[inline(always)]
    fn put(self, spans: &mut Spans, span: Span) -> bool {
        spans.put_more(self.memory, span)
    }

    #[inline(always)]
    fn insert(self, spans: &mut Spans, from: usize, span: Span) -> Inserted {
        insert_more(self.memory, spans, from, span)
    }

    #[inline(always)]
    fn read_words(
        self,
        role: Role,
        cursor: &mut Cursor<'_>,
        spans: &mut Spans,
        from: usize,
        in_order: &mut bool,
    ) -> Found {
        read_more_words(self.memory, role, cursor, spans, from, in_order)
    }
}
