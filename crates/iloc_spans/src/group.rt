//! Many spans in order. Words that come out of order are put so where the room in place is full: n of them take n log n
//! steps.
ghost use Rattle.std.specs.Prelude.{◌≡◌, ◌+◌, ◌≤◌, ℕ, [], ◌++◌, length, map, true, false};
ghost use Rattle.iloc_memory.specs.Refusals.{RefusedWithin};
ghost use Rattle.iloc_spans.specs.declared.span.Span.{Span};

use crate::inserting::Inserted;
use crate::span::Span;
use crate::spans::Spans;
use iloc_memory::{Memory, Trees};
use std::collections::BTreeMap;

/// Spans in the order of their numbers, of which the first of equals counts.
#[derive(Drop)]
pub struct Group {
    tree: BTreeMap<u64, Span>,
    ghost keyed: { map (λ (e : ℕ × Span). e.0) tree.entries
        ≡ map (λ (e : ℕ × Span). e.1.word) tree.entries },
}

impl Group {
    ghost use Rattle.iloc_spans.specs.Group.{IsGrouped, group_spans};
    ghost use Rattle.iloc_spans.specs.Spans.{held_spans};

    /// None. It allocates nothing.
    pub fn new<M: Trees>(memory: M) -> Group
        ensures { group_spans result ≡ [] }
    {
        Group {
            tree: memory.empty_tree(),
        }
    }

    /// Puts a span where it belongs, unless one of its number is there. `Full` says that memory was refused.
    pub fn put<M: Trees>(&mut self, memory: M, span: Span) -> Inserted
        ensures put { IsGrouped span (group_spans self.old) (group_spans self.new) result }
        ensures few { length (group_spans self.new) ≤ length (group_spans self.old) + 1 }
        ensures refused { result ≡ Inserted.Full → RefusedWithin M.refused 1 }
    {
        if self.tree.contains_key(&span.word) {
            return Inserted::There;
        }
        match memory.insert_in_tree(&mut self.tree, span.word, span) {
            Ok(_) => Inserted::Put,
            Err(_) => Inserted::Full,
        }
    }

    /// Puts them all behind other spans. `false` if memory was refused.
    pub fn put_into<M: Memory>(&self, memory: M, spans: &mut Spans) -> bool
        ensures put { result ≡ true → held_spans spans.new
            ≡ held_spans spans.old ++ group_spans self.now }
        ensures refused { result ≡ false → RefusedWithin M.refused
            (length (held_spans spans.old) + length (group_spans self.now)) }
    {
        for span in self.tree.values() {
            if !spans.put_anywhere(memory, *span) {
                return false;
            }
        }
        true
    }
}
