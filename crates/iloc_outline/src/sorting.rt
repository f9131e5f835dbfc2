//! Spans in order.
ghost use Rattle.std.specs.Prelude.{◌≡◌, ◌+◌, ◌≤◌, ◌<◌, ◌↔◌, ℕ, List, ◌++◌, IsTrue, length, map, slice_index_or, take, true, false};
ghost use Rattle.std.specs.List.{list_any};
ghost use Rattle.std.specs.Ordering.{nat_cmp};
ghost use Rattle.std.specs.FinMap.{is_sorted, put as put_entry};
ghost use Rattle.iloc_spec_grammar.specs.Syntax.{Text, IsAmong};
ghost use Rattle.iloc_outline.specs.Parts.{Part};
ghost use Rattle.iloc_outline.specs.Spans.{Spell};
ghost use Rattle.iloc_outline.specs.Groups.{AreGroups, is_greater, parts_in};
ghost use Rattle.iloc_outline.specs.Reading.{IsRefusedIfTried, IsRoomRefused};
ghost use Rattle.iloc_spans.specs.Spans.{held_spans};
ghost use Rattle.iloc_spans.specs.Inserting.{IsInserted, IsPutFrom};

use crate::growth::{Growth, put};
use iloc_spans::inserting::{Inserted, insert_in_place};
use iloc_spans::span::{Role, Span};
use iloc_spans::spans::{MOST, Spans};

/// Puts a span behind the others if its number is greater than the last one, which it is from then on; else where it belongs
/// among those from `from` on. In `in_order` it says whether it stands behind the others and is not edited.
#[inline(always)]
pub fn put_from<G: Growth>(
    growth: G,
    spans: &mut Spans,
    from: usize,
    last: &mut u64,
    span: Span,
    in_order: &mut bool,
) -> Inserted
    requires { from ≤ spans.old.count }
    ensures put { IsPutFrom from span (held_spans spans.old) (held_spans spans.new)
        last.old last.new in_order.old in_order.new result }
    ensures full { result ≡ Inserted.Full → 64 ≤ length (held_spans spans.old) }
    ensures refused { result ≡ Inserted.Full → IsRefusedIfTried G.refused span.role spans.old }
{
    if span.edited {
        *in_order = false;
    }
    if span.word <= *last {
        *in_order = false;
        return insert_from(growth, spans, from, span.apart());
    }
    *last = span.word;
    if put(growth, spans, span) {
        Inserted::Put
    } else {
        Inserted::Full
    }
}

/// Puts a span where it belongs among those from `from` on, which are in the order of their numbers and differ.
#[inline(never)]
pub fn insert_from<G: Growth>(growth: G, spans: &mut Spans, from: usize, span: Span) -> Inserted
    requires { from ≤ spans.old.count }
    ensures inserted { IsInserted from span (held_spans spans.old) (held_spans spans.new) result }
    ensures full { result ≡ Inserted.Full → 64 ≤ length (held_spans spans.old) }
    ensures refused { result ≡ Inserted.Full → IsRefusedIfTried G.refused span.role spans.old }
{
    if spans.count >= MOST {
        return growth.insert(spans, from, span);
    }
    insert_in_place(spans, from, span)
}

/// Whether a block of this rank is among the spans.
#[inline(never)]
pub fn has_block(spans: &Spans, rank: u64) -> bool
    ensures { (t : Text) (before : List Part) (groups : List (ℕ × List Part))
        → AreGroups before groups
        → Spell t spans.now (before ++ parts_in groups)
        → IsTrue result ↔ IsAmong nat_cmp rank (map (λ (r, _). r) groups) }
{
    let held = spans.as_slice();
    for i in 0..held.len() {
        let span = &held[i];
        if span.role == Role::Singleton && span.word == rank {
            return true;
        }
    }
    false
}

/// Moves the last block, whose spans begin at `from`, before the first block of a greater rank. No block has its own.
#[inline(never)]
pub fn place_block(spans: &mut Spans, from: usize, rank: u64)
    requires { from ≤ spans.old.count }
    ensures placed { (t : Text) (before ps : List Part) (groups : List (ℕ × List Part))
        → AreGroups before groups
        → is_sorted nat_cmp groups ≡ true
        → ¬ (IsAmong nat_cmp rank (map (λ (r, _). r) groups))
        → length (before ++ parts_in groups) ≡ from
        → Spell t spans.old ((before ++ parts_in groups) ++ ps)
        → Spell t spans.new (before ++ parts_in (put_entry nat_cmp rank ps groups)) }
    ensures same { spans.new.count ≡ spans.old.count }
{
    let at = place_before(spans.as_slice(), from, rank);
    spans.turn(at, from);
}

// Where the first block of a greater rank begins among the first `from` spans; `from` if there is none.
#[inline(always)]
fn place_before(held: &[Span], from: usize, rank: u64) -> usize
    requires { from ≤ length held.now }
    ensures within { result ≤ from }
    ensures none { list_any (λ s. is_greater rank s.role s.word) (take result held.now) ≡ false }
    ensures some { (d : Span) → result < from
        → is_greater rank (slice_index_or held.now result d).role
        (slice_index_or held.now result d).word ≡ true }
{
    let mut at = 0;
    'places: while at < from && !(held[at].role == Role::Singleton && held[at].word > rank) {
        at += 1;
    }
    at
}
