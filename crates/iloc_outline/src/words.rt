//! Reads variants and attributes.
ghost use Rattle.std.specs.Prelude.{◌≡◌, ◌≢◌, ◌⊎◌, ◌≤◌, ◌++◌, ℕ, Bool, length};
ghost use Rattle.iloc_spec_grammar.specs.Syntax.{IsWord, is_word};
ghost use Rattle.iloc_pieces.specs.Cursor.{IsLater, piece_left, pieces_left};
ghost use Rattle.iloc_outline.specs.Gathering.{Walks};
ghost use Rattle.iloc_spans.specs.Group.{group_spans};
ghost use Rattle.iloc_outline.specs.Reading.{AreWordsRead, IsOfWord, IsRoomRefused, role_kind, word_span};
ghost use Rattle.iloc_spans.specs.Spans.{held_spans};
ghost use Rattle.iloc_spans.specs.declared.spans.Spans.{Spans};
ghost use Rattle.iloc_pieces.specs.declared.place.Cursor.{Cursor};

use crate::growth::Growth;
use crate::reading::Found;
use crate::sorting::put_from;
use iloc_memory::{Memory, Trees};
use iloc_pieces::cursor::{Cursor, advance, is_attribute, is_last, is_variant, word_number};
use iloc_spans::group::Group;
use iloc_spans::inserting::Inserted;
use iloc_spans::span::{Role, Span};
use iloc_spans::spans::Spans;

// Whether the piece is a word of this role.
#[inline(always)]
fn fits(role: Role, cursor: Cursor<'_>) -> bool
    ensures { result ≡ is_word (role_kind role) (piece_left cursor.entry) }
{
    match role {
        Role::Variant => is_variant(cursor),
        _ => is_attribute(cursor),
    }
}

// The span of the word.
#[inline(always)]
fn span_of(role: Role, cursor: Cursor<'_>) -> Span
    requires later { IsLater cursor }
    requires word { IsWord (role_kind role) (piece_left cursor) }
    ensures { result ≡ word_span role cursor.entry }
{
    Span {
        word: word_number(cursor),
        start: cursor.at - 1,
        end: cursor.at + cursor.piece_length,
        role,
        edited: false,
    }
}

/// Reads the words of this role that come first, attributes or variants, and puts their spans in order. A variant that comes
/// twice is refused; of equal attributes the first stays.
#[inline(always)]
pub fn read_words<G: Growth>(
    growth: G,
    role: Role,
    cursor: &mut Cursor<'_>,
    spans: &mut Spans,
    in_order: &mut bool,
) -> Found
    requires role { IsOfWord role }
    requires later { IsLater cursor.old }
    ensures read { AreWordsRead role cursor.old cursor.new spans.old spans.new in_order.old
        in_order.new result }
    ensures refused { result ≡ Found.Full
        → IsRoomRefused G.refused spans.old (length (pieces_left cursor.old)) }
{
    let from = spans.count;
    let mut last = 0;
    'words: while fits(role, *cursor) {
        let span = span_of(role, *cursor);
        match put_from(growth, spans, from, &mut last, span, in_order) {
            Inserted::Put => (),
            Inserted::There => {
                if role == Role::Variant {
                    return Found::Repeated;
                }
            }
            Inserted::Full => return growth.read_words(role, cursor, spans, from, in_order),
        }
        if is_last(*cursor) {
            return Found::End;
        }
        advance(cursor);
    }
    Found::Next
}

/// Reads the rest of them where there is no room in place: all of the group, which began at `from` and of which so many
/// were read, is put in order by a tree.
#[inline(never)]
pub fn read_more_words<M: Trees>(
    memory: M,
    role: Role,
    cursor: &mut Cursor<'_>,
    spans: &mut Spans,
    from: usize,
    in_order: &mut bool,
) -> Found
    requires role { IsOfWord role }
    requires later { IsLater cursor.old }
    requires from { from ≤ spans.old.count }
    requires many { 64 ≤ length (held_spans spans.old) }
    ensures read { (first : Cursor) (old : Spans) (last : ℕ) (o n : Bool) → old.count ≡ from
        → Walks role first cursor.old (held_spans old) (held_spans spans.old) last o n
        → AreWordsRead role first cursor.new old spans.new o in_order.new result }
    ensures refused { result ≡ Found.Full
        → IsRoomRefused M.refused spans.old (length (pieces_left cursor.old)) }
{
    *in_order = false;
    let Some(mut group) = spans.take_from(memory, from) else {
        return Found::Full;
    };
    'words: while fits(role, *cursor) {
        match group.put(memory, span_of(role, *cursor)) {
            Inserted::Put => (),
            Inserted::There => {
                if role == Role::Variant {
                    return Found::Repeated;
                }
            }
            Inserted::Full => return Found::Full,
        }
        if is_last(*cursor) {
            return put_group(memory, &group, spans, Found::End);
        }
        advance(cursor);
    }
    put_group(memory, &group, spans, Found::Next)
}

// What was found, once the group is put behind the other spans.
fn put_group<M: Memory>(memory: M, group: &Group, spans: &mut Spans, found: Found) -> Found
    ensures put { (result ≡ Found.Full) ⊎ (result ≡ found)
        × (held_spans spans.new ≡ held_spans spans.old ++ group_spans group.now) }
    ensures refused { result ≢ found
        → IsRoomRefused M.refused spans.old (length (group_spans group.now)) }
{
    if group.put_into(memory, spans) {
        found
    } else {
        Found::Full
    }
}
