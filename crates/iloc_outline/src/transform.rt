//! Reads what follows the singleton `t`.
ghost use Rattle.std.specs.Prelude.{◌≡◌, ◌+◌, ◌<◌, false, length};
ghost use Rattle.iloc_spec_grammar.specs.Syntax.{Language, code_t, is_word, languages};
ghost use Rattle.iloc_pieces.specs.Cursor.{piece_left, pieces_left};
ghost use Rattle.iloc_outline.specs.Reading.{FollowsSingleton, IsBodyAt, IsRoomRefused, block_span, reader_at};

use crate::fields::read_fields;
use crate::growth::{Growth, put};
use crate::identifier::read_front;
use crate::reading::Found;
use crate::words::read_words;
use iloc_pieces::cursor::{Cursor, is_language, is_single};
use iloc_spans::span::{Role, Span};
use iloc_spans::spans::Spans;

// The span of the singleton from one hyphen up to another.
#[inline(always)]
fn singleton(start: usize, end: usize) -> Span
    ensures { result ≡ block_span code_t start end false }
{
    Span {
        word: b't' as u64,
        start,
        end,
        role: Role::Singleton,
        edited: false,
    }
}

/// Reads an identifier and fields, one of both at least, up to the next block. The singleton begins at the hyphen at
/// `start`.
#[inline(always)]
pub fn read_transform<G: Growth>(
    growth: G,
    start: usize,
    cursor: &mut Cursor<'_>,
    spans: &mut Spans,
    in_order: &mut bool,
) -> Found
    requires follows { FollowsSingleton start cursor.old }
    ensures read { IsBodyAt code_t start (reader_at cursor.old spans.old in_order.old)
        (reader_at cursor.new spans.new in_order.new) result }
    ensures refused { result ≡ Found.Full
        → IsRoomRefused G.refused spans.old (1 + length (pieces_left cursor.old)) }
{
    if !is_language(*cursor) {
        return read_fields_alone(growth, start, cursor, spans, in_order);
    }
    let front = read_front(cursor);
    if !put(growth, spans, singleton(start, front.end)) {
        return Found::Full;
    }
    if front.is_all {
        return Found::End;
    }
    match read_words(growth, Role::Variant, cursor, spans, in_order) {
        Found::Next => read_fields(growth, Role::Field, cursor, spans, in_order).at_block(cursor),
        found => found,
    }
}

// Reads fields, one at least.
#[inline(always)]
fn read_fields_alone<G: Growth>(
    growth: G,
    start: usize,
    cursor: &mut Cursor<'_>,
    spans: &mut Spans,
    in_order: &mut bool,
) -> Found
    requires follows { FollowsSingleton start cursor.old }
    requires alone { is_word (Language languages) (piece_left cursor.old) ≡ false }
    ensures read { IsBodyAt code_t start (reader_at cursor.old spans.old in_order.old)
        (reader_at cursor.new spans.new in_order.new) result }
    ensures refused { result ≡ Found.Full
        → IsRoomRefused G.refused spans.old (1 + length (pieces_left cursor.old)) }
{
    if is_single(*cursor) {
        return Found::Bad;
    }
    if !put(growth, spans, singleton(start, cursor.at - 1)) {
        return Found::Full;
    }
    read_fields(growth, Role::Field, cursor, spans, in_order).at_block(cursor)
}
