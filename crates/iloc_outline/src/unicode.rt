//! Reads what follows the singleton `u`.
ghost use Rattle.std.specs.Prelude.{◌≡◌, ◌+◌, length};
ghost use Rattle.iloc_spec_grammar.specs.Syntax.{code_u};
ghost use Rattle.iloc_pieces.specs.Cursor.{pieces_left};
ghost use Rattle.iloc_outline.specs.Reading.{FollowsSingleton, IsBodyAt, IsRoomRefused, reader_at};

use crate::fields::read_fields;
use crate::growth::{Growth, put};
use crate::reading::Found;
use crate::words::read_words;
use iloc_pieces::cursor::{Cursor, is_single};
use iloc_spans::span::{Role, Span};
use iloc_spans::spans::Spans;

/// Reads attributes and keywords, one at least, up to the next block. The singleton begins at the hyphen at `start`.
#[inline(always)]
pub fn read_unicode<G: Growth>(
    growth: G,
    start: usize,
    cursor: &mut Cursor<'_>,
    spans: &mut Spans,
    in_order: &mut bool,
) -> Found
    requires follows { FollowsSingleton start cursor.old }
    ensures read { IsBodyAt code_u start (reader_at cursor.old spans.old in_order.old)
        (reader_at cursor.new spans.new in_order.new) result }
    ensures refused { result ≡ Found.Full
        → IsRoomRefused G.refused spans.old (1 + length (pieces_left cursor.old)) }
{
    if is_single(*cursor) {
        return Found::Bad;
    }
    let singleton = Span {
        word: b'u' as u64,
        start,
        end: cursor.at - 1,
        role: Role::Singleton,
        edited: false,
    };
    if !put(growth, spans, singleton) {
        return Found::Full;
    }
    let found = match read_words(growth, Role::Attribute, cursor, spans, in_order) {
        Found::Next => read_fields(growth, Role::Keyword, cursor, spans, in_order),
        found => found,
    };
    found.at_block(cursor)
}
