//! Reads what follows the singleton `x`, or another one than `t` and `u`.
ghost use Rattle.std.specs.Prelude.{◌≡◌, ◌≢◌, ◌+◌, ◌-◌, ◌<◌, ℕ, Bool, [], ◌∷◌, length, true};
ghost use Rattle.std.specs.Char.{to_ascii_lowercase};
ghost use Rattle.iloc_spec_grammar.specs.Syntax.{code_x, is_other_singleton};
ghost use Rattle.iloc_pieces.specs.Cursor.{IsSpanned, pieces_left, whole_text};
ghost use Rattle.iloc_outline.specs.Reading.{FollowsSingleton, IsBodyAt, IsPrivateBody, IsPutOther, IsRoomRefused, block_span, reader_at};

use crate::growth::{Growth, put};
use crate::reading::Found;
use iloc_pieces::cursor::{Cursor, advance, is_between, is_last, is_private, is_single, is_subtag};
use iloc_spans::span::{Role, Span};
use iloc_spans::spans::Spans;

// The rank of `x`.
const LAST: u64 = 255;

/// Reads private subtags up to the end of the text, one at least. The singleton begins at the hyphen at `start`.
#[inline(always)]
pub fn read_private<G: Growth>(
    growth: G,
    start: usize,
    cursor: &mut Cursor<'_>,
    spans: &mut Spans,
) -> Found
    requires follows { FollowsSingleton start cursor.old }
    ensures read { (c : ℕ) → to_ascii_lowercase c ≡ code_x
        → IsSpanned (whole_text cursor.old) start (cursor.old.at - 1) ((c ∷ []) ∷ [])
        → (o : Bool) → IsPrivateBody c cursor.old spans.old spans.new o o result }
    ensures refused { result ≡ Found.Full
        → IsRoomRefused G.refused spans.old (1 + length (pieces_left cursor.old)) }
{
    'words: while is_private(*cursor) {
        if is_last(*cursor) {
            let span = Span {
                word: LAST,
                start,
                end: cursor.at + cursor.piece_length,
                role: Role::Singleton,
                edited: false,
            };
            if !put(growth, spans, span) {
                return Found::Full;
            }
            return Found::End;
        }
        advance(cursor);
    }
    Found::Bad
}

/// Reads pieces of two to eight bytes up to the next block, of which one at least is a subtag. The singleton, whose byte in
/// lower case is given, begins at the hyphen at `start`.
#[inline(always)]
pub fn read_other<G: Growth>(
    growth: G,
    byte: u8,
    start: usize,
    cursor: &mut Cursor<'_>,
    spans: &mut Spans,
    in_order: &mut bool,
) -> Found
    requires follows { FollowsSingleton start cursor.old }
    requires other { is_other_singleton byte ≡ true }
    ensures read { IsBodyAt byte start (reader_at cursor.old spans.old in_order.old)
        (reader_at cursor.new spans.new in_order.new) result }
    ensures refused { result ≡ Found.Full
        → IsRoomRefused G.refused spans.old (1 + length (pieces_left cursor.old)) }
{
    let mut is_good = false;
    let mut edited = false;
    'pieces: while is_between(*cursor) {
        if is_subtag(*cursor) {
            is_good = true;
        } else {
            edited = true;
        }
        if is_last(*cursor) {
            if !is_good {
                return Found::Bad;
            }
            let end = cursor.at + cursor.piece_length;
            return put_other(
                growth,
                byte,
                start,
                end,
                edited,
                spans,
                in_order,
                Found::End,
            );
        }
        advance(cursor);
    }
    if !is_good || !is_single(*cursor) {
        return Found::Bad;
    }
    let end = cursor.at - 1;
    put_other(
        growth,
        byte,
        start,
        end,
        edited,
        spans,
        in_order,
        Found::Next,
    )
}

// Puts the span of the block, which is edited if a piece is left out.
#[inline(always)]
fn put_other<G: Growth>(
    growth: G,
    byte: u8,
    start: usize,
    end: usize,
    edited: bool,
    spans: &mut Spans,
    in_order: &mut bool,
    found: Found,
) -> Found
    ensures put { IsPutOther (block_span byte start end edited) spans.old spans.new in_order.old
        in_order.new found result }
    ensures refused { result ≢ found → IsRoomRefused G.refused spans.old 1 }
{
    if edited {
        *in_order = false;
    }
    let span = Span {
        word: byte as u64,
        start,
        end,
        role: Role::Singleton,
        edited,
    };
    if !put(growth, spans, span) {
        return Found::Full;
    }
    found
}
