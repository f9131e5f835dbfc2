//! Reads keywords of `u` and fields of `t`.
ghost use Rattle.std.specs.Prelude.{◌≡◌, false, length};
ghost use Rattle.iloc_spec_grammar.specs.Syntax.{is_word};
ghost use Rattle.iloc_pieces.specs.Cursor.{IsLater, IsShortPiece, piece_left, pieces_left};
ghost use Rattle.iloc_outline.specs.Reading.{AreFieldsRead, IsOfField, IsRoomRefused, role_key};
ghost use Rattle.iloc_outline.specs.Fields.{PrintsAsItIs, IsValueRead};

use crate::growth::Growth;
use crate::reading::Found;
use crate::sorting::put_from;
use iloc_pieces::cursor::{
    Cursor, advance, is_attribute, is_field_key, is_key, is_last, is_true, word_number,
};
use iloc_spans::inserting::Inserted;
use iloc_spans::span::{Role, Span};
use iloc_spans::spans::Spans;

// The subtags of a value, and what follows them.
#[derive(Clone, Copy)]
struct FieldValue {
    // Whether nothing follows.
    is_end: bool,
    // Where it ends.
    end: usize,
    // How many subtags there are.
    count: usize,
    // Whether one is `true`.
    has_true: bool,
}

// Whether the piece is a key.
#[inline(always)]
fn is_key_of(role: Role, cursor: Cursor<'_>) -> bool
    ensures { result ≡ is_word (role_key role) (piece_left cursor.entry) }
{
    match role {
        Role::Field => is_field_key(cursor),
        _ => is_key(cursor),
    }
}

// Reads the value that follows a key, up to the piece that follows it.
#[inline(always)]
fn read_value(cursor: &mut Cursor<'_>) -> FieldValue
    requires later { IsLater cursor.old }
    requires short { IsShortPiece (piece_left cursor.old) }
    ensures { IsValueRead cursor.old cursor.new result }
{
    let mut count = 0;
    let mut has_true = false;
    'values: loop {
        if is_last(*cursor) {
            return FieldValue {
                is_end: true,
                end: cursor.at + cursor.piece_length,
                count,
                has_true,
            };
        }
        advance(cursor);
        if !is_attribute(*cursor) {
            return FieldValue {
                is_end: false,
                end: cursor.at - 1,
                count,
                has_true,
            };
        }
        has_true = has_true || is_true(*cursor);
        count += 1;
    }
}

// Whether a value may be printed otherwise than it is: `true` is left out, but for the only one of a field.
#[inline(always)]
fn is_edited(role: Role, value: &FieldValue) -> bool
    requires { IsOfField role }
    ensures { result ≡ false → PrintsAsItIs role value.now.count value.now.has_true }
{
    value.has_true && (role == Role::Keyword || value.count > 1)
}

/// Reads the keywords or fields that come first, and puts their spans in order; of equal keys the first stays. A key of `t`
/// has a value.
#[inline(always)]
pub fn read_fields<G: Growth>(
    growth: G,
    role: Role,
    cursor: &mut Cursor<'_>,
    spans: &mut Spans,
    in_order: &mut bool,
) -> Found
    requires role { IsOfField role }
    requires later { IsLater cursor.old }
    ensures read { AreFieldsRead role cursor.old cursor.new spans.old spans.new in_order.old
        in_order.new result }
    ensures refused { result ≡ Found.Full
        → IsRoomRefused G.refused spans.old (length (pieces_left cursor.old)) }
{
    let from = spans.count;
    let mut last = 0;
    'keys: while is_key_of(role, *cursor) {
        let word = word_number(*cursor);
        let start = cursor.at - 1;
        let value = read_value(cursor);
        if role == Role::Field && value.count == 0 {
            return Found::Bad;
        }
        let span = Span {
            word,
            start,
            end: value.end,
            role,
            edited: is_edited(role, &value),
        };
        if let Inserted::Full = put_from(growth, spans, from, &mut last, span, in_order) {
            return Found::Full;
        }
        if value.is_end {
            return Found::End;
        }
    }
    Found::Next
}
