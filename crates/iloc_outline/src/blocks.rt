//! Reads the blocks of a locale.
ghost use Rattle.std.specs.Prelude.{◌≡◌, ◌≢◌, ◌+◌, length, true};
ghost use Rattle.std.specs.Char.{is_ascii_alphanumeric};
ghost use Rattle.iloc_spec_grammar.specs.Syntax.{code_u, is_one_byte};
ghost use Rattle.iloc_outline.specs.Blocks.{AreBegun, AreBlocksRead, HasSingletonBefore, IsBlockReadAt};
ghost use Rattle.iloc_pieces.specs.Cursor.{IsLater, piece_left, pieces_left, whole_text};
ghost use Rattle.iloc_outline.specs.Reading.{FollowsSingleton, IsRoomRefused, reader_at};
ghost use Rattle.iloc_outline.specs.Parts.{rank};

use crate::growth::Growth;
use crate::other::{read_other, read_private};
use crate::reading::Found;
use crate::sorting::{has_block, place_block};
use crate::transform::read_transform;
use crate::unicode::read_unicode;
use iloc_pieces::cursor::{Cursor, advance, is_alphanumeric, is_last, singleton};
use iloc_spans::spans::Spans;
use iloc_subtags::ParseError;

/// What the blocks of a text are.
#[derive(Drop)]
pub enum Blocks {
    /// Good, and in their order.
    Good,
    /// The first bad one is refused so.
    Refused(ParseError),
    /// More than there is room for.
    Full,
}

// Its place among the blocks: that of `x` comes last.
#[inline(always)]
fn rank_of(byte: u8) -> u64
    ensures { result ≡ rank byte }
{
    if byte == b'x' { 255 } else { byte as u64 }
}

// What follows the singleton, whose byte in lower case is given.
#[inline(always)]
fn read_body<G: Growth>(
    growth: G,
    byte: u8,
    start: usize,
    cursor: &mut Cursor<'_>,
    spans: &mut Spans,
    in_order: &mut bool,
) -> Found
    requires follows { FollowsSingleton start cursor.old }
    requires singleton { HasSingletonBefore byte start cursor.old }
    requires letter { is_ascii_alphanumeric byte ≡ true }
    ensures read { IsBlockReadAt byte start (reader_at cursor.old spans.old in_order.old)
        (reader_at cursor.new spans.new in_order.new) result }
    ensures refused { result ≡ Found.Full
        → IsRoomRefused G.refused spans.old (1 + length (pieces_left cursor.old)) }
{
    if byte == b'u' {
        return read_unicode(growth, start, cursor, spans, in_order);
    }
    read_another(growth, byte, start, cursor, spans, in_order)
}

// What follows another singleton than `u`. The reader of it works on a copy, so that the cursor need not be stored. Where
// another block follows, the copy is put back but for its window, which is the same.
#[inline(always)]
fn read_another<G: Growth>(
    growth: G,
    byte: u8,
    start: usize,
    cursor: &mut Cursor<'_>,
    spans: &mut Spans,
    in_order: &mut bool,
) -> Found
    requires follows { FollowsSingleton start cursor.old }
    requires singleton { HasSingletonBefore byte start cursor.old }
    requires letter { is_ascii_alphanumeric byte ≡ true }
    requires another { byte ≢ code_u }
    ensures read { IsBlockReadAt byte start (reader_at cursor.old spans.old in_order.old)
        (reader_at cursor.new spans.new in_order.new) result }
    ensures refused { result ≡ Found.Full
        → IsRoomRefused G.refused spans.old (1 + length (pieces_left cursor.old)) }
{
    let mut next = *cursor;
    let found = read_apart(growth, byte, start, &mut next, spans, in_order);
    if let Found::Next = found {
        *cursor = Cursor {
            window: cursor.window,
            at: next.at,
            remaining: next.remaining,
            piece_length: next.piece_length,
            shape: next.shape,
            marks: next.marks,
        };
    }
    found
}

// Reads what follows another singleton than `u`. It is apart, so that readers of `u` stay small.
#[inline(never)]
fn read_apart<G: Growth>(
    growth: G,
    byte: u8,
    start: usize,
    cursor: &mut Cursor<'_>,
    spans: &mut Spans,
    in_order: &mut bool,
) -> Found
    requires follows { FollowsSingleton start cursor.old }
    requires letter { is_ascii_alphanumeric byte ≡ true }
    requires another { byte ≢ code_u }
    ensures read { IsBlockReadAt byte start (reader_at cursor.old spans.old in_order.old)
        (reader_at cursor.new spans.new in_order.new) result }
    ensures refused { result ≡ Found.Full
        → IsRoomRefused G.refused spans.old (1 + length (pieces_left cursor.old)) }
{
    match byte {
        b't' => read_transform(growth, start, cursor, spans, in_order),
        b'x' => read_private(growth, start, cursor, spans),
        _ => read_other(growth, byte, start, cursor, spans, in_order),
    }
}

/// Reads the blocks from a singleton on, and puts them in the order of their singletons.
#[inline(always)]
pub fn read_blocks<G: Growth>(
    growth: G,
    cursor: &mut Cursor<'_>,
    spans: &mut Spans,
    in_order: &mut bool,
) -> Blocks
    requires later { IsLater cursor.old }
    requires single { is_one_byte (piece_left cursor.old) ≡ true }
    requires begun { AreBegun (whole_text cursor.old) spans.old }
    ensures read { AreBlocksRead cursor.old spans.old spans.new in_order.old in_order.new result }
    ensures refused { result ≡ Blocks.Full
        → IsRoomRefused G.refused spans.old (length (pieces_left cursor.old)) }
{
    let mut last = 0;
    'singletons: loop {
        if !is_alphanumeric(*cursor) {
            return Blocks::Refused(ParseError::InvalidExtension);
        }
        let byte = singleton(*cursor);
        let rank = rank_of(byte);
        if rank <= last {
            if has_block(spans, rank) {
                return Blocks::Refused(ParseError::DuplicatedExtension);
            }
            *in_order = false;
        }
        if is_last(*cursor) {
            return Blocks::Refused(ParseError::InvalidExtension);
        }
        let from = spans.count;
        let start = cursor.at - 1;
        advance(cursor);
        let found = read_body(growth, byte, start, cursor, spans, in_order);
        match found {
            Found::Bad => return Blocks::Refused(ParseError::InvalidExtension),
            Found::Repeated => return Blocks::Refused(ParseError::InvalidSubtag),
            Found::Full => return Blocks::Full,
            Found::End | Found::Next => (),
        }
        if rank < last {
            place_block(spans, from, rank);
        } else {
            last = rank;
        }
        if let Found::End = found {
            return Blocks::Good;
        }
    }
}
