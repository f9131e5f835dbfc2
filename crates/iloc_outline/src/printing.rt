//! Writes the normal text that an outline and spans give.
ghost use Rattle.std.specs.Prelude.{List, ◌≡◌, ◌+◌, ◌-◌, ◌<◌, ◌≤◌, ◌∷◌, ◌++◌, codes, length, take, drop, slice_index, true};
ghost use Rattle.std.specs.Char.{to_ascii_lowercase};
ghost use Rattle.std.specs.List.{AllByRecursion};
ghost use Rattle.iloc_spec_grammar.specs.Syntax.{Text, dashes, lower, is_other_singleton, pieces};
ghost use Rattle.iloc_outline.specs.Identifier.{front_text, raised};
ghost use Rattle.iloc_pieces.specs.Cursor.{IsShortPiece, piece_left, pieces_left};
ghost use Rattle.iloc_outline.specs.Outlines.{Gives, parts_text};
ghost use Rattle.iloc_outline.specs.Parts.{Part};
ghost use Rattle.iloc_outline.specs.Printing.{GivesShort, HasRoomForParts, behind_hyphen, edited_text, is_kept, kept_pieces, printed_role, span_text};
ghost use Rattle.iloc_spec_grammar.specs.Reading.{rest_of};
ghost use Rattle.iloc_outline.specs.Spans.{Spell};

use crate::outline::Outline;
use iloc_pieces::cursor::{Cursor, cursor_in, is_last, is_subtag, is_true, next};
use iloc_pieces::first_in_lower_case;
use iloc_spans::span::{Role, Span};
use iloc_spans::spans::Spans;

// Copies `count` bytes from `at` on in lower case. Up to sixteen bytes more are stored behind them.
#[inline(always)]
fn copy_lower(window: &[u8], at: usize, count: usize, to: &mut [u8], start: usize)
    requires inside { at + count ≤ length window.now }
    requires room { start + count + 16 ≤ length to.old }
    ensures { take (start + count) to.new
        ≡ take start to.old ++ lower (take count (drop at window.now)) }
{
    let mut done = 0;
    'parts: while done < count && window.len() - at - done >= 16 {
        first_in_lower_case(&window[at + done..]).copy_to_slice(&mut to[start + done..]);
        done += 16;
    }
    if done < count {
        copy_last(window, at + done, count - done, to, start + done);
    }
}

// Copies the last bytes, where fewer than sixteen are there. It is a call of its own, so that longer windows pay
// nothing.
#[inline(never)]
fn copy_last(window: &[u8], at: usize, count: usize, to: &mut [u8], start: usize)
    requires inside { at + count ≤ length window.now }
    requires room { start + count ≤ length to.old }
    ensures copied { take (start + count) to.new
        ≡ take start to.old ++ lower (take count (drop at window.now)) }
    ensures long { length to.new ≡ length to.old }
{
    let mut done = 0;
    'bytes: while done < count {
        to[start + done] = window[at + done].to_ascii_lowercase();
        done += 1;
    }
}

// Turns the byte at `at` to upper case, unless it is the first, or not among the first `end`.
#[inline(always)]
fn raise(to: &mut [u8], end: usize, at: usize)
    requires { end ≤ length to.old }
    ensures { take end to.new ≡ raised 1 at (take end to.old) }
{
    if at != 0 && at < end {
        to[at] = to[at].to_ascii_uppercase();
    }
}

// Turns the two bytes from `at` on to upper case, unless `at` is 0, as far as they are among the first `end`.
#[inline(always)]
fn raise_two(to: &mut [u8], end: usize, at: usize)
    requires { end ≤ length to.old }
    ensures { take end to.new ≡ raised 2 at (take end to.old) }
{
    if at != 0 && at < end {
        to[at] = to[at].to_ascii_uppercase();
        if at + 1 < end {
            to[at + 1] = to[at + 1].to_ascii_uppercase();
        }
    }
}

// Writes a hyphen and the piece in lower case from `start` on. Where they end.
#[inline(always)]
fn copy_piece(cursor: Cursor<'_>, to: &mut [u8], start: usize) -> usize
    requires short { IsShortPiece (piece_left cursor) }
    requires room { start + length (piece_left cursor) + 17 ≤ length to.old }
    ensures end { result ≡ start + length (piece_left cursor.entry) + 1 }
    ensures copied { take result to.new
        ≡ take start to.old ++ 45 ∷ lower (piece_left cursor.entry) }
{
    to[start] = b'-';
    copy_lower(cursor.window, cursor.at, cursor.piece_length, to, start + 1);
    start + 1 + cursor.piece_length
}

// Whether a byte in lower case is the singleton of another extension.
#[inline(always)]
fn is_other_byte(byte: u8) -> bool
    ensures { result ≡ is_other_singleton byte }
{
    byte.is_ascii_alphanumeric() && byte != b't' && byte != b'u' && byte != b'x'
}

// Whether the piece begins as the singleton of another extension does.
#[inline(always)]
fn is_other(cursor: Cursor<'_>) -> bool
    requires { IsShortPiece (piece_left cursor) }
    ensures { result
        ≡ is_other_singleton (to_ascii_lowercase (slice_index (piece_left cursor.entry) 0)) }
{
    if cursor.piece_length == 0 {
        return false;
    }
    is_other_byte(cursor.window[cursor.at].to_ascii_lowercase())
}

// Whether a piece behind the first of an edited part is printed.
#[inline(always)]
pub(crate) fn is_kept(role: Role, cursor: Cursor<'_>) -> bool
    requires { IsShortPiece (piece_left cursor) }
    ensures { result ≡ is_kept role (piece_left cursor.entry) }
{
    match role {
        Role::Keyword | Role::Field => !is_true(cursor),
        Role::Singleton => is_subtag(cursor),
        _ => true,
    }
}

// Writes the pieces behind this one that are kept, each behind a hyphen, from `start` on. Where they end.
#[inline(always)]
fn copy_kept(role: Role, first: Cursor<'_>, to: &mut [u8], start: usize) -> usize
    requires short { AllByRecursion IsShortPiece (pieces_left first) }
    requires room { start + length (dashes (kept_pieces role (rest_of (pieces_left first)))) + 16
        ≤ length to.old }
    ensures end { result
        ≡ start + length (dashes (kept_pieces role (rest_of (pieces_left first.entry)))) }
    ensures copied { take result to.new
        ≡ take start to.old ++ dashes (kept_pieces role (rest_of (pieces_left first.entry))) }
{
    let mut at = first;
    let mut end = start;
    'pieces: while !is_last(at) {
        at = next(at);
        if is_kept(role, at) {
            end = copy_piece(at, to, end);
        }
    }
    end
}

// Writes `-true` from `start` on. Where it ends.
#[inline(always)]
fn put_true(to: &mut [u8], start: usize) -> usize
    requires { start + 5 ≤ length to.old }
    ensures end { result ≡ start + 5 }
    ensures put { take result to.new ≡ take start to.old ++ codes "-true" }
{
    let end = start + 5;
    to[start..end].copy_from_slice(b"-true");
    end
}

// Of which role a part is as it is printed: a singleton of another extension only is one.
#[inline(always)]
pub(crate) fn printed_role(role: Role, first: Cursor<'_>) -> Role
    requires { IsShortPiece (piece_left first) }
    ensures { result ≡ printed_role role (piece_left first.entry) }
{
    if role == Role::Singleton && !is_other(first) {
        return Role::Variant;
    }
    role
}

// Writes an edited part from `start` on: its first piece, and of the others those that are kept. Where it ends.
#[inline(never)]
fn copy_edited(window: &[u8], span: &Span, to: &mut [u8], start: usize) -> usize
    requires some { span.now.start < span.now.end }
    requires inside { span.now.end ≤ length window.now }
    requires short { AllByRecursion IsShortPiece (pieces (behind_hyphen window.now span.now)) }
    requires room { start + length (edited_text span.now.role (behind_hyphen window.now span.now))
        + 16 ≤ length to.old }
    ensures within { result ≤ length to.old }
    ensures copied { take result to.new ≡ take start to.old
        ++ edited_text span.now.role (behind_hyphen window.now span.now) }
{
    let from = span.start + 1;
    let first = cursor_in(&window[from..], span.end - from);
    let role = printed_role(span.role, first);
    let begun = copy_piece(first, to, start);
    let end = copy_kept(role, first, to, begun);
    if role == Role::Field && end == begun {
        return put_true(to, end);
    }
    end
}

// Writes what is printed of a span from `start` on. Where it ends.
#[inline(always)]
fn copy_span(window: &[u8], span: &Span, to: &mut [u8], start: usize) -> usize
    requires ascends { span.now.start ≤ span.now.end }
    requires inside { span.now.end ≤ length window.now }
    requires some { span.now.edited ≡ true → span.now.start < span.now.end }
    requires short { span.now.edited ≡ true → AllByRecursion IsShortPiece
        (pieces (behind_hyphen window.now span.now)) }
    requires room { start + length (span_text window.now span.now) + 16 ≤ length to.old }
    ensures within { result ≤ length to.old }
    ensures copied { take result to.new ≡ take start to.old ++ span_text window.now span.now }
{
    if span.edited {
        return copy_edited(window, span, to, start);
    }
    let from = span.start;
    let count = span.end - from;
    copy_lower(window, from, count, to, start);
    start + count
}

/// Writes the text of an outline's front. Up to sixteen bytes more are stored behind it.
#[inline(always)]
pub fn copy_front(window: &[u8], outline: &Outline, to: &mut [u8])
    requires inside { outline.now.front ≤ length window.now }
    requires room { outline.now.front + 16 ≤ length to.old }
    ensures { take outline.now.front to.new
        ≡ front_text outline.now.script outline.now.region (take outline.now.front window.now) }
{
    copy_lower(window, 0, outline.front, to, 0);
    raise(to, outline.front, outline.script);
    raise_two(to, outline.front, outline.region);
}

/// Writes the text of the spans of a text from `start` on. Up to sixteen bytes more are stored behind it. Where it ends.
#[inline(always)]
pub fn copy_spans(window: &[u8], spans: &Spans, to: &mut [u8], start: usize) -> usize
    requires { HasRoomForParts window.now spans.now start (length to.old) }
    ensures within { result ≤ length to.old }
    ensures copied { (ps : List Part) → Spell window.now spans.now ps
        → take result to.new ≡ take start to.old ++ parts_text ps }
{
    let held = spans.as_slice();
    let mut end = start;
    for i in 0..held.len() {
        end = copy_span(window, &held[i], to, end);
    }
    end
}

/// Writes the normal text that the outline and the spans of the first `len` bytes give, and up to sixteen bytes behind it.
/// How many bytes it has.
#[inline(always)]
pub fn copy_outline(
    window: &[u8],
    len: usize,
    outline: &Outline,
    spans: &Spans,
    to: &mut [u8],
) -> usize
    requires inside { len ≤ length window.now }
    requires room { len + 16 ≤ length to.old }
    requires gives { GivesShort (take len window.now) outline.now spans.now }
    ensures within { result ≤ len }
    ensures text { (normal : Text) → Gives (take len window.now) outline.now spans.now normal
        → take result to.new ≡ normal }
{
    copy_front(window, outline, to);
    copy_spans(window, spans, to, outline.front)
}
