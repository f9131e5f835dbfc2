//! Reads language, script and region.
ghost use Rattle.std.specs.Prelude.{◌≡◌, true, if◌then◌else◌};
ghost use Rattle.iloc_spec_grammar.specs.Syntax.{IsWord, Language, languages};
ghost use Rattle.iloc_outline.specs.Identifier.{IsFrontRead, IsOnePast};
ghost use Rattle.iloc_outline.specs.Reading.{unless_end};
ghost use Rattle.iloc_pieces.specs.Cursor.{IsShortPiece, piece_left};

use iloc_pieces::cursor::{Cursor, advance, is_last, is_region, is_script};

/// A language, and perhaps a script and a region.
#[derive(Clone, Copy)]
pub struct Front {
    /// Whether nothing follows.
    pub is_all: bool,
    /// Where they end.
    pub end: usize,
    /// Where the script begins; 0 if there is none.
    pub script: usize,
    /// Where a region of two letters begins; 0 if there is none.
    pub region: usize,
}

// Passes the piece, if it fits. Whether the text ends with it.
#[inline(always)]
fn ends_at(fits: bool, cursor: &mut Cursor<'_>) -> bool
    requires { fits ≡ true → IsShortPiece (piece_left cursor.old) }
    ensures { IsOnePast fits cursor.old (unless_end result cursor.new) }
{
    if !fits {
        return false;
    }
    if is_last(*cursor) {
        return true;
    }
    advance(cursor);
    false
}

// Where the piece begins, if that is asked; 0 if not.
#[inline(always)]
fn place(asked: bool, cursor: Cursor<'_>) -> usize
    ensures { result ≡ (if asked then cursor.entry.at else 0) }
{
    if asked { cursor.at } else { 0 }
}

/// Reads a language, and perhaps a script and a region.
#[inline(always)]
pub fn read_front(cursor: &mut Cursor<'_>) -> Front
    requires { IsWord (Language languages) (piece_left cursor.old) }
    ensures { IsFrontRead cursor.old cursor.new result }
{
    let whole = cursor.at + cursor.remaining;
    let mut front = Front {
        is_all: true,
        end: whole,
        script: 0,
        region: 0,
    };
    if ends_at(true, cursor) {
        return front;
    }
    let has_script = is_script(*cursor);
    front.script = place(has_script, *cursor);
    if ends_at(has_script, cursor) {
        return front;
    }
    let has_region = is_region(*cursor);
    front.region = place(has_region && cursor.piece_length == 2, *cursor);
    if ends_at(has_region, cursor) {
        return front;
    }
    front.is_all = false;
    front.end = cursor.at - 1;
    front
}
