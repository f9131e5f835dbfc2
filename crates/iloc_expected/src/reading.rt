//! Reads the pieces before a place.
ghost use Rattle.std.specs.Prelude.{◌≡◌, ℕ, ◌+◌, ◌≤◌, List, [], ◌∷◌, ◌++◌, length, take};
ghost use Rattle.iloc_spec_grammar.specs.Syntax.{Text, pieces};
ghost use Rattle.iloc_pieces.specs.Cursor.{piece_left};
ghost use Rattle.iloc_faults.specs.States.{IsRead as IsStateRead};
ghost use Rattle.iloc_expected.specs.Standing.{without_empty};
ghost use Rattle.iloc_expected.specs.Readings.{IsAllRead, IsPieceTaken, AreRead, IsReadUpTo, keyed_after};

use iloc_faults::Room;
use iloc_faults::state::{Part, State};
use iloc_faults::step::step;
use iloc_normalize::Mode;
use iloc_pieces::cursor::{Cursor, cursor_in, is_key, is_last, next};

/// The reader's state after the pieces before a place.
#[derive(Clone, Copy)]
pub struct Reading {
    /// What the reader of faults keeps.
    pub state: State,
    /// Whether a key was read in the extension `u` that is read.
    pub keyed: bool,
}

// Whether a key was read in the extension `u` that is read, with the piece too. The part is that with the piece.
fn is_keyed(keyed: bool, part: Part, at: Cursor<'_>) -> bool
    ensures { result ≡ keyed_after keyed part (piece_left at.entry) }
{
    match part {
        Part::Keyword => keyed || is_key(at),
        _ => false,
    }
}

// What was read with the piece too; `None` if it may not come next.
fn read_piece<R: Room>(room: R, mode: Mode, reading: Reading, at: Cursor<'_>) -> Option<Reading>
    requires { (vs : List Text) × (seen : List ℕ) × IsStateRead mode reading.state at vs seen }
    ensures { (vs : List Text) (seen : List ℕ) → IsStateRead mode reading.state at.entry vs seen
        → IsPieceTaken mode reading.keyed reading.state.part vs seen at.entry result }
{
    let Some(state) = step(room, mode, reading.state, at) else {
        return None;
    };
    let keyed = is_keyed(reading.keyed, state.part, at);
    Some(Reading { state, keyed })
}

// What was read with all pieces but the last, and the last; `None` if one of them may not come next.
fn read_pieces<'a, R: Room>(
    room: R,
    mode: Mode,
    first: Reading,
    from: Cursor<'a>,
) -> Option<(Reading, Cursor<'a>)>
    requires { (ps : List Text) × IsReadUpTo mode ps from first }
    ensures { (ps : List Text) → IsReadUpTo mode ps from.entry first
        → IsAllRead mode ps from.entry result }
{
    let mut at = from;
    let mut reading = first;
    'pieces: while !is_last(at) {
        let Some(then) = read_piece(room, mode, reading, at) else {
            return None;
        };
        reading = then;
        at = next(at);
    }
    Some((reading, at))
}

// The piece with a hyphen behind it.
fn with_hyphen(piece: &[u8]) -> [u8; 9]
    requires { length piece.now ≤ 8 }
    ensures { take (length piece.now + 1) result ≡ piece.now ++ 45 ∷ [] }
{
    let mut bytes = [b'-'; 9];
    bytes[..piece.len()].copy_from_slice(piece);
    bytes
}

// What was read with the last piece too. It is read again with a hyphen behind it: the state tells what comes behind one.
fn read_last<R: Room>(room: R, mode: Mode, reading: Reading, at: Cursor<'_>) -> Option<Reading>
    requires short { length (piece_left at) ≤ 8 }
    requires last { at.piece_length ≡ at.remaining }
    requires read { (ps : List Text) × IsReadUpTo mode ps at reading }
    ensures { (ps : List Text) → IsReadUpTo mode ps at.entry reading
        → AreRead mode (ps ++ (piece_left at.entry ∷ [])) result }
{
    let bytes = with_hyphen(&at.window[at.at..at.at + at.piece_length]);
    match read_pieces(room, mode, reading, cursor_in(&bytes, at.piece_length + 1)) {
        Some((all, _)) => Some(all),
        None => None,
    }
}

/// The reader's state after the pieces of the text; `None` if no accepted text begins with them.
pub fn read<R: Room>(room: R, mode: Mode, text: &[u8]) -> Option<Reading>
    ensures { AreRead mode (without_empty (pieces text.now)) result }
{
    let first = Reading {
        state: State {
            part: Part::Start,
            variants: None,
            seen: 0,
        },
        keyed: false,
    };
    let Some((reading, last)) = read_pieces(room, mode, first, cursor_in(text, text.len())) else {
        return None;
    };
    if last.remaining == 0 {
        return Some(reading);
    }
    if read_piece(room, mode, reading, last).is_none() {
        return None;
    }
    read_last(room, mode, reading, last)
}
