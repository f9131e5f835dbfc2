//! Hands out the parts of normal texts.
ghost use Rattle.std.specs.Prelude.{MatchOption, length, take};
ghost use Rattle.iloc_spec_grammar.specs.Meaning.{Locale};
ghost use Rattle.locale_web.specs.Kinds.{IsNormalTextOf, parts_of, rows_of};
ghost use Rattle.iloc_calls.specs.Answers.{HandsOut};
ghost use Rattle.locale_web.specs.Parts.{NoPartIsWritten, PartsAreWritten};

use crate::normalizing::{Placed, put};
use crate::rows::{count_pieces, write_rows};
use iloc_calls::Status;
use iloc_normalize::Mode;

// How many numbers stand for a piece.
const ROW: usize = 3;

// Writes the rows of a normal text into the table if they fit, and how many numbers they are to `needed`.
fn hand_out_rows(normal: &[u8], table: &mut [usize], needed: &mut usize) -> Status
    requires { (M : Locale) × IsNormalTextOf M normal.now }
    ensures { (M : Locale) → IsNormalTextOf M normal.now
        → HandsOut (rows_of (parts_of M)) table.old table.new needed.new result }
{
    let wanted = count_pieces(normal).saturating_mul(ROW);
    *needed = wanted;
    if wanted > table.len() {
        return Status::BufferTooSmall;
    }
    write_rows(normal, table);
    Status::Done
}

/// Puts the normal text of what the text means into the room, and hands out the rows of its parts. `None` if the text is
/// beyond what the room is for.
pub(crate) fn find_parts(
    mode: Mode,
    window: &[u8],
    len: usize,
    room: &mut [u8],
    end: &mut usize,
    table: &mut [usize],
    needed: &mut usize,
) -> Option<Status>
    ensures { MatchOption result
        (NoPartIsWritten mode (take len window.now) (length room.old) end.new table.old table.new
        needed.new)
        (PartsAreWritten mode (take len window.now) room.new end.new table.old table.new
        needed.new) }
{
    *end = 0;
    *needed = 0;
    match put(mode, window, len, room) {
        Placed::Normal(long) => {
            *end = long;
            Some(hand_out_rows(&room[..long], table, needed))
        }
        Placed::Refused(error) => Some(Status::from(error)),
        Placed::Beyond => None,
    }
}
