//! The rows of a normal text: where each piece stands, and what it is.
ghost use Rattle.std.specs.Prelude.{◌≡◌, ◌+◌, ◌≤◌, ◌∷◌, ◌++◌, length, take, drop};
ghost use Rattle.iloc_spec_grammar.specs.Meaning.{Locale};
ghost use Rattle.locale_web.specs.Kinds.{IsNormalTextOf, parts_of, rows_of};

use crate::state::{State, step};
use iloc_pieces::cursor::{cursor_in, is_last, next};

/// How many pieces a normal text has.
pub fn count_pieces(normal: &[u8]) -> usize
    requires { (M : Locale) × IsNormalTextOf M normal.now }
    ensures { (M : Locale) → IsNormalTextOf M normal.now → result ≡ length (parts_of M) }
{
    let mut at = cursor_in(normal, normal.len());
    let mut count = 1;
    'pieces: while !is_last(at) {
        at = next(at);
        count += 1;
    }
    count
}

// Writes three numbers from a place of the table on.
fn write_row(table: &mut [usize], from: usize, start: usize, end: usize, kind: usize)
    requires { from + 3 ≤ length table.old }
    ensures { table.new ≡ take from table.old ++ (start ∷ end ∷ kind ∷ drop (from + 3) table.old) }
{
    table[from..from + 3].copy_from_slice(&[start, end, kind]);
}

/// Writes three numbers for each piece of a normal text to the front of a table: where it begins, where it ends, and that
/// of its kind.
pub fn write_rows(normal: &[u8], table: &mut [usize])
    requires normal { (M : Locale) × IsNormalTextOf M normal.now }
    requires room { (M : Locale) → IsNormalTextOf M normal.now
        → length (rows_of (parts_of M)) ≤ length table.old }
    ensures { (M : Locale) → IsNormalTextOf M normal.now
        → table.new ≡ rows_of (parts_of M) ++ drop (length (rows_of (parts_of M))) table.old }
{
    let mut at = cursor_in(normal, normal.len());
    let mut state = State::Start;
    let mut from = 0;
    'pieces: loop {
        let (kind, then) = step(state, at);
        write_row(table, from, at.at, at.at + at.piece_length, kind.number());
        if is_last(at) {
            break;
        }
        at = next(at);
        state = then;
        from += 3;
    }
}
