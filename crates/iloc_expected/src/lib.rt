//! What may stand at a place of a text, such as that of a fault.
//!
//! A kind of piece may stand at a place if some accepted text has the pieces before the place, and then a piece of that
//! kind (`specs/Standing.antt`). What a piece of an accepted text is, `specs/Kinds.antt` says by the pieces before it: `latn`
//! is a script right after `en`, and a value after `en-u-nu`. The end may stand there if the pieces before it are an accepted
//! text.
//!
//! `expected` promises exactly these kinds. It reads the pieces before the place as `fault_of` does (`iloc_faults`), and
//! allocates nothing. `Expected` prints as words: `a script, a region, a variant or an extension`.
//!
//! It stands on `iloc_faults`: on its steps, and on its proof of which pieces may follow each other.
#![tactic(auto)]

ghost use Rattle.std.specs.Prelude.{◌≡◌, ◌<◌, ◌^◌, length, true};
ghost use Rattle.iloc_expected.specs.Kinds.{has};
ghost use Rattle.iloc_expected.specs.declared.kinds.PieceKind.{PieceKind};
ghost use Rattle.iloc_expected.specs.Standing.{AreExpected, MayStand, pieces_before};

mod after;
pub mod kinds;
pub mod laws;
mod reading;
mod words;

use iloc_faults::{OnStack, Room};
use iloc_normalize::Mode;
pub use kinds::{Expected, PieceKind};

/// Which kinds of pieces may stand at the place of a text: at `fault.start`, for one.
///
/// The pieces before the place count, each as a whole, and nothing of what follows. If no accepted text begins with them,
/// nothing may stand there. A place behind the end counts as the end.
///
/// It is exact for texts of less than a terabyte. Longer ones can have all variants that there are: there it may name a
/// variant where none is left. It allocates nothing, and takes time in proportion to the pieces before the place, as
/// `fault_of` does. `expected_in` can take memory for many variants.
///
/// ```text
/// expected(Mode::Locale, b"en-foo", 3)  // a script, a region, a variant or an extension
/// expected(Mode::Locale, b"en-u-!", 5)  // an attribute or a key
/// expected(Mode::Langid, b"en-US-u", 6) // a variant
/// ```
pub fn expected(mode: Mode, text: &[u8], place: usize) -> Expected
    ensures all { (kind : PieceKind) → MayStand mode (pieces_before text.now place) kind
        → has result kind ≡ true }
    ensures exact { length text.now < 2 ^ 40
        → AreExpected mode (pieces_before text.now place) result }
{
    expected_in(OnStack, mode, text, place)
}

/// The same as `expected`, with this room for long runs of variants, as `fault_in` has it. Whatever the room is, it returns
/// the same.
///
/// ```text
/// expected_in(InMemory(alloc), Mode::Locale, b"en-foo", 3) // a script, a region, a variant or an extension
/// ```
pub fn expected_in<R: Room>(room: R, mode: Mode, text: &[u8], place: usize) -> Expected
    ensures all { (kind : PieceKind) → MayStand mode (pieces_before text.now place) kind
        → has result kind ≡ true }
    ensures exact { length text.now < 2 ^ 40
        → AreExpected mode (pieces_before text.now place) result }
{
    let before = &text[..text.len().min(place)];
    match reading::read(room, mode, before) {
        Some(reading) => after::kinds_after(mode, reading),
        None => Expected::NONE,
    }
}
