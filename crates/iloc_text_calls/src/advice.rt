//! What may stand at a place of a text, and what is usually meant by a refused one.
ghost use Rattle.std.specs.Prelude.{◌≡◌, ◌↔◌, ◌<◌, ◌^◌, Some};
ghost use Rattle.iloc_expected.specs.declared.kinds.Expected.{Expected};
ghost use Rattle.iloc_hints.specs.declared.hints.Hint.{Hint};
ghost use Rattle.iloc_text_calls.specs.Advice.{TellsHint, TellsKinds, hint_number, kinds_of};

use iloc_calls::Status;
use iloc_expected::{Expected, expected_in};
use iloc_faults::Room;
use iloc_hints::{Hint, hint_in};
use iloc_normalize::Mode;

// The first number in which another bit than that of a kind is set.
const NO_KINDS: u32 = 1 << 13;

/// Writes the number of the set of kinds that may stand at the place of the text.
pub(crate) fn tell_kinds<R: Room>(
    room: R,
    mode: Mode,
    text: &[u8],
    place: usize,
    kinds: &mut u32,
) -> Status
    ensures { TellsKinds mode text.now place kinds.new result }
{
    *kinds = u32::from(expected_in(room, mode, text, place).bits);
    Status::Done
}

/// The set of kinds of this number; `None` if another bit is set.
pub(crate) fn kinds_of(number: u32) -> Option<Expected>
    ensures { (set : Expected)
        → (result ≡ Some set) ↔ ((number < 2 ^ 13) × (set ≡ kinds_of number)) }
{
    if number < NO_KINDS {
        Some(Expected {
            bits: number as u16,
        })
    } else {
        None
    }
}

// The number of a hint.
fn number_of(hint: Hint) -> u32
    ensures { result ≡ hint_number hint }
{
    match hint {
        Hint::Mark => 1,
        Hint::Blanks => 2,
        Hint::System => 3,
        Hint::Codeset => 4,
        Hint::Underscores => 5,
    }
}

/// Writes the number of the hint that the text has, or 0.
pub(crate) fn tell_hint<R: Room>(room: R, mode: Mode, text: &[u8], number: &mut u32) -> Status
    ensures { TellsHint mode text.now number.new result }
{
    *number = match hint_in(room, mode, text) {
        Some(hint) => number_of(hint),
        None => 0,
    };
    Status::Done
}

/// The hint of this number.
pub(crate) fn hint_of(number: u32) -> Option<Hint>
    ensures { (hint : Hint) → (result ≡ Some hint) ↔ (number ≡ hint_number hint) }
{
    match number {
        1 => Some(Hint::Mark),
        2 => Some(Hint::Blanks),
        3 => Some(Hint::System),
        4 => Some(Hint::Codeset),
        5 => Some(Hint::Underscores),
        _ => None,
    }
}
