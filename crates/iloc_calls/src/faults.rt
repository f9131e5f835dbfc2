//! Finds the fault of a refused text.
ghost use Rattle.std.specs.Prelude.{◌≡◌};
ghost use Rattle.iloc_calls.specs.Faults.{FindsFault};
ghost use Rattle.iloc_calls.specs.Numbers.{ByMode, EndsAs};

use crate::answers::mode_of;
use crate::status::Status;
use iloc_faults::{Room, fault_in};
use iloc_normalize::Mode;

/// Why the text is refused, and the place of its fault; of another text nothing is written.
///
/// The mode is 0 for identifiers, 1 for locales and 2 for data locales. On the stack it allocates nothing. In memory it
/// allocates only for more than 16,384 variants in a row, and never fails.
pub fn find_fault<R: Room>(
    room: R,
    mode: u32,
    text: &[u8],
    start: &mut usize,
    end: &mut usize,
) -> u32
    ensures { ByMode mode
        (λ m. EndsAs (FindsFault m text.now (start.old, end.old) (start.new, end.new)))
        ((start.new ≡ start.old) × (end.new ≡ end.old)) result }
{
    match mode_of(mode) {
        Some(mode) => find(room, mode, text, start, end).number(),
        None => Status::UnknownNumber.number(),
    }
}

// Finds the fault of a text in a mode.
#[tactic(auto, using(crate::proofs::FaultLemmas::refusal_found))]
fn find<R: Room>(room: R, mode: Mode, text: &[u8], start: &mut usize, end: &mut usize) -> Status
    ensures { FindsFault mode text.now (start.old, end.old) (start.new, end.new) result }
{
    match fault_in(room, mode, text) {
        Some(fault) => {
            *start = fault.start;
            *end = fault.end;
            Status::of_refusal(&fault.refusal)
        }
        None => Status::Done,
    }
}
