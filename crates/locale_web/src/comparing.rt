//! Compares two texts by their normal texts.
ghost use Rattle.std.specs.Prelude.{◌≡◌, ◌↔◌, IsTrue, MatchOption, length, take};
ghost use Rattle.locale_web.specs.Answers.{IsOneBeyond, OrderIsWritten, SameIsWritten};

use crate::normalizing::{Placed, put};
use iloc_calls::{Status, number};
use iloc_normalize::Mode;

/// Writes the byte order of the normal texts of both, as -1, 0 or 1. `None` if one is beyond what its room is for.
pub(crate) fn compare(
    mode: Mode,
    window: &[u8],
    len: usize,
    other: &[u8],
    other_len: usize,
    one: &mut [u8],
    two: &mut [u8],
    order: &mut i8,
) -> Option<Status>
    ensures { MatchOption result
        (IsOneBeyond mode (take len window.now) (length one.old) (take other_len other.now)
        (length two.old) × (order.new ≡ order.old))
        (OrderIsWritten mode (take len window.now) (take other_len other.now) order.old order.new) }
{
    let first = match put(mode, window, len, one) {
        Placed::Normal(end) => end,
        Placed::Refused(error) => return Some(Status::from(error)),
        Placed::Beyond => return None,
    };
    match put(mode, other, other_len, two) {
        Placed::Normal(second) => {
            *order = number(one[..first].cmp(&two[..second]));
            Some(Status::Done)
        }
        Placed::Refused(error) => Some(Status::from(error)),
        Placed::Beyond => None,
    }
}

// Whether both have the same bytes.
fn are_same(one: &[u8], two: &[u8]) -> bool
    ensures { IsTrue result ↔ (one.now ≡ two.now) }
{
    one == two
}

/// Writes 1 if both texts have the same meaning, and else 0. `None` if one is beyond what its room is for.
pub(crate) fn tell_same(
    mode: Mode,
    window: &[u8],
    len: usize,
    other: &[u8],
    other_len: usize,
    one: &mut [u8],
    two: &mut [u8],
    same: &mut u8,
) -> Option<Status>
    ensures { MatchOption result
        (IsOneBeyond mode (take len window.now) (length one.old) (take other_len other.now)
        (length two.old) × (same.new ≡ same.old))
        (SameIsWritten mode (take len window.now) (take other_len other.now) same.old same.new) }
{
    let first = match put(mode, window, len, one) {
        Placed::Normal(end) => end,
        Placed::Refused(error) => return Some(Status::from(error)),
        Placed::Beyond => return None,
    };
    match put(mode, other, other_len, two) {
        Placed::Normal(second) => *same = u8::from(are_same(&one[..first], &two[..second])),
        Placed::Refused(_) => *same = 0,
        Placed::Beyond => return None,
    }
    Some(Status::Done)
}
