//! Whether a range stands for a locale.
ghost use Rattle.std.specs.Prelude.{◌≡◌, MatchOption, length, take};
ghost use Rattle.iloc_normalize.specs.declared.Mode.TheVariants as modes;
ghost use Rattle.locale_web.specs.Answers.{IsOneBeyond};
ghost use Rattle.locale_web.specs.Texts.{MatchIsWritten};

use crate::normalizing::{Placed, put};
use iloc_calls::Status;
use iloc_matching::matches;
use iloc_normalize::Mode;

/// Writes 1 if the locale matches the range, both as their normal texts, and else 0. `None` if one is beyond what its room is
/// for.
pub(crate) fn tell_matches(
    window: &[u8],
    len: usize,
    range: &[u8],
    range_len: usize,
    one: &mut [u8],
    two: &mut [u8],
    same: &mut u8,
) -> Option<Status>
    ensures { MatchOption result
        (IsOneBeyond modes.Locale (take len window.now) (length one.old)
        (take range_len range.now) (length two.old) × (same.new ≡ same.old))
        (MatchIsWritten (take len window.now) (take range_len range.now) same.old same.new) }
{
    let first = match put(Mode::Locale, window, len, one) {
        Placed::Normal(end) => end,
        Placed::Refused(error) => return Some(Status::from(error)),
        Placed::Beyond => return None,
    };
    match put(Mode::Locale, range, range_len, two) {
        Placed::Normal(second) => {
            *same = u8::from(matches(&one[..first], &two[..second]));
            Some(Status::Done)
        }
        Placed::Refused(error) => Some(Status::from(error)),
        Placed::Beyond => None,
    }
}
