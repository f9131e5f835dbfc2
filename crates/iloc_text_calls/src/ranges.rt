//! Whether a range stands for a locale.
ghost use Rattle.iloc_text_calls.specs.Answers.{MatchesTo};

use crate::normal::normal_locale;
use iloc_calls::Status;
use std::alloc::Global;

/// Writes 1 if the locale matches the range, both as their normal texts, and else 0.
pub(crate) fn tell_matches(alloc: Global, text: &[u8], range: &[u8], same: &mut u8) -> Status
    ensures { MatchesTo text.now range.now same.old same.new result }
{
    let normal = match normal_locale(alloc, text) {
        Ok(normal) => normal,
        Err(refusal) => return Status::from(refusal),
    };
    match normal_locale(alloc, range) {
        Ok(wanted) => {
            *same = u8::from(iloc_matching::matches(normal.as_bytes(), wanted.as_bytes()));
            Status::Done
        }
        Err(refusal) => Status::from(refusal),
    }
}
