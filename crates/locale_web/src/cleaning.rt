//! The name that is made of a line.
ghost use Rattle.std.specs.Prelude.{◌≡◌, ◌<◌, MatchOption, length};
ghost use Rattle.iloc_calls.specs.Answers.{HandsOut};
ghost use Rattle.iloc_cleaning.specs.Cleaning.{clean};

use iloc_calls::{Status, hand_out_bytes};
use iloc_cleaning::clean_into;

/// Hands out what cleaning leaves of a line, which is put into the room first. `None` if the room is too small for it.
pub(crate) fn hand_out_clean(
    text: &[u8],
    room: &mut [u8],
    buffer: &mut [u8],
    needed: &mut usize,
) -> Option<Status>
    ensures { MatchOption result
        ((length room.old < length (clean text.now)) × (needed.new ≡ 0)
        × (buffer.new ≡ buffer.old))
        (HandsOut (clean text.now) buffer.old buffer.new needed.new) }
{
    match clean_into(text, room) {
        Some(end) => Some(hand_out_bytes(&room[..end], buffer, needed)),
        None => {
            *needed = 0;
            None
        }
    }
}
