//! A text with room behind it, so that it can be answered without a value.
ghost use Rattle.std.specs.Prelude.{◌≡◌, ◌≤◌, ◌<◌, length, take};
ghost use Rattle.iloc_normalize.specs.Answered.{IsNothingOnlyIf, IsAnswered};
ghost use Rattle.iloc_normalize.specs.declared.Mode.TheVariants as Mode;

use crate::Mode;
use crate::answered::{Answered, ROOM, answer};
use crate::copying::{copy_all, copy_ends, copy_sixteens};
use iloc_pieces::Window;

/// How long a text may be that is looked at here.
pub const MOST: usize = 48;

/// How much room a text needs: that, and sixteen bytes more.
pub const WINDOW: usize = 64;

/// Puts the text in the front of the window. The bytes after it say nothing.
#[inline(always)]
pub(crate) fn put_in_front(text: &[u8], window: &mut [u8; WINDOW])
    requires { length text.now ≤ MOST }
    ensures { take (length text.now) window.new ≡ text.now }
{
    let front = &mut window[..text.len()];
    match text.len() {
        0..=16 => copy_all(text, front),
        17..=32 => copy_sixteens(text, front),
        _ => copy_ends::<32>(text, front),
    }
}

/// What a text is answered in the mode: nothing, if it is longer than `MOST`. It is copied to the window, and its
/// normal text is written to the room.
#[inline(always)]
pub fn answer_text<'a>(
    mode: Mode,
    text: &[u8],
    window: &'a mut [u8; WINDOW],
    room: &'a mut [u8; ROOM],
) -> Answered<'a>
    ensures answered { IsAnswered mode text.now result }
    ensures few { IsNothingOnlyIf (MOST < length text.now) result }
{
    if text.len() > MOST {
        return Answered::Nothing;
    }
    put_in_front(text, window);
    let window = Window {
        bytes: &window[..text.len() + 16],
    };
    answer(mode, window, room)
}
