//! Puts and hands out normal texts.
ghost use Rattle.std.specs.Prelude.{◌≡◌, ◌↔◌, ◌+◌, ◌≤◌, IsTrue, MatchOption, length, take};
ghost use Rattle.iloc_data_parts.specs.PartsReading.{value_of};
ghost use Rattle.iloc_spec_parts.specs.DataLocales.{data_text};
ghost use Rattle.locale_web.specs.Answers.{NormalIsWritten, NothingIsWritten};
ghost use Rattle.locale_web.specs.Reading.{IsPut};

use crate::reading::{ReadText, read, text_end};
use iloc_calls::{Status, hand_out, hand_out_bytes};
use iloc_data_parts::DataParts;
use iloc_normalize::Mode;
use iloc_outline::printing::copy_outline;
use iloc_spans::spans::Spans;
use iloc_subtags::ParseError;
use std::mem::forget;

// How much larger than a text its room is.
const MORE: usize = 16;

/// What was put into a room.
#[derive(Drop)]
pub(crate) enum Placed {
    /// The normal text, of so many bytes.
    Normal(usize),
    /// Nothing: the text is refused.
    Refused(ParseError),
    /// Nothing: the text is beyond what the room is for.
    Beyond,
}

// Puts the text of a data locale's parts, and gives its length.
fn put_parts(parts: DataParts, to: &mut [u8]) -> usize
    requires { length (data_text (value_of parts)) ≤ length to.old }
    ensures within { result ≤ length to.new }
    ensures text { take result to.new ≡ data_text (value_of parts) }
{
    let mut needed = 0;
    match hand_out(&parts, to, &mut needed) {
        Status::Done => needed,
        _ => unreachable!(),
    }
}

// Whether so many bytes have room, and sixteen more.
fn has_room(len: usize, to: &[u8]) -> bool
    ensures { IsTrue result ↔ (len + 16 ≤ length to.now) }
{
    to.len() >= MORE && to.len() - MORE >= len
}

// Puts the normal text of what the first bytes mean into the front of a room that is large enough. The spans own no memory.
fn put_first(mode: Mode, window: &[u8], len: usize, to: &mut [u8]) -> Placed
    requires inside { len ≤ length window.now }
    requires room { len + 16 ≤ length to.old }
    ensures { IsPut mode (take len window.now) (length to.old) to.new result }
{
    let mut spans = Spans::new();
    let placed = put_with(mode, window, len, &mut spans, to);
    forget(spans);
    placed
}

// Puts it so, with room for its spans.
fn put_with(mode: Mode, window: &[u8], len: usize, spans: &mut Spans, to: &mut [u8]) -> Placed
    requires inside { len ≤ length window.now }
    requires room { len + 16 ≤ length to.old }
    ensures { IsPut mode (take len window.now) (length to.old) to.new result }
{
    match read(mode, window, len, spans) {
        ReadText::Outlined(outline) => {
            Placed::Normal(copy_outline(window, len, &outline, spans, to))
        }
        ReadText::Parts(parts) => Placed::Normal(put_parts(parts, to)),
        ReadText::Refused(error) => Placed::Refused(error),
        ReadText::Beyond => Placed::Beyond,
    }
}

/// Puts the normal text of what the text means into the front of a room.
pub(crate) fn put(mode: Mode, window: &[u8], len: usize, to: &mut [u8]) -> Placed
    ensures { IsPut mode (take len window.now) (length to.old) to.new result }
{
    let end = text_end(window, len);
    if has_room(end, to) {
        put_first(mode, window, end, to)
    } else {
        Placed::Beyond
    }
}

/// Hands out the normal text of what the text means, which the room is for. `None` if the text is beyond that.
pub(crate) fn normalize(
    mode: Mode,
    window: &[u8],
    len: usize,
    room: &mut [u8],
    buffer: &mut [u8],
    needed: &mut usize,
) -> Option<Status>
    ensures { MatchOption result
        (NothingIsWritten mode (take len window.now) (length room.old) buffer.old buffer.new
        needed.new)
        (NormalIsWritten mode (take len window.now) buffer.old buffer.new needed.new) }
{
    match put(mode, window, len, room) {
        Placed::Normal(end) => Some(hand_out_bytes(&room[..end], buffer, needed)),
        Placed::Refused(error) => {
            *needed = 0;
            Some(Status::from(error))
        }
        Placed::Beyond => {
            *needed = 0;
            None
        }
    }
}
