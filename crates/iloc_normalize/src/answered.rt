//! The normal text of a text, or why it is refused, in each mode, without a value.
ghost use Rattle.std.specs.Prelude.{length};
ghost use Rattle.iloc_pieces.specs.Window.{text_in};
ghost use Rattle.iloc_normalize.specs.Answered.{IsBeyond, IsLead, IsNothingOnlyIf, IsAnswered};
ghost use Rattle.iloc_normalize.specs.declared.Mode.TheVariants as Modes;

use crate::Mode;
use crate::leads::{Lead, lead_of_outlined, read_found, read_lead};
use crate::writing::{Written, write_with};
use iloc_outline::growth::InPlace;
use iloc_pieces::Window;
use iloc_spans::spans::Spans;
use iloc_subtags::ParseError;

/// The room of a call for a normal text, and for sixteen bytes behind it.
pub const ROOM: usize = 128;

/// What a text is answered.
#[derive(Drop)]
pub enum Answered<'a> {
    /// Its normal text.
    Normal(&'a [u8]),
    /// Why it is refused.
    Refused(ParseError),
    /// Nothing.
    Nothing,
}

/// What a text is answered in the mode. The normal text is written to the room.
#[inline(always)]
pub fn answer<'a>(mode: Mode, text: Window<'_>, room: &'a mut [u8]) -> Answered<'a>
    ensures answered { IsAnswered mode (text_in text.entry) result }
    ensures few { IsNothingOnlyIf (IsBeyond (length room.old) (text_in text.entry)) result }
{
    match mode {
        Mode::Data => answer_data(text, room),
        Mode::Langid | Mode::Locale => answer_outlined(mode, text, room),
    }
}

// What a data locale is answered. It is a call of its own, so that the other modes stay small.
#[inline(never)]
fn answer_data<'a>(text: Window<'_>, room: &'a mut [u8]) -> Answered<'a>
    ensures answered { IsAnswered Modes.Data (text_in text.entry) result }
    ensures few { IsNothingOnlyIf (IsBeyond (length room.old) (text_in text.entry)) result }
{
    let lead = match read_found(Mode::Data, text) {
        Some(lead) => lead,
        None => read_lead(Mode::Data, text),
    };
    answer_after(Mode::Data, lead, text, room)
}

// What an identifier or a locale is answered.
#[inline(always)]
fn answer_outlined<'a>(mode: Mode, text: Window<'_>, room: &'a mut [u8]) -> Answered<'a>
    ensures answered { IsAnswered mode (text_in text.entry) result }
    ensures few { IsNothingOnlyIf (IsBeyond (length room.old) (text_in text.entry)) result }
{
    answer_after(mode, lead_of_outlined(mode, text), text, room)
}

// What a text is answered whose beginning shows this. A refusal pays nothing for the spans.
#[inline(always)]
fn answer_after<'a>(mode: Mode, lead: Lead, text: Window<'_>, room: &'a mut [u8]) -> Answered<'a>
    requires { IsLead mode (text_in text) lead }
    ensures answered { IsAnswered mode (text_in text.entry) result }
    ensures few { IsNothingOnlyIf (IsBeyond (length room.old) (text_in text.entry)) result }
{
    if let Lead::Refused(error) = lead {
        return Answered::Refused(error);
    }
    if room.len() < text.bytes.len() {
        return Answered::Nothing;
    }
    let mut spans = Spans::new();
    match write_with(InPlace, mode, lead, text, &mut spans, room) {
        Written::Normal(end) => Answered::Normal(&room[..end]),
        written => match written.refusal() {
            Some(error) => Answered::Refused(error),
            None => Answered::Nothing,
        },
    }
}
