//! Parts of what a text means.
ghost use Rattle.std.specs.Prelude.{◌≡◌, ◌<◌, length};
ghost use Rattle.iloc_spec_grammar.specs.Syntax.{Text, languages};
ghost use Rattle.iloc_calls.specs.Numbers.{status_of};
ghost use Rattle.iloc_normalize.specs.Modes.{IsNormalText};
ghost use Rattle.iloc_normalize.specs.declared.Mode.{Mode};
ghost use Rattle.iloc_text_calls.specs.Answers.{TellsPart};

use crate::normal::normal_text;
use iloc_calls::{Status, hand_out_bytes, hand_out_none};
use iloc_normalize::answered::ROOM;
use iloc_normalize::window::{WINDOW, answer_text};
use iloc_normalize::{Answered, Mode};
use iloc_pieces::read_plain_text;
use iloc_subtags::ParseError;
use iloc_text_parts::{Part, part_of};
use std::alloc::Global;

// Hands out the part of a normal text.
fn hand_out_part(normal: &[u8], part: Part<'_>, buffer: &mut [u8], needed: &mut usize) -> Status
    ensures { (mode : Mode) (t : Text) → IsNormalText languages mode t normal.now
        → TellsPart mode t part.entry buffer.old buffer.new needed.new result }
{
    match part_of(normal, part) {
        Some(found) => hand_out_bytes(found, buffer, needed),
        None => hand_out_none(needed),
    }
}

// Hands out nothing, and says why.
fn refuse(why: ParseError, needed: &mut usize) -> Status
    ensures status { result ≡ status_of why }
    ensures needed { needed.new ≡ 0 }
{
    *needed = 0;
    Status::from(why)
}

/// Hands out a part of what the text means.
#[inline(always)]
pub(crate) fn tell(
    alloc: Global,
    mode: Mode,
    text: &[u8],
    part: Part<'_>,
    buffer: &mut [u8],
    needed: &mut usize,
) -> Status
    ensures { TellsPart mode text.now part.entry buffer.old buffer.new needed.new result }
{
    match read_plain_text(text) {
        Some(plain) => {
            let bytes = plain.bytes;
            hand_out_part(&bytes.as_array()[..plain.len], part, buffer, needed)
        }
        None => tell_outlined(alloc, mode, text, part, buffer, needed),
    }
}

// The same of a text that is not plain, from its bytes.
#[inline(never)]
fn tell_outlined(
    alloc: Global,
    mode: Mode,
    text: &[u8],
    part: Part<'_>,
    buffer: &mut [u8],
    needed: &mut usize,
) -> Status
    ensures { TellsPart mode text.now part.entry buffer.old buffer.new needed.new result }
{
    let mut window = [0u8; WINDOW];
    let mut room = [0u8; ROOM];
    match answer_text(mode, text, &mut window, &mut room) {
        Answered::Normal(normal) => hand_out_part(normal, part, buffer, needed),
        Answered::Refused(refusal) => refuse(refusal, needed),
        Answered::Nothing => tell_long(alloc, mode, text, part, buffer, needed),
    }
}

// The same of a text of more bytes than are looked at there.
#[inline(never)]
fn tell_long(
    alloc: Global,
    mode: Mode,
    text: &[u8],
    part: Part<'_>,
    buffer: &mut [u8],
    needed: &mut usize,
) -> Status
    requires { 48 < length text.now }
    ensures { TellsPart mode text.now part.entry buffer.old buffer.new needed.new result }
{
    match normal_text(alloc, mode, text) {
        Ok(normal) => hand_out_part(normal.as_bytes(), part, buffer, needed),
        Err(refusal) => refuse(refusal, needed),
    }
}
