//! Calls that give a part of what a text means.
ghost use Rattle.std.specs.Prelude.{◌≡◌, MatchOption, length, take};
ghost use Rattle.iloc_calls.specs.Numbers.{ByMode};
ghost use Rattle.iloc_normalize.specs.Modes.{IsNormalText};
ghost use Rattle.iloc_normalize.specs.declared.Mode.{Mode};
ghost use Rattle.iloc_spec_grammar.specs.Syntax.{Text, languages};
ghost use Rattle.iloc_text_parts.specs.declared.Part.TheVariants as parts;
ghost use Rattle.locale_web.specs.Answers.{EndsWithin, NothingIsWritten};
ghost use Rattle.locale_web.specs.Texts.{PartIsTold};

use crate::normalizing::{Placed, put};
use crate::number;
use iloc_calls::{Status, hand_out_bytes, hand_out_none, mode_of};
use iloc_normalize::Mode;
use iloc_text_parts::{Part, part_of};

// Hands out the part of a normal text.
fn hand_out_part(normal: &[u8], part: Part<'_>, buffer: &mut [u8], needed: &mut usize) -> Status
    ensures { (mode : Mode) (t : Text) → IsNormalText languages mode t normal.now
        → PartIsTold mode t part.entry buffer.old buffer.new needed.new result }
{
    match part_of(normal, part) {
        Some(found) => hand_out_bytes(found, buffer, needed),
        None => hand_out_none(needed),
    }
}

// Hands out a part of what the text means, which the room is for. `None` if the text is beyond that.
fn tell_part(
    mode: Mode,
    window: &[u8],
    len: usize,
    part: Part<'_>,
    room: &mut [u8],
    buffer: &mut [u8],
    needed: &mut usize,
) -> Option<Status>
    ensures { MatchOption result
        (NothingIsWritten mode (take len window.now) (length room.old) buffer.old buffer.new
        needed.new)
        (PartIsTold mode (take len window.now) part.entry buffer.old buffer.new needed.new) }
{
    match put(mode, window, len, room) {
        Placed::Normal(end) => Some(hand_out_part(&room[..end], part, buffer, needed)),
        Placed::Refused(error) => {
            *needed = 0;
            Some(Status::from(error))
        }
        Placed::Beyond => {
            *needed = 0;
            None
        }
    }
}

// The number of that, by the number of the mode.
fn tell(
    mode: u32,
    window: &[u8],
    len: usize,
    part: Part<'_>,
    room: &mut [u8],
    buffer: &mut [u8],
    needed: &mut usize,
) -> u32
    ensures { ByMode mode
        (λ m. EndsWithin (PartIsTold m (take len window.now) part.entry buffer.old buffer.new
        needed.new)
        (NothingIsWritten m (take len window.now) (length room.old) buffer.old buffer.new
        needed.new))
        ((needed.new ≡ 0) × (buffer.new ≡ buffer.old)) result }
{
    match mode_of(mode) {
        Some(mode) => number(tell_part(mode, window, len, part, room, buffer, needed)),
        None => {
            *needed = 0;
            Status::UnknownNumber.number()
        }
    }
}

/// Hands out the identifier of what the text means, without extensions. The normal text is put into the room first.
#[unsafe(no_mangle)]
pub extern "C" fn web_base_name_of(
    mode: u32,
    window: &[u8],
    len: usize,
    room: &mut [u8],
    buffer: &mut [u8],
    needed: &mut usize,
) -> u32
    ensures { ByMode mode
        (λ m. EndsWithin (PartIsTold m (take len window.now) parts.BaseName buffer.old
        buffer.new needed.new)
        (NothingIsWritten m (take len window.now) (length room.old) buffer.old buffer.new
        needed.new))
        ((needed.new ≡ 0) × (buffer.new ≡ buffer.old)) result }
{
    tell(mode, window, len, Part::BaseName, room, buffer, needed)
}

/// Hands out the language of what the text means. The normal text is put into the room first.
#[unsafe(no_mangle)]
pub extern "C" fn web_language_of(
    mode: u32,
    window: &[u8],
    len: usize,
    room: &mut [u8],
    buffer: &mut [u8],
    needed: &mut usize,
) -> u32
    ensures { ByMode mode
        (λ m. EndsWithin (PartIsTold m (take len window.now) parts.Language buffer.old
        buffer.new needed.new)
        (NothingIsWritten m (take len window.now) (length room.old) buffer.old buffer.new
        needed.new))
        ((needed.new ≡ 0) × (buffer.new ≡ buffer.old)) result }
{
    tell(mode, window, len, Part::Language, room, buffer, needed)
}

/// Hands out the script of what the text means; if it is absent, an empty text. The normal text is put into the room first.
#[unsafe(no_mangle)]
pub extern "C" fn web_script_of(
    mode: u32,
    window: &[u8],
    len: usize,
    room: &mut [u8],
    buffer: &mut [u8],
    needed: &mut usize,
) -> u32
    ensures { ByMode mode
        (λ m. EndsWithin (PartIsTold m (take len window.now) parts.Script buffer.old
        buffer.new needed.new)
        (NothingIsWritten m (take len window.now) (length room.old) buffer.old buffer.new
        needed.new))
        ((needed.new ≡ 0) × (buffer.new ≡ buffer.old)) result }
{
    tell(mode, window, len, Part::Script, room, buffer, needed)
}

/// Hands out the region of what the text means; if it is absent, an empty text. The normal text is put into the room first.
#[unsafe(no_mangle)]
pub extern "C" fn web_region_of(
    mode: u32,
    window: &[u8],
    len: usize,
    room: &mut [u8],
    buffer: &mut [u8],
    needed: &mut usize,
) -> u32
    ensures { ByMode mode
        (λ m. EndsWithin (PartIsTold m (take len window.now) parts.Region buffer.old
        buffer.new needed.new)
        (NothingIsWritten m (take len window.now) (length room.old) buffer.old buffer.new
        needed.new))
        ((needed.new ≡ 0) × (buffer.new ≡ buffer.old)) result }
{
    tell(mode, window, len, Part::Region, room, buffer, needed)
}

/// Hands out the variants of what the text means; if there are none, an empty text. The normal text is put into the room first.
#[unsafe(no_mangle)]
pub extern "C" fn web_variants_of(
    mode: u32,
    window: &[u8],
    len: usize,
    room: &mut [u8],
    buffer: &mut [u8],
    needed: &mut usize,
) -> u32
    ensures { ByMode mode
        (λ m. EndsWithin (PartIsTold m (take len window.now) parts.Variants buffer.old
        buffer.new needed.new)
        (NothingIsWritten m (take len window.now) (length room.old) buffer.old buffer.new
        needed.new))
        ((needed.new ≡ 0) × (buffer.new ≡ buffer.old)) result }
{
    tell(mode, window, len, Part::Variants, room, buffer, needed)
}

/// Hands out the value of the keyword with this key. The normal text is put into the room first.
#[unsafe(no_mangle)]
pub extern "C" fn web_keyword_of(
    mode: u32,
    window: &[u8],
    len: usize,
    key: &[u8],
    room: &mut [u8],
    buffer: &mut [u8],
    needed: &mut usize,
) -> u32
    ensures { ByMode mode
        (λ m. EndsWithin (PartIsTold m (take len window.now) (parts.Keyword key.entry) buffer.old
        buffer.new needed.new)
        (NothingIsWritten m (take len window.now) (length room.old) buffer.old buffer.new
        needed.new))
        ((needed.new ≡ 0) × (buffer.new ≡ buffer.old)) result }
{
    tell(mode, window, len, Part::Keyword(key), room, buffer, needed)
}

/// Hands out the parent of what the text means, if it has one. The normal text is put into the room first.
#[unsafe(no_mangle)]
pub extern "C" fn web_parent(
    mode: u32,
    window: &[u8],
    len: usize,
    room: &mut [u8],
    buffer: &mut [u8],
    needed: &mut usize,
) -> u32
    ensures { ByMode mode
        (λ m. EndsWithin (PartIsTold m (take len window.now) parts.Parent buffer.old
        buffer.new needed.new)
        (NothingIsWritten m (take len window.now) (length room.old) buffer.old buffer.new
        needed.new))
        ((needed.new ≡ 0) × (buffer.new ≡ buffer.old)) result }
{
    tell(mode, window, len, Part::Parent, room, buffer, needed)
}
