//! What is read in place of a line: its cleaned text, or the line with its newlines where lines end with zero bytes.

ghost use Rattle.std.specs.Prelude.{◌≡◌, OnOk};
ghost use Rattle.locid.specs.Prepared.{IsCleaned, IsPrepared, line_read, with_newlines};
ghost use Rattle.iloc_program.specs.Numbered.{AddsText};
ghost use Rattle.iloc_program.specs.ReplyBlock.{held};

use iloc_cleaning::{clean_line, without_mark};
use iloc_pieces::Window;
use iloc_program::numbered::Lists;
use iloc_program::{Listing, ReplyBlock};
use std::alloc::{AllocError, Global};

/// Writes for each line what `below` writes for what is read in its place.
#[derive(Drop)]
pub struct Prepared<'a, L, const BY_ZERO: bool, const CLEANS: bool> {
    pub below: &'a mut L,
    /// Two rooms for what is read.
    pub whole: Vec<u8>,
    pub cleaned: Vec<u8>,
}

impl<L: Lists<Global>, const BY_ZERO: bool, const CLEANS: bool> Lists<Global>
    for Prepared<'_, L, BY_ZERO, CLEANS> {
    ghost is_entry = { IsPrepared L.is_entry BY_ZERO CLEANS };

    fn list(
        &mut self,
        listing: Listing,
        number: u64,
        line: Window<'_>,
        replies: &mut ReplyBlock,
    ) -> Result<(), AllocError> {
        let (text, _) = line.bytes.split_at(line.len());
        let whole = &mut self.whole;
        let cleaned = &mut self.cleaned;
        let below = &mut *self.below;
        list_prepared::<L, BY_ZERO, CLEANS>(below, whole, cleaned, listing, number, text, replies)
    }
}

// Adds what `below` writes for what is read in place of the line, for which there are two rooms.
fn list_prepared<L: Lists<Global>, const BY_ZERO: bool, const CLEANS: bool>(
    below: &mut L,
    whole: &mut Vec<u8>,
    cleaned: &mut Vec<u8>,
    listing: Listing,
    number: u64,
    line: &[u8],
    replies: &mut ReplyBlock,
) -> Result<(), AllocError>
    ensures { OnOk result (AddsText (IsPrepared L.is_entry BY_ZERO CLEANS listing number line.now)
        (held replies.old) (held replies.new)) }
{
    prepare::<BY_ZERO, CLEANS>(number, line, whole, cleaned)?;
    list_kept::<L>(below, cleaned, listing, number, replies)
}

// Adds what `below` writes for the text in the room. Sixteen bytes are put behind it, which may be loaded.
fn list_kept<L: Lists<Global>>(
    below: &mut L,
    room: &mut Vec<u8>,
    listing: Listing,
    number: u64,
    replies: &mut ReplyBlock,
) -> Result<(), AllocError>
    ensures { OnOk result (AddsText (L.is_entry listing number room.old.items)
        (held replies.old) (held replies.new)) }
{
    room.extend_from_slice(&[0; 16])?;
    let line = Window {
        bytes: room.as_slice(),
    };
    below.list(listing, number, line, replies)
}

// Has the second room hold what is read in place of the line.
fn prepare<const BY_ZERO: bool, const CLEANS: bool>(
    number: u64,
    line: &[u8],
    whole: &mut Vec<u8>,
    cleaned: &mut Vec<u8>,
) -> Result<(), AllocError>
    ensures { OnOk result
        (IsCleaned CLEANS number (line_read BY_ZERO line.now) cleaned.new.items) }
{
    if BY_ZERO {
        add_with_newlines(line, whole)?;
        return clean_into::<CLEANS>(number, whole.as_slice(), cleaned);
    }
    clean_into::<CLEANS>(number, line, cleaned)
}

// Has the room hold what cleaning leaves of a line, if it is asked for. The first one may begin with a byte order mark.
fn clean_into<const CLEANS: bool>(
    number: u64,
    line: &[u8],
    room: &mut Vec<u8>,
) -> Result<(), AllocError>
    ensures { OnOk result (IsCleaned CLEANS number line.now room.new.items) }
{
    room.clear();
    if !CLEANS {
        return room.extend_from_slice(line);
    }
    if number == 1 {
        return clean_line(without_mark(line), room);
    }
    clean_line(line, room)
}

// Has the room hold the line with its newlines, which came as zero bytes.
fn add_with_newlines(line: &[u8], room: &mut Vec<u8>) -> Result<(), AllocError>
    ensures { OnOk result (room.new.items ≡ with_newlines line.now) }
{
    room.clear();
    for byte in line {
        room.push(if *byte == 0 { b'\n' } else { *byte })?;
    }
    Ok(())
}
