//! Lines that come in pieces, and the entries that are written for each.
ghost use Rattle.std.specs.Prelude.{◌≡◌, [], ◌++◌, Err, IfOk, OnOk, OnErr};
ghost use Rattle.iloc_pieces.specs.Window.{text_in};
ghost use Rattle.iloc_program.specs.Lines.{IsOneLine};
ghost use Rattle.iloc_program.specs.ReplyBlock.{held, WasRefused};
ghost use Rattle.iloc_program.specs.Numbered.{AddsText};
ghost use Rattle.iloc_program.specs.Feeding.{Feeds, Ends};

use crate::lines::{line_end, split_line};
use crate::numbered::{Listing, Lists};
use crate::{ReplyBlock, RunError};
use iloc_memory::{Memory, extend_from_slice};
use iloc_pieces::Window;
use std::alloc::AllocError;

// Adds what is written for the line, and returns the number of the next one. It gives up at a number that has no next.
#[inline(always)]
fn list_line<M: Memory, L: Lists<M>>(
    lists: &mut L,
    listing: Listing,
    number: u64,
    line: Window<'_>,
    replies: &mut ReplyBlock<M>,
) -> Result<(), AllocError>
    ensures replies { OnOk result (AddsText (L.is_entry listing number (text_in line.entry))
        (held replies.old) (held replies.new)) }
    ensures out_of_memory { OnErr result (WasRefused M.refused) }
{
    lists.list(listing, number, line, replies)
}

// Adds what is written for the line that is pending and ends so, and returns the number of the next one. Sixteen bytes
// are put behind it, which may be loaded.
#[inline(never)]
fn end_line<M: Memory, L: Lists<M>>(
    lists: &mut L,
    listing: Listing,
    number: u64,
    pending: &mut Vec<u8>,
    end: &[u8],
    replies: &mut ReplyBlock<M>,
) -> Result<(), AllocError>
    ensures pending { OnOk result (pending.new.items ≡ []) }
    ensures replies { OnOk result (AddsText
        (L.is_entry listing number (pending.old.items ++ end.now))
        (held replies.old) (held replies.new)) }
    ensures out_of_memory { OnErr result (WasRefused M.refused) }
{
    extend_from_slice(replies.memory(), pending, end)?;
    extend_from_slice(replies.memory(), pending, &[0; 16])?;
    let line = Window {
        bytes: pending.as_slice(),
    };
    list_line(lists, listing, number, line, replies)?;
    pending.clear();
    Ok(())
}

// Adds what is written for the lines that these bytes end, if nothing is pending, keeps the start of the next line, and
// returns its number. Only a line near the end of the bytes is copied.
fn feed_lines<M: Memory, L: Lists<M>>(
    lists: &mut L,
    listing: Listing,
    number: u64,
    pending: &mut Vec<u8>,
    bytes: &[u8],
    replies: &mut ReplyBlock<M>,
) -> Result<u64, RunError>
    requires { pending.old.items ≡ [] }
    ensures ok { IfOk result (Feeds (L.is_entry listing) number [] bytes.now
        (held replies.old) (held replies.new) pending.new.items) }
    ensures out_of_memory { result ≡ Err RunError.OutOfMemory → WasRefused M.refused }
{
    let mut rest = bytes;
    let mut next = number;
    'lines: loop {
        let end = line_end(rest);
        let (line, later) = rest.split_at(end);
        if later.len() < 16 {
            if later.is_empty() {
                break 'lines;
            }
            end_line(lists, listing, next, pending, line, replies)?;
        } else {
            let window = Window {
                bytes: &rest[..end + 16],
            };
            list_line(lists, listing, next, window, replies)?;
        }
        let Some(after) = next.checked_add(1) else {
            return Err(RunError::Read);
        };
        next = after;
        rest = &later[1..];
    }
    extend_from_slice(replies.memory(), pending, rest)?;
    Ok(next)
}

// Adds what is written for the lines that this piece of the input ends, keeps the start of the next line, and returns
// its number. What is pending is listed first, so that no other line asks for it.
pub(crate) fn feed<M: Memory, L: Lists<M>>(
    lists: &mut L,
    listing: Listing,
    number: u64,
    pending: &mut Vec<u8>,
    piece: &[u8],
    replies: &mut ReplyBlock<M>,
) -> Result<u64, RunError>
    requires { IsOneLine pending.old.items }
    ensures ok { IfOk result (Feeds (L.is_entry listing) number pending.old.items piece.now
        (held replies.old) (held replies.new) pending.new.items) }
    ensures out_of_memory { result ≡ Err RunError.OutOfMemory → WasRefused M.refused }
{
    if pending.is_empty() {
        return feed_lines(lists, listing, number, pending, piece, replies);
    }
    let Some((line, later)) = split_line(piece) else {
        extend_from_slice(replies.memory(), pending, piece)?;
        return Ok(number);
    };
    let Some(after) = number.checked_add(1) else {
        return Err(RunError::Read);
    };
    end_line(lists, listing, number, pending, line, replies)?;
    feed_lines(lists, listing, after, pending, later, replies)
}

// Adds what is written for a last line without a newline, if there is one, and returns the number of the next one.
pub(crate) fn finish<M: Memory, L: Lists<M>>(
    lists: &mut L,
    listing: Listing,
    number: u64,
    pending: &mut Vec<u8>,
    replies: &mut ReplyBlock<M>,
) -> Result<u64, RunError>
    requires { IsOneLine pending.old.items }
    ensures ok { IfOk result (Ends (L.is_entry listing) number pending.old.items
        (held replies.old) (held replies.new)) }
    ensures out_of_memory { result ≡ Err RunError.OutOfMemory → WasRefused M.refused }
{
    if pending.is_empty() {
        return Ok(number);
    }
    let Some(after) = number.checked_add(1) else {
        return Err(RunError::Read);
    };
    end_line(lists, listing, number, pending, &[], replies)?;
    Ok(after)
}
