//! The lines of an input by their numbers, and what is written for each.
//!
//! It promises that what `run_numbered` writes is what its caller's `Lists` says of each line, one after the other, and
//! that lines are numbered from the given number on (`specs/Numbered.antt`). What is written for one line, `entries` says.
//! Memory is as long as the longest line and what is written for 64 KiB.
ghost use Rattle.std.specs.Prelude.{◌≡◌, ℕ, Err, IfOk, OnOk, OnErr};
ghost use Rattle.iloc_pieces.specs.Window.{text_in};
ghost use Rattle.iloc_program.specs.ReplyBlock.{held, WasRefused};
ghost use Rattle.iloc_program.specs.Numbered.{AddsText, ListsAll, ListsBeginning};
ghost use Rattle.iloc_spec_grammar.specs.Syntax.{Text};
ghost use Rattle.iloc_program.specs.declared.numbered.Listing.{Listing};

use crate::{ReplyBlock, RunError, lines, listed_lines};
use iloc_memory::Memory;
use iloc_pieces::Window;
use std::alloc::{AllocError, Global};
use std::io::{Read, Write};

/// How lines are listed.
#[derive(Clone, Copy, Debug, PartialEq, Eq)]
pub struct Listing {
    /// Whether a refusal is followed by the place of the fault.
    pub places: bool,
    /// Whether a refusal is preceded by the number of the line.
    pub numbers: bool,
    /// Whether accepted lines are left out.
    pub only_refused: bool,
}

/// What is written for lines, behind replies that ask this memory for room.
pub trait Lists<M: Memory> {
    ghost is_entry: { Listing → ℕ → Text → Text → Type 0 };

    /// Adds what is written for the line of that number. It fails only if the memory refused room.
    fn list(
        &mut self,
        listing: Listing,
        number: u64,
        line: Window<'_>,
        replies: &mut ReplyBlock<M>,
    ) -> Result<(), AllocError>
        ensures ok { OnOk result (AddsText (is_entry listing number (text_in line.entry))
            (held replies.old) (held replies.new)) }
        ensures out_of_memory { OnErr result (WasRefused M.refused) };
}

/// Writes what is written for each line of what the reader gives, up to its end, and returns the number of the next line.
/// The first line has the given number. No call is made again after an error.
pub fn run_numbered<L: Lists<Global>, R: Read, W: Write>(
    alloc: Global,
    lists: &mut L,
    listing: Listing,
    first: u64,
    reader: &mut R,
    writer: &mut W,
) -> Result<u64, RunError>
    ensures ok { IfOk result (ListsAll (L.is_entry listing) first
        (R.remaining reader.old) (R.remaining reader.new)
        (W.contents writer.old) (W.contents writer.new)) }
    ensures err { OnErr result (ListsBeginning (L.is_entry listing) first
        (R.remaining reader.old) (R.remaining reader.new)
        (W.contents writer.old) (W.contents writer.new)) }
{
    run_numbered_in(alloc, lists, listing, first, reader, writer)
}

/// The same with any memory. It runs out of memory only if room was refused.
pub fn run_numbered_in<M: Memory, L: Lists<M>, R: Read, W: Write>(
    memory: M,
    lists: &mut L,
    listing: Listing,
    first: u64,
    reader: &mut R,
    writer: &mut W,
) -> Result<u64, RunError>
    ensures ok { IfOk result (ListsAll (L.is_entry listing) first
        (R.remaining reader.old) (R.remaining reader.new)
        (W.contents writer.old) (W.contents writer.new)) }
    ensures err { OnErr result (ListsBeginning (L.is_entry listing) first
        (R.remaining reader.old) (R.remaining reader.new)
        (W.contents writer.old) (W.contents writer.new)) }
    ensures out_of_memory { result ≡ Err RunError.OutOfMemory → WasRefused M.refused }
{
    let mut room = lines::new_block(memory)?;
    let block = room.as_mut_slice();
    let mut pending = memory.empty();
    let mut replies = ReplyBlock::new_in(memory);
    let mut number = first;
    'reads: for _ in 0..u64::MAX {
        replies.clear();
        let Ok(count) = reader.read(block) else {
            return Err(RunError::Read);
        };
        if count == 0 {
            let next = listed_lines::finish(lists, listing, number, &mut pending, &mut replies)?;
            lines::write_whole(writer, replies.as_slice())?;
            return Ok(next);
        }
        let (piece, _) = block.split_at(count);
        number = listed_lines::feed(lists, listing, number, &mut pending, piece, &mut replies)?;
        lines::write_whole(writer, replies.as_slice())?;
    }
    Err(RunError::Read)
}
