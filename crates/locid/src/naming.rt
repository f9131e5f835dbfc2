//! Refused lines of several files, with the name of the file before the number of the line.

ghost use Rattle.locid.specs.Named.{IsNamedEntry};

use iloc_faults::{InMemory, place_in};
use iloc_pieces::Window;
use iloc_program::numbered::Lists;
use iloc_program::{Listing, Mode, ReplyBlock};
use std::alloc::{AllocError, Global};

/// Writes for each line what `below` writes, and before it the name of the file, if the line is refused and has its number.
#[derive(Drop)]
pub struct Naming<'a, L> {
    pub alloc: Global,
    pub mode: Mode,
    /// The name of the file, if it is to be written.
    pub name: Option<&'a str>,
    pub below: L,
}

impl<L: Lists<Global>> Lists<Global> for Naming<'_, L> {
    ghost is_entry = { λ listing number line entry.
        IsNamedEntry (L.is_entry listing number line) entry };

    fn list(
        &mut self,
        listing: Listing,
        number: u64,
        line: Window<'_>,
        replies: &mut ReplyBlock,
    ) -> Result<(), AllocError> {
        match self.name {
            Some(name)
                if listing.numbers && place_in(InMemory(self.alloc), self.mode, line).is_some() => {
                replies.extend_from_slice(name.as_bytes())?;
                replies.push(b':')?;
            }
            _ => {}
        }
        self.below.list(listing, number, line, replies)
    }
}
