//! What becomes of each line of an input: its normal text, or why it is refused, which line it is, and where the fault
//! stands.
ghost use Rattle.std.specs.Prelude.{◌≡◌, Err, IfOk, OnErr};
ghost use Rattle.iloc_program.specs.Numbered.{ListsAll, ListsBeginning};
ghost use Rattle.iloc_program.specs.Listing.{IsEntry};
ghost use Rattle.iloc_program.specs.ReplyBlock.{WasRefused};

use crate::entries::Listed;
use crate::numbered::{Listing, run_numbered_in};
use crate::{DataLocales, Identifiers, Locales, Mode, RunError};
use iloc_memory::Trees;
use std::alloc::Global;
use std::io::{Read, Write};

/// Writes the entry of each line of what the reader gives, up to its end, and returns the number of the next line. The
/// first line has the given number, so that lines of several readers can be numbered through.
///
/// # Errors
///
/// `RunError::Read` if the reader returns an error or gives no end, or if a line has no number of 64 bits;
/// `RunError::Write` if the writer returns an error or takes no byte; `RunError::OutOfMemory` if an allocation fails.
/// No call is made again after an error.
///
/// ```text
/// mode locale, `EN-us` and `en-foo` and `de`, first line 1
/// places, numbers:      en-US / 2<TAB>! Invalid subtag<TAB>3..6<TAB>foo / de
/// only_refused:         ! Invalid subtag
/// ```
pub fn run_listed<R: Read, W: Write>(
    alloc: Global,
    mode: Mode,
    listing: Listing,
    first: u64,
    reader: &mut R,
    writer: &mut W,
) -> Result<u64, RunError>
    ensures ok { IfOk result (ListsAll (IsEntry mode listing) first
        (R.remaining reader.old) (R.remaining reader.new)
        (W.contents writer.old) (W.contents writer.new)) }
    ensures err { OnErr result (ListsBeginning (IsEntry mode listing) first
        (R.remaining reader.old) (R.remaining reader.new)
        (W.contents writer.old) (W.contents writer.new)) }
{
    run_listed_in(alloc, mode, listing, first, reader, writer)
}

/// The same with any memory. It runs out of memory only if room was refused.
pub fn run_listed_in<M: Trees, R: Read, W: Write>(
    memory: M,
    mode: Mode,
    listing: Listing,
    first: u64,
    reader: &mut R,
    writer: &mut W,
) -> Result<u64, RunError>
    ensures ok { IfOk result (ListsAll (IsEntry mode listing) first
        (R.remaining reader.old) (R.remaining reader.new)
        (W.contents writer.old) (W.contents writer.new)) }
    ensures err { OnErr result (ListsBeginning (IsEntry mode listing) first
        (R.remaining reader.old) (R.remaining reader.new)
        (W.contents writer.old) (W.contents writer.new)) }
    ensures out_of_memory { result ≡ Err RunError.OutOfMemory → WasRefused M.refused }
{
    match mode {
        Mode::Langid => {
            let mut listed = Listed::new_in(memory, Identifiers);
            run_numbered_in(memory, &mut listed, listing, first, reader, writer)
        }
        Mode::Locale => {
            let mut listed = Listed::new_in(memory, Locales);
            run_numbered_in(memory, &mut listed, listing, first, reader, writer)
        }
        Mode::Data => {
            let mut listed = Listed::new_in(memory, DataLocales);
            run_numbered_in(memory, &mut listed, listing, first, reader, writer)
        }
    }
}
