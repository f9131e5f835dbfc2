//! What becomes of the lines of one input: each way hands a `Lists` to the library's run.

ghost use Rattle.std.specs.Prelude.{◌≡◌, false, OnOk, OnErr, IfOk, MatchOption};
ghost use Rattle.iloc_program.specs.Output.{WritesAll, WritesBeginning};
ghost use Rattle.iloc_program.specs.Listing.{IsEntry};
ghost use Rattle.iloc_program.specs.Numbered.{ListsAll, ListsBeginning};
ghost use Rattle.locid.specs.Prepared.{IsPrepared};

use crate::checking::{Checking, Report};
use crate::inputs::{NO_LINES, Tally};
use crate::naming::Naming;
use crate::parting::Parting;
use crate::preparing::Prepared;
use iloc_program::entries::Listed;
use iloc_program::numbered::{Lists, run_numbered};
use iloc_program::{
    DataLocales, Identifiers, InMode, Listing, Locales, Mode, ReplyBlock, RunError, run, run_listed,
};
use iloc_spans::spans::Spans;
use std::alloc::Global;
use std::io::{Read, Write};

/// How lines are read.
#[derive(Clone, Copy)]
pub struct Reading {
    pub mode: Mode,
    /// Whether they are cleaned before.
    pub cleans: bool,
    /// Whether they end with zero bytes.
    pub by_zero: bool,
}

/// What is done with lines.
#[derive(Clone, Copy)]
pub enum Task<'a> {
    /// Each is answered, and listed if that is asked for. The name, if there is one, stands before each number.
    List(Option<Listing>, Option<&'a str>),
    /// Each is checked, and of a refused one is written where and why.
    Check(Report<'a>),
    /// The parts of each are written, as JSON or in columns.
    Part(bool),
}

// Writes the normal form of each line, or why it is refused, and returns the number of the next line, which only a
// listing counts. A name is written before each number.
//
// Of lines that are read as they are, and without a name, it promises what `run` and `run_listed` promise.
fn list<R: Read, W: Write>(
    alloc: Global,
    reading: Reading,
    listing: Option<Listing>,
    name: Option<&str>,
    reader: &mut R,
    writer: &mut W,
) -> Result<u64, RunError>
    ensures ok { reading.cleans ≡ false → reading.by_zero ≡ false → name.entry ≡ None
        → MatchOption listing
        (OnOk result (WritesAll reading.mode (R.remaining reader.old) (R.remaining reader.new)
        (W.contents writer.old) (W.contents writer.new)))
        (λ listing. IfOk result (ListsAll (IsEntry reading.mode listing) 1
        (R.remaining reader.old) (R.remaining reader.new)
        (W.contents writer.old) (W.contents writer.new))) }
    ensures err { reading.cleans ≡ false → reading.by_zero ≡ false → name.entry ≡ None
        → MatchOption listing
        (OnErr result (WritesBeginning reading.mode
        (R.remaining reader.old) (R.remaining reader.new)
        (W.contents writer.old) (W.contents writer.new)))
        (λ listing. OnErr result (ListsBeginning (IsEntry reading.mode listing) 1
        (R.remaining reader.old) (R.remaining reader.new)
        (W.contents writer.old) (W.contents writer.new))) }
{
    match (reading.cleans, reading.by_zero, name) {
        (false, false, None) => run_plain(alloc, reading.mode, listing, reader, writer),
        _ => {
            let task = Task::List(listing, name);
            let mut tally = NO_LINES;
            answer_prepared(alloc, reading, task, &mut tally, reader, writer)
        }
    }
}

// The listing for which nothing is asked.
const PLAIN: Listing = Listing {
    places: false,
    numbers: false,
    only_refused: false,
};

// Writes what becomes of lines that are read as they are, and returns the number of the next line, which only a listing
// counts.
fn run_plain<R: Read, W: Write>(
    alloc: Global,
    mode: Mode,
    listing: Option<Listing>,
    reader: &mut R,
    writer: &mut W,
) -> Result<u64, RunError>
    ensures ok { MatchOption listing
        (OnOk result (WritesAll mode (R.remaining reader.old) (R.remaining reader.new)
        (W.contents writer.old) (W.contents writer.new)))
        (λ listing. IfOk result (ListsAll (IsEntry mode listing) 1
        (R.remaining reader.old) (R.remaining reader.new)
        (W.contents writer.old) (W.contents writer.new))) }
    ensures err { MatchOption listing
        (OnErr result (WritesBeginning mode
        (R.remaining reader.old) (R.remaining reader.new)
        (W.contents writer.old) (W.contents writer.new)))
        (λ listing. OnErr result (ListsBeginning (IsEntry mode listing) 1
        (R.remaining reader.old) (R.remaining reader.new)
        (W.contents writer.old) (W.contents writer.new))) }
{
    match listing {
        Some(listing) => run_listed(alloc, mode, listing, 1, reader, writer),
        None => match run(alloc, mode, reader, writer) {
            Ok(()) => Ok(1),
            Err(error) => Err(error),
        },
    }
}

/// Does with each line what is to be done, and returns the number of the next line.
pub fn answer<R: Read, W: Write>(
    alloc: Global,
    reading: Reading,
    task: Task<'_>,
    tally: &mut Tally,
    reader: &mut R,
    writer: &mut W,
) -> Result<u64, RunError> {
    match task {
        Task::List(listing, name) => list(alloc, reading, listing, name, reader, writer),
        _ => answer_prepared(alloc, reading, task, tally, reader, writer),
    }
}

// The same of lines that are prepared.
fn answer_prepared<R: Read, W: Write>(
    alloc: Global,
    reading: Reading,
    task: Task<'_>,
    tally: &mut Tally,
    reader: &mut R,
    writer: &mut W,
) -> Result<u64, RunError> {
    match reading.mode {
        Mode::Langid => answer_in(Identifiers, alloc, reading, task, tally, reader, writer),
        Mode::Locale => answer_in(Locales, alloc, reading, task, tally, reader, writer),
        Mode::Data => answer_in(DataLocales, alloc, reading, task, tally, reader, writer),
    }
}

// The same in the mode of these answers.
fn answer_in<A: InMode + Drop, R: Read, W: Write>(
    answers: A,
    alloc: Global,
    reading: Reading,
    task: Task<'_>,
    tally: &mut Tally,
    reader: &mut R,
    writer: &mut W,
) -> Result<u64, RunError> {
    match task {
        Task::List(listing, name) => {
            let mut lists = Naming {
                alloc,
                mode: reading.mode,
                name,
                below: Listed::new(alloc, answers),
            };
            let listing = listing.unwrap_or(PLAIN);
            run_prepared(alloc, reading, listing, &mut lists, reader, writer)
        }
        Task::Check(report) => {
            let mut lists = Checking {
                alloc,
                answers,
                report,
                room: ReplyBlock::new(alloc),
                advice: Vec::new(alloc),
                tally,
            };
            run_prepared(alloc, reading, PLAIN, &mut lists, reader, writer)
        }
        Task::Part(is_json) => part(alloc, reading, is_json, tally, reader, writer),
    }
}

// Writes the parts of lines.
fn part<R: Read, W: Write>(
    alloc: Global,
    reading: Reading,
    is_json: bool,
    tally: &mut Tally,
    reader: &mut R,
    writer: &mut W,
) -> Result<u64, RunError> {
    let mut lists = Parting {
        alloc,
        mode: reading.mode,
        is_json,
        room: Vec::new(alloc),
        spans: Spans::new(),
        normal: ReplyBlock::new(alloc),
        written: ReplyBlock::new(alloc),
        tally,
    };
    run_prepared(alloc, reading, PLAIN, &mut lists, reader, writer)
}

// Runs these lists over lines that are prepared as the reading says.
fn run_prepared<L: Lists<Global>, R: Read, W: Write>(
    alloc: Global,
    reading: Reading,
    listing: Listing,
    lists: &mut L,
    reader: &mut R,
    writer: &mut W,
) -> Result<u64, RunError>
    ensures ok { IfOk result
        (ListsAll (IsPrepared L.is_entry reading.by_zero reading.cleans listing) 1
        (R.remaining reader.old) (R.remaining reader.new)
        (W.contents writer.old) (W.contents writer.new)) }
{
    match (reading.by_zero, reading.cleans) {
        (false, false) => run_as::<L, false, false, R, W>(alloc, listing, lists, reader, writer),
        (false, true) => run_as::<L, false, true, R, W>(alloc, listing, lists, reader, writer),
        (true, false) => run_as::<L, true, false, R, W>(alloc, listing, lists, reader, writer),
        (true, true) => run_as::<L, true, true, R, W>(alloc, listing, lists, reader, writer),
    }
}

// The same of lines that end with zero bytes or are cleaned, as the types say.
fn run_as<L: Lists<Global>, const BY_ZERO: bool, const CLEANS: bool, R: Read, W: Write>(
    alloc: Global,
    listing: Listing,
    lists: &mut L,
    reader: &mut R,
    writer: &mut W,
) -> Result<u64, RunError>
    ensures ok { IfOk result (ListsAll (IsPrepared L.is_entry BY_ZERO CLEANS listing) 1
        (R.remaining reader.old) (R.remaining reader.new)
        (W.contents writer.old) (W.contents writer.new)) }
{
    let mut prepared = Prepared::<L, BY_ZERO, CLEANS> {
        below: lists,
        whole: Vec::new(alloc),
        cleaned: Vec::new(alloc),
    };
    run_numbered(alloc, &mut prepared, listing, 1, reader, writer)
}
