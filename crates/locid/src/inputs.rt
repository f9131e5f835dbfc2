//! The inputs, one after the other, and what becomes of their lines.

use crate::checking::Report;
use crate::lines::{Reading, Task, answer};
use crate::streams::{Source, Target};
use iloc_program::{Listing, RunError};
use locid_options::messages::{complain_of_stream, say};
use locid_options::table;
use locid_options::table::{COUNT, Command, EXIT_STATUS, LINE_NUMBER, QUIET, SHOW};
use locid_options::words::{Settings, TROUBLE, WORD, Words};
use std::alloc::Global;
use std::fs::Files;
use std::io::{ErrorKind, Input, Read, Write};
use std::rt::Env;
use std::{fs, io, str};

/// How many lines there are, and how many of them are refused.
#[derive(Clone, Copy)]
pub struct Tally {
    pub lines: u64,
    pub refused: u64,
}

impl Tally {
    /// Counts a line.
    pub fn add(&mut self, is_refused: bool) {
        self.lines = self.lines.saturating_add(1);
        self.refused = self.refused.saturating_add(u64::from(is_refused));
    }
}

/// That of no input.
pub const NO_LINES: Tally = Tally {
    lines: 0,
    refused: 0,
};

/// What is done, and what came of it so far.
#[derive(Drop)]
pub struct Inputs<W> {
    command: Command,
    settings: Settings,
    // Whether there are several.
    are_many: bool,
    target: Target<W>,
    tally: Tally,
    // Whether an input could not be read.
    is_missing: bool,
}

// The status that a shell gives a program that a closed pipe ended.
const CLOSED_PIPE: u8 = 141;

impl<W: Write + Drop> Inputs<W> {
    pub fn new(command: Command, words: &Words, to: W) -> Self {
        let settings = words.settings;
        // (what is said of lines, other than their answers, are lines of their own)
        let answers = !settings.has(COUNT | QUIET) && !matches!(command, Command::Check);
        Inputs {
            command,
            settings,
            are_many: words.files.len() > 1,
            target: Target {
                to,
                by_zero: settings.has(table::NULL) && answers,
                looks: settings.has(EXIT_STATUS),
                is_refused: false,
                error: None,
            },
            tally: NO_LINES,
            is_missing: false,
        }
    }

    /// Goes through all inputs. One that cannot be read is named, and the next one is read. Returns the status.
    pub fn answer<R>(&mut self, rt: &R, words: &Words) -> u8
    where
        R: Input + Eprint + Files + Env + AllocGlobal,
    {
        if words.files.is_empty() {
            if let Some(status) = self.answer_one(rt, "-") {
                return status;
            }
        }
        for at in words.files.as_slice() {
            if let Some(status) = self.answer_named(rt, *at) {
                return status;
            }
        }
        self.end(rt)
    }

    // Answers the lines of the file that the argument at that place names. Returns the status if nothing more can be done.
    fn answer_named<R>(&mut self, rt: &R, at: usize) -> Option<u8>
    where
        R: Input + Eprint + Files + Env + AllocGlobal,
    {
        let mut room = [0u8; WORD];
        let count = match rt.arg(at, &mut room) {
            Ok(count) => count,
            Err(_) => 0,
        };
        self.answer_one(rt, str::from_utf8(&room[..count]).unwrap_or(""))
    }

    // The same of the file of that name, or of standard input.
    fn answer_one<R>(&mut self, rt: &R, name: &str) -> Option<u8>
    where
        R: Input + Eprint + Files + AllocGlobal,
    {
        if name == "-" {
            return self.answer_stream(rt, name, rt.reader());
        }
        match fs::open(rt, name) {
            Ok(file) => self.answer_stream(rt, name, file),
            Err(error) => self.miss(rt, name, Some(error)),
        }
    }

    // Answers the lines of a stream.
    fn answer_stream<R: Read + Drop>(
        &mut self,
        rt: &(impl Eprint + AllocGlobal),
        name: &str,
        from: R,
    ) -> Option<u8> {
        let mut source = Source {
            from,
            by_zero: self.settings.has(table::NULL),
            error: None,
        };
        match self.answer_lines(rt.alloc(), name, &mut source) {
            Ok(()) => None,
            Err(RunError::Read) => self.miss(rt, name, source.error),
            Err(RunError::Write) => Some(complain_of_output(rt, self.target.error)),
            Err(RunError::OutOfMemory) => {
                say(rt, "out of memory");
                Some(TROUBLE)
            }
        }
    }

    // Names an input that could not be read. The next one is read.
    fn miss(
        &mut self,
        rt: &(impl Eprint + AllocGlobal),
        name: &str,
        error: Option<io::Error>,
    ) -> Option<u8> {
        complain_of_stream(rt, name, error);
        self.is_missing = true;
        None
    }

    // Does with lines what is asked for, and counts them.
    fn answer_lines<R: Read + Drop>(
        &mut self,
        alloc: Global,
        name: &str,
        source: &mut Source<R>,
    ) -> Result<(), RunError> {
        let before = self.tally;
        let task = self.task(name);
        let reading = reading_of(self.settings);
        answer(
            alloc,
            reading,
            task,
            &mut self.tally,
            source,
            &mut self.target,
        )?;
        if self.settings.has(COUNT) && !self.settings.has(QUIET) {
            return write_counts(&mut self.target, name, before, self.tally);
        }
        Ok(())
    }

    // What is asked for, of an input of that name.
    fn task<'a>(&self, name: &'a str) -> Task<'a> {
        let settings = self.settings;
        let writes = !settings.has(COUNT | QUIET);
        match self.command {
            Command::Normalize if writes => {
                let is_named = self.are_many && settings.has(LINE_NUMBER);
                Task::List(
                    listing_of(settings),
                    if is_named { Some(name) } else { None },
                )
            }
            Command::Parts => Task::Part(settings.is_json),
            _ => Task::Check(Report {
                name,
                writes,
                shows: settings.has(SHOW),
            }),
        }
    }

    // Says what is to be said at the end, and returns the status.
    fn end(&self, rt: &impl Eprint) -> u8 {
        let Tally { lines, refused } = self.tally;
        let is_check = matches!(self.command, Command::Check);
        if is_check && !self.settings.has(COUNT | QUIET) {
            let _ = eprintln!(rt; "locid: {refused} of {lines} lines are refused");
        }
        if self.is_missing {
            return TROUBLE;
        }
        let says = is_check || self.settings.has(EXIT_STATUS | QUIET);
        u8::from(says && (refused > 0 || self.target.is_refused))
    }
}

/// Says why nothing more can be written, and returns the status. A closed pipe needs no word.
pub fn complain_of_output(rt: &(impl Eprint + AllocGlobal), error: Option<io::Error>) -> u8 {
    if matches!(&error, Some(it) if it.kind() == ErrorKind::BrokenPipe) {
        return CLOSED_PIPE;
    }
    complain_of_stream(rt, "write error", error)
}

// How lines are read.
fn reading_of(settings: Settings) -> Reading {
    Reading {
        mode: settings.mode,
        cleans: settings.has(table::CLEAN),
        by_zero: settings.has(table::NULL),
    }
}

// How lines are listed, if any of it is asked for.
fn listing_of(settings: Settings) -> Option<Listing> {
    if !settings.has(table::WHERE | table::LINE_NUMBER | table::ONLY_REFUSED) {
        return None;
    }
    Some(Listing {
        places: settings.has(table::WHERE),
        numbers: settings.has(table::LINE_NUMBER),
        only_refused: settings.has(table::ONLY_REFUSED),
    })
}

// Writes how many lines were counted since.
fn write_counts<W: Write>(
    to: &mut W,
    name: &str,
    before: Tally,
    now: Tally,
) -> Result<(), RunError> {
    let lines = now.lines.saturating_sub(before.lines);
    let refused = now.refused.saturating_sub(before.refused);
    match writeln!(to, "{name}\t{lines}\t{refused}") {
        Ok(()) => Ok(()),
        Err(_) => Err(RunError::Write),
    }
}
