//! Lines as a linter checks them: for each refused line its file, number and column, why it is refused, the subtag, what
//! may stand in its place, and what is usually meant by the line.

ghost use Rattle.locid.specs.Checked.{IsChecked};
ghost use Rattle.iloc_program.specs.Listing.{StandsWithin};

use crate::inputs::Tally;
use iloc_expected::expected_in;
use iloc_faults::{Fault, InMemory, fault_in};
use iloc_hints::hint_in;
use iloc_pieces::Window;
use iloc_program::numbered::Lists;
use iloc_program::quoting::{write_decimal, write_shown};
use iloc_program::{InMode, Listing, Mode, ReplyBlock};
use iloc_writeable::Writeable;
use std::alloc::{AllocError, Global};

/// What is written of refused lines.
#[derive(Clone, Copy)]
pub struct Report<'a> {
    /// The name of the file.
    pub name: &'a str,
    /// Whether anything is written.
    pub writes: bool,
    /// Whether the lines are shown.
    pub shows: bool,
}

/// Checks lines in the mode of these answers, and counts them.
#[derive(Drop)]
pub struct Checking<'a, A> {
    pub alloc: Global,
    pub answers: A,
    pub report: Report<'a>,
    /// Room for what is written of a line, and for the advice in it.
    pub room: ReplyBlock,
    pub advice: Vec<u8>,
    pub tally: &'a mut Tally,
}

impl<A: InMode> Lists<Global> for Checking<'_, A> {
    ghost is_entry = { λ _ _ line entry. IsChecked A.mode line entry };

    fn list(
        &mut self,
        _listing: Listing,
        number: u64,
        line: Window<'_>,
        replies: &mut ReplyBlock,
    ) -> Result<(), AllocError> {
        let (text, _) = line.bytes.split_at(line.len());
        let mode = self.answers.mode();
        match fault_in(InMemory(self.alloc), mode, text) {
            None => {
                self.tally.add(false);
                Ok(())
            }
            Some(fault) => {
                self.tally.add(true);
                self.room.clear();
                let advice = &mut self.advice;
                write_report(
                    self.alloc,
                    self.report,
                    mode,
                    number,
                    text,
                    &fault,
                    advice,
                    &mut self.room,
                )?;
                replies.extend_from_slice(self.room.as_slice())
            }
        }
    }
}

// Adds what is written of a refused line, if anything is. There is a room for advice.
fn write_report(
    alloc: Global,
    report: Report<'_>,
    mode: Mode,
    number: u64,
    line: &[u8],
    fault: &Fault,
    advice: &mut Vec<u8>,
    to: &mut ReplyBlock,
) -> Result<(), AllocError>
    requires { StandsWithin line.now fault.now }
{
    if !report.writes {
        return Ok(());
    }
    write_place(report.name, number, fault, to)?;
    write_subtag(line, fault, to)?;
    write_advice(alloc, mode, line, fault.start, advice)?;
    to.extend_from_slice(advice.as_slice())?;
    if report.shows {
        return write_line(line, fault, to);
    }
    Ok(())
}

// Adds where and why a line is refused.
fn write_place(
    name: &str,
    number: u64,
    fault: &Fault,
    to: &mut ReplyBlock,
) -> Result<(), AllocError> {
    to.extend_from_slice(name.as_bytes())?;
    for count in [number, (fault.start as u64).saturating_add(1)] {
        to.push(b':')?;
        write_decimal(count, to)?;
    }
    for text in [": ", fault.refusal.words(), ": "] {
        to.extend_from_slice(text.as_bytes())?;
    }
    Ok(())
}

// Adds the piece at which the fault stands.
fn write_subtag(line: &[u8], fault: &Fault, to: &mut ReplyBlock) -> Result<(), AllocError>
    requires { StandsWithin line.now fault.now }
{
    if fault.start < fault.end {
        return write_shown(&line[fault.start..fault.end], to);
    }
    if fault.end == line.len() {
        return to.extend_from_slice(b"(end of line)");
    }
    to.extend_from_slice(b"(empty)")
}

// Has the room hold what may stand at the place, and what is usually meant by the line.
fn write_advice(
    alloc: Global,
    mode: Mode,
    line: &[u8],
    place: usize,
    room: &mut Vec<u8>,
) -> Result<(), AllocError> {
    room.clear();
    let expected = expected_in(InMemory(alloc), mode, line, place);
    let (before, hint) = match hint_in(InMemory(alloc), mode, line) {
        Some(hint) => ("; ", hint.words()),
        None => ("", ""),
    };
    room.extend_from_slice(b": ")?;
    if expected.write_to(room).is_err() {
        return Err(AllocError);
    }
    for text in [" may stand here", before, hint, "\n"] {
        room.extend_from_slice(text.as_bytes())?;
    }
    Ok(())
}

// Adds the line, and below it a caret for each sign of the piece at which the fault stands.
fn write_line(line: &[u8], fault: &Fault, to: &mut ReplyBlock) -> Result<(), AllocError>
    requires { StandsWithin line.now fault.now }
{
    to.extend_from_slice(b"    ")?;
    let start = to.as_slice().len();
    write_shown(&line[..fault.start], to)?;
    let blanks = to.as_slice().len().saturating_sub(start);
    write_shown(&line[fault.start..fault.end], to)?;
    let both = to.as_slice().len().saturating_sub(start);
    write_shown(&line[fault.end..], to)?;
    to.extend_from_slice(b"\n    ")?;
    write_carets(blanks, both.max(blanks.saturating_add(1)), to)
}

// Adds so many signs: blanks, and then carets.
fn write_carets(blanks: usize, all: usize, to: &mut ReplyBlock) -> Result<(), AllocError> {
    for at in 0..all {
        to.push(if at < blanks { b' ' } else { b'^' })?;
    }
    to.push(b'\n')
}
