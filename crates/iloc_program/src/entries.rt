//! What is written for one line.
ghost use Rattle.std.specs.Prelude.{◌≡◌, ◌≢◌, ◌++◌, OnOk, OnErr, if◌then◌else◌, [], ◌∷◌};
ghost use Rattle.iloc_normalize.specs.Answered.{HasRefusal};
ghost use Rattle.iloc_pieces.specs.Window.{text_in};
ghost use Rattle.iloc_program.specs.Answers.{refusal_text};
ghost use Rattle.iloc_program.specs.Numbered.{AddsText};
ghost use Rattle.iloc_program.specs.ReplyBlock.{held, WasRefused};
ghost use Rattle.iloc_program.specs.Listing.{number_column, place_columns, IsEntry, StandsWithin};

use crate::lines::answer_in;
use crate::numbered::{Listing, Lists};
use crate::quoting::{escaped_in, short_range, write_decimal, write_range, write_shown};
use crate::replies::{reason_of, write_refusal};
use crate::{InMode, ReplyBlock};
use iloc_faults::{Fault, InMemory, place_of};
use iloc_memory::{Memory, Trees};
use iloc_pieces::{Window, before_marked};
use iloc_spans::spans::Spans;
use iloc_subtags::ParseError;
use std::alloc::{AllocError, Global};
use std::simd::prelude::*;

/// Answers lines in the mode of these answers, and lists what becomes of them. It keeps its room from line to line.
#[derive(Drop)]
pub struct Listed<A, M = Global> {
    memory: M,
    answers: A,
    spans: Spans,
}

impl<A> Listed<A> {
    /// It allocates nothing.
    pub fn new(alloc: Global, answers: A) -> Self {
        Listed::new_in(alloc, answers)
    }
}

impl<A, M: Memory> Listed<A, M> {
    /// It asks for no room; later room is asked of this memory.
    pub fn new_in(memory: M, answers: A) -> Self {
        Listed {
            memory,
            answers,
            spans: Spans::new(),
        }
    }
}

impl<A: InMode, M: Trees> Lists<M> for Listed<A, M> {
    ghost is_entry = { IsEntry A.mode };

    #[inline(always)]
    fn list(
        &mut self,
        listing: Listing,
        number: u64,
        line: Window<'_>,
        replies: &mut ReplyBlock<M>,
    ) -> Result<(), AllocError> {
        let mode = self.answers.mode();
        let before = replies.len();
        match answer_in(mode, line, &mut self.spans, replies)? {
            Some(refusal) => {
                write_refused(
                    self.memory,
                    &self.answers,
                    listing,
                    number,
                    line,
                    refusal,
                    replies,
                )
            }
            None if listing.only_refused => {
                replies.truncate(before);
                Ok(())
            }
            None => Ok(()),
        }
    }
}

// Adds what is written for a line that is refused so.
#[inline(always)]
fn write_refused<A: InMode, M: Memory>(
    memory: M,
    answers: &A,
    listing: Listing,
    number: u64,
    line: Window<'_>,
    refusal: ParseError,
    replies: &mut ReplyBlock<M>,
) -> Result<(), AllocError>
    requires { HasRefusal A.mode (text_in line) refusal }
    ensures ok { OnOk result (AddsText (IsEntry A.mode listing number (text_in line.entry))
        (held replies.old) (held replies.new)) }
    ensures out_of_memory { OnErr result (WasRefused M.refused) }
{
    write_number(listing, number, replies)?;
    if !listing.places {
        return write_refusal(refusal, replies);
    }
    let (start, end) = place_of(InMemory(memory), answers, line, &refusal);
    let fault = Fault {
        refusal,
        start,
        end,
    };
    write_placed(line, &fault, replies)
}

// Adds the number of the line and a tab, if numbers are asked for.
#[inline(always)]
fn write_number<M: Memory>(
    listing: Listing,
    number: u64,
    replies: &mut ReplyBlock<M>,
) -> Result<(), AllocError>
    ensures ok { OnOk result (held replies.new
        ≡ held replies.old ++ (if listing.numbers then number_column number else [])) }
    ensures out_of_memory { OnErr result (WasRefused M.refused) }
{
    if !listing.numbers {
        return Ok(());
    }
    write_decimal(number, replies)?;
    replies.push(b'\t')
}

// Adds the refusal and the place of a fault, and a newline. Most are few plain bytes, and are stored at once.
#[inline(always)]
fn write_placed<M: Memory>(
    line: Window<'_>,
    fault: &Fault,
    replies: &mut ReplyBlock<M>,
) -> Result<(), AllocError>
    requires known { fault.now.refusal ≢ ParseError.OutOfMemory }
    requires within { StandsWithin (text_in line) fault.now }
    ensures ok { OnOk result (held replies.new
        ≡ held replies.old ++ (refusal_text fault.now.refusal
        ++ (place_columns (text_in line.entry) fault.now ++ 10 ∷ []))) }
    ensures out_of_memory { OnErr result (WasRefused M.refused) }
{
    let (words, count) = reason_of(&fault.refusal);
    let lanes = u8x16::from_slice(&line.bytes[fault.start..]);
    let len = fault.end - fault.start;
    if fault.end >= 100 || len > before_marked(escaped_in(lanes)) {
        return write_long(&words[..count], line, fault, replies);
    }
    let (range, width) = short_range(fault.start as u64, fault.end as u64);
    replies.push_columns(
        words,
        count,
        range.to_le_bytes(),
        width,
        *lanes.as_array(),
        len,
    )
}

// The same behind these words, one after the other.
#[inline(never)]
fn write_long<M: Memory>(
    words: &[u8],
    line: Window<'_>,
    fault: &Fault,
    replies: &mut ReplyBlock<M>,
) -> Result<(), AllocError>
    requires { StandsWithin (text_in line) fault.now }
    ensures ok { OnOk result (held replies.new
        ≡ held replies.old ++ (words.now ++ (place_columns (text_in line.entry) fault.now ++ 10 ∷ []))) }
    ensures out_of_memory { OnErr result (WasRefused M.refused) }
{
    replies.extend_from_slice(words)?;
    write_range(fault.start as u64, fault.end as u64, replies)?;
    write_shown(&line.bytes[fault.start..fault.end], replies)?;
    replies.push(b'\n')
}
