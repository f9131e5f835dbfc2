//! Lines that come in pieces, and their replies.
ghost use Rattle.std.specs.Prelude.{◌≡◌, ◌≢◌, ◌+◌, ◌≤◌, Some, [], ◌∷◌, ◌++◌, take, length, map, IfSome, MatchOption, IfOk, OnOk, OnErr, IsOkUnless, ◌<◌, vec_len};
ghost use Rattle.std.specs.Io.KnownBytes.{Appends};
ghost use Rattle.iloc_writeable.specs.Growth.{AddsBeginning};
ghost use Rattle.iloc_memory.specs.Refusals.{RefusedWithin};
ghost use Rattle.iloc_program.specs.Replies.{AnswersLine, FeedsReplies, RepliesTo, line_room, text_room};
ghost use Rattle.iloc_program.specs.ReplyBlock.{held};
ghost use Rattle.iloc_normalize.specs.Answered.{IsLead};
ghost use Rattle.iloc_program.specs.Lines.{IsLineEnd, IsOneLine};
ghost use Rattle.iloc_pieces.specs.Plain.{IsPlain};
ghost use Rattle.iloc_pieces.specs.Window.{text_in};
ghost use Rattle.std.specs.Simd.Lanes.{mask_l};
ghost use Rattle.iloc_spec_grammar.specs.Syntax.{Text, languages};
ghost use Rattle.iloc_program.specs.Answers.{reply, output};
ghost use Rattle.memchr.specs.Find.{Nowhere, Passes, is_byte};

use crate::replies::write_refusal;
use crate::reply_block::ReplyBlock;
use crate::{InMode, RunError};
use iloc_memory::{Memory, Trees, extend_from_slice, lengthen};
use iloc_normalize::{Lead, Mode, Written, read_found, read_lead};
use iloc_pieces::{Plain, Window, may_begin, read_plain};
use iloc_spans::spans::Spans;
use iloc_subtags::ParseError;
use memchr::memchr_iter;
use std::alloc::AllocError;
use std::io::Write;
use std::simd::prelude::*;

// The bytes that are asked of the reader at once.
const BLOCK: usize = 65536;

// Room for what one read gives.
pub(crate) fn new_block<M: Memory>(memory: M) -> Result<Vec<u8>, AllocError>
    ensures ok { IfOk result (λ block. 0 < vec_len block) }
    ensures out_of_memory { OnErr result (RefusedWithin M.refused 65536) }
{
    let mut block = memory.empty();
    lengthen(memory, &mut block, BLOCK, 0u8)?;
    Ok(block)
}

// A bit for each newline among sixteen bytes.
#[inline(always)]
fn line_ends(lanes: u8x16) -> u64
    ensures { result ≡ mask_l (map (is_byte 10) lanes) }
{
    lanes.simd_eq(u8x16::splat(10)).to_bitmask()
}

// A bit for each newline among 32 bytes.
#[inline(always)]
fn wide_line_ends(lanes: u8x32) -> u64
    ensures { result ≡ mask_l (map (is_byte 10) lanes) }
{
    lanes.simd_eq(u8x32::splat(10)).to_bitmask()
}

// Where the first newline stands, or how many bytes there are if none does. Most lines end within sixteen bytes, and
// most others within 32.
#[inline(always)]
pub(crate) fn line_end(bytes: &[u8]) -> usize
    ensures { IsLineEnd bytes.now result }
{
    if bytes.len() >= 32 {
        let ends = line_ends(u8x16::from_slice(bytes));
        if ends > 0 {
            return ends.trailing_zeros() as usize;
        }
        let later = line_ends(u8x16::from_slice(&bytes[16..]));
        if later > 0 {
            return 16 + later.trailing_zeros() as usize;
        }
    }
    line_end_later(bytes)
}

// Where the first newline stands if none is among the first 32. It is a call of its own, so that shorter lines pay
// nothing.
#[inline(never)]
fn line_end_later(bytes: &[u8]) -> usize
    requires { 32 ≤ length bytes.now → Nowhere (Passes (is_byte 10) bytes.now) 0 32 }
    ensures { IsLineEnd bytes.now result }
{
    if bytes.len() >= 64 {
        let ends = wide_line_ends(u8x32::from_slice(&bytes[32..]));
        if ends > 0 {
            return 32 + ends.trailing_zeros() as usize;
        }
    }
    line_end_beyond(bytes)
}

// Where the first newline stands among any bytes.
#[inline(never)]
fn line_end_beyond(bytes: &[u8]) -> usize
    ensures { IsLineEnd bytes.now result }
{
    match memchr_iter(b'\n', bytes).next() {
        Some(end) => end,
        None => bytes.len(),
    }
}

// The first line and what follows its newline, if the newline is there.
pub(crate) fn split_line(bytes: &[u8]) -> Option<(&[u8], &[u8])>
    ensures { MatchOption result (IsOneLine bytes.now)
        (λ parts. IsOneLine parts.0.now × (bytes.now ≡ parts.0.now ++ 10 ∷ parts.1.now)) }
{
    let end = line_end(bytes);
    if end == bytes.len() {
        return None;
    }
    Some((&bytes[..end], &bytes[end + 1..]))
}

// What the line is, if it is plain.
#[inline(always)]
fn plain_line(line: Window<'_>) -> Option<Plain>
    ensures { IfSome result (IsPlain (text_in line.entry)) }
{
    if line.len() > 16 {
        return None;
    }
    read_plain(line.bytes, line.len())
}

// What the beginning of the line shows. It is generic, so that each mode has its own and only what that asks is left of it.
#[inline(always)]
fn lead_of<A: InMode>(answers: &A, line: Window<'_>) -> Lead
    ensures { IsLead A.mode (text_in line.entry) result }
{
    let mode = answers.mode();
    match read_found(mode, line) {
        Some(lead) => lead,
        None => read_lead(mode, line),
    }
}

// Adds the normal text of the line, of which the beginning shows this, and a newline; or returns why it is refused.
// The spans are room for the outline of a line. It fails only if an allocation does.
#[inline(always)]
fn answer_as<M: Trees>(
    mode: Mode,
    lead: Lead,
    line: Window<'_>,
    spans: &mut Spans,
    replies: &mut ReplyBlock<M>,
) -> Result<Option<ParseError>, AllocError>
    requires { IsLead mode (text_in line) lead }
    ensures ok { IfOk result
        (AnswersLine mode (text_in line.entry) (held replies.old) (held replies.new)) }
    ensures out_of_memory { OnErr result (RefusedWithin M.refused
        (line_room (held replies.old) (text_in line.entry))) }
{
    if let Lead::Refused(error) = lead {
        return Ok(Some(error));
    }
    match replies.push_answered(mode, lead, line, spans)? {
        Written::Normal(_) => Ok(None),
        written => match written.refusal() {
            Some(error) => Ok(Some(error)),
            None => Err(AllocError),
        },
    }
}

// Adds the normal text of the line and a newline, or returns why it is refused; if an allocation fails, that. The call is
// one for all modes.
#[inline(never)]
fn answer_read<M: Trees>(
    mode: Mode,
    line: Window<'_>,
    spans: &mut Spans,
    replies: &mut ReplyBlock<M>,
) -> Option<ParseError>
    ensures answered { result ≢ Some ParseError.OutOfMemory
        → AnswersLine mode (text_in line.entry) (held replies.old) (held replies.new) result }
    ensures out_of_memory { result ≡ Some ParseError.OutOfMemory → RefusedWithin M.refused
        (line_room (held replies.old) (text_in line.entry)) }
{
    let lead = read_lead(mode, line);
    match answer_as(mode, lead, line, spans, replies) {
        Ok(answered) => answered,
        Err(_) => Some(ParseError::OutOfMemory),
    }
}

// The same, without that call where the line is plain, or where what is asked first refuses it.
#[inline(always)]
pub(crate) fn answer_in<M: Trees>(
    mode: Mode,
    line: Window<'_>,
    spans: &mut Spans,
    replies: &mut ReplyBlock<M>,
) -> Result<Option<ParseError>, AllocError>
    ensures ok { IfOk result
        (AnswersLine mode (text_in line.entry) (held replies.old) (held replies.new)) }
    ensures out_of_memory { OnErr result (RefusedWithin M.refused
        (line_room (held replies.old) (text_in line.entry))) }
{
    if !may_begin(line) {
        return Ok(Some(ParseError::InvalidLanguage));
    }
    if let Some(plain) = plain_line(line) {
        replies.push_plain(&plain)?;
        return Ok(None);
    }
    if let Some(Lead::Refused(refusal)) = read_found(mode, line) {
        return Ok(Some(refusal));
    }
    let Some(refusal) = answer_read(mode, line, spans, replies) else {
        return Ok(None);
    };
    match refusal {
        ParseError::OutOfMemory => Err(AllocError),
        _ => Ok(Some(refusal)),
    }
}

// Adds the reply to the line, in a mode that is only known when it runs.
#[inline(always)]
fn reply_in<M: Trees>(
    mode: Mode,
    line: Window<'_>,
    spans: &mut Spans,
    replies: &mut ReplyBlock<M>,
) -> Result<(), AllocError>
    ensures ok { OnOk result (held replies.new
        ≡ held replies.old ++ reply languages mode (text_in line.entry)) }
    ensures out_of_memory { OnErr result (RefusedWithin M.refused
        (line_room (held replies.old) (text_in line.entry))) }
{
    match answer_in(mode, line, spans, replies)? {
        Some(error) => write_refusal(error, replies),
        None => Ok(()),
    }
}

// Adds the reply to the line that is pending, and forgets the line. Sixteen bytes are put behind it, which may be loaded.
#[inline(never)]
fn end_pending<M: Trees>(
    mode: Mode,
    pending: &mut Vec<u8>,
    spans: &mut Spans,
    replies: &mut ReplyBlock<M>,
) -> Result<(), AllocError>
    ensures ok { RepliesTo mode pending.old.items (held replies.old) (held replies.new)
        pending.new.items result }
    ensures out_of_memory { OnErr result (RefusedWithin M.refused
        (line_room (held replies.old) pending.old.items)) }
{
    extend_from_slice(replies.memory(), pending, &[0; 16])?;
    let line = Window {
        bytes: pending.as_slice(),
    };
    reply_in(mode, line, spans, replies)?;
    pending.clear();
    Ok(())
}

/// Adds the reply to one line, wherever it stands. It is copied to the room, which is empty afterwards. The spans are room for
/// the outline of the line. It fails only if the memory of the replies refused room for at most twice as many bytes as the
/// replies before, the line and 48 more, or as many as are made first.
#[inline(never)]
pub fn reply_line<M: Trees>(
    mode: Mode,
    line: &[u8],
    room: &mut Vec<u8>,
    spans: &mut Spans,
    replies: &mut ReplyBlock<M>,
) -> Result<(), AllocError>
    ensures ok { RepliesTo mode line.now (held replies.old) (held replies.new) room.new.items
        result }
    ensures out_of_memory { OnErr result (RefusedWithin M.refused
        (line_room (held replies.old) line.now)) }
{
    room.clear();
    extend_from_slice(replies.memory(), room, line)?;
    end_pending(mode, room, spans, replies)
}

// Adds the reply to the line. It is called from one place only, since `lead_of` is too large to be inlined in two.
#[inline(always)]
fn reply_to<A: InMode, M: Trees>(
    answers: &A,
    line: Window<'_>,
    spans: &mut Spans,
    replies: &mut ReplyBlock<M>,
) -> Result<(), AllocError>
    ensures ok { OnOk result (held replies.new
        ≡ held replies.old ++ reply languages A.mode (text_in line.entry)) }
    ensures out_of_memory { OnErr result (RefusedWithin M.refused
        (line_room (held replies.old) (text_in line.entry))) }
{
    if !may_begin(line) {
        return write_refusal(ParseError::InvalidLanguage, replies);
    }
    if let Some(plain) = plain_line(line) {
        return replies.push_plain(&plain);
    }
    let lead = lead_of(answers, line);
    match answer_as(answers.mode(), lead, line, spans, replies)? {
        Some(error) => write_refusal(error, replies),
        None => Ok(()),
    }
}

// Adds the replies to the lines that these bytes end, if nothing is pending, and keeps the start of
// the next line. A line near the end of the bytes is answered in the room of what is pending.
fn feed_lines<A: InMode, M: Trees>(
    answers: &A,
    pending: &mut Vec<u8>,
    bytes: &[u8],
    spans: &mut Spans,
    replies: &mut ReplyBlock<M>,
) -> Result<(), AllocError>
    requires { pending.old.items ≡ [] }
    ensures ok { FeedsReplies A.mode [] bytes.now (held replies.old) (held replies.new)
        pending.new.items result }
    ensures out_of_memory { (next : Text) → OnErr result (RefusedWithin M.refused
        (text_room A.mode (held replies.old) (bytes.now ++ next))) }
{
    let mut rest = bytes;
    'lines: loop {
        let end = line_end(rest);
        let (line, later) = rest.split_at(end);
        if later.len() < 16 {
            if later.is_empty() {
                break 'lines;
            }
            reply_line(answers.mode(), line, pending, spans, replies)?;
        } else {
            let line = Window {
                bytes: &rest[..end + 16],
            };
            reply_to(answers, line, spans, replies)?;
        }
        rest = &later[1..];
    }
    extend_from_slice(replies.memory(), pending, rest)
}

// Adds the replies to the lines that this piece of the input ends, and keeps the start of the next line.
// What is pending is answered first, so that no other line asks for it.
pub(crate) fn feed<A: InMode, M: Trees>(
    answers: &A,
    pending: &mut Vec<u8>,
    piece: &[u8],
    spans: &mut Spans,
    replies: &mut ReplyBlock<M>,
) -> Result<(), AllocError>
    requires { IsOneLine pending.old.items }
    ensures ok { FeedsReplies A.mode pending.old.items piece.now (held replies.old)
        (held replies.new) pending.new.items result }
    ensures out_of_memory { (next : Text) → OnErr result (RefusedWithin M.refused
        (text_room A.mode (held replies.old) (pending.old.items ++ (piece.now ++ next)))) }
{
    if pending.is_empty() {
        return feed_lines(answers, pending, piece, spans, replies);
    }
    let Some((line, later)) = split_line(piece) else {
        return extend_from_slice(replies.memory(), pending, piece);
    };
    extend_from_slice(replies.memory(), pending, line)?;
    end_pending(answers.mode(), pending, spans, replies)?;
    feed_lines(answers, pending, later, spans, replies)
}

// Adds the reply to a last line without a newline, if there is one.
pub(crate) fn finish<A: InMode, M: Trees>(
    answers: &A,
    pending: &mut Vec<u8>,
    spans: &mut Spans,
    replies: &mut ReplyBlock<M>,
) -> Result<(), AllocError>
    requires { IsOneLine pending.old.items }
    ensures ok { OnOk result (held replies.new
        ≡ held replies.old ++ output languages A.mode pending.old.items) }
    ensures out_of_memory { OnErr result (RefusedWithin M.refused
        (line_room (held replies.old) pending.old.items)) }
{
    if pending.is_empty() {
        return Ok(());
    }
    end_pending(answers.mode(), pending, spans, replies)
}

// Writes all of it, by as many calls as the writer takes. A write of no bytes is an error, and no error is tried again.
pub(crate) fn write_whole<W: Write>(writer: &mut W, bytes: &[u8]) -> Result<(), RunError>
    ensures ok { OnOk result (Appends (W.contents writer.old) (W.contents writer.new) bytes.now) }
    ensures err { OnErr result
        (AddsBeginning (W.contents writer.old) (W.contents writer.new) bytes.now) }
    ensures error { IsOkUnless result RunError.Write }
{
    match iloc_writeable::write_whole(writer, bytes) {
        Ok(()) => Ok(()),
        Err(_) => Err(RunError::Write),
    }
}
