//! Handing out texts in a caller's buffer.
ghost use Rattle.std.specs.Prelude.{◌≡◌, ◌+◌, ◌≤◌, length, option_map};
ghost use Rattle.std.specs.Option.{option_copied};
ghost use Rattle.iloc_spec_grammar.specs.Values.{identifier_text};
ghost use Rattle.iloc_pieces.specs.Plain.{AreWords, value_of};
ghost use Rattle.iloc_calls.specs.declared.status.Status.{Status};
ghost use Rattle.iloc_calls.specs.Answers.{HandsOut, Tells};
ghost use Rattle.iloc_calls.specs.Filling.{Filled, Overflowed, filled_nothing, filled_both, overflowed_after, overflowed_more};

use crate::status::Status;
use iloc_normalize::copying::{copy_all, copy_ends};
use iloc_pieces::Plain;
use iloc_writeable::{Sink, Writeable};
use std::fmt;

/// Fills a buffer from its front. It fails if a text does not fit, and then writes nothing of it.
#[derive(Drop)]
struct Filling<'a> {
    buffer: &'a mut [u8],
    count: usize,
}

impl<'a> Sink for Filling<'a> {
    ghost took = { λ a t b. Filled a.buffer a.count t b.buffer b.count };

    ghost failed = { λ a t u _. Overflowed (length a.buffer.now) a.count t u };

    fn write_str(&mut self, text: &str) -> fmt::Result {
        let bytes = text.as_bytes();
        match self.count.checked_add(bytes.len()) {
            Some(end) if end <= self.buffer.len() => {
                let start = self.count;
                self.count = end;
                copy_all(bytes, &mut self.buffer[start..end]);
                Ok(())
            }
            _ => Err(fmt::Error),
        }
    }

    ghost took_nothing = { λ s. filled_nothing s.buffer s.count };

    ghost took_then_took = { λ a b c s t p q. filled_both a.buffer a.count b.buffer b.count c.buffer
        c.count s t p q };

    ghost took_then_failed = { λ a b c s t u p q. overflowed_after a.buffer a.count b.buffer
        b.count s t u p q };

    ghost failed_of_more = { λ a b t u v q. overflowed_more (length a.buffer.now) a.count t u v q };
}

/// Writes the text into the buffer if it fits, and its length to `needed`. It allocates nothing.
pub fn hand_out<W: Writeable>(value: &W, buffer: &mut [u8], needed: &mut usize) -> Status
    ensures { HandsOut (W.text value.now) buffer.old buffer.new needed.new result }
{
    let hint = value.writeable_length_hint();
    *needed = hint.0;
    match hint.1 {
        Some(length) if length <= buffer.len() => hand_out_fitting(value, buffer, needed),
        _ => Status::BufferTooSmall,
    }
}

/// Writes a text that fits. Its length is not asked for first.
pub(crate) fn hand_out_fitting<W: Writeable>(
    value: &W,
    buffer: &mut [u8],
    needed: &mut usize,
) -> Status
    requires { length (W.text value.now) ≤ length buffer.old }
    ensures { HandsOut (W.text value.now) buffer.old buffer.new needed.new result }
{
    let mut filling = Filling { buffer, count: 0 };
    match value.write_to(&mut filling) {
        Ok(()) => {
            *needed = filling.count;
            Status::Done
        }
        Err(_) => unreachable!(),
    }
}

/// Writes a text of at most `most` bytes if it fits. Its length is asked for only if these do not fit.
#[inline(always)]
pub(crate) fn hand_out_within<W: Writeable>(
    value: &W,
    most: usize,
    buffer: &mut [u8],
    needed: &mut usize,
) -> Status
    requires { length (W.text value.now) ≤ most }
    ensures { HandsOut (W.text value.now) buffer.old buffer.new needed.new result }
{
    if most <= buffer.len() {
        hand_out_fitting(value, buffer, needed)
    } else {
        hand_out(value, buffer, needed)
    }
}

/// Writes a plain identifier that fits, whose first and last `W` bytes are all of it.
#[inline(always)]
pub(crate) fn hand_out_fitting_plain<const W: usize>(
    plain: &Plain,
    buffer: &mut [u8],
    needed: &mut usize,
) -> Status
    requires words { AreWords plain.now }
    requires wide { W ≤ plain.now.len }
    requires few { plain.now.len ≤ W + W }
    requires room { plain.now.len ≤ length buffer.old }
    ensures { HandsOut (identifier_text (value_of plain.now)) buffer.old buffer.new needed.new
        result }
{
    *needed = plain.len;
    let bytes = plain.bytes;
    copy_ends::<W>(&bytes.as_array()[..plain.len], &mut buffer[..plain.len]);
    Status::Done
}

/// Writes these bytes if they fit.
#[inline(always)]
pub fn hand_out_bytes(bytes: &[u8], buffer: &mut [u8], needed: &mut usize) -> Status
    ensures { HandsOut bytes.now buffer.old buffer.new needed.new result }
{
    let end = bytes.len();
    *needed = end;
    if end > buffer.len() {
        return Status::BufferTooSmall;
    }
    copy_all(bytes, &mut buffer[..end]);
    Status::Done
}

/// Hands out the text of a part that is there.
pub fn hand_out_found<W: Writeable>(
    part: Option<&W>,
    buffer: &mut [u8],
    needed: &mut usize,
) -> Status
    ensures { Tells (option_map W.text (option_copied part.entry)) buffer.old buffer.new needed.new
        result }
{
    match part {
        Some(value) => hand_out(value, buffer, needed),
        None => hand_out_none(needed),
    }
}

/// Hands out nothing, as there is no such part.
pub fn hand_out_none(needed: &mut usize) -> Status
    ensures status { result ≡ Status.NotFound }
    ensures needed { needed.new ≡ 0 }
{
    *needed = 0;
    Status::NotFound
}
