//! The replies to a block of lines, as they are collected.
//!
//! It promises that a growth fails only if the memory refused room (`out_of_memory`): for at most twice as many bytes as are
//! held then, or as many as are made first (`room_for`).
ghost use Rattle.std.specs.Prelude.{◌≡◌, ◌+◌, ◌<◌, ◌≤◌, [], ◌∷◌, ◌++◌, length, take, vec_len, IfOk, OnOk, OnErr};

use iloc_memory::{Memory, Trees, lengthen};
use iloc_normalize::{Lead, Mode, Written, write_normal};
use iloc_pieces::{Plain, Window};
use iloc_spans::spans::Spans;
use std::alloc::{AllocError, Global};
use std::cmp::max;

// The room that is made first, so that the replies to most blocks need no more.
const FIRST_ROOM: usize = 131_072;

/// Bytes that count, and room behind them. What stands in the room says nothing, so that a plain text is
/// stored as sixteen bytes at once, whatever its length.
#[derive(Drop)]
pub struct ReplyBlock<M = Global> {
    memory: M,
    room: Vec<u8>,
    len: usize,
    ghost within: { len ≤ vec_len room },
}

impl ReplyBlock {
    ghost use Rattle.iloc_program.specs.ReplyBlock.{held};

    /// No bytes. It allocates nothing.
    pub fn new(alloc: Global) -> Self
        ensures { held result ≡ [] }
    {
        ReplyBlock::new_in(alloc)
    }
}

impl<M: Memory> ReplyBlock<M> {
    ghost use Rattle.iloc_program.specs.ReplyBlock.{MakesRoom, held, room_for};
    ghost use Rattle.iloc_memory.specs.Refusals.{RefusedWithin};
    ghost use Rattle.iloc_spec_grammar.specs.Values.{identifier_text};
    ghost use Rattle.iloc_pieces.specs.Plain.{AreWords, value_of};

    /// No bytes. It asks for no room; later room is asked of this memory.
    pub fn new_in(memory: M) -> Self
        ensures { held result ≡ [] }
    {
        ReplyBlock {
            memory,
            room: memory.empty(),
            len: 0,
        }
    }

    /// No bytes, and room for so many.
    pub(crate) fn with_room(memory: M, room: usize) -> Result<Self, AllocError>
        ensures ok { IfOk result (λ block. held block ≡ []) }
        ensures out_of_memory { OnErr result (RefusedWithin M.refused room) }
    {
        let mut block = ReplyBlock::new_in(memory);
        lengthen(memory, &mut block.room, room, 0)?;
        Ok(block)
    }

    /// The memory that is asked for room.
    #[inline(always)]
    pub(crate) fn memory(&self) -> M
        ensures { result ≡ self.now.memory }
    {
        self.memory
    }

    /// Forgets the bytes, and keeps their room.
    pub fn clear(&mut self)
        ensures { held self.new ≡ [] }
    {
        self.len = 0;
    }

    /// How many bytes count.
    #[inline(always)]
    pub(crate) fn len(&self) -> usize
        ensures { result ≡ length (held self.now) }
    {
        self.len
    }

    /// Forgets all but so many bytes.
    #[inline(always)]
    pub(crate) fn truncate(&mut self, len: usize)
        requires { len ≤ length (held self.old) }
        ensures { held self.new ≡ take len (held self.old) }
    {
        self.len = len;
    }

    /// The bytes that count.
    pub fn as_slice(&self) -> &[u8]
        ensures { result.now ≡ held self.now }
    {
        &self.room.as_slice()[..self.len]
    }

    /// Adds a byte.
    #[inline(always)]
    pub fn push(&mut self, byte: u8) -> Result<(), AllocError>
        ensures ok { OnOk result (held self.new ≡ held self.old ++ byte ∷ []) }
        ensures out_of_memory { OnErr result
            (RefusedWithin M.refused (room_for (length (held self.old) + 1))) }
    {
        self.make_room(1)?;
        self.put(&[byte], 1);
        Ok(())
    }

    /// Adds the first of these bytes, and stores all of them.
    #[inline(always)]
    pub(crate) fn push_first<const N: usize>(
        &mut self,
        bytes: [u8; N],
        count: usize,
    ) -> Result<(), AllocError>
        requires { count ≤ N }
        ensures ok { OnOk result (held self.new ≡ held self.old ++ take count bytes.entry) }
        ensures out_of_memory { OnErr result
            (RefusedWithin M.refused (room_for (length (held self.old) + N))) }
    {
        self.make_room(N)?;
        self.put(&bytes, count);
        Ok(())
    }

    /// Adds the first bytes of three columns and a newline, and stores all of them.
    #[inline(always)]
    pub(crate) fn push_columns(
        &mut self,
        words: &[u8; 48],
        words_len: usize,
        range: [u8; 8],
        range_len: usize,
        piece: [u8; 16],
        piece_len: usize,
    ) -> Result<(), AllocError>
        requires words { words_len ≤ 48 }
        requires range { range_len ≤ 8 }
        requires piece { piece_len ≤ 16 }
        ensures ok { OnOk result (held self.new ≡ held self.old ++ (take words_len words.now
            ++ (take range_len range ++ (take piece_len piece ++ 10 ∷ [])))) }
        ensures out_of_memory { OnErr result
            (RefusedWithin M.refused (room_for (length (held self.old) + 73))) }
    {
        self.make_room(73)?;
        let start = self.len;
        let to = &mut self.room.as_mut_slice()[start..];
        let first = store(to, 0, words, words_len);
        let second = store(to, first, &range, range_len);
        let third = store(to, second, &piece, piece_len);
        let end = store(to, third, b"\n", 1);
        self.len = start + end;
        Ok(())
    }

    /// Adds the normal text of a plain identifier, and a newline.
    #[inline(always)]
    pub(crate) fn push_plain(&mut self, plain: &Plain) -> Result<(), AllocError>
        requires { AreWords plain.now }
        ensures ok { OnOk result (held self.new
            ≡ held self.old ++ (identifier_text (value_of plain.now) ++ 10 ∷ [])) }
        ensures out_of_memory { OnErr result
            (RefusedWithin M.refused (room_for (length (held self.old) + 17))) }
    {
        self.make_room(17)?;
        self.put(plain.bytes.as_array(), plain.len);
        self.put(b"\n", 1);
        Ok(())
    }

    /// Adds these bytes.
    pub fn extend_from_slice(&mut self, bytes: &[u8]) -> Result<(), AllocError>
        ensures ok { OnOk result (held self.new ≡ held self.old ++ bytes.now) }
        ensures err { OnErr result (held self.new ≡ held self.old) }
        ensures out_of_memory { OnErr result
            (RefusedWithin M.refused (room_for (length (held self.old) + length bytes.now))) }
    {
        self.make_room(bytes.len())?;
        self.put(bytes, bytes.len());
        Ok(())
    }

    // Sees that there is room for so many more.
    #[inline(always)]
    fn make_room(&mut self, more: usize) -> Result<(), AllocError>
        ensures room { MakesRoom self.old self.new more result }
        ensures out_of_memory { OnErr result
            (RefusedWithin M.refused (room_for (length (held self.old) + more))) }
    {
        if self.room.len() - self.len < more {
            return self.grow(more);
        }
        Ok(())
    }

    // Makes room for so many more, and for twice as many as there was room for, or at first for many replies.
    #[inline(never)]
    fn grow(&mut self, more: usize) -> Result<(), AllocError>
        requires { vec_len self.old.room < self.old.len + more }
        ensures room { MakesRoom self.old self.new more result }
        ensures out_of_memory { OnErr result
            (RefusedWithin M.refused (room_for (length (held self.old) + more))) }
    {
        let least = self.len.saturating_add(more);
        let usual = if self.room.is_empty() {
            FIRST_ROOM
        } else {
            self.room.len().saturating_mul(2)
        };
        lengthen(self.memory, &mut self.room, max(least, usual), 0)
    }

    // Stores these bytes behind those that count, and counts the first of them.
    #[inline(always)]
    fn put(&mut self, bytes: &[u8], count: usize)
        requires room { self.old.len + length bytes.now ≤ vec_len self.old.room }
        requires within { count ≤ length bytes.now }
        ensures held { held self.new ≡ held self.old ++ take count bytes.now }
        ensures len { self.new.len ≡ self.old.len + count }
        ensures room { vec_len self.new.room ≡ vec_len self.old.room }
    {
        let start = self.len;
        let end = start + bytes.len();
        self.room.as_mut_slice()[start..end].copy_from_slice(bytes);
        self.len = start + count;
    }
}

impl<M: Trees> ReplyBlock<M> {
    ghost use Rattle.std.specs.Prelude.{Ok};
    ghost use Rattle.iloc_program.specs.ReplyBlock.{held, room_for};
    ghost use Rattle.iloc_program.specs.Replies.{IsReplied};
    ghost use Rattle.iloc_memory.specs.Refusals.{RefusedWithin};
    ghost use Rattle.iloc_normalize.specs.Answered.{IsLead};
    ghost use Rattle.iloc_spec_grammar.specs.Syntax.{pieces};
    ghost use Rattle.iloc_pieces.specs.Window.{text_in};

    /// Adds the normal text of a text, of which the beginning shows this, and a newline; or nothing.
    #[inline(always)]
    pub(crate) fn push_answered(
        &mut self,
        mode: Mode,
        lead: Lead,
        text: Window<'_>,
        spans: &mut Spans,
    ) -> Result<Written, AllocError>
        requires { IsLead mode (text_in text) lead }
        ensures ok { IfOk result
            (IsReplied mode (text_in text.entry) (held self.old) (held self.new)) }
        ensures out_of_memory { OnErr result (RefusedWithin M.refused
            (room_for (length (held self.old) + (length text.entry.bytes.now + 1)))) }
        ensures nothing { result ≡ Ok Written.Nothing
            → RefusedWithin M.refused (length (pieces (text_in text.entry))) }
    {
        self.make_room(text.bytes.len() + 1)?;
        let start = self.len;
        let to = &mut self.room.as_mut_slice()[start..];
        let written = write_normal(self.memory, mode, lead, text, spans, to);
        if let Written::Normal(count) = written {
            self.len = start + count;
            self.put(b"\n", 1);
        }
        Ok(written)
    }
}

// Stores these bytes in the room behind the first of it, and returns where the first of them end.
#[inline(always)]
fn store(to: &mut [u8], at: usize, bytes: &[u8], count: usize) -> usize
    requires room { at + length bytes.now ≤ length to.old }
    requires within { count ≤ length bytes.now }
    ensures stored { take result to.new ≡ take at to.old ++ take count bytes.now }
    ensures end { result ≡ at + count }
    ensures room { length to.new ≡ length to.old }
{
    to[at..at + bytes.len()].copy_from_slice(bytes);
    at + count
}
