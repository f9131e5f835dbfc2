//! The parts of each line, in columns or as a JSON object.

use crate::inputs::Tally;
use crate::json::object_of;
use crate::parts::{Parts, cut, cut_member};
use iloc_pieces::Window;
use iloc_program::numbered::Lists;
use iloc_program::{Listing, Mode, ReplyBlock, reply_line};
use iloc_spans::spans::Spans;
use std::alloc::{AllocError, Global};

/// Writes the parts of lines in the mode.
#[derive(Drop)]
pub struct Parting<'a> {
    pub alloc: Global,
    pub mode: Mode,
    pub is_json: bool,
    pub room: Vec<u8>,
    pub spans: Spans,
    /// The answer to a line, and what is written of it.
    pub normal: ReplyBlock,
    pub written: ReplyBlock,
    pub tally: &'a mut Tally,
}

impl Lists<Global> for Parting<'_> {
    // What is written of a line is not said here.
    ghost is_entry = { λ _ _ _ _. Unit {0} };

    fn list(
        &mut self,
        _listing: Listing,
        _number: u64,
        line: Window<'_>,
        replies: &mut ReplyBlock,
    ) -> Result<(), AllocError> {
        let (line, _) = line.bytes.split_at(line.len());
        self.answer(line)?;
        self.written.clear();
        self.write(line)?;
        self.written.push(b'\n')?;
        replies.extend_from_slice(self.written.as_slice())
    }
}

impl Parting<'_> {
    // Has the room hold the answer to a line.
    fn answer(&mut self, line: &[u8]) -> Result<(), AllocError> {
        let normal = &mut self.normal;
        normal.clear();
        reply_line(self.mode, line, &mut self.room, &mut self.spans, normal)
    }

    // Adds what is written of the line that was answered, and counts it.
    fn write(&mut self, line: &[u8]) -> Result<(), AllocError> {
        let text = match self.normal.as_slice() {
            [text @ .., b'\n'] => text,
            text => text,
        };
        self.tally.add(matches!(text, [b'!', ..]));
        let parts = cut(text);
        if !self.is_json {
            return write_columns(&parts, &mut self.written);
        }
        let object = object_of(self.alloc, self.mode, line, &parts)?;
        self.written.extend_from_slice(object.as_slice())
    }
}

// Adds the columns. A refusal has no hyphens, so it stands in the first one.
fn write_columns(parts: &Parts<'_>, to: &mut ReplyBlock) -> Result<(), AllocError> {
    let tab: &[u8] = b"\t";
    for part in [parts.language, parts.script, parts.region, parts.variants] {
        write_all(&[part, tab], to)?;
    }
    write_keywords(parts.keywords, to)?;
    write_all(&[tab, parts.extensions], to)
}

// Adds the keywords, as `ca=buddhist;kn`.
fn write_keywords(keywords: &[u8], to: &mut ReplyBlock) -> Result<(), AllocError> {
    let mut rest = keywords;
    for _ in 0..keywords.len() {
        let (key, value, later) = cut_member(rest, 2);
        let equals: &[u8] = if value.is_empty() { &[] } else { b"=" };
        let end: &[u8] = if later.is_empty() { &[] } else { b";" };
        write_all(&[key, equals, value, end], to)?;
        rest = later;
    }
    Ok(())
}

// Adds these texts.
fn write_all(texts: &[&[u8]], to: &mut ReplyBlock) -> Result<(), AllocError> {
    for text in texts {
        to.extend_from_slice(text)?;
    }
    Ok(())
}
