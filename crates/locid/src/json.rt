//! The JSON objects of lines. `serde_json` writes them.

use crate::parts::{Parts, cut_member, cut_piece, text_of};
use iloc_faults::{InMemory, fault_in};
use iloc_program::Mode;
use serde::{Described, Serialize, Serializer};
use std::alloc::{AllocError, Global};

// What stands under a name.
#[derive(Clone, Copy)]
enum Part<'a> {
    Number(usize),
    Text(&'a str),
    // A piece, or nothing if it is empty.
    Piece(&'a [u8]),
    // Pieces, with hyphens between them.
    Pieces(&'a [u8]),
    // Keywords or extensions, and how many bytes their keys have.
    Members(&'a [u8], usize),
}

// Names, and what stands under each.
#[derive(Clone, Copy)]
struct Object<'a>(&'a [(&'a str, Part<'a>)]);

impl Described for Object<'_> {}

impl Serialize for Object<'_> {
    fn serialize<S: Serializer>(&self, out: &mut S) -> Result<(), S::Error> {
        out.begin_map(None)?;
        for (name, part) in self.0 {
            write_member(name, *part, out)?;
        }
        out.end_map()
    }
}

// Writes what stands under a name.
fn write_member<S: Serializer>(name: &str, part: Part<'_>, out: &mut S) -> Result<(), S::Error> {
    out.key(name)?;
    match part {
        Part::Piece([]) => out.unit(),
        Part::Piece(piece) => out.str(text_of(piece)),
        Part::Number(number) => out.u64(number as u64),
        Part::Text(text) => out.str(text),
        Part::Pieces(pieces) => write_pieces(pieces, out),
        Part::Members(members, count) => write_members(members, count, out),
    }
}

// Writes a list of pieces.
fn write_pieces<S: Serializer>(pieces: &[u8], out: &mut S) -> Result<(), S::Error> {
    out.begin_seq(None)?;
    let mut rest = pieces;
    for _ in 0..pieces.len() {
        let (piece, later) = cut_piece(rest);
        if !piece.is_empty() {
            out.str(text_of(piece))?;
        }
        rest = later;
    }
    out.end_seq()
}

// Writes an object of members.
fn write_members<S: Serializer>(members: &[u8], count: usize, out: &mut S) -> Result<(), S::Error> {
    out.begin_map(None)?;
    let mut rest = members;
    for _ in 0..members.len() {
        let (key, value, later) = cut_member(rest, count);
        if !key.is_empty() {
            write_text(text_of(key), text_of(value), out)?;
        }
        rest = later;
    }
    out.end_map()
}

// Writes a text under its key.
fn write_text<S: Serializer>(key: &str, value: &str, out: &mut S) -> Result<(), S::Error> {
    out.key(key)?;
    out.str(value)
}

/// The object of a line, which has these parts if it is not refused.
pub fn object_of(
    alloc: Global,
    mode: Mode,
    line: &[u8],
    parts: &Parts<'_>,
) -> Result<Vec<u8>, AllocError> {
    let written = match fault_in(InMemory(alloc), mode, line) {
        Some(fault) => {
            let object = Object(&[
                ("refused", Part::Text(fault.refusal.words())),
                ("start", Part::Number(fault.start)),
                ("end", Part::Number(fault.end)),
            ]);
            serde_json::to_vec(alloc, &object)
        }
        None => {
            let object = Object(&[
                ("language", Part::Piece(parts.language)),
                ("script", Part::Piece(parts.script)),
                ("region", Part::Piece(parts.region)),
                ("variants", Part::Pieces(parts.variants)),
                ("keywords", Part::Members(parts.keywords, 2)),
                ("extensions", Part::Members(parts.extensions, 1)),
            ]);
            serde_json::to_vec(alloc, &object)
        }
    };
    // (nothing but memory fails)
    match written {
        Ok(object) => Ok(object),
        Err(_) => Err(AllocError),
    }
}
