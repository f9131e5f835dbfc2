//! Prints values.
ghost use Rattle.std.specs.Prelude.{◌≡◌, ◌≢◌, ◌↔◌, ◌++◌, length, IsTrue, IfOk, OnErr, IfSome, IsNone, Some};
ghost use Rattle.std.specs.Cow.{cow_str_bytes};
ghost use Rattle.iloc_memory.specs.Refusals.{RefusedWithin};
ghost use Rattle.iloc_writeable.specs.Writing.{IsLent};
ghost use Rattle.iloc_spec_grammar.specs.Syntax.{Text, join, dashes};

use crate::value::Value;
use iloc_memory::Memory;
use iloc_subtags::Subtag;
use iloc_tinystr::ShortPiece;
use iloc_writeable::pieces::Pieces;
use iloc_writeable::{Sink, Writeable};
use std::alloc::{AllocError, Global};
use std::borrow::CowStr;
use std::fmt;

/// The subtags are the pieces.
impl Pieces for Value {
    ghost pieces = { λ value. value };

    fn has_pieces(&self) -> bool {
        !self.is_empty()
    }

    #[tactic(auto, using(iloc_writeable::proofs::PiecesLemmas::flat_map_words))]
    fn write_pieces<S: Sink>(&self, sink: &mut S, first: bool) -> fmt::Result {
        self.as_subtags_slice().write_pieces(sink, first)
    }
}

/// Prints the subtags with a hyphen between each two. The text of a value of one subtag can be lent.
impl Writeable for Value {
    ghost text = { λ value. join value };

    ghost lends = { λ value. length value ≡ 1 };

    #[tactic(auto, unfolding(iloc_spec_grammar::specs::Syntax::join))]
    fn write_to<S: Sink>(&self, sink: &mut S) -> fmt::Result {
        self.write_joined(sink)
    }

    fn writeable_borrow(&self) -> Option<&str> {
        match self.as_subtags_slice() {
            [subtag] => Some(subtag.as_str()),
            _ => None,
        }
    }

    fn write_to_string_in<M: Memory>(&self, memory: M) -> Result<CowStr<'_, Global>, AllocError> {
        match self.writeable_borrow() {
            Some(text) => Ok(CowStr::Borrowed(text)),
            None => text_of(self, memory),
        }
    }
}

// A value that lends no text, not even that of one subtag.
#[derive(Drop)]
struct Owning<'a>(&'a Value);

impl<'a> Writeable for Owning<'a> {
    ghost text = { λ owning. join owning.0.now };

    fn write_to<S: Sink>(&self, sink: &mut S) -> fmt::Result {
        self.0.write_to(sink)
    }

    fn writeable_borrow(&self) -> Option<&str> {
        None
    }
}

// The text in a string of its own. It stands apart, so that the text of one subtag does not wait for it.
#[inline(never)]
fn text_of<M: Memory>(value: &Value, memory: M) -> Result<CowStr<'_, Global>, AllocError>
    ensures text { IfOk result (λ t. cow_str_bytes t ≡ join value.now) }
    ensures owned { IfOk result (λ t. IsLent t → ⊥) }
    ensures out_of_memory { OnErr result (RefusedWithin M.refused (length (join value.now))) }
{
    match Owning(value).write_to_string_in(memory)? {
        CowStr::Owned(text) => Ok(CowStr::Owned(text)),
        CowStr::Borrowed(_) => unreachable!(),
    }
}

/// Prints the subtags with a hyphen between each two.
impl fmt::Display for Value {
    ghost output = { λ value. Some (join value) };

    fn fmt<W: fmt::Write>(&self, f: &mut fmt::Formatter<W>) -> fmt::Result {
        self.write_to(f)
    }
}

impl Value {
    /// Whether the printed text is exactly this.
    pub fn eq_str(&self, other: &str) -> bool
        ensures { IsTrue result ↔ (join self.now ≡ other.now) }
    {
        match self.as_subtags_slice() {
            [subtag] => subtag.as_str() == other,
            subtags => are_joined(subtags, other.as_bytes()),
        }
    }
}

// Whether the bytes are these subtags, with a hyphen between each two.
fn are_joined(subtags: &[Subtag], bytes: &[u8]) -> bool
    ensures { IsTrue result ↔ (join subtags.now ≡ bytes.now) }
{
    let Some((subtag, others)) = subtags.split_first() else {
        return bytes.is_empty();
    };
    match after_subtag(bytes, subtag) {
        Some(rest) => are_dashed(others, rest),
        None => false,
    }
}

// What follows the subtag in bytes that begin with it.
fn after_subtag<'a>(bytes: &'a [u8], subtag: &Subtag) -> Option<&'a [u8]>
    ensures some { IfSome result (λ rest. bytes.now ≡ subtag.now ++ rest.now) }
    ensures none { IsNone result → (rest : Text) → bytes.now ≢ subtag.now ++ rest }
{
    let piece = subtag.to_piece();
    let (front, rest) = bytes.split_at_checked(piece.len())?;
    if ShortPiece::of(front)? == piece {
        Some(rest)
    } else {
        None
    }
}

// Whether the bytes are these subtags, each after a hyphen.
fn are_dashed(subtags: &[Subtag], bytes: &[u8]) -> bool
    ensures { IsTrue result ↔ (dashes subtags.now ≡ bytes.now) }
{
    let Some((subtag, others)) = subtags.split_first() else {
        return bytes.is_empty();
    };
    let Some((b'-', after)) = bytes.split_first() else {
        return false;
    };
    match after_subtag(after, subtag) {
        Some(rest) => are_dashed(others, rest),
        None => false,
    }
}
