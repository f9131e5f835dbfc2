//! Tells whether a plain text is its normal text already.
ghost use Rattle.std.specs.Prelude.{◌≡◌, ◌↔◌, ◌≤◌, IfSome, IsTrue, take};
ghost use Rattle.iloc_pieces.specs.Normal.{IsPlainText};

use crate::plain::Plain;
use crate::read::read_lanes;
use std::simd::prelude::*;

/// A plain identifier, and what the text was that it was read from.
#[derive(Drop)]
pub struct PlainText {
    /// The identifier.
    pub plain: Plain,
    /// Whether the text is the normal text.
    pub is_normal: bool,
}

/// The plain identifier that the first `len` bytes are, and whether they are its normal text already.
/// `None` says nothing of them.
#[inline(always)]
pub fn normal_plain(v: u8x16, len: usize) -> Option<PlainText>
    requires { len ≤ 16 }
    ensures { IfSome result (IsPlainText (take len v)) }
{
    let plain = read_lanes(v, len)?;
    let is_normal = are_same(v, plain.bytes, plain.len);
    Some(PlainText { plain, is_normal })
}

/// Whether the first bytes of both are the same.
#[inline(always)]
pub fn are_same(v: u8x16, w: u8x16, len: usize) -> bool
    requires { len ≤ 16 }
    ensures { IsTrue result ↔ (take len v ≡ take len w) }
{
    v.simd_ne(w).to_bitmask() & ((1u64 << len) - 1) == 0
}
