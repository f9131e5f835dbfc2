//! Tells whether a text is a plain identifier.
ghost use Rattle.std.specs.Prelude.{◌≤◌, IfSome, length, take};
ghost use Rattle.iloc_pieces.specs.Plain.{IsPlain};

use crate::lanes::hyphens_in;
use crate::load::load;
use crate::marked::{first_place, is_language_length};
use crate::plain::Plain;
use crate::tail::Tail;
use std::simd::prelude::*;

/// The plain identifier that the first `len` bytes are. `None` says nothing of them. The bytes after
/// them are loaded too, and change nothing.
#[inline(always)]
pub fn read_plain(window: &[u8], len: usize) -> Option<Plain>
    requires wide { 16 ≤ length window.now }
    requires few { len ≤ 16 }
    ensures { IfSome result (IsPlain (take len window.now)) }
{
    read_lanes(u8x16::from_slice(window), len)
}

/// The plain identifier that the first of these loaded bytes are. `None` says nothing of them.
#[inline(always)]
pub fn read_lanes(v: u8x16, len: usize) -> Option<Plain>
    requires { len ≤ 16 }
    ensures { IfSome result (IsPlain (take len v)) }
{
    let language = first_place(hyphens_in(v), len);
    if !is_language_length(language) {
        return None;
    }
    let tail = Tail::of(len - language);
    let above = tail.above_least(v, language);
    if !tail.allows(above, language) {
        return None;
    }
    Some(Plain {
        bytes: tail.in_normal(above, language),
        len,
        language,
        has_script: tail.has_script,
        region: tail.region,
    })
}

/// The plain identifier that a whole text is. `None` says nothing of it.
#[inline(always)]
pub fn read_plain_text(text: &[u8]) -> Option<Plain>
    ensures { IfSome result (IsPlain text.now) }
{
    if text.len() > 16 {
        return None;
    }
    read_lanes(load(text), text.len())
}
