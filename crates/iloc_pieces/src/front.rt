//! Tells what stands at the front of a line.
ghost use Rattle.std.specs.Prelude.{◌≡◌, ◌+◌, ◌≤◌, IfSome, false, length, take};
ghost use Rattle.iloc_pieces.specs.Front.{IsFirst, IsFound, HasNoLanguage};
ghost use Rattle.iloc_pieces.specs.Window.{text_in};

use crate::is_language_length;
use crate::run::{before_hyphen, before_singles};
use crate::window::Window;
use crate::words::is_language;
use std::simd::prelude::*;

/// The length of the first piece; sixteen if it is longer.
#[inline(always)]
pub fn first_len(window: &[u8], len: usize) -> usize
    requires wide { 16 ≤ length window.now }
    requires inside { len ≤ length window.now }
    ensures { IsFirst (take len window.now) result }
{
    let n = before_hyphen(window);
    if n < len { n } else { len }
}

/// Whether the first piece is as long as a language may be. If not, no language comes first.
#[inline(always)]
pub fn may_begin(text: Window<'_>) -> bool
    ensures { result ≡ false → HasNoLanguage (text_in text.entry) }
{
    is_language_length(first_len(text.bytes, text.len()))
}

/// Whether the first `len` bytes begin with a language. If not, no language comes first.
#[inline(always)]
pub fn lanes_begin_with_language(v: u8x16, len: usize) -> bool
    requires { len ≤ 16 }
    ensures { result ≡ false → HasNoLanguage (take len v) }
{
    let window = v.as_array();
    is_language(window, first_len(window, len))
}

/// The text from its first block on, if it begins with a language, the singleton stands among the first fifteen bytes and a
/// hyphen follows. Nothing is claimed of the pieces between.
#[inline(always)]
pub fn find_block(text: Window<'_>) -> Option<Window<'_>>
    ensures { IfSome result (IsFound (text_in text.entry)) }
{
    let len = text.len();
    let n = first_len(text.bytes, len);
    if !is_language(text.bytes, n) {
        return None;
    }
    let marks = before_singles(text.bytes);
    if marks == 0 {
        return None;
    }
    let at = marks.trailing_zeros() as usize;
    if at + 2 >= len || text.bytes[at + 1] == b'-' {
        return None;
    }
    Some(Window {
        bytes: &text.bytes[at + 1..],
    })
}
