//! Copies of bytes. Few are copied in place, without a call.
ghost use Rattle.std.specs.Prelude.{◌≡◌, ◌+◌, ◌<◌, ◌≤◌, length, take};
ghost use Rattle.iloc_spec_grammar.specs.Syntax.{lower};

use iloc_pieces::first_in_lower_case;
use std::simd::prelude::*;

/// Copies the first and the last `W` bytes, which together are all of them. All are loaded before any is stored.
#[inline(always)]
pub fn copy_ends<const W: usize>(from: &[u8], to: &mut [u8])
    requires same { length to.old ≡ length from.now }
    requires wide { W ≤ length from.now }
    requires few { length from.now ≤ W + W }
    ensures { to.new ≡ from.now }
{
    let last = from.len() - W;
    let mut front = [0u8; W];
    let mut back = [0u8; W];
    front.copy_from_slice(&from[..W]);
    back.copy_from_slice(&from[last..]);
    to[..W].copy_from_slice(&front);
    to[last..].copy_from_slice(&back);
}

/// Copies the first and the last sixteen bytes, which together are all of them.
#[inline(always)]
pub(crate) fn copy_sixteens(from: &[u8], to: &mut [u8])
    requires same { length to.old ≡ length from.now }
    requires wide { 16 ≤ length from.now }
    requires few { length from.now ≤ 32 }
    ensures { to.new ≡ from.now }
{
    let last = from.len() - 16;
    let front = u8x16::from_slice(from);
    let back = u8x16::from_slice(&from[last..]);
    front.copy_to_slice(to);
    back.copy_to_slice(&mut to[last..]);
}

/// Copies all bytes.
#[inline(always)]
pub fn copy_all(from: &[u8], to: &mut [u8])
    requires { length to.old ≡ length from.now }
    ensures { to.new ≡ from.now }
{
    let len = from.len();
    if len < 8 {
        return copy_few(from, to);
    }
    if len <= 16 {
        return copy_ends::<8>(from, to);
    }
    if len <= 32 {
        return copy_sixteens(from, to);
    }
    to.copy_from_slice(from);
}

// Copies fewer than eight bytes.
#[inline(always)]
fn copy_few(from: &[u8], to: &mut [u8])
    requires same { length to.old ≡ length from.now }
    requires few { length from.now < 8 }
    ensures { to.new ≡ from.now }
{
    let len = from.len();
    if len >= 4 {
        return copy_ends::<4>(from, to);
    }
    if len >= 2 {
        return copy_ends::<2>(from, to);
    }
    if len == 1 {
        to[0] = from[0];
    }
}

/// Copies the first `count` bytes, in lower case. The bytes after them are loaded too, and change nothing.
pub fn copy_lower(from: &[u8], count: usize, to: &mut [u8])
    requires bytes { count + 16 ≤ length from.now }
    requires room { length to.old ≡ count }
    ensures { to.new ≡ lower (take count from.now) }
{
    let mut at = 0;
    'parts: while count - at > 16 {
        let part = first_in_lower_case(&from[at..]);
        copy_all(part.as_array(), &mut to[at..at + 16]);
        at += 16;
    }
    let part = first_in_lower_case(&from[at..]);
    copy_all(&part.as_array()[..count - at], &mut to[at..count]);
}
