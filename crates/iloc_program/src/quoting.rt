//! Numbers, and texts as they are shown.
ghost use Rattle.std.specs.Prelude.{◌≡◌, ◌+◌, ◌-◌, ◌<◌, ◌≤◌, [], ◌∷◌, ◌++◌, true, false, length, take, map, OnOk, OnErr};
ghost use Rattle.std.specs.Fmt.{decimal, digit_glyph};
ghost use Rattle.std.specs.Int.{w64, to_le_bytes};
ghost use Rattle.std.specs.Simd.Lanes.{mask_l};
ghost use Rattle.iloc_program.specs.ReplyBlock.{held, WasRefused};
ghost use Rattle.iloc_program.specs.Listing.{is_escaped, range_column, shown, shown_byte};

use crate::ReplyBlock;
use iloc_memory::Memory;
use itoa::Buffer;
use std::alloc::AllocError;
use std::simd::prelude::*;

/// Adds a number in decimal digits.
#[inline(always)]
pub fn write_decimal<M: Memory>(number: u64, replies: &mut ReplyBlock<M>) -> Result<(), AllocError>
    ensures ok { OnOk result (held replies.new ≡ held replies.old ++ decimal number) }
    ensures out_of_memory { OnErr result (WasRefused M.refused) }
{
    if number < 10 {
        let digit = unit(number);
        return replies.push(digit);
    }
    if number < 100 {
        let tens = unit(number / 10);
        let units = unit(number % 10);
        return replies.push_first([tens, units], 2);
    }
    write_long_decimal(number, replies)
}

// Adds a number in decimal digits, of which there may be many.
#[inline(never)]
fn write_long_decimal<M: Memory>(number: u64, replies: &mut ReplyBlock<M>) -> Result<(), AllocError>
    ensures ok { OnOk result (held replies.new ≡ held replies.old ++ decimal number) }
    ensures out_of_memory { OnErr result (WasRefused M.refused) }
{
    let mut digits = Buffer::new();
    replies.extend_from_slice(digits.format(number).as_bytes())
}

// The digit of a number below ten.
#[inline(always)]
fn unit(number: u64) -> u8
    requires { number < 10 }
    ensures { result ≡ 48 + number }
{
    b'0' + number as u8
}

/// A tab, a range within the first hundred bytes as `3..6`, and a tab, as one number; and how many bytes these are.
#[inline(always)]
pub(crate) fn short_range(from: u64, to: u64) -> (u64, usize)
    requires ordered { from ≤ to }
    requires short { to < 100 }
    ensures within { result.1 ≤ 8 }
    ensures text { take result.1 (to_le_bytes w64 result.0) ≡ range_column from to }
{
    if to < 10 {
        let column = [b'\t', unit(from), b'.', b'.', unit(to), b'\t', 0, 0];
        return (u64::from_le_bytes(column), 6);
    }
    let (tens, units) = (unit(to / 10), unit(to % 10));
    if from < 10 {
        let column = [b'\t', unit(from), b'.', b'.', tens, units, b'\t', 0];
        return (u64::from_le_bytes(column), 7);
    }
    let (first, second) = (unit(from / 10), unit(from % 10));
    let column = [b'\t', first, second, b'.', b'.', tens, units, b'\t'];
    (u64::from_le_bytes(column), 8)
}

/// Adds a tab, any range, and a tab.
pub(crate) fn write_range<M: Memory>(
    from: u64,
    to: u64,
    replies: &mut ReplyBlock<M>,
) -> Result<(), AllocError>
    ensures ok { OnOk result (held replies.new ≡ held replies.old ++ range_column from to) }
    ensures out_of_memory { OnErr result (WasRefused M.refused) }
{
    replies.push(b'\t')?;
    write_decimal(from, replies)?;
    replies.extend_from_slice(b"..")?;
    write_decimal(to, replies)?;
    replies.push(b'\t')
}

/// A bit for each of sixteen bytes that is not shown as itself.
#[inline(always)]
pub(crate) fn escaped_in(lanes: u8x16) -> u64
    ensures { result ≡ mask_l (map is_escaped lanes) }
{
    let unprinted = (lanes - u8x16::splat(32)).simd_ge(u8x16::splat(95));
    let backslashes = lanes.simd_eq(u8x16::splat(92));
    (unprinted | backslashes).to_bitmask()
}

/// Adds a text as it is shown: printable ASCII as itself, a tab as `\t`, a backslash as `\\`, other bytes as `\x` and two digits.
#[inline(never)]
#[tactic(auto, using(crate::proofs::ShownLemmas::shown_front))]
pub fn write_shown<M: Memory>(text: &[u8], replies: &mut ReplyBlock<M>) -> Result<(), AllocError>
    ensures ok { OnOk result (held replies.new ≡ held replies.old ++ shown text.now) }
    ensures out_of_memory { OnErr result (WasRefused M.refused) }
{
    let (front, rest) = text.split_at(count_plain(text));
    replies.extend_from_slice(front)?;
    for byte in rest {
        write_shown_byte(*byte, replies)?;
    }
    Ok(())
}

// How many bytes come before one that is not shown as itself.
#[tactic(auto, using(crate::proofs::ShownLemmas::shown_more))]
fn count_plain(text: &[u8]) -> usize
    ensures within { result ≤ length text.now }
    ensures same { shown (take result text.now) ≡ take result text.now }
{
    for (at, byte) in text.iter().enumerate() {
        if !is_plain(*byte) {
            return at;
        }
    }
    text.len()
}

// Whether a byte is shown as itself.
#[inline(always)]
fn is_plain(byte: u8) -> bool
    ensures { result ≡ true → shown_byte byte ≡ byte ∷ [] }
{
    matches!(byte, b' '..=b'[' | b']'..=b'~')
}

// Adds a byte as it is shown.
fn write_shown_byte<M: Memory>(byte: u8, replies: &mut ReplyBlock<M>) -> Result<(), AllocError>
    ensures ok { OnOk result (held replies.new ≡ held replies.old ++ shown_byte byte) }
    ensures out_of_memory { OnErr result (WasRefused M.refused) }
{
    match byte {
        b'\t' => replies.extend_from_slice(b"\\t"),
        b'\\' => replies.extend_from_slice(b"\\\\"),
        b' '..=b'~' => replies.push(byte),
        _ => replies.extend_from_slice(&[b'\\', b'x', digit(byte / 16), digit(byte % 16)]),
    }
}

// The digit of a number below sixteen.
fn digit(number: u8) -> u8
    requires { number < 16 }
    ensures { result ≡ digit_glyph false number }
{
    if number < 10 {
        b'0' + number
    } else {
        b'a' + (number - 10)
    }
}
