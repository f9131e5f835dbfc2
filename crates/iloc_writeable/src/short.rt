//! Short pieces, written at once.
ghost use Rattle.std.specs.Prelude.{◌≡◌, ◌+◌, ◌-◌, ◌<◌, ◌≤◌, ◌%◌, [], ◌∷◌, map, take, vec_len, vec_capacity, All};
ghost use Rattle.std.specs.String.{string_len, string_capacity};
ghost use Rattle.iloc_writeable.specs.Pieces.{hyphened};
ghost use Rattle.iloc_writeable.specs.StringSink.{Appended};
ghost use Rattle.iloc_writeable.specs.VecSink.{Extended};

use std::alloc::Allocator;

// A hyphen, and the bytes.
#[inline(always)]
pub(crate) fn after_hyphen(padded: &[u8; 8]) -> [u8; 9]
    ensures { result ≡ 45 ∷ padded.now }
{
    let mut all = [b'-'; 9];
    all[1..].copy_from_slice(padded);
    all
}

// The piece that the bytes after the hyphen begin with, after the hyphen if it doesn't stand first.
#[inline(always)]
pub(crate) fn hyphened_text<'a>(
    all: &'a [u8; 9],
    padded: &[u8; 8],
    len: usize,
    first: bool,
) -> &'a str
    requires few { len ≤ 8 }
    requires ascii { All (λ b. b < 128) (take len padded.now) }
    requires all { all.now ≡ 45 ∷ padded.now }
    ensures { result.now ≡ hyphened first (take len padded.now ∷ []) }
{
    let end = 1 + len;
    if first {
        return unsafe { str::from_utf8_unchecked(&all[1..end]) };
    }
    unsafe { str::from_utf8_unchecked(&all[..end]) }
}

// Appends the first of these bytes, if there is room for all of them.
#[inline(always)]
pub(crate) fn append_front<const M: usize>(bytes: &mut Vec<u8>, all: &[u8; M], count: usize)
    requires room { vec_len bytes.old + M ≤ vec_capacity bytes.old }
    requires within { count ≤ M }
    ensures { Extended bytes.old (take count all.now) bytes.new }
{
    let before = bytes.len();
    match bytes.extend_from_slice(all) {
        Ok(()) => bytes.truncate(before + count),
        Err(_) => unreachable!(),
    }
}

// The bytes without their highest bits, so that all are ASCII.
#[inline(always)]
pub(crate) fn low_bytes(bytes: &[u8; 8]) -> [u8; 8]
    ensures { result ≡ map (λ b. b % 128) bytes.now }
{
    let [a, b, c, d, e, f, g, h] = *bytes;
    [
        a % 128,
        b % 128,
        c % 128,
        d % 128,
        e % 128,
        f % 128,
        g % 128,
        h % 128,
    ]
}

// Appends the first of these bytes, which are ASCII, if there is room for all of them.
#[inline(always)]
pub(crate) fn push_front<A: Allocator, const M: usize>(
    text: &mut String<A>,
    all: &[u8; M],
    count: usize,
)
    requires room { string_len text.old + M ≤ string_capacity text.old }
    requires within { count ≤ M }
    requires ascii { All (λ b. b < 128) all.now }
    ensures { Appended text.old (take count all.now) text.new }
{
    let before = text.as_bytes().len();
    match text.push_str(unsafe { str::from_utf8_unchecked(all) }) {
        Ok(()) => text.truncate(before + count),
        Err(_) => unreachable!(),
    }
}
