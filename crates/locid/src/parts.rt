//! The parts of a normal text, cut at its hyphens.

ghost use Rattle.std.specs.Prelude.{◌≤◌, length};

use std::str;

/// The parts of a locale, each as its normal text has it. What there is not is empty.
#[derive(Clone, Copy)]
pub struct Parts<'a> {
    pub language: &'a [u8],
    pub script: &'a [u8],
    pub region: &'a [u8],
    /// Variants, with hyphens between them.
    pub variants: &'a [u8],
    pub keywords: &'a [u8],
    /// All extensions, from the first singleton on.
    pub extensions: &'a [u8],
}

/// A part as text: it is ASCII.
pub fn text_of(part: &[u8]) -> &str {
    str::from_utf8(part).unwrap_or("")
}

/// The first piece, and what follows its hyphen.
pub fn cut_piece(text: &[u8]) -> (&[u8], &[u8])
    ensures { length result.0.now ≤ length text.now }
{
    for at in 0..text.len() {
        if text[at] == b'-' {
            return (&text[..at], &text[at + 1..]);
        }
    }
    (text, &[])
}

/// The parts of a normal text. A script has four bytes and begins with a capital, a region has two letters or three digits;
/// up to the first singleton all else are variants (UTS #35, part 1, section 3.1).
pub fn cut(text: &[u8]) -> Parts<'_> {
    let (language, mut rest) = cut_piece(text);
    let mut script: &[u8] = &[];
    let mut region: &[u8] = &[];
    let (piece, later) = cut_piece(rest);
    if matches!(piece, [b'A'..=b'Z', _, _, _]) {
        script = piece;
        rest = later;
    }
    let (piece, later) = cut_piece(rest);
    if matches!(piece.len(), 2 | 3) {
        region = piece;
        rest = later;
    }
    let (variants, extensions) = cut_before(rest, 1);
    Parts {
        language,
        script,
        region,
        variants,
        keywords: keywords_in(extensions),
        extensions,
    }
}

// Whether a piece of so many bytes begins at that place.
fn is_piece(text: &[u8], at: usize, count: usize) -> bool
    requires { at ≤ length text.now }
{
    let (before, rest) = text.split_at(at);
    let (piece, _) = cut_piece(rest);
    piece.len() == count && matches!(before, [] | [.., b'-'])
}

// What stands before the first piece of so many bytes, and what begins with it.
fn cut_before(text: &[u8], count: usize) -> (&[u8], &[u8]) {
    for at in 0..text.len() {
        if is_piece(text, at, count) {
            return (&text[..at.saturating_sub(1)], &text[at..]);
        }
    }
    (text, &[])
}

/// The first member, its key and its value, and the members behind. The keys of extensions are singletons, of one byte,
/// where `x` takes all the rest; those of keywords have two.
pub fn cut_member(members: &[u8], count: usize) -> (&[u8], &[u8], &[u8]) {
    let (key, rest) = cut_piece(members);
    if matches!(key, [b'x']) {
        return (key, rest, &[]);
    }
    let (value, later) = cut_before(rest, count);
    (key, value, later)
}

// The keywords of the unicode extension, behind its attributes.
fn keywords_in(extensions: &[u8]) -> &[u8] {
    let mut rest = extensions;
    for _ in 0..extensions.len() {
        let (singleton, block, later) = cut_member(rest, 1);
        if matches!(singleton, [b'u']) {
            return cut_before(block, 2).1;
        }
        rest = later;
    }
    &[]
}
