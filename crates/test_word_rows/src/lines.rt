//! Lines answered without building a value. The contracts of `iloc_pieces` let a parser say nothing, so a shape that
//! silently went the old way would show nowhere else.
//!
//! `line-plain TEXT` says the normal text. In the two others the second argument says how many bytes of the first are the
//! line: `line-window` says the normal text, `line-block` the first block by the first piece of one byte. A line of which
//! nothing is said is `not told`.
ghost use Rattle.iloc_pieces.specs.Plain.{AreWords};

use iloc_pieces::{Plain, Window, find_block, read_plain, read_plain_text};
use test_page::argument::number_of;
use test_page::{bytes, number, say};

// Says the normal text.
fn normal(plain: &Plain, out: &mut String)
    requires { AreWords plain.now }
{
    let mut room = [0u8; 16];
    plain.store(&mut room);
    bytes(out, room.get(..plain.len).unwrap_or(b""))
}

// Says the normal text of the whole text.
fn plain(text: &[u8], out: &mut String) {
    match read_plain_text(text) {
        Some(plain) => normal(&plain, out),
        None => say(out, "not told"),
    }
}

// Says the normal text of the first bytes.
fn window(text: &[u8], len: usize, out: &mut String) {
    if text.len() < 16 || len > 16 {
        return say(out, "not told");
    }
    match read_plain(text, len) {
        Some(plain) => normal(&plain, out),
        None => say(out, "not told"),
    }
}

// Says the block's first byte, and how many bytes the line has from there on.
fn block(block: Window<'_>, out: &mut String) {
    say(out, "block ");
    bytes(out, block.bytes.get(..1).unwrap_or(b""));
    say(out, " ");
    number(out, block.len());
}

// Says the first block by the first piece of one byte, if sixteen bytes follow the line at least.
fn first_block(window: &[u8], len: usize, out: &mut String) {
    if window.len() < 16 || len > window.len() - 16 {
        return say(out, "not told");
    }
    match find_block(Window {
        bytes: &window[..len + 16],
    }) {
        Some(found) => block(found, out),
        None => say(out, "not told"),
    }
}

/// The answer to a call.
pub fn answer(what: &str, text: &[u8], len: &[u8], out: &mut String) {
    match what {
        "plain" => plain(text, out),
        "window" => window(text, number_of(len), out),
        "block" => first_block(text, number_of(len), out),
        _ => say(out, "no call"),
    }
}
