//! The arguments of a row, and their short form for what repeats.
//!
//! `{KIND.FIRST.LAST.TEXT}` stands for items from FIRST to LAST, upwards or downwards, each a hyphen and a word of the
//! kind and then TEXT: `n` five digits, `u` the unicode keys `0a`, `0b` .. `zz`, `t` the transform keys `a0` .. `z9`,
//! `r` neither hyphen nor word. So `en-x{r.1.3000.-a}` is `en-x` and 3,000 times `-a`. A brace before anything else is as
//! it looks.
use crate::say;
use std::str;

const DIGITS: &[char] = &['0', '1', '2', '3', '4', '5', '6', '7', '8', '9'];

const LETTERS: &[char] = &[
    'a', 'b', 'c', 'd', 'e', 'f', 'g', 'h', 'i', 'j', 'k', 'l', 'm', 'n', 'o', 'p', 'q', 'r', 's',
    't', 'u', 'v', 'w', 'x', 'y', 'z',
];

// Puts in the character of that number.
fn put_char(room: &mut String, characters: &[char], number: usize) {
    if let Some(character) = characters.get(number) {
        let _ = room.push(*character);
    }
}

// Puts in a digit, or a letter from ten on.
fn put_any(room: &mut String, number: usize) {
    if number < 10 {
        put_char(room, DIGITS, number);
    } else {
        put_char(room, LETTERS, number.saturating_sub(10));
    }
}

// Puts in five digits.
fn put_number(room: &mut String, number: usize) {
    for unit in [10_000usize, 1_000, 100, 10, 1] {
        put_char(room, DIGITS, number / unit % 10);
    }
}

// Puts in the word of that number, after a hyphen.
fn put_word(room: &mut String, kind: &str, number: usize) {
    match kind {
        "n" => {
            say(room, "-");
            put_number(room, number)
        }
        "u" => {
            say(room, "-");
            put_any(room, number / 26);
            put_char(room, LETTERS, number % 26)
        }
        "t" => {
            say(room, "-");
            put_char(room, LETTERS, number / 10);
            put_char(room, DIGITS, number % 10)
        }
        _ => {}
    }
}

/// The number that the digits spell, or 0.
pub fn number_of(digits: &[u8]) -> usize {
    str::from_utf8(digits)
        .unwrap_or("")
        .parse::<usize>()
        .unwrap_or(0)
}

// Puts in all items.
fn put_items(room: &mut String, kind: &str, first: usize, last: usize, text: &str) {
    let steps = first.abs_diff(last);
    for step in 0..steps.saturating_add(1) {
        let number = if first <= last {
            first.saturating_add(step)
        } else {
            first.saturating_sub(step)
        };
        put_word(room, kind, number);
        say(room, text);
    }
}

// Puts in what the short form between braces stands for.
fn put_short(room: &mut String, form: &str) {
    let mut parts = form.split('.');
    let kind = parts.next().unwrap_or("");
    let first = parts.next().unwrap_or("");
    let last = parts.next().unwrap_or("");
    let text = parts.next().unwrap_or("");
    put_items(
        room,
        kind,
        number_of(first.as_bytes()),
        number_of(last.as_bytes()),
        text,
    )
}

// The short form that the text after a brace begins with, and what follows it.
fn short_form(text: &str) -> Option<(&str, &str)> {
    let (form, rest) = text.split_once('}')?;
    match form.split_once('.') {
        Some(("n" | "u" | "t" | "r", _)) => Some((form, rest)),
        _ => None,
    }
}

/// Puts into the room what the argument stands for, without its short forms.
pub fn expand(argument: &str, room: &mut String) {
    room.clear();
    let mut pieces = argument.split('{');
    say(room, pieces.next().unwrap_or(""));
    for piece in pieces {
        match short_form(piece) {
            Some((form, rest)) => {
                put_short(room, form);
                say(room, rest)
            }
            None => {
                say(room, "{");
                say(room, piece)
            }
        }
    }
}
