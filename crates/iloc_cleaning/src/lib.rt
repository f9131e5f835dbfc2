//! Cleans lines: makes the name of a locale, as files and systems write it, the text that UTS #35 writes.
//!
//! `specs/Cleaning.antt` defines what is left of a line, case by case, and `clean_line` adds exactly that:
//!
//! | In the line | What becomes of it | Example |
//! |---|---|---|
//! | a byte order mark (`EF BB BF`) at the very start of the input | left out by `without_mark` | |
//! | one CR at the end of the line; then spaces and tabs at both ends | left out | ` en-US ` is `en-US` |
//! | `_` before a codeset and a modifier | a hyphen | `en_US` is `en-US` |
//! | a codeset: from the first `.` on, up to `@` or to the end | left out | `de_DE.UTF-8` is `de-DE` |
//! | `@euro` at the end, which names a currency | left out | `de_DE@euro` is `de-DE` |
//! | `@latin`, `@cyrillic`, `@devanagari` at the end | `Latn`, `Cyrl`, `Deva` behind the language | `sr_RS@latin` is `sr-Latn-RS` |
//! | `@valencia`, `@saaho` at the end | a variant, at the end | `ca_ES@valencia` is `ca-ES-valencia` |
//! | any other modifier: from the first `@` on | stays, so the library refuses the line there | `de_DE@foo` is `de-DE@foo` |
//! | any other byte | stays: blanks within the line, another CR, part of a byte order mark | `en US` stays |
//!
//! The modifiers are those of glibc's locales, in lower case. Of these `@abegede` (a sort order) and `@iqtelif` (an alphabet)
//! stay, since no subtag says what they say. `C` and `POSIX` stay too.
//!
//! A fault in a cleaned line is found in the cleaned text: its place counts the bytes of that, not of the line.
//!
//! No line becomes longer (law `never_longer`). It promises nothing of what the library then answers, and stands on the grammar's word
//! for a text.
#![tactic(auto)]

ghost use Rattle.std.specs.Prelude.{◌≡◌, ◌<◌, ◌≤◌, ◌++◌, MatchOption, OnOk, OnErr, length, take};
ghost use Rattle.iloc_cleaning.specs.Cleaning.{without_mark, clean};

mod copying;
pub mod laws;
mod margins;
mod modifier;
mod names;

use std::alloc::AllocError;

/// The input without a byte order mark at its start. Part of a mark stays.
///
/// ```text
/// EF BB BF 65 6E: 65 6E
/// EF BB 65 6E: EF BB 65 6E
/// ```
pub fn without_mark(text: &[u8]) -> &[u8]
    ensures { result.now ≡ without_mark text.now }
{
    match text.strip_prefix(b"\xEF\xBB\xBF") {
        Some(rest) => rest,
        None => text,
    }
}

/// Adds what cleaning leaves of a line, without its newline: no more bytes than the line has.
///
/// ```text
/// en_US.UTF-8: en-US
/// sr_RS@latin: sr-Latn-RS
/// de_DE@phonebook: de-DE@phonebook
/// ```
///
/// # Errors
///
/// `AllocError` if an allocation fails. Then nothing is added.
pub fn clean_line(line: &[u8], cleaned: &mut Vec<u8>) -> Result<(), AllocError>
    ensures ok { OnOk result (cleaned.new.items ≡ cleaned.old.items ++ clean line.now) }
    ensures err { OnErr result (cleaned.new.items ≡ cleaned.old.items) }
{
    let before = cleaned.len();
    let name = margins::without_blanks(margins::without_return(line));
    let added = names::add_name(name, cleaned);
    if added.is_err() {
        cleaned.truncate(before);
    }
    added
}

/// Writes what cleaning leaves of a line, without its newline, to the front of a room, and gives how many bytes that is; `None`
/// if it does not fit. Behind them the room may have changed.
///
/// It allocates nothing, and is otherwise `clean_line`. A room as long as the line is enough (law `never_longer`).
///
/// ```text
/// clean_into(b"en_US.UTF-8", &mut room): Some(5), and en-US at the front of the room
/// ```
pub fn clean_into(line: &[u8], room: &mut [u8]) -> Option<usize>
    ensures { MatchOption result (length room.old < length (clean line.now))
        (λ end. (end ≤ length room.new) × (take end room.new ≡ clean line.now)) }
{
    copying::copy_name(margins::without_blanks(margins::without_return(line)), room)
}
