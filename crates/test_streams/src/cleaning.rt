//! Lines that are cleaned. What is expected follows the table at the head of `iloc_cleaning`.
use iloc_cleaning::{clean_into, clean_line, without_mark};
use std::alloc::{AllocError, Global};
use std::test::Fail;

// Lines, and what they are cleaned to.
const LINES: [(&str, &str); 7] = [
    ("en_US.UTF-8", "en-US"),
    ("  de_DE@euro \r", "de-DE"),
    ("sr_RS@latin", "sr-Latn-RS"),
    ("ca_ES.UTF-8@valencia", "ca-ES-valencia"),
    ("de_DE@phonebook", "de-DE@phonebook"),
    ("C.UTF-8", "C"),
    ("en US", "en US"),
];

// The first line that is cleaned otherwise, if what it is cleaned to is put behind other bytes.
fn first_wrong(alloc: Global) -> Result<Option<&'static str>, AllocError> {
    for (line, wanted) in LINES {
        let mut cleaned = Vec::new(alloc);
        cleaned.push(b'>')?;
        clean_line(line.as_bytes(), &mut cleaned)?;
        if cleaned.first() != Some(&b'>') || &cleaned.as_slice()[1..] != wanted.as_bytes() {
            return Ok(Some(line));
        }
    }
    Ok(None)
}

#[test]
fn cleaning(rt: HostRuntime) -> Result<(), Fail> {
    assert_eq!(rt; first_wrong(rt.alloc())?, None);
    Ok(())
}

#[test]
fn a_mark_is_left_out(rt: HostRuntime) {
    assert_eq!(rt; without_mark(b"\xEF\xBB\xBFen"), b"en".as_slice());
    assert_eq!(rt; without_mark(b"\xEF\xBB\x9B"), b"\xEF\xBB\x9B".as_slice());
}

// Whether the line is cleaned to this, in a room of so many bytes.
fn is_cleaned_into(line: &[u8], room: usize, wanted: Option<&[u8]>) -> bool {
    let mut bytes = [b'.'; 10];
    let room = &mut bytes[..room.min(10)];
    match (clean_into(line, room), wanted) {
        (Some(count), Some(wanted)) => room.get(..count) == Some(wanted),
        (None, None) => true,
        _ => false,
    }
}

#[test]
fn cleaning_into_a_room(rt: HostRuntime) {
    assert!(rt; is_cleaned_into(b" sr_RS@latin", 10, Some(b"sr-Latn-RS".as_slice())));
    assert!(rt; is_cleaned_into(b"ca_ES@valencia", 10, None));
    assert!(rt; is_cleaned_into(b"de_DE@foo", 8, None));
    assert!(rt; is_cleaned_into(b"_@", 10, Some(b"-@".as_slice())));
}
