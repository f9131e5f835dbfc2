//! Texts that are compared with a locale by parsing them, which asks for room.

use crate::memory::{UpTo, up_to};
use iloc_locale::Locale;
use iloc_subtags::ParseError;
use std::test::Fail;

// Whether the locale of one text is meant by the other.
fn means(memory: UpTo, meant: &str, text: &str) -> Result<bool, ParseError> {
    let locale = Locale::try_from_str(memory.heap, meant)?;
    Ok(locale.normalizing_eq_in(memory, text)?)
}

#[test]
fn a_text_past_the_outline_is_parsed(rt: HostRuntime) -> Result<(), Fail> {
    let heap = rt.alloc();
    let text =
        "en-x-aaaaaaaa-bbbbbbbb-cccccccc-dddddddd-eeeeeeee-ffffffff-gggggggg-hhhhhhhh-iiiiiiii-jjjjjjjj-kkkkkkkk-llllllll-m";
    let turned =
        "EN-x-aaaaaaaa-bbbbbbbb-cccccccc-dddddddd-eeeeeeee-ffffffff-gggggggg-hhhhhhhh-iiiiiiii-jjjjjjjj-kkkkkkkk-llllllll-m";
    assert_eq!(rt; means(up_to(0, heap), text, text), Ok(true));
    assert_eq!(rt;
        means(up_to(12, heap), text, turned),
        Err(ParseError::OutOfMemory)
    );
    assert_eq!(rt; means(up_to(13, heap), text, turned), Ok(true));
    assert_eq!(rt; means(up_to(0, heap), text, "EN-x-m"), Ok(false));
    Ok(())
}
