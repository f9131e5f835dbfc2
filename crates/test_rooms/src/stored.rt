//! Stored languages, and lists of scripts, which ask for room for what they become.

use crate::memory::{UpTo, up_to};
use iloc_json::{CarryError, carry_v1_in};
use iloc_keyword_types::{
    CalendarAlgorithm, DictionaryBreakScriptExclusions, PreferenceKey, PreferencesParseError,
    known_keys,
};
use iloc_word_list::Value;
use std::test::Fail;

// How many bytes the new row has.
fn carried(memory: UpTo, row: &[u8]) -> Result<usize, CarryError> {
    Ok(carry_v1_in(memory, row)?.len())
}

// How many scripts a value names, and how many subtags the value of these has.
fn scripts(read: UpTo, given: UpTo, text: &str) -> Result<(usize, usize), PreferencesParseError> {
    let Ok(value) = Value::try_from_str(read.heap, text) else {
        return Err(PreferencesParseError::InvalidKeywordValue);
    };
    let exclusions = DictionaryBreakScriptExclusions::try_from_value_in(read, &value)?;
    let again = exclusions.to_value_in(given)?;
    Ok((exclusions.as_inner().len(), again.subtag_count()))
}

#[test]
fn a_new_row_asks_for_room_for_its_bytes(rt: HostRuntime) -> Result<(), Fail> {
    let heap = rt.alloc();
    let row = b"en\0und";
    assert_eq!(rt; carried(up_to(15, heap), row), Err(CarryError::OutOfMemory));
    assert_eq!(rt; carried(up_to(16, heap), row), Ok(16));
    assert_eq!(rt; carried(up_to(0, heap), b"EN\0"), Err(CarryError::Word(0)));
    Ok(())
}

#[test]
fn scripts_ask_for_room_past_the_fourth(rt: HostRuntime) -> Result<(), Fail> {
    let (heap, refused) = (rt.alloc(), Err(PreferencesParseError::OutOfMemory));
    let (four, five) = (up_to(4, heap), up_to(5, heap));
    let text = "hani-hira-kana-latn-cyrl";
    assert_eq!(rt;
        scripts(up_to(0, heap), four, "hani-hira-kana-latn"),
        Ok((4, 4))
    );
    assert_eq!(rt; scripts(four, five, text), refused);
    assert_eq!(rt; scripts(five, four, text), refused);
    assert_eq!(rt; scripts(five, five, text), Ok((5, 5)));
    Ok(())
}

// How many subtags the value of a keyword has that is read under its key, in the room `read`, and given in the room `given`.
fn keyed<P: PreferenceKey + Drop>(
    read: UpTo,
    given: UpTo,
    text: &str,
) -> Result<Option<usize>, PreferencesParseError> {
    let Some(key) = P::unicode_extension_key() else {
        return Ok(None);
    };
    let Ok(value) = Value::try_from_str(read.heap, text) else {
        return Err(PreferencesParseError::InvalidKeywordValue);
    };
    let Some(keyword) = P::try_from_key_value_in(read, &key, &value)? else {
        return Ok(None);
    };
    let Some(again) = keyword.unicode_extension_value_in(given)? else {
        return Ok(None);
    };
    Ok(Some(again.subtag_count()))
}

#[test]
fn scripts_under_their_key_ask_for_room_past_the_fourth(rt: HostRuntime) -> Result<(), Fail> {
    let (heap, refused) = (rt.alloc(), Err(PreferencesParseError::OutOfMemory));
    let (four, five) = (up_to(4, heap), up_to(5, heap));
    let text = "hani-hira-kana-latn-cyrl";
    type Scripts = DictionaryBreakScriptExclusions;
    assert_eq!(rt; keyed::<Scripts>(four, five, text), refused);
    assert_eq!(rt; keyed::<Scripts>(five, four, text), refused);
    assert_eq!(rt; keyed::<Scripts>(five, five, text), Ok(Some(5)));
    Ok(())
}

#[test]
fn a_calendar_under_its_key_asks_for_no_room(rt: HostRuntime) -> Result<(), Fail> {
    let none = up_to(0, rt.alloc());
    assert_eq!(rt;
        keyed::<CalendarAlgorithm>(none, none, "islamic-civil"),
        Ok(Some(2))
    );
    assert_eq!(rt;
        DictionaryBreakScriptExclusions::try_from_key_value_in(
            none,
            &known_keys::ca(),
            &Value::new_empty(),
        ),
        Ok(None)
    );
    Ok(())
}
