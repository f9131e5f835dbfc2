//! Names of locales, and what is made of them.
ghost use Rattle.std.specs.Prelude.{◌≡◌, ◌≤◌, [], ◌++◌, OnOk, OnErr, length, take, vec_len};
ghost use Rattle.std.specs.List.{position_or_len};
ghost use Rattle.iloc_cleaning.specs.Cleaning.{is_at, ends_base, is_separator, hyphens, with_modifier, clean_name};

use crate::modifier::{Modifier, read_modifier};
use std::alloc::AllocError;

// Adds what is made of a name.
pub(crate) fn add_name(name: &[u8], cleaned: &mut Vec<u8>) -> Result<(), AllocError>
    ensures ok { OnOk result (cleaned.new.items ≡ cleaned.old.items ++ clean_name name.now) }
    ensures err { OnErr result (take (vec_len cleaned.old) cleaned.new.items ≡ cleaned.old.items) }
{
    let (base, _) = name.split_at(base_len(name));
    let (_, modifier) = name.split_at(modifier_start(name));
    match read_modifier(modifier) {
        Modifier::Currency => add_hyphens(base, cleaned),
        Modifier::Script(script) => add_with_script(base, script, cleaned),
        Modifier::Variant => {
            add_hyphens(base, cleaned)?;
            cleaned.push(b'-')?;
            cleaned.extend_from_slice(&modifier[1..])
        }
        Modifier::Other => {
            add_hyphens(base, cleaned)?;
            cleaned.extend_from_slice(modifier)
        }
    }
}

// Adds language and territory with a script behind the language.
fn add_with_script(base: &[u8], script: [u8; 5], cleaned: &mut Vec<u8>) -> Result<(), AllocError>
    ensures ok { OnOk result (cleaned.new.items
        ≡ cleaned.old.items ++ with_modifier base.now [] (Modifier.Script script)) }
    ensures err { OnErr result (take (vec_len cleaned.old) cleaned.new.items ≡ cleaned.old.items) }
{
    let (language, rest) = base.split_at(language_len(base));
    add_hyphens(language, cleaned)?;
    cleaned.extend_from_slice(&script)?;
    add_hyphens(rest, cleaned)
}

// How long language and territory are.
pub(crate) fn base_len(name: &[u8]) -> usize
    ensures within { result ≤ length name.now }
    ensures first { result ≡ position_or_len ends_base name.now }
{
    let found = name.iter().position(|byte| *byte == b'.' || *byte == b'@');
    found.unwrap_or(name.len())
}

// Where the modifier begins, or how long the name is if it has none.
pub(crate) fn modifier_start(name: &[u8]) -> usize
    ensures within { result ≤ length name.now }
    ensures first { result ≡ position_or_len is_at name.now }
{
    let found = name.iter().position(|byte| *byte == b'@');
    found.unwrap_or(name.len())
}

// How long the language is.
pub(crate) fn language_len(base: &[u8]) -> usize
    ensures within { result ≤ length base.now }
    ensures first { result ≡ position_or_len is_separator base.now }
{
    let found = base.iter().position(|byte| *byte == b'_' || *byte == b'-');
    found.unwrap_or(base.len())
}

// Adds the text with a hyphen for each underscore.
fn add_hyphens(text: &[u8], cleaned: &mut Vec<u8>) -> Result<(), AllocError>
    ensures ok { OnOk result (cleaned.new.items ≡ cleaned.old.items ++ hyphens text.now) }
    ensures err { OnErr result (take (vec_len cleaned.old) cleaned.new.items ≡ cleaned.old.items) }
{
    for byte in text {
        cleaned.push(if *byte == b'_' { b'-' } else { *byte })?;
    }
    Ok(())
}
