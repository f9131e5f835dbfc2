//! Copies what is made of names into a room, without memory.
ghost use Rattle.std.specs.Prelude.{◌≡◌, ◌+◌, ◌<◌, ◌≤◌, ◌∷◌, [], ◌++◌, MatchOption, length, take};
ghost use Rattle.iloc_cleaning.specs.Cleaning.{hyphens, with_modifier, clean_name};

use crate::modifier::{Modifier, read_modifier};
use crate::names::{base_len, language_len, modifier_start};

// Copies bytes behind the first `count` of the room, and gives how many there are then; `None` if they do not fit.
fn copy(bytes: &[u8], room: &mut [u8], count: usize) -> Option<usize>
    requires { count ≤ length room.old }
    ensures { MatchOption result (length room.old < count + length bytes.now)
        (λ end. (end ≡ count + length bytes.now) × (end ≤ length room.new)
        × (take end room.new ≡ take count room.old ++ bytes.now)) }
{
    if room.len() - count < bytes.len() {
        return None;
    }
    let end = count + bytes.len();
    room[count..end].copy_from_slice(bytes);
    Some(end)
}

// Writes the text over as many bytes, with a hyphen for each underscore.
#[tactic(auto, using(std::proofs::lemmas::List::take_all))]
fn write_hyphens(text: &[u8], room: &mut [u8])
    requires { length text.now ≡ length room.old }
    ensures { room.new ≡ hyphens text.now }
{
    for (place, byte) in text.iter().enumerate() {
        room[place] = if *byte == b'_' { b'-' } else { *byte };
    }
}

// Copies a text so behind the first `count` bytes of the room, as `copy` does.
fn copy_hyphens(text: &[u8], room: &mut [u8], count: usize) -> Option<usize>
    requires { count ≤ length room.old }
    ensures { MatchOption result (length room.old < count + length text.now)
        (λ end. (end ≡ count + length text.now) × (end ≤ length room.new)
        × (take end room.new ≡ take count room.old ++ hyphens text.now)) }
{
    if room.len() - count < text.len() {
        return None;
    }
    let end = count + text.len();
    write_hyphens(text, &mut room[count..end]);
    Some(end)
}

// Copies language and territory with a script behind the language.
fn copy_with_script(base: &[u8], script: [u8; 5], room: &mut [u8]) -> Option<usize>
    ensures { MatchOption result
        (length room.old < length (with_modifier base.now [] (Modifier.Script script)))
        (λ end. (end ≤ length room.new)
        × (take end room.new ≡ with_modifier base.now [] (Modifier.Script script))) }
{
    let (language, rest) = base.split_at(language_len(base));
    let first = copy_hyphens(language, room, 0)?;
    let second = copy(&script, room, first)?;
    copy_hyphens(rest, room, second)
}

/// Copies what is made of a name to the front of the room, and gives how many bytes that is; `None` if it does not fit.
pub(crate) fn copy_name(name: &[u8], room: &mut [u8]) -> Option<usize>
    ensures { MatchOption result (length room.old < length (clean_name name.now))
        (λ end. (end ≤ length room.new) × (take end room.new ≡ clean_name name.now)) }
{
    let (base, _) = name.split_at(base_len(name));
    let (_, modifier) = name.split_at(modifier_start(name));
    match read_modifier(modifier) {
        Modifier::Currency => copy_hyphens(base, room, 0),
        Modifier::Script(script) => copy_with_script(base, script, room),
        Modifier::Variant => {
            let first = copy_hyphens(base, room, 0)?;
            let second = copy(b"-".as_slice(), room, first)?;
            copy(&modifier[1..], room, second)
        }
        Modifier::Other => {
            let first = copy_hyphens(base, room, 0)?;
            copy(modifier, room, first)
        }
    }
}
