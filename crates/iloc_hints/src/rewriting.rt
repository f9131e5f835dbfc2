//! Whether a text is accepted as it is rewritten.
ghost use Rattle.std.specs.Prelude.{◌≡◌, ◌↔◌, ◌≤◌, length, true, take};
ghost use Rattle.iloc_cleaning.specs.Cleaning.{hyphens};
ghost use Rattle.iloc_hints.specs.Hints.{IsAcceptedRewritten, Needs};

use crate::Hint;
use crate::signs::base;
use iloc_faults::fault_of;
use iloc_normalize::Mode;

// Writes the text into the front of the room, with a hyphen for each underscore.
fn write_hyphens(text: &[u8], room: &mut [u8; 64])
    requires { length text.now ≤ 64 }
    ensures { take (length text.now) room.new ≡ hyphens text.now }
{
    for (place, byte) in text.iter().enumerate() {
        room[place] = if *byte == b'_' { b'-' } else { *byte };
    }
}

// Whether the text without its codeset and modifier, and with hyphens for its underscores, is accepted, and has at most 64
// bytes.
fn is_accepted_rewritten(mode: Mode, text: &[u8]) -> bool
    ensures { (result ≡ true) ↔ IsAcceptedRewritten mode text.now }
{
    let name = base(text);
    if name.len() > 64 {
        return false;
    }
    let mut room = [0u8; 64];
    write_hyphens(name, &mut room);
    fault_of(mode, &room[..name.len()]).is_none()
}

/// Whether the text has what the hint needs.
pub fn has_what_it_needs(mode: Mode, text: &[u8], hint: Hint) -> bool
    ensures { (result ≡ true) ↔ Needs mode text.now hint }
{
    match hint {
        Hint::Codeset | Hint::Underscores => is_accepted_rewritten(mode, text),
        _ => true,
    }
}
