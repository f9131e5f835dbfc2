//! What may stand at a place of a text, and what is usually meant by a refused one.
ghost use Rattle.locale_web.specs.Refused.{AreBitsOfKinds, HintIsTold};

use iloc_calls::{Status, hand_out_bytes, hand_out_none};
use iloc_expected::expected;
use iloc_hints::hint;
use iloc_normalize::Mode;

/// The kinds of pieces that may stand at a place of the text, by their bits.
pub(crate) fn kinds_at(mode: Mode, text: &[u8], place: usize) -> u16
    ensures { AreBitsOfKinds mode text.now place result }
{
    expected(mode, text, place).bits
}

/// Hands out the words of the text's hint, if it has one.
pub(crate) fn tell_hint(mode: Mode, text: &[u8], buffer: &mut [u8], needed: &mut usize) -> Status
    ensures { HintIsTold mode text.now buffer.old buffer.new needed.new result }
{
    match hint(mode, text) {
        Some(found) => hand_out_bytes(found.words().as_bytes(), buffer, needed),
        None => hand_out_none(needed),
    }
}
