//! Calls that say more of a refused text, written by hand: what may stand at a place, and what is usually meant. The table
//! `tools/calls.txt` has only their parameters.
ghost use Rattle.std.specs.Prelude.{◌≡◌};
ghost use Rattle.iloc_calls.specs.Numbers.{ByMode, EndsAs};
ghost use Rattle.iloc_text_calls.specs.Advice.{TellsHint, TellsHintWords, TellsKindWords, TellsKinds};

use std::alloc::Global;

/// Writes which kinds of pieces may stand at the place of the text, each as the bit at its number.
#[unsafe(no_mangle)]
pub extern "C" fn icu_locale_expected(
    alloc: Global,
    mode: u32,
    text: &[u8],
    place: usize,
    kinds: &mut u32,
) -> u32
    ensures { ByMode mode (λ m. EndsAs (TellsKinds m text.now place kinds.new))
        (kinds.new ≡ kinds.old) result }
{
    iloc_text_calls::expected(alloc, mode, text, place, kinds)
}

/// Writes the words of a set of kinds into the buffer, and their length to `needed`.
#[unsafe(no_mangle)]
pub extern "C" fn icu_locale_expected_words(
    kinds: u32,
    buffer: &mut [u8],
    needed: &mut usize,
) -> u32
    ensures { TellsKindWords kinds buffer.old buffer.new needed.new result }
{
    iloc_text_calls::expected_words(kinds, buffer, needed)
}

/// Writes the number of the hint that the text has, or 0 if it has none.
#[unsafe(no_mangle)]
pub extern "C" fn icu_locale_hint(alloc: Global, mode: u32, text: &[u8], hint: &mut u32) -> u32
    ensures { ByMode mode (λ m. EndsAs (TellsHint m text.now hint.new))
        (hint.new ≡ hint.old) result }
{
    iloc_text_calls::hint(alloc, mode, text, hint)
}

/// Writes the words of the hint of this number into the buffer, and their length to `needed`.
#[unsafe(no_mangle)]
pub extern "C" fn icu_locale_hint_words(hint: u32, buffer: &mut [u8], needed: &mut usize) -> u32
    ensures { TellsHintWords hint buffer.old buffer.new needed.new result }
{
    iloc_text_calls::hint_words(hint, buffer, needed)
}
