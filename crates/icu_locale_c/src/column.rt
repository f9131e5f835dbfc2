//! The call on a column of texts, written by hand: the table `tools/calls.txt` has only its parameters.
ghost use Rattle.std.specs.Prelude.{◌≡◌};
ghost use Rattle.iloc_calls.specs.Numbers.{ByMode, EndsAs};
ghost use Rattle.iloc_text_calls.specs.Answers.{AnswersLines};

use std::alloc::Global;

/// Hands out the answers to the lines of the text: each line's normal text, or `! ` and why it is refused.
#[unsafe(no_mangle)]
pub extern "C" fn icu_locale_normalize_lines(
    alloc: Global,
    mode: u32,
    text: &[u8],
    buffer: &mut [u8],
    needed: &mut usize,
) -> u32
    ensures { ByMode mode (λ m. EndsAs (AnswersLines m text.now buffer.old buffer.new needed.new))
        ((needed.new ≡ 0) × (buffer.new ≡ buffer.old)) result }
{
    iloc_text_calls::normalize_lines(alloc, mode, text, buffer, needed)
}
