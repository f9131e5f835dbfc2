//! The answers to the lines of a text.
ghost use Rattle.std.specs.Prelude.{◌≡◌};
ghost use Rattle.iloc_calls.specs.Numbers.{ByMode, EndsAs};
ghost use Rattle.iloc_text_calls.specs.Answers.{AnswersLines};

use iloc_calls::{Status, hand_out_bytes, mode_of};
use iloc_normalize::Mode;
use iloc_program::reply_lines;
use std::alloc::Global;

/// Writes the answers to the lines of the text into the buffer, and their length to `needed`.
///
/// The mode is 0 for identifiers, 1 for locales and 2 for data locales. The answer to a line is its normal text, or `! ` and
/// why it is refused, and a newline. It allocates.
pub fn normalize_lines(
    alloc: Global,
    mode: u32,
    text: &[u8],
    buffer: &mut [u8],
    needed: &mut usize,
) -> u32
    ensures { ByMode mode (λ m. EndsAs (AnswersLines m text.now buffer.old buffer.new needed.new))
        ((needed.new ≡ 0) × (buffer.new ≡ buffer.old)) result }
{
    match mode_of(mode) {
        Some(mode) => answer_lines(alloc, mode, text, buffer, needed).number(),
        None => {
            *needed = 0;
            Status::UnknownNumber.number()
        }
    }
}

// Hands out the answers to the lines of the text.
fn answer_lines(
    alloc: Global,
    mode: Mode,
    text: &[u8],
    buffer: &mut [u8],
    needed: &mut usize,
) -> Status
    ensures { AnswersLines mode text.now buffer.old buffer.new needed.new result }
{
    match reply_lines(alloc, mode, text) {
        Ok(replies) => hand_out_bytes(replies.as_slice(), buffer, needed),
        Err(_) => {
            *needed = 0;
            Status::OutOfMemory
        }
    }
}
