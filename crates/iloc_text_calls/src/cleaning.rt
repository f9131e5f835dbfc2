//! The name that is made of a line.
ghost use Rattle.iloc_text_calls.specs.Answers.{CleansTo};

use iloc_calls::{Status, hand_out_bytes};
use iloc_cleaning::clean_line;
use std::alloc::Global;

/// Hands out what cleaning leaves of a line.
pub(crate) fn clean(alloc: Global, text: &[u8], buffer: &mut [u8], needed: &mut usize) -> Status
    ensures { CleansTo text.now buffer.old buffer.new needed.new result }
{
    let mut cleaned = Vec::new(alloc);
    match clean_line(text, &mut cleaned) {
        Ok(()) => hand_out_bytes(cleaned.as_slice(), buffer, needed),
        Err(_) => {
            *needed = 0;
            Status::OutOfMemory
        }
    }
}
