//! What is replied to a line that is refused.
ghost use Rattle.std.specs.Prelude.{◌≡◌, ◌≢◌, ◌+◌, ◌≤◌, [], ◌∷◌, ◌++◌, length, take, IfSome, OnOk, OnErr};
ghost use Rattle.iloc_memory.specs.Refusals.{RefusedWithin};
ghost use Rattle.iloc_program.specs.ReplyBlock.{held, room_for};
ghost use Rattle.iloc_program.specs.Answers.{refusal_text};

use crate::reply_block::ReplyBlock;
use iloc_memory::Memory;
use iloc_subtags::ParseError;
use std::alloc::AllocError;

// Adds why a line has no answer, and a newline. That an allocation fails is no answer to a line.
#[inline(always)]
pub(crate) fn write_refusal<M: Memory>(
    error: ParseError,
    replies: &mut ReplyBlock<M>,
) -> Result<(), AllocError>
    ensures text { OnOk result (held replies.new
        ≡ held replies.old ++ (refusal_text error ++ 10 ∷ [])) }
    ensures known { OnOk result (error ≢ ParseError.OutOfMemory) }
    ensures out_of_memory { OnErr result (error ≢ ParseError.OutOfMemory
        → RefusedWithin M.refused (room_for (length (held replies.old) + 48))) }
{
    match error {
        ParseError::InvalidLanguage => replies.push_first(REASONS[0], 39),
        ParseError::InvalidSubtag => replies.push_first(REASONS[1], 17),
        ParseError::InvalidExtension => replies.push_first(REASONS[2], 20),
        ParseError::DuplicatedExtension => replies.push_first(REASONS[3], 23),
        ParseError::OutOfMemory => Err(AllocError),
    }
}

// The words that say why a line has no answer, and how many of their bytes count.
#[inline(always)]
pub(crate) fn reason_of(error: &ParseError) -> (&'static [u8; 48], usize)
    requires { error.now ≢ ParseError.OutOfMemory }
    ensures within { result.1 ≤ 48 }
    ensures text { take result.1 result.0.now ≡ refusal_text error.now }
{
    let row = match error {
        ParseError::InvalidLanguage => 0,
        ParseError::InvalidSubtag => 1,
        ParseError::InvalidExtension => 2,
        ParseError::DuplicatedExtension => 3,
        ParseError::OutOfMemory => 4,
    };
    (&REASONS[row], REASON_LENGTHS[row])
}

// The words of each refusal and a newline, in 48 bytes, so that they are stored at once. That an allocation fails is no
// refusal: its row is never asked for, and is there so that a refusal's number is its row.
const REASONS: &[[u8; 48]; 5] = &[
    *b"! The given language subtag is invalid\n         ",
    *b"! Invalid subtag\n                               ",
    *b"! Invalid extension\n                            ",
    *b"! Duplicated extension\n                         ",
    *b"                                                ",
];

// How many of these bytes are words.
const REASON_LENGTHS: &[usize; 5] = &[38, 16, 19, 22, 0];
