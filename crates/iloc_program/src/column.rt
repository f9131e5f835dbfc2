//! The replies to the lines of a text that is all in memory, by the steps of `run`.
ghost use Rattle.std.specs.Prelude.{◌≡◌, [], IfOk, OnErr};
ghost use Rattle.iloc_spec_grammar.specs.Syntax.{languages};
ghost use Rattle.iloc_program.specs.Answers.{output};
ghost use Rattle.iloc_memory.specs.Refusals.{RefusedWithin};
ghost use Rattle.iloc_program.specs.ReplyBlock.{held};
ghost use Rattle.iloc_program.specs.Replies.{text_room};

use crate::{DataLocales, Identifiers, InMode, Locales, Mode, ReplyBlock, lines};
use iloc_memory::Trees;
use iloc_spans::spans::Spans;
use std::alloc::{AllocError, Global};

// Room beyond that for a reply as long as its line: the most that is made for one reply at once.
const MORE: usize = 64;

/// The replies to all lines of a text, one after the other: what `run` writes for it. They are refused only if an
/// allocation fails. What is asked for is as long as the text, and more only if replies are longer than their lines.
///
/// ```text
/// mode locale, `EN-us` and `en-foo` and `de`:  en-US / ! Invalid subtag / de
/// ```
pub fn reply_lines(alloc: Global, mode: Mode, text: &[u8]) -> Result<ReplyBlock, AllocError>
    ensures { IfOk result (λ replies. held replies ≡ output languages mode text.now) }
{
    reply_lines_in(alloc, mode, text)
}

/// The same with any memory.
///
/// # Errors
///
/// `AllocError` if the memory refused room: for at most twice as many bytes as the text and its replies have, and those that
/// are made first.
pub fn reply_lines_in<M: Trees>(
    memory: M,
    mode: Mode,
    text: &[u8],
) -> Result<ReplyBlock<M>, AllocError>
    ensures ok { IfOk result (λ replies. held replies ≡ output languages mode text.now) }
    ensures out_of_memory { OnErr result (RefusedWithin M.refused (text_room mode [] text.now)) }
{
    match mode {
        Mode::Langid => reply_each(memory, &Identifiers, text),
        Mode::Locale => reply_each(memory, &Locales, text),
        Mode::Data => reply_each(memory, &DataLocales, text),
    }
}

// The replies to all lines of a text, in the mode of these answers.
fn reply_each<M: Trees, A: InMode>(
    memory: M,
    answers: &A,
    text: &[u8],
) -> Result<ReplyBlock<M>, AllocError>
    ensures ok { IfOk result (λ replies. held replies ≡ output languages A.mode text.now) }
    ensures out_of_memory { OnErr result (RefusedWithin M.refused (text_room A.mode [] text.now)) }
{
    let mut pending = memory.empty();
    let mut spans = Spans::new();
    let mut replies = ReplyBlock::with_room(memory, text.len().saturating_add(MORE))?;
    lines::feed(answers, &mut pending, text, &mut spans, &mut replies)?;
    lines::finish(answers, &mut pending, &mut spans, &mut replies)?;
    Ok(replies)
}
