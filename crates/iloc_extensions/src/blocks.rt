//! Parses the blocks after the head of a locale.
ghost use Rattle.std.specs.Prelude.{◌≡◌, ◌∷◌, List, [], true, ◌≤◌, ◌+◌, length, OnOk};
ghost use Rattle.iloc_spec_grammar.specs.Syntax.{Text, languages};
ghost use Rattle.iloc_spec_grammar.specs.Reading.{starts_block};
ghost use Rattle.iloc_spec_grammar.specs.Meaning.{no_extensions};
ghost use Rattle.iloc_subtags.specs.Left.{left};
ghost use Rattle.iloc_extensions.specs.ExtensionsValue.{value_of};
ghost use Rattle.iloc_extensions.specs.Blocks.{BlocksDone, BlockReads, is_read};
ghost use Rattle.iloc_extensions.specs.Whole.{BlocksReads};
ghost use Rattle.iloc_memory.specs.Refusals.{RefusedWithin};
ghost use Rattle.iloc_subtags.specs.Judging.{RunsOutOnlyIf};

use crate::Extensions;
use crate::others::has_other;
use crate::taking::{take_other, take_private, take_transform, take_unicode};
use iloc_memory::Memory;
use iloc_subtags::{ParseError, SubtagIterator, take_byte};

/// Parses all the blocks that are left into empty extensions.
///
/// Refuses with the fault of the first bad block: `InvalidExtension` for a singleton that is no letter or
/// digit, `DuplicatedExtension` for one met before, `InvalidSubtag` after `t` if a variant is repeated, and
/// `InvalidExtension` for anything else. `OutOfMemory` comes only if a block is reached that is
/// not short (`IsShortBlock`), and only if room for at most as many items as pieces was refused.
pub fn read_blocks<M: Memory>(
    memory: M,
    iter: &mut SubtagIterator<'_>,
    extensions: &mut Extensions,
) -> Result<(), ParseError>
    requires starts { starts_block (left iter.old) ≡ true }
    requires empty { value_of extensions.old ≡ no_extensions }
    ensures reads { BlocksReads (left iter.old) (value_of extensions.new) result }
    ensures rest { OnOk result (left iter.new ≡ []) }
    ensures out_of_memory { RunsOutOnlyIf
        (RefusedWithin M.refused (length (left iter.old))) result }
{
    'blocks: while let Some(byte) = take_byte(iter) {
        read_block(memory, byte, iter, extensions)?;
    }
    Ok(())
}

// Parses the block after a byte that was taken. It stands apart, so that a text without blocks pays nothing for it.
#[inline(never)]
fn read_block<M: Memory>(
    memory: M,
    byte: u8,
    iter: &mut SubtagIterator<'_>,
    extensions: &mut Extensions,
) -> Result<(), ParseError>
    ensures reads { (start : List Text)
        → BlocksDone languages start ((byte ∷ []) ∷ left iter.old) (value_of extensions.old)
        → BlockReads start (left iter.new) (value_of extensions.new) result }
    ensures shorter { OnOk result (length (left iter.new) ≤ length (left iter.old)) }
    ensures more { OnOk result
        (length extensions.new.other.items ≤ length extensions.old.other.items + 1) }
    ensures out_of_memory { RunsOutOnlyIf (RefusedWithin M.refused
        (length extensions.old.other.items + 1 + length (left iter.old))) result }
{
    if !byte.is_ascii_alphanumeric() {
        return Err(ParseError::InvalidExtension);
    }
    let ext = byte.to_ascii_lowercase();
    if has_part(extensions, ext) {
        return Err(ParseError::DuplicatedExtension);
    }
    match ext {
        b'u' => take_unicode(memory, iter, &mut extensions.unicode),
        b't' => take_transform(memory, iter, &mut extensions.transform),
        b'x' => take_private(memory, iter, &mut extensions.private),
        _ => take_other(memory, ext, iter, &mut extensions.other),
    }
}

// Whether the part of this singleton was read: no part that was read is empty.
fn has_part(extensions: &Extensions, ext: u8) -> bool
    ensures { result ≡ is_read (value_of extensions.now) ext }
{
    match ext {
        b'u' => !extensions.unicode.is_empty(),
        b't' => !extensions.transform.is_empty(),
        b'x' => extensions.private.len() != 0,
        _ => has_other(&extensions.other, ext),
    }
}
