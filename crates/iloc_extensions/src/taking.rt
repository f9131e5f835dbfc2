//! Takes the block of one part into the extensions.
ghost use Rattle.std.specs.Prelude.{◌≡◌, ◌==◌, ◌≤◌, ◌+◌, ℕ, List, [], None, true, false, length, OnOk};
ghost use Rattle.std.specs.Char.{to_ascii_lowercase};
ghost use Rattle.std.specs.List.{list_any};
ghost use Rattle.iloc_spec_grammar.specs.Syntax.{Text, code_t, code_u, code_x, languages, is_other_singleton};
ghost use Rattle.iloc_spec_grammar.specs.Meaning.{Extensions as Parts};
ghost use Rattle.iloc_unicode.specs.UnicodeValue as unicode_value;
ghost use Rattle.iloc_transform.specs.TransformReading as transform_value;
ghost use Rattle.iloc_subtags.specs.Left.{left};
ghost use Rattle.iloc_extensions.specs.Blocks.{BlockAt, BlockReads};
ghost use Rattle.iloc_memory.specs.Refusals.{RefusedWithin};
ghost use Rattle.iloc_subtags.specs.Judging.{RunsOutOnlyIf};

use crate::others::insert_other;
use iloc_memory::Memory;
use iloc_other::private::fill_private;
use iloc_other::{Other, Private};
use iloc_subtags::{ParseError, SubtagIterator, is_at_block};
use iloc_transform::Transform;
use iloc_transform::transform::fill_transform;
use iloc_unicode::Unicode;
use iloc_unicode::reader::fill_unicode;

/// Takes the block after `u`, if there was none. It must mean a unicode extension as a whole.
pub(crate) fn take_unicode<M: Memory>(
    memory: M,
    iter: &mut SubtagIterator<'_>,
    unicode: &mut Unicode,
) -> Result<(), ParseError>
    requires keywords { unicode.old.keywords ≡ [] }
    requires attributes { unicode.old.attributes ≡ [] }
    ensures reads { (start : List Text) (c : ℕ) (E : Parts)
        → BlockAt languages start c (left iter.old) E → to_ascii_lowercase c ≡ code_u
        → BlockReads start (left iter.new)
        (record E { unicode = unicode_value.value_of unicode.new }) result }
    ensures shorter { OnOk result (length (left iter.new) ≤ length (left iter.old)) }
    ensures out_of_memory { RunsOutOnlyIf
        (RefusedWithin M.refused (length (left iter.old))) result }
{
    fill_unicode(memory, iter, unicode)?;
    if !is_at_block(iter) {
        return Err(ParseError::InvalidExtension);
    }
    Ok(())
}

/// Takes the block after `t`, if there was none.
pub(crate) fn take_transform<M: Memory>(
    memory: M,
    iter: &mut SubtagIterator<'_>,
    transform: &mut Transform,
) -> Result<(), ParseError>
    requires lang { transform.old.lang ≡ None }
    requires fields { transform.old.fields ≡ [] }
    ensures reads { (start : List Text) (c : ℕ) (E : Parts)
        → BlockAt languages start c (left iter.old) E → to_ascii_lowercase c ≡ code_t
        → BlockReads start (left iter.new)
        (record E { transform = transform_value.value_of transform.new }) result }
    ensures shorter { OnOk result (length (left iter.new) ≤ length (left iter.old)) }
    ensures out_of_memory { RunsOutOnlyIf
        (RefusedWithin M.refused (length (left iter.old))) result }
{
    fill_transform(memory, iter, transform)?;
    if !is_at_block(iter) {
        return Err(ParseError::InvalidExtension);
    }
    Ok(())
}

/// Takes the block after `x`, if there was none. It is all the rest.
pub(crate) fn take_private<M: Memory>(
    memory: M,
    iter: &mut SubtagIterator<'_>,
    private: &mut Private,
) -> Result<(), ParseError>
    requires { private.old ≡ [] }
    ensures reads { (start : List Text) (c : ℕ) (E : Parts)
        → BlockAt languages start c (left iter.old) E → to_ascii_lowercase c ≡ code_x
        → BlockReads start (left iter.new) (record E { private = private.new }) result }
    ensures shorter { OnOk result (length (left iter.new) ≤ length (left iter.old)) }
    ensures out_of_memory { RunsOutOnlyIf
        (RefusedWithin M.refused (length (left iter.old))) result }
{
    fill_private(memory, iter, private)
}

/// Takes the block after another singleton, which none of the others has.
pub(crate) fn take_other<M: Memory>(
    memory: M,
    ext: u8,
    iter: &mut SubtagIterator<'_>,
    others: &mut Vec<Other>,
) -> Result<(), ParseError>
    requires other { is_other_singleton ext ≡ true }
    requires new { list_any (λ (c, _). c == ext) others.old.items ≡ false }
    ensures reads { (start : List Text) (c : ℕ) (E : Parts)
        → BlockAt languages start c (left iter.old) E → to_ascii_lowercase c ≡ ext
        → E.others ≡ others.old.items
        → BlockReads start (left iter.new) (record E { others = others.new.items }) result }
    ensures shorter { OnOk result (length (left iter.new) ≤ length (left iter.old)) }
    ensures more { OnOk result (length others.new.items ≤ length others.old.items + 1) }
    ensures out_of_memory { RunsOutOnlyIf (RefusedWithin M.refused
        (length others.old.items + 1 + length (left iter.old))) result }
{
    let other = Other::try_from_iter(memory, ext, iter)?;
    if !is_at_block(iter) {
        return Err(ParseError::InvalidExtension);
    }
    insert_other(memory, others, other)
}
