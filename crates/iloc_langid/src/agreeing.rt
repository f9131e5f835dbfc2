//! Whether a text means an identifier, without reading it into memory.
ghost use Rattle.std.specs.Prelude.{◌≡◌, ◌==◌, ◌≤◌, length};
ghost use Rattle.iloc_subtags.specs.Left.{left};
ghost use Rattle.iloc_langid.specs.Agreeing.{AreVariants, are_all_among, are_just};

use iloc_subtags::{SubtagIterator, Variant};
use std::cmp::min;

// How many variants one walk over a text looks for at most.
const AT_ONCE: usize = 65_536;

// Goes past the pieces that are the variants in their places, and returns the variants that are left.
fn past_equal<'v>(iter: &mut SubtagIterator<'_>, variants: &'v [Variant]) -> &'v [Variant]
    requires { AreVariants variants.now }
    ensures set { AreVariants result.now }
    ensures same { are_just (left iter.new) result.now ≡ are_just (left iter.old) variants.now }
{
    let mut rest = variants;
    while let Some((variant, others)) = rest.split_first() {
        let mut after = *iter;
        match after.next() {
            Some(piece) if piece.eq_ignore_ascii_case(variant.as_str().as_bytes()) => {
                *iter = after;
                rest = others;
            }
            _ => break,
        }
    }
    rest
}

// Whether so many pieces are left.
fn has_as_many(iter: SubtagIterator<'_>, count: usize) -> bool
    ensures { result ≡ (length (left iter.entry) == count) }
{
    let mut missing = count;
    for _ in iter {
        if missing == 0 {
            return false;
        }
        missing -= 1;
    }
    missing == 0
}

// Whether each of these variants, at most N, is among the pieces that are left. It stands for itself,
// so that what calls it has no room for N marks among its own locals.
#[inline(never)]
fn has_block<const N: usize>(iter: SubtagIterator<'_>, block: &[Variant]) -> bool
    requires set { AreVariants block.now }
    requires few { length block.now ≤ N }
    requires small { N ≤ 65536 }
    ensures { result ≡ are_all_among (left iter.entry) block.now }
{
    let mut found = [false; N];
    for piece in iter {
        if let Ok(variant) = Variant::try_from_utf8(piece) {
            if let Ok(at) = block.binary_search(&variant) {
                found[at] = true;
            }
        }
    }
    !found[..block.len()].contains(&false)
}

// Whether each of these variants, at most 65,536, is among the pieces that are left. Marks are cleared
// before the walk, so there are about as many as are wanted.
fn has_some(iter: SubtagIterator<'_>, block: &[Variant]) -> bool
    requires set { AreVariants block.now }
    requires few { length block.now ≤ 65536 }
    ensures { result ≡ are_all_among (left iter.entry) block.now }
{
    if block.len() <= 64 {
        has_block::<64>(iter, block)
    } else if block.len() <= 4096 {
        has_block::<4096>(iter, block)
    } else {
        has_block::<AT_ONCE>(iter, block)
    }
}

// Whether each variant is among the pieces that are left.
fn has_each(iter: SubtagIterator<'_>, variants: &[Variant]) -> bool
    requires { AreVariants variants.now }
    ensures { result ≡ are_all_among (left iter.entry) variants.now }
{
    let mut rest = variants;
    while !rest.is_empty() {
        let (block, later) = rest.split_at(min(rest.len(), AT_ONCE));
        if !has_some(iter, block) {
            return false;
        }
        rest = later;
    }
    true
}

/// Whether the pieces that are left are as many as the variants, and each variant is among them.
///
/// It allocates nothing: variants in the order of the text are gone past in one walk, and others are
/// looked for in walks over the text for 65,536 of them each.
pub(crate) fn has_variants(mut iter: SubtagIterator<'_>, variants: &[Variant]) -> bool
    requires { AreVariants variants.now }
    ensures { result ≡ are_just (left iter.entry) variants.now }
{
    let rest = past_equal(&mut iter, variants);
    has_as_many(iter, rest.len()) && has_each(iter, rest)
}
