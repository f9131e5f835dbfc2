//! Sixteen bytes at once.
ghost use Rattle.std.specs.Prelude.{◌≡◌, ◌==◌};
ghost use Rattle.iloc_spec_grammar.specs.Syntax.{lower};
ghost use Rattle.iloc_pieces.specs.Marked.{MarksOnly};

use std::simd::prelude::*;

// The bytes that are hyphens.
#[inline(always)]
pub(crate) fn hyphens_in(v: u8x16) -> u64
    ensures { MarksOnly (λ b. b == 45) v result }
{
    v.simd_eq(u8x16::splat(45)).to_bitmask()
}

// All letters in lower case.
#[inline(always)]
pub(crate) fn all_in_lower_case(v: u8x16) -> u8x16
    ensures { result ≡ lower v }
{
    (v - u8x16::splat(65))
        .simd_lt(u8x16::splat(26))
        .select(v | u8x16::splat(32), v)
}
