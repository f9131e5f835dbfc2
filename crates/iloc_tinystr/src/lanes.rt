//! Eight bytes at once, or sixteen.
ghost use Rattle.std.specs.Prelude.{◌≡◌, ◌==◌, ◌||◌, ◌++◌, map, nat_lt, true};
ghost use Rattle.std.specs.Char.{is_ascii_alphanumeric, to_ascii_lowercase, to_ascii_uppercase};
ghost use Rattle.std.specs.List.{list_all};
ghost use Rattle.std.specs.Simd.Lanes.{mask_l};
ghost use Rattle.iloc_tinystr.specs.Number.{bytes};

use std::simd::prelude::*;

// The bytes with A to Z in lower case. With 37 added, these alone are above 101 as signed numbers.
#[inline(always)]
pub(crate) fn in_lower_case(all: [u8; 8]) -> [u8; 8]
    requires { list_all (λ b. nat_lt b 128) all ≡ true }
    ensures { result ≡ map to_ascii_lowercase all }
{
    let v = u8x8::from_array(all);
    let capitals = (v.cast::<i8>() + i8x8::splat(37)).simd_gt(i8x8::splat(101));
    (v | capitals.select(u8x8::splat(32), u8x8::splat(0))).to_array()
}

// The bytes with a to z in upper case. With 5 added, these alone are above 101 as signed numbers.
#[inline(always)]
pub(crate) fn in_upper_case(all: [u8; 8]) -> [u8; 8]
    requires { list_all (λ b. nat_lt b 128) all ≡ true }
    ensures { result ≡ map to_ascii_uppercase all }
{
    let v = u8x8::from_array(all);
    let small = (v.cast::<i8>() + i8x8::splat(5)).simd_gt(i8x8::splat(101));
    (v ^ small.select(u8x8::splat(32), u8x8::splat(0))).to_array()
}

// Whether all bytes are letters, digits or zeros: nothing is left once letters and digits are zeros.
#[inline(always)]
pub(crate) fn are_alphanumeric(all: [u8; 8]) -> bool
    requires { list_all (λ b. nat_lt b 128) all ≡ true }
    ensures { result ≡ list_all (λ b. b == 0 || is_ascii_alphanumeric b) all }
{
    let v = u8x8::from_array(all);
    let signed = v.cast::<i8>();
    let letters = ((signed | i8x8::splat(32)) + i8x8::splat(5)).simd_gt(i8x8::splat(101));
    let digits = (signed + i8x8::splat(70)).simd_gt(i8x8::splat(117));
    u64::from_le_bytes((letters | digits).select(u8x8::splat(0), v).to_array()) == 0
}

/// The bytes of two numbers.
#[inline(always)]
pub fn bytes_of(low: u64, high: u64) -> u8x16
    ensures { result ≡ bytes 8 low ++ bytes 8 high }
{
    u64x2::from_array([low, high]).to_le_bytes()
}

// A bit for each byte that is a letter or a digit.
#[inline(always)]
pub(crate) fn alphanumerics_in(v: u8x16) -> u64
    ensures { result ≡ mask_l (map is_ascii_alphanumeric v) }
{
    let letters = ((v | u8x16::splat(32)) - u8x16::splat(97)).simd_lt(u8x16::splat(26));
    let digits = (v - u8x16::splat(48)).simd_lt(u8x16::splat(10));
    (letters | digits).to_bitmask()
}
