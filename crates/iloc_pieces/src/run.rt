//! How many bytes of a class come first among sixteen.
ghost use Rattle.std.specs.Prelude.{◌≡◌, ◌≤◌, length, map, take};
ghost use Rattle.std.specs.Simd.Lanes.{mask_l};
ghost use Rattle.std.specs.Char.{is_ascii_alphabetic};
ghost use Rattle.iloc_pieces.specs.Run.{IsRun, is_hyphen, fails};
ghost use Rattle.iloc_pieces.specs.Walk.{single_marks};

use crate::before_marked;
use std::simd::prelude::*;

// A bit for each byte that is no letter.
#[inline(always)]
fn no_letters_in(v: u8x16) -> u64
    ensures { result ≡ mask_l (map (fails is_ascii_alphabetic) v) }
{
    ((v | u8x16::splat(32)) - u8x16::splat(97))
        .simd_ge(u8x16::splat(26))
        .to_bitmask()
}

// A bit for each hyphen.
#[inline(always)]
fn hyphens_of(v: u8x16) -> u64
    ensures { result ≡ mask_l (map is_hyphen v) }
{
    v.simd_eq(u8x16::splat(45)).to_bitmask()
}

// How many letters come first.
#[inline(always)]
pub(crate) fn first_letters(window: &[u8]) -> usize
    requires { 16 ≤ length window.now }
    ensures { IsRun is_ascii_alphabetic window.now result }
{
    before_marked(no_letters_in(u8x16::from_slice(window)))
}

// How many bytes come before the first hyphen.
#[inline(always)]
pub(crate) fn before_hyphen(window: &[u8]) -> usize
    requires { 16 ≤ length window.now }
    ensures { IsRun (fails is_hyphen) window.now result }
{
    before_marked(hyphens_of(u8x16::from_slice(window)))
}

// A bit for each hyphen that has another one two bytes later.
#[inline(always)]
pub(crate) fn before_singles(window: &[u8]) -> u64
    requires { 16 ≤ length window.now }
    ensures { result ≡ single_marks (take 16 window.now) }
{
    let hyphens = hyphens_of(u8x16::from_slice(window));
    hyphens & (hyphens >> 2)
}
