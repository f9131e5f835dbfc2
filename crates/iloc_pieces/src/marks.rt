//! What up to sixteen bytes of a text are, as bit masks.
ghost use Rattle.std.specs.Prelude.{◌≡◌, ◌+◌, ◌<◌, ◌≤◌, ◌-◌, ℕ, length, take, drop};
ghost use Rattle.iloc_spec_grammar.specs.Syntax.{Text};
ghost use Rattle.iloc_pieces.specs.Marks.{AreKnown, AreMarks, closed};

use crate::load::load;
use std::simd::prelude::*;

/// A bit for each of the bytes from a piece on, as far as they are known. A hyphen ends the text here.
#[derive(Clone, Copy)]
pub struct Marks {
    /// The hyphens, each of which ends a piece.
    pub ends: u64,
    /// The bytes that are no letters.
    pub others: u64,
    /// The bytes that are in no word and end none.
    pub odd: u64,
}

// Sixteen bytes, of which the first are those from `at` on.
#[inline(always)]
fn load_at(window: &[u8], at: usize) -> u8x16
    requires { at ≤ length window.now }
    ensures wide { length result ≡ 16 }
    ensures front { (k : ℕ) → k ≤ 16 → k ≤ length window.now - at
        → take k result ≡ take k (drop at window.now) }
{
    if window.len() - at >= 16 {
        return u8x16::from_slice(&window[at..]);
    }
    load_last(window, at)
}

// The last bytes, where fewer than sixteen are there. It is a call of its own, so that longer windows pay nothing.
#[inline(never)]
fn load_last(window: &[u8], at: usize) -> u8x16
    requires inside { at ≤ length window.now }
    requires few { length window.now < at + 16 }
    ensures wide { length result ≡ 16 }
    ensures front { (k : ℕ) → k ≤ 16 → k ≤ length window.now - at
        → take k result ≡ take k (drop at window.now) }
{
    load(&window[at..])
}

// The marks of sixteen bytes.
#[inline(always)]
fn marks_of(v: u8x16) -> Marks
    ensures { AreMarks v result }
{
    let no_letters = ((v | u8x16::splat(32)) - u8x16::splat(97)).simd_ge(u8x16::splat(26));
    let no_digits = (v - u8x16::splat(48)).simd_ge(u8x16::splat(10));
    let hyphens = v.simd_eq(u8x16::splat(45));
    Marks {
        ends: hyphens.to_bitmask(),
        others: no_letters.to_bitmask(),
        odd: ((no_letters & no_digits) ^ hyphens).to_bitmask(),
    }
}

/// The marks of sixteen bytes from `at` on, of which the text has the first `left`; fewer if it ends before.
#[inline(always)]
pub fn marks_at(window: &[u8], at: usize, left: usize) -> Marks
    requires { at + left ≤ length window.now }
    ensures { AreKnown (take left (drop at window.now)) result }
{
    let marks = marks_of(load_at(window, at));
    if left < 16 {
        closed_at(marks, left)
    } else {
        marks
    }
}

// The marks of the first `n` bytes, and of a hyphen behind them.
#[inline(always)]
fn closed_at(marks: Marks, n: usize) -> Marks
    requires { n < 16 }
    ensures { (v : Text) → n ≤ length v → AreMarks v marks → AreMarks (closed (take n v)) result }
{
    let end = 1u64 << n;
    let below = end - 1;
    Marks {
        ends: (marks.ends & below) | end,
        others: (marks.others & below) | end,
        odd: marks.odd & below,
    }
}

impl Marks {
    /// The marks from `past` bytes later on.
    #[inline(always)]
    pub fn after(self, past: usize) -> Marks
        requires { past ≤ 17 }
        ensures { (v : Text) → AreMarks v self → AreMarks (drop past v) result }
    {
        Marks {
            ends: self.ends >> past,
            others: self.others >> past,
            odd: self.odd >> past,
        }
    }
}
