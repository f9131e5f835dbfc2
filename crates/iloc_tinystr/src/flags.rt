//! The high bit of each byte of a number that has a property.
ghost use Rattle.std.specs.Prelude.{◌≡◌, ◌==◌, ◌<◌, ◌≤◌, nat_le};
ghost use Rattle.std.specs.Char.{is_ascii_alphabetic, is_ascii_digit};
ghost use Rattle.std.specs.Int.{is_in_range};
ghost use Rattle.iloc_tinystr.specs.Number.{flags, spread, IsLow};
ghost use Rattle.iloc_tinystr.specs.TinyText.{is_text_byte};

const HIGH: u64 = 0x8080_8080_8080_8080;

const LOW: u64 = 0x7f7f_7f7f_7f7f_7f7f;

const CASE: u64 = 0x2020_2020_2020_2020;

// Of bytes below 128, those that are so large at least.
#[tactic(auto, using(crate::proofs::Low::marks_are, crate::proofs::Low::low_le))]
#[inline(always)]
fn marks_from(x: u64, least: u64) -> u64
    requires low { IsLow x }
    requires few { least ≤ 128 }
    ensures { result ≡ flags (nat_le least) x }
{
    (x + (128 - least) * 0x0101_0101_0101_0101) & HIGH
}

// Of bytes below 128, those between two, or equal to one of them.
#[tactic(auto, using(crate::proofs::Low::between_are))]
#[inline(always)]
pub(crate) fn marks_between(x: u64, first: u64, last: u64) -> u64
    requires low { IsLow x }
    requires order { first ≤ last }
    requires few { last < 128 }
    ensures { result ≡ flags (is_in_range first last) x }
{
    marks_from(x, first) ^ marks_from(x, last + 1)
}

// Of bytes below 128, the letters.
#[tactic(auto, using(crate::proofs::Low::cased_low, crate::proofs::Low::letters_are))]
#[inline(always)]
fn letter_marks(x: u64) -> u64
    requires { IsLow x }
    ensures { result ≡ flags is_ascii_alphabetic x }
{
    marks_between(x | CASE, 97, 122)
}

// Of bytes below 128, those that are not 0.
#[tactic(auto, using(crate::proofs::Low::texts_are))]
#[inline(always)]
pub(crate) fn text_marks(x: u64) -> u64
    requires { IsLow x }
    ensures { result ≡ flags is_text_byte x }
{
    marks_from(x, 1)
}

// Whether all of these bytes are 0 or letters. They are below 128, so no sum carries. The highest three bits of what is
// computed of such a byte are 0, and one of those of every other byte is 1.
#[tactic(auto, using(crate::proofs::Low::low_le, crate::proofs::Letters::letters_are))]
#[inline(always)]
pub(crate) fn are_letters(x: u64) -> bool
    requires { IsLow x }
    ensures { result ≡ (flags is_ascii_alphabetic x == flags is_text_byte x) }
{
    let apart = (x + 0x3f3f_3f3f_3f3f_3f3f) ^ (x | 0xa0a0_a0a0_a0a0_a0a0);
    apart & (x + 0x4545_4545_4545_4545) & 0xe0e0_e0e0_e0e0_e0e0 == 0
}

// The letters.
#[tactic(auto, using(crate::proofs::Low::masked_low, crate::proofs::Classes::letters_are))]
#[inline(always)]
pub(crate) fn letter_flags(x: u64) -> u64
    ensures { result ≡ flags is_ascii_alphabetic x }
{
    letter_marks(x & LOW) & (x ^ HIGH)
}

// The digits.
#[tactic(auto, using(crate::proofs::Low::masked_low, crate::proofs::Classes::digits_are))]
#[inline(always)]
pub(crate) fn digit_flags(x: u64) -> u64
    ensures { result ≡ flags is_ascii_digit x }
{
    marks_between(x & LOW, 48, 57) & (x ^ HIGH)
}

// The bytes that are neither 0 nor above 127.
#[tactic(auto, using(crate::proofs::Low::masked_low, crate::proofs::Classes::texts_are))]
#[inline(always)]
pub(crate) fn text_flags(x: u64) -> u64
    ensures { result ≡ flags is_text_byte x }
{
    text_marks(x & LOW) & (x ^ HIGH)
}

// Each of the lowest bytes.
#[tactic(auto, using(crate::proofs::Classes::high_bits_are), unfolding(crate::specs::Number::spread))]
#[inline(always)]
pub(crate) fn high_bits(n: usize) -> u64
    requires { n ≤ 8 }
    ensures { result ≡ spread 128 n }
{
    if n == 0 { 0 } else { HIGH >> (64 - 8 * n) }
}
