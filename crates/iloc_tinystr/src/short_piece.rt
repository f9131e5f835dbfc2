//! A piece that is held as its number.
ghost use Rattle.std.specs.Prelude.{◌≡◌, ℕ, ◌+◌, ◌-◌, ◌≤◌, ◌<◌, ◌++◌, List, length, replicate, true, slice_index, map, take, drop, IfSome, IfNone, nat_eq};
ghost use Rattle.std.specs.Cmp.Lexicographic.{pointwise};
ghost use Rattle.std.specs.Cmp.Rules.{comparing};
ghost use Rattle.std.proofs.Common.{rules};
ghost use Rattle.std.specs.Char.{is_ascii_alphabetic, is_ascii_alphanumeric, is_ascii_digit, to_ascii_lowercase, to_ascii_uppercase};
ghost use Rattle.std.specs.List.{list_all};
ghost use Rattle.iloc_tinystr.specs.Number.{number, bytes, IsPacked};
ghost use Rattle.iloc_tinystr.specs.TinyText.{is_text_byte};

use crate::flags::{digit_flags, high_bits, letter_flags, text_flags};
use crate::lanes::{alphanumerics_in, bytes_of};
use crate::number::number_of;
use std::marker::Model;

/// A piece of at most eight bytes, of any values.
#[derive(Clone, Copy)]
pub struct ShortPiece {
    packed: u64,
    len: usize,
}

impl Model for ShortPiece {
    ghost Value = { List ℕ };

    ghost view = { λ s. bytes s.len s.packed };

    ghost invariant = { λ s. IsPacked s.len s.packed };

    ghost inverse = { λ piece. record { packed = number piece; len = length piece } };

    ghost inverse_ok = { λ a h i. record { packed = h.whole i; len = h.counted i } };
}

impl ShortPiece {
    /// The piece of some bytes; `None` if they are more than eight.
    #[tactic(auto, using(crate::proofs::Loading::piece_word, crate::proofs::Loading::piece_shows))]
    #[inline(always)]
    pub fn of(bytes: &[u8]) -> Option<Self>
        ensures short { IfSome result (λ piece. piece ≡ bytes.now) }
        ensures long { IfNone result (8 < length bytes.now) }
    {
        if bytes.len() > 8 {
            return None;
        }
        Some(ShortPiece {
            packed: number_of(bytes),
            len: bytes.len(),
        })
    }

    /// The piece of a text, from its number.
    #[tactic(auto, using(crate::proofs::Loading::is_packed, crate::proofs::Loading::shows_text))]
    #[inline(always)]
    pub fn of_number(packed: u64) -> Self
        ensures { (text : List ℕ) → list_all is_text_byte text ≡ true → packed ≡ number text
            → result ≡ text }
    {
        ShortPiece {
            packed,
            len: (71 - packed.leading_zeros() as usize) >> 3,
        }
    }

    // The piece of so many of a number's lowest bytes, the others of which are zero.
    #[inline(always)]
    pub(crate) fn of_lowest(packed: u64, len: usize) -> Self
        requires { IsPacked len packed }
        ensures { result ≡ bytes len packed }
    {
        ShortPiece { packed, len }
    }

    /// The number of its bytes, the first lowest.
    #[inline(always)]
    pub fn number(self) -> u64
        ensures { result ≡ number self }
    {
        self.packed
    }

    /// Its bytes, followed by zeros.
    #[tactic(auto, using(crate::proofs::RawForms::eight_padded))]
    #[inline(always)]
    pub fn to_bytes(self) -> [u8; 8]
        ensures { result ≡ self ++ replicate (8 - length self) 0 }
    {
        self.packed.to_le_bytes()
    }

    /// How many bytes it has.
    #[inline(always)]
    pub fn len(self) -> usize
        ensures value { result ≡ length self }
        ensures few { result ≤ 8 }
    {
        self.len
    }

    /// Whether all bytes are letters.
    #[tactic(auto, using(crate::proofs::Classes::all_are))]
    #[inline(always)]
    pub fn is_ascii_alphabetic(self) -> bool
        ensures { result ≡ list_all is_ascii_alphabetic self }
    {
        letter_flags(self.packed) == high_bits(self.len)
    }

    /// Whether all bytes are digits.
    #[tactic(auto, using(crate::proofs::Classes::all_are))]
    #[inline(always)]
    pub fn is_ascii_numeric(self) -> bool
        ensures { result ≡ list_all is_ascii_digit self }
    {
        digit_flags(self.packed) == high_bits(self.len)
    }

    /// Whether all bytes are letters or digits.
    #[tactic(auto, using(crate::proofs::Sixteen::all_marked))]
    #[inline(always)]
    pub fn is_ascii_alphanumeric(self) -> bool
        ensures { result ≡ list_all is_ascii_alphanumeric self }
    {
        alphanumerics_in(bytes_of(self.packed, 0)) == (1u64 << self.len) - 1
    }

    /// Whether all bytes are ASCII, and none is zero.
    #[tactic(auto, using(crate::proofs::Classes::all_are))]
    #[inline(always)]
    pub(crate) fn is_text(self) -> bool
        ensures { result ≡ list_all is_text_byte self }
    {
        text_flags(self.packed) == high_bits(self.len)
    }

    /// The piece with A to Z mapped onto a to z.
    #[tactic(auto, using(crate::proofs::Cases::lower_whole, crate::proofs::Cases::lower_shows, crate::proofs::ByBytes::length_bytes))]
    #[inline(always)]
    pub fn to_ascii_lowercase(self) -> Self
        ensures { result ≡ map to_ascii_lowercase self }
    {
        ShortPiece {
            packed: self.packed | letter_flags(self.packed) >> 2,
            len: self.len,
        }
    }

    /// The piece of letters and digits with A to Z mapped onto a to z. Bit 5 does so, and every digit has it.
    #[tactic(auto, using(crate::proofs::Cases::word_whole, crate::proofs::Cases::word_shows, crate::proofs::ByBytes::length_bytes))]
    #[inline(always)]
    pub fn word_to_ascii_lowercase(self) -> Self
        requires { list_all is_ascii_alphanumeric self ≡ true }
        ensures { result ≡ map to_ascii_lowercase self }
    {
        ShortPiece {
            packed: self.packed | high_bits(self.len) >> 2,
            len: self.len,
        }
    }

    /// The piece with a to z mapped onto A to Z.
    #[tactic(auto, using(crate::proofs::Cases::upper_whole, crate::proofs::Cases::upper_shows, crate::proofs::ByBytes::length_bytes))]
    #[inline(always)]
    pub fn to_ascii_uppercase(self) -> Self
        ensures { result ≡ map to_ascii_uppercase self }
    {
        ShortPiece {
            packed: self.packed ^ (self.packed & letter_flags(self.packed) >> 2),
            len: self.len,
        }
    }

    /// The piece with its first byte in upper case and the rest in lower case.
    #[tactic(auto, using(crate::proofs::Cases::title_whole, crate::proofs::Cases::title_shows, crate::proofs::ByBytes::length_bytes))]
    #[inline(always)]
    pub fn to_ascii_titlecase(self) -> Self
        ensures { result ≡ map to_ascii_uppercase (take 1 self)
            ++ map to_ascii_lowercase (drop 1 self) }
    {
        let case = letter_flags(self.packed) >> 2;
        ShortPiece {
            packed: (self.packed | case) ^ (case & 0x20),
            len: self.len,
        }
    }

    /// The two pieces one after the other, of at most eight bytes together.
    #[tactic(auto, using(crate::proofs::Joined::joined_shows, crate::proofs::Joined::joined_fits))]
    #[inline(always)]
    pub fn concat(self, other: Self) -> Self
        requires { length self + length other ≤ 8 }
        ensures { result ≡ self ++ other }
    {
        if self.len == 8 {
            return self;
        }
        ShortPiece {
            packed: self.packed + (other.packed << (8 * self.len)),
            len: self.len + other.len,
        }
    }

    /// The first byte.
    #[tactic(auto, using(crate::proofs::Packed::first_is))]
    #[inline(always)]
    pub fn first(self) -> u8
        requires { 0 < length self }
        ensures { result ≡ slice_index self 0 }
    {
        (self.packed % 256) as u8
    }

    /// The second byte.
    #[tactic(auto, using(crate::proofs::Packed::second_is))]
    #[inline(always)]
    pub fn second(self) -> u8
        requires { 1 < length self }
        ensures { result ≡ slice_index self 1 }
    {
        (self.packed / 256 % 256) as u8
    }
}

impl PartialEq for ShortPiece {
    ghost eq = { pointwise nat_eq };

    ghost laws = { Prim.search (comparing, rules) };

    #[inline(always)]
    fn eq(&self, other: &Self) -> bool {
        self.packed == other.packed && self.len == other.len
    }
}

impl Eq for ShortPiece {
    ghost laws = { Prim.search (comparing, rules) };
}
