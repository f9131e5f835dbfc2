//! A plain identifier as its normal text.
ghost use Rattle.std.specs.Prelude.{◌≡◌, ◌≤◌, length, take, drop};
ghost use Rattle.iloc_spec_grammar.specs.Syntax.{languages};
ghost use Rattle.iloc_spec_grammar.specs.Values.{IsIdentifierValue, identifier_text};
ghost use Rattle.iloc_pieces.specs.Plain.{AreWords, value_of};

use iloc_tinystr::ShortPiece;
use std::simd::prelude::*;

/// The normal text, and where its subtags stand in it.
#[derive(Drop)]
pub struct Plain {
    /// The normal text, and after it bytes that say nothing.
    pub bytes: u8x16,
    /// The length of the text.
    pub len: usize,
    /// The length of the language, which comes first.
    pub language: usize,
    /// Whether a script follows the language.
    pub has_script: bool,
    /// The length of the region, which comes last; 0 if there is none.
    pub region: usize,
}

impl Plain {
    /// Stores sixteen bytes at the beginning of the room: the normal text, and something after it.
    #[inline(always)]
    pub fn store(&self, room: &mut [u8])
        requires words { AreWords self.now }
        requires room { 16 ≤ length room.old }
        ensures text { take self.now.len room.new ≡ identifier_text (value_of self.now) }
        ensures rest { drop 16 room.new ≡ drop 16 room.old }
        ensures len { length room.new ≡ length room.old }
    {
        self.bytes.copy_to_slice(room);
    }

    /// The language.
    #[inline(always)]
    pub fn language(&self) -> ShortPiece
        requires words { AreWords self.now }
        requires value { IsIdentifierValue languages (value_of self.now) }
        ensures { result ≡ (value_of self.now).language }
    {
        let first = u64x2::from_le_bytes(self.bytes).to_array()[0];
        ShortPiece::of_number(first & (u64::MAX >> (64 - 8 * self.language)))
    }

    /// The script, if there is one.
    #[tactic(auto, unfolding(crate::specs::PlainShape::plain_identifier))]
    #[inline(always)]
    pub fn script(&self) -> Option<ShortPiece>
        requires { AreWords self.now }
        ensures { result ≡ (value_of self.now).script }
    {
        if !self.has_script {
            return None;
        }
        let at = self.language + 1;
        Some(piece_of(&self.bytes.as_array()[at..at + 4]))
    }

    /// The region, if there is one.
    #[inline(always)]
    pub fn region(&self) -> Option<ShortPiece>
        requires words { AreWords self.now }
        requires value { IsIdentifierValue languages (value_of self.now) }
        ensures { result ≡ (value_of self.now).region }
    {
        if self.region == 0 {
            return None;
        }
        let bytes = self.bytes.as_array();
        let at = self.len - self.region;
        let two = bytes[at] as u64 + ((bytes[at + 1] as u64) << 8);
        if self.region == 2 {
            return Some(ShortPiece::of_number(two));
        }
        Some(ShortPiece::of_number(two + ((bytes[at + 2] as u64) << 16)))
    }
}

#[inline(always)]
fn piece_of(bytes: &[u8]) -> ShortPiece
    requires { length bytes.now ≤ 8 }
    ensures { result ≡ bytes.now }
{
    ShortPiece::of(bytes).unwrap()
}
