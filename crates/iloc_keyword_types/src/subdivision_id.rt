//! A subdivision of a region.
ghost use Rattle.std.specs.Prelude.{◌≡◌, Ok, Err, Some};
ghost use Rattle.iloc_spec_grammar.specs.Meaning.{Fault};
ghost use Rattle.iloc_subtags.specs.Judging.{Accepts, Refuses};
ghost use Rattle.iloc_keyword_types.specs.Beginnings.{IsBeginning};
ghost use Rattle.iloc_keyword_types.specs.Cut.{cut_of};
ghost use Rattle.std.proofs.Common.{rules};
ghost use Rattle.std.specs.Cmp.{partial_order_from_own_ties};
ghost use Rattle.std.specs.Cmp.Rules.{comparing};
ghost use Rattle.std.specs.Ordering.{on, then_cmp, as_partial_cmp};
ghost use Rattle.iloc_spec_grammar.specs.Syntax.{word_cmp};

use iloc_subtags::{ParseError, Region, SubdivisionSuffix, Subtag, raw_of_word, subtag_of_normal};
use iloc_tinystr::{ShortPiece, cmp_raw};
use iloc_writeable::{Sink, Writeable};
use std::cmp::{Ordering, min};
use std::fmt;
use std::marker::Model;
use std::str::FromStr;

/// A subdivision of a region, as `ustx`. Contracts see it as the definitions' subdivision.
#[derive(Clone, Copy, Debug, PartialEq, Eq, Hash)]
pub struct SubdivisionId {
    pub region: Region,
    pub suffix: SubdivisionSuffix,
}

impl Model for SubdivisionId {
    ghost use Rattle.iloc_spec_parts.specs.Subdivisions.{Subdivision};

    ghost Value = { Subdivision };

    ghost view = { λ s. record { region = s.region; suffix = s.suffix } };

    ghost inverse = { λ s. record { region = s.region; suffix = s.suffix } };
}

impl SubdivisionId {
    ghost use Rattle.iloc_spec_parts.specs.Subdivisions.{Subdivision, subdivision, subdivision_text};
    ghost use Rattle.iloc_keyword_types.specs.Subdivisions.{SubdivisionTextReads};

    /// The subdivision of that region with that suffix.
    pub fn new(region: Region, suffix: SubdivisionSuffix) -> Self
        ensures region { result.region ≡ region }
        ensures suffix { result.suffix ≡ suffix }
    {
        SubdivisionId { region, suffix }
    }

    /// Parses a subtag as a region of two bytes if it begins with a letter, and of three if it begins
    /// with a digit, and then the suffix. What is no subtag is refused by `InvalidSubtag`, a bad region or
    /// suffix by `InvalidExtension`.
    pub fn try_from_utf8(code_units: &[u8]) -> Result<Self, ParseError>
        ensures reads { SubdivisionTextReads code_units.now result }
        ensures accepted { (id : Subdivision) → subdivision code_units.now ≡ Ok id
            → Accepts (λ id. id) ⊥ id result }
        ensures refused { (f : Fault) → subdivision code_units.now ≡ Err f → Refuses ⊥ f result }
    {
        Self::read_text(code_units)
    }

    // Parses the subdivision. Its clause says what is read; the others follow from it.
    fn read_text(code_units: &[u8]) -> Result<Self, ParseError>
        ensures { SubdivisionTextReads code_units.now result }
    {
        let _subtag = Subtag::try_from_utf8(code_units)?;
        let (region, suffix) = code_units.split_at(region_length(code_units));
        let Ok(region) = Region::try_from_utf8(region) else {
            return Err(ParseError::InvalidExtension);
        };
        let suffix = SubdivisionSuffix::try_from_utf8(suffix)?;
        Ok(SubdivisionId { region, suffix })
    }

    /// Parses a `str`, as `try_from_utf8` parses bytes.
    pub fn try_from_str(s: &str) -> Result<Self, ParseError>
        ensures reads { SubdivisionTextReads s.now result }
        ensures accepted { (id : Subdivision) → subdivision s.now ≡ Ok id
            → Accepts (λ id. id) ⊥ id result }
        ensures refused { (f : Fault) → subdivision s.now ≡ Err f → Refuses ⊥ f result }
    {
        SubdivisionId::try_from_utf8(s.as_bytes())
    }

    /// Region and suffix in lower case, one after the other. Reading that text gives the subdivision back.
    pub fn into_subtag(self) -> Subtag
        ensures text { result ≡ subdivision_text self }
        ensures back { subdivision (subdivision_text self) ≡ Ok self }
    {
        // Letters of a region are among its first two bytes.
        let region = ShortPiece::of_number(self.region.to_piece().number() | 0x2020);
        subtag_of_normal(region.concat(self.suffix.to_piece()))
    }

    // The first four bytes: those of the region, and the first one of the suffix.
    #[inline(always)]
    fn beginning(&self) -> [u8; 4]
        ensures { IsBeginning self.now.region self.now.suffix result }
    {
        let region = raw_of_word(&self.region);
        let suffix = raw_of_word(&self.suffix);
        [region[0], region[1], region[2], suffix[0]]
    }
}

/// By region, and then by suffix. Most differ in the first four bytes, compared as one number.
impl Ord for SubdivisionId {
    ghost cmp = { then_cmp (on (λ s. s.region) word_cmp) (on (λ s. s.suffix) word_cmp) };

    ghost total = { Prim.search (comparing, rules) };

    ghost matches_partial_cmp = { Prim.search (comparing, rules) };

    ghost matches_eq = { Prim.search (comparing, rules) };

    fn cmp(&self, other: &Self) -> Ordering {
        match cmp_raw::<4>(&self.beginning(), &other.beginning()) {
            Ordering::Equal => self.suffix.cmp(&other.suffix),
            different => different,
        }
    }
}

impl PartialOrd for SubdivisionId {
    ghost partial_cmp = { as_partial_cmp
        (then_cmp (on (λ s. s.region) word_cmp) (on (λ s. s.suffix) word_cmp)) };

    ghost laws = { partial_order_from_own_ties (Prim.search (comparing, rules))
        (Prim.search (comparing, rules)) };

    fn partial_cmp(&self, other: &Self) -> Option<Ordering> {
        Some(self.cmp(other))
    }
}

// How many bytes of the text stand for the region.
fn region_length(code_units: &[u8]) -> usize
    ensures { result ≡ cut_of code_units.now }
{
    match code_units.first() {
        Some(first) if first.is_ascii_alphabetic() => min(2, code_units.len()),
        _ => min(3, code_units.len()),
    }
}

impl FromStr for SubdivisionId {
    type Err = ParseError;

    ghost use Rattle.iloc_keyword_types.specs.Subdivisions.{SubdivisionTextReads};

    ghost from_str_gives = { SubdivisionTextReads };

    fn from_str(s: &str) -> Result<Self, ParseError> {
        SubdivisionId::try_from_str(s)
    }
}

/// Prints region and suffix in lower case, without a hyphen.
impl Writeable for SubdivisionId {
    ghost use Rattle.iloc_spec_parts.specs.Subdivisions.{subdivision_text};

    ghost text = { subdivision_text };

    fn write_to<S: Sink>(&self, sink: &mut S) -> fmt::Result {
        sink.write_str(self.into_subtag().as_str())
    }

    fn writeable_borrow(&self) -> Option<&str> {
        None
    }
}

impl fmt::Display for SubdivisionId {
    ghost use Rattle.iloc_spec_parts.specs.Subdivisions.{subdivision_text};

    ghost output = { λ s. Some (subdivision_text s) };

    fn fmt<W: fmt::Write>(&self, f: &mut fmt::Formatter<W>) -> fmt::Result {
        self.write_to(f)
    }
}
