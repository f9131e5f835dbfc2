//! What a region and a subdivision stand for together.
ghost use Rattle.std.specs.Prelude.{◌≡◌, MatchResult, Some, None};
ghost use Rattle.iloc_spec_parts.specs.DataLocales as parts;
ghost use Rattle.iloc_spec_parts.specs.DataLocales.{named_subdivision, small_part};
ghost use Rattle.iloc_spec_parts.specs.Preferences.{preferred_region, same_region};

use iloc_keyword_types::SubdivisionId;
use iloc_langid::SmallKeyword;
use iloc_subtags::{ParseError, Region, SubdivisionSuffix, Subtag};

// The suffix that stands for a whole region.
#[tactic(auto, unfolding(iloc_spec_grammar::specs::Syntax::is_word, iloc_spec_grammar::specs::Syntax::lower))]
fn whole() -> SubdivisionSuffix
    ensures { result ≡ parts.whole }
{
    match SubdivisionSuffix::try_from_utf8(b"zzzz") {
        Ok(suffix) => suffix,
        Err(_) => unreachable!(),
    }
}

/// The whole of the region.
pub fn whole_region(region: Region) -> SubdivisionId
    ensures { result ≡ parts.whole_region region }
{
    SubdivisionId::new(region, whole())
}

/// Whether it is the whole of its region.
#[tactic(auto, using(crate::proofs::RegionLemmas::words_tie))]
pub fn is_whole(id: &SubdivisionId) -> bool
    ensures { result ≡ parts.is_whole id.now }
{
    id.suffix.as_str() == "zzzz"
}

/// The subdivision that the word names.
pub fn named(word: &Subtag) -> Option<SubdivisionId>
    ensures { result ≡ named_subdivision word.now }
{
    SubdivisionId::try_from_str(word.as_str()).ok()
}

/// The given region if it differs from the subdivision's, else the subdivision; and whether the two agree.
#[tactic(auto, using(crate::proofs::RegionLemmas::words_tie))]
pub fn agreed(region: Option<Region>, id: SubdivisionId) -> (SubdivisionId, bool)
    ensures part { result.0 ≡ parts.agreed region id }
    ensures agrees { result.1 ≡ same_region region (Some id) }
{
    let Some(region) = region else {
        return (id, true);
    };
    if region == id.region {
        return (id, true);
    }
    (whole_region(region), false)
}

/// The subdivision if it is of the given region or none is given, and else the region as a whole. And whether
/// the two agree, if both are there.
pub fn preferred(region: Option<Region>, id: Option<SubdivisionId>) -> (Option<SubdivisionId>, bool)
    ensures part { result.0 ≡ preferred_region region id }
    ensures agrees { result.1 ≡ same_region region id }
{
    let Some(id) = id else {
        return (region.map(whole_region), true);
    };
    let (part, agrees) = agreed(region, id);
    (Some(part), agrees)
}

/// The region part that a region and a keyword name. No keyword but `sd` with a readable subdivision is taken;
/// another is refused with `InvalidExtension`.
#[tactic(auto, using(crate::proofs::RegionLemmas::words_tie))]
pub fn part_of(
    region: Option<Region>,
    keyword: Option<SmallKeyword>,
) -> Result<Option<SubdivisionId>, ParseError>
    ensures { MatchResult result
        (λ part. small_part region keyword ≡ Some part)
        (λ e. (e ≡ ParseError.InvalidExtension) × (small_part region keyword ≡ None)) }
{
    let Some((key, value)) = keyword else {
        return Ok(region.map(whole_region));
    };
    if key.as_str() != "sd" {
        return Err(ParseError::InvalidExtension);
    }
    match value.as_ref().and_then(named) {
        Some(id) => Ok(Some(agreed(region, id).0)),
        None => Err(ParseError::InvalidExtension),
    }
}
