//! Identifiers with at most one variant, which are parsed without allocating.
ghost use Rattle.std.specs.Prelude.{IfOk};
ghost use Rattle.iloc_spec_grammar.specs.Syntax.{pieces, languages};
ghost use Rattle.iloc_spec_grammar.specs.Meaning.{IdentifierMeans, Fault};
ghost use Rattle.iloc_spec_parts.specs.Small.{
  SmallIdentifier,
  IsSmallIdentifier,
  HasSmallIdentifierFault,
  identifier_of_small,
};
ghost use Rattle.iloc_subtags.specs.Judging.{Accepts, Refuses};
ghost use Rattle.iloc_subtags.specs.Left.{left};
ghost use Rattle.iloc_langid.specs.SmallReads.{SmallFrontReads, SmallReads, small_of};

use crate::identifier::LanguageIdentifier;
use crate::plain::take_plain;
use iloc_subtags::{
    Language, ParseError, Region, Script, SubtagIterator, Variant, VariantKind, take_word,
};

/// A language, and perhaps a script, a region and one variant.
pub type SmallParts = (Language, Option<Script>, Option<Region>, Option<Variant>);

/// Takes the subtags at the front, each if it fits, and one variant at most. `InvalidLanguage` if the
/// first piece is no language.
#[inline(always)]
pub fn read_small_front(iter: &mut SubtagIterator<'_>) -> Result<SmallParts, ParseError>
    ensures { SmallFrontReads (left iter.old) (left iter.new) result }
{
    let Some(plain) = take_plain(iter) else {
        return Err(ParseError::InvalidLanguage);
    };
    let variant = take_word::<VariantKind, 8>(iter);
    Ok((plain.language, plain.script, plain.region, variant))
}

impl LanguageIdentifier {
    /// The parts of an identifier with at most one variant, parsed from all of the text without allocating.
    /// They are those of the identifier that the text means.
    ///
    /// Refuses with `InvalidLanguage` if the first piece is no language, and with `InvalidSubtag` for
    /// anything else, a second variant among it, even an equal one.
    pub fn try_from_utf8_with_single_variant(code_units: &[u8]) -> Result<SmallParts, ParseError>
        ensures reads { SmallReads (pieces code_units.now) result }
        ensures accepted { (r : SmallIdentifier)
            → IsSmallIdentifier languages (pieces code_units.now) r
            → Accepts small_of ⊥ r result }
        ensures refused { (f : Fault) → HasSmallIdentifierFault languages (pieces code_units.now) f
            → Refuses ⊥ f result }
        ensures meant { IfOk result (λ parts. IdentifierMeans languages (pieces code_units.now)
            (identifier_of_small (small_of parts))) }
    {
        read_small_whole(code_units)
    }
}

// Takes all of the text.
fn read_small_whole(code_units: &[u8]) -> Result<SmallParts, ParseError>
    ensures { SmallReads (pieces code_units.now) result }
{
    let mut iter = SubtagIterator::new(code_units);
    let parts = read_small_front(&mut iter)?;
    match iter.peek() {
        Some(_) => Err(ParseError::InvalidSubtag),
        None => Ok(parts),
    }
}
