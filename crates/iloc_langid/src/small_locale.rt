//! Parses small locales from the left, in one walk.
ghost use Rattle.std.specs.Prelude.{◌≡◌, []};
ghost use Rattle.iloc_spec_grammar.specs.Syntax.{code_u};
ghost use Rattle.iloc_subtags.specs.Left.{left};
ghost use Rattle.iloc_langid.specs.SmallLocaleReads.{SmallLocaleTextReads};
ghost use Rattle.iloc_langid.specs.BlockReads.{
  answer_of,
  block_result,
  refusal_without_key,
  value_result,
};

use crate::reader::short_parts;
use crate::small::read_small_front;
use iloc_subtags::{
    Attribute, AttributeKind, Language, ParseError, Region, Script, Subtag, SubtagIterator,
    UnicodeKey, UnicodeKeyKind, Variant, is_at_block, subtag_of, take_byte, take_word,
};
use iloc_word_list::spells_true;

/// A keyword: a key and its value, which is absent if it would be `true`.
pub type SmallKeyword = (UnicodeKey, Option<Subtag>);

/// A language, and perhaps a script, a region, a variant and a keyword.
pub type SmallLocaleParts = (
    Language,
    Option<Script>,
    Option<Region>,
    Option<Variant>,
    Option<SmallKeyword>,
);

/// The parts of a locale with at most one variant and one keyword of at most one value besides `true`, read
/// from all of the text without allocating.
///
/// Refuses with `InvalidLanguage` if the first piece is no language, and with `InvalidSubtag` if its
/// head is otherwise no such identifier. After the head it refuses with `InvalidExtension` a singleton that
/// is no letter or digit, and a `u` that neither a key nor an attribute follows; and with `InvalidSubtag`
/// everything else.
#[inline(always)]
pub fn read_small_locale(code_units: &[u8]) -> Result<SmallLocaleParts, ParseError>
    ensures { SmallLocaleTextReads code_units.now result }
{
    if let Some(plain) = short_parts(code_units)? {
        return Ok((plain.language, plain.script, plain.region, None, None));
    }
    read_small_pieces(code_units)
}

// Reads the small locale piece by piece.
#[inline(never)]
fn read_small_pieces(code_units: &[u8]) -> Result<SmallLocaleParts, ParseError>
    ensures { SmallLocaleTextReads code_units.now result }
{
    let mut iter = SubtagIterator::new(code_units);
    let (language, script, region, variant) = read_small_front(&mut iter)?;
    if !is_at_block(&iter) {
        return Err(ParseError::InvalidSubtag);
    }
    let Some(singleton) = take_byte(&mut iter) else {
        return Ok((language, script, region, variant, None));
    };
    let keyword = read_block(singleton, &mut iter)?;
    Ok((language, script, region, variant, Some(keyword)))
}

// Parses all that follows the singleton.
#[tactic(auto, using(crate::proofs::BlockLemmas::singletons))]
fn read_block(singleton: u8, iter: &mut SubtagIterator<'_>) -> Result<SmallKeyword, ParseError>
    ensures { result ≡ answer_of (block_result singleton (left iter.old)) }
{
    match singleton {
        b'u' | b'U' => read_keyword(iter),
        _ if singleton.is_ascii_alphanumeric() => Err(ParseError::InvalidSubtag),
        _ => Err(ParseError::InvalidExtension),
    }
}

// Parses all that follows `u`.
#[tactic(auto, using(crate::proofs::BlockLemmas::keys))]
fn read_keyword(iter: &mut SubtagIterator<'_>) -> Result<SmallKeyword, ParseError>
    ensures { result ≡ answer_of (block_result code_u (left iter.old)) }
{
    let Some(key) = take_word::<UnicodeKeyKind, 2>(iter) else {
        return Err(refusal_of_keyless(iter));
    };
    let value = read_value(iter)?;
    Ok((key, value))
}

// The refusal of pieces after `u` that begin with no key.
#[tactic(auto, using(crate::proofs::BlockLemmas::no_attribute))]
fn refusal_of_keyless(iter: &mut SubtagIterator<'_>) -> ParseError
    ensures { result ≡ refusal_without_key (left iter.old) }
{
    match take_word::<AttributeKind, 8>(iter) {
        Some(_) => ParseError::InvalidSubtag,
        None => ParseError::InvalidExtension,
    }
}

// Parses the value that all the pieces left are; `None` if each of them is `true`.
#[tactic(auto, using(crate::proofs::ValueLemmas::values, iloc_spec_grammar::proofs::WellRead::attribute_is_subtag))]
fn read_value(iter: &mut SubtagIterator<'_>) -> Result<Option<Subtag>, ParseError>
    ensures { result ≡ answer_of (value_result [] (left iter.old)) }
{
    let mut value = None;
    for piece in iter {
        let Ok(word) = Attribute::try_from_utf8(piece) else {
            return Err(ParseError::InvalidSubtag);
        };
        if spells_true(&word) {
            continue;
        }
        if value.is_some() {
            return Err(ParseError::InvalidSubtag);
        }
        value = Some(subtag_of(&word));
    }
    Ok(value)
}
