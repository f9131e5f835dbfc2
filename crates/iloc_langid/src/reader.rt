//! Parses identifiers from pieces, with room from any memory.
//!
//! `OutOfMemory` comes only if room for some variants was refused: for at most as many as pieces stand after the first, or
//! as the text has bytes.
ghost use Rattle.std.specs.Prelude.{◌≡◌, ◌<◌, ◌-◌, ◌++◌, [], true, false, length, Ok, IfOk, IfErr, IfSome, OnOk, OnErr};
ghost use Rattle.std.specs.Result.{result_and};
ghost use Rattle.iloc_spec_grammar.specs.Syntax.{pieces, head, languages, Variant, is_word};
ghost use Rattle.iloc_spec_grammar.specs.Meaning.{IdentifierMeans};
ghost use Rattle.iloc_spec_grammar.specs.Reading.{after_head, passing};
ghost use Rattle.iloc_subtags.specs.Left.{left};
ghost use Rattle.iloc_pieces.specs.Front.{HasNoLanguage};
ghost use Rattle.iloc_memory.specs.Refusals.{RefusedWithin};
ghost use Rattle.iloc_subtags.specs.Judging.{RunsOutOnlyIf};
ghost use Rattle.iloc_langid.specs.Reads.{value_of, VariantsReads, FrontComputed, FrontReads, IdentifierReads, IdentifierWantsMemory};
ghost use Rattle.iloc_langid.specs.Unknown.{unknown_identifier};
ghost use Rattle.iloc_langid.specs.PlainReads.{IsPlainFront};

use crate::identifier::LanguageIdentifier;
use crate::plain::{PlainParts, plain_parts, take_plain};
use iloc_memory::Memory;
use iloc_pieces::lanes_begin_with_language;
use iloc_pieces::load::load;
use iloc_subtags::{
    ParseError, SubtagIterator, VariantKind, WordKind, WordOf, is_at_block, next_has_length,
    take_word,
};
use iloc_word_list::{Variants, WordCollector};

// Takes the variants that stand at the front, in place of those before. A set of n variants costs
// n log n, in whatever order they stand.
#[inline(always)]
fn fill_variants<M: Memory>(
    memory: M,
    iter: &mut SubtagIterator<'_>,
    variants: &mut Variants,
) -> Result<(), ParseError>
    ensures reads { VariantsReads (left iter.old) (left iter.new)
        (result_and result (Ok variants.new)) }
    ensures out_of_memory { RunsOutOnlyIf (RefusedWithin M.refused
        (length (passing (is_word Variant) (left iter.old)))) result }
{
    let Some(first) = take_word::<VariantKind, 8>(iter) else {
        if !variants.is_empty() {
            variants.clear();
        }
        return Ok(());
    };
    *variants = Variants::from_variant(first);
    if next_has_length::<VariantKind, 8>(iter) {
        return add_variants(memory, iter, variants);
    }
    Ok(())
}

// Takes the variants that follow those of the set, fewer than four.
#[inline(never)]
fn add_variants<M: Memory>(
    memory: M,
    iter: &mut SubtagIterator<'_>,
    variants: &mut Variants,
) -> Result<(), ParseError>
    requires { length variants.old < 4 }
    ensures reads { VariantsReads (variants.old ++ left iter.old) (left iter.new)
        (result_and result (Ok variants.new)) }
    ensures out_of_memory { RunsOutOnlyIf (RefusedWithin M.refused
        (length (passing (is_word Variant) (variants.old ++ left iter.old)))) result }
{
    variants.as_slice();
    'few: while let Some(variant) = take_word::<VariantKind, 8>(iter) {
        if !variants.push_in(memory, variant)? {
            return Err(ParseError::InvalidSubtag);
        }
        if variants.len() == 4 {
            let four = variants.clear();
            *variants = read_more_variants(memory, iter, four)?;
            return Ok(());
        }
    }
    Ok(())
}

// Takes the variants that follow where these four stood before.
#[inline(never)]
fn read_more_variants<M: Memory>(
    memory: M,
    iter: &mut SubtagIterator<'_>,
    four: Variants,
) -> Result<Variants, ParseError>
    requires { length four ≡ 4 }
    ensures reads { VariantsReads (four ++ left iter.old) (left iter.new) result }
    ensures out_of_memory { RunsOutOnlyIf (RefusedWithin M.refused
        (length (passing (is_word Variant) (four ++ left iter.old)))) result }
{
    four.as_slice();
    let mut words = WordCollector::from_set(four);
    'words: while let Some(variant) = take_word::<VariantKind, 8>(iter) {
        if !words.push_in(memory, variant)? {
            return Err(ParseError::InvalidSubtag);
        }
    }
    let taken = words.len();
    let variants = words.into_set();
    if variants.len() < taken {
        return Err(ParseError::InvalidSubtag);
    }
    Ok(variants)
}

// Parses the subtags at the front, each if it fits.
#[inline(always)]
fn fill<M: Memory>(
    memory: M,
    iter: &mut SubtagIterator<'_>,
    identifier: &mut LanguageIdentifier,
) -> Result<(), ParseError>
    ensures reads { FrontComputed (left iter.old) (left iter.new)
        (result_and result (Ok identifier.new)) }
    ensures out_of_memory { RunsOutOnlyIf
        (RefusedWithin M.refused (length (left iter.old) - 1)) result }
{
    let Some(plain) = take_plain(iter) else {
        return Err(ParseError::InvalidLanguage);
    };
    identifier.language = plain.language;
    identifier.script = plain.script;
    identifier.region = plain.region;
    fill_variants(memory, iter, &mut identifier.variants)
}

/// Parses the longest front of an identifier's subtags.
pub fn read_front<M: Memory>(
    memory: M,
    iter: &mut SubtagIterator<'_>,
) -> Result<LanguageIdentifier, ParseError>
    ensures reads { FrontReads (left iter.old) (left iter.new) result }
    ensures out_of_memory { RunsOutOnlyIf
        (RefusedWithin M.refused (length (left iter.old) - 1)) result }
{
    let mut identifier = LanguageIdentifier::unknown();
    fill_front(memory, iter, &mut identifier)?;
    Ok(identifier)
}

/// Parses the longest front in place of what the identifier was. After a refusal it holds some of its subtags.
pub fn fill_front<M: Memory>(
    memory: M,
    iter: &mut SubtagIterator<'_>,
    identifier: &mut LanguageIdentifier,
) -> Result<(), ParseError>
    ensures reads { FrontReads (left iter.old) (left iter.new)
        (result_and result (Ok identifier.new)) }
    ensures out_of_memory { RunsOutOnlyIf
        (RefusedWithin M.refused (length (left iter.old) - 1)) result }
{
    fill(memory, iter, identifier)
}

/// Parses all the pieces in place of what the identifier was. After a refusal it holds some of its
/// subtags.
#[inline(always)]
pub fn fill_whole<M: Memory>(
    memory: M,
    iter: &mut SubtagIterator<'_>,
    identifier: &mut LanguageIdentifier,
) -> Result<(), ParseError>
    ensures reads { IdentifierReads (left iter.old) (result_and result (Ok identifier.new)) }
    ensures memory { RunsOutOnlyIf (IdentifierWantsMemory (left iter.old)) result }
    ensures rest { OnOk result (left iter.new ≡ []) }
    ensures out_of_memory { RunsOutOnlyIf
        (RefusedWithin M.refused (length (left iter.old) - 1)) result }
{
    fill(memory, iter, identifier)?;
    match iter.peek() {
        Some(_) => Err(ParseError::InvalidSubtag),
        None => Ok(()),
    }
}

/// Parses a text in place of what the identifier was.
#[inline(never)]
pub(crate) fn fill_text<M: Memory>(
    memory: M,
    code_units: &[u8],
    identifier: &mut LanguageIdentifier,
) -> Result<(), ParseError>
    ensures reads { IdentifierReads (pieces code_units.now)
        (result_and result (Ok identifier.new)) }
    ensures memory { RunsOutOnlyIf (IdentifierWantsMemory (pieces code_units.now)) result }
    ensures out_of_memory { RunsOutOnlyIf
        (RefusedWithin M.refused (length code_units.now)) result }
{
    fill_whole(memory, &mut SubtagIterator::new(code_units), identifier)
}

/// Turns an identifier without variants into that of a plain text, if it is one: then it returns `true`. `false` says
/// nothing of the text, and leaves the identifier as it was.
///
/// Refuses with `InvalidLanguage` a text of at most sixteen bytes that begins with no language.
#[inline(always)]
pub fn fill_short(text: &[u8], identifier: &mut LanguageIdentifier) -> Result<bool, ParseError>
    requires { identifier.old.variants ≡ [] }
    ensures answered { IfOk result (λ plain. plain ≡ true
        → IdentifierMeans languages (pieces text.now) (value_of identifier.new)) }
    ensures left { IfOk result (λ plain. plain ≡ false → identifier.new ≡ identifier.old) }
    ensures refused { IfErr result (λ e. (e ≡ ParseError.InvalidLanguage)
        × HasNoLanguage text.now) }
{
    let Some(parts) = short_parts(text)? else {
        return Ok(false);
    };
    identifier.language = parts.language;
    identifier.script = parts.script;
    identifier.region = parts.region;
    Ok(true)
}

/// The subtags of a plain text. `None` says nothing of the text.
///
/// Refuses with `InvalidLanguage` a text of at most sixteen bytes that begins with no language.
#[inline(always)]
pub(crate) fn short_parts(text: &[u8]) -> Result<Option<PlainParts>, ParseError>
    ensures parts { IfOk result (λ plain. IfSome plain (IsPlainFront (pieces text.now) [])) }
    ensures refused { IfErr result (λ e. (e ≡ ParseError.InvalidLanguage)
        × HasNoLanguage text.now) }
{
    if text.len() > 16 {
        return Ok(None);
    }
    let lanes = load(text);
    if let Some(plain) = plain_parts(lanes, text.len()) {
        return Ok(Some(plain));
    }
    if !lanes_begin_with_language(lanes, text.len()) {
        return Err(ParseError::InvalidLanguage);
    }
    Ok(None)
}

/// Parses all of the text in place of what the identifier was, for programs that keep one identifier for many
/// texts. After a refusal it is `und`.
#[inline(always)]
pub fn read_into<M: Memory>(
    memory: M,
    code_units: &[u8],
    identifier: &mut LanguageIdentifier,
) -> Result<(), ParseError>
    ensures reads { IdentifierReads (pieces code_units.now)
        (result_and result (Ok identifier.new)) }
    ensures memory { RunsOutOnlyIf (IdentifierWantsMemory (pieces code_units.now)) result }
    ensures refused { OnErr result (value_of identifier.new ≡ unknown_identifier) }
    ensures out_of_memory { RunsOutOnlyIf
        (RefusedWithin M.refused (length code_units.now)) result }
{
    let answer = fill_whole(memory, &mut SubtagIterator::new(code_units), identifier);
    if answer.is_err() {
        identifier.clear();
    }
    answer
}

/// Parses the pieces up to the first block as an identifier.
pub fn read_head<M: Memory>(
    memory: M,
    iter: &mut SubtagIterator<'_>,
) -> Result<LanguageIdentifier, ParseError>
    ensures reads { IdentifierReads (head (left iter.old)) result }
    ensures memory { RunsOutOnlyIf (IdentifierWantsMemory (head (left iter.old))) result }
    ensures rest { OnOk result (left iter.new ≡ after_head (left iter.old)) }
    ensures out_of_memory { RunsOutOnlyIf
        (RefusedWithin M.refused (length (left iter.old) - 1)) result }
{
    let mut identifier = LanguageIdentifier::unknown();
    fill_head(memory, iter, &mut identifier)?;
    Ok(identifier)
}

/// Parses the pieces up to the first block in place of what the identifier was. After a refusal it holds some of
/// its subtags.
pub fn fill_head<M: Memory>(
    memory: M,
    iter: &mut SubtagIterator<'_>,
    identifier: &mut LanguageIdentifier,
) -> Result<(), ParseError>
    ensures reads { IdentifierReads (head (left iter.old)) (result_and result (Ok identifier.new)) }
    ensures memory { RunsOutOnlyIf (IdentifierWantsMemory (head (left iter.old))) result }
    ensures rest { OnOk result (left iter.new ≡ after_head (left iter.old)) }
    ensures out_of_memory { RunsOutOnlyIf
        (RefusedWithin M.refused (length (left iter.old) - 1)) result }
{
    fill(memory, iter, identifier)?;
    if !is_at_block(iter) {
        return Err(ParseError::InvalidSubtag);
    }
    Ok(())
}
