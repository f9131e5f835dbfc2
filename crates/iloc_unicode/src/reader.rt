//! Parses attributes, keywords and the whole extension from pieces.
ghost use Rattle.std.specs.Prelude.{◌≡◌, ◌≤◌, ◌++◌, [], length, Ok, IfOk, OnOk, OnErr, IsOk};
ghost use Rattle.std.specs.Result.{result_and};
ghost use Rattle.iloc_memory.specs.Refusals.{RefusedWithin};
ghost use Rattle.iloc_spec_grammar.specs.Syntax.{code_u};
ghost use Rattle.iloc_spec_grammar.specs.Reading.{rest_of};
ghost use Rattle.iloc_spec_parts.specs.Fronts.{attributes_front, attributes_read, after_attributes, keywords_front};
ghost use Rattle.iloc_subtags.specs.Judging.{RunsOutOnlyIf};
ghost use Rattle.iloc_subtags.specs.Left.{left};
ghost use Rattle.iloc_spec_parts.specs.Parts.{begins_part, is_letter};
ghost use Rattle.iloc_unicode.specs.Reads.{KeywordsReads, KeywordsFills, KeywordsWantMemory};
ghost use Rattle.iloc_unicode.specs.UnicodeReads.{UnicodeReads, UnicodeFills, UnicodeWantsMemory};

use crate::attributes::Attributes;
use crate::keywords::Keywords;
use crate::unicode::Unicode;
use iloc_memory::Memory;
use iloc_subtags::{
    AttributeKind, ParseError, SubtagIterator, UnicodeKeyKind, next_has_length, take_byte,
    take_word,
};
use iloc_word_list::reader::read_value_in;
use iloc_word_list::{WordCollector, WordSet};
use std::alloc::AllocError;

impl Attributes {
    /// Parses the longest front of attribute subtags, as a set, from any memory. Up to four different attributes allocate
    /// nothing, and n subtags cost n log n, in whatever order they stand. Refusal: `AllocError`, only if room for at most
    /// all of them was refused.
    pub fn try_from_iter<M: Memory>(
        memory: M,
        iter: &mut SubtagIterator<'_>,
    ) -> Result<Self, AllocError>
        ensures value { IfOk result (λ a. a ≡ attributes_read (left iter.old)) }
        ensures rest { OnOk result (left iter.new ≡ after_attributes (left iter.old)) }
        ensures succeeds { length (attributes_read (left iter.old)) ≤ 4 → IsOk result }
        ensures out_of_memory { OnErr result
            (RefusedWithin M.refused (length (attributes_front (left iter.old)))) }
    {
        let mut attributes = WordSet::new();
        'few: while let Some(word) = take_word::<AttributeKind, 8>(iter) {
            attributes.push_in(memory, word)?;
            if attributes.len() == 4 {
                return read_more_attributes(memory, iter, attributes);
            }
        }
        Ok(Attributes::from_set(attributes))
    }
}

// Parses the attributes into the empty set. After a refusal it is still empty.
#[inline(always)]
fn fill_attributes<M: Memory>(
    memory: M,
    iter: &mut SubtagIterator<'_>,
    attributes: &mut Attributes,
) -> Result<(), AllocError>
    requires { attributes.old ≡ [] }
    ensures value { OnOk result (attributes.new ≡ attributes_read (left iter.old)) }
    ensures rest { OnOk result (left iter.new ≡ after_attributes (left iter.old)) }
    ensures succeeds { length (attributes_read (left iter.old)) ≤ 4 → IsOk result }
    ensures err { OnErr result (attributes.new ≡ []) }
    ensures out_of_memory { OnErr result
        (RefusedWithin M.refused (length (attributes_front (left iter.old)))) }
{
    if next_has_length::<AttributeKind, 8>(iter) {
        return read_attributes(memory, iter, attributes);
    }
    Ok(())
}

// Parses the attributes in place of those before. It stands apart, so that an extension of keywords alone pays nothing
// for it.
#[inline(never)]
fn read_attributes<M: Memory>(
    memory: M,
    iter: &mut SubtagIterator<'_>,
    attributes: &mut Attributes,
) -> Result<(), AllocError>
    ensures value { OnOk result (attributes.new ≡ attributes_read (left iter.old)) }
    ensures rest { OnOk result (left iter.new ≡ after_attributes (left iter.old)) }
    ensures succeeds { length (attributes_read (left iter.old)) ≤ 4 → IsOk result }
    ensures err { OnErr result (attributes.new ≡ attributes.old) }
    ensures out_of_memory { OnErr result
        (RefusedWithin M.refused (length (attributes_front (left iter.old)))) }
{
    *attributes = Attributes::try_from_iter(memory, iter)?;
    Ok(())
}

// Takes the attributes that follow where these four stood before.
#[inline(never)]
fn read_more_attributes<M: Memory>(
    memory: M,
    iter: &mut SubtagIterator<'_>,
    four: WordSet<AttributeKind, 8>,
) -> Result<Attributes, AllocError>
    requires { length four ≡ 4 }
    ensures value { IfOk result (λ a. a ≡ attributes_read (four ++ left iter.old)) }
    ensures rest { OnOk result (left iter.new ≡ after_attributes (four ++ left iter.old)) }
    ensures succeeds { length (attributes_read (four ++ left iter.old)) ≤ 4 → IsOk result }
    ensures out_of_memory { OnErr result
        (RefusedWithin M.refused (length (attributes_front (four ++ left iter.old)))) }
{
    four.as_slice();
    let mut words = WordCollector::from_set(four);
    'words: while let Some(word) = take_word::<AttributeKind, 8>(iter) {
        words.push_in(memory, word)?;
    }
    Ok(Attributes::from_set(words.into_set()))
}

impl Keywords {
    /// Parses the longest front of keys with their values; of equal keys the first stays. A piece of two
    /// bytes there that is no key is refused by `InvalidExtension`. One key with up to four subtags
    /// allocates nothing. `OutOfMemory` comes only if the memory refused room for at most as many items as the keywords
    /// have pieces.
    pub fn try_from_iter<M: Memory>(
        memory: M,
        iter: &mut SubtagIterator<'_>,
    ) -> Result<Self, ParseError>
        ensures reads { KeywordsReads (left iter.old) (left iter.new) result }
        ensures memory { RunsOutOnlyIf (KeywordsWantMemory (left iter.old)) result }
        ensures out_of_memory { RunsOutOnlyIf
            (RefusedWithin M.refused (length (keywords_front (left iter.old)))) result }
    {
        let mut keywords = Keywords::new();
        fill_keywords(memory, iter, &mut keywords)?;
        Ok(keywords)
    }
}

// Parses the keywords into the empty map. After a refusal it holds the keywords before the fault.
fn fill_keywords<M: Memory>(
    memory: M,
    iter: &mut SubtagIterator<'_>,
    keywords: &mut Keywords,
) -> Result<(), ParseError>
    requires { keywords.old ≡ [] }
    ensures reads { KeywordsFills (left iter.old) (left iter.new)
        (result_and result (Ok keywords.new)) }
    ensures out_of_memory { RunsOutOnlyIf
        (RefusedWithin M.refused (length (keywords_front (left iter.old)))) result }
{
    'keys: while let Some(key) = take_word::<UnicodeKeyKind, 2>(iter) {
        let value = read_value_in(memory, iter)?;
        keywords.add(memory, key, value)?;
    }
    if next_has_length::<UnicodeKeyKind, 2>(iter) {
        return Err(ParseError::InvalidExtension);
    }
    Ok(())
}

impl Unicode {
    /// Parses what follows `u`: attributes, and then keywords, not both empty, which is refused by
    /// `InvalidExtension`. `OutOfMemory` comes only if the memory refused room for at most as many items as there are
    /// pieces.
    pub fn try_from_iter<M: Memory>(
        memory: M,
        iter: &mut SubtagIterator<'_>,
    ) -> Result<Self, ParseError>
        ensures reads { UnicodeReads (left iter.old) (left iter.new) result }
        ensures memory { RunsOutOnlyIf (UnicodeWantsMemory (left iter.old)) result }
        ensures out_of_memory { RunsOutOnlyIf
            (RefusedWithin M.refused (length (left iter.old))) result }
    {
        let mut unicode = Unicode::new();
        fill_unicode(memory, iter, &mut unicode)?;
        Ok(unicode)
    }
}

/// Parses what follows `u` into an empty extension, for parsers of whole locales. After a refusal it holds what was
/// parsed before the fault. `OutOfMemory` comes only if the memory refused room for at most as many items as there are
/// pieces.
#[inline(always)]
pub fn fill_unicode<M: Memory>(
    memory: M,
    iter: &mut SubtagIterator<'_>,
    unicode: &mut Unicode,
) -> Result<(), ParseError>
    requires keywords { unicode.old.keywords ≡ [] }
    requires attributes { unicode.old.attributes ≡ [] }
    ensures reads { UnicodeFills (left iter.old) (left iter.new)
        (result_and result (Ok unicode.new)) }
    ensures out_of_memory { RunsOutOnlyIf
        (RefusedWithin M.refused (length (left iter.old))) result }
{
    fill_attributes(memory, iter, &mut unicode.attributes)?;
    fill_keywords(memory, iter, &mut unicode.keywords)?;
    if unicode.is_empty() {
        return Err(ParseError::InvalidExtension);
    }
    Ok(())
}

// Takes the next piece, and returns whether it is `u` in either case.
pub(crate) fn takes_u(iter: &mut SubtagIterator<'_>) -> bool
    ensures u { result ≡ begins_part (is_letter code_u) (left iter.old) }
    ensures rest { left iter.new ≡ rest_of (left iter.old) }
{
    match take_byte(iter) {
        Some(letter) => letter.to_ascii_lowercase() == b'u',
        None => false,
    }
}
