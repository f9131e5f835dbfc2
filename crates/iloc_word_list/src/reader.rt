//! Parses values from pieces.
ghost use Rattle.std.specs.Prelude.{◌≡◌, ◌≤◌, ⊤, List, length, map, Ok, Err, IfOk, OnOk, OnErr, IsOk};
ghost use Rattle.iloc_spec_grammar.specs.Syntax.{Text, Attribute, Subtag, is_word, normal};
ghost use Rattle.iloc_spec_grammar.specs.Values.{IsNormal};
ghost use Rattle.iloc_spec_grammar.specs.Meaning.{normal_values, Fault};
ghost use Rattle.iloc_spec_grammar.specs.Reading.{passing, past};
ghost use Rattle.iloc_subtags.specs.Left.{left};
ghost use Rattle.iloc_memory.specs.Refusals.{RefusedWithin};
ghost use Rattle.iloc_word_list.specs.Values.{without_true};
ghost use Rattle.iloc_spec_parts.specs.PartValues.{unicode_value};
ghost use Rattle.iloc_subtags.specs.Judging.{Accepts, Refuses, RunsOutOnlyIf};
ghost use Rattle.iloc_word_list.specs.Reads.{ValueTextReads, ValueTextWants};

use crate::value::Value;
use iloc_memory::Memory;
use iloc_subtags::{
    AttributeKind, ParseError, SubtagIterator, SubtagKind, WordKind, subtag_of, take_word,
};
use std::alloc::{AllocError, Global};

impl Value {
    /// Parses all pieces of the text as subtags, of which `true` is dropped; the empty text is the
    /// empty value. Refuses any other piece by `InvalidSubtag`.
    pub fn try_from_utf8(alloc: Global, code_units: &[u8]) -> Result<Self, ParseError>
        ensures reads { ValueTextReads code_units.now result }
        ensures accepted { (v : List Text) → unicode_value code_units.now ≡ Ok v
            → Accepts (λ v. v) ⊤ v result }
        ensures refused { (f : Fault) → unicode_value code_units.now ≡ Err f
            → Refuses ⊤ f result }
        ensures memory { RunsOutOnlyIf (ValueTextWants code_units.now) result }
    {
        Self::try_from_utf8_in(alloc, code_units)
    }

    /// As `try_from_utf8`, from any memory. `OutOfMemory` comes only if room for at most as many subtags as the text
    /// has bytes was refused.
    pub fn try_from_utf8_in<M: Memory>(memory: M, code_units: &[u8]) -> Result<Self, ParseError>
        ensures reads { ValueTextReads code_units.now result }
        ensures accepted { (v : List Text) → unicode_value code_units.now ≡ Ok v
            → Accepts (λ v. v) ⊤ v result }
        ensures refused { (f : Fault) → unicode_value code_units.now ≡ Err f
            → Refuses ⊤ f result }
        ensures memory { RunsOutOnlyIf (ValueTextWants code_units.now) result }
        ensures out_of_memory { RunsOutOnlyIf
            (RefusedWithin M.refused (length code_units.now)) result }
    {
        Self::read_text(memory, code_units)
    }

    // Parses the value. Its clauses say what is read and when memory runs out; the others follow from them.
    fn read_text<M: Memory>(memory: M, code_units: &[u8]) -> Result<Self, ParseError>
        ensures reads { ValueTextReads code_units.now result }
        ensures memory { RunsOutOnlyIf (ValueTextWants code_units.now) result }
        ensures out_of_memory { RunsOutOnlyIf
            (RefusedWithin M.refused (length code_units.now)) result }
    {
        if code_units.is_empty() {
            return Ok(Value::new_empty());
        }
        let mut iter = SubtagIterator::new(code_units);
        let value = read_words::<SubtagKind, M>(memory, &mut iter)?;
        match iter.peek() {
            Some(_) => Err(ParseError::InvalidSubtag),
            None => Ok(value),
        }
    }

    /// Parses a `str`, as `try_from_utf8` parses bytes.
    pub fn try_from_str(alloc: Global, s: &str) -> Result<Self, ParseError>
        ensures reads { ValueTextReads s.now result }
        ensures accepted { (v : List Text) → unicode_value s.now ≡ Ok v
            → Accepts (λ v. v) ⊤ v result }
        ensures refused { (f : Fault) → unicode_value s.now ≡ Err f
            → Refuses ⊤ f result }
        ensures memory { RunsOutOnlyIf (ValueTextWants s.now) result }
    {
        Value::try_from_utf8_in(alloc, s.as_bytes())
    }

    /// Parses a `str`, as `try_from_utf8_in` parses bytes.
    pub fn try_from_str_in<M: Memory>(memory: M, s: &str) -> Result<Self, ParseError>
        ensures reads { ValueTextReads s.now result }
        ensures accepted { (v : List Text) → unicode_value s.now ≡ Ok v
            → Accepts (λ v. v) ⊤ v result }
        ensures refused { (f : Fault) → unicode_value s.now ≡ Err f
            → Refuses ⊤ f result }
        ensures memory { RunsOutOnlyIf (ValueTextWants s.now) result }
        ensures out_of_memory { RunsOutOnlyIf (RefusedWithin M.refused (length s.now)) result }
    {
        Value::try_from_utf8_in(memory, s.as_bytes())
    }
}

/// Parses the longest front of pieces that values are made of: 3 to 8 letters or digits. Up to four
/// besides `true` allocate nothing.
pub fn read_value(alloc: Global, iter: &mut SubtagIterator<'_>) -> Result<Value, AllocError>
    ensures value { IfOk result
        (λ v. v ≡ normal_values (passing (is_word Attribute) (left iter.old))) }
    ensures rest { OnOk result (left iter.new ≡ past (is_word Attribute) (left iter.old)) }
    ensures succeeds { length (normal_values (passing (is_word Attribute) (left iter.old))) ≤ 4
        → IsOk result }
{
    read_value_in(alloc, iter)
}

/// As `read_value`, from any memory. Refusal: `AllocError`, only if room for at most all the subtags was refused.
#[tactic(auto, using(iloc_spec_grammar::proofs::WellRead::attribute_is_subtag))]
pub fn read_value_in<M: Memory>(
    memory: M,
    iter: &mut SubtagIterator<'_>,
) -> Result<Value, AllocError>
    ensures value { IfOk result
        (λ v. v ≡ normal_values (passing (is_word Attribute) (left iter.old))) }
    ensures rest { OnOk result (left iter.new ≡ past (is_word Attribute) (left iter.old)) }
    ensures succeeds { length (normal_values (passing (is_word Attribute) (left iter.old))) ≤ 4
        → IsOk result }
    ensures out_of_memory { OnErr result (RefusedWithin M.refused
        (length (normal_values (passing (is_word Attribute) (left iter.old))))) }
{
    read_words::<AttributeKind, M>(memory, iter)
}

// Parses the longest front of subtags of a kind, each of which is a `Subtag` too.
fn read_words<K: WordKind<8>, M: Memory>(
    memory: M,
    iter: &mut SubtagIterator<'_>,
) -> Result<Value, AllocError>
    requires { (w : Text) → IsNormal K.kind w → IsNormal Subtag w }
    ensures value { IfOk result
        (λ v. v ≡ without_true (map (normal K.kind) (passing (is_word K.kind) (left iter.old)))) }
    ensures rest { OnOk result (left iter.new ≡ past (is_word K.kind) (left iter.old)) }
    ensures succeeds { length (without_true
        (map (normal K.kind) (passing (is_word K.kind) (left iter.old)))) ≤ 4 → IsOk result }
    ensures out_of_memory { OnErr result (RefusedWithin M.refused (length (without_true
        (map (normal K.kind) (passing (is_word K.kind) (left iter.old)))))) }
{
    let Some(first) = take_word::<K, 8>(iter) else {
        return Ok(Value::new_empty());
    };
    let mut value = Value::from_subtag(Some(subtag_of(&first)));
    'words: while let Some(word) = take_word::<K, 8>(iter) {
        value.push_subtag_in(memory, subtag_of(&word))?;
    }
    Ok(value)
}
