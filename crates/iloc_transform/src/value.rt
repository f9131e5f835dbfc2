//! The value of a transform field.
ghost use Rattle.std.specs.Prelude.{◌≡◌, ⊤, ◌<◌, ◌+◌, ◌++◌, ◌∷◌, [], length, false, ℕ, List, Ok, Err, OnOk, OnErr, IfOk, IfErr, IsOk, Some, if◌then◌else◌};
ghost use Rattle.std.specs.List.{AllByRecursion};
ghost use Rattle.iloc_spec_grammar.specs.Syntax.{Text, pieces, Attribute as the_kind, is_true};
ghost use Rattle.iloc_spec_grammar.specs.Values.{field_value_text, spelled_value};
ghost use Rattle.iloc_subtags.specs.Left.{left};
ghost use Rattle.iloc_spec_grammar.specs.Meaning.{Fault, normal_values};
ghost use Rattle.iloc_spec_parts.specs.Fronts.{attributes_front};
ghost use Rattle.iloc_spec_parts.specs.PartValues.{transform_value};
ghost use Rattle.iloc_subtags.specs.Judging.{Accepts, Refuses, RunsOutOnlyIf};
ghost use Rattle.iloc_memory.specs.Refusals.{RefusedWithin};
ghost use Rattle.iloc_transform.specs.ValueReading.{IsValueWord, FieldValueReads, FieldValueTextReads, FieldValueTextWants};

use iloc_copying::{Copied, Copying, FromMemory, FromOwn};
use iloc_memory::Memory;
use iloc_shortvec::ShortWords;
use iloc_subtags::{Attribute, AttributeKind, ParseError, SubtagIterator, take_word};
use iloc_word_list::spells_true;
use iloc_writeable::pieces::write_piece;
use iloc_writeable::{Pieces, Sink, Writeable};
use std::alloc::{AllocError, Global};
use std::fmt;
use std::marker::Model;

/// The value of a field: a list of subtags of 3 to 8 letters or digits other than `true`.
///
/// The empty value stands for `true`.
#[derive(Drop, Debug, PartialEq, Eq, PartialOrd, Ord, Hash)]
pub struct Value {
    subtags: ShortWords<Attribute>,
}

impl Model for Value {
    ghost Value = { List (List ℕ) };

    ghost view = { λ v. v.subtags };

    ghost invariant = { λ v. AllByRecursion IsValueWord v.subtags };

    ghost inverse = { λ ws. record { subtags = ws } };
}

impl Value {
    // The empty value.
    fn new() -> Self
        ensures { result ≡ [] }
    {
        Value {
            subtags: ShortWords::new(),
        }
    }

    /// A copy, from any memory. Refusal: `AllocError`, only if room for at most all the subtags was refused.
    pub fn clone_in<M: Memory>(&self, memory: M) -> Result<Self, AllocError>
        ensures value { IfOk result (λ copy. copy ≡ self.now) }
        ensures out_of_memory { OnErr result (RefusedWithin M.refused (length self.now)) }
    {
        self.copied(FromMemory(memory))
    }

    /// The subtags in order.
    pub fn as_slice(&self) -> &[Attribute]
        ensures subtags { result.now ≡ self.now }
        ensures normal { AllByRecursion IsValueWord self.now }
    {
        self.subtags.as_slice()
    }

    /// Parses all pieces, each of 3 to 8 letters or digits, and drops each `true`.
    ///
    /// Anything else is refused with `InvalidExtension`, the empty text too. `OutOfMemory` comes only
    /// if more than four subtags are to be kept. These are the `tvalue`s of UTS #35, section 3.2.
    pub fn try_from_utf8(alloc: Global, code_units: &[u8]) -> Result<Self, ParseError>
        ensures reads { FieldValueTextReads code_units.now result }
        ensures accepted { (v : List Text) → transform_value code_units.now ≡ Ok v
            → Accepts (λ v. v) ⊤ v result }
        ensures refused { (f : Fault) → transform_value code_units.now ≡ Err f
            → Refuses ⊤ f result }
        ensures memory { RunsOutOnlyIf (FieldValueTextWants code_units.now) result }
    {
        Self::try_from_utf8_in(alloc, code_units)
    }

    /// As `try_from_utf8`, from any memory. `OutOfMemory` comes only if room for at most as many subtags as the text
    /// has bytes was refused.
    pub fn try_from_utf8_in<M: Memory>(memory: M, code_units: &[u8]) -> Result<Self, ParseError>
        ensures reads { FieldValueTextReads code_units.now result }
        ensures accepted { (v : List Text) → transform_value code_units.now ≡ Ok v
            → Accepts (λ v. v) ⊤ v result }
        ensures refused { (f : Fault) → transform_value code_units.now ≡ Err f
            → Refuses ⊤ f result }
        ensures memory { RunsOutOnlyIf (FieldValueTextWants code_units.now) result }
        ensures out_of_memory { RunsOutOnlyIf
            (RefusedWithin M.refused (length code_units.now)) result }
    {
        Self::read_text(memory, code_units)
    }

    // Parses the value. Its clauses say what is read and when memory runs out; the others follow from them.
    fn read_text<M: Memory>(memory: M, code_units: &[u8]) -> Result<Self, ParseError>
        ensures reads { FieldValueTextReads code_units.now result }
        ensures memory { RunsOutOnlyIf (FieldValueTextWants code_units.now) result }
        ensures out_of_memory { RunsOutOnlyIf
            (RefusedWithin M.refused (length code_units.now)) result }
    {
        let mut iter = SubtagIterator::new(code_units);
        let value = Value::read_front(memory, &mut iter)?;
        match iter.peek() {
            Some(_) => Err(ParseError::InvalidExtension),
            None => Ok(value),
        }
    }

    /// Parses a `str`, as `try_from_utf8` parses bytes.
    pub fn try_from_str(alloc: Global, s: &str) -> Result<Self, ParseError>
        ensures reads { FieldValueTextReads s.now result }
        ensures accepted { (v : List Text) → transform_value s.now ≡ Ok v
            → Accepts (λ v. v) ⊤ v result }
        ensures refused { (f : Fault) → transform_value s.now ≡ Err f
            → Refuses ⊤ f result }
        ensures memory { RunsOutOnlyIf (FieldValueTextWants s.now) result }
    {
        Self::try_from_utf8_in(alloc, s.as_bytes())
    }

    /// Parses a `str`, as `try_from_utf8_in` parses bytes.
    pub fn try_from_str_in<M: Memory>(memory: M, s: &str) -> Result<Self, ParseError>
        ensures reads { FieldValueTextReads s.now result }
        ensures accepted { (v : List Text) → transform_value s.now ≡ Ok v
            → Accepts (λ v. v) ⊤ v result }
        ensures refused { (f : Fault) → transform_value s.now ≡ Err f
            → Refuses ⊤ f result }
        ensures memory { RunsOutOnlyIf (FieldValueTextWants s.now) result }
        ensures out_of_memory { RunsOutOnlyIf (RefusedWithin M.refused (length s.now)) result }
    {
        Self::try_from_utf8_in(memory, s.as_bytes())
    }

    // Parses the longest front of value pieces, one at least.
    pub(crate) fn read_front<M: Memory>(
        memory: M,
        iter: &mut SubtagIterator<'_>,
    ) -> Result<Self, ParseError>
        ensures reads { FieldValueReads (left iter.old) (left iter.new) result }
        ensures out_of_memory { RunsOutOnlyIf (RefusedWithin M.refused
            (length (normal_values (attributes_front (left iter.old))))) result }
    {
        let mut value = Value::new();
        let Some(first) = take_word::<AttributeKind, 8>(iter) else {
            return Err(ParseError::InvalidExtension);
        };
        value.push(memory, first)?;
        'words: while let Some(word) = take_word::<AttributeKind, 8>(iter) {
            value.push(memory, word)?;
        }
        Ok(value)
    }

    // Adds the subtag at the end, unless it is `true`. Up to four allocate nothing.
    fn push<M: Memory>(&mut self, memory: M, word: Attribute) -> Result<(), ParseError>
        ensures ok { OnOk result (self.new
            ≡ (if is_true word then self.old else self.old ++ word ∷ [])) }
        ensures err { IfErr result (λ e. (e ≡ ParseError.OutOfMemory) × (is_true word ≡ false)) }
        ensures succeeds { length self.old < 4 → IsOk result }
        ensures out_of_memory { OnErr result (RefusedWithin M.refused (length self.old + 1)) }
    {
        let _ = word.as_str();
        if spells_true(&word) {
            return Ok(());
        }
        Ok(self.subtags.push_in(memory, word)?)
    }
}

impl Default for Value {
    ghost is_default = { λ v. v ≡ [] };

    fn default() -> Self {
        Value::new()
    }
}

impl Clone for Value {
    ghost is_clone = { λ v w. w ≡ v };

    fn clone(&self) -> Result<Self, AllocError> {
        self.copied(FromOwn)
    }
}

impl Copied for Value {
    ghost size = { length };

    fn copied<C: Copying>(&self, copying: C) -> Result<Self, AllocError> {
        Ok(Value {
            subtags: self.subtags.copied(copying)?,
        })
    }
}

/// The subtags, or `true` if there is none.
impl Pieces for Value {
    ghost pieces = { spelled_value };

    fn has_pieces(&self) -> bool {
        true
    }

    fn write_pieces<S: Sink>(&self, sink: &mut S, first: bool) -> fmt::Result {
        let subtags = self.as_slice();
        if subtags.is_empty() {
            return write_piece(sink, "true", first);
        }
        subtags.write_pieces(sink, first)
    }
}

/// The subtags with hyphens between them, or `true`, which is lent, if there is none.
impl Writeable for Value {
    ghost text = { field_value_text };

    ghost lends = { λ v. v ≡ [] };

    #[tactic(auto, unfolding(iloc_spec_grammar::specs::Values::field_value_text, iloc_spec_grammar::specs::Syntax::join))]
    fn write_to<S: Sink>(&self, sink: &mut S) -> fmt::Result {
        self.write_joined(sink)
    }

    fn writeable_borrow(&self) -> Option<&str> {
        if self.subtags.is_empty() {
            return Some("true");
        }
        None
    }
}

impl fmt::Display for Value {
    ghost output = { λ v. Some (field_value_text v) };

    fn fmt<W: fmt::Write>(&self, f: &mut fmt::Formatter<W>) -> fmt::Result {
        self.write_to(f)
    }
}
