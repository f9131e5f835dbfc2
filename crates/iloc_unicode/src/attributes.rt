//! The attributes of a unicode extension.
ghost use Rattle.std.specs.Prelude.{◌≡◌, ◌↔◌, ℕ, List, ⊤, ◌≤◌, ◌+◌, ◌==◌, ◌++◌, [], true, length, OnOk, OnErr, IfOk, IsOk, IsTrue, Some};
ghost use Rattle.std.specs.List.{AllByRecursion};
ghost use Rattle.std.specs.Cmp.Rules.{comparing};
ghost use Rattle.std.specs.Hash.{same_Alike};
ghost use Rattle.std.proofs.Common.{rules};
ghost use Rattle.std.specs.Slice.{IsItemAt};
ghost use Rattle.std.specs.Slice.Iter.{iter_rest};
ghost use Rattle.iloc_memory.specs.Refusals.{RefusedWithin};
ghost use Rattle.iloc_spec_grammar.specs.Syntax.{Text, pieces, join, Attribute, word_cmp};
ghost use Rattle.iloc_spec_grammar.specs.Meaning.{set_of};
ghost use Rattle.iloc_spec_grammar.specs.Values.{IsNormal, StrictlyAscends};
ghost use Rattle.iloc_spec_parts.specs.Parts.{AttributesText};
ghost use Rattle.iloc_subtags.specs.Judging.{Accepts, RunsOutOnlyIf};
ghost use Rattle.iloc_unicode.specs.Reads.{AttributesTextReads, AttributesWantMemory};
ghost use Rattle.iloc_word_list.specs.Equality.{words_eq};
ghost use Rattle.iloc_word_list.specs.EqualityLaws.{words_exact};
ghost use Rattle.iloc_word_list.specs.Ascending.{ascends};

use iloc_copying::{Copied, Copying, FromMemory, FromOwn};
use iloc_memory::Memory;
use iloc_subtags::{Attribute, AttributeKind, ParseError, SubtagIterator};
use iloc_word_list::WordSet;
use iloc_writeable::pieces::Pieces;
use iloc_writeable::{Sink, Writeable};
use std::alloc::{AllocError, Global};
use std::fmt;
use std::marker::Model;
use std::slice::Iter;

/// A set of attributes, kept strictly ascending. Contracts see the list of their texts.
#[derive(Drop, Debug, Eq, PartialOrd, Ord, Hash)]
pub struct Attributes {
    words: WordSet<AttributeKind, 8>,
}

impl Model for Attributes {
    ghost use Rattle.std.specs.Prelude.{List, ℕ};

    ghost Value = { List (List ℕ) };

    ghost view = { λ a. a.words };

    ghost inverse = { λ ws. record { words = ws } };
}

impl Attributes {
    /// The empty set.
    pub fn new() -> Self
        ensures { result ≡ [] }
    {
        Attributes {
            words: WordSet::new(),
        }
    }

    /// Parses the longest front of attribute subtags, 3 to 8 letters or digits each, as a set, and ignores
    /// the rest of the text. It is refused by `OutOfMemory` alone, and if there are at most four
    /// different ones not at all.
    pub fn try_from_utf8(alloc: Global, code_units: &[u8]) -> Result<Self, ParseError>
        ensures reads { AttributesTextReads code_units.now result }
        ensures accepted { (ws : List Text) → AttributesText code_units.now ws
            → Accepts (λ a. a) ⊤ ws result }
        ensures memory { RunsOutOnlyIf (AttributesWantMemory (pieces code_units.now)) result }
    {
        Self::try_from_utf8_in(alloc, code_units)
    }

    /// As `try_from_utf8`, from any memory. `OutOfMemory` comes only if room for at most as many attributes as the text
    /// has bytes was refused.
    pub fn try_from_utf8_in<M: Memory>(memory: M, code_units: &[u8]) -> Result<Self, ParseError>
        ensures reads { AttributesTextReads code_units.now result }
        ensures accepted { (ws : List Text) → AttributesText code_units.now ws
            → Accepts (λ a. a) ⊤ ws result }
        ensures memory { RunsOutOnlyIf (AttributesWantMemory (pieces code_units.now)) result }
        ensures out_of_memory { RunsOutOnlyIf
            (RefusedWithin M.refused (length code_units.now)) result }
    {
        Self::read_text(memory, code_units)
    }

    // Parses the set. Its clauses say what is read and when memory runs out; the others follow from them.
    fn read_text<M: Memory>(memory: M, code_units: &[u8]) -> Result<Self, ParseError>
        ensures reads { AttributesTextReads code_units.now result }
        ensures memory { RunsOutOnlyIf (AttributesWantMemory (pieces code_units.now)) result }
        ensures out_of_memory { RunsOutOnlyIf
            (RefusedWithin M.refused (length code_units.now)) result }
    {
        let mut iter = SubtagIterator::new(code_units);
        Ok(Self::try_from_iter(memory, &mut iter)?)
    }

    /// Parses a `str`, as `try_from_utf8` parses bytes.
    pub fn try_from_str(alloc: Global, s: &str) -> Result<Self, ParseError>
        ensures reads { AttributesTextReads s.now result }
        ensures accepted { (ws : List Text) → AttributesText s.now ws
            → Accepts (λ a. a) ⊤ ws result }
        ensures memory { RunsOutOnlyIf (AttributesWantMemory (pieces s.now)) result }
    {
        Attributes::try_from_utf8_in(alloc, s.as_bytes())
    }

    /// Parses a `str`, as `try_from_utf8_in` parses bytes.
    pub fn try_from_str_in<M: Memory>(memory: M, s: &str) -> Result<Self, ParseError>
        ensures reads { AttributesTextReads s.now result }
        ensures accepted { (ws : List Text) → AttributesText s.now ws
            → Accepts (λ a. a) ⊤ ws result }
        ensures memory { RunsOutOnlyIf (AttributesWantMemory (pieces s.now)) result }
        ensures out_of_memory { RunsOutOnlyIf (RefusedWithin M.refused (length s.now)) result }
    {
        Attributes::try_from_utf8_in(memory, s.as_bytes())
    }

    /// The set of these attributes, which have to ascend strictly:
    /// `is_strictly_ascending` of `subtags` is the test.
    pub fn from_vec_unchecked(input: Vec<Attribute>) -> Self
        requires { ascends word_cmp input.items ≡ true }
        ensures { result ≡ input.items }
    {
        Attributes {
            words: WordSet::from_vec_unchecked(input),
        }
    }

    /// Leaves the empty set, and returns the old one.
    pub fn clear(&mut self) -> Self
        ensures old { result ≡ self.old }
        ensures empty { self.new ≡ [] }
    {
        Attributes {
            words: self.words.clear(),
        }
    }

    /// Adds the attributes of the other set. If an allocation fails, nothing changes.
    pub fn extend_from_attributes(
        &mut self,
        alloc: Global,
        other: Attributes,
    ) -> Result<(), AllocError>
        ensures ok { OnOk result (self.new ≡ set_of (self.old ++ other)) }
        ensures err { OnErr result (self.new ≡ self.old) }
        ensures succeeds { length self.old + length other ≤ 4 → IsOk result }
    {
        self.extend_from_attributes_in(alloc, other)
    }

    /// As `extend_from_attributes`, from any memory. Refusal: `AllocError`, only if room for at most the attributes of
    /// both was refused.
    pub fn extend_from_attributes_in<M: Memory>(
        &mut self,
        memory: M,
        other: Attributes,
    ) -> Result<(), AllocError>
        ensures ok { OnOk result (self.new ≡ set_of (self.old ++ other)) }
        ensures err { OnErr result (self.new ≡ self.old) }
        ensures succeeds { length self.old + length other ≤ 4 → IsOk result }
        ensures out_of_memory { OnErr result
            (RefusedWithin M.refused (length self.old + length other)) }
    {
        self.words.extend_in(memory, &other.words)
    }

    /// A copy, from any memory. Refusal: `AllocError`, only if room for at most all the attributes was refused.
    pub fn clone_in<M: Memory>(&self, memory: M) -> Result<Self, AllocError>
        ensures value { IfOk result (λ copy. copy ≡ self.now) }
        ensures out_of_memory { OnErr result (RefusedWithin M.refused (length self.now)) }
    {
        self.copied(FromMemory(memory))
    }

    /// Whether there is none.
    pub fn is_empty(&self) -> bool
        ensures { result ≡ (length self.now == 0) }
    {
        self.words.is_empty()
    }

    /// The attributes, ascending.
    pub fn as_slice(&self) -> &[Attribute]
        ensures words { result.now ≡ self.now }
        ensures ascending { StrictlyAscends word_cmp self.now }
        ensures normal { AllByRecursion (IsNormal Attribute) self.now }
    {
        self.words.as_slice()
    }

    /// The attributes in order, lent one by one.
    pub fn iter(&self) -> Iter<'_, Attribute>
        ensures { iter_rest result ≡ self.now }
    {
        self.words.iter()
    }

    /// How many attributes there are.
    pub fn len(&self) -> usize
        ensures { result ≡ length self.now }
    {
        self.words.len()
    }

    /// The attribute at a place; `None` from the length on.
    pub fn get(&self, index: usize) -> Option<&Attribute>
        ensures { IsItemAt self.now index result }
    {
        self.words.get(index)
    }

    /// The first attribute, if there is one.
    pub fn first(&self) -> Option<&Attribute>
        ensures { IsItemAt self.now 0 result }
    {
        self.words.first()
    }

    // The attributes of a set of subtags.
    pub(crate) fn from_set(words: WordSet<AttributeKind, 8>) -> Self
        ensures { result ≡ words }
    {
        Attributes { words }
    }

    // The attributes of both sets.
    pub(crate) fn union_in<M: Memory>(
        &self,
        memory: M,
        other: &Attributes,
    ) -> Result<Attributes, AllocError>
        ensures value { IfOk result (λ a. a ≡ set_of (self.now ++ other.now)) }
        ensures out_of_memory { OnErr result
            (RefusedWithin M.refused (length self.now + length other.now)) }
    {
        Ok(Attributes {
            words: self.words.union_in(memory, &other.words)?,
        })
    }
}

/// Equal are the same sets.
impl PartialEq for Attributes {
    ghost eq = { words_eq };

    ghost laws = { Prim.search (comparing, rules) };

    fn eq(&self, other: &Self) -> bool
        ensures value { result ≡ words_eq self.now other.now }
        ensures equality { IsTrue result ↔ (self.now ≡ other.now) }
    {
        self.words == other.words
    }
}

#[derived]
impl Hash for Attributes {
    ghost respects_eq = { (same_Alike _ words_exact).fed };
}

impl Clone for Attributes {
    ghost is_clone = { λ a b. b ≡ a };

    fn clone(&self) -> Result<Self, AllocError> {
        self.copied(FromOwn)
    }
}

impl Copied for Attributes {
    ghost size = { length };

    fn copied<C: Copying>(&self, copying: C) -> Result<Self, AllocError> {
        Ok(Attributes {
            words: self.words.copied(copying)?,
        })
    }
}

impl Default for Attributes {
    ghost is_default = { λ a. a ≡ [] };

    fn default() -> Self {
        Attributes::new()
    }
}

/// The attributes are the pieces.
impl Pieces for Attributes {
    ghost pieces = { λ a. a };

    fn has_pieces(&self) -> bool {
        self.words.has_pieces()
    }

    fn write_pieces<S: Sink>(&self, sink: &mut S, first: bool) -> fmt::Result {
        self.words.write_pieces(sink, first)
    }
}

/// Prints the attributes, ascending, with a hyphen between each two. The text of one can be lent.
impl Writeable for Attributes {
    ghost text = { λ a. join a };

    ghost lends = { λ a. length a ≡ 1 };

    fn write_to<S: Sink>(&self, sink: &mut S) -> fmt::Result {
        self.words.write_to(sink)
    }

    fn writeable_borrow(&self) -> Option<&str> {
        self.words.writeable_borrow()
    }
}

/// Prints the attributes, ascending, with a hyphen between each two.
impl fmt::Display for Attributes {
    ghost output = { λ a. Some (join a) };

    fn fmt<W: fmt::Write>(&self, f: &mut fmt::Formatter<W>) -> fmt::Result {
        self.write_to(f)
    }
}
