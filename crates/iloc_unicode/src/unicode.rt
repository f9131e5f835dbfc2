//! The unicode extension.
ghost use Rattle.std.specs.Prelude.{◌≡◌, ⊤, ◌↔◌, ◌&&◌, ◌==◌, ◌+◌, ◌++◌, [], length, IsTrue, IfOk, OnOk, OnErr, Some};
ghost use Rattle.std.specs.Cmp.{decided, partial_equiv_from_equiv};
ghost use Rattle.std.specs.Hash.{same_Alike};
ghost use Rattle.iloc_memory.specs.Refusals.{RefusedWithin};
ghost use Rattle.iloc_spec_parts.specs.Extending.{extend};
ghost use Rattle.iloc_spec_parts.specs.Parts.{UnicodeText, UnicodeTextFault};
ghost use Rattle.iloc_spec_grammar.specs.Meaning.{Fault, map_of, set_of};
ghost use Rattle.iloc_subtags.specs.Judging.{Accepts, Refuses, RunsOutOnlyIf};
ghost use Rattle.iloc_spec_grammar.specs.Values.{unicode_spelling, unicode_text};
ghost use Rattle.iloc_spec_grammar.specs.Syntax.{Unicode as UnicodeParts, word_cmp};
ghost use Rattle.iloc_spec_parts.specs.Orders.{unicode_cmp};

use crate::attributes::Attributes;
use crate::keywords::Keywords;
use crate::reader::takes_u;
use iloc_copying::{Copied, Copying, FromMemory, FromOwn};
use iloc_memory::Memory;
use iloc_subtags::{ParseError, SubtagIterator};
use iloc_writeable::pieces::Pieces;
use iloc_writeable::{Sink, Writeable};
use std::alloc::{AllocError, Global};
use std::cmp::Ordering;
use std::fmt;

/// The unicode extension of a locale: attributes and keywords.
#[derive(Drop, Debug, Eq, Hash, Default)]
pub struct Unicode {
    pub keywords: Keywords,
    pub attributes: Attributes,
}

impl Unicode {
    ghost use Rattle.iloc_unicode.specs.UnicodeReads.{UnicodeTextReads, UnicodeTextWants};
    ghost use Rattle.iloc_unicode.specs.UnicodeValue.{value_of};
    ghost use Rattle.iloc_unicode.specs.Sizes.{unicode_items};

    /// The empty extension.
    pub fn new() -> Self
        ensures keywords { result.keywords ≡ [] }
        ensures attributes { result.attributes ≡ [] }
    {
        Unicode {
            keywords: Keywords::new(),
            attributes: Attributes::new(),
        }
    }

    /// Parses `u` in either case, then attributes, then keywords, and ignores the rest of the text
    /// (UTS #35 section 3.2). Refused by `InvalidExtension` are another first piece, a piece of two bytes
    /// that is met among the keywords and is no key, and an extension in which both parts are empty.
    pub fn try_from_utf8(alloc: Global, code_units: &[u8]) -> Result<Self, ParseError>
        ensures reads { UnicodeTextReads code_units.now result }
        ensures accepted { (u : UnicodeParts) → UnicodeText code_units.now u
            → Accepts value_of ⊤ u result }
        ensures refused { (f : Fault) → UnicodeTextFault code_units.now f
            → Refuses ⊤ f result }
        ensures memory { RunsOutOnlyIf (UnicodeTextWants code_units.now) result }
    {
        Self::try_from_utf8_in(alloc, code_units)
    }

    /// As `try_from_utf8`, from any memory. `OutOfMemory` comes only if room for at most as many items as the text has
    /// bytes was refused.
    pub fn try_from_utf8_in<M: Memory>(memory: M, code_units: &[u8]) -> Result<Self, ParseError>
        ensures reads { UnicodeTextReads code_units.now result }
        ensures accepted { (u : UnicodeParts) → UnicodeText code_units.now u
            → Accepts value_of ⊤ u result }
        ensures refused { (f : Fault) → UnicodeTextFault code_units.now f
            → Refuses ⊤ f result }
        ensures memory { RunsOutOnlyIf (UnicodeTextWants code_units.now) result }
        ensures out_of_memory { RunsOutOnlyIf
            (RefusedWithin M.refused (length code_units.now)) result }
    {
        Self::read_text(memory, code_units)
    }

    // Parses the extension. Its clauses say what is read and when memory runs out; the others follow from them.
    fn read_text<M: Memory>(memory: M, code_units: &[u8]) -> Result<Self, ParseError>
        ensures reads { UnicodeTextReads code_units.now result }
        ensures memory { RunsOutOnlyIf (UnicodeTextWants code_units.now) result }
        ensures out_of_memory { RunsOutOnlyIf
            (RefusedWithin M.refused (length code_units.now)) result }
    {
        let mut iter = SubtagIterator::new(code_units);
        if !takes_u(&mut iter) {
            return Err(ParseError::InvalidExtension);
        }
        Self::try_from_iter(memory, &mut iter)
    }

    /// Parses a `str`, as `try_from_utf8` parses bytes.
    pub fn try_from_str(alloc: Global, s: &str) -> Result<Self, ParseError>
        ensures reads { UnicodeTextReads s.now result }
        ensures accepted { (u : UnicodeParts) → UnicodeText s.now u
            → Accepts value_of ⊤ u result }
        ensures refused { (f : Fault) → UnicodeTextFault s.now f
            → Refuses ⊤ f result }
        ensures memory { RunsOutOnlyIf (UnicodeTextWants s.now) result }
    {
        Unicode::try_from_utf8_in(alloc, s.as_bytes())
    }

    /// Parses a `str`, as `try_from_utf8_in` parses bytes.
    pub fn try_from_str_in<M: Memory>(memory: M, s: &str) -> Result<Self, ParseError>
        ensures reads { UnicodeTextReads s.now result }
        ensures accepted { (u : UnicodeParts) → UnicodeText s.now u
            → Accepts value_of ⊤ u result }
        ensures refused { (f : Fault) → UnicodeTextFault s.now f
            → Refuses ⊤ f result }
        ensures memory { RunsOutOnlyIf (UnicodeTextWants s.now) result }
        ensures out_of_memory { RunsOutOnlyIf (RefusedWithin M.refused (length s.now)) result }
    {
        Unicode::try_from_utf8_in(memory, s.as_bytes())
    }

    /// Whether both parts are empty.
    #[inline(always)]
    pub fn is_empty(&self) -> bool
        ensures { result ≡ ((length self.now.attributes == 0) && (length self.now.keywords == 0)) }
    {
        self.keywords.is_empty() && self.attributes.is_empty()
    }

    /// Empties both parts.
    pub fn clear(&mut self)
        ensures keywords { self.new.keywords ≡ [] }
        ensures attributes { self.new.attributes ≡ [] }
    {
        self.keywords.clear();
        self.attributes.clear();
    }

    /// The order by attributes, then keywords.
    pub fn total_cmp(&self, other: &Self) -> Ordering
        ensures { result ≡ unicode_cmp (value_of self.now) (value_of other.now) }
    {
        self.attributes
            .cmp(&other.attributes)
            .then_with(|| self.keywords.cmp(&other.keywords))
    }

    /// The union of the attributes, and the keywords of both, of which the other's value wins at a key
    /// of both. All growths come first: if an allocation fails, neither part has changed.
    #[tactic(auto, using(iloc_spec_parts::proofs::ExtendingLaws::extend_associative))]
    pub fn extend(&mut self, alloc: Global, other: Unicode) -> Result<(), AllocError>
        ensures ok { OnOk result (value_of self.new ≡ extend (value_of self.old) (value_of other)) }
        ensures err { OnErr result (self.new ≡ self.old) }
        ensures associative { (u v w : UnicodeParts)
            → extend (extend u v) w ≡ extend u (extend v w) }
    {
        self.extend_in(alloc, other)
    }

    /// As `extend`, from any memory. Refusal: `AllocError`, only if room for at most the attributes or the keywords of both
    /// was refused.
    #[tactic(auto, using(iloc_spec_parts::proofs::ExtendingLaws::extend_associative))]
    pub fn extend_in<M: Memory>(&mut self, memory: M, other: Unicode) -> Result<(), AllocError>
        ensures ok { OnOk result (value_of self.new ≡ extend (value_of self.old) (value_of other)) }
        ensures err { OnErr result (self.new ≡ self.old) }
        ensures associative { (u v w : UnicodeParts)
            → extend (extend u v) w ≡ extend u (extend v w) }
        ensures out_of_memory { OnErr result (RefusedWithin M.refused
            (length self.old.attributes + length other.attributes
            + (length self.old.keywords + length other.keywords))) }
    {
        let _ = self.attributes.as_slice();
        let Unicode {
            keywords,
            attributes,
        } = other;
        if attributes.is_empty() {
            return self.keywords.extend_from_keywords_in(memory, keywords);
        }
        self.extend_both(memory, &attributes, keywords)
    }

    // Extends both parts. It stands apart, so that an extension without attributes pays nothing for it.
    #[inline(never)]
    fn extend_both<M: Memory>(
        &mut self,
        memory: M,
        attributes: &Attributes,
        keywords: Keywords,
    ) -> Result<(), AllocError>
        ensures attributes { OnOk result (self.new.attributes
            ≡ set_of (self.old.attributes ++ attributes.now)) }
        ensures keywords { OnOk result (self.new.keywords
            ≡ map_of word_cmp (keywords ++ self.old.keywords)) }
        ensures err { OnErr result (self.new ≡ self.old) }
        ensures out_of_memory { OnErr result (RefusedWithin M.refused
            (length self.old.attributes + length attributes.now
            + (length self.old.keywords + length keywords))) }
    {
        let union = self.attributes.union_in(memory, attributes)?;
        self.keywords.extend_from_keywords_in(memory, keywords)?;
        self.attributes = union;
        Ok(())
    }

    /// A copy, from any memory. Refusal: `AllocError`, only if room for at most as many items as there are in all was
    /// refused.
    pub fn clone_in<M: Memory>(&self, memory: M) -> Result<Self, AllocError>
        ensures value { IfOk result (λ copy. copy ≡ self.now) }
        ensures out_of_memory { OnErr result (RefusedWithin M.refused (unicode_items self.now)) }
    {
        self.copied(FromMemory(memory))
    }
}

impl Clone for Unicode {
    ghost is_clone = { λ u v. v ≡ u };

    fn clone(&self) -> Result<Self, AllocError> {
        self.copied(FromOwn)
    }
}

impl Copied for Unicode {
    ghost use Rattle.iloc_unicode.specs.Sizes.{unicode_items};

    ghost size = { unicode_items };

    #[inline(always)]
    fn copied<C: Copying>(&self, copying: C) -> Result<Self, AllocError> {
        let mut keywords = Keywords::new();
        if !self.keywords.copy_short(&mut keywords) {
            self.keywords.copy_onto(copying, &mut keywords)?;
        }
        Ok(Unicode {
            keywords,
            attributes: self.attributes.copied(copying)?,
        })
    }
}

/// Equal are extensions of the same attributes and the same keywords.
impl PartialEq for Unicode {
    ghost use Rattle.iloc_unicode.specs.UnicodeValue.{value_of, shown_eq};
    ghost use Rattle.iloc_unicode.specs.UnicodeValueLaws.{shown_exact};

    ghost eq = { shown_eq };

    ghost laws = { partial_equiv_from_equiv (decided shown_eq shown_exact) };

    fn eq(&self, other: &Self) -> bool
        ensures value { result ≡ shown_eq self.now other.now }
        ensures equality { IsTrue result ↔ (value_of self.now ≡ value_of other.now) }
    {
        self.keywords == other.keywords && self.attributes == other.attributes
    }
}

#[derived]
impl Eq for Unicode {
    ghost use Rattle.iloc_unicode.specs.UnicodeValue.{shown_eq};
    ghost use Rattle.iloc_unicode.specs.UnicodeValueLaws.{shown_exact};

    ghost laws = { decided shown_eq shown_exact };
}

#[derived]
impl Hash for Unicode {
    ghost use Rattle.iloc_unicode.specs.UnicodeValueLaws.{shown_exact};

    ghost respects_eq = { (same_Alike _ shown_exact).fed };
}

/// The pieces are `u`, the attributes and the keywords; an empty extension has none.
impl Pieces for Unicode {
    ghost use Rattle.iloc_unicode.specs.UnicodeValue.{value_of};

    ghost pieces = { λ u. unicode_spelling (value_of u) };

    fn has_pieces(&self) -> bool {
        !self.is_empty()
    }

    fn write_pieces<S: Sink>(&self, sink: &mut S, first: bool) -> fmt::Result {
        if self.is_empty() {
            return Ok(());
        }
        ("u", &self.attributes, &self.keywords).write_pieces(sink, first)
    }
}

/// Prints `u`, the attributes and the keywords, with a hyphen between each two; of an empty extension
/// nothing.
impl Writeable for Unicode {
    ghost use Rattle.iloc_unicode.specs.UnicodeValue.{value_of};

    ghost text = { λ u. unicode_text (value_of u) };

    #[tactic(auto, unfolding(iloc_spec_grammar::specs::Syntax::join, iloc_spec_grammar::specs::Values::unicode_text))]
    fn write_to<S: Sink>(&self, sink: &mut S) -> fmt::Result {
        self.write_joined(sink)
    }

    fn writeable_borrow(&self) -> Option<&str> {
        None
    }
}

impl fmt::Display for Unicode {
    ghost use Rattle.iloc_unicode.specs.UnicodeValue.{value_of};

    ghost output = { λ u. Some (unicode_text (value_of u)) };

    fn fmt<W: fmt::Write>(&self, f: &mut fmt::Formatter<W>) -> fmt::Result {
        self.write_to(f)
    }
}
