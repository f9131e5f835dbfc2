//! The transform extension.
ghost use Rattle.std.specs.Prelude.{◌≡◌, ⊤, ◌==◌, ◌&&◌, [], None, Some, Ok, IfOk, OnErr, not, length, is_some};
ghost use Rattle.std.specs.Result.{result_and};
ghost use Rattle.iloc_spec_grammar.specs.Syntax.{languages};
ghost use Rattle.iloc_spec_grammar.specs.Meaning.{Fault};
ghost use Rattle.iloc_spec_parts.specs.Parts.{TransformText, TransformTextFault};
ghost use Rattle.iloc_spec_parts.specs.Orders.{transform_cmp};
ghost use Rattle.iloc_subtags.specs.Judging.{Accepts, Refuses, RunsOutOnlyIf};
ghost use Rattle.iloc_subtags.specs.Left.{left};
ghost use Rattle.iloc_memory.specs.Refusals.{RefusedWithin};
ghost use Rattle.iloc_transform.specs.Sizes.{transform_items};
ghost use Rattle.iloc_transform.specs.TransformReading.{TransformReads, TransformFills, TransformWantsMemory, value_of, TransformTextReads, TransformTextWants};
ghost use Rattle.iloc_spec_grammar.specs.Values.{transform_spelling, transform_text};
ghost use Rattle.iloc_spec_grammar.specs.Syntax as written;

use crate::Fields;
use crate::fields::fill_fields;
use crate::lang::{cmp_langs, fill_lang, lowercase};
use iloc_copying::{Copied, Copying, FromMemory, FromOwn};
use iloc_langid::LanguageIdentifier;
use iloc_memory::Memory;
use iloc_other::singleton::take_singleton;
use iloc_subtags::{ParseError, SubtagIterator};
use iloc_writeable::{Pieces, Sink, Writeable};
use std::alloc::{AllocError, Global};
use std::cmp::Ordering;
use std::fmt;

/// The transform extension: how the content was transformed, and from what.
#[derive(Drop, Debug, PartialEq, Eq, Hash)]
pub struct Transform {
    /// The language that was transformed.
    pub lang: Option<LanguageIdentifier>,
    /// How it was transformed.
    pub fields: Fields,
}

impl Clone for Transform {
    ghost is_clone = { λ t u. u ≡ t };

    fn clone(&self) -> Result<Self, AllocError> {
        self.copied(FromOwn)
    }
}

impl Copied for Transform {
    ghost size = { transform_items };

    fn copied<C: Copying>(&self, copying: C) -> Result<Self, AllocError> {
        let fields = self.fields.copied(copying)?;
        let Some(lang) = &self.lang else {
            return Ok(Transform { lang: None, fields });
        };
        let lang = Some(lang.copied(copying)?);
        Ok(Transform { lang, fields })
    }
}

impl Transform {
    /// The empty extension.
    pub fn new(alloc: Global) -> Self
        ensures lang { result.lang ≡ None }
        ensures fields { result.fields ≡ [] }
    {
        Transform::new_in(alloc)
    }

    /// As `new`, from any memory. It asks for no room.
    pub fn new_in<M: Memory>(memory: M) -> Self
        ensures lang { result.lang ≡ None }
        ensures fields { result.fields ≡ [] }
    {
        Transform {
            lang: None,
            fields: Fields::new_in(memory),
        }
    }

    /// A copy, from any memory. Refusal: `AllocError`, only if room for at most as many items as there are in all was
    /// refused.
    pub fn clone_in<M: Memory>(&self, memory: M) -> Result<Self, AllocError>
        ensures value { IfOk result (λ copy. copy ≡ self.now) }
        ensures out_of_memory { OnErr result (RefusedWithin M.refused (transform_items self.now)) }
    {
        self.copied(FromMemory(memory))
    }

    /// Whether there is neither identifier nor field.
    pub fn is_empty(&self) -> bool
        ensures { result ≡ (not (is_some self.now.lang) && (length self.now.fields == 0)) }
    {
        self.fields.is_empty() && self.lang.is_none()
    }

    /// Takes out identifier and fields.
    pub fn clear(&mut self)
        ensures lang { self.new.lang ≡ None }
        ensures fields { self.new.fields ≡ [] }
    {
        self.lang = None;
        self.fields.empty();
    }

    /// The order by identifier, none first, and then by fields; `Equal` exactly if the two are equal.
    pub fn total_cmp(&self, other: &Self) -> Ordering
        ensures { result ≡ transform_cmp (value_of self.now) (value_of other.now) }
    {
        cmp_langs(self.lang.as_ref(), other.lang.as_ref()).then_with(|| self
            .fields
            .cmp(&other.fields))
    }

    /// Parses `t` in either case, the longest front of an identifier if the next piece is a language,
    /// and then, if the next piece is a key, fields up to a piece that is neither key nor value
    /// piece. What follows is ignored.
    ///
    /// This is the transformed content of UTS #35, section 3.2. Of equal keys the first stays; a field
    /// whose pieces are all `true` has the empty value. A repeated variant is refused with
    /// `InvalidSubtag`; another first piece, a key without a value piece and nothing read with
    /// `InvalidExtension`. `OutOfMemory` comes only if there is a field or more than four variants.
    pub fn try_from_utf8(alloc: Global, code_units: &[u8]) -> Result<Self, ParseError>
        ensures reads { TransformTextReads code_units.now result }
        ensures accepted { (m : written.Transform) → TransformText languages code_units.now m
            → Accepts value_of ⊤ m result }
        ensures refused { (f : Fault) → TransformTextFault languages code_units.now f
            → Refuses ⊤ f result }
        ensures memory { RunsOutOnlyIf (TransformTextWants code_units.now) result }
    {
        Self::try_from_utf8_in(alloc, code_units)
    }

    /// As `try_from_utf8`, from any memory. `OutOfMemory` comes only if room for at most as many subtags or fields as
    /// the text has bytes was refused.
    pub fn try_from_utf8_in<M: Memory>(memory: M, code_units: &[u8]) -> Result<Self, ParseError>
        ensures reads { TransformTextReads code_units.now result }
        ensures accepted { (m : written.Transform) → TransformText languages code_units.now m
            → Accepts value_of ⊤ m result }
        ensures refused { (f : Fault) → TransformTextFault languages code_units.now f
            → Refuses ⊤ f result }
        ensures memory { RunsOutOnlyIf (TransformTextWants code_units.now) result }
        ensures out_of_memory { RunsOutOnlyIf
            (RefusedWithin M.refused (length code_units.now)) result }
    {
        Self::read_text(memory, code_units)
    }

    // Parses the transform. Its clauses say what is read and when memory runs out; the others follow from them.
    fn read_text<M: Memory>(memory: M, code_units: &[u8]) -> Result<Self, ParseError>
        ensures reads { TransformTextReads code_units.now result }
        ensures memory { RunsOutOnlyIf (TransformTextWants code_units.now) result }
        ensures out_of_memory { RunsOutOnlyIf
            (RefusedWithin M.refused (length code_units.now)) result }
    {
        let mut iter = SubtagIterator::new(code_units);
        let Some(ext) = take_singleton(&mut iter) else {
            return Err(ParseError::InvalidExtension);
        };
        if ext != b't' {
            return Err(ParseError::InvalidExtension);
        }
        Transform::try_from_iter(memory, &mut iter)
    }

    /// Parses a `str`, as `try_from_utf8` parses bytes.
    pub fn try_from_str(alloc: Global, s: &str) -> Result<Self, ParseError>
        ensures reads { TransformTextReads s.now result }
        ensures accepted { (m : written.Transform) → TransformText languages s.now m
            → Accepts value_of ⊤ m result }
        ensures refused { (f : Fault) → TransformTextFault languages s.now f
            → Refuses ⊤ f result }
        ensures memory { RunsOutOnlyIf (TransformTextWants s.now) result }
    {
        Self::try_from_utf8_in(alloc, s.as_bytes())
    }

    /// Parses a `str`, as `try_from_utf8_in` parses bytes.
    pub fn try_from_str_in<M: Memory>(memory: M, s: &str) -> Result<Self, ParseError>
        ensures reads { TransformTextReads s.now result }
        ensures accepted { (m : written.Transform) → TransformText languages s.now m
            → Accepts value_of ⊤ m result }
        ensures refused { (f : Fault) → TransformTextFault languages s.now f
            → Refuses ⊤ f result }
        ensures memory { RunsOutOnlyIf (TransformTextWants s.now) result }
        ensures out_of_memory { RunsOutOnlyIf (RefusedWithin M.refused (length s.now)) result }
    {
        Self::try_from_utf8_in(memory, s.as_bytes())
    }

    /// Parses what follows `t`, and leaves what no transform takes. `OutOfMemory` comes only if room for at most as many
    /// subtags or fields as there are pieces was refused.
    pub fn try_from_iter<M: Memory>(
        memory: M,
        iter: &mut SubtagIterator<'_>,
    ) -> Result<Self, ParseError>
        ensures reads { TransformReads (left iter.old) (left iter.new) result }
        ensures memory { RunsOutOnlyIf (TransformWantsMemory (left iter.old)) result }
        ensures out_of_memory { RunsOutOnlyIf
            (RefusedWithin M.refused (length (left iter.old))) result }
    {
        let mut transform = Transform::new_in(memory);
        fill_transform(memory, iter, &mut transform)?;
        Ok(transform)
    }
}

/// Parses what follows `t` into an empty extension, for parsers of whole locales. After a refusal it holds what was
/// parsed
/// before the fault.
pub fn fill_transform<M: Memory>(
    memory: M,
    iter: &mut SubtagIterator<'_>,
    transform: &mut Transform,
) -> Result<(), ParseError>
    requires lang { transform.old.lang ≡ None }
    requires fields { transform.old.fields ≡ [] }
    ensures reads { TransformFills (left iter.old) (left iter.new)
        (result_and result (Ok transform.new)) }
    ensures out_of_memory { RunsOutOnlyIf
        (RefusedWithin M.refused (length (left iter.old))) result }
{
    fill_lang(memory, iter, &mut transform.lang)?;
    fill_fields(memory, iter, &mut transform.fields)?;
    if transform.is_empty() {
        return Err(ParseError::InvalidExtension);
    }
    Ok(())
}

/// The pieces are `t`, those of the identifier in lower case and those of the fields; an empty one has
/// none.
impl Pieces for Transform {
    ghost pieces = { λ m. transform_spelling (value_of m) };

    fn has_pieces(&self) -> bool {
        !self.is_empty()
    }

    fn write_pieces<S: Sink>(&self, sink: &mut S, first: bool) -> fmt::Result {
        if self.is_empty() {
            return Ok(());
        }
        let lang = lowercase(self.lang.as_ref());
        ("t", lang, &self.fields).write_pieces(sink, first)
    }
}

/// Prints `t`, the identifier in lower case and the fields; an empty one prints nothing.
impl Writeable for Transform {
    ghost text = { λ m. transform_text (value_of m) };

    #[tactic(auto, unfolding(iloc_spec_grammar::specs::Values::transform_text, iloc_spec_grammar::specs::Syntax::join))]
    fn write_to<S: Sink>(&self, sink: &mut S) -> fmt::Result {
        self.write_joined(sink)
    }

    fn writeable_borrow(&self) -> Option<&str> {
        None
    }
}

impl fmt::Display for Transform {
    ghost output = { λ m. Some (transform_text (value_of m)) };

    fn fmt<W: fmt::Write>(&self, f: &mut fmt::Formatter<W>) -> fmt::Result {
        self.write_to(f)
    }
}
