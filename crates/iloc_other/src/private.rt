//! The private extension: a list of private subtags.
ghost use Rattle.std.specs.Prelude.{◌≡◌, ⊤, ℕ, List, ◌∷◌, [], ◌↔◌, IsTrue, IfOk, OnErr, length, slice_get, Some, Ok};
ghost use Rattle.std.specs.List.{AllByRecursion};
ghost use Rattle.std.specs.Option.{option_copied};
ghost use Rattle.std.specs.Result.{result_and};
ghost use Rattle.std.specs.Slice.Iter.{iter_rest};
ghost use Rattle.iloc_spec_grammar.specs.Syntax.{Text, pieces, PrivateSubtag as the_kind};
ghost use Rattle.iloc_spec_grammar.specs.Values.{private_text, private_spelling, IsNormal};
ghost use Rattle.iloc_subtags.specs.Left.{left};
ghost use Rattle.iloc_spec_grammar.specs.Meaning.{Fault};
ghost use Rattle.iloc_spec_parts.specs.Parts.{PrivateText, PrivateTextFault};
ghost use Rattle.iloc_subtags.specs.Judging.{Accepts, Refuses, RunsOutOnlyIf};
ghost use Rattle.iloc_memory.specs.Refusals.{RefusedWithin};
ghost use Rattle.iloc_other.specs.Reading.{PrivateReads, PrivateFills, PrivateWantsMemory, PrivateTextReads, PrivateTextWants};

use crate::singleton::take_singleton;
use iloc_copying::{Copied, Copying, FromMemory, FromOwn};
use iloc_memory::Memory;
use iloc_subtags::{ParseError, PrivateSubtag, PrivateSubtagKind, SubtagIterator};
use iloc_word_list::WordList;
use iloc_writeable::{Pieces, Sink, Writeable};
use std::alloc::{AllocError, Global};
use std::marker::Model;
use std::{fmt, slice};

/// A subtag of the private extension, as `l`.
pub type Subtag = PrivateSubtag;

/// The private extension: a list of private subtags.
#[derive(Drop, Debug, PartialEq, Eq, PartialOrd, Ord, Hash)]
pub struct Private {
    words: WordList<PrivateSubtagKind, 8>,
}

impl Model for Private {
    ghost Value = { List (List ℕ) };

    ghost view = { λ p. p.words };

    ghost inverse = { λ ws. record { words = ws } };
}

impl Private {
    /// The empty list.
    pub fn new() -> Self
        ensures { result ≡ [] }
    {
        Private {
            words: WordList::new(),
        }
    }

    /// A copy, from any memory. Refusal: `AllocError`, only if room for at most all the subtags was refused.
    pub fn clone_in<M: Memory>(&self, memory: M) -> Result<Self, AllocError>
        ensures value { IfOk result (λ copy. copy ≡ self.now) }
        ensures out_of_memory { OnErr result (RefusedWithin M.refused (length self.now)) }
    {
        self.copied(FromMemory(memory))
    }

    /// The list of this one subtag.
    pub fn new_single(input: Subtag) -> Self
        ensures { result ≡ input ∷ [] }
    {
        Private {
            words: WordList::from_word(input),
        }
    }

    /// The list of these subtags.
    pub fn from_vec_unchecked(input: Vec<Subtag>) -> Self
        ensures { result ≡ input.items }
    {
        Private {
            words: WordList::from_vec(input),
        }
    }

    /// Leaves the empty list.
    pub fn clear(&mut self)
        ensures { self.new ≡ [] }
    {
        self.words = WordList::new();
    }

    /// The subtags in list order.
    pub fn as_slice(&self) -> &[Subtag]
        ensures words { result.now ≡ self.now }
        ensures normal { AllByRecursion (IsNormal the_kind) self.now }
    {
        self.words.as_slice()
    }

    /// Whether there is no subtag.
    pub fn is_empty(&self) -> bool
        ensures { IsTrue result ↔ (self.now ≡ []) }
    {
        self.as_slice().is_empty()
    }

    /// How many subtags there are.
    pub fn len(&self) -> usize
        ensures { result ≡ length self.now }
    {
        self.as_slice().len()
    }

    /// The subtag at a place, `None` from the length on.
    pub fn get(&self, index: usize) -> Option<&Subtag>
        ensures { option_copied result ≡ slice_get self.now index }
    {
        self.as_slice().get(index)
    }

    /// The first subtag, if there is one.
    pub fn first(&self) -> Option<&Subtag>
        ensures { option_copied result ≡ slice_get self.now 0 }
    {
        self.as_slice().first()
    }

    /// Parses `x` in either case and all the rest, which must be private subtags, one at least.
    ///
    /// This is the private use extension of UTS #35, section 3.2. Anything else is refused with
    /// `InvalidExtension`. `OutOfMemory` comes only if there are more than four subtags.
    pub fn try_from_utf8(alloc: Global, code_units: &[u8]) -> Result<Self, ParseError>
        ensures reads { PrivateTextReads code_units.now result }
        ensures accepted { (ws : List Text) → PrivateText code_units.now ws
            → Accepts (λ p. p) ⊤ ws result }
        ensures refused { (f : Fault) → PrivateTextFault code_units.now f
            → Refuses ⊤ f result }
        ensures memory { RunsOutOnlyIf (PrivateTextWants code_units.now) result }
    {
        Self::try_from_utf8_in(alloc, code_units)
    }

    /// As `try_from_utf8`, from any memory. `OutOfMemory` comes only if room for at most as many subtags as the text
    /// has bytes was refused.
    pub fn try_from_utf8_in<M: Memory>(memory: M, code_units: &[u8]) -> Result<Self, ParseError>
        ensures reads { PrivateTextReads code_units.now result }
        ensures accepted { (ws : List Text) → PrivateText code_units.now ws
            → Accepts (λ p. p) ⊤ ws result }
        ensures refused { (f : Fault) → PrivateTextFault code_units.now f
            → Refuses ⊤ f result }
        ensures memory { RunsOutOnlyIf (PrivateTextWants code_units.now) result }
        ensures out_of_memory { RunsOutOnlyIf
            (RefusedWithin M.refused (length code_units.now)) result }
    {
        Self::read_text(memory, code_units)
    }

    // Parses the extension. Its clauses say what is read and when memory runs out; the others follow from them.
    fn read_text<M: Memory>(memory: M, code_units: &[u8]) -> Result<Self, ParseError>
        ensures reads { PrivateTextReads code_units.now result }
        ensures memory { RunsOutOnlyIf (PrivateTextWants code_units.now) result }
        ensures out_of_memory { RunsOutOnlyIf
            (RefusedWithin M.refused (length code_units.now)) result }
    {
        let mut iter = SubtagIterator::new(code_units);
        let Some(ext) = take_singleton(&mut iter) else {
            return Err(ParseError::InvalidExtension);
        };
        if ext != b'x' {
            return Err(ParseError::InvalidExtension);
        }
        Private::try_from_iter(memory, &mut iter)
    }

    /// Parses a `str`, as `try_from_utf8` parses bytes.
    pub fn try_from_str(alloc: Global, s: &str) -> Result<Self, ParseError>
        ensures reads { PrivateTextReads s.now result }
        ensures accepted { (ws : List Text) → PrivateText s.now ws
            → Accepts (λ p. p) ⊤ ws result }
        ensures refused { (f : Fault) → PrivateTextFault s.now f
            → Refuses ⊤ f result }
        ensures memory { RunsOutOnlyIf (PrivateTextWants s.now) result }
    {
        Self::try_from_utf8_in(alloc, s.as_bytes())
    }

    /// Parses a `str`, as `try_from_utf8_in` parses bytes.
    pub fn try_from_str_in<M: Memory>(memory: M, s: &str) -> Result<Self, ParseError>
        ensures reads { PrivateTextReads s.now result }
        ensures accepted { (ws : List Text) → PrivateText s.now ws
            → Accepts (λ p. p) ⊤ ws result }
        ensures refused { (f : Fault) → PrivateTextFault s.now f
            → Refuses ⊤ f result }
        ensures memory { RunsOutOnlyIf (PrivateTextWants s.now) result }
        ensures out_of_memory { RunsOutOnlyIf (RefusedWithin M.refused (length s.now)) result }
    {
        Self::try_from_utf8_in(memory, s.as_bytes())
    }

    /// Parses what follows `x`: all the pieces that are left. `OutOfMemory` comes only if room for at most as many
    /// subtags was refused.
    pub fn try_from_iter<M: Memory>(
        memory: M,
        iter: &mut SubtagIterator<'_>,
    ) -> Result<Self, ParseError>
        ensures reads { PrivateReads (left iter.old) (left iter.new) result }
        ensures memory { RunsOutOnlyIf (PrivateWantsMemory (left iter.old)) result }
        ensures out_of_memory { RunsOutOnlyIf
            (RefusedWithin M.refused (length (left iter.old))) result }
    {
        let mut words = Private::new();
        fill_private(memory, iter, &mut words)?;
        Ok(words)
    }

    /// The subtags in list order.
    pub fn iter(&self) -> slice::Iter<'_, Subtag>
        ensures { iter_rest result ≡ self.now }
    {
        self.as_slice().iter()
    }
}

/// What `Private::try_from_iter` reads, into an empty list, for parsers of whole locales. After a refusal it
/// holds the subtags before the fault.
pub fn fill_private<M: Memory>(
    memory: M,
    iter: &mut SubtagIterator<'_>,
    private: &mut Private,
) -> Result<(), ParseError>
    requires { private.old ≡ [] }
    ensures reads { PrivateFills (left iter.old) (left iter.new)
        (result_and result (Ok private.new)) }
    ensures out_of_memory { RunsOutOnlyIf
        (RefusedWithin M.refused (length (left iter.old))) result }
{
    'words: while let Some(piece) = iter.next() {
        let word = Subtag::try_from_utf8(piece)?;
        private.words.push_in(memory, word)?;
    }
    if private.is_empty() {
        return Err(ParseError::InvalidExtension);
    }
    Ok(())
}

impl Default for Private {
    ghost is_default = { λ p. p ≡ [] };

    fn default() -> Self {
        Private::new()
    }
}

impl Clone for Private {
    ghost is_clone = { λ p q. q ≡ p };

    fn clone(&self) -> Result<Self, AllocError> {
        self.copied(FromOwn)
    }
}

impl Copied for Private {
    ghost size = { length };

    fn copied<C: Copying>(&self, copying: C) -> Result<Self, AllocError> {
        Ok(Private {
            words: self.words.copied(copying)?,
        })
    }
}

/// The pieces are `x` and the subtags; an empty list has none.
impl Pieces for Private {
    ghost pieces = { private_spelling };

    fn has_pieces(&self) -> bool {
        !self.is_empty()
    }

    fn write_pieces<S: Sink>(&self, sink: &mut S, first: bool) -> fmt::Result {
        if self.is_empty() {
            return Ok(());
        }
        let words = self.as_slice();
        ("x", words).write_pieces(sink, first)
    }
}

/// `x` and the subtags; an empty list prints nothing.
impl Writeable for Private {
    ghost text = { private_text };

    #[tactic(auto, unfolding(iloc_spec_grammar::specs::Values::private_text, iloc_spec_grammar::specs::Syntax::join))]
    fn write_to<S: Sink>(&self, sink: &mut S) -> fmt::Result {
        self.write_joined(sink)
    }

    fn writeable_borrow(&self) -> Option<&str> {
        None
    }
}

impl fmt::Display for Private {
    ghost output = { λ p. Some (private_text p) };

    fn fmt<W: fmt::Write>(&self, f: &mut fmt::Formatter<W>) -> fmt::Result {
        self.write_to(f)
    }
}
