//! The extensions that are neither unicode, transform nor private.
ghost use Rattle.std.specs.Prelude.{◌≡◌, ⊤, ℕ, List, ◌<◌, ◌+◌, ◌++◌, ◌∷◌, [], length, true, IfOk, OnOk, OnErr, IfErr, IsOk, Some, if◌then◌else◌};
ghost use Rattle.std.specs.Char.{is_ascii_alphanumeric};
ghost use Rattle.std.specs.List.{AllByRecursion};
ghost use Rattle.std.specs.Option.{option_copied};
ghost use Rattle.iloc_spec_grammar.specs.Syntax.{Subtag as the_kind, is_word, lower, is_other_singleton};
ghost use Rattle.iloc_spec_grammar.specs.Reading.{take_first, skip_first};
ghost use Rattle.iloc_spec_grammar.specs.Values.{IsNormal, other_spelling, other_text};
ghost use Rattle.iloc_spec_grammar.specs.Meaning.{Fault};
ghost use Rattle.iloc_spec_parts.specs.Fronts.{has_other_length};
ghost use Rattle.iloc_spec_parts.specs.Parts.{OtherText, OtherTextFault};
ghost use Rattle.iloc_subtags.specs.Judging.{Accepts, Refuses, RunsOutOnlyIf};
ghost use Rattle.iloc_subtags.specs.Left.{left};
ghost use Rattle.iloc_memory.specs.Refusals.{RefusedWithin};
ghost use Rattle.iloc_other.specs.Reading.{OtherReads, OtherWantsMemory, OtherTextReads, OtherTextWants};

use crate::singleton::take_singleton;
use iloc_copying::{Copied, Copying, FromMemory, FromOwn};
use iloc_memory::Memory;
use iloc_subtags::{ParseError, Subtag, SubtagIterator, SubtagKind, next_has_length};
use iloc_word_list::WordList;
use iloc_writeable::{Pieces, Sink, Writeable};
use std::alloc::{AllocError, Global};
use std::marker::Model;
use std::{fmt, slice};

/// Any other extension: its singleton byte, kept as given, and a list of subtags.
#[derive(Debug, PartialEq, Eq, PartialOrd, Ord, Hash)]
pub struct Other {
    ext: u8,
    keys: WordList<SubtagKind, 8>,
}

// Written rather than derived: who lets one go then proves a call, and not what it holds.
impl Drop for Other {
    fn drop(self) {
        let Other {
            ext: _ext,
            keys: _keys,
        } = self;
    }
}

impl Model for Other {
    ghost Value = { ℕ × List (List ℕ) };

    ghost view = { λ o. (o.ext, o.keys) };

    ghost invariant = { λ o. is_ascii_alphanumeric o.ext ≡ true };

    ghost inverse = { λ o. record { ext = o.0; keys = o.1 } };
}

impl Other {
    /// The extension of these subtags, under this singleton.
    ///
    /// It needs an ASCII letter or digit, which is kept as it is, in its own case.
    pub fn from_vec_unchecked(ext: u8, keys: Vec<Subtag>) -> Self
        requires { is_ascii_alphanumeric ext ≡ true }
        ensures singleton { result.0 ≡ ext }
        ensures keys { result.1 ≡ keys.items }
    {
        let keys = WordList::from_vec(keys);
        Other { ext, keys }
    }

    /// The singleton as text.
    pub fn get_ext_str(&self) -> &str
        ensures { result.now ≡ self.now.0 ∷ [] }
    {
        unsafe { str::from_utf8_unchecked(slice::from_ref(&self.ext)) }
    }

    /// The singleton as a character.
    pub fn get_ext(&self) -> char
        ensures { result ≡ self.now.0 }
    {
        self.ext as char
    }

    /// The singleton as a byte.
    pub fn get_ext_byte(&self) -> u8
        ensures singleton { result ≡ self.now.0 }
        ensures letter_or_digit { is_ascii_alphanumeric self.now.0 ≡ true }
    {
        self.ext
    }

    /// The subtags in list order.
    pub fn as_slice(&self) -> &[Subtag]
        ensures words { result.now ≡ self.now.1 }
        ensures normal { AllByRecursion (IsNormal the_kind) self.now.1 }
    {
        self.keys.as_slice()
    }

    /// Parses a singleton other than `t`, `u` and `x`, in either case, and then the longest front of
    /// pieces of 2 to 8 bytes, of which it keeps those that are all letters or digits. What follows is
    /// ignored.
    ///
    /// These are the other extensions of UTS #35, section 3.2, which has no pieces to drop. Anything
    /// else is refused with `InvalidExtension`, also if no subtag is kept. `OutOfMemory` comes only
    /// if more than four are.
    pub fn try_from_utf8(alloc: Global, code_units: &[u8]) -> Result<Self, ParseError>
        ensures reads { OtherTextReads code_units.now result }
        ensures accepted { (o : ℕ × List (List ℕ)) → OtherText code_units.now o
            → Accepts (λ o. o) ⊤ o result }
        ensures refused { (f : Fault) → OtherTextFault code_units.now f
            → Refuses ⊤ f result }
        ensures memory { RunsOutOnlyIf (OtherTextWants code_units.now) result }
    {
        Self::try_from_utf8_in(alloc, code_units)
    }

    /// As `try_from_utf8`, from any memory. `OutOfMemory` comes only if room for at most as many subtags as the text
    /// has bytes was refused.
    pub fn try_from_utf8_in<M: Memory>(memory: M, code_units: &[u8]) -> Result<Self, ParseError>
        ensures reads { OtherTextReads code_units.now result }
        ensures accepted { (o : ℕ × List (List ℕ)) → OtherText code_units.now o
            → Accepts (λ o. o) ⊤ o result }
        ensures refused { (f : Fault) → OtherTextFault code_units.now f
            → Refuses ⊤ f result }
        ensures memory { RunsOutOnlyIf (OtherTextWants code_units.now) result }
        ensures out_of_memory { RunsOutOnlyIf
            (RefusedWithin M.refused (length code_units.now)) result }
    {
        Self::read_text(memory, code_units)
    }

    // Parses the extension. Its clauses say what is read and when memory runs out; the others follow from them.
    fn read_text<M: Memory>(memory: M, code_units: &[u8]) -> Result<Self, ParseError>
        ensures reads { OtherTextReads code_units.now result }
        ensures memory { RunsOutOnlyIf (OtherTextWants code_units.now) result }
        ensures out_of_memory { RunsOutOnlyIf
            (RefusedWithin M.refused (length code_units.now)) result }
    {
        let mut iter = SubtagIterator::new(code_units);
        let Some(ext) = take_singleton(&mut iter) else {
            return Err(ParseError::InvalidExtension);
        };
        if !is_other_ext(ext) {
            return Err(ParseError::InvalidExtension);
        }
        Other::try_from_iter(memory, ext, &mut iter)
    }

    /// Parses a `str`, as `try_from_utf8` parses bytes.
    pub fn try_from_str(alloc: Global, s: &str) -> Result<Self, ParseError>
        ensures reads { OtherTextReads s.now result }
        ensures accepted { (o : ℕ × List (List ℕ)) → OtherText s.now o
            → Accepts (λ o. o) ⊤ o result }
        ensures refused { (f : Fault) → OtherTextFault s.now f
            → Refuses ⊤ f result }
        ensures memory { RunsOutOnlyIf (OtherTextWants s.now) result }
    {
        Self::try_from_utf8_in(alloc, s.as_bytes())
    }

    /// Parses a `str`, as `try_from_utf8_in` parses bytes.
    pub fn try_from_str_in<M: Memory>(memory: M, s: &str) -> Result<Self, ParseError>
        ensures reads { OtherTextReads s.now result }
        ensures accepted { (o : ℕ × List (List ℕ)) → OtherText s.now o
            → Accepts (λ o. o) ⊤ o result }
        ensures refused { (f : Fault) → OtherTextFault s.now f
            → Refuses ⊤ f result }
        ensures memory { RunsOutOnlyIf (OtherTextWants s.now) result }
        ensures out_of_memory { RunsOutOnlyIf (RefusedWithin M.refused (length s.now)) result }
    {
        Self::try_from_utf8_in(memory, s.as_bytes())
    }

    /// Parses what follows the singleton, and leaves what no such extension takes. `OutOfMemory` comes only if room for
    /// at most as many subtags as there are pieces was refused.
    pub fn try_from_iter<M: Memory>(
        memory: M,
        ext: u8,
        iter: &mut SubtagIterator<'_>,
    ) -> Result<Self, ParseError>
        requires { is_ascii_alphanumeric ext ≡ true }
        ensures reads { OtherReads ext (left iter.old) (left iter.new) result }
        ensures memory { RunsOutOnlyIf (OtherWantsMemory (left iter.old)) result }
        ensures out_of_memory { RunsOutOnlyIf
            (RefusedWithin M.refused (length (left iter.old))) result }
    {
        let mut other = Other {
            ext,
            keys: WordList::new(),
        };
        'pieces: while let Some(piece) = take_piece(iter) {
            other.push_word(memory, piece)?;
        }
        if other.as_slice().is_empty() {
            return Err(ParseError::InvalidExtension);
        }
        Ok(other)
    }

    // Adds the piece at the end if it is a subtag. Up to four allocate nothing.
    fn push_word<M: Memory>(&mut self, memory: M, piece: &[u8]) -> Result<(), ParseError>
        ensures singleton { self.new.0 ≡ self.old.0 }
        ensures ok { OnOk result (self.new.1
            ≡ (if is_word the_kind piece.now then self.old.1 ++ lower piece.now ∷ []
            else self.old.1)) }
        ensures err { IfErr result
            (λ e. (e ≡ ParseError.OutOfMemory) × (is_word the_kind piece.now ≡ true)) }
        ensures succeeds { length self.old.1 < 4 → IsOk result }
        ensures out_of_memory { OnErr result (RefusedWithin M.refused (length self.old.1 + 1)) }
    {
        match Subtag::try_from_utf8(piece) {
            Ok(key) => Ok(self.keys.push_in(memory, key)?),
            Err(_) => Ok(()),
        }
    }

    /// A copy, from any memory. Refusal: `AllocError`, only if room for at most all the subtags was refused.
    pub fn clone_in<M: Memory>(&self, memory: M) -> Result<Self, AllocError>
        ensures value { IfOk result (λ copy. copy ≡ self.now) }
        ensures out_of_memory { OnErr result (RefusedWithin M.refused (length self.now.1)) }
    {
        self.copied(FromMemory(memory))
    }
}

impl Clone for Other {
    ghost is_clone = { λ o q. q ≡ o };

    fn clone(&self) -> Result<Self, AllocError> {
        self.copied(FromOwn)
    }
}

impl Copied for Other {
    ghost size = { λ o. length o.1 };

    fn copied<C: Copying>(&self, copying: C) -> Result<Self, AllocError> {
        Ok(Other {
            ext: self.ext,
            keys: self.keys.copied(copying)?,
        })
    }
}

/// The pieces are the singleton and the subtags; one without subtags has none.
impl Pieces for Other {
    ghost pieces = { other_spelling };

    fn has_pieces(&self) -> bool {
        !self.as_slice().is_empty()
    }

    fn write_pieces<S: Sink>(&self, sink: &mut S, first: bool) -> fmt::Result {
        let keys = self.as_slice();
        if keys.is_empty() {
            return Ok(());
        }
        let ext = self.get_ext_str();
        (ext, keys).write_pieces(sink, first)
    }
}

/// The singleton and the subtags; one without subtags prints nothing.
impl Writeable for Other {
    ghost text = { other_text };

    #[tactic(auto, unfolding(iloc_spec_grammar::specs::Values::other_text, iloc_spec_grammar::specs::Syntax::join))]
    fn write_to<S: Sink>(&self, sink: &mut S) -> fmt::Result {
        self.write_joined(sink)
    }

    fn writeable_borrow(&self) -> Option<&str> {
        None
    }
}

impl fmt::Display for Other {
    ghost output = { λ o. Some (other_text o) };

    fn fmt<W: fmt::Write>(&self, f: &mut fmt::Formatter<W>) -> fmt::Result {
        self.write_to(f)
    }
}

/// Whether a singleton, in lower case, is neither that of `t`, `u` nor `x`.
fn is_other_ext(ext: u8) -> bool
    ensures { result ≡ is_other_singleton ext }
{
    ext.is_ascii_alphanumeric() && !matches!(ext, b't' | b'u' | b'x')
}

/// Takes the next piece if it is as long as subtags are, 2 to 8 bytes; else nothing is taken.
#[tactic(auto, unfolding(iloc_subtags::specs::Lengths::has_length))]
fn take_piece<'a>(iter: &mut SubtagIterator<'a>) -> Option<&'a [u8]>
    ensures piece { option_copied result ≡ take_first has_other_length (left iter.old) }
    ensures rest { left iter.new ≡ skip_first has_other_length (left iter.old) }
{
    if !next_has_length::<SubtagKind, 8>(iter) {
        return None;
    }
    iter.next()
}
