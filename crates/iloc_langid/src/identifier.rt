//! Language identifiers.
ghost use Rattle.std.specs.Prelude.{◌≡◌, ◌↔◌, ⊤, IsTrue, IfSome, Ok, OnErr, IsSome, IfOk, IsOkAnd, Some, length};
ghost use Rattle.std.specs.Ordering.{nat_cmp};
ghost use Rattle.std.specs.Cmp.Lexicographic.{slice_cmp};
ghost use Rattle.iloc_spec_grammar.specs.Syntax.{languages, two_or_three, pieces, head, Identifier, identifier_pieces, Language as the_kind};
ghost use Rattle.iloc_spec_grammar.specs.Meaning.{IdentifierMeans, Fault, HasIdentifierFault};
ghost use Rattle.iloc_spec_grammar.specs.Values.{IsIdentifierValue, IsNormal, identifier_text};
ghost use Rattle.iloc_spec_parts.specs.Orders.{identifier_cmp};
ghost use Rattle.iloc_memory.specs.Refusals.{RefusedWithin};
ghost use Rattle.iloc_subtags.specs.Judging.{Accepts, Refuses, RunsOutOnlyIf};
ghost use Rattle.iloc_langid.specs.Unknown.{unknown_identifier};
ghost use Rattle.iloc_langid.specs.Reads.{value_of, IdentifierReads, IdentifierWantsMemory, KeepsThroughSteps, IsIdentifierLanguageAlone, IdentifierMeansOnly};
ghost use Rattle.std.specs.Cow.{cow_str_bytes};
ghost use Rattle.iloc_writeable.specs.Writing.{IsLent};

use crate::reader::{fill_text, read_head, short_parts};
use iloc_copying::{Copied, Copying, FromMemory, FromOwn};
use iloc_memory::Memory;
use iloc_subtags::{Language, ParseError, Region, Script, SubtagIterator, WordKind, WordOf};
use iloc_word_list::Variants;
use iloc_writeable::{Pieces, Sink, Writeable, cmp_utf8};
use std::alloc::{AllocError, Global};
use std::borrow::CowStr;
use std::cmp::Ordering;
use std::fmt;

/// A language, and perhaps a script, a region and variants: a `unicode_language_id` of UTS #35 section 3.1.
///
/// `en-Latn-US-posix` is one. Subtags are kept in their normal case and variants as a set, so equal values
/// are equal meanings.
///
/// ```text
/// let identifier = LanguageIdentifier::try_from_str(alloc, "EN-latn-us-POSIX")?; // en-Latn-US-posix
/// identifier.region == Some(Region::try_from_str("us")?); // true
/// identifier.normalizing_eq("en-LATN-US-posix"); // true
/// ```
#[derive(Drop, PartialEq, Eq, Hash)]
pub struct LanguageIdentifier {
    pub language: Language,
    pub script: Option<Script>,
    pub region: Option<Region>,
    pub variants: Variants,
}

// Written rather than derived: no variants are not copied.
impl Clone for LanguageIdentifier {
    ghost is_clone = { λ i j. j ≡ i };

    #[inline(always)]
    fn clone(&self) -> Result<Self, AllocError> {
        self.copied(FromOwn)
    }
}

impl Copied for LanguageIdentifier {
    ghost size = { λ i. length i.variants };

    #[inline(always)]
    fn copied<C: Copying>(&self, copying: C) -> Result<Self, AllocError> {
        let mut copy = LanguageIdentifier {
            language: self.language,
            script: self.script,
            region: self.region,
            variants: Variants::new(),
        };
        if !self.variants.is_empty() {
            copy.variants = self.variants.copied(copying)?;
        }
        Ok(copy)
    }
}

impl LanguageIdentifier {
    /// A copy, from any memory. Refusal: `AllocError`, only if room for at most all the variants was refused.
    #[inline(always)]
    pub fn clone_in<M: Memory>(&self, memory: M) -> Result<Self, AllocError>
        ensures value { IfOk result (λ copy. copy ≡ self.now) }
        ensures out_of_memory { OnErr result
            (RefusedWithin M.refused (length self.now.variants)) }
    {
        self.copied(FromMemory(memory))
    }

    /// The unknown identifier, `und`.
    pub fn unknown() -> Self
        ensures { value_of result ≡ unknown_identifier }
    {
        LanguageIdentifier {
            language: Language::unknown(),
            script: None,
            region: None,
            variants: Variants::new(),
        }
    }

    /// Whether this is `und` and nothing else.
    ///
    /// In every identifier, parsed or built, all subtags are in the normal case of their kinds, and the variants
    /// ascend strictly.
    pub fn is_unknown(&self) -> bool
        ensures exactly { IsTrue result ↔ (value_of self.now ≡ unknown_identifier) }
        ensures value { IsIdentifierValue languages (value_of self.now) }
    {
        self.look_at_words();
        self.language.is_unknown()
            && self.script.is_none()
            && self.region.is_none()
            && self.variants.is_empty()
    }

    /// Parses all of the text, which need not be UTF-8, in whatever case.
    ///
    /// Refuses with `InvalidLanguage` if the first piece is no language, with `InvalidSubtag` if the
    /// pieces are no identifier for any other reason, and with `OutOfMemory` only if more than four
    /// variants stand in the text. Steps of rewriting keep what is parsed, and so does the wider table of
    /// languages: what is accepted with languages of two or three letters is read with the same value.
    #[inline(always)]
    pub fn try_from_utf8(alloc: Global, code_units: &[u8]) -> Result<Self, ParseError>
        ensures reads { IdentifierReads (pieces code_units.now) result }
        ensures accepted { (i : Identifier) → IdentifierMeans languages (pieces code_units.now) i
            → Accepts value_of ⊤ i result }
        ensures refused { (f : Fault) → HasIdentifierFault languages (pieces code_units.now) f
            → Refuses ⊤ f result }
        ensures memory { RunsOutOnlyIf (IdentifierWantsMemory (pieces code_units.now)) result }
        ensures steps { KeepsThroughSteps code_units.now result }
        ensures narrow { (i : Identifier) → IdentifierMeans two_or_three (pieces code_units.now) i
            → Accepts value_of ⊤ i result }
    {
        Self::try_from_utf8_in(alloc, code_units)
    }

    /// As `try_from_utf8`, from any memory. `OutOfMemory` comes only if room for at most as many variants as the text
    /// has bytes was refused.
    #[inline(always)]
    pub fn try_from_utf8_in<M: Memory>(memory: M, code_units: &[u8]) -> Result<Self, ParseError>
        ensures reads { IdentifierReads (pieces code_units.now) result }
        ensures accepted { (i : Identifier) → IdentifierMeans languages (pieces code_units.now) i
            → Accepts value_of ⊤ i result }
        ensures refused { (f : Fault) → HasIdentifierFault languages (pieces code_units.now) f
            → Refuses ⊤ f result }
        ensures memory { RunsOutOnlyIf (IdentifierWantsMemory (pieces code_units.now)) result }
        ensures steps { KeepsThroughSteps code_units.now result }
        ensures narrow { (i : Identifier) → IdentifierMeans two_or_three (pieces code_units.now) i
            → Accepts value_of ⊤ i result }
        ensures out_of_memory { RunsOutOnlyIf
            (RefusedWithin M.refused (length code_units.now)) result }
    {
        // (a refusal comes before an identifier is made)
        if let Some(plain) = short_parts(code_units)? {
            return Ok(LanguageIdentifier {
                language: plain.language,
                script: plain.script,
                region: plain.region,
                variants: Variants::new(),
            });
        }
        let mut identifier = LanguageIdentifier::unknown();
        fill_text(memory, code_units, &mut identifier)?;
        Ok(identifier)
    }

    /// Leaves the unknown identifier, `und`.
    pub fn clear(&mut self)
        ensures { value_of self.new ≡ unknown_identifier }
    {
        self.language = Language::unknown();
        self.script = None;
        self.region = None;
        self.variants.clear();
    }

    /// Parses all of a `str`, as `try_from_utf8` parses bytes.
    #[inline(always)]
    pub fn try_from_str(alloc: Global, s: &str) -> Result<Self, ParseError>
        ensures reads { IdentifierReads (pieces s.now) result }
        ensures accepted { (i : Identifier) → IdentifierMeans languages (pieces s.now) i
            → Accepts value_of ⊤ i result }
        ensures refused { (f : Fault) → HasIdentifierFault languages (pieces s.now) f
            → Refuses ⊤ f result }
        ensures memory { RunsOutOnlyIf (IdentifierWantsMemory (pieces s.now)) result }
        ensures steps { KeepsThroughSteps s.now result }
        ensures narrow { (i : Identifier) → IdentifierMeans two_or_three (pieces s.now) i
            → Accepts value_of ⊤ i result }
    {
        // (a call of `try_from_str_in` would copy the identifier once more)
        Self::try_from_utf8_in(alloc, s.as_bytes())
    }

    /// Parses all of a `str`, as `try_from_utf8_in` parses bytes.
    #[inline(always)]
    pub fn try_from_str_in<M: Memory>(memory: M, s: &str) -> Result<Self, ParseError>
        ensures reads { IdentifierReads (pieces s.now) result }
        ensures accepted { (i : Identifier) → IdentifierMeans languages (pieces s.now) i
            → Accepts value_of ⊤ i result }
        ensures refused { (f : Fault) → HasIdentifierFault languages (pieces s.now) f
            → Refuses ⊤ f result }
        ensures memory { RunsOutOnlyIf (IdentifierWantsMemory (pieces s.now)) result }
        ensures steps { KeepsThroughSteps s.now result }
        ensures narrow { (i : Identifier) → IdentifierMeans two_or_three (pieces s.now) i
            → Accepts value_of ⊤ i result }
        ensures out_of_memory { RunsOutOnlyIf (RefusedWithin M.refused (length s.now)) result }
    {
        Self::try_from_utf8_in(memory, s.as_bytes())
    }

    /// Parses the identifier of a locale: up to the first piece of one byte that isn't the first piece. What
    /// follows is ignored.
    pub fn try_from_locale_bytes(alloc: Global, v: &[u8]) -> Result<Self, ParseError>
        ensures reads { IdentifierReads (head (pieces v.now)) result }
        ensures accepted { (i : Identifier) → IdentifierMeans languages (head (pieces v.now)) i
            → Accepts value_of ⊤ i result }
        ensures refused { (f : Fault) → HasIdentifierFault languages (head (pieces v.now)) f
            → Refuses ⊤ f result }
        ensures memory { RunsOutOnlyIf (IdentifierWantsMemory (head (pieces v.now))) result }
    {
        Self::try_from_locale_bytes_in(alloc, v)
    }

    /// As `try_from_locale_bytes`, from any memory. `OutOfMemory` comes only if room for at most as many variants as the
    /// text has bytes was refused.
    pub fn try_from_locale_bytes_in<M: Memory>(memory: M, v: &[u8]) -> Result<Self, ParseError>
        ensures reads { IdentifierReads (head (pieces v.now)) result }
        ensures accepted { (i : Identifier) → IdentifierMeans languages (head (pieces v.now)) i
            → Accepts value_of ⊤ i result }
        ensures refused { (f : Fault) → HasIdentifierFault languages (head (pieces v.now)) f
            → Refuses ⊤ f result }
        ensures memory { RunsOutOnlyIf (IdentifierWantsMemory (head (pieces v.now))) result }
        ensures out_of_memory { RunsOutOnlyIf (RefusedWithin M.refused (length v.now)) result }
    {
        read_head(memory, &mut SubtagIterator::new(v))
    }

    /// The byte order of the printed text against the bytes. It makes no text.
    pub fn strict_cmp(&self, other: &[u8]) -> Ordering
        ensures { result ≡ slice_cmp nat_cmp (identifier_text (value_of self.now)) other.now }
    {
        cmp_utf8(self, other)
    }

    /// The order by language, script, region and variants; `Equal` exactly if the two are equal.
    pub fn total_cmp(&self, other: &Self) -> Ordering
        ensures { result ≡ identifier_cmp (value_of self.now) (value_of other.now) }
    {
        // (each order is asked at once, which spares its number)
        let by_language = self.language.cmp(&other.language);
        if by_language.is_ne() {
            return by_language;
        }
        let by_script = self.script.cmp(&other.script);
        if by_script.is_ne() {
            return by_script;
        }
        let by_region = self.region.cmp(&other.region);
        if by_region.is_ne() {
            return by_region;
        }
        self.variants.cmp(&other.variants)
    }

    // Looks at each subtag, so that all are known to be normal.
    fn look_at_words(&self)
        ensures { IsIdentifierValue languages (value_of self.now) }
    {
        let _ = self.language.as_str();
        look_at(&self.script);
        look_at(&self.region);
        let _ = self.variants.as_slice();
    }
}

// Looks at the subtag, if there is one.
fn look_at<K: WordKind<N>, const N: usize>(word: &Option<WordOf<K, N>>)
    ensures { IfSome word.now (IsNormal K.kind) }
{
    if let Some(word) = word {
        let _ = word.as_str();
    }
}

impl Pieces for LanguageIdentifier {
    ghost pieces = { λ i. identifier_pieces (value_of i) };

    fn has_pieces(&self) -> bool {
        true
    }

    #[inline(always)]
    #[tactic(auto, using(iloc_writeable::proofs::PiecesLemmas::flat_map_words))]
    fn write_pieces<S: Sink>(&self, sink: &mut S, first: bool) -> fmt::Result {
        (&self.language, &self.script, &self.region, &self.variants).write_pieces(sink, first)
    }
}

/// Prints the normal text: language, script, region, variants ascending, joined by hyphens. It is borrowed
/// if there is a language and nothing else.
impl Writeable for LanguageIdentifier {
    ghost text = { λ i. identifier_text (value_of i) };

    ghost lends = { IsIdentifierLanguageAlone };

    #[tactic(auto, unfolding(iloc_spec_grammar::specs::Values::identifier_text, iloc_spec_grammar::specs::Syntax::join))]
    fn write_to<S: Sink>(&self, sink: &mut S) -> fmt::Result {
        self.write_joined(sink)
    }

    #[tactic(auto, unfolding(iloc_spec_grammar::specs::Values::identifier_text, iloc_spec_grammar::specs::Syntax::join))]
    fn writeable_borrow(&self) -> Option<&str>
        ensures lends { IsSome result ↔ IsIdentifierLanguageAlone self.now }
        ensures text { IfSome result (λ t. t.now ≡ identifier_text (value_of self.now)) }
        ensures normal { IsSome result → IsNormal (the_kind languages) self.now.language }
    {
        if self.script.is_none() && self.region.is_none() && self.variants.is_empty() {
            return Some(self.language.as_str());
        }
        None
    }
}

impl LanguageIdentifier {
    /// Returns the printed text, borrowed exactly if the identifier is a language alone.
    ///
    /// The text parses as this identifier and as no other. Allocates once, unless the text is borrowed;
    /// `AllocError` if that fails, and so never for a language alone.
    pub fn write_to_string(&self, alloc: Global) -> Result<CowStr<'_, Global>, AllocError>
        ensures text { IfOk result (λ t. cow_str_bytes t ≡ identifier_text (value_of self.now)) }
        ensures back { IfOk result
            (λ t. IdentifierMeansOnly (cow_str_bytes t) (value_of self.now)) }
        ensures lent { IsIdentifierLanguageAlone self.now → IsOkAnd result IsLent }
        ensures owned { IfOk result (λ t. IsLent t → IsIdentifierLanguageAlone self.now) }
        ensures memory { OnErr result (¬ (IsIdentifierLanguageAlone self.now)) }
    {
        self.write_to_string_in(alloc)
    }

    /// As `write_to_string`, from any memory. `AllocError` comes only if room for at most as many bytes as the text has
    /// was refused.
    pub fn write_to_string_in<M: Memory>(&self, memory: M) -> Result<CowStr<'_, Global>, AllocError>
        ensures text { IfOk result (λ t. cow_str_bytes t ≡ identifier_text (value_of self.now)) }
        ensures back { IfOk result
            (λ t. IdentifierMeansOnly (cow_str_bytes t) (value_of self.now)) }
        ensures lent { IsIdentifierLanguageAlone self.now → IsOkAnd result IsLent }
        ensures owned { IfOk result (λ t. IsLent t → IsIdentifierLanguageAlone self.now) }
        ensures memory { OnErr result (¬ (IsIdentifierLanguageAlone self.now)) }
        ensures out_of_memory { OnErr result
            (RefusedWithin M.refused (length (identifier_text (value_of self.now)))) }
    {
        // (it states that every identifier is a value, without which `back` would not be known)
        let _ = self.is_unknown();
        Writeable::write_to_string_in(self, memory)
    }
}

/// Prints the text itself.
impl fmt::Debug for LanguageIdentifier {
    ghost debug_output = { λ i. Some (identifier_text (value_of i)) };

    fn fmt<W: fmt::Write>(&self, f: &mut fmt::Formatter<W>) -> fmt::Result {
        fmt::Display::fmt(self, f)
    }
}

impl fmt::Display for LanguageIdentifier {
    ghost output = { λ i. Some (identifier_text (value_of i)) };

    fn fmt<W: fmt::Write>(&self, f: &mut fmt::Formatter<W>) -> fmt::Result {
        self.write_to(f)
    }
}
