//! Normal texts of identifiers, and whether a text means an identifier.
ghost use Rattle.std.specs.Prelude.{◌≡◌, ◌↔◌, ⊤, IsTrue, IfOk, IfErr, length};
ghost use Rattle.std.specs.Cow.{cow_str_bytes};
ghost use Rattle.iloc_spec_grammar.specs.Syntax.{pieces, languages, Identifier};
ghost use Rattle.iloc_spec_grammar.specs.Meaning.{IdentifierMeans, Fault, HasIdentifierFault};
ghost use Rattle.iloc_spec_grammar.specs.Values.{identifier_text};
ghost use Rattle.iloc_subtags.specs.Judging.{Refusal, Accepts, Refuses, RunsOutOnlyIf};
ghost use Rattle.iloc_writeable.specs.Writing.{IsLent};
ghost use Rattle.iloc_memory.specs.Refusals.{RefusedWithin};
ghost use Rattle.iloc_langid.specs.Reads.{value_of};
ghost use Rattle.iloc_langid.specs.Normalizing.{IsNormalizedIdentifier, NormalizingIdentifierWantsMemory};

use crate::agreeing::has_variants;
use crate::identifier::LanguageIdentifier;
use iloc_memory::Memory;
use iloc_normalize::answered::ROOM;
use iloc_normalize::window::{WINDOW, answer_text};
use iloc_normalize::{Answered, Mode, normalize_short, text_of};
use iloc_subtags::{Language, ParseError, RegionKind, ScriptKind, SubtagIterator, take_word};
use iloc_writeable::to_string_or_borrow_in;
use std::alloc::Global;
use std::borrow::CowStr;

impl LanguageIdentifier {
    /// The normal text of what the text means, borrowed exactly if the text is that already.
    ///
    /// Refuses as the parser does. It allocates nothing on a normal text with at most four variants.
    /// Normalizing twice is once; texts mean the same exactly if their normal texts are equal; each text
    /// of a meaning is as long; two steps, in case and in the order of variants, lead there.
    #[inline(always)]
    pub fn normalize_utf8(alloc: Global, input: &[u8]) -> Result<CowStr<'_, Global>, ParseError>
        ensures ok { IfOk result (λ text. IsNormalizedIdentifier input.now (cow_str_bytes text)
            × (IsLent text ↔ (input.now ≡ cow_str_bytes text))) }
        ensures err { IfErr result (Refusal (HasIdentifierFault languages (pieces input.now)) ⊤) }
        ensures accepted { (i : Identifier) → IdentifierMeans languages (pieces input.now) i
            → Accepts cow_str_bytes ⊤ (identifier_text i) result }
        ensures refused { (f : Fault) → HasIdentifierFault languages (pieces input.now) f
            → Refuses ⊤ f result }
        ensures memory { RunsOutOnlyIf (NormalizingIdentifierWantsMemory input.now) result }
    {
        Self::normalize_utf8_in(alloc, input)
    }

    /// As `normalize_utf8`, from any memory. `OutOfMemory` comes only if room for at most as many items as the text has
    /// bytes was refused.
    #[inline(always)]
    pub fn normalize_utf8_in<M: Memory>(
        memory: M,
        input: &[u8],
    ) -> Result<CowStr<'_, Global>, ParseError>
        ensures ok { IfOk result (λ text. IsNormalizedIdentifier input.now (cow_str_bytes text)
            × (IsLent text ↔ (input.now ≡ cow_str_bytes text))) }
        ensures err { IfErr result (Refusal (HasIdentifierFault languages (pieces input.now)) ⊤) }
        ensures accepted { (i : Identifier) → IdentifierMeans languages (pieces input.now) i
            → Accepts cow_str_bytes ⊤ (identifier_text i) result }
        ensures refused { (f : Fault) → HasIdentifierFault languages (pieces input.now) f
            → Refuses ⊤ f result }
        ensures memory { RunsOutOnlyIf (NormalizingIdentifierWantsMemory input.now) result }
        ensures out_of_memory { RunsOutOnlyIf (RefusedWithin M.refused (length input.now)) result }
    {
        match normalize_short(memory, input) {
            Some(normal) => normal,
            None => Self::normalize_other(memory, input),
        }
    }

    // Normalizes a text that is not plain: from its bytes, and beyond the outline's limits by parsing it.
    #[inline(never)]
    fn normalize_other<M: Memory>(memory: M, input: &[u8]) -> Result<CowStr<'_, Global>, ParseError>
        ensures ok { IfOk result (λ text. IsNormalizedIdentifier input.now (cow_str_bytes text)
            × (IsLent text ↔ (input.now ≡ cow_str_bytes text))) }
        ensures err { IfErr result (Refusal (HasIdentifierFault languages (pieces input.now)) ⊤) }
        ensures memory { RunsOutOnlyIf (NormalizingIdentifierWantsMemory input.now) result }
        ensures out_of_memory { RunsOutOnlyIf (RefusedWithin M.refused (length input.now)) result }
    {
        let mut window = [0u8; WINDOW];
        let mut room = [0u8; ROOM];
        match answer_text(Mode::Langid, input, &mut window, &mut room) {
            Answered::Normal(normal) => text_of(memory, input, normal),
            Answered::Refused(refusal) => Err(refusal),
            Answered::Nothing => Self::normalize_parsed(memory, input),
        }
    }

    // Normalizes a text by parsing it.
    #[inline(never)]
    fn normalize_parsed<M: Memory>(
        memory: M,
        input: &[u8],
    ) -> Result<CowStr<'_, Global>, ParseError>
        ensures ok { IfOk result (λ text. IsNormalizedIdentifier input.now (cow_str_bytes text)
            × (IsLent text ↔ (input.now ≡ cow_str_bytes text))) }
        ensures err { IfErr result (Refusal (HasIdentifierFault languages (pieces input.now)) ⊤) }
        ensures memory { RunsOutOnlyIf (NormalizingIdentifierWantsMemory input.now) result }
        ensures out_of_memory { RunsOutOnlyIf (RefusedWithin M.refused (length input.now)) result }
    {
        let identifier = Self::try_from_utf8_in(memory, input)?;
        Ok(to_string_or_borrow_in(memory, &identifier, input)?)
    }

    /// Returns the normalized text of a `str`, as `normalize_utf8` does for bytes.
    #[inline(always)]
    pub fn normalize(alloc: Global, input: &str) -> Result<CowStr<'_, Global>, ParseError>
        ensures ok { IfOk result (λ text. IsNormalizedIdentifier input.now (cow_str_bytes text)
            × (IsLent text ↔ (input.now ≡ cow_str_bytes text))) }
        ensures err { IfErr result (Refusal (HasIdentifierFault languages (pieces input.now)) ⊤) }
        ensures accepted { (i : Identifier) → IdentifierMeans languages (pieces input.now) i
            → Accepts cow_str_bytes ⊤ (identifier_text i) result }
        ensures refused { (f : Fault) → HasIdentifierFault languages (pieces input.now) f
            → Refuses ⊤ f result }
        ensures memory { RunsOutOnlyIf (NormalizingIdentifierWantsMemory input.now) result }
    {
        Self::normalize_in(alloc, input)
    }

    /// As `normalize_utf8_in`, of a `str`.
    #[inline(always)]
    pub fn normalize_in<M: Memory>(memory: M, input: &str) -> Result<CowStr<'_, Global>, ParseError>
        ensures ok { IfOk result (λ text. IsNormalizedIdentifier input.now (cow_str_bytes text)
            × (IsLent text ↔ (input.now ≡ cow_str_bytes text))) }
        ensures err { IfErr result (Refusal (HasIdentifierFault languages (pieces input.now)) ⊤) }
        ensures accepted { (i : Identifier) → IdentifierMeans languages (pieces input.now) i
            → Accepts cow_str_bytes ⊤ (identifier_text i) result }
        ensures refused { (f : Fault) → HasIdentifierFault languages (pieces input.now) f
            → Refuses ⊤ f result }
        ensures memory { RunsOutOnlyIf (NormalizingIdentifierWantsMemory input.now) result }
        ensures out_of_memory { RunsOutOnlyIf (RefusedWithin M.refused (length input.now)) result }
    {
        Self::normalize_utf8_in(memory, input.as_bytes())
    }

    /// Whether the text is an identifier that means this one: in whatever case, its variants in whatever
    /// order. It allocates nothing.
    pub fn normalizing_eq(&self, other: &str) -> bool
        ensures { IsTrue result ↔ IdentifierMeans languages (pieces other.now) (value_of self.now) }
    {
        let mut iter = SubtagIterator::new(other.as_bytes());
        let Some(first) = iter.next() else {
            return false;
        };
        let Ok(language) = Language::try_from_utf8(first) else {
            return false;
        };
        if language != self.language {
            return false;
        }
        let script = take_word::<ScriptKind, 4>(&mut iter);
        if script != self.script {
            return false;
        }
        let region = take_word::<RegionKind, 3>(&mut iter);
        if region != self.region {
            return false;
        }
        has_variants(iter, self.variants.as_slice())
    }
}
