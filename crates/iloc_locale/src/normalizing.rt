//! Normal texts of locales, and whether a locale has one.
ghost use Rattle.std.specs.Prelude.{◌≡◌, ◌↔◌, ⊤, IsTrue, IfOk, IfErr, length};
ghost use Rattle.std.specs.Cow.{cow_str_bytes};
ghost use Rattle.iloc_spec_grammar.specs.Syntax.{languages};
ghost use Rattle.iloc_spec_grammar.specs.Meaning.{Means, Fault, HasFault};
ghost use Rattle.iloc_spec_grammar.specs.Values.{IsWellFormed, AreWellFormed, text};
ghost use Rattle.iloc_memory.specs.Refusals.{RefusedWithin};
ghost use Rattle.iloc_writeable.specs.Writing.{IsLent};
ghost use Rattle.iloc_spec_parts.specs.Small.{SmallLocale, IsSmall, HasSmallFault, locale_of_small};
ghost use Rattle.iloc_subtags.specs.Judging.{Refusal, Accepts, Refuses, RunsOutOnlyIf};
ghost use Rattle.iloc_langid.specs.SmallLocaleReads.{SmallLocaleTextReads, small_locale_of};
ghost use Rattle.iloc_locale.specs.LocaleReading.{value_of, IsNormalizedLocale, NormalizingWantsMemory};
ghost use Rattle.iloc_spec_grammar.specs.Meaning as meaning;

use crate::locale::Locale;
use iloc_extensions::is_well_formed;
use iloc_langid::read_small_locale;
use iloc_memory::Memory;
use iloc_normalize::answered::ROOM;
use iloc_normalize::window::{WINDOW, answer_text};
use iloc_normalize::{Answered, Mode, normalize_short, text_of};
use iloc_subtags::{Language, ParseError, Region, Script, Subtag, UnicodeKey, Variant};
use iloc_writeable::to_string_or_borrow_in;
use std::alloc::Global;
use std::borrow::CowStr;

impl Locale {
    /// The normal text of what the text means, borrowed exactly if the text is that already.
    ///
    /// Refuses as the parser does. It allocates nothing on a normal text that is inline. Normalizing twice is
    /// once; texts mean the same exactly if their normal texts are equal; no text of a meaning is shorter;
    /// at most eight steps of rewriting lead there.
    #[inline(always)]
    pub fn normalize_utf8(alloc: Global, input: &[u8]) -> Result<CowStr<'_, Global>, ParseError>
        ensures ok { IfOk result (λ text. IsNormalizedLocale input.now (cow_str_bytes text)
            × (IsLent text ↔ (input.now ≡ cow_str_bytes text))) }
        ensures err { IfErr result (Refusal (HasFault languages input.now) ⊤) }
        ensures accepted { (M : meaning.Locale) → Means languages input.now M
            → Accepts cow_str_bytes ⊤ (text M) result }
        ensures refused { (f : Fault) → HasFault languages input.now f → Refuses ⊤ f result }
        ensures memory { RunsOutOnlyIf (NormalizingWantsMemory input.now) result }
    {
        Self::normalize_utf8_in(alloc, input)
    }

    /// As `normalize_utf8`, from any memory. `OutOfMemory` comes only if room for at most as many items as the text has
    /// bytes was refused.
    #[inline(always)]
    pub fn normalize_utf8_in<M: Memory>(
        memory: M,
        input: &[u8],
    ) -> Result<CowStr<'_, Global>, ParseError>
        ensures ok { IfOk result (λ text. IsNormalizedLocale input.now (cow_str_bytes text)
            × (IsLent text ↔ (input.now ≡ cow_str_bytes text))) }
        ensures err { IfErr result (Refusal (HasFault languages input.now) ⊤) }
        ensures accepted { (L : meaning.Locale) → Means languages input.now L
            → Accepts cow_str_bytes ⊤ (text L) result }
        ensures refused { (f : Fault) → HasFault languages input.now f → Refuses ⊤ f result }
        ensures memory { RunsOutOnlyIf (NormalizingWantsMemory input.now) result }
        ensures out_of_memory { RunsOutOnlyIf (RefusedWithin M.refused (length input.now)) result }
    {
        match normalize_short(memory, input) {
            Some(normal) => normal,
            None => Self::normalize_other(memory, input),
        }
    }

    // Normalizes a text that is not plain: from its bytes, and beyond the outline's limits by parsing it.
    #[inline(never)]
    fn normalize_other<M: Memory>(memory: M, input: &[u8]) -> Result<CowStr<'_, Global>, ParseError>
        ensures ok { IfOk result (λ text. IsNormalizedLocale input.now (cow_str_bytes text)
            × (IsLent text ↔ (input.now ≡ cow_str_bytes text))) }
        ensures err { IfErr result (Refusal (HasFault languages input.now) ⊤) }
        ensures memory { RunsOutOnlyIf (NormalizingWantsMemory input.now) result }
        ensures out_of_memory { RunsOutOnlyIf (RefusedWithin M.refused (length input.now)) result }
    {
        let mut window = [0u8; WINDOW];
        let mut room = [0u8; ROOM];
        match answer_text(Mode::Locale, input, &mut window, &mut room) {
            Answered::Normal(normal) => text_of(memory, input, normal),
            Answered::Refused(refusal) => Err(refusal),
            Answered::Nothing => Self::normalize_parsed(memory, input),
        }
    }

    // Normalizes a text by parsing it.
    #[inline(never)]
    fn normalize_parsed<M: Memory>(
        memory: M,
        input: &[u8],
    ) -> Result<CowStr<'_, Global>, ParseError>
        ensures ok { IfOk result (λ text. IsNormalizedLocale input.now (cow_str_bytes text)
            × (IsLent text ↔ (input.now ≡ cow_str_bytes text))) }
        ensures err { IfErr result (Refusal (HasFault languages input.now) ⊤) }
        ensures memory { RunsOutOnlyIf (NormalizingWantsMemory input.now) result }
        ensures out_of_memory { RunsOutOnlyIf (RefusedWithin M.refused (length input.now)) result }
    {
        let locale = Self::try_from_utf8_in(memory, input)?;
        Ok(to_string_or_borrow_in(memory, &locale, input)?)
    }

    /// Returns the normalized text of a `str`, as `normalize_utf8` does for bytes.
    #[inline(always)]
    pub fn normalize(alloc: Global, input: &str) -> Result<CowStr<'_, Global>, ParseError>
        ensures ok { IfOk result (λ text. IsNormalizedLocale input.now (cow_str_bytes text)
            × (IsLent text ↔ (input.now ≡ cow_str_bytes text))) }
        ensures err { IfErr result (Refusal (HasFault languages input.now) ⊤) }
        ensures accepted { (M : meaning.Locale) → Means languages input.now M
            → Accepts cow_str_bytes ⊤ (text M) result }
        ensures refused { (f : Fault) → HasFault languages input.now f → Refuses ⊤ f result }
        ensures memory { RunsOutOnlyIf (NormalizingWantsMemory input.now) result }
    {
        Self::normalize_in(alloc, input)
    }

    /// As `normalize_utf8_in`, of a `str`.
    #[inline(always)]
    pub fn normalize_in<M: Memory>(memory: M, input: &str) -> Result<CowStr<'_, Global>, ParseError>
        ensures ok { IfOk result (λ text. IsNormalizedLocale input.now (cow_str_bytes text)
            × (IsLent text ↔ (input.now ≡ cow_str_bytes text))) }
        ensures err { IfErr result (Refusal (HasFault languages input.now) ⊤) }
        ensures accepted { (L : meaning.Locale) → Means languages input.now L
            → Accepts cow_str_bytes ⊤ (text L) result }
        ensures refused { (f : Fault) → HasFault languages input.now f → Refuses ⊤ f result }
        ensures memory { RunsOutOnlyIf (NormalizingWantsMemory input.now) result }
        ensures out_of_memory { RunsOutOnlyIf (RefusedWithin M.refused (length input.now)) result }
    {
        Self::normalize_utf8_in(memory, input.as_bytes())
    }

    /// Whether the text of this locale parses back as it: the others ascend by singletons of their own, each
    /// with a subtag, and no value of a keyword holds `true` or a subtag of two characters.
    ///
    /// If it is, the text means this locale, and no other well-formed value has the same text.
    pub fn is_well_formed(&self) -> bool
        ensures exactly { IsTrue result ↔ IsWellFormed (value_of self.now) }
        ensures tests { IsTrue result ↔ AreWellFormed (value_of self.now).extensions }
        ensures back { IsTrue result
            → Means languages (text (value_of self.now)) (value_of self.now) }
        ensures one { IsTrue result → (M : meaning.Locale) → IsWellFormed M
            → text M ≡ text (value_of self.now) → M ≡ value_of self.now }
    {
        let _ = self.id.is_unknown();
        is_well_formed(&self.extensions)
    }

    /// Parses a locale of at most one variant, and one keyword of at most one subtag besides `true`, without
    /// allocating. Each such text is accepted.
    ///
    /// What is accepted means the locale of the same parts. `InvalidSubtag` and `InvalidExtension` also refuse what
    /// is a locale with more than that; `OutOfMemory` never comes.
    pub fn try_from_utf8_with_single_variant_single_keyword_unicode_extension(
        code_units: &[u8],
    ) -> Result<
        (
            Language,
            Option<Script>,
            Option<Region>,
            Option<Variant>,
            Option<(UnicodeKey, Option<Subtag>)>,
        ),
        ParseError,
    >
        ensures reads { SmallLocaleTextReads code_units.now result }
        ensures accepted { (r : SmallLocale) → IsSmall languages code_units.now r
            → Accepts small_locale_of ⊥ r result }
        ensures refused { (f : Fault) → HasSmallFault languages code_units.now f
            → Refuses ⊥ f result }
        ensures meant { IfOk result (λ parts. Means languages code_units.now
            (locale_of_small (small_locale_of parts))) }
    {
        read_small_locale(code_units)
    }
}
