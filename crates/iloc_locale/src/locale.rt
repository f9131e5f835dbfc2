//! The type, and its parsers.
ghost use Rattle.std.specs.Prelude.{◌≡◌, ⊤, ℕ, length, IfOk, OnErr, Ok};
ghost use Rattle.std.specs.Result.{result_and};
ghost use Rattle.iloc_spec_grammar.specs.Syntax.{Text, languages, two_or_three};
ghost use Rattle.iloc_spec_grammar.specs.Meaning as meaning;
ghost use Rattle.iloc_spec_grammar.specs.Meaning.{Means, Fault, HasFault};
ghost use Rattle.iloc_spec_grammar.specs.Values.{TextStep, Leads, IsWellFormed};
ghost use Rattle.iloc_locale.specs.LocaleReading.{value_of, unknown_locale, LocaleTextAnswers};
ghost use Rattle.iloc_memory.specs.Refusals.{RefusedWithin};
ghost use Rattle.iloc_locale.specs.Sizes.{locale_items};

use iloc_copying::{FromMemory, FromOwn};
use iloc_extensions::copying::{fill, none_for};
use iloc_extensions::{Extensions, read_blocks};
use iloc_langid::LanguageIdentifier;
use iloc_langid::reader::{fill_head, fill_short};
use iloc_memory::Memory;
use iloc_subtags::{ParseError, SubtagIterator};
use std::alloc::{AllocError, Global};

/// An identifier with extensions: a `unicode_locale_id` of UTS #35 section 3.
///
/// `en-US-u-ca-buddhist` is one. Both parts can be set to what no text means: `is_well_formed` tells whether
/// the text of a locale parses back as it.
///
/// ```text
/// let mut locale = Locale::try_from_str(alloc, "EN-us-u-ca-Buddhist")?; // en-US-u-ca-buddhist
/// locale.id.region = Some(Region::try_from_str("gb")?);
/// locale.normalizing_eq(alloc, "en-gb-u-ca-buddhist")?; // true
/// ```
#[derive(Drop, PartialEq, Eq, Hash)]
pub struct Locale {
    /// The identifier.
    pub id: LanguageIdentifier,
    /// All else.
    pub extensions: Extensions,
}

// Written rather than derived: empty parts are not copied.
impl Clone for Locale {
    ghost use Rattle.iloc_locale.specs.LocaleReading.{value_of};

    ghost is_clone = { λ l m. value_of m ≡ value_of l };

    #[inline(always)]
    fn clone(&self) -> Result<Self, AllocError> {
        let mut extensions = none_for(FromOwn, &self.extensions);
        fill(FromOwn, &mut extensions, &self.extensions)?;
        Ok(Locale {
            id: self.id.clone()?,
            extensions,
        })
    }
}

impl Locale {
    ghost use Rattle.iloc_extensions.specs.ExtensionsValue as extensions;
    ghost use Rattle.iloc_spec_grammar.specs.Meaning.{no_extensions};
    ghost use Rattle.iloc_locale.specs.LocaleReading.{LocaleTextReads, LocaleWantsMemory};
    ghost use Rattle.iloc_subtags.specs.Judging.{Accepts, Refuses, RunsOutOnlyIf};

    /// A copy, from any memory. Refusal: `AllocError`, only if room for at most as many items as there are in all was
    /// refused.
    #[inline(always)]
    pub fn clone_in<M: Memory>(&self, memory: M) -> Result<Self, AllocError>
        ensures value { IfOk result (λ copy. value_of copy ≡ value_of self.now) }
        ensures out_of_memory { OnErr result (RefusedWithin M.refused (locale_items self.now)) }
    {
        let mut extensions = none_for(FromMemory(memory), &self.extensions);
        fill(FromMemory(memory), &mut extensions, &self.extensions)?;
        Ok(Locale {
            id: self.id.clone_in(memory)?,
            extensions,
        })
    }

    /// The unknown locale, `und`.
    pub fn unknown(alloc: Global) -> Self
        ensures { value_of result ≡ unknown_locale }
    {
        Locale::unknown_in(alloc)
    }

    /// As `unknown`, from any memory. It asks for no room.
    pub fn unknown_in<M: Memory>(memory: M) -> Self
        ensures { value_of result ≡ unknown_locale }
    {
        Locale {
            id: LanguageIdentifier::unknown(),
            extensions: Extensions::new_in(memory),
        }
    }

    /// Parses all of the text, which need not be UTF-8, in whatever case.
    ///
    /// A text is accepted exactly if the grammar gives it a meaning, and what is parsed is that meaning.
    /// Every other is refused with the fault that the grammar names: `InvalidLanguage` if the first piece is
    /// no language, `InvalidSubtag` if the head is no identifier, and else the fault of the first bad block.
    /// `OutOfMemory` comes only if the front of the head has more than four variants, or a block is reached
    /// that is not short.
    #[inline(always)]
    pub fn try_from_utf8(alloc: Global, code_units: &[u8]) -> Result<Self, ParseError>
        ensures reads { LocaleTextReads code_units.now result }
        ensures accepted { (M : meaning.Locale) → Means languages code_units.now M
            → Accepts value_of ⊤ M result }
        ensures refused { (f : Fault) → HasFault languages code_units.now f
            → Refuses ⊤ f result }
        ensures memory { RunsOutOnlyIf (LocaleWantsMemory code_units.now) result }
        ensures well_formed { IfOk result (λ l. IsWellFormed (value_of l)) }
        ensures steps { IfOk result (λ l. (n : ℕ) (u : Text)
            → Leads (TextStep languages) n code_units.now u → Means languages u (value_of l)) }
        ensures narrow { (M : meaning.Locale) → Means two_or_three code_units.now M
            → Accepts value_of ⊤ M result }
    {
        Self::try_from_utf8_in(alloc, code_units)
    }

    /// As `try_from_utf8`, from any memory. `OutOfMemory` comes only if room for at most as many items as the text has
    /// bytes was refused.
    #[inline(always)]
    pub fn try_from_utf8_in<M: Memory>(memory: M, code_units: &[u8]) -> Result<Self, ParseError>
        ensures reads { LocaleTextReads code_units.now result }
        ensures accepted { (L : meaning.Locale) → Means languages code_units.now L
            → Accepts value_of ⊤ L result }
        ensures refused { (f : Fault) → HasFault languages code_units.now f
            → Refuses ⊤ f result }
        ensures memory { RunsOutOnlyIf (LocaleWantsMemory code_units.now) result }
        ensures well_formed { IfOk result (λ l. IsWellFormed (value_of l)) }
        ensures steps { IfOk result (λ l. (n : ℕ) (u : Text)
            → Leads (TextStep languages) n code_units.now u → Means languages u (value_of l)) }
        ensures narrow { (L : meaning.Locale) → Means two_or_three code_units.now L
            → Accepts value_of ⊤ L result }
        ensures out_of_memory { RunsOutOnlyIf
            (RefusedWithin M.refused (length code_units.now)) result }
    {
        let mut id = LanguageIdentifier::unknown();
        // (a refusal comes before a locale is made)
        if fill_short(code_units, &mut id)? {
            return Ok(Locale {
                id,
                extensions: Extensions::new_in(memory),
            });
        }
        Self::filled(memory, code_units)
    }

    // Parses all of the text. It stands apart, since room for a locale is cleared where its function begins, and a plain
    // text or an early refusal needs none.
    #[inline(always)]
    fn filled<M: Memory>(memory: M, code_units: &[u8]) -> Result<Self, ParseError>
        ensures reads { LocaleTextAnswers code_units.now result }
        ensures out_of_memory { RunsOutOnlyIf
            (RefusedWithin M.refused (length code_units.now)) result }
    {
        let mut locale = Locale::unknown_in(memory);
        locale.fill(memory, code_units)?;
        Ok(locale)
    }

    /// Leaves the unknown locale, `und`.
    pub fn clear(&mut self)
        ensures { value_of self.new ≡ unknown_locale }
    {
        self.id.clear();
        self.extensions.clear();
    }

    // Parses all of the text in place of an identifier. It is a call, so that plain texts and refusals are inlined alone.
    #[inline(never)]
    fn fill<M: Memory>(&mut self, memory: M, code_units: &[u8]) -> Result<(), ParseError>
        requires { extensions.value_of self.old.extensions ≡ no_extensions }
        ensures reads { LocaleTextAnswers code_units.now (result_and result (Ok self.new)) }
        ensures out_of_memory { RunsOutOnlyIf
            (RefusedWithin M.refused (length code_units.now)) result }
    {
        let mut iter = SubtagIterator::new(code_units);
        fill_head(memory, &mut iter, &mut self.id)?;
        read_blocks(memory, &mut iter, &mut self.extensions)
    }

    /// Parses all of a `str`, as `try_from_utf8` parses bytes.
    #[inline(always)]
    pub fn try_from_str(alloc: Global, s: &str) -> Result<Self, ParseError>
        ensures reads { LocaleTextReads s.now result }
        ensures accepted { (M : meaning.Locale) → Means languages s.now M
            → Accepts value_of ⊤ M result }
        ensures refused { (f : Fault) → HasFault languages s.now f
            → Refuses ⊤ f result }
        ensures memory { RunsOutOnlyIf (LocaleWantsMemory s.now) result }
        ensures well_formed { IfOk result (λ l. IsWellFormed (value_of l)) }
        ensures steps { IfOk result (λ l. (n : ℕ) (u : Text)
            → Leads (TextStep languages) n s.now u → Means languages u (value_of l)) }
        ensures narrow { (M : meaning.Locale) → Means two_or_three s.now M
            → Accepts value_of ⊤ M result }
    {
        // (a call of `try_from_utf8_in` would copy the locale or its refusal once more)
        let bytes = s.as_bytes();
        let mut id = LanguageIdentifier::unknown();
        if fill_short(bytes, &mut id)? {
            return Ok(Locale {
                id,
                extensions: Extensions::new_in(alloc),
            });
        }
        Self::filled(alloc, bytes)
    }

    /// Parses all of a `str`, as `try_from_utf8_in` parses bytes.
    #[inline(always)]
    pub fn try_from_str_in<M: Memory>(memory: M, s: &str) -> Result<Self, ParseError>
        ensures reads { LocaleTextReads s.now result }
        ensures accepted { (L : meaning.Locale) → Means languages s.now L
            → Accepts value_of ⊤ L result }
        ensures refused { (f : Fault) → HasFault languages s.now f
            → Refuses ⊤ f result }
        ensures memory { RunsOutOnlyIf (LocaleWantsMemory s.now) result }
        ensures well_formed { IfOk result (λ l. IsWellFormed (value_of l)) }
        ensures steps { IfOk result (λ l. (n : ℕ) (u : Text)
            → Leads (TextStep languages) n s.now u → Means languages u (value_of l)) }
        ensures narrow { (L : meaning.Locale) → Means two_or_three s.now L
            → Accepts value_of ⊤ L result }
        ensures out_of_memory { RunsOutOnlyIf (RefusedWithin M.refused (length s.now)) result }
    {
        Self::try_from_utf8_in(memory, s.as_bytes())
    }
}
