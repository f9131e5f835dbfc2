//! Compares locales with texts and with one another.
ghost use Rattle.std.specs.Prelude.{◌≡◌, ◌≢◌, ◌↔◌, ◌≤◌, false, length, take, IsTrue, IfOk, OnErr, IfSome};
ghost use Rattle.std.specs.Ordering.{nat_cmp};
ghost use Rattle.std.specs.Cmp.Lexicographic.{slice_cmp};
ghost use Rattle.iloc_spec_grammar.specs.Syntax.{languages};
ghost use Rattle.iloc_spec_grammar.specs.Meaning.{Means, no_extensions};
ghost use Rattle.iloc_spec_grammar.specs.Values.{text};
ghost use Rattle.iloc_memory.specs.Refusals.{RefusedWithin};
ghost use Rattle.iloc_spec_parts.specs.Orders.{locale_cmp};
ghost use Rattle.iloc_locale.specs.LocaleReading.{value_of, LocaleWantsMemory};

use crate::locale::Locale;
use iloc_langid::beginning::begins_with;
use iloc_memory::Memory;
use iloc_normalize::answered::ROOM;
use iloc_normalize::{Answered, Mode, answer};
use iloc_pieces::Window;
use iloc_subtags::ParseError;
use iloc_writeable::cmp_utf8;
use std::alloc::{AllocError, Global};
use std::cmp::Ordering;

// So many bytes of a text have room here, and sixteen bytes behind them.
const MOST: usize = 112;

impl Locale {
    /// The byte order of the printed text against the bytes, for every locale. It makes no text.
    pub fn strict_cmp(&self, other: &[u8]) -> Ordering
        ensures { result ≡ slice_cmp nat_cmp (text (value_of self.now)) other.now }
    {
        cmp_utf8(self, other)
    }

    /// The order by identifier, and then by extensions; `Equal` exactly if the two are equal.
    pub fn total_cmp(&self, other: &Self) -> Ordering
        ensures { result ≡ locale_cmp (value_of self.now) (value_of other.now) }
    {
        self.id
            .total_cmp(&other.id)
            .then_with(|| self.extensions.total_cmp(&other.extensions))
    }

    /// Whether the text is a locale that means this one, in whatever case and order.
    ///
    /// `AllocError` comes only if parsing the text may run out of memory, and this locale has extensions.
    pub fn normalizing_eq(&self, alloc: Global, other: &str) -> Result<bool, AllocError>
        ensures same { IfOk result
            (λ same. IsTrue same ↔ Means languages other.now (value_of self.now)) }
        ensures memory { OnErr result (LocaleWantsMemory other.now
            × ((value_of self.now).extensions ≢ no_extensions)) }
    {
        self.normalizing_eq_in(alloc, other)
    }

    /// As `normalizing_eq`, from any memory. `AllocError` comes only if room for at most as many items as the text has
    /// bytes was refused.
    pub fn normalizing_eq_in<M: Memory>(&self, memory: M, other: &str) -> Result<bool, AllocError>
        ensures same { IfOk result
            (λ same. IsTrue same ↔ Means languages other.now (value_of self.now)) }
        ensures memory { OnErr result (LocaleWantsMemory other.now
            × ((value_of self.now).extensions ≢ no_extensions)) }
        ensures out_of_memory { OnErr result (RefusedWithin M.refused (length other.now)) }
    {
        if self.extensions.is_empty() {
            return Ok(self.id.normalizing_eq(other));
        }
        if !begins_with(other.as_bytes(), &self.id) {
            return Ok(false);
        }
        match self.compare_outlined(other.as_bytes()) {
            Some(same) => Ok(same),
            None => self.compare_parsed(memory, other),
        }
    }

    // Whether the text means this locale, by its normal text. `None` says nothing.
    #[inline(never)]
    fn compare_outlined(&self, text: &[u8]) -> Option<bool>
        ensures { IfSome result
            (λ same. IsTrue same ↔ Means languages text.now (value_of self.now)) }
    {
        if self.strict_cmp(text).is_eq() {
            return if self.is_well_formed() {
                Some(true)
            } else {
                None
            };
        }
        if text.len() > MOST {
            return None;
        }
        let mut room = [0u8; ROOM];
        let window = Window {
            bytes: &in_window(text)[..text.len() + 16],
        };
        match answer(Mode::Locale, window, &mut room) {
            Answered::Normal(normal) if normal == text => Some(false),
            Answered::Normal(normal) => {
                if self.strict_cmp(normal).is_ne() {
                    return Some(false);
                }
                if self.is_well_formed() {
                    Some(true)
                } else {
                    None
                }
            }
            Answered::Refused(_) => Some(false),
            Answered::Nothing => None,
        }
    }

    // Whether the text means this locale, by parsing it.
    #[inline(never)]
    fn compare_parsed<M: Memory>(&self, memory: M, other: &str) -> Result<bool, AllocError>
        ensures same { IfOk result
            (λ same. IsTrue same ↔ Means languages other.now (value_of self.now)) }
        ensures memory { OnErr result (LocaleWantsMemory other.now) }
        ensures out_of_memory { OnErr result (RefusedWithin M.refused (length other.now)) }
    {
        match Locale::try_from_str_in(memory, other) {
            Ok(locale) => Ok(self.total_cmp(&locale).is_eq()),
            Err(refusal) => differs(refusal),
        }
    }
}

// The text, and bytes behind it that say nothing.
#[inline(always)]
fn in_window(text: &[u8]) -> [u8; ROOM]
    requires { length text.now ≤ 112 }
    ensures { take (length text.now) result ≡ text.now }
{
    let mut window = [0u8; ROOM];
    window[..text.len()].copy_from_slice(text);
    window
}

// What a refusal tells: the text means something else, unless memory ran out.
fn differs(refusal: ParseError) -> Result<bool, AllocError>
    ensures same { IfOk result (λ same. (same ≡ false) × ¬ (refusal ≡ ParseError.OutOfMemory)) }
    ensures memory { OnErr result (refusal ≡ ParseError.OutOfMemory) }
{
    match refusal {
        ParseError::OutOfMemory => Err(AllocError),
        _ => Ok(false),
    }
}
