//! Calls that take a text and give a part of what it means, or another text, written by hand: the table `tools/calls.txt`
//! has only their parameters.
ghost use Rattle.std.specs.Prelude.{◌≡◌};
ghost use Rattle.iloc_calls.specs.Numbers.{ByMode, EndsAs};
ghost use Rattle.iloc_text_calls.specs.Answers.{CleansTo, MatchesTo, TellsPart};
ghost use Rattle.iloc_text_parts.specs.declared.Part.TheVariants as parts;

use iloc_text_calls::{Part, tell_part};
use std::alloc::Global;

/// Hands out the identifier of what the text means, without extensions.
#[unsafe(no_mangle)]
pub extern "C" fn icu_locale_base_name_of(
    alloc: Global,
    mode: u32,
    text: &[u8],
    buffer: &mut [u8],
    needed: &mut usize,
) -> u32
    ensures { ByMode mode
        (λ m. EndsAs (TellsPart m text.now parts.BaseName buffer.old buffer.new needed.new))
        ((needed.new ≡ 0) × (buffer.new ≡ buffer.old)) result }
{
    tell_part(alloc, mode, text, Part::BaseName, buffer, needed)
}

/// Hands out the language of what the text means.
#[unsafe(no_mangle)]
pub extern "C" fn icu_locale_language_of(
    alloc: Global,
    mode: u32,
    text: &[u8],
    buffer: &mut [u8],
    needed: &mut usize,
) -> u32
    ensures { ByMode mode
        (λ m. EndsAs (TellsPart m text.now parts.Language buffer.old buffer.new needed.new))
        ((needed.new ≡ 0) × (buffer.new ≡ buffer.old)) result }
{
    tell_part(alloc, mode, text, Part::Language, buffer, needed)
}

/// Hands out the script of what the text means; if it is absent, an empty text.
#[unsafe(no_mangle)]
pub extern "C" fn icu_locale_script_of(
    alloc: Global,
    mode: u32,
    text: &[u8],
    buffer: &mut [u8],
    needed: &mut usize,
) -> u32
    ensures { ByMode mode
        (λ m. EndsAs (TellsPart m text.now parts.Script buffer.old buffer.new needed.new))
        ((needed.new ≡ 0) × (buffer.new ≡ buffer.old)) result }
{
    tell_part(alloc, mode, text, Part::Script, buffer, needed)
}

/// Hands out the region of what the text means; if it is absent, an empty text.
#[unsafe(no_mangle)]
pub extern "C" fn icu_locale_region_of(
    alloc: Global,
    mode: u32,
    text: &[u8],
    buffer: &mut [u8],
    needed: &mut usize,
) -> u32
    ensures { ByMode mode
        (λ m. EndsAs (TellsPart m text.now parts.Region buffer.old buffer.new needed.new))
        ((needed.new ≡ 0) × (buffer.new ≡ buffer.old)) result }
{
    tell_part(alloc, mode, text, Part::Region, buffer, needed)
}

/// Hands out the variants of what the text means, with hyphens between them; if there are none, an empty text.
#[unsafe(no_mangle)]
pub extern "C" fn icu_locale_variants_of(
    alloc: Global,
    mode: u32,
    text: &[u8],
    buffer: &mut [u8],
    needed: &mut usize,
) -> u32
    ensures { ByMode mode
        (λ m. EndsAs (TellsPart m text.now parts.Variants buffer.old buffer.new needed.new))
        ((needed.new ≡ 0) × (buffer.new ≡ buffer.old)) result }
{
    tell_part(alloc, mode, text, Part::Variants, buffer, needed)
}

/// Hands out the value of the keyword with this key, in any case, of what the text means.
#[unsafe(no_mangle)]
pub extern "C" fn icu_locale_keyword_of(
    alloc: Global,
    mode: u32,
    text: &[u8],
    key: &[u8],
    buffer: &mut [u8],
    needed: &mut usize,
) -> u32
    ensures { ByMode mode
        (λ m. EndsAs
        (TellsPart m text.now (parts.Keyword key.entry) buffer.old buffer.new needed.new))
        ((needed.new ≡ 0) × (buffer.new ≡ buffer.old)) result }
{
    tell_part(alloc, mode, text, Part::Keyword(key), buffer, needed)
}

/// Hands out the parent of what the text means.
#[unsafe(no_mangle)]
pub extern "C" fn icu_locale_parent(
    alloc: Global,
    mode: u32,
    text: &[u8],
    buffer: &mut [u8],
    needed: &mut usize,
) -> u32
    ensures { ByMode mode
        (λ m. EndsAs (TellsPart m text.now parts.Parent buffer.old buffer.new needed.new))
        ((needed.new ≡ 0) × (buffer.new ≡ buffer.old)) result }
{
    tell_part(alloc, mode, text, Part::Parent, buffer, needed)
}

/// Writes 1 if the locale of the text is one of those that the range stands for, and else 0.
#[unsafe(no_mangle)]
pub extern "C" fn icu_locale_matches(alloc: Global, text: &[u8], range: &[u8], same: &mut u8) -> u32
    ensures { EndsAs (MatchesTo text.now range.now same.old same.new) result }
{
    iloc_text_calls::matches(alloc, text, range, same)
}

/// Hands out what cleaning leaves of a line.
#[unsafe(no_mangle)]
pub extern "C" fn icu_locale_clean(
    alloc: Global,
    text: &[u8],
    buffer: &mut [u8],
    needed: &mut usize,
) -> u32
    ensures { EndsAs (CleansTo text.now buffer.old buffer.new needed.new) result }
{
    iloc_text_calls::clean(alloc, text, buffer, needed)
}
