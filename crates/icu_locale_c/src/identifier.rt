//! Calls on the identifier of a locale.
// Written by tools/write_calls from tools/calls.txt: change that table and not this file.
ghost use Rattle.std.specs.Prelude.{Some};
ghost use Rattle.iloc_spec_grammar.specs.Values.{identifier_text};
ghost use Rattle.iloc_calls.specs.Answers.{Tells};
ghost use Rattle.iloc_calls.specs.Numbers.{EndsAs};
ghost use Rattle.iloc_handles.specs.Finding.{IsAsked, IsChanged};
ghost use Rattle.iloc_handles.specs.Identifier.{SetsLanguage, SetsRegion, SetsScript, text_or_empty};

use iloc_handles::{Handle, Lent, Named, SetLanguage, SetRegion, SetScript, make_change, tell};
use std::alloc::Global;

/// Hands out the identifier, without extensions.
#[unsafe(no_mangle)]
pub extern "C" fn icu_locale_get_base_name(
    alloc: Global,
    handle: &mut Lent,
    buffer: &mut [u8],
    needed: &mut usize,
) -> u32
    ensures { IsAsked handle.old handle.new (λ it. EndsAs (Tells (Some (identifier_text it.id))
        buffer.old buffer.new needed.new) result) }
{
    tell(alloc, handle, &Named::BaseName, buffer, needed)
}

/// Hands out the language.
#[unsafe(no_mangle)]
pub extern "C" fn icu_locale_get_language(
    alloc: Global,
    handle: &mut Lent,
    buffer: &mut [u8],
    needed: &mut usize,
) -> u32
    ensures { IsAsked handle.old handle.new (λ it. EndsAs (Tells (Some it.id.language) buffer.old
        buffer.new needed.new) result) }
{
    tell(alloc, handle, &Named::Language, buffer, needed)
}

/// Hands out the script; if it is absent, an empty text.
#[unsafe(no_mangle)]
pub extern "C" fn icu_locale_get_script(
    alloc: Global,
    handle: &mut Lent,
    buffer: &mut [u8],
    needed: &mut usize,
) -> u32
    ensures { IsAsked handle.old handle.new (λ it. EndsAs (Tells (Some (text_or_empty it.id.script))
        buffer.old buffer.new needed.new) result) }
{
    tell(alloc, handle, &Named::Script, buffer, needed)
}

/// Hands out the region; if it is absent, an empty text.
#[unsafe(no_mangle)]
pub extern "C" fn icu_locale_get_region(
    alloc: Global,
    handle: &mut Lent,
    buffer: &mut [u8],
    needed: &mut usize,
) -> u32
    ensures { IsAsked handle.old handle.new (λ it. EndsAs (Tells (Some (text_or_empty it.id.region))
        buffer.old buffer.new needed.new) result) }
{
    tell(alloc, handle, &Named::Region, buffer, needed)
}

/// Sets the language to the subtag of the text; an empty text makes it `und`.
#[unsafe(no_mangle)]
pub extern "C" fn icu_locale_set_language(alloc: Global, handle: &mut Handle, text: &[u8]) -> u32
    ensures { IsChanged (SetsLanguage text.now) handle.old.value handle.new.value result }
{
    make_change(alloc, handle, &SetLanguage(text))
}

/// Sets the script to the subtag of the text; an empty text removes it.
#[unsafe(no_mangle)]
pub extern "C" fn icu_locale_set_script(alloc: Global, handle: &mut Handle, text: &[u8]) -> u32
    ensures { IsChanged (SetsScript text.now) handle.old.value handle.new.value result }
{
    make_change(alloc, handle, &SetScript(text))
}

/// Sets the region to the subtag of the text; an empty text removes it.
#[unsafe(no_mangle)]
pub extern "C" fn icu_locale_set_region(alloc: Global, handle: &mut Handle, text: &[u8]) -> u32
    ensures { IsChanged (SetsRegion text.now) handle.old.value handle.new.value result }
{
    make_change(alloc, handle, &SetRegion(text))
}
