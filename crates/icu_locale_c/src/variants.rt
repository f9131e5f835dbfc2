//! Calls on the variants of a locale.
// Written by tools/write_calls from tools/calls.txt: change that table and not this file.
ghost use Rattle.std.specs.Prelude.{◌≡◌, ◌↔◌, IsTrue, length};
ghost use Rattle.iloc_spec_grammar.specs.Syntax.{Variant};
ghost use Rattle.iloc_calls.specs.Answers.{Tells};
ghost use Rattle.iloc_calls.specs.Numbers.{EndsAs};
ghost use Rattle.iloc_handles.specs.Clearing.{Clears};
ghost use Rattle.iloc_handles.specs.declared.clearing.Clear.{Clear};
ghost use Rattle.iloc_handles.specs.Finding.{IsAsked, IsChanged};
ghost use Rattle.iloc_handles.specs.Subtags.{HasWord};
ghost use Rattle.iloc_handles.specs.Identifier.{AddsVariant, RemovesVariant, variant_at};

use iloc_handles::{
    AddVariant, Clear, Handle, HasText, Lent, OfVariants, RemoveVariant, WordAt, WordCount, ask,
    make_change, tell,
};
use std::alloc::Global;

/// How many variants there are.
#[unsafe(no_mangle)]
pub extern "C" fn icu_locale_variant_count(alloc: Global, handle: &mut Lent) -> usize
    ensures { IsAsked handle.old handle.new (λ it. result ≡ length it.id.variants) }
{
    ask(alloc, handle, &WordCount(OfVariants))
}

/// Hands out the variant at the index; they ascend.
#[unsafe(no_mangle)]
pub extern "C" fn icu_locale_get_variant(
    alloc: Global,
    handle: &mut Lent,
    index: usize,
    buffer: &mut [u8],
    needed: &mut usize,
) -> u32
    ensures { IsAsked handle.old handle.new (λ it. EndsAs (Tells (variant_at index it) buffer.old
        buffer.new needed.new) result) }
{
    tell(alloc, handle, &WordAt(OfVariants, index), buffer, needed)
}

/// Whether the text is one of the variants.
#[unsafe(no_mangle)]
pub extern "C" fn icu_locale_has_variant(alloc: Global, handle: &mut Lent, text: &[u8]) -> bool
    ensures { IsAsked handle.old handle.new (λ it. IsTrue result ↔ HasWord Variant text.now
        it.id.variants) }
{
    ask(alloc, handle, &HasText(OfVariants, text))
}

/// Adds the variant of the text.
#[unsafe(no_mangle)]
pub extern "C" fn icu_locale_add_variant(alloc: Global, handle: &mut Handle, text: &[u8]) -> u32
    ensures { IsChanged (AddsVariant text.now) handle.old.value handle.new.value result }
{
    make_change(alloc, handle, &AddVariant(text))
}

/// Removes the variant of the text.
#[unsafe(no_mangle)]
pub extern "C" fn icu_locale_remove_variant(alloc: Global, handle: &mut Handle, text: &[u8]) -> u32
    ensures { IsChanged (RemovesVariant text.now) handle.old.value handle.new.value result }
{
    make_change(alloc, handle, &RemoveVariant(text))
}

/// Removes all variants.
#[unsafe(no_mangle)]
pub extern "C" fn icu_locale_clear_variants(alloc: Global, handle: &mut Handle) -> u32
    ensures { IsChanged (Clears Clear.Variants) handle.old.value handle.new.value result }
{
    make_change(alloc, handle, &Clear::Variants)
}
