//! Calls on the attributes of a locale.
// Written by tools/write_calls from tools/calls.txt: change that table and not this file.
ghost use Rattle.std.specs.Prelude.{◌≡◌, ◌↔◌, IsTrue, length};
ghost use Rattle.iloc_spec_grammar.specs.Syntax.{Attribute};
ghost use Rattle.iloc_calls.specs.Answers.{Tells};
ghost use Rattle.iloc_calls.specs.Numbers.{EndsAs};
ghost use Rattle.iloc_handles.specs.Clearing.{Clears};
ghost use Rattle.iloc_handles.specs.declared.clearing.Clear.{Clear};
ghost use Rattle.iloc_handles.specs.Finding.{IsAsked, IsChanged};
ghost use Rattle.iloc_handles.specs.Subtags.{HasWord};
ghost use Rattle.iloc_handles.specs.Attributes.{AddsAttribute, RemovesAttribute, attribute_at, attributes_of};

use iloc_handles::{
    AddAttribute, Clear, Handle, HasText, Lent, OfAttributes, RemoveAttribute, WordAt, WordCount,
    ask, make_change, tell,
};
use std::alloc::Global;

/// How many attributes there are.
#[unsafe(no_mangle)]
pub extern "C" fn icu_locale_attribute_count(alloc: Global, handle: &mut Lent) -> usize
    ensures { IsAsked handle.old handle.new (λ it. result ≡ length (attributes_of it)) }
{
    ask(alloc, handle, &WordCount(OfAttributes))
}

/// Hands out the attribute at the index; they ascend.
#[unsafe(no_mangle)]
pub extern "C" fn icu_locale_get_attribute(
    alloc: Global,
    handle: &mut Lent,
    index: usize,
    buffer: &mut [u8],
    needed: &mut usize,
) -> u32
    ensures { IsAsked handle.old handle.new (λ it. EndsAs (Tells (attribute_at index it) buffer.old
        buffer.new needed.new) result) }
{
    tell(alloc, handle, &WordAt(OfAttributes, index), buffer, needed)
}

/// Whether the text is one of the attributes.
#[unsafe(no_mangle)]
pub extern "C" fn icu_locale_has_attribute(alloc: Global, handle: &mut Lent, text: &[u8]) -> bool
    ensures { IsAsked handle.old handle.new (λ it. IsTrue result ↔ HasWord Attribute text.now
        (attributes_of it)) }
{
    ask(alloc, handle, &HasText(OfAttributes, text))
}

/// Adds the attribute of the text.
#[unsafe(no_mangle)]
pub extern "C" fn icu_locale_add_attribute(alloc: Global, handle: &mut Handle, text: &[u8]) -> u32
    ensures { IsChanged (AddsAttribute text.now) handle.old.value handle.new.value result }
{
    make_change(alloc, handle, &AddAttribute(text))
}

/// Removes the attribute of the text.
#[unsafe(no_mangle)]
pub extern "C" fn icu_locale_remove_attribute(
    alloc: Global,
    handle: &mut Handle,
    text: &[u8],
) -> u32
    ensures { IsChanged (RemovesAttribute text.now) handle.old.value handle.new.value result }
{
    make_change(alloc, handle, &RemoveAttribute(text))
}

/// Removes all attributes.
#[unsafe(no_mangle)]
pub extern "C" fn icu_locale_clear_attributes(alloc: Global, handle: &mut Handle) -> u32
    ensures { IsChanged (Clears Clear.Attributes) handle.old.value handle.new.value result }
{
    make_change(alloc, handle, &Clear::Attributes)
}
