//! Calls on the transform extension of a locale, and on its private extension.
// Written by tools/write_calls from tools/calls.txt: change that table and not this file.
ghost use Rattle.std.specs.Prelude.{◌≡◌, Some, length, option_map};
ghost use Rattle.iloc_spec_grammar.specs.Syntax.{TransformKey};
ghost use Rattle.iloc_spec_grammar.specs.Values.{field_value_text, private_text};
ghost use Rattle.iloc_calls.specs.Answers.{Tells};
ghost use Rattle.iloc_calls.specs.Numbers.{EndsAs};
ghost use Rattle.iloc_handles.specs.Clearing.{Clears};
ghost use Rattle.iloc_handles.specs.declared.clearing.Clear.{Clear};
ghost use Rattle.iloc_handles.specs.Finding.{IsAsked, IsChanged};
ghost use Rattle.iloc_handles.specs.Pairs.{RemovesPair, SetsPair, key_at, value_at, value_of_key};
ghost use Rattle.iloc_handles.specs.Transform.{SetsPrivate, SetsTransformLanguage, fields, fields_of, transform_language};

use iloc_handles::{
    Clear, Handle, KeyAt, Lent, Named, OfFields, PairCount, RemovePair, SetPair, SetPrivate,
    SetTransformLanguage, ValueAt, ValueOf, ask, make_change, tell,
};
use std::alloc::Global;

/// Hands out the identifier of the transform extension.
#[unsafe(no_mangle)]
pub extern "C" fn icu_locale_get_transform_language(
    alloc: Global,
    handle: &mut Lent,
    buffer: &mut [u8],
    needed: &mut usize,
) -> u32
    ensures { IsAsked handle.old handle.new (λ it. EndsAs (Tells (transform_language it) buffer.old
        buffer.new needed.new) result) }
{
    tell(alloc, handle, &Named::TransformLanguage, buffer, needed)
}

/// Sets the identifier of the transform extension to what the text means; an empty text removes it.
#[unsafe(no_mangle)]
pub extern "C" fn icu_locale_set_transform_language(
    alloc: Global,
    handle: &mut Handle,
    text: &[u8],
) -> u32
    ensures { IsChanged (SetsTransformLanguage text.now) handle.old.value handle.new.value result }
{
    make_change(alloc, handle, &SetTransformLanguage(text))
}

/// How many fields there are.
#[unsafe(no_mangle)]
pub extern "C" fn icu_locale_field_count(alloc: Global, handle: &mut Lent) -> usize
    ensures { IsAsked handle.old handle.new (λ it. result ≡ length (fields_of it)) }
{
    ask(alloc, handle, &PairCount(OfFields))
}

/// Hands out the key of the field at the index; they ascend.
#[unsafe(no_mangle)]
pub extern "C" fn icu_locale_get_field_key(
    alloc: Global,
    handle: &mut Lent,
    index: usize,
    buffer: &mut [u8],
    needed: &mut usize,
) -> u32
    ensures { IsAsked handle.old handle.new (λ it. EndsAs (Tells (key_at index (fields_of it))
        buffer.old buffer.new needed.new) result) }
{
    tell(alloc, handle, &KeyAt(OfFields, index), buffer, needed)
}

/// Hands out the value of the field at the index.
#[unsafe(no_mangle)]
pub extern "C" fn icu_locale_get_field_value(
    alloc: Global,
    handle: &mut Lent,
    index: usize,
    buffer: &mut [u8],
    needed: &mut usize,
) -> u32
    ensures { IsAsked handle.old handle.new (λ it. EndsAs (Tells (option_map field_value_text
        (value_at index (fields_of it))) buffer.old buffer.new needed.new) result) }
{
    tell(alloc, handle, &ValueAt(OfFields, index), buffer, needed)
}

/// Hands out the value of the field with this key.
#[unsafe(no_mangle)]
pub extern "C" fn icu_locale_get_field(
    alloc: Global,
    handle: &mut Lent,
    key: &[u8],
    buffer: &mut [u8],
    needed: &mut usize,
) -> u32
    ensures { IsAsked handle.old handle.new (λ it. EndsAs (Tells (option_map field_value_text
        (value_of_key TransformKey key.now (fields_of it))) buffer.old buffer.new needed.new)
        result) }
{
    tell(alloc, handle, &ValueOf(OfFields, key), buffer, needed)
}

/// Sets the value of the field with this key.
#[unsafe(no_mangle)]
pub extern "C" fn icu_locale_set_field(
    alloc: Global,
    handle: &mut Handle,
    key: &[u8],
    value: &[u8],
) -> u32
    ensures { IsChanged (SetsPair TransformKey fields key.now value.now) handle.old.value
        handle.new.value result }
{
    make_change(alloc, handle, &SetPair(OfFields, key, value))
}

/// Removes the field with this key.
#[unsafe(no_mangle)]
pub extern "C" fn icu_locale_remove_field(alloc: Global, handle: &mut Handle, key: &[u8]) -> u32
    ensures { IsChanged (RemovesPair TransformKey fields key.now) handle.old.value handle.new.value
        result }
{
    make_change(alloc, handle, &RemovePair(OfFields, key))
}

/// Removes all fields.
#[unsafe(no_mangle)]
pub extern "C" fn icu_locale_clear_fields(alloc: Global, handle: &mut Handle) -> u32
    ensures { IsChanged (Clears Clear.Fields) handle.old.value handle.new.value result }
{
    make_change(alloc, handle, &Clear::Fields)
}

/// Hands out the private extension, with its `x`; an empty text if there is none.
#[unsafe(no_mangle)]
pub extern "C" fn icu_locale_get_private(
    alloc: Global,
    handle: &mut Lent,
    buffer: &mut [u8],
    needed: &mut usize,
) -> u32
    ensures { IsAsked handle.old handle.new (λ it. EndsAs (Tells
        (Some (private_text it.extensions.private)) buffer.old buffer.new needed.new) result) }
{
    tell(alloc, handle, &Named::Private, buffer, needed)
}

/// Sets the private extension to that of the text, which begins with `x`; an empty text removes it.
#[unsafe(no_mangle)]
pub extern "C" fn icu_locale_set_private(alloc: Global, handle: &mut Handle, text: &[u8]) -> u32
    ensures { IsChanged (SetsPrivate text.now) handle.old.value handle.new.value result }
{
    make_change(alloc, handle, &SetPrivate(text))
}
