//! Calls on the keywords of a locale, and on its unicode extension.
// Written by tools/write_calls from tools/calls.txt: change that table and not this file.
ghost use Rattle.std.specs.Prelude.{◌≡◌, length, option_map};
ghost use Rattle.iloc_spec_grammar.specs.Syntax.{UnicodeKey, join};
ghost use Rattle.iloc_calls.specs.Answers.{Tells};
ghost use Rattle.iloc_calls.specs.Numbers.{EndsAs};
ghost use Rattle.iloc_handles.specs.Clearing.{Clears};
ghost use Rattle.iloc_handles.specs.declared.clearing.Clear.{Clear};
ghost use Rattle.iloc_handles.specs.Finding.{IsAsked, IsChanged};
ghost use Rattle.iloc_handles.specs.Keywords.{keywords, keywords_of};
ghost use Rattle.iloc_handles.specs.Pairs.{RemovesPair, SetsPair, key_at, value_at, value_of_key};
ghost use Rattle.iloc_handles.specs.Whole.{ExtendsUnicode};

use iloc_handles::{
    Clear, Handle, KeyAt, Lent, Merge, OfKeywords, PairCount, RemovePair, SetPair, ValueAt,
    ValueOf, ask, change_by, make_change, tell,
};
use std::alloc::Global;

/// How many keywords there are.
#[unsafe(no_mangle)]
pub extern "C" fn icu_locale_keyword_count(alloc: Global, handle: &mut Lent) -> usize
    ensures { IsAsked handle.old handle.new (λ it. result ≡ length (keywords_of it)) }
{
    ask(alloc, handle, &PairCount(OfKeywords))
}

/// Hands out the key at the index; they ascend.
#[unsafe(no_mangle)]
pub extern "C" fn icu_locale_get_keyword_key(
    alloc: Global,
    handle: &mut Lent,
    index: usize,
    buffer: &mut [u8],
    needed: &mut usize,
) -> u32
    ensures { IsAsked handle.old handle.new (λ it. EndsAs (Tells (key_at index (keywords_of it))
        buffer.old buffer.new needed.new) result) }
{
    tell(alloc, handle, &KeyAt(OfKeywords, index), buffer, needed)
}

/// Hands out the value at the index.
#[unsafe(no_mangle)]
pub extern "C" fn icu_locale_get_keyword_value(
    alloc: Global,
    handle: &mut Lent,
    index: usize,
    buffer: &mut [u8],
    needed: &mut usize,
) -> u32
    ensures { IsAsked handle.old handle.new (λ it. EndsAs (Tells
        (option_map join (value_at index (keywords_of it))) buffer.old buffer.new needed.new)
        result) }
{
    tell(alloc, handle, &ValueAt(OfKeywords, index), buffer, needed)
}

/// Hands out the value of the keyword with this key.
#[unsafe(no_mangle)]
pub extern "C" fn icu_locale_get_keyword(
    alloc: Global,
    handle: &mut Lent,
    key: &[u8],
    buffer: &mut [u8],
    needed: &mut usize,
) -> u32
    ensures { IsAsked handle.old handle.new (λ it. EndsAs (Tells (option_map join
        (value_of_key UnicodeKey key.now (keywords_of it))) buffer.old buffer.new needed.new)
        result) }
{
    tell(alloc, handle, &ValueOf(OfKeywords, key), buffer, needed)
}

/// Sets the value of the keyword with this key.
#[unsafe(no_mangle)]
pub extern "C" fn icu_locale_set_keyword(
    alloc: Global,
    handle: &mut Handle,
    key: &[u8],
    value: &[u8],
) -> u32
    ensures { IsChanged (SetsPair UnicodeKey keywords key.now value.now) handle.old.value
        handle.new.value result }
{
    make_change(alloc, handle, &SetPair(OfKeywords, key, value))
}

/// Removes the keyword with this key.
#[unsafe(no_mangle)]
pub extern "C" fn icu_locale_remove_keyword(alloc: Global, handle: &mut Handle, key: &[u8]) -> u32
    ensures { IsChanged (RemovesPair UnicodeKey keywords key.now) handle.old.value handle.new.value
        result }
{
    make_change(alloc, handle, &RemovePair(OfKeywords, key))
}

/// Removes all keywords.
#[unsafe(no_mangle)]
pub extern "C" fn icu_locale_clear_keywords(alloc: Global, handle: &mut Handle) -> u32
    ensures { IsChanged (Clears Clear.Keywords) handle.old.value handle.new.value result }
{
    make_change(alloc, handle, &Clear::Keywords)
}

/// Extends the unicode extension by that of the other handle.
#[unsafe(no_mangle)]
pub extern "C" fn icu_locale_extend_unicode(
    alloc: Global,
    handle: &mut Handle,
    from: &mut Lent,
) -> u32
    ensures { IsAsked from.old from.new (λ that. IsChanged (ExtendsUnicode that) handle.old.value
        handle.new.value result) }
{
    change_by(alloc, handle, from, Merge::ExtendUnicode)
}
