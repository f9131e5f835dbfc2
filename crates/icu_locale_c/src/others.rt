//! Calls on the other extensions of a locale.
// Written by tools/write_calls from tools/calls.txt: change that table and not this file.
ghost use Rattle.std.specs.Prelude.{◌↔◌, IsTrue};
ghost use Rattle.iloc_calls.specs.Answers.{Tells};
ghost use Rattle.iloc_calls.specs.Numbers.{EndsAs};
ghost use Rattle.iloc_handles.specs.Finding.{IsAsked, IsChanged};
ghost use Rattle.iloc_handles.specs.Others.{HasOther as IsThere, RemovesOther, SetsOther, other_text_at};

use iloc_handles::{
    Handle, HasOther, Lent, OfOther, RemoveOther, SetOther, ask, make_change, tell,
};
use std::alloc::Global;

/// Whether there is an extension of the singleton, in either case.
#[unsafe(no_mangle)]
pub extern "C" fn icu_locale_has_other(alloc: Global, handle: &mut Lent, singleton: u8) -> bool
    ensures { IsAsked handle.old handle.new (λ it. IsTrue result ↔ IsThere singleton it) }
{
    ask(alloc, handle, &HasOther(singleton))
}

/// Hands out the extension of the singleton, in either case.
#[unsafe(no_mangle)]
pub extern "C" fn icu_locale_get_other(
    alloc: Global,
    handle: &mut Lent,
    singleton: u8,
    buffer: &mut [u8],
    needed: &mut usize,
) -> u32
    ensures { IsAsked handle.old handle.new (λ it. EndsAs (Tells (other_text_at singleton it)
        buffer.old buffer.new needed.new) result) }
{
    tell(alloc, handle, &OfOther(singleton), buffer, needed)
}

/// Sets the extension of its singleton to that of the text.
#[unsafe(no_mangle)]
pub extern "C" fn icu_locale_set_other(alloc: Global, handle: &mut Handle, text: &[u8]) -> u32
    ensures { IsChanged (SetsOther text.now) handle.old.value handle.new.value result }
{
    make_change(alloc, handle, &SetOther(text))
}

/// Removes the extension of the singleton, in either case.
#[unsafe(no_mangle)]
pub extern "C" fn icu_locale_remove_other(alloc: Global, handle: &mut Handle, singleton: u8) -> u32
    ensures { IsChanged (RemovesOther singleton) handle.old.value handle.new.value result }
{
    make_change(alloc, handle, &RemoveOther(singleton))
}
