//! Calls on whole locales that a program holds.
// Written by tools/write_calls from tools/calls.txt: change that table and not this file.
ghost use Rattle.std.specs.Prelude.{◌≡◌, ◌↔◌, IsTrue, Some};
ghost use Rattle.std.specs.Ordering.{nat_cmp};
ghost use Rattle.std.specs.Cmp.Lexicographic.{slice_cmp};
ghost use Rattle.iloc_spec_grammar.specs.Values.{IsWellFormed, text as text_of};
ghost use Rattle.iloc_locale.specs.LocaleReading.{unknown_locale};
ghost use Rattle.iloc_calls.specs.Answers.{Tells, order_number};
ghost use Rattle.iloc_calls.specs.Numbers.{EndsAs};
ghost use Rattle.iloc_calls.specs.Hashing.{hash_of};
ghost use Rattle.iloc_handles.specs.Finding.{IsAsked, IsChanged};
ghost use Rattle.iloc_handles.specs.Whole.{Copies, ParsesTo};

use iloc_handles::{
    AgainstBytes, FromText, Handle, Hashed, Lent, Merge, Named, Test, ask, change_by, make_change,
    tell,
};
use std::alloc::Global;

/// Stands for what the text means, from then on.
#[unsafe(no_mangle)]
pub extern "C" fn icu_locale_parse(alloc: Global, handle: &mut Handle, text: &[u8]) -> u32
    ensures { IsChanged (ParsesTo text.now) handle.old.value handle.new.value result }
{
    make_change(alloc, handle, &FromText(text))
}

/// Stands for the locale of the other handle, from then on.
#[unsafe(no_mangle)]
pub extern "C" fn icu_locale_copy(alloc: Global, handle: &mut Handle, from: &mut Lent) -> u32
    ensures { IsAsked from.old from.new (λ that. IsChanged (Copies that) handle.old.value
        handle.new.value result) }
{
    change_by(alloc, handle, from, Merge::Copy)
}

/// Whether it stands for `und`.
#[unsafe(no_mangle)]
pub extern "C" fn icu_locale_is_und(alloc: Global, handle: &mut Lent) -> bool
    ensures { IsAsked handle.old handle.new (λ it. IsTrue result ↔ (it ≡ unknown_locale)) }
{
    ask(alloc, handle, &Test::Und)
}

/// Whether the text of the locale means this locale.
#[unsafe(no_mangle)]
pub extern "C" fn icu_locale_is_well_formed(alloc: Global, handle: &mut Lent) -> bool
    ensures { IsAsked handle.old handle.new (λ it. IsTrue result ↔ IsWellFormed it) }
{
    ask(alloc, handle, &Test::WellFormed)
}

/// The byte order of the normal form against other bytes, as -1, 0 or 1.
#[unsafe(no_mangle)]
pub extern "C" fn icu_locale_cmp_bytes(alloc: Global, handle: &mut Lent, other: &[u8]) -> i8
    ensures { IsAsked handle.old handle.new (λ it. result ≡ order_number
        (slice_cmp nat_cmp (text_of it) other.now)) }
{
    ask(alloc, handle, &AgainstBytes(other))
}

/// The hash of the normal form, FNV-1a of its bytes.
#[unsafe(no_mangle)]
pub extern "C" fn icu_locale_hash(alloc: Global, handle: &mut Lent) -> u64
    ensures { IsAsked handle.old handle.new (λ it. result ≡ hash_of (text_of it)) }
{
    ask(alloc, handle, &Hashed)
}

/// Hands out the normal form.
#[unsafe(no_mangle)]
pub extern "C" fn icu_locale_to_string(
    alloc: Global,
    handle: &mut Lent,
    buffer: &mut [u8],
    needed: &mut usize,
) -> u32
    ensures { IsAsked handle.old handle.new (λ it. EndsAs
        (Tells (Some (text_of it)) buffer.old buffer.new needed.new) result) }
{
    tell(alloc, handle, &Named::Whole, buffer, needed)
}
