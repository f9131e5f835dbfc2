//! Calls on whole locales, written by hand: the table `tools/calls.txt` has only their parameters.
ghost use Rattle.std.specs.Prelude.{◌≡◌, ◌↔◌, IsTrue, None};
ghost use Rattle.iloc_spec_parts.specs.Orders.{locale_cmp};
ghost use Rattle.iloc_calls.specs.Answers.{order_number};
ghost use Rattle.iloc_calls.specs.Numbers.{EndsAs};
ghost use Rattle.iloc_handles.specs.Finding.{IsAsked};
ghost use Rattle.iloc_handles.specs.Whole.{TellsMeant};

use iloc_calls::number;
use iloc_handles::{Handle, Lent, order_of, tell_meant};
use std::alloc::Global;

/// Stands for `und` from then on, and holds nothing.
#[unsafe(no_mangle)]
pub extern "C" fn icu_locale_free(alloc: Global, handle: &mut Handle)
    ensures { handle.new.value ≡ None }
{
    drop(handle.take(alloc));
}

/// The order of two locales by their parts, as -1, 0 or 1.
#[unsafe(no_mangle)]
pub extern "C" fn icu_locale_cmp(alloc: Global, handle: &mut Lent, other: &mut Lent) -> i8
    ensures { IsAsked handle.old handle.new
        (λ it. IsAsked other.old other.new (λ that. result ≡ order_number (locale_cmp it that))) }
{
    number(order_of(alloc, handle, other))
}

/// Whether two locales are equal.
#[unsafe(no_mangle)]
pub extern "C" fn icu_locale_eq(alloc: Global, handle: &mut Lent, other: &mut Lent) -> bool
    ensures { IsAsked handle.old handle.new
        (λ it. IsAsked other.old other.new (λ that. IsTrue result ↔ (it ≡ that))) }
{
    iloc_handles::eq(alloc, handle, other)
}

/// Writes 1 if the text means the locale, and else 0.
#[unsafe(no_mangle)]
pub extern "C" fn icu_locale_eq_text(
    alloc: Global,
    handle: &mut Lent,
    text: &[u8],
    same: &mut u8,
) -> u32
    ensures { IsAsked handle.old handle.new
        (λ it. EndsAs (TellsMeant text.now it same.old same.new) result) }
{
    tell_meant(alloc, handle, text, same).number()
}
