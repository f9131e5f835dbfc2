//! Calls on the data locale of a locale, written by hand: the table `tools/calls.txt` has only their parameters.
ghost use Rattle.std.specs.Prelude.{◌≡◌};
ghost use Rattle.std.specs.Ordering.{nat_cmp};
ghost use Rattle.std.specs.Cmp.Lexicographic.{slice_cmp};
ghost use Rattle.iloc_spec_parts.specs.DataLocales.{data_text};
ghost use Rattle.iloc_spec_parts.specs.DataOrders.{data_locale_cmp};
ghost use Rattle.iloc_calls.specs.Answers.{HandsOut, order_number};
ghost use Rattle.iloc_calls.specs.Numbers.{EndsAs, number_of};
ghost use Rattle.iloc_calls.specs.declared.status.Status.{Status};
ghost use Rattle.iloc_handles.specs.Data.{ByPriority, data_of};
ghost use Rattle.iloc_handles.specs.Finding.{IsAsked};

use iloc_calls::{Status, hand_out, number};
use iloc_handles::{Lent, Priority, ask};
use std::alloc::Global;

/// Hands out the text of the data locale.
///
/// The priority is 0 for the locale's own region and 1 for that of its keyword `rg`.
#[unsafe(no_mangle)]
pub extern "C" fn icu_locale_get_data_locale(
    alloc: Global,
    handle: &mut Lent,
    priority: u32,
    buffer: &mut [u8],
    needed: &mut usize,
) -> u32
    ensures { IsAsked handle.old handle.new (λ it. ByPriority priority
        (λ p. EndsAs (HandsOut (data_text (data_of p it)) buffer.old buffer.new needed.new))
        ((needed.new ≡ 0) × (buffer.new ≡ buffer.old)) result) }
{
    match Priority::from_number(priority) {
        Some(priority) => hand_out(&ask(alloc, handle, &priority), buffer, needed).number(),
        None => {
            *needed = 0;
            Status::UnknownNumber.number()
        }
    }
}

/// Writes the byte order of the data locale's text against other bytes, as -1, 0 or 1.
#[unsafe(no_mangle)]
pub extern "C" fn icu_locale_data_cmp_bytes(
    alloc: Global,
    handle: &mut Lent,
    priority: u32,
    other: &[u8],
    order: &mut i8,
) -> u32
    ensures { IsAsked handle.old handle.new (λ it. ByPriority priority
        (λ p number. (number ≡ number_of Status.Done)
        × (order.new ≡ order_number (slice_cmp nat_cmp (data_text (data_of p it)) other.now)))
        (order.new ≡ order.old) result) }
{
    match Priority::from_number(priority) {
        Some(priority) => {
            *order = number(ask(alloc, handle, &priority).strict_cmp(other));
            Status::Done.number()
        }
        None => Status::UnknownNumber.number(),
    }
}

/// Writes the order of the data locales of two handles, as -1, 0 or 1.
#[unsafe(no_mangle)]
pub extern "C" fn icu_locale_data_cmp(
    alloc: Global,
    handle: &mut Lent,
    other: &mut Lent,
    priority: u32,
    order: &mut i8,
) -> u32
    ensures { IsAsked handle.old handle.new (λ it. IsAsked other.old other.new
        (λ that. ByPriority priority (λ p number. (number ≡ number_of Status.Done)
        × (order.new ≡ order_number (data_locale_cmp (data_of p it) (data_of p that))))
        (order.new ≡ order.old) result)) }
{
    match Priority::from_number(priority) {
        Some(priority) => {
            let data = ask(alloc, handle, &priority);
            *order = number(data.total_cmp(&ask(alloc, other, &priority)));
            Status::Done.number()
        }
        None => Status::UnknownNumber.number(),
    }
}
