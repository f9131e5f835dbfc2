//! Calls on the preferences that formatters take from a locale.
// Written by tools/write_calls from tools/calls.txt: change that table and not this file.
ghost use Rattle.iloc_calls.specs.Answers.{Tells};
ghost use Rattle.iloc_calls.specs.Numbers.{EndsAs};
ghost use Rattle.iloc_handles.specs.Finding.{IsAsked};
ghost use Rattle.iloc_handles.specs.Data.{calendar_text, hours_text, numbering_text};

use iloc_handles::{Lent, Named, tell};
use std::alloc::Global;

/// Hands out the calendar of the keyword `ca`.
#[unsafe(no_mangle)]
pub extern "C" fn icu_locale_get_calendar_algorithm(
    alloc: Global,
    handle: &mut Lent,
    buffer: &mut [u8],
    needed: &mut usize,
) -> u32
    ensures { IsAsked handle.old handle.new (λ it. EndsAs
        (Tells (calendar_text it) buffer.old buffer.new needed.new) result) }
{
    tell(alloc, handle, &Named::Calendar, buffer, needed)
}

/// Hands out the hour cycle of the keyword `hc`.
#[unsafe(no_mangle)]
pub extern "C" fn icu_locale_get_hour_cycle(
    alloc: Global,
    handle: &mut Lent,
    buffer: &mut [u8],
    needed: &mut usize,
) -> u32
    ensures { IsAsked handle.old handle.new (λ it. EndsAs
        (Tells (hours_text it) buffer.old buffer.new needed.new) result) }
{
    tell(alloc, handle, &Named::HourCycle, buffer, needed)
}

/// Hands out the numbering system of the keyword `nu`.
#[unsafe(no_mangle)]
pub extern "C" fn icu_locale_get_numbering_system(
    alloc: Global,
    handle: &mut Lent,
    buffer: &mut [u8],
    needed: &mut usize,
) -> u32
    ensures { IsAsked handle.old handle.new (λ it. EndsAs
        (Tells (numbering_text it) buffer.old buffer.new needed.new) result) }
{
    tell(alloc, handle, &Named::NumberingSystem, buffer, needed)
}
