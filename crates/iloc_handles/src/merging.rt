//! Changes of a locale by that of another handle.
ghost use Rattle.iloc_locale.specs.LocaleReading.{value_of};
ghost use Rattle.iloc_handles.specs.Finding.{IsAsked, IsChanged};
ghost use Rattle.iloc_handles.specs.Merging.{Merges};
ghost use Rattle.iloc_handles.specs.Whole.{Copies, ExtendsUnicode};

use crate::asking::{Change, make_change};
use crate::handle::Handle;
use crate::lent::Lent;
use iloc_calls::Status;
use iloc_locale::Locale;
use std::alloc::Global;

/// What another locale changes.
#[derive(Clone, Copy)]
pub enum Merge {
    /// The locale becomes the other one.
    Copy,
    /// The unicode extension is extended by that of the other one.
    ExtendUnicode,
}

#[derive(Drop)]
struct Merging<'a>(Merge, &'a Locale);

impl<'a> Change for Merging<'a> {
    ghost changes = { λ m. Merges m.0 (value_of m.1.now) };

    fn apply(&self, alloc: Global, locale: &mut Locale) -> Status {
        match self.0 {
            Merge::Copy => copy(self.1, locale),
            Merge::ExtendUnicode => extend_unicode(alloc, self.1, locale),
        }
    }
}

fn copy(from: &Locale, locale: &mut Locale) -> Status
    ensures { Copies (value_of from.now) (value_of locale.old) (value_of locale.new) result }
{
    match from.clone() {
        Ok(copied) => {
            *locale = copied;
            Status::Done
        }
        Err(_) => Status::OutOfMemory,
    }
}

fn extend_unicode(alloc: Global, from: &Locale, locale: &mut Locale) -> Status
    ensures { ExtendsUnicode (value_of from.now) (value_of locale.old) (value_of locale.new)
        result }
{
    let Ok(unicode) = from.extensions.unicode.clone() else {
        return Status::OutOfMemory;
    };
    Status::of_allocation(locale.extensions.unicode.extend(alloc, unicode))
}

/// Changes the locale by that of the other handle, which stays.
pub fn change_by(alloc: Global, handle: &mut Handle, from: &mut Lent, merge: Merge) -> u32
    ensures { IsAsked from.old from.new (λ that. IsChanged (Merges merge that)
        handle.old.value handle.new.value result) }
{
    if from.is_empty() {
        make_change(alloc, handle, &Merging(merge, &Locale::unknown(alloc)))
    } else {
        make_change(alloc, handle, &Merging(merge, from.locale()))
    }
}
