//! What C holds of a locale.
ghost use Rattle.iloc_locale.specs.declared.locale.Locale.{Locale};
ghost use Rattle.iloc_locale.specs.LocaleReading.{unknown_locale, value_of};
ghost use Rattle.std.specs.Prelude.{◌≡◌, ◌↔◌, IsTrue, Option, Some, None, IfSome, IfNone, MatchOption};
ghost use Rattle.iloc_handles.specs.Held.{IsTight, held_locale};

use crate::open_box::OpenBox;
use iloc_locale::Locale;
use std::alloc::Global;
use std::marker::Model;
use std::mem::replace;
use std::ptr::null_mut;

/// A locale in the hands of C, `icu_locale_t` of the header: the pointer of its box, or null, which stands for `und`.
#[repr(C)]
pub struct Handle {
    at: *mut u8,
    pub ghost value: { Option Locale },
}

impl Model for Handle {
    ghost use Rattle.iloc_handles.specs.Owned.{owned};

    ghost also_owns = { λ h. owned h.at h.value };
}

/// Another thread may take it over: a locale may go there, and any thread may free its block.
unsafe impl Send for Handle {}

impl Handle {
    /// The handle without a box.
    pub fn empty() -> Handle
        ensures { result.value ≡ None }
    {
        Handle { at: null_mut() }
    }

    // The handle that owns what the box owned.
    fn holding(parts: OpenBox<Locale, Global>) -> Handle
        ensures { result.value ≡ Some parts.value }
    {
        let OpenBox { at, alloc: _ } = parts;
        Handle { at: at as *mut u8 }
    }

    // What it holds.
    fn into_open(self, alloc: Global) -> Option<OpenBox<Locale, Global>>
        ensures none { IfNone result (self.value ≡ None) }
        ensures some { IfSome result (λ parts. self.value ≡ Some parts.value) }
    {
        let Handle { at } = self;
        if at.is_null() {
            None
        } else {
            Some(OpenBox {
                at: at as *mut Locale,
                alloc,
            })
        }
    }

    // The box that it holds.
    fn into_box(self, alloc: Global) -> Option<Box<Locale, Global>>
        ensures { MatchOption result (self.value ≡ None)
            (λ boxed. self.value ≡ Some boxed.value) }
    {
        match self.into_open(alloc) {
            Some(parts) => Some(parts.close()),
            None => None,
        }
    }

    // Whether it has no box. (What a handle owns is not seen through a `&`.)
    fn is_empty(&mut self) -> bool
        ensures same { self.new.value ≡ self.old.value }
        ensures empty { IsTrue result ↔ (self.old.value ≡ None) }
    {
        self.at.is_null()
    }

    /// Takes the box out, if there is one. If there is none, nothing is written: the handle may stand where nothing can
    /// be.
    pub fn take(&mut self, alloc: Global) -> Option<Box<Locale, Global>>
        ensures left { self.new.value ≡ None }
        ensures taken { MatchOption result (self.old.value ≡ None)
            (λ boxed. self.old.value ≡ Some boxed.value) }
    {
        if self.is_empty() {
            return None;
        }
        replace(self, Handle::empty()).into_box(alloc)
    }

    /// Holds the box, and drops what it held before.
    pub fn put(&mut self, alloc: Global, boxed: Box<Locale, Global>)
        ensures { self.new.value ≡ Some boxed.value }
    {
        drop(replace(self, Handle::holding(OpenBox::open(boxed))).into_box(alloc));
    }

    /// Stands for the locale, and holds its box unless that is `und`.
    pub fn keep(&mut self, alloc: Global, boxed: Box<Locale, Global>)
        ensures means { held_locale self.new.value ≡ value_of boxed.value }
        ensures tight { IsTight self.new.value }
    {
        if is_und(boxed.as_ref()) {
            drop(boxed);
            drop(self.take(alloc));
        } else {
            self.put(alloc, boxed);
        }
    }
}

/// Whether the locale is `und`, with no other part.
pub(crate) fn is_und(locale: &Locale) -> bool
    ensures { IsTrue result ↔ (value_of locale.now ≡ unknown_locale) }
{
    locale.id.is_unknown() && locale.extensions.is_empty()
}
