//! What C gives a call that reads: a loan of a locale. Any number of calls may have one of the same locale at the same
//! time.
ghost use Rattle.std.specs.Prelude.{◌≡◌, ◌≢◌, ◌↔◌, ℕ, IsTrue, Option, Some, None};
ghost use Rattle.iloc_locale.specs.declared.locale.Locale.{Locale};
ghost use types.Logic.{sem};

use iloc_locale::Locale;
use std::marker::Model;

/// A locale that is lent, `const icu_locale_t` of the header: the bytes of its handle. Its owner changes and frees
/// nothing while the lifetime `life` lasts. It lasts while this is out, since this holds the share `part` of its token.
#[repr(C)]
pub struct Lent {
    at: *mut u8,
    pub ghost value: { Option Locale },
    pub ghost life: { ℕ },
    pub ghost part: { ℕ },
}

impl Model for Lent {
    ghost use Rattle.iloc_handles.specs.Owned.{loan_owns};

    ghost also_owns = { λ h. loan_owns h.life h.part h.at h.value };
}

/// It may go to another thread, also while other loans of the same locale are out.
unsafe impl Send for Lent {}

impl Lent {
    ghost use Rattle.iloc_handles.specs.Staying.{stays};

    /// Whether there is no locale: it stands for `und`.
    pub fn is_empty(&mut self) -> bool
        ensures same { self.new ≡ self.old }
        ensures empty { IsTrue result ↔ (self.old.value ≡ None) }
    {
        self.at.is_null()
    }

    /// The locale that is lent. Nothing is written.
    pub fn locale(&mut self) -> &Locale
        requires { self.old.value ≢ None }
        ensures* writes_back { sem 𝓛 (stays self.entry) }
        ensures value { self.old.value ≡ Some result.now }
    {
        unsafe { &*(self.at as *const Locale) }
    }
}
