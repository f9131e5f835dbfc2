//! A locale as a data locale.
ghost use Rattle.std.specs.Prelude.{◌≡◌, ◌↔◌, Some};
ghost use Rattle.iloc_data.specs.DataValue.{value_of as data_value};
ghost use Rattle.iloc_handles.specs.Data.{data_of, priority_number};

use crate::asking::Question;
use iloc_data::{DataLocale, LocalePreferences};
use iloc_locale::Locale;

/// Of which region a data locale is: that of the locale, or that of its keyword `rg`.
#[derive(Clone, Copy)]
pub enum Priority {
    /// The locale's own.
    Language = 0,
    /// That of `rg`, if it is there.
    Region = 1,
}

impl Priority {
    /// The priority of that number.
    pub fn from_number(number: u32) -> Option<Priority>
        ensures { (priority : Priority) → (result ≡ Some priority)
            ↔ (number ≡ priority_number priority) }
    {
        match number {
            0 => Some(Priority::Language),
            1 => Some(Priority::Region),
            _ => None,
        }
    }
}

/// The data locale.
impl Question for Priority {
    type Answer = DataLocale;

    ghost is_answer = { λ p M d. data_value d ≡ data_of p M };

    fn ask(&self, locale: &Locale) -> DataLocale {
        let preferences = LocalePreferences::from(locale);
        match self {
            Priority::Language => preferences.to_data_locale_language_priority(),
            Priority::Region => preferences.to_data_locale_region_priority(),
        }
    }
}
