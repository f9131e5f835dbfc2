//! Lists of a locale that are emptied.
ghost use Rattle.iloc_handles.specs.Clearing.{Clears};

use crate::asking::Change;
use iloc_calls::Status;
use iloc_locale::Locale;
use std::alloc::Global;

/// Empties the list.
#[derive(Clone, Copy)]
pub enum Clear {
    /// The variants.
    Variants,
    /// The attributes.
    Attributes,
    /// The keywords.
    Keywords,
    /// The fields of the transform extension.
    Fields,
}

impl Change for Clear {
    ghost changes = { Clears };

    fn apply(&self, _alloc: Global, locale: &mut Locale) -> Status {
        match self {
            Clear::Variants => drop(locale.id.variants.clear()),
            Clear::Attributes => drop(locale.extensions.unicode.attributes.clear()),
            Clear::Keywords => drop(locale.extensions.unicode.keywords.clear()),
            Clear::Fields => locale.extensions.transform.fields.empty(),
        }
        Status::Done
    }
}
