//! For each type with a `total_cmp`: it is `Equal` exactly if two values are `==`, and then they hash alike.
ghost use Rattle.std.specs.Ordering.{on};
ghost use Rattle.iloc_spec_parts.specs.Orders.{identifier_cmp, unicode_cmp, transform_cmp, extensions_cmp, locale_cmp};
ghost use Rattle.iloc_spec_parts.specs.DataOrders.{data_locale_cmp};
ghost use Rattle.iloc_langid.specs.Reads as langid;
ghost use Rattle.iloc_unicode.specs.UnicodeValue as unicode;
ghost use Rattle.iloc_transform.specs.TransformReading as transform;
ghost use Rattle.iloc_extensions.specs.ExtensionsValue as extensions;
ghost use Rattle.iloc_locale.specs.LocaleReading as locale;
ghost use Rattle.iloc_data.specs.DataValue as data_locale;
ghost use Rattle.icu_locale_core.specs.Together.{CompareTogether};

use iloc_data::DataLocale;
use iloc_extensions::{Extensions, extension_laws};
use iloc_langid::LanguageIdentifier;
use iloc_locale::Locale;
use iloc_transform::Transform;
use iloc_unicode::Unicode;
use std::hash::Hash;

/// Identifiers that are `==` tie in `total_cmp`, no others do, and they hash alike.
pub fn identifiers()
    ensures { CompareTogether ⟦<LanguageIdentifier as PartialEq>⟧.eq
        (on langid.value_of identifier_cmp) ⟦<LanguageIdentifier as Hash>⟧.hash_input }
{
    iloc_langid::equality();
    iloc_langid::hashes();
}

/// Unicode extensions that are `==` tie in `total_cmp`, no others do, and they hash alike.
pub fn unicode_extensions()
    ensures { CompareTogether ⟦<Unicode as PartialEq>⟧.eq (on unicode.value_of unicode_cmp)
        ⟦<Unicode as Hash>⟧.hash_input }
{
    iloc_unicode::equality();
    iloc_unicode::hashes();
}

/// Transform extensions that are `==` tie in `total_cmp`, no others do, and they hash alike.
pub fn transform_extensions()
    ensures { CompareTogether ⟦<Transform as PartialEq>⟧.eq (on transform.value_of transform_cmp)
        ⟦<Transform as Hash>⟧.hash_input }
{
    iloc_transform::equality();
    iloc_transform::hashes();
}

/// Extensions that are `==` tie in `total_cmp`, no others do, and they hash alike.
pub fn all_extensions()
    ensures { CompareTogether ⟦<Extensions as PartialEq>⟧.eq
        (on extensions.value_of extensions_cmp) ⟦<Extensions as Hash>⟧.hash_input }
{
    extension_laws::equality();
    extension_laws::hashes();
}

/// Locales that are `==` tie in `total_cmp`, no others do, and they hash alike.
pub fn locales()
    ensures { CompareTogether ⟦<Locale as PartialEq>⟧.eq (on locale.value_of locale_cmp)
        ⟦<Locale as Hash>⟧.hash_input }
{
    iloc_locale::equality();
    iloc_locale::hashes();
}

/// Data locales that are `==` tie in `total_cmp`, no others do, and they hash alike.
pub fn data_locales()
    ensures { CompareTogether ⟦<DataLocale as PartialEq>⟧.eq
        (on data_locale.value_of data_locale_cmp) ⟦<DataLocale as Hash>⟧.hash_input }
{}
