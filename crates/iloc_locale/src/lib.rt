//! Locales: identifiers with extensions, parsed, printed, normalized and compared.
//!
//! It promises the main theorem of this library, which holds unless a call runs out of memory. For all bytes,
//! `Locale::try_from_utf8` accepts exactly the texts of the grammar (UTS #35 section 3, `unicode_locale_id`), each
//! with its meaning. It refuses every other text with the fault that the grammar names. The text of a well-formed
//! locale parses as that locale and no other. Normalizing twice is normalizing once. Normal texts are equal exactly
//! if the meanings are. No accepted text of a meaning is shorter than its normal text. At most eight rewriting steps
//! lead there.
//!
//! Parsing, normalizing and printing run out of memory only if the memory that was given refused a request:
//! `try_from_utf8_in`, `normalize_utf8_in` and `write_to_string_in` take any `Memory`. With one that refuses nothing they have
//! no exception (`ample_memory`, `ample_normalizing`, `ample_printing`).
//!
//! `==`, `total_cmp` and hashes compare values, for every locale. Of well-formed locales this is equality of meaning,
//! since only their texts parse back. `normalizing_eq` is `true` exactly if the text is accepted and means this
//! value. So it is `false` for every text if no text means the locale.
//!
//! `is_well_formed` says whether the text of a locale parses back. The identifier plays no part in it.
//!
//! It stands on the public contracts of the identifiers (`iloc_langid`) and of the extensions (`iloc_extensions`), and on
//! the laws of the grammar (`iloc_spec_grammar`).
#![tactic(auto)]

ghost use Rattle.std.specs.Prelude.{◌≡◌, ◌↔◌, IsTrue, IsOkAnd};
ghost use Rattle.std.specs.Cow.{cow_str_bytes};
ghost use Rattle.iloc_spec_grammar.specs.Syntax.{Text, pieces, Language, IsWord, languages, first_piece};
ghost use Rattle.iloc_spec_grammar.specs.Meaning as meaning;
ghost use Rattle.iloc_spec_grammar.specs.Meaning.{Means, Fault, HasFault};
ghost use Rattle.iloc_spec_grammar.specs.Values.{IsValue, text};
ghost use Rattle.iloc_spec_parts.specs.Inline.{IsInline};
ghost use Rattle.iloc_spec_parts.specs.Hashes.{locale_fed};
ghost use Rattle.iloc_subtags.specs.Judging.{Accepts, Refuses};
ghost use Rattle.iloc_locale.specs.LocaleReading.{LocaleWantsMemory, IsTextOf, NormalizingWantsMemory, value_of};

use iloc_extensions::{extension_laws, kept};
use iloc_memory::Ample;
use iloc_subtags::ParseError;
use iloc_writeable::Writeable;
use std::alloc::{AllocError, Global};
use std::borrow::CowStr;
use std::hash::Hash;

pub mod comparing;
pub mod conversions;
pub mod locale;
pub mod normalizing;
pub mod ordered;
pub mod parent;
pub mod printing;

pub use locale::Locale;
pub use ordered::OrderedLocale;

/// `==` tells whether two locales stand for the same.
pub fn equality()
    ensures { (l m : Locale) → IsTrue (⟦<Locale as PartialEq>⟧.eq l m) ↔ (value_of l ≡ value_of m) }
{
    iloc_langid::equality();
    extension_laws::equality();
}

/// Memory is wanted only after a language. A text that is inline wants none to be parsed; one that is its own
/// normal text besides wants none to be normalized.
pub fn memory()
    ensures language { (t : Text) → LocaleWantsMemory t
        → IsWord (Language languages) (first_piece (pieces t)) }
    ensures inline { (t : Text) → IsInline languages t → ¬ (LocaleWantsMemory t) }
    ensures normal { (t : Text) → IsInline languages t → IsTextOf t t
        → ¬ (NormalizingWantsMemory t) }
{}

/// Parses with memory that refuses nothing. So each text that means something is accepted with its meaning, and each
/// other is refused with its fault, without an exception.
///
/// ```text
/// ample_memory(memory, b"EN-us")?; // en-US
/// ```
pub fn ample_memory<M: Ample>(memory: M, code_units: &[u8]) -> Result<Locale, ParseError>
    ensures accepted { (L : meaning.Locale) → Means languages code_units.now L
        → Accepts value_of ⊥ L result }
    ensures refused { (f : Fault) → HasFault languages code_units.now f → Refuses ⊥ f result }
{
    Locale::try_from_utf8_in(memory, code_units)
}

/// Normalizes with memory that refuses nothing. So each text that means something gives its normal text, and each other is
/// refused with its fault, without an exception.
///
/// ```text
/// ample_normalizing(memory, b"EN-us")?; // "en-US"
/// ```
pub fn ample_normalizing<M: Ample>(
    memory: M,
    code_units: &[u8],
) -> Result<CowStr<'_, Global>, ParseError>
    ensures accepted { (L : meaning.Locale) → Means languages code_units.now L
        → Accepts cow_str_bytes ⊥ (text L) result }
    ensures refused { (f : Fault) → HasFault languages code_units.now f → Refuses ⊥ f result }
{
    Locale::normalize_utf8_in(memory, code_units)
}

/// Prints with memory that refuses nothing. So each value prints, without an exception.
///
/// ```text
/// ample_printing(memory, &locale)?; // "en-US"
/// ```
pub fn ample_printing<'a, M: Ample, W: Writeable>(
    memory: M,
    value: &'a W,
) -> Result<CowStr<'a, Global>, AllocError>
    ensures { IsOkAnd result (λ t. cow_str_bytes t ≡ W.text value.now) }
{
    value.write_to_string_in(memory)
}

/// Every locale, parsed or built, is a value: sets and maps ascend strictly, and all subtags are in the normal
/// case of their kinds. A proof calls this to know it of one; it looks at each part, and does nothing else.
///
/// ```text
/// every_locale_is_a_value(&locale) // ()
/// ```
pub fn every_locale_is_a_value(locale: &Locale)
    ensures { IsValue languages (value_of locale.now) }
{
    let _ = locale.id.is_unknown();
    kept::look_at(&locale.extensions);
}

/// A hasher is fed the identifier and the extensions.
pub fn hashes()
    ensures { (l : Locale) → ⟦<Locale as Hash>⟧.hash_input l ≡ locale_fed (value_of l) }
{}
