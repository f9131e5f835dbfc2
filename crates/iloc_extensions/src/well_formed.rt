//! Whether extensions are well-formed: whether their text parses back as them.
ghost use Rattle.std.specs.Prelude.{◌≡◌, ◌↔◌, IsTrue};
ghost use Rattle.std.specs.FinMap.{is_sorted};
ghost use Rattle.std.specs.List.{list_all};
ghost use Rattle.std.specs.Ordering.{nat_cmp};
ghost use Rattle.iloc_spec_grammar.specs.Syntax.{languages};
ghost use Rattle.iloc_spec_grammar.specs.Values.{AreWellFormed, IsExtensionsValue};
ghost use Rattle.iloc_extensions.specs.ExtensionsValue.{value_of};
ghost use Rattle.iloc_extensions.specs.WellFormed.{has_own_place, is_in_place, is_plain, is_read_back};

use crate::extensions::Extensions;
use crate::kept::look_at;
use iloc_other::Other;
use iloc_unicode::Keywords;
use iloc_word_list::{Value, spells_true};

/// Whether the extensions are well-formed.
///
/// The others ascend strictly by singleton, each a digit or a lower-case letter other than `t`, `u` and
/// `x`, and have a subtag each; no value of a keyword holds `true` or a subtag of two characters. All
/// extensions, well-formed or not, are a value: sets and maps ascend strictly, and all subtags are in the
/// normal case of their kinds.
pub fn is_well_formed(extensions: &Extensions) -> bool
    ensures exactly { IsTrue result ↔ AreWellFormed (value_of extensions.now) }
    ensures value { IsExtensionsValue languages (value_of extensions.now) }
{
    look_at(extensions);
    are_in_place(&extensions.other) && are_read_back(&extensions.unicode.keywords)
}

// Whether the others ascend strictly by singletons of their own, and each has a subtag.
fn are_in_place(others: &[Other]) -> bool
    ensures { result ≡ is_in_place others.now }
{
    is_ascending(others) && others.iter().all(has_own_singleton)
}

// Whether the others ascend strictly by singleton.
fn is_ascending(others: &[Other]) -> bool
    ensures { result ≡ is_sorted nat_cmp others.now }
{
    others.is_sorted_by(|other, next| other.get_ext_byte() < next.get_ext_byte())
}

// Whether the singleton is a digit or a lower-case letter without a meaning of its own, and has a subtag.
fn has_own_singleton(other: &Other) -> bool
    ensures { result ≡ has_own_place other.now }
{
    let ext = other.get_ext_byte();
    !ext.is_ascii_uppercase() && !matches!(ext, b't' | b'u' | b'x') && !other.as_slice().is_empty()
}

// Whether each value is parsed back as it is.
fn are_read_back(keywords: &Keywords) -> bool
    ensures { result ≡ is_read_back keywords.now }
{
    keywords.iter().all(|(_, value)| is_plain_value(value))
}

// Whether no subtag of the value is `true`, or has two characters and so the form of a key.
fn is_plain_value(value: &Value) -> bool
    ensures { result ≡ list_all is_plain value.now }
{
    let subtags = value.as_subtags_slice();
    subtags
        .iter()
        .all(|it| !spells_true(it) && it.as_str().len() != 2)
}
