//! The attributes of a locale.
ghost use Rattle.std.specs.Prelude.{◌≡◌, ◌<◌, ◌∷◌, [], true, IfOk, length, remove};
ghost use Rattle.iloc_spec_grammar.specs.Syntax.{word_cmp};
ghost use Rattle.iloc_word_list.specs.Ascending.{ascends};
ghost use Rattle.iloc_handles.specs.Attributes.{AddsAttribute, RemovesAttribute, attributes_of};

use crate::asking::Change;
use crate::subtags::word_of;
use crate::words::Words;
use iloc_calls::Status;
use iloc_locale::Locale;
use iloc_subtags::{Attribute, AttributeKind};
use iloc_unicode::Attributes;
use std::alloc::{AllocError, Global};

/// The attributes.
#[derive(Drop)]
pub struct OfAttributes;

impl Words for OfAttributes {
    type Kind = AttributeKind;

    ghost words = { attributes_of };

    fn words(locale: &Locale) -> &[Attribute] {
        locale.extensions.unicode.attributes.as_slice()
    }
}

// The set of one attribute.
fn only(alloc: Global, attribute: Attribute) -> Result<Attributes, AllocError>
    ensures { IfOk result (λ a. a ≡ attribute ∷ []) }
{
    let mut one = Vec::new(alloc);
    one.push(attribute)?;
    Ok(Attributes::from_vec_unchecked(one))
}

/// Adds the attribute of the text.
#[derive(Drop)]
pub struct AddAttribute<'a>(pub &'a [u8]);

impl<'a> Change for AddAttribute<'a> {
    ghost changes = { λ a. AddsAttribute a.0.now };

    fn apply(&self, alloc: Global, locale: &mut Locale) -> Status {
        let attribute = match word_of::<AttributeKind, 8>(self.0) {
            Ok(attribute) => attribute,
            Err(refusal) => return Status::from(refusal),
        };
        let attributes = &mut locale.extensions.unicode.attributes;
        match only(alloc, attribute) {
            Ok(one) => Status::of_allocation(attributes.extend_from_attributes(alloc, one)),
            Err(_) => Status::OutOfMemory,
        }
    }
}

// All but the attribute at that place.
fn without(alloc: Global, attributes: &[Attribute], at: usize) -> Result<Attributes, AllocError>
    requires place { at < length attributes.now }
    requires ascends { ascends word_cmp (remove attributes.now at) ≡ true }
    ensures { IfOk result (λ a. a ≡ remove attributes.now at) }
{
    let mut kept = Vec::new(alloc);
    kept.extend_from_slice(attributes)?;
    kept.remove(at);
    Ok(Attributes::from_vec_unchecked(kept))
}

/// Removes the attribute of the text.
#[derive(Drop)]
pub struct RemoveAttribute<'a>(pub &'a [u8]);

impl<'a> Change for RemoveAttribute<'a> {
    ghost changes = { λ r. RemovesAttribute r.0.now };

    fn apply(&self, alloc: Global, locale: &mut Locale) -> Status {
        let Ok(attribute) = word_of::<AttributeKind, 8>(self.0) else {
            return Status::NotFound;
        };
        let attributes = locale.extensions.unicode.attributes.as_slice();
        let at = match attributes.binary_search(&attribute) {
            Ok(at) => at,
            Err(_) => return Status::NotFound,
        };
        match without(alloc, attributes, at) {
            Ok(kept) => {
                locale.extensions.unicode.attributes = kept;
                Status::Done
            }
            Err(_) => Status::OutOfMemory,
        }
    }
}
