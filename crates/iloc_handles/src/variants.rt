//! The variants of a locale.
ghost use Rattle.iloc_handles.specs.Identifier.{AddsVariant, RemovesVariant};

use crate::asking::Change;
use crate::subtags::word_of;
use crate::words::Words;
use iloc_calls::Status;
use iloc_locale::Locale;
use iloc_subtags::{Variant, VariantKind};
use std::alloc::Global;

/// The variants.
#[derive(Drop)]
pub struct OfVariants;

impl Words for OfVariants {
    type Kind = VariantKind;

    ghost words = { λ M. M.id.variants };

    fn words(locale: &Locale) -> &[Variant] {
        locale.id.variants.as_slice()
    }
}

/// Adds the variant of the text.
#[derive(Drop)]
pub struct AddVariant<'a>(pub &'a [u8]);

impl<'a> Change for AddVariant<'a> {
    ghost changes = { λ a. AddsVariant a.0.now };

    fn apply(&self, alloc: Global, locale: &mut Locale) -> Status {
        match word_of::<VariantKind, 8>(self.0) {
            Ok(variant) => Status::of_allocation(locale.id.variants.push(alloc, variant)),
            Err(refusal) => Status::from(refusal),
        }
    }
}

/// Removes the variant of the text.
#[derive(Drop)]
pub struct RemoveVariant<'a>(pub &'a [u8]);

impl<'a> Change for RemoveVariant<'a> {
    ghost changes = { λ r. RemovesVariant r.0.now };

    fn apply(&self, _alloc: Global, locale: &mut Locale) -> Status {
        match word_of::<VariantKind, 8>(self.0) {
            Ok(variant) if locale.id.variants.remove(&variant) => Status::Done,
            _ => Status::NotFound,
        }
    }
}
