//! Copies extensions, without their empty parts.
ghost use Rattle.std.specs.Prelude.{◌≡◌, [], IsTrue, OnOk, OnErr, length};
ghost use Rattle.iloc_spec_grammar.specs.Meaning.{no_extensions, no_transform};
ghost use Rattle.iloc_transform.specs.TransformReading as transforms;
ghost use Rattle.iloc_transform.specs.Sizes.{transform_items};
ghost use Rattle.iloc_memory.specs.Refusals.{RefusedWithin};
ghost use Rattle.iloc_extensions.specs.ExtensionsValue.{value_of};
ghost use Rattle.iloc_extensions.specs.Sizes.{extensions_items, others_items};

use crate::extensions::Extensions;
use iloc_copying::{Copied, Copying, copies_of};
use iloc_memory::Memory;
use iloc_other::{Other, Private};
use iloc_transform::Transform;
use iloc_unicode::Attributes;
use iloc_unicode::keywords::copy_over;
use std::alloc::AllocError;

/// No extension, in which a copy of these is made.
#[inline(always)]
pub fn none_for<C: Copying>(copying: C, from: &Extensions) -> Extensions
    ensures { value_of result ≡ no_extensions }
{
    none(copying.memory_for(&from.other))
}

/// Copies each part that is there over an empty one. Most have keywords alone. Returned by value a copy would be moved twice
/// more. Refusal: `AllocError`, only if room for at most as many items as there are in all was refused.
#[inline(always)]
pub fn fill<C: Copying>(
    copying: C,
    to: &mut Extensions,
    from: &Extensions,
) -> Result<(), AllocError>
    requires { value_of to.old ≡ no_extensions }
    ensures value { OnOk result (value_of to.new ≡ value_of from.now) }
    ensures out_of_memory { OnErr result
        (RefusedWithin C.Room.refused (extensions_items from.now)) }
{
    let keywords = &from.unicode.keywords;
    if !keywords.is_empty() {
        copy_over(keywords, copying, &mut to.unicode.keywords)?;
    }
    if !has_keywords_alone(from) {
        fill_rest(copying, to, from)?;
    }
    Ok(())
}

// No extension. LLVM shortens this call, and then puts it where it is called: in this order it takes
// fewer instructions.
fn none<M: Memory>(memory: M) -> Extensions
    ensures { value_of result ≡ no_extensions }
{
    Extensions::new_in(memory)
}

// Whether there is nothing but keywords.
#[inline(always)]
fn has_keywords_alone(extensions: &Extensions) -> bool
    ensures attributes { IsTrue result → extensions.now.unicode.attributes ≡ [] }
    ensures transform { IsTrue result
        → transforms.value_of extensions.now.transform ≡ no_transform }
    ensures private { IsTrue result → extensions.now.private ≡ [] }
    ensures others { IsTrue result → extensions.now.other.items ≡ [] }
{
    extensions.unicode.attributes.is_empty()
        && extensions.transform.is_empty()
        && extensions.private.is_empty()
        && extensions.other.is_empty()
}

// Copies each part but the keywords.
#[inline(never)]
fn fill_rest<C: Copying>(
    copying: C,
    to: &mut Extensions,
    from: &Extensions,
) -> Result<(), AllocError>
    requires attributes { to.old.unicode.attributes ≡ [] }
    requires transform { transforms.value_of to.old.transform ≡ no_transform }
    requires private { to.old.private ≡ [] }
    requires others { to.old.other.items ≡ [] }
    ensures keywords { OnOk result (to.new.unicode.keywords ≡ to.old.unicode.keywords) }
    ensures attributes { OnOk result
        (to.new.unicode.attributes ≡ from.now.unicode.attributes) }
    ensures transform { OnOk result
        (transforms.value_of to.new.transform ≡ transforms.value_of from.now.transform) }
    ensures private { OnOk result (to.new.private ≡ from.now.private) }
    ensures others { OnOk result (to.new.other.items ≡ from.now.other.items) }
    ensures out_of_memory { OnErr result
        (RefusedWithin C.Room.refused (extensions_items from.now)) }
{
    copy_attributes(
        copying,
        &mut to.unicode.attributes,
        &from.unicode.attributes,
    )?;
    copy_transform(copying, &mut to.transform, &from.transform)?;
    copy_private(copying, &mut to.private, &from.private)?;
    copy_others(copying, &mut to.other, &from.other)
}

// A part that is there is copied over an empty one. For one that is empty nothing is done.
macro_rules! copied {
    ($copying:ident, $to:ident, $from:ident) => {{
        if !$from.is_empty() {
            *$to = $from.copied($copying)?;
        }
        Ok(())
    }};
}

#[inline(always)]
fn copy_attributes<C: Copying>(
    copying: C,
    to: &mut Attributes,
    from: &Attributes,
) -> Result<(), AllocError>
    requires { to.old ≡ [] }
    ensures value { OnOk result (to.new ≡ from.now) }
    ensures out_of_memory { OnErr result (RefusedWithin C.Room.refused (length from.now)) }
{
    copied!(copying, to, from)
}

#[inline(always)]
fn copy_transform<C: Copying>(
    copying: C,
    to: &mut Transform,
    from: &Transform,
) -> Result<(), AllocError>
    requires { transforms.value_of to.old ≡ no_transform }
    ensures value { OnOk result (transforms.value_of to.new ≡ transforms.value_of from.now) }
    ensures out_of_memory { OnErr result
        (RefusedWithin C.Room.refused (transform_items from.now)) }
{
    // (what is written over is empty, so nothing is dropped)
    if let Some(lang) = &from.lang {
        let copy = lang.copied(copying)?;
        if to.lang.is_some() {
            unreachable!();
        }
        to.lang = Some(copy);
    }
    if !from.fields.is_empty() {
        let copy = from.fields.copied(copying)?;
        if !to.fields.is_empty() {
            unreachable!();
        }
        to.fields = copy;
    }
    Ok(())
}

#[inline(always)]
fn copy_private<C: Copying>(copying: C, to: &mut Private, from: &Private) -> Result<(), AllocError>
    requires { to.old ≡ [] }
    ensures value { OnOk result (to.new ≡ from.now) }
    ensures out_of_memory { OnErr result (RefusedWithin C.Room.refused (length from.now)) }
{
    copied!(copying, to, from)
}

#[inline(always)]
fn copy_others<C: Copying>(
    copying: C,
    to: &mut Vec<Other>,
    from: &Vec<Other>,
) -> Result<(), AllocError>
    requires { to.old.items ≡ [] }
    ensures value { OnOk result (to.new.items ≡ from.now.items) }
    ensures out_of_memory { OnErr result
        (RefusedWithin C.Room.refused (others_items from.now.items)) }
{
    if !from.is_empty() {
        *to = copies_of(copying, from)?;
    }
    Ok(())
}
