//! All extensions of a locale.
ghost use Rattle.std.specs.Prelude.{◌≡◌, ◌↔◌, IsTrue, IfOk, OnErr};
ghost use Rattle.iloc_spec_parts.specs.Orders.{extensions_cmp};
ghost use Rattle.iloc_extensions.specs.Retaining.{RetainsByType};
ghost use Rattle.iloc_extensions.specs.ExtensionsValue.{value_of};
ghost use Rattle.iloc_extensions.specs.Sizes.{extensions_items};
ghost use Rattle.iloc_memory.specs.Refusals.{RefusedWithin};
ghost use Rattle.iloc_spec_grammar.specs.Meaning.{just_unicode, no_extensions};
ghost use Rattle.iloc_unicode.specs.UnicodeValue as unicode_value;

use crate::copying::{fill, none_for};
use crate::extension_type::ExtensionType;
use crate::retaining::{keep_private, keep_transform, keep_unicode};
use iloc_copying::{FromMemory, FromOwn};
use iloc_memory::Memory;
use iloc_other::{Other, Private};
use iloc_transform::Transform;
use iloc_unicode::Unicode;
use std::alloc::{AllocError, Global};
use std::cmp::Ordering;

/// All extensions of a locale. Fields can be set to what no text means.
#[derive(Drop, Debug, PartialEq, Eq, Hash)]
pub struct Extensions {
    /// The unicode extension, `u`.
    pub unicode: Unicode,
    /// The transform extension, `t`.
    pub transform: Transform,
    /// The private extension, `x`.
    pub private: Private,
    /// The other extensions, by their singletons.
    pub other: Vec<Other>,
}

// Written rather than derived: empty parts are not copied.
impl Clone for Extensions {
    ghost is_clone = { λ d e. value_of e ≡ value_of d };

    fn clone(&self) -> Result<Self, AllocError> {
        let mut copy = none_for(FromOwn, self);
        fill(FromOwn, &mut copy, self)?;
        Ok(copy)
    }
}

// This unicode extension, and all else empty.
#[inline(always)]
fn only_unicode<M: Memory>(memory: M, unicode: Unicode) -> Extensions
    ensures { value_of result ≡ just_unicode (unicode_value.value_of unicode) }
{
    Extensions {
        unicode,
        transform: Transform::new_in(memory),
        private: Private::new(),
        other: memory.empty(),
    }
}

impl Extensions {
    /// A copy, from any memory. Refusal: `AllocError`, only if room for at most as many items as there are in all was
    /// refused.
    pub fn clone_in<M: Memory>(&self, memory: M) -> Result<Self, AllocError>
        ensures value { IfOk result (λ copy. value_of copy ≡ value_of self.now) }
        ensures out_of_memory { OnErr result
            (RefusedWithin M.refused (extensions_items self.now)) }
    {
        let mut copy = none_for(FromMemory(memory), self);
        fill(FromMemory(memory), &mut copy, self)?;
        Ok(copy)
    }

    /// No extension.
    #[inline(always)]
    pub fn new(alloc: Global) -> Self
        ensures { value_of result ≡ no_extensions }
    {
        Extensions::new_in(alloc)
    }

    /// As `new`, from any memory. It asks for no room.
    #[inline(always)]
    pub fn new_in<M: Memory>(memory: M) -> Self
        ensures { value_of result ≡ no_extensions }
    {
        only_unicode(memory, Unicode::new())
    }

    /// This unicode extension, and all else empty.
    #[inline(always)]
    pub fn from_unicode(alloc: Global, unicode: Unicode) -> Self
        ensures { value_of result ≡ just_unicode (unicode_value.value_of unicode) }
    {
        only_unicode(alloc, unicode)
    }

    /// As `from_unicode`, from any memory. It asks for no room.
    #[inline(always)]
    pub fn from_unicode_in<M: Memory>(memory: M, unicode: Unicode) -> Self
        ensures { value_of result ≡ just_unicode (unicode_value.value_of unicode) }
    {
        only_unicode(memory, unicode)
    }

    /// Whether all four parts are empty. An other extension counts as there, also without subtags.
    pub fn is_empty(&self) -> bool
        ensures { IsTrue result ↔ (value_of self.now ≡ no_extensions) }
    {
        self.unicode.is_empty()
            && self.transform.is_empty()
            && self.private.is_empty()
            && self.other.is_empty()
    }

    /// Empties all four parts.
    #[inline(always)]
    pub fn clear(&mut self)
        ensures { value_of self.new ≡ no_extensions }
    {
        if self.is_empty() {
            return;
        }
        self.unicode.clear();
        self.transform.clear();
        self.private.clear();
        self.other.clear();
    }

    /// The order by unicode, transform, private as a short list, and then the others one by one.
    pub fn total_cmp(&self, other: &Self) -> Ordering
        ensures { result ≡ extensions_cmp (value_of self.now) (value_of other.now) }
    {
        self.unicode
            .total_cmp(&other.unicode)
            .then_with(|| self.transform.total_cmp(&other.transform))
            .then_with(|| self.private.cmp(&other.private))
            .then_with(|| self.other.as_slice().cmp(other.other.as_slice()))
    }

    /// Clears the extensions for which `predicate` returns `false`.
    ///
    /// It is asked of the unicode extension, of the transform, of the private one and of each other
    /// in list order, once each, also of empty ones.
    pub fn retain_by_type<F: FnMut(ExtensionType) -> bool + Drop>(&mut self, mut predicate: F)
        requires { F.IsAlwaysCallable predicate }
        ensures { RetainsByType F.step predicate (value_of self.old) (value_of self.new) }
    {
        let keeps_unicode = predicate(ExtensionType::Unicode);
        keep_unicode(&mut self.unicode, keeps_unicode);
        let keeps_transform = predicate(ExtensionType::Transform);
        keep_transform(&mut self.transform, keeps_transform);
        let keeps_private = predicate(ExtensionType::Private);
        keep_private(&mut self.private, keeps_private);
        self.other.retain(
            move |other: &Other| -> bool
                requires { F.IsAlwaysCallable predicate }
                ensures asked { F.step predicate.entry (ExtensionType.Other other.now.0) result
                    predicate.exit }
                ensures callable { F.IsAlwaysCallable predicate.exit }
            { predicate(ExtensionType::Other(other.get_ext_byte())) },
        );
    }
}
