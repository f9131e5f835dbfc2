//! Laws of extensions: their order, `==` and hashes.
ghost use Rattle.std.specs.Prelude.{◌≡◌, ◌↔◌, IsTrue};
ghost use Rattle.iloc_spec_parts.specs.Orders.{kind_cmp};
ghost use Rattle.iloc_spec_parts.specs.Hashes.{extensions_fed};
ghost use Rattle.iloc_extensions.specs.ExtensionsValue.{value_of};
ghost use Rattle.iloc_extensions.specs.Kinds.{kind_of};

use crate::extension_type::ExtensionType;
use crate::extensions::Extensions;
use std::hash::Hash;

/// The kinds stand in the order of the definitions: `t`, `u`, `x`, and then the others by their singletons.
pub fn orders()
    ensures { (a b : ExtensionType)
        → ⟦<ExtensionType as Ord>⟧.cmp a b ≡ kind_cmp (kind_of a) (kind_of b) }
{}

/// `==` tells whether the two stand for the same.
pub fn equality()
    ensures { (d e : Extensions)
        → IsTrue (⟦<Extensions as PartialEq>⟧.eq d e) ↔ (value_of d ≡ value_of e) }
{}

/// A hasher is fed the unicode extension, the transform, the private subtags and the others.
pub fn hashes()
    ensures { (e : Extensions)
        → ⟦<Extensions as Hash>⟧.hash_input e ≡ extensions_fed (value_of e) }
{}
