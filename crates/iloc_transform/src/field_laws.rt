//! Laws of fields and their values: order, equality, hashes.

ghost use Rattle.std.specs.Prelude.{◌≡◌, ◌↔◌, IsTrue, List};
ghost use Rattle.iloc_spec_grammar.specs.Syntax.{Text};
ghost use Rattle.iloc_spec_grammar.specs.Syntax as written;
ghost use Rattle.iloc_spec_parts.specs.Orders.{words_cmp, fields_cmp};
ghost use Rattle.iloc_spec_parts.specs.Hashes.{words_fed, fields_fed};

use crate::{Fields, Value};
use std::hash::Hash;

/// Values and fields stand in the orders of the definitions.
pub fn orders()
    ensures values { (v w : List Text) → ⟦<Value as Ord>⟧.cmp v w ≡ words_cmp v w }
    ensures fields { (f g : written.Fields) → ⟦<Fields as Ord>⟧.cmp f g ≡ fields_cmp f g }
{}

/// `==` tells whether the two stand for the same.
pub fn equality()
    ensures values { (v w : List Text) → IsTrue (⟦<Value as PartialEq>⟧.eq v w) ↔ (v ≡ w) }
    ensures fields { (f g : written.Fields) → IsTrue (⟦<Fields as PartialEq>⟧.eq f g) ↔ (f ≡ g) }
{}

/// What a hasher is fed is what the definitions say.
pub fn hashes()
    ensures values { (v : List Text) → ⟦<Value as Hash>⟧.hash_input v ≡ words_fed v }
    ensures fields { (f : written.Fields) → ⟦<Fields as Hash>⟧.hash_input f ≡ fields_fed f }
{}
