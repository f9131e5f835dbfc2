//! The transform extension: an identifier and fields.
//!
//! A value of a field is a list of subtags, fields are a map from keys to values (`fields`, `value`). Parsers take exactly
//! what the grammar of UTS #35, section 3, allows after `t`, by its definition in `iloc_spec_parts`, and print it as the
//! normal text does, the identifier in lower case.
//!
//! What may grow has a form for any memory, such as `try_from_utf8_in` of `try_from_utf8`. It runs out of memory only if
//! that memory refused room for at most as many subtags or fields as the text has bytes.
//!
//! It stands on the identifiers of `iloc_langid`, the maps of `iloc_litemap`, the lists of `iloc_shortvec`, the subtags of
//! `iloc_subtags`, and what is asked for room (`iloc_memory`).
#![tactic(auto)]

ghost use Rattle.std.specs.Prelude.{◌≡◌, ◌≤◌, ◌↔◌, IsTrue, List, [], length, IfSome};
ghost use Rattle.iloc_spec_grammar.specs.Syntax.{Text, languages};
ghost use Rattle.iloc_spec_grammar.specs.Syntax as written;
ghost use Rattle.iloc_spec_grammar.specs.Meaning.{front};
ghost use Rattle.iloc_spec_grammar.specs.ByBlocks.{TransformMeans};
ghost use Rattle.iloc_spec_parts.specs.Hashes.{transform_fed};
ghost use Rattle.iloc_transform.specs.declared.transform.Transform.{Transform};
ghost use Rattle.iloc_transform.specs.TransformReading.{TransformWantsMemory, value_of};

use std::hash::Hash;

pub mod field_laws;
pub mod fields;
mod lang;
pub mod transform;
pub mod value;

pub use fields::{Fields, Key};
pub use transform::Transform;
pub use value::Value;

/// A block that means an identifier of at most four variants, or none, and no field allocates nothing.
pub fn few_words()
    ensures { (ps : List Text) (m : written.Transform) → TransformMeans languages (front ps) m
        → IfSome m.id (λ i. length i.variants ≤ 4) → m.fields ≡ [] → ¬ (TransformWantsMemory ps) }
{}

/// `==` tells whether the two stand for the same.
pub fn equality()
    ensures { (m n : Transform)
        → IsTrue (⟦<Transform as PartialEq>⟧.eq m n) ↔ (value_of m ≡ value_of n) }
{}

/// What a hasher is fed is what the definitions say.
pub fn hashes()
    ensures { (m : Transform)
        → ⟦<Transform as Hash>⟧.hash_input m ≡ transform_fed (value_of m) }
{}
