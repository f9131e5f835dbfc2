//! The private extension, and the extensions that are neither unicode, transform nor private.
//!
//! A private extension is a list of private subtags, an other extension a singleton and a list of
//! subtags. Readers take exactly what the grammar of UTS #35, section 3, allows after a singleton,
//! by the relations of `iloc_spec_parts`, which also say what that means for a locale. Both print as the
//! normal text does.
//!
//! What may grow has a form for any memory, such as `try_from_utf8_in` of `try_from_utf8`. It runs out of memory only if
//! that memory refused room for at most as many subtags as the text has bytes.
//!
//! It stands on subtags and pieces (`iloc_subtags`), on lists of subtags (`iloc_word_list`) and on what is asked for room
//! (`iloc_memory`).
#![tactic(auto)]

ghost use Rattle.std.specs.Prelude.{◌≡◌, ◌↔◌, IsTrue, ℕ, List};
ghost use Rattle.iloc_spec_grammar.specs.Syntax.{Text};
ghost use Rattle.iloc_spec_parts.specs.Orders.{words_cmp, other_cmp};
ghost use Rattle.iloc_spec_parts.specs.Hashes.{words_fed, other_fed};

use std::hash::Hash;

pub mod other;
pub mod private;
pub mod singleton;

pub use other::Other;
pub use private::Private;

/// Both stand in the orders of the definitions.
pub fn orders()
    ensures private { (v w : List Text) → ⟦<Private as Ord>⟧.cmp v w ≡ words_cmp v w }
    ensures other { (o q : ℕ × List (List ℕ)) → ⟦<Other as Ord>⟧.cmp o q ≡ other_cmp o q }
{}

/// `==` tells whether the two are the same.
pub fn equality()
    ensures private { (v w : List Text) → IsTrue (⟦<Private as PartialEq>⟧.eq v w) ↔ (v ≡ w) }
    ensures other { (o q : ℕ × List (List ℕ)) → IsTrue (⟦<Other as PartialEq>⟧.eq o q) ↔ (o ≡ q) }
{}

/// What a hasher is fed is what the definitions say.
pub fn hashes()
    ensures private { (v : List Text) → ⟦<Private as Hash>⟧.hash_input v ≡ words_fed v }
    ensures other { (o : ℕ × List (List ℕ)) → ⟦<Other as Hash>⟧.hash_input o ≡ other_fed o }
{}
