//! The unicode extension of a locale: attributes, which are a set, and keywords, which are a map from
//! keys to values (UTS #35 section 3.2, `unicode_locale_extensions`; section 3.6.1 has the keys).
//!
//! Readers take exactly the front of the pieces that `iloc_spec_parts` defines and leave the rest; of equal
//! keys the first stays, and repeated attributes are dropped. Printing is the normal text of the part.
//! Up to four attributes, and one key with up to four subtags, allocate nothing. What parses a text has a form for any
//! memory, such as `try_from_utf8_in` of `try_from_utf8`. It runs out of memory only if that memory refused room for at
//! most as many items as the text has bytes. It stands on the set of subtags, the map over short lists and its laws,
//! values, pieces, printing, and `iloc_memory` (what is asked for room).
#![tactic(auto)]

ghost use Rattle.std.specs.Prelude.{◌≡◌, ◌↔◌, List, IsTrue};
ghost use Rattle.iloc_spec_grammar.specs.Syntax.{Text, Fields};
ghost use Rattle.iloc_spec_parts.specs.Orders.{words_cmp, keywords_cmp};
ghost use Rattle.iloc_spec_parts.specs.Hashes.{words_fed, fields_fed, unicode_fed};
ghost use Rattle.iloc_unicode.specs.UnicodeValue.{value_of};

use std::hash::Hash;

pub mod attributes;
pub mod keywords;
pub mod printing;
pub mod reader;
pub mod unicode;

pub use attributes::Attributes;
pub use keywords::{Keywords, KeywordsIter};
pub use unicode::Unicode;

/// Attributes and keywords stand in the orders of the definitions.
pub fn orders()
    ensures attributes { (v w : List Text) → ⟦<Attributes as Ord>⟧.cmp v w ≡ words_cmp v w }
    ensures keywords { (v w : Fields) → ⟦<Keywords as Ord>⟧.cmp v w ≡ keywords_cmp v w }
{}

/// `==` tells whether two parts, or two unicode extensions, are the same.
pub fn equality()
    ensures attributes { (v w : List Text)
        → IsTrue (⟦<Attributes as PartialEq>⟧.eq v w) ↔ (v ≡ w) }
    ensures keywords { (v w : Fields) → IsTrue (⟦<Keywords as PartialEq>⟧.eq v w) ↔ (v ≡ w) }
    ensures unicode { (u v : Unicode)
        → IsTrue (⟦<Unicode as PartialEq>⟧.eq u v) ↔ (value_of u ≡ value_of v) }
{}

/// What a hasher is fed is what the definitions say.
pub fn hashes()
    ensures attributes { (v : List Text) → ⟦<Attributes as Hash>⟧.hash_input v ≡ words_fed v }
    ensures keywords { (f : Fields) → ⟦<Keywords as Hash>⟧.hash_input f ≡ fields_fed f }
    ensures unicode { (u : Unicode)
        → ⟦<Unicode as Hash>⟧.hash_input u ≡ unicode_fed (value_of u) }
{}
