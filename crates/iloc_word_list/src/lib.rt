//! Lists and sets of subtags, and the value of a keyword of the unicode extension, which is a list.
//!
//! `WordList` is a list of subtags of one kind, each normal. Sets of subtags, extensions and values keep their
//! subtags in one. Up to four stand in place and allocate nothing.
//!
//! `WordSet` is a set of subtags of one kind: the variants of an identifier, and the attributes of a unicode extension. It
//! is a list in ascending order, each once. Contracts see it as the list of the texts. Beyond four it allocates, and a
//! call that runs out of memory leaves it as before. Searches go by halves.
//!
//! `Value` is the value of a keyword. Readers and printers are those of UTS #35, section 3.2 (`ufield`): the
//! pieces in lower case, without `true`, which is what an empty value stands for.
//!
//! What may grow has a form for any memory, such as `push_in` of `push`. It runs out of memory only if that memory refused
//! room for at most all the subtags.
//!
//! Why the type of a keyword refuses a value (`PreferencesParseError`), and currencies as values, stand here
//! too: the conversions of types of other crates into values and back can stand nowhere else.
//!
//! It stands on `iloc_spec_grammar` and `iloc_spec_parts` (definitions), `iloc_subtags` (subtags and pieces), `iloc_shortvec`
//! (lists that keep four items in place), `iloc_memory` (what is asked for room) and `iloc_writeable` (printing).
#![tactic(auto)]

ghost use Rattle.std.specs.Prelude.{◌≡◌, ◌↔◌, List, IsTrue};
ghost use Rattle.iloc_spec_grammar.specs.Syntax.{Text};
ghost use Rattle.iloc_spec_parts.specs.Orders.{words_cmp};
ghost use Rattle.iloc_spec_parts.specs.Hashes.{word_fed, words_fed};

use iloc_subtags::{WordKind, WordOf};
use std::hash::Hash;

pub mod ascending;
pub mod currency;
pub mod errors;
pub mod printing;
pub mod reader;
pub mod traits;
pub mod value;
pub mod word_collector;
pub mod word_list;
pub mod word_set;

pub use ascending::is_strictly_ascending;
pub use errors::PreferencesParseError;
pub use reader::read_value;
pub use value::{Value, copy_of_single, spells_true};
pub use word_collector::WordCollector;
pub use word_list::WordList;
pub use word_set::{Variants, WordSet};

/// Values stand in the order of the definitions.
pub fn orders()
    ensures { (v w : List Text) → ⟦<Value as Ord>⟧.cmp v w ≡ words_cmp v w }
{}

/// `==` tells whether two values are the same.
#[tactic(auto, using(crate::specs::EqualityLaws::words_exact))]
pub fn equality()
    ensures { (v w : List Text) → IsTrue (⟦<Value as PartialEq>⟧.eq v w) ↔ (v ≡ w) }
{}

/// A hasher is fed the subtags of a value.
pub fn hashes()
    ensures { (v : List Text) → ⟦<Value as Hash>⟧.hash_input v ≡ words_fed v }
{}

/// A hasher is fed the text of a subtag, and the subtags of a set.
pub fn set_hashes<K: WordKind<N>, const N: usize>()
    ensures words { (w : Text) → ⟦<WordOf<K, N> as Hash>⟧.hash_input w ≡ word_fed w }
    ensures sets { (ws : List Text) → ⟦<WordSet<K, N> as Hash>⟧.hash_input ws ≡ words_fed ws }
{}
