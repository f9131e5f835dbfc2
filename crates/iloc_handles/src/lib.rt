//! Locales that C holds: a handle is the pointer of a box, or null, which stands for `und`.
//!
//! The crate `icu_locale_c` exports the calls of `include/icu_locale.h`. Most of them are one of three functions
//! here: `tell` reads a part, `ask` answers a question, `make_change` makes a change. Their contracts speak of the
//! locale that the handle stands for (`held_locale`).
//!
//! A call that reads is given a loan (`Lent`), which is as before afterwards (`IsAsked`). Any number of calls may have
//! a loan of one locale at the same time. A call that changes is given the handle itself. Its status says how the
//! locale has changed (`Changes`), and a handle that stands for `und` owns nothing then (`IsTight`).
//!
//! Raw pointers stand in `open_box`, `handle` and `lent` alone, whose eight functions with pointers are proved by hand.
#![tactic(auto)]

mod asking;
mod attributes;
mod clearing;
mod data;
mod handle;
mod identifier;
mod keywords;
mod lent;
mod merging;
mod open_box;
mod others;
mod pairs;
mod parts;
mod subtags;
mod transform;
mod variants;
mod whole;
mod words;

pub use asking::{Change, Part, Question, ask, make_change, tell};
pub use attributes::{AddAttribute, OfAttributes, RemoveAttribute};
pub use clearing::Clear;
pub use data::Priority;
pub use handle::Handle;
pub use identifier::{SetLanguage, SetRegion, SetScript};
pub use keywords::OfKeywords;
pub use lent::Lent;
pub use merging::{Merge, change_by};
pub use others::{HasOther, OfOther, RemoveOther, SetOther};
pub use pairs::{KeyAt, PairCount, Pairs, RemovePair, SetPair, ValueAt, ValueOf};
pub use parts::Named;
pub use transform::{OfFields, SetPrivate, SetTransformLanguage};
pub use variants::{AddVariant, OfVariants, RemoveVariant};
pub use whole::{AgainstBytes, FromText, Hashed, Test, eq, order_of, tell_meant};
pub use words::{HasText, WordAt, WordCount, Words};
