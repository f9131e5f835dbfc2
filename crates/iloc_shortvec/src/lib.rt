//! Lists that keep a few items in the value: `ShortBoxSlice` none or one, `ShortWords` up to four.
//!
//! Contracts see either type as the plain list of its items, and how a list is kept shows in no answer. Each call gives
//! what the list gives. A call that runs out of memory leaves its receiver as it was. Look-ups, removals, `clear`, `retain`
//! and comparisons allocate nothing, nor do `push` and `insert` while the items fit in the value.
//!
//! Lists of at most one item come before all longer ones, and within each class the first different item decides.
//! Equal lists hash alike.
//!
//! It stands on `std` alone. One function, the loan of the first cells of an array, is proved by hand.
#![tactic(auto)]

mod few;
mod front;
pub mod into_iter;
mod items;
mod kept;
pub mod short_box_slice;
pub mod short_words;

pub use into_iter::ShortBoxSliceIntoIter;
pub use short_box_slice::ShortBoxSlice;
pub use short_words::{ShortWords, ShortWordsIntoIter};
