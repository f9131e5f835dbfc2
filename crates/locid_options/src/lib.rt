//! The arguments of the program `locid`: its options and their help, word by word, and what it says on standard error.
//!
//! It promises what each proof does, that every call ends and does nothing undefined. What an option does, and what is said of
//! a wrong word, tests hold (`tools/locid_ends`). It stands on std, and on the modes of `iloc_normalize`.
#![tactic(auto)]

pub mod messages;
pub mod table;
pub mod words;
