//! The parts of a text that are parsed alone: what a parser of one part takes from the front of the pieces, and which
//! texts are small or inline. The values of parts: their orders, and what they feed a hasher. And subdivisions, data
//! locales, the types of keywords, and preferences.
//!
//! `fronts` has the laws of parts: of `u`, `t`, other singletons and `x`. `small` has those of small texts (one variant,
//! one keyword) and of inline texts (few words in each list), which are parsed without an allocation.
//!
//! `orders` has the laws of the orders of values, and of what values feed a hasher.
//!
//! `regions` has the laws of subdivisions and data locales, `preferences` those of keyword types and preferences.
//!
//! It stands on `iloc_spec_grammar`.
#![tactic(auto)]

pub mod fronts;
pub mod orders;
pub mod preferences;
pub mod regions;
pub mod small;
