//! Stored forms. JSON strings of texts: subtags, identifiers and locales as values of `serde_json`. And languages
//! stored by version 1, which `carry_v1` converts.
//!
//! `JsonText` promises for every type that prints a text and parses one: `to_json` is the JSON string of the printed
//! text. `from_json` parses a string as its text, and refuses anything else. What `to_json` returns parses back to
//! the same value if the text does, unless memory runs out. So it is of subtags and identifiers always, and of
//! locales if they are well-formed.
//!
//! It stands on the printing and the parsers of `iloc_subtags`, `iloc_langid` and `iloc_locale`.
#![tactic(auto)]

pub mod carry;
pub mod carry_error;
pub mod errors;
pub mod json_text;
pub mod text_value;

pub use carry::{carry_v1, carry_v1_in};
pub use carry_error::CarryError;
pub use errors::JsonError;
pub use json_text::JsonText;
pub use text_value::TextValue;
