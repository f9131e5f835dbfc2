//! What a text says of the parts by which data is looked up: a language, and perhaps a script, a region or
//! a subdivision of it, and a variant.
//!
//! A text is parsed without allocating as the definitions of `iloc_spec_parts` say, and refused with the fault that
//! they name; what was parsed prints the text of the data locale that is made of it. `iloc_data` has the data
//! locales that users hold. It stands on the parser of small locales (`iloc_langid`) and on
//! subdivisions (`iloc_keyword_types`), and on no locale.
#![tactic(auto)]

pub mod parts;
pub mod printing;
pub mod region;

pub use parts::DataParts;
pub use printing::write_with_subdivision;
