//! The extensions of a locale: parsed, printed, copied, compared, kept by type, and judged.
//!
//! Extensions are four parts, each with a crate of its own below: `u`, `t`, `x`, and the others.
//!
//! `read_blocks` parses what follows a locale's head, from one singleton to the next. What is parsed is what the
//! blocks mean together. A text is refused with the fault of its first bad block. Short blocks allocate nothing: of
//! `u` with few words, of `t` with few variants and no field, of `x` with few words. `read_blocks` calls the parsers
//! of the parts, each of which leaves exactly what follows its block. Its proof uses their public contracts alone.
//!
//! Emptiness, order and printed text of extensions are those of the definitions, for every value, also for one that
//! no text means. `retain_by_type` asks each part in turn, and clears those that are not to be kept. `is_well_formed`
//! is exactly the definition, and says whether the text parses back. The other extensions then ascend strictly by
//! singletons of their own, each with a word. No value of a keyword holds `true` or a subtag of two characters.
//!
//! It stands on the public contracts of the parts (`iloc_unicode`, `iloc_transform`, `iloc_other`), and on the laws of
//! the grammar (`iloc_spec_grammar`).
#![tactic(auto)]

pub mod blocks;
pub mod copying;
pub mod extension_laws;
pub mod extension_type;
pub mod extensions;
pub mod extensions_text;
pub mod kept;
mod others;
mod retaining;
mod taking;
pub mod turning;
pub mod well_formed;

pub use blocks::read_blocks;
pub use extension_type::ExtensionType;
pub use extensions::Extensions;
pub use well_formed::is_well_formed;
