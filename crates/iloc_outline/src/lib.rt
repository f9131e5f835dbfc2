//! The outline of a text: what its parts are and in which order they are printed, without a value being built.
//!
//! A text is read from the left, piece by piece (`iloc_pieces`). A reader for each part puts what it reads into spans
//! (`spans`): a variant, an attribute, a keyword, a field, or a singleton with what belongs to it. A span that comes too
//! late is put in its place (`sorting`), and so are blocks.
//!
//! `outline_identifier` and `outline_locale` promise that a text has the fault that they name, or that the outline's
//! text is the normal text (`IsIdentifierOutlined`, `IsLocaleOutlined`). They take texts that begin with a language.
//! `copy_outline` writes the normal text.
//!
//! Readers take as a type what happens where 64 spans in place are not enough (`growth`). With `InPlace` the text is `Full`.
//! With `Growing` the room grows (`more`), and many words are put in order by a tree (`group`). Then `Full` comes only if
//! memory was refused: room for the spans that there were and those of the pieces left (`IsRoomRefused`), so for at most as many
//! as the text has pieces. A program that reads in place needs no allocator.
//!
//! `iloc_normalize` asks it of each identifier and each locale that is not plain, and whose beginning does not refuse it.
//! docs/DECISIONS.md says what that costs.
//!
//! It stands on the grammar (`iloc_spec_grammar`), on pieces (`iloc_pieces`) and on the refusals of `iloc_subtags`.
#![tactic(auto)]

pub mod blocks;
pub mod fields;
pub mod growth;
pub mod identifier;
pub mod other;
pub mod outline;
pub mod printing;
pub mod reading;
pub mod sorting;
pub mod transform;
pub mod unicode;
pub mod words;
