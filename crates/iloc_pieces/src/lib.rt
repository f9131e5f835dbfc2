//! A text read sixteen bytes at a time, by bit masks: plain texts, beginnings, and pieces.
//!
//! **Plain texts** (`plain`). A text is plain here if it is a language, perhaps a script and a region, and nothing else, in
//! at most sixteen bytes: `de`, `en-us`, `zh-HANT-tw`, `es-419`. Most identifiers in use are plain. `read_plain` promises
//! that a text for which it returns `Some` means the identifier of these subtags, by the grammar (`IsPlain`), and that the
//! bytes begin with its normal text. `normal_plain` also says of bytes that are loaded whether they are their normal text
//! already (`IsPlainText`). Two steps find all plain shapes. The first hyphen ends the language. What follows has one of
//! six shapes, and its length says which (`tail`): a row of a table says where letters, hyphens and digits are wanted, and
//! which letters are turned to upper case. docs/ARCHITECTURE.md says how to add a shape.
//!
//! **Beginnings** (`front`). `may_begin` says by the length of the first piece that a line begins with no
//! language (`HasNoLanguage`), and `lanes_begin_with_language` says it of a short text with no room behind it. `find_block`
//! finds the first piece of one byte, whatever comes before it (`IsFound`). Sixteen bytes from
//! a piece on show its length and whether it is a word (`run`, `words`).
//!
//! Of both, `None` says nothing: the caller reads the text as it would without them. So each caller keeps its own contract,
//! and a form that is not known here costs time and nothing else.
//!
//! **Pieces** (`marks`, `shape`, `cursor`). Masks of sixteen bytes say where a piece ends, which of its bytes are no letters,
//! and which are in no word. They give a piece its *shape*: a bit for each byte, set for a digit, and a last one above. By
//! its shape a piece is tested for each kind of word. A `Cursor` is what is left of a text, from a piece on: `cursor_in`
//! begins, `next` gives the next piece, `advance` goes on to it, and `word_number` gives the number by which words are
//! ordered. The tests are those of the grammar (`is_word`), and what is left after a piece is what its hyphen leaves
//! (`IsNextPiece`).
//!
//! **Room** (`window`). A `Window` is a text with sixteen bytes behind it, which may be loaded with it and change nothing. So
//! sixteen bytes can be loaded from any place of the text. That they are there is an invariant of its type.
//!
//! It allocates nothing. It stands on the grammar (`iloc_spec_grammar`) and on pieces as numbers (`iloc_tinystr`).
#![tactic(auto)]

pub mod cursor;
pub mod front;
mod lanes;
pub mod load;
mod marked;
pub mod marks;
pub mod normal;
mod place;
pub mod plain;
mod read;
mod run;
pub mod shape;
mod tail;
pub mod window;
pub mod words;

pub use front::{find_block, lanes_begin_with_language, may_begin};
pub use load::first_in_lower_case;
pub use marked::{before_marked, is_language_length};
pub use normal::{PlainText, are_same, normal_plain};
pub use plain::Plain;
pub use read::{read_lanes, read_plain, read_plain_text};
pub use window::Window;
