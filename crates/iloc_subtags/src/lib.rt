//! Subtags, in eleven kinds, and the pieces of a text, from which they are parsed one at a time.
//!
//! A subtag is kept in the normal case of its kind, in place, and is seen by contracts as its text. What each kind
//! takes, and its normal case, are definitions of `iloc_spec_grammar` (specs/Syntax.antt), which restate the subtags
//! of UTS #35, section 3. Every call returns exactly what they say, and none allocates.
//!
//! There is one generic struct, `WordOf<K, N>`, over a kind `K` and its greatest length `N`. The kinds' names, such as
//! `Language`, are aliases of it. Code over any kind has the trait `Word` and its laws.
//!
//! A text is cut at each hyphen and nowhere else. (UTS #35, section 3 also lets underscores separate:
//! docs/DIFFERENCES.md.) The empty text is one empty piece. Contracts see a `SubtagIterator` as the list of pieces that
//! it has left, and each piece is a slice of the input. `take_word` takes the next piece if it is a word of a kind.
//! `is_at_block` tells where a part ends.
//!
//! It stands on `iloc_spec_grammar` (definitions), `iloc_tinystr` (short texts) and `iloc_writeable` (printing).
#![tactic(auto)]

pub mod any_kind;
pub mod extension_kinds;
pub mod identifier_kinds;
pub mod kind;
pub mod parse_error;
pub mod reading;
pub mod subtag_iterator;
pub mod word_of;

pub use any_kind::Word;
pub use extension_kinds::{
    Attribute, AttributeKind, CurrencyType, CurrencyTypeKind, PrivateSubtag, PrivateSubtagKind,
    SubdivisionSuffix, SubdivisionSuffixKind, TransformKey, TransformKeyKind, UnicodeKey,
    UnicodeKeyKind,
};
pub use identifier_kinds::{
    Language, LanguageKind, Region, RegionKind, Script, ScriptKind, Subtag, SubtagKind, Variant,
    VariantKind,
};
pub use kind::WordKind;
pub use parse_error::ParseError;
pub use reading::{is_at_block, next_has_length, take_byte, take_word};
pub use subtag_iterator::SubtagIterator;
pub use word_of::{WordOf, are_normal, is_normal, raw_of_word, subtag_of, subtag_of_normal};
