//! The parts of normal texts: where the language, the script, a keyword or the parent of a locale stand among its bytes.
//!
//! In a normal text the parts of a locale stand in one order, in one case, each once. So a part is a part of the bytes, and
//! `part_of` cuts it out. It promises that what is cut out is the part of the locale whose text it is (`IsPart`), for each
//! well-formed locale. It allocates nothing, and builds no value.
//!
//! A text is cut at hyphens: its first piece, and its *tail*, which is empty or begins with a hyphen (`tails`). The words of
//! the identifier are told apart by their kinds (`identifier`). The keywords follow the singleton `u` (`keyword`).
//!
//! It stands on the grammar, on the kinds of subtags (`iloc_subtags`), and on the parents of locales (`iloc_locale`).
#![tactic(auto)]

ghost use Rattle.std.specs.Prelude.{◌≡◌};
ghost use Rattle.std.specs.Option.{option_copied};
ghost use Rattle.iloc_spec_grammar.specs.Meaning.{Locale};
ghost use Rattle.iloc_spec_grammar.specs.Values.{IsWellFormed, text as text_of};
ghost use Rattle.iloc_text_parts.specs.Parts.{IsPart};

mod identifier;
mod keyword;
mod parent;
mod tails;

use identifier::cut_apart;
use keyword::keyword_of;
use parent::parent_of;
use tails::without_hyphen;

/// A part of a locale.
#[derive(Clone, Copy)]
pub enum Part<'a> {
    /// The identifier, without extensions.
    BaseName,
    /// The language.
    Language,
    /// The script; an empty text if there is none.
    Script,
    /// The region; an empty text if there is none.
    Region,
    /// The variants, with hyphens between them; an empty text if there are none.
    Variants,
    /// The value of the keyword with this key, in any case.
    Keyword(&'a [u8]),
    /// The text of the parent: without extensions, or else without the last variant, region, script, or with the language
    /// `und`.
    Parent,
}

/// The part of the locale whose normal text this is: a part of its bytes, or `und`. `None` if there is no such keyword, or no
/// parent.
///
/// It allocates nothing.
///
/// ```text
/// part_of(b"en-Latn-US-u-ca-buddhist", Part::Script): Latn
/// part_of(b"en-Latn-US-u-ca-buddhist", Part::Keyword(b"ca")): buddhist
/// part_of(b"en-Latn-US-u-ca-buddhist", Part::Parent): en-Latn-US
/// part_of(b"und", Part::Parent): None
/// ```
pub fn part_of<'a>(normal: &'a [u8], part: Part<'_>) -> Option<&'a [u8]>
    ensures { (M : Locale) → IsWellFormed M → normal.now ≡ text_of M
        → IsPart part.entry M (option_copied result) }
{
    match part {
        Part::BaseName => Some(cut_apart(normal).base_name),
        Part::Language => Some(tails::split(normal).0),
        Part::Script => Some(cut_apart(normal).script),
        Part::Region => Some(cut_apart(normal).region),
        Part::Variants => Some(without_hyphen(cut_apart(normal).variants)),
        Part::Keyword(key) => keyword_of(cut_apart(normal).extensions, key),
        Part::Parent => parent_of(normal),
    }
}
