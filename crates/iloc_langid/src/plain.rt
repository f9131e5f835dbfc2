//! Takes what most identifiers are: a language, and perhaps a script and a region.
ghost use Rattle.std.specs.Prelude.{◌≡◌, ◌≤◌, [], IfSome, MatchOption, false, take};
ghost use Rattle.iloc_spec_grammar.specs.Syntax.{first_piece, Language as language, is_word, languages, pieces};
ghost use Rattle.iloc_subtags.specs.Left.{left};
ghost use Rattle.iloc_langid.specs.PlainReads.{IsPlainFront};

use iloc_pieces::read_lanes;
use iloc_subtags::{
    Language, LanguageKind, Region, RegionKind, Script, ScriptKind, SubtagIterator,
    subtag_of_normal, take_word,
};
use std::simd::prelude::*;

/// A language, and perhaps a script and a region.
#[derive(Clone, Copy)]
pub(crate) struct PlainParts {
    pub(crate) language: Language,
    pub(crate) script: Option<Script>,
    pub(crate) region: Option<Region>,
}

/// Takes the subtags at the front, each if it fits; `None` if the first piece is no language.
#[inline(always)]
pub(crate) fn take_plain(iter: &mut SubtagIterator<'_>) -> Option<PlainParts>
    ensures { MatchOption result
        (is_word (language languages) (first_piece (left iter.old)) ≡ false)
        (λ plain. IsPlainFront (left iter.old) (left iter.new) plain) }
{
    let mut pieces = *iter;
    let language = take_word::<LanguageKind, 8>(&mut pieces)?;
    let script = take_word::<ScriptKind, 4>(&mut pieces);
    let region = take_word::<RegionKind, 3>(&mut pieces);
    *iter = pieces;
    Some(PlainParts {
        language,
        script,
        region,
    })
}

/// The subtags of the first bytes if they are a plain text (`iloc_pieces`). `None` says nothing of them.
#[inline(always)]
pub(crate) fn plain_parts(v: u8x16, len: usize) -> Option<PlainParts>
    requires { len ≤ 16 }
    ensures { IfSome result (IsPlainFront (pieces (take len v)) []) }
{
    let plain = read_lanes(v, len)?;
    Some(PlainParts {
        language: subtag_of_normal(plain.language()),
        script: plain.script().map(subtag_of_normal),
        region: plain.region().map(subtag_of_normal),
    })
}
