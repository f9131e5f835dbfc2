//! The parent of a normal text.
ghost use Rattle.std.specs.Prelude.{◌≡◌, ◌≢◌, ◌≤◌, [], true, false, None, Some, codes, length};
ghost use Rattle.std.specs.Str.{bytes_eq};
ghost use Rattle.std.specs.Option.{option_copied};
ghost use Rattle.iloc_spec_grammar.specs.Meaning.{Locale};
ghost use Rattle.iloc_spec_grammar.specs.Syntax.{dashes};
ghost use Rattle.iloc_spec_grammar.specs.Values.{IsWellFormed, extensions_spelling, text as text_of};
ghost use Rattle.iloc_text_parts.specs.Parts.{IsParentText};
ghost use Rattle.iloc_text_parts.specs.Cuts.{last_of};
ghost use Rattle.iloc_text_parts.specs.Tails.{IsTail, tail_pieces};

use crate::identifier::cut_apart;
use crate::tails::{next_piece, split};

// The text of the parent of the locale whose normal text this is, if it has one.
pub(crate) fn parent_of(normal: &[u8]) -> Option<&[u8]>
    ensures { (M : Locale) → IsWellFormed M → normal.now ≡ text_of M
        → IsParentText M (option_copied result) }
{
    let parts = cut_apart(normal);
    if parts.extensions.is_empty() {
        return shorter(normal);
    }
    Some(parts.base_name)
}

// The text of the parent of a locale without extensions.
fn shorter(normal: &[u8]) -> Option<&[u8]>
    ensures { (M : Locale) → IsWellFormed M → normal.now ≡ text_of M
        → extensions_spelling M.extensions ≡ []
        → IsParentText M (option_copied result) }
{
    let (language, words) = split(normal);
    if words.is_empty() {
        return parent_of_language(language);
    }
    let last = last_tail(words);
    let (shorter, _) = normal.split_at(normal.len() - last.len());
    Some(shorter)
}

// The parent of a language alone: `und`, which has none.
fn parent_of_language<'a>(language: &[u8]) -> Option<&'a [u8]>
    ensures und { bytes_eq language.now (codes "und") ≡ true → option_copied result ≡ None }
    ensures other { bytes_eq language.now (codes "und") ≡ false
        → option_copied result ≡ Some (codes "und") }
{
    if language == b"und".as_slice() {
        return None;
    }
    Some(b"und".as_slice())
}

// The last piece of a tail, as a tail.
fn last_tail(words: &[u8]) -> &[u8]
    requires tail { IsTail words.now }
    requires some { words.now ≢ [] }
    ensures last { result.now ≡ dashes (last_of (tail_pieces words.now)) }
    ensures within { length result.now ≤ length words.now }
{
    let mut rest = words;
    'pieces: loop {
        let (_, later) = next_piece(rest);
        if later.is_empty() {
            return rest;
        }
        rest = later;
    }
}
