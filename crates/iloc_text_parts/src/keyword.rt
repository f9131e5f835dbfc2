//! Keywords of a normal text, which follow the singleton `u`.
ghost use Rattle.std.specs.Prelude.{◌≡◌, None, Some, MatchOption};
ghost use Rattle.std.specs.Option.{option_copied};
ghost use Rattle.iloc_spec_grammar.specs.Meaning.{Locale};
ghost use Rattle.iloc_spec_grammar.specs.Syntax.{dashes};
ghost use Rattle.iloc_spec_grammar.specs.Values.{IsWellFormed, extensions_spelling};
ghost use Rattle.iloc_text_parts.specs.Parts.{keyword_text};
ghost use Rattle.iloc_text_parts.specs.Cuts.{after_key, after_u};
ghost use Rattle.iloc_text_parts.specs.Tails.{IsTail, tail_pieces};

use crate::tails::{next_piece, take_longer, without_hyphen};
use iloc_subtags::UnicodeKey;

// The value of the keyword with this key, in any case, of a locale with these extensions.
pub(crate) fn keyword_of<'a>(extensions: &'a [u8], key: &[u8]) -> Option<&'a [u8]>
    requires { IsTail extensions.now }
    ensures { (M : Locale) → IsWellFormed M
        → extensions.now ≡ dashes (extensions_spelling M.extensions)
        → option_copied result ≡ keyword_text key.now M }
{
    let Ok(key) = UnicodeKey::try_from_utf8(key) else {
        return None;
    };
    let later = find_key(find_unicode(extensions), key.as_str().as_bytes())?;
    Some(without_hyphen(take_longer(later, 2).0))
}

// What follows the singleton `u`, or nothing.
fn find_unicode(extensions: &[u8]) -> &[u8]
    requires { IsTail extensions.now }
    ensures rest { tail_pieces result.now ≡ after_u (tail_pieces extensions.now) }
    ensures tail { IsTail result.now }
{
    let mut rest = extensions;
    'pieces: while !rest.is_empty() {
        let (piece, later) = next_piece(rest);
        if piece == b"u".as_slice() {
            return later;
        }
        if piece == b"x".as_slice() {
            return b"".as_slice();
        }
        rest = later;
    }
    rest
}

// What follows the key, if it comes before the next singleton.
fn find_key<'a>(unicode: &'a [u8], key: &[u8]) -> Option<&'a [u8]>
    requires { IsTail unicode.now }
    ensures { MatchOption result (after_key key.now (tail_pieces unicode.now) ≡ None)
        (λ later. IsTail later.now
        × (after_key key.now (tail_pieces unicode.now) ≡ Some (tail_pieces later.now))) }
{
    let mut rest = unicode;
    'pieces: while !rest.is_empty() {
        let (piece, later) = next_piece(rest);
        if piece.len() == 1 {
            return None;
        }
        if piece == key {
            return Some(later);
        }
        rest = later;
    }
    None
}
