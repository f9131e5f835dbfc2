//! What makes a kind of subtag.
ghost use Rattle.std.specs.Prelude.{◌≡◌, ◌≤◌, IsTrue, true};
ghost use Rattle.iloc_spec_grammar.specs.Syntax.{Text, Kind, is_word, IsWord, normal, greatest};
ghost use Rattle.iloc_tinystr.specs.TinyText.{is_tiny_text};
ghost use Rattle.iloc_subtags.specs.Lengths.{has_length};
ghost use Rattle.iloc_subtags.specs.declared.parse_error.ParseError.{ParseError};
ghost use Rattle.iloc_subtags.specs.Judging.{NamesFault};

use crate::parse_error::ParseError;
use iloc_tinystr::ShortPiece;

/// A kind of subtag of at most `N` bytes: which pieces it takes, their normal case, and its refusal.
///
/// The marker types that have it, as `LanguageKind`, only name a kind within a type.
pub trait WordKind<const N: usize> {
    /// The kind in the definitions.
    ghost kind: { Kind };

    /// What is returned for a piece that is no subtag of the kind.
    ghost refusal: { ParseError };

    /// Whether the piece is a subtag of the kind, in any case.
    fn accepts(piece: ShortPiece) -> bool
        ensures { result ≡ is_word kind piece };

    /// Whether a subtag of the kind may have so many bytes.
    fn has_length(len: usize) -> bool
        ensures value { result ≡ has_length kind len }
        ensures few { IsTrue result → len ≤ 8 };

    /// The piece in the case of the kind.
    fn normal(piece: ShortPiece) -> ShortPiece
        ensures { result ≡ normal kind piece };

    /// The refusal of the kind.
    fn refusal() -> ParseError
        ensures { result ≡ refusal };

    /// Each subtag of the kind is a short text of at most `N` bytes.
    ghost fits: { (text : Text) → IsWord kind text → is_tiny_text N text ≡ true };

    /// The refusal names a fault.
    ghost faulty: { NamesFault refusal };

    /// `N` is the greatest length of the kind.
    ghost size: { greatest 8 kind ≡ N };
}
