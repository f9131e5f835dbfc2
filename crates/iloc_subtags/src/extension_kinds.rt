//! The subtags of extensions: keys, attributes, private subtags, ends of subdivisions, and currencies.
ghost use Rattle.std.specs.Prelude.{◌≡◌};
ghost use Rattle.iloc_spec_grammar.specs.Syntax.{upper};

use crate::kind::WordKind;
use crate::parse_error::ParseError;
use crate::word_of::WordOf;
use iloc_tinystr::{ShortPiece, TinyAsciiStr};

/// The kind of keys of a unicode extension.
pub struct UnicodeKeyKind;

impl WordKind<2> for UnicodeKeyKind {
    ghost use Rattle.std.specs.Prelude.{refl};
    ghost use Rattle.iloc_spec_grammar.specs.Syntax.{UnicodeKey as the_kind};
    ghost use Rattle.iloc_subtags.specs.declared.parse_error.ParseError.TheVariants.{InvalidExtension};
    ghost use Rattle.iloc_subtags.specs.KindLaws.{unicode_key_fits};

    ghost kind = { the_kind };

    ghost refusal = { InvalidExtension };

    ghost fits = { unicode_key_fits };

    ghost faulty = { tt };

    ghost size = { refl };

    #[tactic(auto, unfolding(iloc_spec_grammar::specs::Syntax::is_word))]
    fn accepts(piece: ShortPiece) -> bool {
        piece.len() == 2
            && piece.first().is_ascii_alphanumeric()
            && piece.second().is_ascii_alphabetic()
    }

    #[inline(always)]
    #[tactic(auto, unfolding(crate::specs::Lengths::has_length))]
    fn has_length(len: usize) -> bool {
        len == 2
    }

    #[tactic(auto, unfolding(iloc_spec_grammar::specs::Syntax::lower))]
    fn normal(piece: ShortPiece) -> ShortPiece {
        piece.to_ascii_lowercase()
    }

    fn refusal() -> ParseError {
        ParseError::InvalidExtension
    }
}

/// A key of a unicode extension, as `ca` or `8a`: a letter or digit and a letter, in lower case (`key` of
/// UTS #35, section 3). Other texts are refused with `InvalidExtension`.
pub type UnicodeKey = WordOf<UnicodeKeyKind, 2>;

/// The kind of keys of a transform extension.
pub struct TransformKeyKind;

impl WordKind<2> for TransformKeyKind {
    ghost use Rattle.std.specs.Prelude.{refl};
    ghost use Rattle.iloc_spec_grammar.specs.Syntax.{TransformKey as the_kind};
    ghost use Rattle.iloc_subtags.specs.declared.parse_error.ParseError.TheVariants.{InvalidExtension};
    ghost use Rattle.iloc_subtags.specs.KindLaws.{transform_key_fits};

    ghost kind = { the_kind };

    ghost refusal = { InvalidExtension };

    ghost fits = { transform_key_fits };

    ghost faulty = { tt };

    ghost size = { refl };

    #[tactic(auto, unfolding(iloc_spec_grammar::specs::Syntax::is_word))]
    fn accepts(piece: ShortPiece) -> bool {
        piece.len() == 2 && piece.first().is_ascii_alphabetic() && piece.second().is_ascii_digit()
    }

    #[inline(always)]
    #[tactic(auto, unfolding(crate::specs::Lengths::has_length))]
    fn has_length(len: usize) -> bool {
        len == 2
    }

    #[tactic(auto, unfolding(iloc_spec_grammar::specs::Syntax::lower))]
    fn normal(piece: ShortPiece) -> ShortPiece {
        piece.to_ascii_lowercase()
    }

    fn refusal() -> ParseError {
        ParseError::InvalidExtension
    }
}

/// A key of a transform extension, as `h0`: a letter and a digit, in lower case (`tkey` of UTS #35,
/// section 3). Other texts are refused with `InvalidExtension`.
pub type TransformKey = WordOf<TransformKeyKind, 2>;

/// The kind of attributes of a unicode extension.
pub struct AttributeKind;

impl WordKind<8> for AttributeKind {
    ghost use Rattle.std.specs.Prelude.{refl};
    ghost use Rattle.iloc_spec_grammar.specs.Syntax.{Attribute as the_kind};
    ghost use Rattle.iloc_subtags.specs.declared.parse_error.ParseError.TheVariants.{InvalidExtension};
    ghost use Rattle.iloc_subtags.specs.KindLaws.{attribute_fits};

    ghost kind = { the_kind };

    ghost refusal = { InvalidExtension };

    ghost fits = { attribute_fits };

    ghost faulty = { tt };

    ghost size = { refl };

    #[tactic(auto, unfolding(iloc_spec_grammar::specs::Syntax::is_word))]
    fn accepts(piece: ShortPiece) -> bool {
        matches!(piece.len(), 3..=8) && piece.is_ascii_alphanumeric()
    }

    #[inline(always)]
    #[tactic(auto, unfolding(crate::specs::Lengths::has_length))]
    fn has_length(len: usize) -> bool {
        matches!(len, 3..=8)
    }

    #[tactic(auto, unfolding(iloc_spec_grammar::specs::Syntax::lower))]
    fn normal(piece: ShortPiece) -> ShortPiece {
        piece.to_ascii_lowercase()
    }

    fn refusal() -> ParseError {
        ParseError::InvalidExtension
    }
}

/// A subtag of the attributes of a unicode extension, as `foobar`: 3 to 8 letters or digits, in lower case
/// (`attribute` of UTS #35, section 3). Other texts are refused with `InvalidExtension`.
pub type Attribute = WordOf<AttributeKind, 8>;

/// The kind of subtags of a private extension.
pub struct PrivateSubtagKind;

impl WordKind<8> for PrivateSubtagKind {
    ghost use Rattle.std.specs.Prelude.{refl};
    ghost use Rattle.iloc_spec_grammar.specs.Syntax.{PrivateSubtag as the_kind};
    ghost use Rattle.iloc_subtags.specs.declared.parse_error.ParseError.TheVariants.{InvalidExtension};
    ghost use Rattle.iloc_subtags.specs.KindLaws.{private_subtag_fits};

    ghost kind = { the_kind };

    ghost refusal = { InvalidExtension };

    ghost fits = { private_subtag_fits };

    ghost faulty = { tt };

    ghost size = { refl };

    #[tactic(auto, unfolding(iloc_spec_grammar::specs::Syntax::is_word))]
    fn accepts(piece: ShortPiece) -> bool {
        matches!(piece.len(), 1..=8) && piece.is_ascii_alphanumeric()
    }

    #[inline(always)]
    #[tactic(auto, unfolding(crate::specs::Lengths::has_length))]
    fn has_length(len: usize) -> bool {
        matches!(len, 1..=8)
    }

    #[tactic(auto, unfolding(iloc_spec_grammar::specs::Syntax::lower))]
    fn normal(piece: ShortPiece) -> ShortPiece {
        piece.to_ascii_lowercase()
    }

    fn refusal() -> ParseError {
        ParseError::InvalidExtension
    }
}

/// A subtag of a private extension, as `l`: 1 to 8 letters or digits, in lower case (what follows the hyphens
/// in `pu_extensions` of UTS #35, section 3). Other texts are refused with `InvalidExtension`.
pub type PrivateSubtag = WordOf<PrivateSubtagKind, 8>;

/// The kind of ends of subdivisions.
pub struct SubdivisionSuffixKind;

impl WordKind<4> for SubdivisionSuffixKind {
    ghost use Rattle.std.specs.Prelude.{refl};
    ghost use Rattle.iloc_spec_grammar.specs.Syntax.{SubdivisionSuffix as the_kind};
    ghost use Rattle.iloc_subtags.specs.declared.parse_error.ParseError.TheVariants.{InvalidExtension};
    ghost use Rattle.iloc_subtags.specs.KindLaws.{subdivision_suffix_fits};

    ghost kind = { the_kind };

    ghost refusal = { InvalidExtension };

    ghost fits = { subdivision_suffix_fits };

    ghost faulty = { tt };

    ghost size = { refl };

    #[tactic(auto, unfolding(iloc_spec_grammar::specs::Syntax::is_word))]
    fn accepts(piece: ShortPiece) -> bool {
        matches!(piece.len(), 1..=4) && piece.is_ascii_alphanumeric()
    }

    #[inline(always)]
    #[tactic(auto, unfolding(crate::specs::Lengths::has_length))]
    fn has_length(len: usize) -> bool {
        matches!(len, 1..=4)
    }

    #[tactic(auto, unfolding(iloc_spec_grammar::specs::Syntax::lower))]
    fn normal(piece: ShortPiece) -> ShortPiece {
        piece.to_ascii_lowercase()
    }

    fn refusal() -> ParseError {
        ParseError::InvalidExtension
    }
}

/// What follows the region in a subdivision, as `tx` in `ustx`: 1 to 4 letters or digits, in lower case
/// (`unicode_subdivision_suffix` of UTS #35, section 3). Other texts are refused with `InvalidExtension`.
pub type SubdivisionSuffix = WordOf<SubdivisionSuffixKind, 4>;

/// The kind of currencies.
pub struct CurrencyTypeKind;

impl WordKind<3> for CurrencyTypeKind {
    ghost use Rattle.std.specs.Prelude.{refl};
    ghost use Rattle.iloc_spec_grammar.specs.Syntax.{CurrencyType as the_kind};
    ghost use Rattle.iloc_subtags.specs.declared.parse_error.ParseError.TheVariants.{InvalidExtension};
    ghost use Rattle.iloc_subtags.specs.KindLaws.{currency_fits};

    ghost kind = { the_kind };

    ghost refusal = { InvalidExtension };

    ghost fits = { currency_fits };

    ghost faulty = { tt };

    ghost size = { refl };

    #[tactic(auto, unfolding(iloc_spec_grammar::specs::Syntax::is_word))]
    fn accepts(piece: ShortPiece) -> bool {
        piece.len() == 3 && piece.is_ascii_alphabetic()
    }

    #[inline(always)]
    #[tactic(auto, unfolding(crate::specs::Lengths::has_length))]
    fn has_length(len: usize) -> bool {
        len == 3
    }

    #[tactic(auto, unfolding(iloc_spec_grammar::specs::Syntax::lower))]
    fn normal(piece: ShortPiece) -> ShortPiece {
        piece.to_ascii_lowercase()
    }

    fn refusal() -> ParseError {
        ParseError::InvalidExtension
    }
}

/// A currency, as `usd`: 3 letters, in lower case (the value of the keyword `cu` of UTS #35, section 3).
/// Other texts are refused with `InvalidExtension`.
pub type CurrencyType = WordOf<CurrencyTypeKind, 3>;

impl WordOf<CurrencyTypeKind, 3> {
    /// The code of ISO 4217: the text in upper case, as `USD`.
    #[inline(always)]
    pub fn iso_code(self) -> TinyAsciiStr<3>
        ensures { result ≡ upper self }
    {
        // Its letters are in lower case, and bit 5 alone makes them so.
        TinyAsciiStr::from_piece(ShortPiece::of_number(self.to_piece().number() - 0x20_2020))
    }
}
