//! The subtags of identifiers: languages, scripts, regions, variants, and `Subtag`, of 2 to 8 letters or digits.
ghost use Rattle.std.specs.Prelude.{codes, IsTrue, ◌≡◌, ◌↔◌, ◌==◌, ◌≤◌, length};
ghost use Rattle.iloc_spec_grammar.specs.Syntax.{lower, letters, read, two_or_three};
ghost use Rattle.iloc_spec_grammar.specs.Syntax as words;
ghost use Rattle.iloc_spec_grammar.specs.Values.{IsNormal};
ghost use Rattle.iloc_subtags.specs.declared.parse_error.ParseError.TheVariants.{InvalidLanguage, InvalidSubtag};
ghost use Rattle.iloc_subtags.specs.RawForms.{ReadsRaw};

use crate::kind::WordKind;
use crate::parse_error::ParseError;
use crate::word_of::{WordOf, is_normal, subtag_of_normal};
use iloc_tinystr::{ShortPiece, TinyAsciiStr};

/// The kind of languages.
pub struct LanguageKind;

impl WordKind<8> for LanguageKind {
    ghost use Rattle.std.specs.Prelude.{refl};
    ghost use Rattle.iloc_spec_grammar.specs.Syntax.{Language as the_kind, languages};
    ghost use Rattle.iloc_subtags.specs.declared.parse_error.ParseError.TheVariants.{InvalidLanguage};
    ghost use Rattle.iloc_subtags.specs.KindLaws.{language_fits};

    ghost kind = { the_kind languages };

    ghost refusal = { InvalidLanguage };

    ghost fits = { language_fits };

    ghost faulty = { tt };

    ghost size = { refl };

    #[tactic(auto, unfolding(iloc_spec_grammar::specs::Syntax::is_word, iloc_spec_grammar::specs::Syntax::languages))]
    fn accepts(piece: ShortPiece) -> bool {
        matches!(piece.len(), 2..=3 | 5..=8) && piece.is_ascii_alphabetic()
    }

    #[inline(always)]
    #[tactic(auto, unfolding(crate::specs::Lengths::has_length, iloc_spec_grammar::specs::Syntax::languages))]
    fn has_length(len: usize) -> bool {
        matches!(len, 2..=3 | 5..=8)
    }

    #[tactic(auto, unfolding(iloc_spec_grammar::specs::Syntax::lower))]
    fn normal(piece: ShortPiece) -> ShortPiece {
        piece.to_ascii_lowercase()
    }

    fn refusal() -> ParseError {
        ParseError::InvalidLanguage
    }
}

/// A language, as `en`, `und` or `german`: 2, 3 or 5 to 8 letters, in lower case
/// (`unicode_language_subtag` of UTS #35, section 3). Other texts are refused with `InvalidLanguage`.
pub type Language = WordOf<LanguageKind, 8>;

impl WordOf<LanguageKind, 8> {
    /// The unknown language, `und`.
    pub fn unknown() -> Language
        ensures { result ≡ codes "und" }
    {
        subtag_of_normal(ShortPiece::of_number(0x0064_6e75))
    }

    /// Whether the language is `und`.
    pub fn is_unknown(self) -> bool
        ensures { IsTrue result ↔ (self ≡ codes "und") }
    {
        self == Language::unknown()
    }

    /// The language of a raw form of three bytes, as they were when languages had 2 or 3 letters: the
    /// normal text, followed by zeros. Any other bytes are refused with `InvalidLanguage`.
    pub fn try_from_raw_v1(raw: [u8; 3]) -> Result<Language, ParseError>
        ensures { ReadsRaw 3 (words.Language two_or_three) InvalidLanguage raw result }
    {
        let Some(text) = TinyAsciiStr::<3>::try_from_raw(raw) else {
            return Err(ParseError::InvalidLanguage);
        };
        Language::from_normal(text.to_piece())
    }
}

/// The kind of scripts.
pub struct ScriptKind;

impl WordKind<4> for ScriptKind {
    ghost use Rattle.std.specs.Prelude.{refl};
    ghost use Rattle.iloc_spec_grammar.specs.Syntax.{Script as the_kind};
    ghost use Rattle.iloc_subtags.specs.declared.parse_error.ParseError.TheVariants.{InvalidSubtag};
    ghost use Rattle.iloc_subtags.specs.KindLaws.{script_fits};

    ghost kind = { the_kind };

    ghost refusal = { InvalidSubtag };

    ghost fits = { script_fits };

    ghost faulty = { tt };

    ghost size = { refl };

    #[tactic(auto, unfolding(iloc_spec_grammar::specs::Syntax::is_word))]
    fn accepts(piece: ShortPiece) -> bool {
        piece.len() == 4 && piece.is_ascii_alphabetic()
    }

    #[inline(always)]
    #[tactic(auto, unfolding(crate::specs::Lengths::has_length))]
    fn has_length(len: usize) -> bool {
        len == 4
    }

    #[tactic(auto, unfolding(iloc_spec_grammar::specs::Syntax::lower, iloc_spec_grammar::specs::Syntax::upper, iloc_spec_grammar::specs::Syntax::title))]
    fn normal(piece: ShortPiece) -> ShortPiece {
        piece.to_ascii_titlecase()
    }

    fn refusal() -> ParseError {
        ParseError::InvalidSubtag
    }
}

/// A script, as `Latn`: 4 letters, the first in upper case and the others in lower case
/// (`unicode_script_subtag` of UTS #35, section 3). Other texts are refused with `InvalidSubtag`.
pub type Script = WordOf<ScriptKind, 4>;

/// The kind of regions.
pub struct RegionKind;

impl WordKind<3> for RegionKind {
    ghost use Rattle.std.specs.Prelude.{refl};
    ghost use Rattle.iloc_spec_grammar.specs.Syntax.{Region as the_kind};
    ghost use Rattle.iloc_subtags.specs.declared.parse_error.ParseError.TheVariants.{InvalidSubtag};
    ghost use Rattle.iloc_subtags.specs.KindLaws.{region_fits};

    ghost kind = { the_kind };

    ghost refusal = { InvalidSubtag };

    ghost fits = { region_fits };

    ghost faulty = { tt };

    ghost size = { refl };

    #[tactic(auto, unfolding(iloc_spec_grammar::specs::Syntax::is_word))]
    fn accepts(piece: ShortPiece) -> bool {
        match piece.len() {
            2 => piece.is_ascii_alphabetic(),
            3 => piece.is_ascii_numeric(),
            _ => false,
        }
    }

    #[inline(always)]
    #[tactic(auto, unfolding(crate::specs::Lengths::has_length))]
    fn has_length(len: usize) -> bool {
        matches!(len, 2..=3)
    }

    #[tactic(auto, unfolding(iloc_spec_grammar::specs::Syntax::upper))]
    fn normal(piece: ShortPiece) -> ShortPiece {
        piece.to_ascii_uppercase()
    }

    fn refusal() -> ParseError {
        ParseError::InvalidSubtag
    }
}

/// A region, as `US` or `419`: 2 letters, in upper case, or 3 digits (`unicode_region_subtag` of UTS #35,
/// section 3). Other texts are refused with `InvalidSubtag`.
pub type Region = WordOf<RegionKind, 3>;

impl WordOf<RegionKind, 3> {
    /// Whether the region is one of two letters, and not one of three digits.
    pub fn is_alphabetic(&self) -> bool
        ensures two { result ≡ (length self.now == 2) }
        ensures letters { result ≡ letters self.now }
    {
        is_normal(self);
        self.into_raw()[2] == 0
    }
}

/// The kind of variants.
pub struct VariantKind;

impl WordKind<8> for VariantKind {
    ghost use Rattle.std.specs.Prelude.{refl};
    ghost use Rattle.iloc_spec_grammar.specs.Syntax.{Variant as the_kind};
    ghost use Rattle.iloc_subtags.specs.declared.parse_error.ParseError.TheVariants.{InvalidSubtag};
    ghost use Rattle.iloc_subtags.specs.KindLaws.{variant_fits};

    ghost kind = { the_kind };

    ghost refusal = { InvalidSubtag };

    ghost fits = { variant_fits };

    ghost faulty = { tt };

    ghost size = { refl };

    #[tactic(auto, unfolding(iloc_spec_grammar::specs::Syntax::is_word))]
    fn accepts(piece: ShortPiece) -> bool {
        matches!(piece.len(), 4..=8)
            && piece.is_ascii_alphanumeric()
            && (piece.len() > 4 || piece.first().is_ascii_digit())
    }

    #[inline(always)]
    #[tactic(auto, unfolding(crate::specs::Lengths::has_length))]
    fn has_length(len: usize) -> bool {
        matches!(len, 4..=8)
    }

    #[tactic(auto, unfolding(iloc_spec_grammar::specs::Syntax::lower))]
    fn normal(piece: ShortPiece) -> ShortPiece {
        piece.to_ascii_lowercase()
    }

    fn refusal() -> ParseError {
        ParseError::InvalidSubtag
    }
}

/// A variant, as `posix` or `1996`: 5 to 8 letters or digits, or a digit and 3 letters or digits, in lower
/// case (`unicode_variant_subtag` of UTS #35, section 3). Other texts are refused with `InvalidSubtag`.
pub type Variant = WordOf<VariantKind, 8>;

/// The kind of subtags of any sort.
pub struct SubtagKind;

impl WordKind<8> for SubtagKind {
    ghost use Rattle.std.specs.Prelude.{refl};
    ghost use Rattle.iloc_spec_grammar.specs.Syntax.{Subtag as the_kind};
    ghost use Rattle.iloc_subtags.specs.declared.parse_error.ParseError.TheVariants.{InvalidSubtag};
    ghost use Rattle.iloc_subtags.specs.KindLaws.{subtag_fits};

    ghost kind = { the_kind };

    ghost refusal = { InvalidSubtag };

    ghost fits = { subtag_fits };

    ghost faulty = { tt };

    ghost size = { refl };

    #[tactic(auto, unfolding(iloc_spec_grammar::specs::Syntax::is_word))]
    fn accepts(piece: ShortPiece) -> bool {
        matches!(piece.len(), 2..=8) && piece.is_ascii_alphanumeric()
    }

    #[inline(always)]
    #[tactic(auto, unfolding(crate::specs::Lengths::has_length))]
    fn has_length(len: usize) -> bool {
        matches!(len, 2..=8)
    }

    #[tactic(auto, unfolding(iloc_spec_grammar::specs::Syntax::lower))]
    fn normal(piece: ShortPiece) -> ShortPiece {
        piece.to_ascii_lowercase()
    }

    fn refusal() -> ParseError {
        ParseError::InvalidSubtag
    }
}

/// Any subtag, as `buddhist`: 2 to 8 letters or digits, in lower case (`alphanum{2,8}` of UTS #35,
/// section 3). Other texts are refused with `InvalidSubtag`.
pub type Subtag = WordOf<SubtagKind, 8>;

impl WordOf<SubtagKind, 8> {
    /// How many bytes the text has: 2 to 8.
    pub fn len(&self) -> usize
        ensures value { result ≡ length self.now }
        ensures least { 2 ≤ result }
        ensures most { result ≤ 8 }
    {
        self.to_tinystr().len()
    }

    /// The text as a short text.
    pub fn as_tinystr(&self) -> TinyAsciiStr<8>
        ensures { result ≡ self.now }
    {
        TinyAsciiStr::from(*self)
    }

    /// Whether the text is exactly this one, its case too.
    pub fn eq_str(&self, other: &str) -> bool
        ensures { IsTrue result ↔ (self.now ≡ other.now) }
    {
        self.as_str() == other
    }

    /// The subtag of a text of 2 to 8 lower-case letters or digits.
    pub fn from_tinystr_unvalidated(input: TinyAsciiStr<8>) -> Subtag
        requires { IsNormal words.Subtag input }
        ensures { result ≡ input }
    {
        subtag_of_normal(input.to_piece())
    }
}

/// The subtag of a short text, in any case. Other texts are refused with `InvalidSubtag`.
impl<const M: usize> TryFrom<TinyAsciiStr<M>> for Subtag {
    type Error = ParseError;

    ghost try_from_gives = { λ text r. r ≡ read words.Subtag InvalidSubtag text };

    fn try_from(value: TinyAsciiStr<M>) -> Result<Subtag, ParseError> {
        Subtag::try_from_utf8(value.as_str().as_bytes())
    }
}

/// The script in lower case.
impl From<Script> for Subtag {
    ghost from_gives = { λ script subtag. subtag ≡ lower script };

    fn from(script: Script) -> Subtag {
        // The first letter alone is in upper case.
        subtag_of_normal(ShortPiece::of_number(script.to_piece().number() + 0x20))
    }
}
