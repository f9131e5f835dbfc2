//! Which words a piece may be, by its shape: a bit for each byte, the first one lowest, set if it is a digit, and a last one
//! above them. A piece with another byte has the shape 0.
ghost use Rattle.std.specs.Prelude.{◌≡◌};
ghost use Rattle.iloc_spec_grammar.specs.Syntax.{
  Text,
  is_word,
  Attribute,
  CurrencyType,
  Language,
  PrivateSubtag,
  Region,
  Script,
  SubdivisionSuffix,
  Subtag,
  TransformKey,
  UnicodeKey,
  Variant,
  languages,
};
ghost use Rattle.iloc_pieces.specs.Shape.{shape_of};

/// Two, three or five to eight letters.
#[tactic(auto, using(crate::proofs::Tests::language_is))]
#[inline(always)]
pub fn is_language(shape: usize) -> bool
    ensures { (p : Text) → shape_of p ≡ shape → result ≡ is_word (Language languages) p }
{
    matches!(shape, 4 | 8 | 32 | 64 | 128 | 256)
}

/// Four letters.
#[tactic(auto, using(crate::proofs::Tests::script_is))]
#[inline(always)]
pub fn is_script(shape: usize) -> bool
    ensures { (p : Text) → shape_of p ≡ shape → result ≡ is_word Script p }
{
    shape == 16
}

/// Two letters or three digits.
#[tactic(auto, using(crate::proofs::Tests::region_is))]
#[inline(always)]
pub fn is_region(shape: usize) -> bool
    ensures { (p : Text) → shape_of p ≡ shape → result ≡ is_word Region p }
{
    shape == 4 || shape == 15
}

/// Five to eight bytes, or four of which the first is a digit.
#[tactic(auto, using(crate::proofs::Tests::variant_is))]
#[inline(always)]
pub fn is_variant(shape: usize) -> bool
    ensures { (p : Text) → shape_of p ≡ shape → result ≡ is_word Variant p }
{
    if shape < 32 {
        return shape > 16 && shape & 1 == 1;
    }
    shape < 512
}

/// Two bytes, the second one a letter.
#[tactic(auto, using(crate::proofs::Tests::key_is))]
#[inline(always)]
pub fn is_key(shape: usize) -> bool
    ensures { (p : Text) → shape_of p ≡ shape → result ≡ is_word UnicodeKey p }
{
    shape | 1 == 5
}

/// A letter and a digit.
#[tactic(auto, using(crate::proofs::Tests::field_key_is))]
#[inline(always)]
pub fn is_field_key(shape: usize) -> bool
    ensures { (p : Text) → shape_of p ≡ shape → result ≡ is_word TransformKey p }
{
    shape == 6
}

/// Three to eight bytes.
#[tactic(auto, using(crate::proofs::Tests::attribute_is))]
#[inline(always)]
pub fn is_attribute(shape: usize) -> bool
    ensures { (p : Text) → shape_of p ≡ shape → result ≡ is_word Attribute p }
{
    shape >= 8 && shape < 512
}

/// Two to eight bytes.
#[tactic(auto, using(crate::proofs::Tests::subtag_is))]
#[inline(always)]
pub fn is_subtag(shape: usize) -> bool
    ensures { (p : Text) → shape_of p ≡ shape → result ≡ is_word Subtag p }
{
    shape >= 4 && shape < 512
}

/// One to eight bytes.
#[tactic(auto, using(crate::proofs::Tests::private_is))]
#[inline(always)]
pub fn is_private(shape: usize) -> bool
    ensures { (p : Text) → shape_of p ≡ shape → result ≡ is_word PrivateSubtag p }
{
    shape >= 2 && shape < 512
}

/// One to four bytes.
#[tactic(auto, using(crate::proofs::Tests::suffix_is))]
#[inline(always)]
pub fn is_suffix(shape: usize) -> bool
    ensures { (p : Text) → shape_of p ≡ shape → result ≡ is_word SubdivisionSuffix p }
{
    shape >= 2 && shape < 32
}

/// Three letters.
#[tactic(auto, using(crate::proofs::Tests::currency_is))]
#[inline(always)]
pub fn is_currency(shape: usize) -> bool
    ensures { (p : Text) → shape_of p ≡ shape → result ≡ is_word CurrencyType p }
{
    shape == 8
}
