//! Which kinds may come after what was read.
ghost use Rattle.std.specs.Prelude.{◌≡◌, ℕ, ◌<◌, ◌^◌, List, length, true, false, is_none};
ghost use Rattle.std.specs.Int.{bit_at};
ghost use Rattle.iloc_spec_grammar.specs.Syntax.{Text};
ghost use Rattle.iloc_expected.specs.Kinds.{has};
ghost use Rattle.iloc_expected.specs.Readings.{IsReading, may_begin_block, may_have_variant, piece_bits, word_bits};
ghost use Rattle.iloc_expected.specs.Standing.{AreExpected, MayStand};
ghost use Rattle.iloc_expected.specs.declared.kinds.PieceKind.{PieceKind};

use crate::kinds::{Expected, PieceKind};
use crate::reading::Reading;
use iloc_faults::state::{Part, Stage, may_end, takes_any};
use iloc_normalize::Mode;

// The bits of kinds.
const LANGUAGE: u16 = 1;

const SCRIPT: u16 = 1 << 1;

const REGION: u16 = 1 << 2;

const ATTRIBUTE: u16 = 1 << 5;

const KEY: u16 = 1 << 6;

const VALUE: u16 = 1 << 7;

const FIELD: u16 = 1 << 8;

const OTHER: u16 = 1 << 9;

const PRIVATE: u16 = 1 << 10;

const FIELD_VALUE: u16 = 1 << 11;

// Whether a singleton is left: one of 36 bits is not set.
fn has_singleton_left(seen: u64) -> bool
    ensures some { result ≡ true → (k : ℕ) × (k < 36) × (bit_at seen k ≡ 0) }
    ensures none { result ≡ false → (k : ℕ) → k < 36 → bit_at seen k ≡ 1 }
{
    for place in 0u32..36 {
        if seen >> place & 1 == 0 {
            return true;
        }
    }
    false
}

// Whether an extension may begin after the part: `left`, whether a singleton is left.
fn may_begin_block(mode: Mode, part: Part, left: bool) -> bool
    ensures { result ≡ may_begin_block mode part left }
{
    match mode {
        Mode::Langid => false,
        Mode::Locale => may_end(part) && !takes_any(part) && left,
        Mode::Data => match part {
            Part::Head(_) => true,
            _ => false,
        },
    }
}

// Whether a variant may come after the part: a data locale has one. `none`, whether none was read.
fn may_have_variant(mode: Mode, part: Part, none: bool) -> bool
    ensures { result ≡ may_have_variant mode part none }
{
    match part {
        Part::Head(_) | Part::Source(_) => match mode {
            Mode::Data => none,
            _ => true,
        },
        _ => false,
    }
}

// The bits of script and region, if they may come after words up to this stage.
fn word_bits(stage: Stage) -> u16
    ensures { result ≡ word_bits stage }
{
    match stage {
        Stage::Language => SCRIPT | REGION,
        Stage::Script => REGION,
        Stage::Region => 0,
    }
}

// The bits of the other kinds that may come after the part.
fn piece_bits(part: Part, keyed: bool) -> u16
    ensures { result ≡ piece_bits part keyed }
{
    match part {
        Part::Start => LANGUAGE,
        Part::Head(stage) => word_bits(stage),
        Part::Transform => LANGUAGE | FIELD,
        Part::Source(stage) => word_bits(stage) + FIELD,
        Part::FieldKey => FIELD_VALUE,
        Part::FieldValue => FIELD | FIELD_VALUE,
        Part::Unicode => ATTRIBUTE | KEY,
        Part::Keyword if keyed => KEY | VALUE,
        Part::Keyword => ATTRIBUTE | KEY,
        Part::Other | Part::OtherWord => OTHER,
        Part::Private | Part::PrivateWord => PRIVATE,
        Part::Subdivision => KEY,
        Part::SubdivisionKey | Part::SubdivisionValue => VALUE,
    }
}

/// The kinds that may come after what was read.
pub fn kinds_after(mode: Mode, reading: Reading) -> Expected
    ensures all { (ps : List Text) → IsReading mode ps reading → (kind : PieceKind)
        → MayStand mode ps kind → has result kind ≡ true }
    ensures exact { (ps : List Text) → IsReading mode ps reading → length ps < 2 ^ 40
        → AreExpected mode ps result }
{
    let part = reading.state.part;
    let none = reading.state.variants.is_none();
    let left = has_singleton_left(reading.state.seen);
    let pieces = Expected {
        bits: piece_bits(part, reading.keyed),
    };
    let words = pieces.with(PieceKind::Variant, may_have_variant(mode, part, none));
    let all = words.with(PieceKind::Singleton, may_begin_block(mode, part, left));
    all.with(PieceKind::End, may_end(part))
}
