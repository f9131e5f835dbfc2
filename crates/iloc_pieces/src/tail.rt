//! What follows the language.
ghost use Rattle.std.specs.Prelude.{◌≡◌, ◌-◌, ◌≤◌, ◌<◌, length, IsTrue};
ghost use Rattle.iloc_pieces.specs.PlainShape.{part};
ghost use Rattle.iloc_pieces.specs.Plain.{AreAboveLeast, AreAllowed, AreNormal, MayHaveShape};

use std::simd::prelude::*;

// What may stand at a place: those bits of a byte that count are `least`, or at most `span` more. As many more than
// `normal` is the byte of the normal text.
#[derive(Clone, Copy, Drop)]
struct Place {
    mask: u8,
    least: u8,
    span: u8,
    normal: u8,
}

const LOWER: Place = Place {
    mask: !0x20,
    least: b'A',
    span: 25,
    normal: b'a',
};

const UPPER: Place = Place {
    mask: !0x20,
    least: b'A',
    span: 25,
    normal: b'A',
};

const HYPHEN: Place = Place {
    mask: !0,
    least: b'-',
    span: 0,
    normal: b'-',
};

const DIGIT: Place = Place {
    mask: !0,
    least: b'0',
    span: 9,
    normal: b'0',
};

const ANY: Place = Place {
    mask: 0,
    least: 0,
    span: 0,
    normal: 0,
};

// What a plain identifier has after its language: a row of the table of shapes. Its lists have a number for each
// place: eight for the language, the last of which is its last byte, and then sixteen for what follows.
#[derive(Clone, Copy, Drop)]
pub(crate) struct Tail {
    mask: [u8; 24],
    least: [u8; 24],
    span: [u8; 24],
    normal: [u8; 24],
    // Whether a script comes first.
    pub(crate) has_script: bool,
    // The length of the region; 0 if there is none.
    pub(crate) region: usize,
}

// One list of a row.
macro_rules! list {
    ($field:ident $($place:ident)*) => {
        [
            LOWER.$field, LOWER.$field, LOWER.$field, LOWER.$field, LOWER.$field, LOWER.$field, LOWER.$field,
            LOWER.$field, $($place.$field),*
        ]
    };
}

// The row of what stands at the sixteen places after the language.
macro_rules! tail {
    ($has_script:literal $region:literal $($place:ident)*) => {
        Tail {
            mask: list!(mask $($place)*),
            least: list!(least $($place)*),
            span: list!(span $($place)*),
            normal: list!(normal $($place)*),
            has_script: $has_script,
            region: $region,
        }
    };
}

// The row of lengths that no shape has: no byte may stand there.
const NO_TAIL: Tail = Tail {
    mask: [0; 24],
    least: [1; 24],
    span: [0; 24],
    normal: [0; 24],
    has_script: false,
    region: 0,
};

// The rows, by the length of what follows the language: nothing (0), `-US` (3), `-419` (4), `-Latn` (5),
// `-Latn-US` (8), `-Latn-419` (9).
const TAILS: [Tail; 16] = [
    tail!(false 0 ANY ANY ANY ANY ANY ANY ANY ANY ANY ANY ANY ANY ANY ANY ANY ANY),
    NO_TAIL,
    NO_TAIL,
    tail!(false 2 HYPHEN UPPER UPPER ANY ANY ANY ANY ANY ANY ANY ANY ANY ANY ANY ANY ANY),
    tail!(false 3 HYPHEN DIGIT DIGIT DIGIT ANY ANY ANY ANY ANY ANY ANY ANY ANY ANY ANY ANY),
    tail!(true 0 HYPHEN UPPER LOWER LOWER LOWER ANY ANY ANY ANY ANY ANY ANY ANY ANY ANY ANY),
    NO_TAIL,
    NO_TAIL,
    tail!(true 2
        HYPHEN UPPER LOWER LOWER LOWER HYPHEN UPPER UPPER ANY ANY ANY ANY ANY ANY ANY ANY),
    tail!(true 3
        HYPHEN UPPER LOWER LOWER LOWER HYPHEN DIGIT DIGIT DIGIT ANY ANY ANY ANY ANY ANY ANY),
    NO_TAIL,
    NO_TAIL,
    NO_TAIL,
    NO_TAIL,
    NO_TAIL,
    NO_TAIL,
];

// The part of a list that belongs to sixteen bytes, of which the first are a language of that length.
#[inline(always)]
fn part_of(list: &[u8; 24], language: usize) -> u8x16
    requires { language ≤ 8 }
    ensures part { result ≡ part 16 (8 - language) list.now }
    ensures long { length result ≡ 16 }
{
    u8x16::from_slice(&list[8 - language..])
}

impl Tail {
    // What a plain identifier has after its language, in so many bytes.
    #[inline(always)]
    pub(crate) fn of(len: usize) -> &'static Tail
        requires { len < 16 }
        ensures { MayHaveShape len result.now }
    {
        &TAILS[len]
    }

    // How far each byte is above the least that may stand at its place. The first are a language of that length.
    #[inline(always)]
    pub(crate) fn above_least(&self, v: u8x16, language: usize) -> u8x16
        requires { language ≤ 8 }
        ensures { AreAboveLeast self.now language v result }
    {
        (v & part_of(&self.mask, language)) - part_of(&self.least, language)
    }

    // Whether none is further above it than may be.
    #[inline(always)]
    pub(crate) fn allows(&self, above: u8x16, language: usize) -> bool
        requires { language ≤ 8 }
        ensures { IsTrue result → AreAllowed self.now language above }
    {
        above.simd_le(part_of(&self.span, language)).all()
    }

    // The bytes of the normal text.
    #[inline(always)]
    pub(crate) fn in_normal(&self, above: u8x16, language: usize) -> u8x16
        requires { language ≤ 8 }
        ensures long { length result ≡ 16 }
        ensures bytes { AreNormal self.now language above result }
    {
        above + part_of(&self.normal, language)
    }
}
