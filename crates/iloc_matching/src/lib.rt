//! Ranges of locales: whether a locale is one of those that a range stands for, as `zh-Hant-TW` is one of `zh-TW`.
//!
//! It promises the extended filtering of RFC 4647 over normal texts (`Matches`), with `und` for the wildcard. It allocates
//! nothing. Each law is a function with an empty body, whose contract says it.
//!
//! It stands on the pieces of texts, and knows no value.
#![tactic(auto)]

ghost use Rattle.std.specs.Prelude.{◌≡◌, ◌↔◌, ◌∷◌, ◌++◌, IsTrue, codes};
ghost use Rattle.iloc_spec_grammar.specs.Syntax.{Text, pieces};
ghost use Rattle.iloc_subtags.specs.Left.{left};
ghost use Rattle.iloc_matching.specs.Range.{Follows, Matches};

use iloc_subtags::SubtagIterator;

/// Whether a locale matches a range, both by their normal texts: the extended filtering of RFC 4647, section 3.3.2, with
/// `und` for `*`.
///
/// The first subtag of the range is `und` or that of the locale. The others stand in the locale in the same order; what stands
/// between them is passed over, unless it is a singleton. It allocates nothing.
///
/// ```
/// assert!(matches(b"zh-Hant-TW", b"zh-TW"));
/// assert!(matches(b"de-US", b"und-US"));
/// assert!(!matches(b"en-x-us", b"en-US"));
/// ```
pub fn matches(text: &[u8], range: &[u8]) -> bool
    ensures { IsTrue result ↔ Matches (pieces text.now) (pieces range.now) }
{
    let mut given = SubtagIterator::new(text);
    let mut wanted = SubtagIterator::new(range);
    match (given.next(), wanted.next()) {
        (Some(first), Some(language)) => {
            (language == b"und".as_slice() || language == first) && follows(given, wanted)
        }
        _ => false,
    }
}

// Whether the pieces that are wanted stand in their order among those that are given, with no singleton between.
fn follows(given: SubtagIterator<'_>, mut wanted: SubtagIterator<'_>) -> bool
    ensures { IsTrue result ↔ Follows (left wanted.entry) (left given.entry) }
{
    for piece in given {
        let Some(next) = wanted.peek() else {
            return true;
        };
        if next == piece {
            wanted = wanted.next_const().0;
        } else if piece.len() == 1 {
            return false;
        }
    }
    wanted.peek().is_none()
}

/// Each text matches `und`, itself, and what is left of it where it is cut at a hyphen; and what matches a range matches each
/// range that the range matches.
#[tactic(auto, using(crate::proofs::Laws::everything, crate::proofs::Laws::itself, crate::proofs::Laws::cut, crate::proofs::Laws::transitive))]
pub fn matching()
    ensures everything { (t : Text) → Matches (pieces t) (pieces (codes "und")) }
    ensures itself { (t : Text) → Matches (pieces t) (pieces t) }
    ensures cut { (t rest : Text) → Matches (pieces (t ++ 45 ∷ rest)) (pieces t) }
    ensures transitive { (t u v : Text) → Matches (pieces t) (pieces u)
        → Matches (pieces u) (pieces v)
        → Matches (pieces t) (pieces v) }
{}
